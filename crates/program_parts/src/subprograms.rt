//! The subprograms of a program, in the order of the files (Ada RM 6.1).

ghost use Rattle.std.specs.Prelude.{◌≡◌, ◌++◌, IfOk, OnOk, map, option_map};
ghost use Rattle.program_scope.specs.Homes.{file_of};
ghost use Rattle.statement_typing.specs.Units as units;
ghost use Rattle.syntax_view.specs.View.{decl, decls_of, sub_of, unit_form_of};

use crate::Starved;
use ada_syntax::{Decl, DeclForm, Sub, UnitForm};
use name_library::Spot;
use program_scope::File;
use sqlite_items::Items;
use std::alloc::Global;

/// Adds a subprogram where this is its first declaration.
fn routine_of(file: &File, sub: &Sub<Decl>, found: &mut Items<Spot>) -> Result<(), Starved>
    ensures { OnOk result (found.new ≡ found.old ++ units.routine_of (file_of file.now) (sub_of decl sub.now)) }
{
    if file.is_first(sub.name) {
        found.push(file.spot_of(sub.name))
    } else {
        Ok(())
    }
}

#[tactic(auto, using(syntax_view::proofs::Forms::decl_has))]
fn routines_in_decl(file: &File, declaration: &Decl, found: &mut Items<Spot>) -> Result<(), Starved>
    ensures { OnOk result (found.new ≡ found.old ++ units.routines_in_decl (file_of file.now) (decl declaration.now)) }
{
    match declaration.form.get() {
        DeclForm::Sub(sub) => routine_of(file, sub, found),
        _ => Ok(()),
    }
}

/// Adds the subprograms of declarations.
fn routines_in(
    file: &File,
    mut declarations: &[Decl],
    found: &mut Items<Spot>,
) -> Result<(), Starved>
    ensures { OnOk result (found.new ≡ found.old ++ units.routines_in (file_of file.now) (decls_of decl declarations.entry.now)) }
{
    while let [declaration, rest @ ..] = declarations {
        routines_in_decl(file, declaration, found)?;
        declarations = rest;
    }
    Ok(())
}

/// Adds the subprograms of the private part of a package.
fn hidden_routines(
    file: &File,
    declarations: &Option<Items<Decl>>,
    found: &mut Items<Spot>,
) -> Result<(), Starved>
    ensures { OnOk result (found.new ≡ found.old ++ units.hidden_routines (file_of file.now) (option_map (decls_of decl) declarations.now)) }
{
    match declarations {
        None => Ok(()),
        Some(declarations) => routines_in(file, declarations.as_slice(), found),
    }
}

/// Adds the subprograms of a unit.
fn unit_routines(file: &File, form: &UnitForm, found: &mut Items<Spot>) -> Result<(), Starved>
    ensures { OnOk result (found.new ≡ found.old ++ units.unit_routines (file_of file.now) (unit_form_of form.now)) }
{
    match form {
        UnitForm::Package(declared) => {
            routines_in(file, declared.declarations.as_slice(), found)?;
            hidden_routines(file, &declared.private, found)
        }
        UnitForm::PackageBody(body) => routines_in(file, body.declarations.as_slice(), found),
        UnitForm::Sub(sub) => routine_of(file, sub, found),
    }
}

/// The declaring identifiers of all subprograms, in the order of the files and of their first declarations. `Err` where
/// memory was refused.
pub fn routines(alloc: Global, mut files: &[File]) -> Result<Items<Spot>, Starved>
    ensures { IfOk result (λ found. found ≡ units.routines (map file_of files.entry.now)) }
{
    let mut found = Items::new(alloc);
    while let [file, rest @ ..] = files {
        unit_routines(file, file.unit.unit.form.get(), &mut found)?;
        files = rest;
    }
    Ok(found)
}
