//! The variables of packages, in the order of the files (Ada RM 7.1).

ghost use Rattle.std.specs.Prelude.{◌≡◌, ◌++◌, IfOk, OnOk, map, option_map};
ghost use Rattle.program_scope.specs.Homes.{file_of};
ghost use Rattle.statement_typing.specs.Units as units;
ghost use Rattle.syntax_view.specs.View.{decl, decls_of, unit_form_of};

use crate::Starved;
use ada_syntax::{Decl, DeclForm, UnitForm};
use ada_text::Span;
use ada_values::NameText;
use name_library::Spot;
use program_scope::File;
use sqlite_items::Items;
use statement_typing::Variable;
use std::alloc::Global;

/// `Package.Name`.
fn full_name(alloc: Global, package_name: &[u8], name: &[u8]) -> Result<NameText, Starved>
    ensures { IfOk result (λ full. full ≡ units.full_name package_name.now name.now) }
{
    let mut bytes = Items::from_slice(alloc, package_name)?;
    bytes.push(b'.')?;
    let rest = Items::from_slice(alloc, name)?;
    bytes.append(rest)?;
    NameText::from_bytes(alloc, bytes.as_slice())
}

fn variables_named(
    alloc: Global,
    file: &File,
    package_name: &[u8],
    mut names: &[Span],
    found: &mut Items<Variable>,
) -> Result<(), Starved>
    ensures { OnOk result (found.new ≡ found.old ++ units.variables_named (file_of file.now) package_name.now names.entry.now) }
{
    while let [name, rest @ ..] = names {
        let full = full_name(alloc, package_name, file.spelled(name.from))?;
        found.push(Variable {
            spot: file.spot_of(*name),
            name: full,
        })?;
        names = rest;
    }
    Ok(())
}

/// Adds the variables of a declaration.
#[tactic(auto, using(syntax_view::proofs::Forms::decl_has))]
fn variables_of(
    alloc: Global,
    file: &File,
    package_name: &[u8],
    declaration: &Decl,
    found: &mut Items<Variable>,
) -> Result<(), Starved>
    ensures { OnOk result (found.new ≡ found.old ++ units.variables_of (file_of file.now) package_name.now (decl declaration.now)) }
{
    match declaration.form.get() {
        DeclForm::Object(names, object) if !object.constant => {
            variables_named(alloc, file, package_name, names.as_slice(), found)
        }
        _ => Ok(()),
    }
}

/// Adds the variables of declarations.
fn variables_in(
    alloc: Global,
    file: &File,
    package_name: &[u8],
    mut declarations: &[Decl],
    found: &mut Items<Variable>,
) -> Result<(), Starved>
    ensures { OnOk result (found.new ≡ found.old ++ units.variables_in (file_of file.now) package_name.now (decls_of decl declarations.entry.now)) }
{
    while let [declaration, rest @ ..] = declarations {
        variables_of(alloc, file, package_name, declaration, found)?;
        declarations = rest;
    }
    Ok(())
}

/// Adds the variables of the private part of a package.
fn hidden_variables(
    alloc: Global,
    file: &File,
    package_name: &[u8],
    declarations: &Option<Items<Decl>>,
    found: &mut Items<Variable>,
) -> Result<(), Starved>
    ensures { OnOk result (found.new ≡ found.old ++ units.hidden_variables (file_of file.now) package_name.now (option_map (decls_of decl) declarations.now)) }
{
    match declarations {
        None => Ok(()),
        Some(declarations) => {
            variables_in(alloc, file, package_name, declarations.as_slice(), found)
        }
    }
}

/// The text of an identifier as it is declared; empty where there is no such file.
#[tactic(auto, using(crate::proofs::Dropped::one_of_mapped))]
pub fn declared_text<'f, 'a>(files: &'f [File<'a>], spot: Spot) -> &'f [u8]
    ensures { result.now ≡ units.declared_text (map file_of files.now) spot }
{
    match sqlite_items::at(files, spot.file as usize) {
        Some(file) => file.spelled(spot.at),
        None => &[],
    }
}

/// Adds the variables of a unit.
fn unit_variables(
    alloc: Global,
    files: &[File],
    file: &File,
    form: &UnitForm,
    found: &mut Items<Variable>,
) -> Result<(), Starved>
    ensures { OnOk result (found.new ≡ found.old ++ units.unit_variables (map file_of files.now) (file_of file.now) (unit_form_of form.now)) }
{
    match form {
        UnitForm::Package(declared) => {
            let name = file.spelled(declared.name.from);
            variables_in(alloc, file, name, declared.declarations.as_slice(), found)?;
            hidden_variables(alloc, file, name, &declared.private, found)
        }
        UnitForm::PackageBody(body) => {
            let name = declared_text(files, file.spot_of(body.name));
            variables_in(alloc, file, name, body.declarations.as_slice(), found)
        }
        UnitForm::Sub(_) => Ok(()),
    }
}

/// All variables of packages, in the order of the files and of their declarations, each with its full name. `Err` where
/// memory was refused.
pub fn variables(alloc: Global, files: &[File]) -> Result<Items<Variable>, Starved>
    ensures { IfOk result (λ found. found ≡ units.variables (map file_of files.now) (map file_of files.now)) }
{
    let mut found = Items::new(alloc);
    let mut left = files;
    while let [file, rest @ ..] = left {
        unit_variables(alloc, files, file, file.unit.unit.form.get(), &mut found)?;
        left = rest;
    }
    Ok(found)
}
