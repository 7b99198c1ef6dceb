//! Declarations, and the bodies of subprograms among them (Ada RM 3.11, 6.3).

ghost use Rattle.std.specs.Prelude.{◌≡◌, IfOk, OnOk, Some};
ghost use Rattle.program_scope.specs.Homes.{home_of};
ghost use Rattle.statement_typing.specs.Tellings as tellings;
ghost use Rattle.statement_typing.specs.Units as units;
ghost use Rattle.syntax_view.specs.View.{body_of, decl, decls_of, heading_of, sub_of};

use crate::Starved;
use crate::bodies::with_statements;
use crate::numbering::body_numbers;
use crate::simple::{pragma_declared, subtype_declared, type_declared};
use ada_syntax::{Body, Decl, DeclForm, Sub};
use object_reader::object_declared;
use program_scope::Home;
use routine_reader::with_heading;
use sqlite_items::Items;
use statement_typing::Draft;
use std::alloc::Global;
use subprogram_draft::{indexes_so_far, number_of, opened};
use type_base::Refusal;

/// A declaration is typed, and entered into the draft where no rule is broken. `Err` where memory was refused.
#[tactic(auto, using(syntax_view::proofs::Forms::decl_has))]
#[cycle(declared)]
fn declared(
    alloc: Global,
    home: &Home,
    declaration: &Decl,
    draft: &mut Draft,
    told: Option<Refusal>,
) -> Result<Option<Refusal>, Starved>
    ensures draft { OnOk result (draft.new ≡ units.declared (home_of home.now) (decl declaration.now) draft.old) }
    ensures told { IfOk result (λ t. t ≡ tellings.decl_told (home_of home.now) (decl declaration.now) draft.old told) }
{
    let place = home.place_at(declaration.span);
    match declaration.form.get() {
        DeclForm::Type(name, ty) => {
            type_declared(alloc, home, *name, ty.form.get(), draft, told)
        }
        DeclForm::Subtype(name, subtype) => {
            subtype_declared(alloc, home, *name, subtype, draft, told)
        }
        DeclForm::Object(names, object) => {
            object_declared(alloc, home, place, names.as_slice(), object, draft, told)
        }
        DeclForm::Sub(sub) => sub_declared(alloc, home, sub, draft, told),
        DeclForm::Pragma(pragma) => pragma_declared(alloc, home, place, pragma, draft, told),
        DeclForm::Use(_) => Ok(told),
    }
}

/// A subprogram's declaration or body. `Err` where memory was refused.
#[cycle(declared)]
pub(crate) fn sub_declared(
    alloc: Global,
    home: &Home,
    sub: &Sub<Decl>,
    draft: &mut Draft,
    told: Option<Refusal>,
) -> Result<Option<Refusal>, Starved>
    ensures draft { OnOk result (draft.new ≡ units.sub_declared (home_of home.now) (sub_of decl sub.now) draft.old) }
    ensures told { IfOk result (λ t. t ≡ tellings.sub_told (home_of home.now) (sub_of decl sub.now) draft.old told) }
{
    let routine = number_of(home, sub.name);
    let first = home.file.is_first(sub.name);
    let told = with_heading(alloc, home, first, routine, sub, draft, told)?;
    match &sub.body {
        None => Ok(told),
        Some(body) => body_declared(alloc, home, routine, body, sub, draft, told),
    }
}

#[cycle(declared)]
fn body_declared(
    alloc: Global,
    home: &Home,
    routine: u32,
    body: &Body<Decl>,
    sub: &Sub<Decl>,
    draft: &mut Draft,
    told: Option<Refusal>,
) -> Result<Option<Refusal>, Starved>
    ensures draft { OnOk result (draft.new ≡ units.body_declared (home_of home.now) routine (heading_of sub.now) (body_of decl (Some body.now)) draft.old) }
    ensures told { IfOk result (λ t. t ≡ tellings.body_told (home_of home.now) routine (heading_of sub.now) (body_of decl (Some body.now)) draft.old told) }
{
    let numbers = body_numbers(alloc, indexes_so_far(draft, routine), body)?;
    let inside = Home {
        file: home.file,
        own: Some(routine),
        numbers: &numbers.numbers,
        globals: home.globals,
        routines: home.routines,
    };
    opened(alloc, draft);
    let told = all_declared(alloc, &inside, &body.declarations, draft, told)?;
    with_statements(alloc, &inside, routine, sub, body, &numbers, draft, told)
}

/// Declarations, in order. `Err` where memory was refused.
#[cycle(declared)]
pub(crate) fn all_declared(
    alloc: Global,
    home: &Home,
    declarations: &Items<Decl>,
    draft: &mut Draft,
    mut told: Option<Refusal>,
) -> Result<Option<Refusal>, Starved>
    ensures draft { OnOk result (draft.new ≡ units.all_declared (home_of home.now) (decls_of decl declarations.now) draft.old) }
    ensures told { IfOk result (λ t. t ≡ tellings.decls_told (home_of home.now) (decls_of decl declarations.now) draft.old told) }
{
    for declaration in declarations.as_slice() {
        told = declared(alloc, home, declaration, draft, told)?;
    }
    Ok(told)
}
