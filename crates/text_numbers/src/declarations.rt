//! The indexes of the quantified expressions in a declarative part, in the order of the text. A nested body has its own.

ghost use Rattle.std.specs.Prelude.{◌≡◌, ◌++◌, OnOk, option_map};
ghost use Rattle.statement_typing.specs.Numbers.{in_bounds, in_decl, in_decls, in_subtype};
ghost use Rattle.syntax_view.specs.View.{bounds_of, decl, decls_of, sub_ind};

use crate::Starved;
use crate::expressions::{push_args, push_expr, push_name};
use crate::statements::push_option;
use ada_syntax::{Bounds, Decl, DeclForm, SubInd};
use sqlite_items::Items;

fn push_bounds(found: &mut Items<u32>, bounds: &Option<Bounds>) -> Result<(), Starved>
    ensures { OnOk result (found.new ≡ found.old ++ in_bounds (option_map bounds_of bounds.now)) }
{
    match bounds {
        None => Ok(()),
        Some(bounds) => {
            push_expr(found, &bounds.low)?;
            push_expr(found, &bounds.high)
        }
    }
}

fn push_subtype(found: &mut Items<u32>, subtype: &Option<SubInd>) -> Result<(), Starved>
    ensures { OnOk result (found.new ≡ found.old ++ in_subtype (option_map sub_ind subtype.now)) }
{
    match subtype {
        None => Ok(()),
        Some(subtype) => {
            push_name(found, &subtype.name)?;
            push_bounds(found, &subtype.bounds)
        }
    }
}

#[tactic(auto, using(syntax_view::proofs::Forms::decl_has, crate::proofs::Joined::joined))]
fn push_decl(found: &mut Items<u32>, declaration: &Decl) -> Result<(), Starved>
    ensures { OnOk result (found.new ≡ found.old ++ in_decl (decl declaration.now)) }
{
    match declaration.form.get() {
        DeclForm::Object(_, object) => {
            push_subtype(found, &object.subtype)?;
            push_option(found, &object.value)
        }
        DeclForm::Pragma(pragma) => push_args(found, &pragma.args),
        DeclForm::Type(_, _) | DeclForm::Subtype(_, _) | DeclForm::Sub(_) | DeclForm::Use(_) => {
            Ok(())
        }
    }
}

/// Adds the indexes of declarations: of the subtypes and values of objects, and of pragmas. The bounds of types are static.
pub(crate) fn push_decls(found: &mut Items<u32>, declarations: &Items<Decl>) -> Result<(), Starved>
    ensures { OnOk result (found.new ≡ found.old ++ in_decls (decls_of decl declarations.now)) }
{
    for declaration in declarations.as_slice() {
        push_decl(found, declaration)?;
    }
    Ok(())
}
