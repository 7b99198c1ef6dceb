//! Library units (Ada RM 7.1, 7.2, 10.1.1).

ghost use Rattle.std.specs.Prelude.{◌≡◌, IfOk, OnOk, option_map};
ghost use Rattle.program_scope.specs.Homes.{home_of};
ghost use Rattle.statement_typing.specs.Tellings as tellings;
ghost use Rattle.statement_typing.specs.Units as units;
ghost use Rattle.syntax_view.specs.View.{decl, decls_of, package_body_of, package_of, unit_form_of};
ghost use Rattle.syntax_view.specs.Trees as tree;

use crate::Starved;
use crate::declarations::{all_declared, sub_declared};
use ada_syntax::{Decl, Package, PackageBody, UnitForm};
use program_draft::package_named;
use program_scope::Home;
use routine_reader::package_aspects;
use sqlite_items::Items;
use statement_typing::Draft;
use std::alloc::Global;
use type_base::Refusal;

/// The private part of a package.
fn private_declared(
    alloc: Global,
    home: &Home,
    declarations: &Option<Items<Decl>>,
    draft: &mut Draft,
    told: Option<Refusal>,
) -> Result<Option<Refusal>, Starved>
    ensures draft { OnOk result (draft.new ≡ units.private_declared (home_of home.now) (option_map (decls_of decl) declarations.now) draft.old) }
    ensures told { IfOk result (λ t. t ≡ tellings.private_told (home_of home.now) (option_map (decls_of decl) declarations.now) draft.old told) }
{
    match declarations {
        None => Ok(told),
        Some(declarations) => all_declared(alloc, home, declarations, draft, told),
    }
}

fn package_declared(
    alloc: Global,
    home: &Home,
    declared: &Package,
    draft: &mut Draft,
    told: Option<Refusal>,
) -> Result<Option<Refusal>, Starved>
    ensures draft { OnOk result (draft.new ≡ units.unit_declared (home_of home.now) (tree.package_unit (package_of declared.now)) draft.old) }
    ensures told { IfOk result (λ t. t ≡ tellings.unit_told (home_of home.now) (tree.package_unit (package_of declared.now)) draft.old told) }
{
    let told = package_aspects(alloc, home, &draft.world, declared.aspects.as_slice(), told)?;
    package_named(alloc, home, declared, draft)?;
    let told = all_declared(alloc, home, &declared.declarations, draft, told)?;
    private_declared(alloc, home, &declared.private, draft, told)
}

fn package_body_declared(
    alloc: Global,
    home: &Home,
    body: &PackageBody,
    draft: &mut Draft,
    told: Option<Refusal>,
) -> Result<Option<Refusal>, Starved>
    ensures draft { OnOk result (draft.new ≡ units.unit_declared (home_of home.now) (tree.package_body_unit (package_body_of body.now)) draft.old) }
    ensures told { IfOk result (λ t. t ≡ tellings.unit_told (home_of home.now) (tree.package_body_unit (package_body_of body.now)) draft.old told) }
{
    let told = package_aspects(alloc, home, &draft.world, body.aspects.as_slice(), told)?;
    all_declared(alloc, home, &body.declarations, draft, told)
}

/// A unit is typed. `Err` where memory was refused.
pub(crate) fn unit_declared(
    alloc: Global,
    home: &Home,
    form: &UnitForm,
    draft: &mut Draft,
    told: Option<Refusal>,
) -> Result<Option<Refusal>, Starved>
    ensures draft { OnOk result (draft.new ≡ units.unit_declared (home_of home.now) (unit_form_of form.now) draft.old) }
    ensures told { IfOk result (λ t. t ≡ tellings.unit_told (home_of home.now) (unit_form_of form.now) draft.old told) }
{
    match form {
        UnitForm::Package(declared) => package_declared(alloc, home, declared, draft, told),
        UnitForm::PackageBody(body) => package_body_declared(alloc, home, body, draft, told),
        UnitForm::Sub(sub) => sub_declared(alloc, home, sub, draft, told),
    }
}
