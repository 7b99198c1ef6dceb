//! Profiles (Ada RM 6.1).

ghost use Rattle.std.specs.Prelude.{◌≡◌, IfOk, map, option_map};
ghost use Rattle.reading_scope.specs.Scopes.{scope_of};
ghost use Rattle.statement_rules.specs.Arounds as arounds;
ghost use Rattle.statement_typing.specs.Checks.{all_of};
ghost use Rattle.statement_typing.specs.Routines as routines;
ghost use Rattle.statement_typing.specs.Units as units;
ghost use Rattle.syntax_view.specs.View.{expr, heading_of, name_of, param_of};

use ada_syntax::{Decl, Expr as Tree, Name, Param, Sub};
use name_values::added;
use reading_scope::Scope;
use routine_rules::{formals_read, profile_read, result_read};
use sqlite_items::Items;
use statement_rules::Returns;
use statement_typing::{Formals, Profile};
use std::alloc::Global;
use subtype_reader::{marked_name, marked_subtype};
use type_base::Starved;
use typing_rules::Found;

fn formals(alloc: Global, scope: &Scope, param: &Param) -> Result<Found<Formals>, Starved>
    ensures { IfOk result (λ f. f ≡ routines.formals (scope_of scope.now) (param_of param.now)) }
{
    let subtype = marked_subtype(alloc, scope, &param.subtype)?;
    formals_read(
        alloc,
        scope.world(),
        scope.place(param.span.from),
        param.names.as_slice(),
        param.mode,
        subtype,
    )
}

fn all_formals(
    alloc: Global,
    scope: &Scope,
    params: &[Param],
) -> Result<Found<Items<Formals>>, Starved>
    ensures { IfOk result (λ f. f ≡ all_of (map (routines.formals (scope_of scope.now)) (map param_of params.now))) }
{
    let mut found = Found::Is(Items::new(alloc));
    for param in params {
        let more = match formals(alloc, scope, param) {
            Ok(more) => more,
            Err(error) => {
                drop(found);
                return Err(error);
            }
        };
        found = added(found, more)?;
    }
    Ok(found)
}

fn result_subtype(
    alloc: Global,
    scope: &Scope,
    name: &Option<Name<Tree>>,
) -> Result<Found<Option<u32>>, Starved>
    ensures { IfOk result (λ f. f ≡ routines.result_subtype (scope_of scope.now) (option_map (name_of expr) name.now)) }
{
    match name {
        None => Ok(Found::Is(None)),
        Some(name) => {
            let subtype = marked_name(alloc, scope, name)?;
            Ok(result_read(subtype))
        }
    }
}

/// The profile of a subprogram. `Err` where memory was refused.
pub fn profile(alloc: Global, scope: &Scope, sub: &Sub<Decl>) -> Result<Found<Profile>, Starved>
    ensures { IfOk result (λ f. f ≡ routines.profile (scope_of scope.now) (heading_of sub.now)) }
{
    let formals = all_formals(alloc, scope, sub.params.as_slice())?;
    match result_subtype(alloc, scope, &sub.result) {
        Ok(returned) => Ok(profile_read(formals, returned)),
        Err(error) => {
            drop(formals);
            Err(error)
        }
    }
}

/// What a subprogram returns, by the name of its result's subtype, None for a procedure. `Err` where memory was refused.
pub fn returns_of(
    alloc: Global,
    scope: &Scope,
    name: &Option<Name<Tree>>,
) -> Result<Returns, Starved>
    ensures { IfOk result (λ r. arounds.returns_of r ≡ units.returns_of (scope_of scope.now) (option_map (name_of expr) name.now)) }
{
    match name {
        None => Ok(Returns::Nothing),
        Some(name) => {
            let subtype = marked_name(alloc, scope, name)?;
            Ok(Returns::Value(subtype))
        }
    }
}
