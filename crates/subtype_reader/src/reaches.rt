//! Ranges that are to be of the type that the context gives, by what they reach over (Ada RM 3.5).

ghost use Rattle.std.specs.Prelude.{◌≡◌, IfOk};
ghost use Rattle.reading_scope.specs.Scopes.{scope_of};
ghost use Rattle.statement_typing.specs.Asked.{is_wanted, number_type};
ghost use Rattle.subtype_reader.specs.Reaches.{of_type_wanted, range_of_want};

use crate::Starved;
use ada_values::Place;
use name_values::type_of;
use range_rules::reach_in;
use reading_scope::Scope;
use std::alloc::Global;
use type_base::{Code, INTEGER_BASE, Refusal, Want};
use typing_rules::{Between, Found, Reach};

/// The type that universal bounds take: that of the context, else Integer's.
fn number_type(want: Want) -> u32
    ensures { result ≡ number_type want }
{
    match want {
        Want::Type(ty) => ty,
        Want::Free | Want::Unknown | Want::Subtype(_) => INTEGER_BASE,
    }
}

fn is_wanted(want: Want, ty: u32) -> bool
    ensures { result ≡ is_wanted want ty }
{
    match want {
        Want::Type(wanted) => wanted == ty,
        Want::Free | Want::Unknown | Want::Subtype(_) => true,
    }
}

fn of_type_wanted(
    scope: &Scope,
    code: Code,
    want: Want,
    low: Place,
    range: Between,
) -> Found<Between>
    ensures { result ≡ of_type_wanted (scope_of scope.now) code want low range }
{
    if is_wanted(want, type_of(scope.world(), range.subtype)) {
        Found::Is(range)
    } else {
        drop(range);
        Found::Refused(Refusal { code, place: low })
    }
}

/// The range with bounds at two places that reaches over this; the rule is broken at the first where it isn't of the type that
/// the context gives. `Err` where memory was refused.
pub(crate) fn range_of_want(
    alloc: Global,
    scope: &Scope,
    code: Code,
    want: Want,
    low: Place,
    high: Place,
    reach: Reach,
) -> Result<Found<Between>, Starved>
    ensures { IfOk result (λ b. b ≡ range_of_want (scope_of scope.now) code want low high reach) }
{
    match reach_in(alloc, scope, code, number_type(want), low, high, reach)? {
        Found::Refused(refusal) => Ok(Found::Refused(refusal)),
        Found::Unknown => Ok(Found::Unknown),
        Found::Is(range) => Ok(of_type_wanted(scope, code, want, low, range)),
    }
}
