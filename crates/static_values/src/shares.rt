//! What an association of a static aggregate gives.

ghost use Rattle.std.specs.Prelude.{◌≡◌, ◌∷◌, ◌++◌, [], true, IfOk};
ghost use Rattle.front_codes.specs.declared.codes.Code.TheVariants.{L27};
ghost use Rattle.statement_typing.specs.Checks.{added, and_also, unless};
ghost use Rattle.statement_typing.specs.Values.{is_empty};
ghost use Rattle.static_values.specs.Shares.{as_share, share_by};
ghost use Rattle.typing_rules.specs.Fits.{with_found};

use crate::Starved;
use ada_values::{Place, Value};
use front_codes::{Code, Refusal, first_of_two};
use name_values::added;
use sqlite_items::Items;
use statement_typing::Share;
use std::alloc::Global;
use typed_units::{Association, Bounds, Expr};
use typing_rules::Found;

/// A value, and L27 at its place where it is to be checked against bounds.
fn unchecked(checks: &[Bounds], place: Place, found: Found<Value>) -> Found<Value>
    ensures { result ≡ and_also found (unless (is_empty checks.now) L27 place true) }
{
    match checks {
        [] => found,
        [_, ..] => {
            let refusal = Refusal {
                code: Code::L27,
                place,
            };
            match found {
                Found::Refused(other) => Found::Refused(first_of_two(other, refusal)),
                Found::Unknown => Found::Refused(refusal),
                Found::Is(value) => {
                    drop(value);
                    Found::Refused(refusal)
                }
            }
        }
    }
}

/// What an association with this value gives. `Err` where memory was refused.
fn as_share(alloc: Global, association: &Association<Expr>, value: Value) -> Result<Share, Starved>
    ensures { IfOk result (λ share. share ≡ as_share association.now value) }
{
    match Items::from_slice(alloc, association.ranges.as_slice()) {
        Ok(ranges) => Ok(Share {
            ranges,
            others: association.others,
            value,
        }),
        Err(error) => {
            drop(value);
            Err(error)
        }
    }
}

/// What an association gives whose value was read. `Err` where memory was refused.
fn share_by(
    alloc: Global,
    association: &Association<Expr>,
    found: Found<Value>,
) -> Result<Found<Share>, Starved>
    ensures { IfOk result (λ share. share ≡ share_by association.now found) }
{
    let place = association.value.place;
    match unchecked(association.checks.as_slice(), place, found) {
        Found::Refused(refusal) => Ok(Found::Refused(refusal)),
        Found::Unknown => Ok(Found::Unknown),
        Found::Is(value) => Ok(Found::Is(as_share(alloc, association, value)?)),
    }
}

/// What associations give, and one more whose value was read. `Err` where memory was refused.
pub(crate) fn with_share(
    alloc: Global,
    association: &Association<Expr>,
    found: Found<Value>,
    done: Found<Items<Share>>,
) -> Result<Found<Items<Share>>, Starved>
    ensures { IfOk result (λ shares. shares ≡ added done (share_by association.now found)) }
{
    match share_by(alloc, association, found) {
        Ok(share) => added(done, share),
        Err(error) => {
            drop(done);
            Err(error)
        }
    }
}
