//! The forms of computed values.

ghost use Rattle.std.specs.Prelude.{◌≡◌, ◌<◌, MatchOption, true, false};
ghost use Rattle.logic_terms.specs.Value.{record_of};
ghost use Rattle.logic_terms.specs.Meaning.{item};
ghost use Rattle.logic_terms.specs.Arrays.{has_item as has};
ghost use Rattle.logic_truth.specs.Places.{is_array as array, is_record, number_in as number_value, truth_in as truth_value};
ghost use Rattle.logic_truth.specs.Size.{size, sizes};
ghost use Rattle.logic_truth.specs.Found.{found, found_all};

use crate::found::{Found, FoundList};

/// The number that it is.
#[tactic(auto, using(crate::proofs::Alike::number_in_stored))]
pub fn number_in(v: &Found) -> Option<i128>
    ensures { result ≡ number_value (found v.now) }
{
    match v {
        Found::Num(n) => Some(*n),
        Found::Stored(a, _, _) => number_in(a.get()),
        _ => None,
    }
}

/// The truth value that it is.
#[tactic(auto, using(crate::proofs::Alike::truth_in_stored))]
pub fn truth_in(v: &Found) -> Option<bool>
    ensures { result ≡ truth_value (found v.now) }
{
    match v {
        Found::Truth(b) => Some(*b),
        Found::Stored(a, _, _) => truth_in(a.get()),
        _ => None,
    }
}

/// Whether it is an array.
#[tactic(auto, using(crate::proofs::Alike::is_array_stored))]
pub fn is_array(v: &Found) -> bool
    ensures { result ≡ array (found v.now) }
{
    match v {
        Found::Filled(_, _, _) => true,
        Found::Stored(a, _, _) => is_array(a.get()),
        _ => false,
    }
}

/// The fields of the record that it is.
pub fn fields_of(v: &Found) -> Option<&FoundList>
    ensures { MatchOption result (is_record (found v.now) ≡ false) (λ vs. (found v.now ≡ record_of (found_all vs.now)) × (sizes vs.now < size v.now)) }
{
    match v {
        Found::Record(vs) => Some(vs),
        Found::Stored(a, _, _) => fields_of(a.get()),
        _ => None,
    }
}

/// The item at an index that the array has.
pub fn item_of(v: &Found, at: i128) -> &Found
    requires { has (found v.now) at ≡ true }
    ensures value { found result.now ≡ item (found v.now) at }
    ensures inside { size result.now < size v.now }
{
    match v {
        Found::Filled(_, _, item) => item.get(),
        Found::Stored(a, place, item) => {
            if *place == at {
                item.get()
            } else {
                item_of(a.get(), at)
            }
        }
        other => other,
    }
}
