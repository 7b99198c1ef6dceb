//! Checks of values, and what comes of an operator.

ghost use Rattle.std.specs.Prelude.{◌≡◌, ℕ};
ghost use Rattle.ada_semantics.specs.Operators.{keeps, checked, keeps_each, checked_each};
ghost use Rattle.run_values.specs.RunValues.{run_value};
ghost use Rattle.run_values.specs.Outcomes.{made};

use crate::values::RunValue;
use ada_values::Place;
use typed_units::{Bounds, CheckKind, SiteKey};

/// How a run ends before its end: a check fails, the budget is spent, or something was never set.
#[derive(Clone, Copy, Debug, PartialEq, Eq)]
pub enum Ending {
    Fails(SiteKey),
    Short,
    Unset,
}

/// What an operator gives.
#[derive(Drop)]
pub enum Made {
    Is(RunValue),
    Ends(Ending),
}

/// A check at a place that fails.
pub fn ends_at(place: Place, kind: CheckKind) -> Made
    ensures { result ≡ Made.Ends (Ending.Fails (record { place = place; kind = kind })) }
{
    Made::Ends(Ending::Fails(SiteKey { place, kind }))
}

/// Whether a number lies within the bounds, where there are any.
pub fn keeps(bounds: Option<Bounds>, v: &RunValue) -> bool
    ensures { result ≡ keeps bounds (run_value v.now) }
{
    let Some(bounds) = bounds else {
        return true;
    };
    match v {
        RunValue::Int(number) => bounds.first <= *number && *number <= bounds.last,
        RunValue::Bool(_) | RunValue::Arr(_) | RunValue::Rec(_) => true,
    }
}

/// A value with its range check.
pub fn check_value(bounds: Option<Bounds>, place: Place, v: RunValue) -> Made
    ensures { (n : ℕ) → made result n ≡ checked bounds place (run_value v) n }
{
    if keeps(bounds, &v) {
        Made::Is(v)
    } else {
        drop(v);
        ends_at(place, CheckKind::Range)
    }
}

/// Whether a number lies within all of the bounds.
pub fn keeps_each(bounds: &[Bounds], v: &RunValue) -> bool
    ensures { result ≡ keeps_each bounds.now (run_value v.now) }
{
    for bounds in bounds {
        if !keeps(Some(*bounds), v) {
            return false;
        }
    }
    true
}

/// A value of several components, with the range check of each.
pub fn check_each(bounds: &[Bounds], place: Place, v: RunValue) -> Made
    ensures { (n : ℕ) → made result n ≡ checked_each bounds.now place (run_value v) n }
{
    if keeps_each(bounds, &v) {
        Made::Is(v)
    } else {
        drop(v);
        ends_at(place, CheckKind::Range)
    }
}
