//! The values of a run: those of the language, over lists whose copy takes no time.

ghost use Rattle.std.specs.Prelude.{◌≡◌, IfOk};
ghost use Rattle.ada_values.specs.Value.{value, values, same_val, same_vals};
ghost use Rattle.run_values.specs.RunValues.{run_value, run_values};

use ada_values::Value;
use shared_items::{Copied, SharedItems};
use sqlite_items::Items;
use std::alloc::{AllocError, Global};

/// A value of a run: a whole number or a position, a truth value, an array or a record.
#[derive(Drop)]
pub enum RunValue {
    Int(i128),
    Bool(bool),
    Arr(RunArray<RunValue>),
    Rec(SharedItems<RunValue>),
}

/// An array of values, where `V` is `RunValue`: its first index, its last index, and its items.
#[derive(Drop)]
pub struct RunArray<V> {
    pub first: i128,
    pub last: i128,
    pub items: SharedItems<V>,
}

impl Copied for RunValue {
    fn copied(&self) -> Result<RunValue, AllocError> {
        match self {
            RunValue::Int(number) => Ok(RunValue::Int(*number)),
            RunValue::Bool(truth) => Ok(RunValue::Bool(*truth)),
            RunValue::Arr(array) => Ok(RunValue::Arr(RunArray {
                first: array.first,
                last: array.last,
                items: array.items.copy()?,
            })),
            RunValue::Rec(fields) => Ok(RunValue::Rec(fields.copy()?)),
        }
    }
}

/// Whether two values are equal: arrays where they have as many items and these are equal one by one, whatever their
/// bounds, and records where their components are equal.
#[cycle(same)]
pub fn same_run_value(a: &RunValue, b: &RunValue) -> bool
    ensures { result ≡ same_val (run_value a.now) (run_value b.now) }
{
    match a {
        RunValue::Int(a) => match b {
            RunValue::Int(b) => *a == *b,
            _ => false,
        },
        RunValue::Bool(a) => match b {
            RunValue::Bool(b) => *a == *b,
            _ => false,
        },
        RunValue::Arr(a) => match b {
            RunValue::Arr(b) => same_run_values(&a.items, &b.items),
            _ => false,
        },
        RunValue::Rec(a) => match b {
            RunValue::Rec(b) => same_run_values(a, b),
            _ => false,
        },
    }
}

#[cycle(same)]
fn same_run_values(a: &SharedItems<RunValue>, b: &SharedItems<RunValue>) -> bool
    ensures { result ≡ same_vals (run_values a.now) (run_values b.now) }
{
    if a.len() != b.len() {
        return false;
    }
    for i in 0..a.len() {
        let Some(left) = a.get(i) else {
            return true;
        };
        let Some(right) = b.get(i) else {
            return true;
        };
        if !same_run_value(left, right) {
            return false;
        }
    }
    true
}
