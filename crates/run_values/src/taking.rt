//! Values of a program as values of a run.

ghost use Rattle.std.specs.Prelude.{◌≡◌, IfOk};
ghost use Rattle.ada_values.specs.Value.{value, values};
ghost use Rattle.run_values.specs.RunValues.{run_value, run_values};

use crate::values::{RunArray, RunValue};
use ada_values::Value;
use shared_items::SharedItems;
use sqlite_items::Items;
use std::alloc::{AllocError, Global};

/// The same value, as one of a run.
#[cycle(taken)]
pub fn taken(alloc: Global, v: &Value) -> Result<RunValue, AllocError>
    ensures { IfOk result (λ new. run_value new ≡ value v.now) }
{
    match v {
        Value::Int(number) => Ok(RunValue::Int(*number)),
        Value::Bool(truth) => Ok(RunValue::Bool(*truth)),
        Value::Arr(array) => {
            let items = taken_all(alloc, &array.items)?;
            Ok(RunValue::Arr(RunArray {
                first: array.first,
                last: array.last,
                items,
            }))
        }
        Value::Rec(fields) => Ok(RunValue::Rec(taken_all(alloc, fields)?)),
    }
}

#[cycle(taken)]
fn taken_all(alloc: Global, list: &Items<Value>) -> Result<SharedItems<RunValue>, AllocError>
    ensures { IfOk result (λ new. run_values new ≡ values list.now) }
{
    let mut all = SharedItems::new(alloc)?;
    for v in list.as_slice() {
        all.push(alloc, taken(alloc, v)?)?;
    }
    Ok(all)
}
