//! Values.

ghost use Rattle.std.specs.Prelude.{◌≡◌, IfOk};
ghost use Rattle.ada_values.specs.Value.{value, values, same_val, same_vals};

use crate::Starved;
use sqlite_items::Items;
use std::alloc::Global;

/// The items of an array, in the order of their indexes.
pub type ItemList = Items<Value>;

/// The components of a record, in the order of their declaration.
pub type FieldList = Items<Value>;

/// A value: a whole number or a position, a truth value, an array or a record.
#[derive(Drop)]
pub enum Value {
    Int(i128),
    Bool(bool),
    Arr(ArrayValue<Value>),
    Rec(FieldList),
}

/// An array of values, where `V` is `Value`: its first index, its last index, and its items.
#[derive(Drop)]
pub struct ArrayValue<V> {
    pub first: i128,
    pub last: i128,
    pub items: Items<V>,
}

impl Value {
    /// A copy of the value.
    pub fn copy(&self, alloc: Global) -> Result<Value, Starved>
        ensures { IfOk result (λ c. c ≡ self.now) }
    {
        copy_value(alloc, self)
    }
}

/// Whether two values are equal: arrays where they have as many items and these are equal one by one, whatever their
/// bounds, and records where their components are equal.
#[cycle(same)]
pub fn same_value(a: &Value, b: &Value) -> bool
    ensures { result ≡ same_val (value a.now) (value b.now) }
{
    match a {
        Value::Int(a) => match b {
            Value::Int(b) => *a == *b,
            _ => false,
        },
        Value::Bool(a) => match b {
            Value::Bool(b) => *a == *b,
            _ => false,
        },
        Value::Arr(a) => match b {
            Value::Arr(b) => same_values(&a.items, &b.items),
            _ => false,
        },
        Value::Rec(a) => match b {
            Value::Rec(b) => same_values(a, b),
            _ => false,
        },
    }
}

#[cycle(same)]
fn same_values(a: &Items<Value>, b: &Items<Value>) -> bool
    ensures { result ≡ same_vals (values a.now) (values b.now) }
{
    if a.len() != b.len() {
        return false;
    }
    for i in 0..a.len() {
        if !same_value(&a.as_slice()[i], &b.as_slice()[i]) {
            return false;
        }
    }
    true
}

#[cycle(copy)]
fn copy_value(alloc: Global, v: &Value) -> Result<Value, Starved>
    ensures { IfOk result (λ c. c ≡ v.now) }
{
    match v {
        Value::Int(n) => Ok(Value::Int(*n)),
        Value::Bool(b) => Ok(Value::Bool(*b)),
        Value::Arr(a) => {
            let items = copy_values(alloc, &a.items)?;
            Ok(Value::Arr(ArrayValue {
                first: a.first,
                last: a.last,
                items,
            }))
        }
        Value::Rec(fields) => Ok(Value::Rec(copy_values(alloc, fields)?)),
    }
}

#[cycle(copy)]
fn copy_values(alloc: Global, values: &Items<Value>) -> Result<Items<Value>, Starved>
    ensures { IfOk result (λ c. c ≡ values.now) }
{
    let mut copy = Items::new(alloc);
    for v in values.as_slice() {
        copy.push(copy_value(alloc, v)?)?;
    }
    Ok(copy)
}
