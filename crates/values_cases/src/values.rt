//! Cases of values.

use crate::answer::Answer;
use crate::operations::number_of;
use crate::shapes::shapes;
use ada_values::{ArrayValue, FieldList, Starved, Value, in_shape, same_value};
use std::alloc::Global;

/// Whether a word has this text.
fn is(word: &Vec<u8>, text: &[u8]) -> bool {
    word.as_slice() == text
}

/// The number or the truth value that a word is.
fn plain(word: &[u8]) -> Option<Value> {
    match word {
        b"true" => Some(Value::Bool(true)),
        b"false" => Some(Value::Bool(false)),
        _ => Some(Value::Int(number_of(word)?)),
    }
}

/// The values that words are, if each is one.
fn plain_values(alloc: Global, words: &[Vec<u8>]) -> Result<Option<FieldList>, Starved> {
    let mut values = FieldList::new(alloc);
    for word in words {
        match plain(word.as_slice()) {
            Some(value) => values.push(value)?,
            None => return Ok(None),
        }
    }
    Ok(Some(values))
}

/// The array of these bounds and items, if they are numbers and values.
fn array(
    alloc: Global,
    first: &[u8],
    last: &[u8],
    items: &[Vec<u8>],
) -> Result<Option<Value>, Starved> {
    let (Some(first), Some(last)) = (number_of(first), number_of(last)) else {
        return Ok(None);
    };
    match plain_values(alloc, items)? {
        Some(items) => Ok(Some(Value::Arr(ArrayValue { first, last, items }))),
        None => Ok(None),
    }
}

/// The record of these components, if they are values.
fn record_of(alloc: Global, fields: &[Vec<u8>]) -> Result<Option<Value>, Starved> {
    match plain_values(alloc, fields)? {
        Some(fields) => Ok(Some(Value::Rec(fields))),
        None => Ok(None),
    }
}

/// The value that words are.
fn value_of(alloc: Global, words: &[Vec<u8>]) -> Result<Option<Value>, Starved> {
    match words {
        [kind, first, last, items @ ..] if is(kind, b"array") => {
            array(alloc, first.as_slice(), last.as_slice(), items)
        }
        [kind, fields @ ..] if is(kind, b"record") => record_of(alloc, fields),
        [word] => Ok(plain(word.as_slice())),
        _ => Ok(None),
    }
}

/// The answer where there is a value that shows whether something holds.
fn answer_of(holds: Option<bool>) -> Answer {
    match holds {
        Some(holds) => Answer::Truth(holds),
        None => Answer::NoCase,
    }
}

/// Whether the value of words is one of the shape of this number.
fn has_shape(alloc: Global, shape: u32, words: &[Vec<u8>]) -> Result<Answer, Starved> {
    let shapes = shapes(alloc)?;
    let value = value_of(alloc, words)?;
    Ok(answer_of(value.as_ref().map(|value| in_shape(&shapes, shape, value))))
}

/// Whether a value has a shape.
pub fn fits(alloc: Global, words: &[Vec<u8>]) -> Result<Answer, Starved> {
    let Some((word, words)) = words.split_first() else {
        return Ok(Answer::NoCase);
    };
    match number_of(word.as_slice()).and_then(|number| u32::try_from(number).ok()) {
        Some(shape) => has_shape(alloc, shape, words),
        None => Ok(Answer::NoCase),
    }
}

/// Whether two values are equal.
fn are_same(alloc: Global, left: &[Vec<u8>], right: &[Vec<u8>]) -> Result<Answer, Starved> {
    let left = value_of(alloc, left)?;
    let right = value_of(alloc, right)?;
    match (&left, &right) {
        (Some(left), Some(right)) => Ok(Answer::Truth(same_value(left, right))),
        _ => Ok(Answer::NoCase),
    }
}

/// Whether the values on both sides of a `/` are equal.
pub fn is_same(alloc: Global, words: &[Vec<u8>]) -> Result<Answer, Starved> {
    match words.iter().position(|word| is(word, b"/")) {
        Some(at) => are_same(alloc, &words[..at], &words[at + 1..]),
        None => Ok(Answer::NoCase),
    }
}

/// Whether a copy of a value equals it.
pub fn is_copied(alloc: Global, words: &[Vec<u8>]) -> Result<Answer, Starved> {
    match value_of(alloc, words)? {
        Some(value) => {
            let copy = value.copy(alloc)?;
            Ok(Answer::Truth(same_value(&value, &copy)))
        }
        None => Ok(Answer::NoCase),
    }
}
