//! All attributes of a prefix.

ghost use Rattle.std.specs.Prelude.{◌≡◌, IfOk};
ghost use Rattle.reading_scope.specs.Scopes.{scope_of};
ghost use Rattle.typing_rules.specs.Attributes.{attribute_by, attributed, bounded, left_out, length_at};

use crate::arrays::bounded;
use crate::bounds::{bound, length_at};
use crate::earlier::{entry_at, old_at, result_of};
use crate::mappings::mapping_of;
use ada_values::Place;
use name_numbers::Word;
use name_values::{prefix_fault, refused_beside};
use reading_scope::Scope;
use std::alloc::Global;
use type_base::{Code, Refusal, Seen, Starved, Want, refused};
use typing_rules::{Mapping, Prefix};

fn length_of(
    alloc: Global,
    scope: &Scope,
    want: Want,
    place: Place,
    prefix: Prefix,
    tick: Place,
) -> Result<Seen, Starved>
    ensures { IfOk result (λ s. s ≡ length_at (scope_of scope.now) want place tick (bounded (scope_of scope.now) place prefix)) }
{
    match bounded(alloc, scope, place, prefix) {
        Ok(array) => length_at(alloc, scope, want, place, tick, array),
        Err(error) => Err(error),
    }
}

/// An attribute that the profile leaves out, beside what is refused in its prefix.
fn left_out(place: Place, fault: Option<Refusal>) -> Prefix
    ensures { result ≡ left_out place fault }
{
    match fault {
        Some(before) => {
            let refusal = Refusal {
                code: Code::LeftOut,
                place,
            };
            Prefix::Value(refused_beside(refusal, Seen::Refused(before)))
        }
        None => Prefix::Value(refused(Code::LeftOut, place)),
    }
}

fn attribute_by(
    alloc: Global,
    scope: &Scope,
    want: Want,
    place: Place,
    prefix: Prefix,
    tick: Place,
    attribute: Option<Word>,
) -> Result<Prefix, Starved>
    ensures { IfOk result (λ f. f ≡ attribute_by (scope_of scope.now) want place prefix tick attribute) }
{
    match attribute {
        Some(Word::First) => Ok(Prefix::Value(bound(alloc, scope, place, true, prefix)?)),
        Some(Word::Last) => Ok(Prefix::Value(bound(alloc, scope, place, false, prefix)?)),
        Some(Word::Length) => {
            let seen = length_of(alloc, scope, want, place, prefix, tick)?;
            Ok(Prefix::Value(seen))
        }
        Some(Word::Succ) => mapping_of(alloc, scope, place, Mapping::Succ, tick, prefix),
        Some(Word::Pred) => mapping_of(alloc, scope, place, Mapping::Pred, tick, prefix),
        Some(Word::Pos) => mapping_of(alloc, scope, place, Mapping::Pos, tick, prefix),
        Some(Word::Val) => mapping_of(alloc, scope, place, Mapping::Val, tick, prefix),
        Some(Word::Old) => Ok(Prefix::Value(old_at(alloc, scope, place, prefix)?)),
        Some(Word::LoopEntry) => Ok(Prefix::Value(entry_at(alloc, scope, place, prefix)?)),
        Some(Word::Result) => Ok(Prefix::Value(result_of(alloc, scope, place, prefix)?)),
        _ => {
            let fault = prefix_fault(&prefix);
            drop(prefix);
            Ok(left_out(place, fault))
        }
    }
}

/// An attribute of a prefix: `place` is that of the name, `tick` and `at` are the bytes of the tick and of the attribute's
/// identifier. What is wrong with it is `Refused` inside: by L19 where the prefix hasn't the attribute, by `LeftOut` where
/// the subset hasn't it, by `TooWide` where a length has more than 128 bits.
pub fn attributed(
    alloc: Global,
    scope: &Scope,
    want: Want,
    place: Place,
    prefix: Prefix,
    tick: u32,
    at: u32,
) -> Result<Prefix, Starved>
    ensures { IfOk result (λ f. f ≡ attributed (scope_of scope.now) want place prefix tick at) }
{
    let attribute = scope.word(at);
    let tick = scope.place(tick);
    attribute_by(alloc, scope, want, place, prefix, tick, attribute)
}
