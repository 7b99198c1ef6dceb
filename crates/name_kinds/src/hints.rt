//! What a name's form tells of its type.

ghost use Rattle.std.specs.Prelude.{◌≡◌};
ghost use Rattle.type_base.specs.Lookups.{form_at};
ghost use Rattle.typing_rules.specs.Kinds.{applied_hint, attribute_hint, bound_hint, call_hint, called_hint, component_hint, entity_hint, function_hint, index_hint, item_hint, qualified_hint, result_hint, routine_hint, subtype_bound_hint, value_if, value_kind};
ghost use Rattle.typing_rules.specs.Lookups.{array_at};
ghost use Rattle.typing_rules.specs.Values.{formals_of};
ghost use Rattle.name_kinds.specs.Parts.{has_some, hint_among};

use crate::parts::part_of;
use name_numbers::Word;
use type_base::{Component, Entity, Form, Routine, World};
use typing_rules::Hint;

/// What an entity's name tells.
pub fn entity_hint(entity: Entity) -> Hint
    ensures { result ≡ entity_hint entity }
{
    match entity {
        Entity::Subtype(subtype) => Hint::Subtype(subtype),
        Entity::Routine(routine) => Hint::Routine(routine),
        Entity::Literal(subtype, _)
        | Entity::Static(subtype, _)
        | Entity::Constant(subtype, _)
        | Entity::Object(subtype, _, _) => Hint::Value(subtype),
        Entity::Unknown | Entity::Package | Entity::Number(_) => Hint::Nothing,
    }
}

fn value_if(subtype: Option<u32>) -> Hint
    ensures { result ≡ value_if subtype }
{
    match subtype {
        Some(subtype) => Hint::Value(subtype),
        None => Hint::Nothing,
    }
}

/// What a name tells as a value: a subprogram's name alone is its call.
pub fn called_hint(world: &World, hint: Hint) -> Hint
    ensures { result ≡ called_hint world.now hint }
{
    match hint {
        Hint::Routine(number) => match world.routine(number) {
            Some(routine) => value_if(routine.result),
            None => Hint::Nothing,
        },
        _ => hint,
    }
}

fn hint_among(mut components: &[Component], name: u32) -> Hint
    ensures { result ≡ hint_among components.entry.now name }
{
    while let [first, rest @ ..] = components {
        if first.name == name {
            return Hint::Value(first.subtype);
        }
        components = rest;
    }
    Hint::Nothing
}

/// What a name tells with a selector of this name that is no entity's: a component of a record.
#[tactic(auto, using(crate::proofs::Named::named))]
pub fn component_hint(world: &World, name: u32, hint: Hint) -> Hint
    ensures { result ≡ component_hint world.now name hint }
{
    match hint {
        Hint::Value(subtype) => match world.form(subtype) {
            Some(Form::Record { first, count }) => {
                hint_among(part_of(world.components.as_slice(), first, count), name)
            }
            _ => Hint::Nothing,
        },
        _ => Hint::Nothing,
    }
}

fn item_hint(world: &World, subtype: u32) -> Hint
    ensures { result ≡ item_hint (array_at world.now subtype) }
{
    match world.form(subtype) {
        Some(Form::Array { item, .. }) => Hint::Value(item),
        _ => Hint::Nothing,
    }
}

fn has_formals(world: &World, routine: Routine) -> bool
    ensures { result ≡ has_some (formals_of world.now routine) }
{
    match part_of(world.formals.as_slice(), routine.first, routine.count) {
        [] => false,
        [_, ..] => true,
    }
}

#[tactic(auto, using(crate::proofs::Named::called))]
fn routine_hint(world: &World, routine: Option<Routine>) -> Hint
    ensures { result ≡ routine_hint world.now routine }
{
    match routine {
        Some(routine) => match routine.result {
            Some(subtype) => {
                if has_formals(world, routine) {
                    Hint::Value(subtype)
                } else {
                    item_hint(world, subtype)
                }
            }
            None => Hint::Nothing,
        },
        None => Hint::Nothing,
    }
}

/// What a name tells with arguments in parentheses: a conversion, a call, an item of an array, or an attribute's value.
pub fn applied_hint(world: &World, hint: Hint) -> Hint
    ensures { result ≡ applied_hint world.now hint }
{
    match hint {
        Hint::Subtype(subtype) | Hint::Function(subtype) => Hint::Value(subtype),
        Hint::Routine(number) => routine_hint(world, world.routine(number)),
        Hint::Value(subtype) => item_hint(world, subtype),
        Hint::Nothing => Hint::Nothing,
    }
}

fn index_hint(world: &World, subtype: u32) -> Hint
    ensures { result ≡ index_hint world.now (array_at world.now subtype) }
{
    match world.form(subtype) {
        Some(Form::Array { index, .. }) => match world.type_of(index) {
            Some(ty) => Hint::Value(ty),
            None => Hint::Value(0),
        },
        _ => Hint::Nothing,
    }
}

/// What `'First` and `'Last` of a name tell.
pub fn bound_hint(world: &World, hint: Hint) -> Hint
    ensures { result ≡ bound_hint world.now hint }
{
    match hint {
        Hint::Subtype(subtype) => match world.form(subtype) {
            Some(Form::Number(_, _)) => Hint::Value(subtype),
            _ => index_hint(world, subtype),
        },
        Hint::Value(subtype) => index_hint(world, subtype),
        _ => Hint::Nothing,
    }
}

fn function_hint(hint: Hint) -> Hint
    ensures { result ≡ function_hint hint }
{
    match hint {
        Hint::Subtype(subtype) => Hint::Function(subtype),
        _ => Hint::Nothing,
    }
}

/// What an attribute of a name tells.
pub fn attribute_hint(world: &World, hint: Hint, attribute: Option<Word>) -> Hint
    ensures { result ≡ attribute_hint world.now hint attribute }
{
    match attribute {
        Some(Word::First) | Some(Word::Last) => bound_hint(world, called_hint(world, hint)),
        Some(Word::Succ) | Some(Word::Pred) | Some(Word::Val) => function_hint(hint),
        Some(Word::Old) | Some(Word::LoopEntry) | Some(Word::Result) => called_hint(world, hint),
        _ => Hint::Nothing,
    }
}

/// What a qualification tells.
pub fn qualified_hint(hint: Hint) -> Hint
    ensures { result ≡ qualified_hint hint }
{
    match hint {
        Hint::Subtype(subtype) => Hint::Value(subtype),
        _ => Hint::Nothing,
    }
}

/// The type that a name tells of its value.
pub fn value_kind(world: &World, hint: Hint) -> Option<u32>
    ensures { result ≡ value_kind world.now hint }
{
    match hint {
        Hint::Value(subtype) => world.type_of(subtype),
        _ => None,
    }
}
