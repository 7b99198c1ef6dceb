//! Quantified expressions (Ada RM 4.5.8).

ghost use Rattle.std.specs.Prelude.{◌≡◌, IfOk};
ghost use Rattle.reading_scope.specs.Scopes.{scope_of};
ghost use Rattle.type_base.specs.Results.{truth_at};
ghost use Rattle.typed_units.specs.declared.expressions.ExprNode.TheVariants as node;
ghost use Rattle.typing_rules.specs.Conditions.{index_subtype, quantified_by, quantifier_of};

use ada_syntax::Quantifier;
use ada_values::Place;
use expression_rules::truth_at;
use front_codes::first_of_two;
use reading_scope::Scope;
use std::alloc::Global;
use type_base::{Seen, Starved, World};
use typed_units::{Counted, Expr, ExprNode, Quantifier as TypedQuantifier};
use typing_rules::{Between, Found};

/// The number of the subtype of an index that goes over a range; that of no subtype where nothing is known of the range.
/// `Err` where there are more subtypes than 32 bits can number.
pub fn index_subtype(world: &World, range: &Found<Between>) -> Result<u32, Starved>
    ensures { IfOk result (λ k. k ≡ index_subtype world.now range.now) }
{
    match range {
        Found::Is(range) => Ok(range.subtype),
        Found::Refused(_) | Found::Unknown => match u32::try_from(world.subtypes.len()) {
            Ok(number) => Ok(number),
            Err(_) => Err(Starved),
        },
    }
}

fn quantifier_of(quantifier: Quantifier) -> TypedQuantifier
    ensures { result ≡ quantifier_of quantifier }
{
    match quantifier {
        Quantifier::All => TypedQuantifier::All,
        Quantifier::Some => TypedQuantifier::Some,
    }
}

fn counted(
    alloc: Global,
    place: Place,
    quantifier: Quantifier,
    number: u32,
    range: Between,
    predicate: Expr,
) -> Result<Seen, Starved>
    ensures { IfOk result (λ s. s ≡ truth_at place (node.Quantified (quantifier_of quantifier) (record { number = number; subtype = range.subtype }) range.low range.high predicate)) }
{
    let Between { subtype, low, high } = range;
    let index = Counted { number, subtype };
    let node = ExprNode::Quantified(quantifier_of(quantifier), index, low, high, predicate);
    truth_at(alloc, place, node)
}

/// A quantified expression whose index has a number in its subprogram, over a range and of a predicate that have been found
/// by L23. `Err` where memory was refused.
pub fn quantified_by(
    alloc: Global,
    scope: &Scope,
    place: Place,
    quantifier: Quantifier,
    number: u32,
    range: Found<Between>,
    predicate: Found<Expr>,
) -> Result<Seen, Starved>
    ensures { IfOk result (λ s. s ≡ quantified_by (scope_of scope.now) place quantifier number range predicate) }
{
    match range {
        Found::Refused(refusal) => match predicate {
            Found::Refused(other) => Ok(Seen::Refused(first_of_two(refusal, other))),
            Found::Unknown | Found::Is(_) => Ok(Seen::Refused(refusal)),
        },
        Found::Unknown => match predicate {
            Found::Refused(refusal) => Ok(Seen::Refused(refusal)),
            Found::Unknown | Found::Is(_) => Ok(Seen::Unknown),
        },
        Found::Is(range) => match predicate {
            Found::Refused(refusal) => Ok(Seen::Refused(refusal)),
            Found::Unknown => Ok(Seen::Unknown),
            Found::Is(predicate) => { counted(alloc, place, quantifier, number, range, predicate) }
        },
    }
}
