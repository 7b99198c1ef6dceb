//! `'Old`, `'Loop_Entry` and `'Result` (Ada RM 6.1.1, SPARK RM 5.5.3.1).

ghost use Rattle.std.specs.Prelude.{◌≡◌, IfOk, None};
ghost use Rattle.attribute_rules.specs.Earlier.{earlier_node};
ghost use Rattle.reading_scope.specs.Scopes.{scope_of};
ghost use Rattle.type_base.specs.Demands.{made, subtype_of};
ghost use Rattle.type_base.specs.declared.seen.Seen.TheVariants as seen';
ghost use Rattle.typed_units.specs.declared.expressions.ExprNode.TheVariants as node';
ghost use Rattle.typing_rules.specs.Attributes as rules;
ghost use Rattle.typing_rules.specs.Attributes.{entry_at, entry_node, old_at, old_node, other_turn, result_by, result_in, unfit, value_by, value_then, whole_then};
ghost use Rattle.typing_rules.specs.Values.{value_of};

use ada_values::Place;
use name_values::{seen_as, value_of};
use reading_scope::Scope;
use std::alloc::Global;
use type_base::{Code, Moment, Routine, Seen, Starved, made, refused};
use typed_units::{Expr, ExprNode, Object};
use typing_rules::{Part, Prefix};

/// An earlier time: the subprogram's call, or that when the loop of this number is entered, with the number of its own
/// parameter.
#[derive(Clone, Copy)]
pub(crate) enum Earlier {
    Call,
    Turns(u32, Option<u32>),
}

/// A value that is no fitting prefix is refused by L19.
pub(crate) fn unfit(place: Place, seen: Seen) -> Seen
    ensures { result ≡ unfit place seen }
{
    match seen {
        Seen::Refused(refusal) => Seen::Refused(refusal),
        Seen::Unknown => Seen::Unknown,
        Seen::Number(_) => refused(Code::L19, place),
        Seen::Typed(_, x) => {
            drop(x);
            refused(Code::L19, place)
        }
    }
}

/// What a prefix that doesn't fit gives.
pub(crate) fn unfit_prefix(
    alloc: Global,
    scope: &Scope,
    place: Place,
    prefix: Prefix,
) -> Result<Seen, Starved>
    ensures { IfOk result (λ s. s ≡ unfit place (value_of (scope_of scope.now) place prefix)) }
{
    match value_of(alloc, scope, place, prefix) {
        Ok(seen) => Ok(unfit(place, seen)),
        Err(error) => Err(error),
    }
}

fn old_node(place: Place, object: Object) -> Option<ExprNode<Expr>>
    ensures { result ≡ old_node place object }
{
    match object {
        Object::Param(_) | Object::Global(_) => Some(ExprNode::Old(place, object)),
        Object::Local(_) | Object::Turn(_) | Object::Index(_) => None,
    }
}

fn other_turn(number: u32, own: Option<u32>) -> bool
    ensures { result ≡ other_turn number own }
{
    match own {
        Some(own) => number != own,
        None => true,
    }
}

fn entry_node(place: Place, turns: u32, own: Option<u32>, object: Object) -> Option<ExprNode<Expr>>
    ensures { result ≡ entry_node place turns own object }
{
    match object {
        Object::Index(_) => None,
        Object::Turn(number) => {
            if other_turn(number, own) {
                Some(ExprNode::LoopEntry(place, turns, object))
            } else {
                None
            }
        }
        Object::Param(_) | Object::Local(_) | Object::Global(_) => {
            Some(ExprNode::LoopEntry(place, turns, object))
        }
    }
}

fn earlier_node(place: Place, earlier: Earlier, object: Object) -> Option<ExprNode<Expr>>
    ensures { result ≡ earlier_node place earlier object }
{
    match earlier {
        Earlier::Call => old_node(place, object),
        Earlier::Turns(turns, own) => entry_node(place, turns, own, object),
    }
}

fn value_by(
    alloc: Global,
    scope: &Scope,
    place: Place,
    subtype: u32,
    node: Option<ExprNode<Expr>>,
) -> Result<Seen, Starved>
    ensures { IfOk result (λ s. s ≡ value_by (scope_of scope.now) place subtype node) }
{
    match node {
        Some(node) => seen_as(alloc, scope, place, subtype, node),
        None => Ok(refused(Code::L19, place)),
    }
}

fn whole_then(
    alloc: Global,
    scope: &Scope,
    place: Place,
    earlier: Earlier,
    part: &Part,
) -> Result<Seen, Starved>
    ensures { IfOk result (λ s. s ≡ whole_then (scope_of scope.now) place part.now (earlier_node place earlier) part.now.target.path) }
{
    match part.target.path.as_slice() {
        [] => {
            let node = earlier_node(place, earlier, part.target.object);
            value_by(alloc, scope, place, part.subtype, node)
        }
        [_, ..] => Ok(refused(Code::L19, place)),
    }
}

/// A constant always has its value.
fn constant_then(alloc: Global, place: Place, ty: u32, x: Expr) -> Result<Seen, Starved>
    ensures { IfOk result (λ s. s ≡ seen'.Typed ty (made place (subtype_of x) (node'.Convert None x))) }
{
    match made(alloc, place, x.subtype, ExprNode::Convert(None, x)) {
        Ok(x) => Ok(Seen::Typed(ty, x)),
        Err(error) => Err(error),
    }
}

/// The value of a whole object at an earlier time.
fn value_then(
    alloc: Global,
    scope: &Scope,
    place: Place,
    earlier: Earlier,
    prefix: Prefix,
) -> Result<Seen, Starved>
    ensures { IfOk result (λ s. s ≡ value_then (scope_of scope.now) place (earlier_node place earlier) prefix) }
{
    match prefix {
        Prefix::Part(part) => {
            let seen = whole_then(alloc, scope, place, earlier, &part);
            drop(part);
            seen
        }
        Prefix::Constant(ty, x) => constant_then(alloc, place, ty, x),
        Prefix::Package => unfit_prefix(alloc, scope, place, Prefix::Package),
        Prefix::Subtype(subtype) => unfit_prefix(alloc, scope, place, Prefix::Subtype(subtype)),
        Prefix::Routine(routine) => unfit_prefix(alloc, scope, place, Prefix::Routine(routine)),
        Prefix::Called(routine, arguments) => {
            unfit_prefix(alloc, scope, place, Prefix::Called(routine, arguments))
        }
        Prefix::Mapping(mapping, tick, subtype) => {
            unfit_prefix(alloc, scope, place, Prefix::Mapping(mapping, tick, subtype))
        }
        Prefix::Range(range) => unfit_prefix(alloc, scope, place, Prefix::Range(range)),
        Prefix::Value(seen) => unfit_prefix(alloc, scope, place, Prefix::Value(seen)),
    }
}

/// `'Old` of a prefix, which stands in a postcondition.
pub(crate) fn old_at(
    alloc: Global,
    scope: &Scope,
    place: Place,
    prefix: Prefix,
) -> Result<Seen, Starved>
    ensures { IfOk result (λ s. s ≡ old_at (scope_of scope.now) place prefix (scope_of scope.now).moment) }
{
    match scope.moment {
        Moment::InPost => value_then(alloc, scope, place, Earlier::Call, prefix),
        Moment::InLoop(_, _) | Moment::Elsewhere => unfit_prefix(alloc, scope, place, prefix),
    }
}

/// `'Loop_Entry` of a prefix, which stands in a pragma in the body of a loop.
pub(crate) fn entry_at(
    alloc: Global,
    scope: &Scope,
    place: Place,
    prefix: Prefix,
) -> Result<Seen, Starved>
    ensures { IfOk result (λ s. s ≡ entry_at (scope_of scope.now) place prefix (scope_of scope.now).moment) }
{
    match scope.moment {
        Moment::InLoop(turns, own) => {
            value_then(alloc, scope, place, Earlier::Turns(turns, own), prefix)
        }
        Moment::InPost | Moment::Elsewhere => unfit_prefix(alloc, scope, place, prefix),
    }
}

fn result_in(
    alloc: Global,
    scope: &Scope,
    place: Place,
    subtype: Option<u32>,
) -> Result<Seen, Starved>
    ensures { IfOk result (λ s. s ≡ result_in (scope_of scope.now) place subtype) }
{
    match subtype {
        Some(subtype) => seen_as(alloc, scope, place, subtype, ExprNode::Result(place)),
        None => Ok(refused(Code::L19, place)),
    }
}

fn result_by(
    alloc: Global,
    scope: &Scope,
    place: Place,
    number: u32,
    routine: Option<Routine>,
) -> Result<Seen, Starved>
    ensures { IfOk result (λ s. s ≡ result_by (scope_of scope.now) place number (scope_of scope.now).own (scope_of scope.now).moment routine) }
{
    let Some(routine) = routine else {
        return Ok(Seen::Unknown);
    };
    match scope.own {
        Some(own) => match scope.moment {
            Moment::InPost => {
                if own == number {
                    result_in(alloc, scope, place, routine.result)
                } else {
                    Ok(refused(Code::L19, place))
                }
            }
            Moment::InLoop(_, _) | Moment::Elsewhere => Ok(refused(Code::L19, place)),
        },
        None => Ok(refused(Code::L19, place)),
    }
}

/// `'Result` of a prefix, which is the function whose postcondition this is.
pub(crate) fn result_of(
    alloc: Global,
    scope: &Scope,
    place: Place,
    prefix: Prefix,
) -> Result<Seen, Starved>
    ensures { IfOk result (λ s. s ≡ rules.result (scope_of scope.now) place prefix) }
{
    match prefix {
        Prefix::Routine(number) => {
            let routine = scope.world().routine(number);
            result_by(alloc, scope, place, number, routine)
        }
        Prefix::Package => unfit_prefix(alloc, scope, place, Prefix::Package),
        Prefix::Subtype(subtype) => unfit_prefix(alloc, scope, place, Prefix::Subtype(subtype)),
        Prefix::Called(routine, arguments) => {
            unfit_prefix(alloc, scope, place, Prefix::Called(routine, arguments))
        }
        Prefix::Mapping(mapping, tick, subtype) => {
            unfit_prefix(alloc, scope, place, Prefix::Mapping(mapping, tick, subtype))
        }
        Prefix::Range(range) => unfit_prefix(alloc, scope, place, Prefix::Range(range)),
        Prefix::Constant(ty, x) => unfit_prefix(alloc, scope, place, Prefix::Constant(ty, x)),
        Prefix::Part(part) => unfit_prefix(alloc, scope, place, Prefix::Part(part)),
        Prefix::Value(seen) => unfit_prefix(alloc, scope, place, Prefix::Value(seen)),
    }
}
