//! Aggregates of records (Ada RM 4.3.1).

ghost use Rattle.std.specs.Prelude.{◌≡◌, IfOk, map, ◌++◌};
ghost use Rattle.aggregate_rules.specs.Steps.{record_ended, record_made, value_given};
ghost use Rattle.reading_scope.specs.Scopes.{scope_of};
ghost use Rattle.typing_rules.specs.Aggregates.{all_take, check_list, checks_of, first_given, given_all, gives_value, lone_range, ranges_of};
ghost use Rattle.typing_rules.specs.Calls.{same_type};

use ada_values::Place;
use name_values::{component_subtype, seen_as, spoiled};
use reading_scope::Scope;
use sqlite_items::Items;
use std::alloc::Global;
use type_base::{Code, Component, Refusal, Seen, Starved, World};
use typed_units::{Association, Bounds, Composite, Expr, ExprNode, Fitted};
use typing_rules::{Found, Gives};
use value_rules::{fit, takes};

/// The number of the subtype of the first of these components, 0 where there is none.
pub fn first_given(components: &[Component], numbers: &[u32]) -> u32
    ensures { result ≡ first_given components.now numbers.now }
{
    match numbers {
        [first, ..] => component_subtype(components, *first),
        [] => 0,
    }
}

fn same_type(left: Option<u32>, right: Option<u32>) -> bool
    ensures { result ≡ same_type left right }
{
    match left {
        Some(left) => match right {
            Some(right) => left == right,
            None => false,
        },
        None => false,
    }
}

/// Whether each of the components has the type of a value of this subtype, and takes its bounds.
fn all_take(world: &World, components: &[Component], value: u32, mut numbers: &[u32]) -> bool
    ensures { result ≡ all_take world.now components.now value numbers.entry.now }
{
    while let [first, rest @ ..] = numbers {
        let subtype = component_subtype(components, *first);
        if !(same_type(world.type_of(value), world.type_of(subtype))
            && takes(world, true, subtype, value))
        {
            return false;
        }
        numbers = rest;
    }
    true
}

/// The bounds of the range checks of a value for components.
fn checks_of(
    alloc: Global,
    world: &World,
    components: &[Component],
    x: &Expr,
    numbers: &[u32],
) -> Result<Items<Bounds>, Starved>
    ensures { IfOk result (λ bs. bs ≡ checks_of world.now components.now x.now numbers.now) }
{
    let mut checks = Items::new(alloc);
    for number in numbers {
        let subtype = component_subtype(components, *number);
        if let Some(bounds) = world.check_of(subtype, x) {
            checks.push(bounds)?;
        }
    }
    Ok(checks)
}

/// The ranges of an association of these components: one for each number.
fn lone_ranges(alloc: Global, numbers: &[u32]) -> Result<Items<Bounds>, Starved>
    ensures { IfOk result (λ bs. bs ≡ map lone_range numbers.now) }
{
    let mut ranges = Items::new(alloc);
    for number in numbers {
        let number = i128::from(*number);
        ranges.push(Bounds {
            first: number,
            last: number,
        })?;
    }
    Ok(ranges)
}

fn ranges_of(alloc: Global, gives: &Gives) -> Result<Items<Bounds>, Starved>
    ensures { IfOk result (λ bs. bs ≡ ranges_of gives.now) }
{
    if gives.by_others {
        Ok(Items::new(alloc))
    } else {
        lone_ranges(alloc, gives.numbers.as_slice())
    }
}

fn gives_value(
    alloc: Global,
    world: &World,
    components: &[Component],
    gives: &Gives,
    fitted: Fitted<Expr>,
) -> Result<Association<Expr>, Starved>
    ensures { IfOk result (λ a. a ≡ gives_value world.now components.now gives.now fitted) }
{
    let Fitted { bounds: _, value } = fitted;
    let checks = match checks_of(alloc, world, components, &value, gives.numbers.as_slice()) {
        Ok(checks) => checks,
        Err(error) => {
            drop(value);
            return Err(error);
        }
    };
    match ranges_of(alloc, gives) {
        Ok(ranges) => Ok(Association {
            ranges,
            others: gives.by_others,
            checks,
            value,
        }),
        Err(error) => {
            drop(value);
            Err(error)
        }
    }
}

fn given_all(
    alloc: Global,
    world: &World,
    components: &[Component],
    gives: &Gives,
    place: Place,
    subtype: u32,
    fitted: Fitted<Expr>,
) -> Result<Found<Association<Expr>>, Starved>
    ensures { IfOk result (λ v. v ≡ given_all world.now components.now gives.now place subtype fitted) }
{
    if all_take(world, components, subtype, gives.numbers.as_slice()) {
        match gives_value(alloc, world, components, gives, fitted) {
            Ok(value) => Ok(Found::Is(value)),
            Err(error) => Err(error),
        }
    } else {
        drop(fitted);
        Ok(Found::Refused(Refusal {
            code: Code::L8,
            place,
        }))
    }
}

/// The association of a value for components, of which the first has this subtype. It is `Refused` by L8 where the value isn't of
/// the type of each, or is an array of other bounds; by L29 where it is a number outside the type's base range.
pub fn value_given(
    alloc: Global,
    scope: &Scope,
    components: &[Component],
    gives: &Gives,
    subtype: u32,
    place: Place,
    seen: Seen,
) -> Result<Found<Association<Expr>>, Starved>
    ensures { IfOk result (λ v. v ≡ value_given (scope_of scope.now) components.now gives.now subtype place seen) }
{
    let world = scope.world();
    match fit(alloc, world, Code::L8, true, subtype, place, seen) {
        Ok(Found::Refused(refusal)) => Ok(Found::Refused(refusal)),
        Ok(Found::Unknown) => Ok(Found::Unknown),
        Ok(Found::Is(fitted)) => {
            given_all(alloc, world, components, gives, place, subtype, fitted)
        }
        Err(error) => Err(error),
    }
}

/// What is done after all associations of an aggregate at a place: L16 is broken there where not all components are given.
pub fn record_ended(
    place: Place,
    components: &[Component],
    given: &[u32],
    done: Found<Items<Association<Expr>>>,
) -> Found<Items<Association<Expr>>>
    ensures { result ≡ record_ended place components.now given.now done }
{
    if given.len() == components.len() {
        done
    } else {
        let refusal = Refusal {
            code: Code::L16,
            place,
        };
        spoiled(done, refusal)
    }
}

/// An aggregate of a record subtype.
pub fn record_made(
    alloc: Global,
    scope: &Scope,
    place: Place,
    subtype: u32,
    components: &[Component],
    done: Found<Items<Association<Expr>>>,
) -> Result<Seen, Starved>
    ensures { IfOk result (λ s. s ≡ record_made (scope_of scope.now) place subtype components.now done) }
{
    match done {
        Found::Refused(refusal) => Ok(Seen::Refused(refusal)),
        Found::Unknown => Ok(Seen::Unknown),
        Found::Is(values) => {
            let bounds = Bounds {
                first: 0,
                last: components.len() as i128 - 1,
            };
            let node = ExprNode::Aggregate(Composite::Record, bounds, values);
            seen_as(alloc, scope, place, subtype, node)
        }
    }
}
