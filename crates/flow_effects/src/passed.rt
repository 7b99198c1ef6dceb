//! What is passed in a call, F4 and F5.

ghost use Rattle.std.specs.Prelude.{◌≡◌, ◌++◌, ◌∷◌, [], ℕ, map, cond, IfOk, OnOk};
ghost use Rattle.std.specs.Option.{option_copied, option_map};
ghost use Rattle.typed_units.specs.View.{actual_of, actuals_of, expr, target_of, var};
ghost use Rattle.flow_rules.specs.Aliases.{all_passed, clash, clashes_with, composite, fault, global_faults, is_in, may_differ, object_used, overlap_faults, part_used, passed_as, set_at, set_in, target_passed, used_by_callee, value_passed};
ghost use Rattle.flow_effects.specs.Seen.{part_of};
ghost use Rattle.flow_effects.specs.PassedAs.{passed_of, use_of};

use crate::Starved;
use crate::parts::{Part, named_by, overlap_named, steps_of};
use ada_values::{Place, Shape, ShapeList};
use flow_rules::{Effects, FlowFault, FlowList, SetList};
use sqlite_items::Items;
use std::alloc::Global;
use typed_units::{Actual, Argument, Expr, Object, Target};

/// How a call may use the object of an actual: it writes it, it may read it where it lies, or it takes a copy.
#[derive(Clone, Copy)]
pub(crate) enum Usage {
    Written,
    Shared,
    Copied,
}

/// An actual: its first token, what it names, and its use.
#[derive(Drop)]
pub(crate) struct Passed {
    pub(crate) place: Place,
    pub(crate) part: Option<Part>,
    pub(crate) usage: Usage,
}

fn composite(shape: Option<&Shape>) -> Usage
    ensures { use_of result ≡ composite (option_copied shape.entry) }
{
    match shape {
        Some(Shape::Array(_)) | Some(Shape::Record(_)) => Usage::Shared,
        _ => Usage::Copied,
    }
}

fn value_passed(alloc: Global, shapes: &ShapeList, e: &Expr) -> Result<Passed, Starved>
    ensures { IfOk result (λ passed. passed_of passed ≡ value_passed shapes.now (expr shapes.now e.now)) }
{
    let part = named_by(alloc, shapes, e)?;
    Ok(Passed {
        place: e.place,
        part,
        usage: composite(shapes.get(e.subtype as usize)),
    })
}

fn target_passed(
    alloc: Global,
    shapes: &ShapeList,
    target: &Target<Expr>,
) -> Result<Passed, Starved>
    ensures { IfOk result (λ passed. passed_of passed ≡ target_passed (target_of (expr shapes.now) target.now)) }
{
    let path = steps_of(alloc, shapes, &target.path)?;
    Ok(Passed {
        place: target.place,
        part: Some(Part {
            object: target.object,
            path,
        }),
        usage: Usage::Written,
    })
}

fn passed_as(alloc: Global, shapes: &ShapeList, actual: &Actual<Expr>) -> Result<Passed, Starved>
    ensures { IfOk result (λ passed. (k : ℕ) → passed_of passed ≡ passed_as shapes.now (actual_of (expr shapes.now) k actual.now)) }
{
    match actual {
        Actual::In(value) => value_passed(alloc, shapes, &value.value),
        Actual::Out(target, _) | Actual::InOut(target, _, _) => {
            target_passed(alloc, shapes, target)
        }
    }
}

fn all_passed(
    alloc: Global,
    shapes: &ShapeList,
    arguments: &Items<Argument<Expr>>,
) -> Result<Items<Passed>, Starved>
    ensures { IfOk result (λ found. map passed_of found ≡ all_passed shapes.now (actuals_of (expr shapes.now) arguments.now)) }
{
    let mut found = Items::new(alloc);
    for argument in arguments.as_slice() {
        found.push(passed_as(alloc, shapes, &argument.value)?)?;
    }
    Ok(found)
}

fn may_differ(a: Usage, b: Usage) -> bool
    ensures { result ≡ may_differ (use_of a) (use_of b) }
{
    match a {
        Usage::Written => match b {
            Usage::Written | Usage::Shared => true,
            Usage::Copied => false,
        },
        Usage::Shared => match b {
            Usage::Written => true,
            Usage::Shared | Usage::Copied => false,
        },
        Usage::Copied => false,
    }
}

fn clash(a: &Passed, b: &Passed) -> bool
    ensures { result ≡ clash (passed_of a.now) (passed_of b.now) }
{
    may_differ(a.usage, b.usage) && overlap_named(&a.part, &b.part)
}

fn clashes_with(a: &Passed, mut others: &[Passed]) -> bool
    ensures { result ≡ clashes_with (passed_of a.now) (map passed_of others.entry.now) }
{
    while let [b, rest @ ..] = others {
        if clash(a, b) {
            return true;
        }
        others = rest;
    }
    false
}

pub(crate) fn is_in(number: u32, mut numbers: &[u32]) -> bool
    ensures { result ≡ is_in number numbers.entry.now }
{
    while let [first, rest @ ..] = numbers {
        if *first == number {
            return true;
        }
        numbers = rest;
    }
    false
}

fn set_in<'a>(set: Option<&'a Items<u32>>) -> &'a [u32]
    ensures { result.now ≡ set_in (option_copied set.entry) }
{
    match set {
        Some(numbers) => numbers.as_slice(),
        None => &[],
    }
}

pub(crate) fn set_at(sets: &SetList, at: u32) -> &[u32]
    ensures { result.now ≡ set_at sets.now at }
{
    set_in(sets.get(at as usize))
}

fn used_by_callee(effects: &Effects, callee: u32, usage: Usage, global: u32) -> bool
    ensures { result ≡ used_by_callee effects.now callee (use_of usage) global }
{
    match usage {
        Usage::Written => {
            is_in(global, set_at(&effects.reads, callee))
                || is_in(global, set_at(&effects.writes, callee))
        }
        Usage::Shared => is_in(global, set_at(&effects.writes, callee)),
        Usage::Copied => false,
    }
}

fn object_used(effects: &Effects, callee: u32, usage: Usage, object: Object) -> bool
    ensures { result ≡ object_used effects.now callee (use_of usage) (var object) }
{
    match object {
        Object::Global(global) => used_by_callee(effects, callee, usage, global),
        Object::Param(_) | Object::Local(_) | Object::Turn(_) | Object::Index(_) => false,
    }
}

fn part_used(effects: &Effects, callee: u32, usage: Usage, part: &Option<Part>) -> bool
    ensures { result ≡ part_used effects.now callee (use_of usage) (option_map part_of part.now) }
{
    match part {
        Some(part) => object_used(effects, callee, usage, part.object),
        None => false,
    }
}

fn push_global_faults(
    found: &mut FlowList,
    effects: &Effects,
    callee: u32,
    mut list: &[Passed],
) -> Result<(), Starved>
    ensures { OnOk result (found.new ≡ found.old ++ global_faults effects.now callee (map passed_of list.entry.now)) }
{
    while let [a, rest @ ..] = list {
        if part_used(effects, callee, a.usage, &a.part) {
            found.push(FlowFault {
                rule: 5,
                place: a.place,
            })?;
        }
        list = rest;
    }
    Ok(())
}

/// Adds the fault of the first actual that clashes with an earlier one.
fn push_overlap_fault(found: &mut FlowList, list: &[Passed]) -> Result<(), Starved>
    ensures { OnOk result (found.new ≡ found.old ++ overlap_faults [] (map passed_of list.now)) }
{
    let mut at = 0;
    while at < list.len() {
        let a = &list[at];
        if clashes_with(a, &list[..at]) {
            return found.push(FlowFault {
                rule: 4,
                place: a.place,
            });
        }
        at += 1;
    }
    Ok(())
}

/// Adds the faults of a call.
pub(crate) fn push_call_faults(
    alloc: Global,
    found: &mut FlowList,
    shapes: &ShapeList,
    effects: &Effects,
    callee: u32,
    arguments: &Items<Argument<Expr>>,
) -> Result<(), Starved>
    ensures { OnOk result (found.new ≡ found.old ++ (overlap_faults [] (all_passed shapes.now (actuals_of (expr shapes.now) arguments.now)) ++ global_faults effects.now callee (all_passed shapes.now (actuals_of (expr shapes.now) arguments.now)))) }
{
    let list = all_passed(alloc, shapes, arguments)?;
    push_overlap_fault(found, list.as_slice())?;
    push_global_faults(found, effects, callee, list.as_slice())
}
