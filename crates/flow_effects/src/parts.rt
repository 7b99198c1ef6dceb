//! Objects and their parts, and which overlap.

ghost use Rattle.std.specs.Prelude.{◌≡◌, map, IfOk, Some};
ghost use Rattle.std.specs.Option.{option_copied, option_map};
ghost use Rattle.typed_units.specs.View.{expr, path_of, var};
ghost use Rattle.flow_rules.specs.Aliases.{fields_differ, further, named_by, overlap, overlap_named, parted, same_object, steps_of};
ghost use Rattle.flow_effects.specs.Seen.{part_of, step_of};

use crate::Starved;
use ada_values::ShapeList;
use sqlite_items::Items;
use std::alloc::Global;
use typed_units::{Expr, ExprNode, Object, Step};

/// A step to a part: a record's component by its number, or an array's item, whichever it is.
#[derive(Clone, Copy)]
pub(crate) enum PartStep {
    Field(u32),
    SomeItem,
}

/// An object or a part of it.
#[derive(Drop)]
pub(crate) struct Part {
    pub(crate) object: Object,
    pub(crate) path: Items<PartStep>,
}

fn same_object(a: Object, b: Object) -> bool
    ensures { result ≡ same_object (var a) (var b) }
{
    a == b
}

fn differs_from(field: u32, b: PartStep) -> bool
    ensures { result ≡ fields_differ (step_of (PartStep.Field field)) (step_of b) }
{
    match b {
        PartStep::Field(k) => field != k,
        PartStep::SomeItem => false,
    }
}

fn fields_differ(a: PartStep, b: PartStep) -> bool
    ensures { result ≡ fields_differ (step_of a) (step_of b) }
{
    match a {
        PartStep::Field(j) => differs_from(j, b),
        PartStep::SomeItem => false,
    }
}

fn parted(mut left: &[PartStep], mut right: &[PartStep]) -> bool
    ensures { result ≡ parted (map step_of left.entry.now) (map step_of right.entry.now) }
{
    while let [a, more @ ..] = left {
        let [b, others @ ..] = right else {
            return false;
        };
        if fields_differ(*a, *b) {
            return true;
        }
        left = more;
        right = others;
    }
    false
}

fn overlap(a: &Part, b: &Part) -> bool
    ensures { result ≡ overlap (part_of a.now) (part_of b.now) }
{
    same_object(a.object, b.object) && !parted(a.path.as_slice(), b.path.as_slice())
}

fn overlap_with(a: &Part, b: &Option<Part>) -> bool
    ensures { result ≡ overlap_named (Some (part_of a.now)) (option_map part_of b.now) }
{
    match b {
        Some(b) => overlap(a, b),
        None => false,
    }
}

pub(crate) fn overlap_named(a: &Option<Part>, b: &Option<Part>) -> bool
    ensures { result ≡ overlap_named (option_map part_of a.now) (option_map part_of b.now) }
{
    match a {
        Some(a) => overlap_with(a, b),
        None => false,
    }
}

/// The steps of a target's path.
pub(crate) fn steps_of(
    alloc: Global,
    shapes: &ShapeList,
    path: &Items<Step<Expr>>,
) -> Result<Items<PartStep>, Starved>
    ensures { IfOk result (λ found. map step_of found ≡ steps_of (path_of (expr shapes.now) path.now)) }
{
    let mut found = Items::new(alloc);
    for step in path.as_slice() {
        match step {
            Step::Component(k, _) => found.push(PartStep::Field(*k))?,
            Step::Item(_, _) => found.push(PartStep::SomeItem)?,
        }
    }
    Ok(found)
}

fn further(found: Option<Part>, step: PartStep) -> Result<Option<Part>, Starved>
    ensures { IfOk result (λ part. option_map part_of part ≡ further (option_map part_of found) (step_of step)) }
{
    match found {
        None => Ok(None),
        Some(part) => {
            let Part { object, mut path } = part;
            path.push(step)?;
            Ok(Some(Part { object, path }))
        }
    }
}

/// The object or the part of one that an expression names.
#[tactic(auto, using(crate::proofs::Objects::object_named))]
#[cycle(named)]
pub(crate) fn named_by(alloc: Global, shapes: &ShapeList, e: &Expr) -> Result<Option<Part>, Starved>
    ensures { IfOk result (λ part. option_map part_of part ≡ named_by (expr shapes.now e.now)) }
{
    match e.node.get() {
        ExprNode::Read(_, object) => Ok(Some(Part {
            object: *object,
            path: Items::new(alloc),
        })),
        ExprNode::Component(a, k) => further(named_by(alloc, shapes, a)?, PartStep::Field(*k)),
        ExprNode::Item(a, _) => further(named_by(alloc, shapes, a)?, PartStep::SomeItem),
        ExprNode::Convert(_, a) => named_by(alloc, shapes, a),
        _ => Ok(None),
    }
}
