//! The nodes of a statement's own expressions, without those of the statements in it.

ghost use Rattle.std.specs.Prelude.{◌≡◌, map, OnOk};
ghost use Rattle.typed_units.specs.View.{actual_of, actuals_of, demand_of, expr, head_of, path_of, stmt, way_of};
ghost use Rattle.unit_nodes.specs.Inner.{action_of, demand_parts, head_parts, own_parts, ways_parts};
ghost use Rattle.unit_nodes.specs.Parts.{actual_parts, path_parts};
ghost use Rattle.unit_nodes.specs.View.{node_of};
ghost use Rattle.flow_rules.specs.Functions.{each_onto};
ghost use Rattle.flow_effects.specs.OwnParts.{conditions_of, each_actual_onto, each_demand_onto};

use crate::Starved;
use ada_values::ShapeList;
use sqlite_items::Items;
use typed_units::{Action, Actual, Argument, Branch, Demand, Expr, Head, Step, Stmt, Way};
use unit_nodes::{Asked, NodeList, push_expression};

fn push_indexes<'a>(
    found: &mut NodeList<'a>,
    shapes: &ShapeList,
    path: &'a Items<Step<Expr>>,
) -> Result<(), Starved>
    ensures { OnOk result (map (node_of shapes.now) found.new ≡ each_onto (map (node_of shapes.now) found.old) (path_parts (path_of (expr shapes.now) path.now))) }
{
    for step in path.as_slice() {
        if let Step::Item(_, index) = step {
            push_expression(found, shapes, Asked::Whole, &index.value)?;
        }
    }
    Ok(())
}

fn push_actual<'a>(
    found: &mut NodeList<'a>,
    shapes: &ShapeList,
    argument: &'a Argument<Expr>,
) -> Result<(), Starved>
    ensures { OnOk result (map (node_of shapes.now) found.new ≡ each_onto (map (node_of shapes.now) found.old) (actual_parts (actual_of (expr shapes.now) argument.now.formal argument.now.value))) }
{
    match &argument.value {
        Actual::In(value) => push_expression(found, shapes, Asked::Whole, &value.value),
        Actual::Out(target, _) | Actual::InOut(target, _, _) => {
            push_indexes(found, shapes, &target.path)
        }
    }
}

fn push_actuals<'a>(
    found: &mut NodeList<'a>,
    shapes: &ShapeList,
    arguments: &'a Items<Argument<Expr>>,
) -> Result<(), Starved>
    ensures { OnOk result (map (node_of shapes.now) found.new ≡ each_actual_onto (map (node_of shapes.now) found.old) (actuals_of (expr shapes.now) arguments.now)) }
{
    for argument in arguments.as_slice() {
        push_actual(found, shapes, argument)?;
    }
    Ok(())
}

fn push_conditions<'a>(
    found: &mut NodeList<'a>,
    shapes: &ShapeList,
    branches: &'a Items<Branch<Stmt>>,
) -> Result<(), Starved>
    ensures { OnOk result (map (node_of shapes.now) found.new ≡ each_onto (map (node_of shapes.now) found.old) (conditions_of shapes.now branches.now)) }
{
    for branch in branches.as_slice() {
        push_expression(found, shapes, Asked::Whole, &branch.condition)?;
    }
    Ok(())
}

fn push_ways<'a>(
    found: &mut NodeList<'a>,
    shapes: &ShapeList,
    ways: &'a Items<Way>,
) -> Result<(), Starved>
    ensures { OnOk result (map (node_of shapes.now) found.new ≡ each_onto (map (node_of shapes.now) found.old) (ways_parts (map (way_of shapes.now) ways.now))) }
{
    for way in ways.as_slice() {
        push_expression(found, shapes, Asked::Whole, &way.value)?;
    }
    Ok(())
}

fn push_demand<'a>(
    found: &mut NodeList<'a>,
    shapes: &ShapeList,
    demand: &'a Demand,
) -> Result<(), Starved>
    ensures { OnOk result (map (node_of shapes.now) found.new ≡ each_onto (map (node_of shapes.now) found.old) (demand_parts (demand_of shapes.now demand.now))) }
{
    match demand {
        Demand::Invariant(e) => push_expression(found, shapes, Asked::Whole, e),
        Demand::Variant(ways) => push_ways(found, shapes, ways),
    }
}

fn push_demands<'a>(
    found: &mut NodeList<'a>,
    shapes: &ShapeList,
    group: &'a Items<Demand>,
) -> Result<(), Starved>
    ensures { OnOk result (map (node_of shapes.now) found.new ≡ each_demand_onto (map (node_of shapes.now) found.old) (map (demand_of shapes.now) group.now)) }
{
    for demand in group.as_slice() {
        push_demand(found, shapes, demand)?;
    }
    Ok(())
}

fn push_head<'a>(
    found: &mut NodeList<'a>,
    shapes: &ShapeList,
    head: &'a Head,
) -> Result<(), Starved>
    ensures { OnOk result (map (node_of shapes.now) found.new ≡ each_onto (map (node_of shapes.now) found.old) (head_parts (head_of shapes.now head.now))) }
{
    match head {
        Head::Forever => Ok(()),
        Head::While(e) => push_expression(found, shapes, Asked::Whole, e),
        Head::For(_, _, low, high) => {
            push_expression(found, shapes, Asked::Whole, low)?;
            push_expression(found, shapes, Asked::Whole, high)
        }
    }
}

/// Adds the nodes of a statement's own expressions.
#[tactic(auto, using(crate::proofs::OwnParts::assign_parts, crate::proofs::OwnParts::call_parts, crate::proofs::OwnParts::branch_parts, crate::proofs::OwnParts::case_parts, crate::proofs::OwnParts::loop_parts))]
pub(crate) fn push_own<'a>(
    found: &mut NodeList<'a>,
    shapes: &ShapeList,
    s: &'a Stmt,
) -> Result<(), Starved>
    ensures { OnOk result (map (node_of shapes.now) found.new ≡ each_onto (map (node_of shapes.now) found.old) (own_parts (action_of (stmt shapes.now s.now)))) }
{
    match s.action.get() {
        Action::Null | Action::Exit | Action::Return => Ok(()),
        Action::Assign(target, assigned) => {
            push_indexes(found, shapes, &target.path)?;
            push_expression(found, shapes, Asked::Whole, &assigned.value)
        }
        Action::Call(_, arguments) => push_actuals(found, shapes, arguments),
        Action::If(branches, _) => push_conditions(found, shapes, branches),
        Action::Case(e, _) => push_expression(found, shapes, Asked::Whole, e),
        Action::Loop(parts) => {
            push_head(found, shapes, &parts.head)?;
            push_demands(found, shapes, &parts.group)
        }
        Action::ExitWhen(e) | Action::Assert(e) | Action::Assume(e) => {
            push_expression(found, shapes, Asked::Whole, e)
        }
        Action::Give(given) => push_expression(found, shapes, Asked::Whole, &given.value),
    }
}
