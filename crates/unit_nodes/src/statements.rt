//! The nodes of statements.

ghost use Rattle.std.specs.Prelude.{◌≡◌, map, OnOk};
ghost use Rattle.typed_units.specs.View.{demand_of, expr, head_of, stmt, stmts, way_of};
ghost use Rattle.unit_nodes.specs.Nodes.{alternatives_onto, demands_onto, head_onto, st_onto, sts_onto, ways_onto};
ghost use Rattle.unit_nodes.specs.View.{alternatives_seen, each_branch_onto, node_of};

use crate::Starved;
use crate::expressions::{push_actuals, push_expression, push_path};
use crate::node::{Asked, NodeList, NodeRef, push_node};
use ada_values::ShapeList;
use sqlite_items::Items;
use typed_units::{Action, Alternative, Branch, Demand, Head, Stmt, Way};

fn push_ways<'a>(
    found: &mut NodeList<'a>,
    shapes: &ShapeList,
    ways: &'a Items<Way>,
) -> Result<(), Starved>
    ensures { OnOk result (map (node_of shapes.now) found.new ≡ ways_onto (map (node_of shapes.now) found.old) (map (way_of shapes.now) ways.now)) }
{
    for way in ways.as_slice() {
        push_expression(found, shapes, Asked::Whole, &way.value)?;
    }
    Ok(())
}

/// Adds the pragmas of a loop's group, each before its expressions.
fn push_demands<'a>(
    found: &mut NodeList<'a>,
    shapes: &ShapeList,
    group: &'a Items<Demand>,
) -> Result<(), Starved>
    ensures { OnOk result (map (node_of shapes.now) found.new ≡ demands_onto (map (node_of shapes.now) found.old) (map (demand_of shapes.now) group.now)) }
{
    for demand in group.as_slice() {
        push_node(found, shapes, NodeRef::Demand(demand))?;
        match demand {
            Demand::Invariant(e) => push_expression(found, shapes, Asked::Whole, e)?,
            Demand::Variant(ways) => push_ways(found, shapes, ways)?,
        }
    }
    Ok(())
}

fn push_head<'a>(
    found: &mut NodeList<'a>,
    shapes: &ShapeList,
    head: &'a Head,
) -> Result<(), Starved>
    ensures { OnOk result (map (node_of shapes.now) found.new ≡ head_onto (map (node_of shapes.now) found.old) (head_of shapes.now head.now)) }
{
    match head {
        Head::Forever => Ok(()),
        Head::While(e) => push_expression(found, shapes, Asked::Whole, e),
        Head::For(_, _, low, high) => {
            push_expression(found, shapes, Asked::Whole, low)?;
            push_expression(found, shapes, Asked::Whole, high)
        }
    }
}

#[cycle(statements)]
fn push_branches<'a>(
    found: &mut NodeList<'a>,
    shapes: &ShapeList,
    branches: &'a Items<Branch<Stmt>>,
) -> Result<(), Starved>
    ensures { OnOk result (map (node_of shapes.now) found.new ≡ each_branch_onto shapes.now (map (node_of shapes.now) found.old) branches.now) }
{
    for branch in branches.as_slice() {
        push_expression(found, shapes, Asked::Whole, &branch.condition)?;
        push_statements(found, shapes, &branch.body)?;
    }
    Ok(())
}

#[cycle(statements)]
fn push_alternatives<'a>(
    found: &mut NodeList<'a>,
    shapes: &ShapeList,
    alternatives: &'a Items<Alternative<Stmt>>,
) -> Result<(), Starved>
    ensures { OnOk result (map (node_of shapes.now) found.new ≡ alternatives_onto (map (node_of shapes.now) found.old) (alternatives_seen shapes.now alternatives.now)) }
{
    for alternative in alternatives.as_slice() {
        push_statements(found, shapes, &alternative.body)?;
    }
    Ok(())
}

#[tactic(auto, using(crate::proofs::StatementViews::branch_nodes, crate::proofs::StatementViews::case_nodes, crate::proofs::StatementViews::loop_nodes))]
#[cycle(statements)]
fn push_statement<'a>(
    found: &mut NodeList<'a>,
    shapes: &ShapeList,
    s: &'a Stmt,
) -> Result<(), Starved>
    ensures { OnOk result (map (node_of shapes.now) found.new ≡ st_onto (map (node_of shapes.now) found.old) (stmt shapes.now s.now)) }
{
    push_node(found, shapes, NodeRef::Statement(s))?;
    match s.action.get() {
        Action::Null | Action::Exit | Action::Return => Ok(()),
        Action::Assign(target, assigned) => {
            push_path(found, shapes, &target.path)?;
            push_expression(found, shapes, Asked::Whole, &assigned.value)
        }
        Action::Call(callee, arguments) => push_actuals(found, shapes, *callee, arguments),
        Action::If(branches, otherwise) => {
            push_branches(found, shapes, branches)?;
            push_statements(found, shapes, otherwise)
        }
        Action::Case(e, alternatives) => {
            push_expression(found, shapes, Asked::Whole, e)?;
            push_alternatives(found, shapes, alternatives)
        }
        Action::Loop(parts) => {
            push_head(found, shapes, &parts.head)?;
            push_statements(found, shapes, &parts.before)?;
            push_demands(found, shapes, &parts.group)?;
            push_statements(found, shapes, &parts.after)
        }
        Action::ExitWhen(e) | Action::Assert(e) | Action::Assume(e) => {
            push_expression(found, shapes, Asked::Whole, e)
        }
        Action::Give(given) => push_expression(found, shapes, Asked::Whole, &given.value),
    }
}

/// Adds the nodes of statements in the order of the text, each before its parts. `shapes` are those of their program.
#[cycle(statements)]
pub fn push_statements<'a>(
    found: &mut NodeList<'a>,
    shapes: &ShapeList,
    statements: &'a Items<Stmt>,
) -> Result<(), Starved>
    ensures { OnOk result (map (node_of shapes.now) found.new ≡ sts_onto (map (node_of shapes.now) found.old) (stmts shapes.now statements.now)) }
{
    for s in statements.as_slice() {
        push_statement(found, shapes, s)?;
    }
    Ok(())
}
