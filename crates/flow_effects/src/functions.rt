//! F3: what functions write.

ghost use Rattle.std.specs.Prelude.{◌≡◌, ◌++◌, ◌∷◌, ◌<◌, ◌^◌, [], ℕ, List, cond, length, map, not, IfOk, OnOk};
ghost use Rattle.ada_values.specs.declared.shapes.Shape.{Shape};
ghost use Rattle.typed_units.specs.View.{actual_of, actuals_of, expr, routine, stmt, var};
ghost use Rattle.unit_nodes.specs.Inner.{action_of, own_parts};
ghost use Rattle.unit_nodes.specs.Nodes.{statement};
ghost use Rattle.unit_nodes.specs.View.{node_of};
ghost use Rattle.flow_rules.specs.Base.{actual_writes, gathered, objects_written};
ghost use Rattle.flow_rules.specs.Aliases.{fault, set_at};
ghost use Rattle.flow_rules.specs.Functions.{action_breaks, actuals_write, any_global, any_other, contract_fault, expressions_write, function_faults, function_writes, is_local, stated_fault, statement_fault, writing_faults};
ghost use Rattle.flow_rules.specs.Headed.{headed};

use crate::Starved;
use crate::own::push_own;
use crate::passed::set_at;
use crate::stated::push_stated_fault;
use ada_values::{Place, ShapeList};
use flow_rules::{Effects, FlowFault, FlowList};
use sqlite_items::Items;
use std::alloc::Global;
use typed_units::{Action, Actual, Argument, Expr, Object, Program, Stmt, Sub};
use unit_nodes::{Asked, NodeRef, push_expression, subprogram_nodes};

fn is_other(object: Object) -> bool
    ensures { result ≡ not (is_local (var object)) }
{
    match object {
        Object::Local(_) => false,
        Object::Param(_) | Object::Global(_) | Object::Turn(_) | Object::Index(_) => true,
    }
}

fn actual_writes_other(actual: &Actual<Expr>) -> bool
    ensures { (shapes : List Shape) (k : ℕ) → result ≡ any_other (actual_writes (actual_of (expr shapes) k actual.now)) }
{
    match actual {
        Actual::In(_) => false,
        Actual::Out(target, _) | Actual::InOut(target, _, _) => is_other(target.object),
    }
}

#[tactic(auto, using(crate::proofs::Others::any_of_both))]
fn actuals_write_other(shapes: &ShapeList, mut arguments: &[Argument<Expr>]) -> bool
    ensures { result ≡ any_other (actuals_write (actuals_of (expr shapes.now) arguments.entry.now)) }
{
    while let [argument, rest @ ..] = arguments {
        if actual_writes_other(&argument.value) {
            return true;
        }
        arguments = rest;
    }
    false
}

fn statement_writes_other(s: &Stmt) -> bool
    ensures { (shapes : List Shape) → result ≡ any_other (objects_written (statement (stmt shapes s.now))) }
{
    match s.action.get() {
        Action::Assign(target, _) => is_other(target.object),
        _ => false,
    }
}

fn node_writes_other(shapes: &ShapeList, node: NodeRef) -> bool
    ensures { result ≡ any_other (objects_written (node_of shapes.now node.entry)) }
{
    match node {
        NodeRef::Statement(s) => statement_writes_other(s),
        NodeRef::Passed(_, argument) => actual_writes_other(&argument.value),
        _ => false,
    }
}

#[tactic(auto, using(crate::proofs::Others::any_of_both))]
fn nodes_write_other(shapes: &ShapeList, mut nodes: &[NodeRef]) -> bool
    ensures { result ≡ any_other (gathered objects_written (map (node_of shapes.now) nodes.entry.now)) }
{
    while let [node, rest @ ..] = nodes {
        if node_writes_other(shapes, *node) {
            return true;
        }
        nodes = rest;
    }
    false
}

fn any_global(globals: &[u32]) -> bool
    ensures { result ≡ any_global globals.now }
{
    !globals.is_empty()
}

fn action_breaks(shapes: &ShapeList, effects: &Effects, s: &Stmt) -> bool
    ensures { result ≡ action_breaks effects.now (action_of (stmt shapes.now s.now)) }
{
    match s.action.get() {
        Action::Assign(target, _) => is_other(target.object),
        Action::Call(callee, arguments) => {
            actuals_write_other(shapes, arguments.as_slice())
                || any_global(set_at(&effects.writes, *callee))
        }
        _ => false,
    }
}

fn own_writes_other(alloc: Global, shapes: &ShapeList, s: &Stmt) -> Result<bool, Starved>
    ensures { IfOk result (λ writes. writes ≡ any_other (expressions_write (own_parts (action_of (stmt shapes.now s.now))))) }
{
    let mut nodes = Items::new(alloc);
    push_own(&mut nodes, shapes, s)?;
    Ok(nodes_write_other(shapes, nodes.as_slice()))
}

fn push_fault_if(found: &mut FlowList, holds: bool, place: Place) -> Result<(), Starved>
    ensures { OnOk result (found.new ≡ found.old ++ cond holds (fault 3 place ∷ []) []) }
{
    if holds {
        return found.push(FlowFault { rule: 3, place });
    }
    Ok(())
}

fn push_statement_fault(
    alloc: Global,
    found: &mut FlowList,
    shapes: &ShapeList,
    effects: &Effects,
    s: &Stmt,
) -> Result<(), Starved>
    ensures { OnOk result (found.new ≡ found.old ++ statement_fault effects.now (stmt shapes.now s.now)) }
{
    let own = own_writes_other(alloc, shapes, s)?;
    push_fault_if(found, action_breaks(shapes, effects, s) || own, s.place)
}

fn push_contract_fault(
    alloc: Global,
    found: &mut FlowList,
    shapes: &ShapeList,
    e: &Expr,
) -> Result<(), Starved>
    ensures { OnOk result (found.new ≡ found.old ++ contract_fault (expr shapes.now e.now)) }
{
    let mut nodes = Items::new(alloc);
    push_expression(&mut nodes, shapes, Asked::Whole, e)?;
    push_fault_if(found, nodes_write_other(shapes, nodes.as_slice()), e.place)
}

fn push_writing_faults(
    alloc: Global,
    found: &mut FlowList,
    shapes: &ShapeList,
    effects: &Effects,
    node: NodeRef,
) -> Result<(), Starved>
    ensures { OnOk result (found.new ≡ found.old ++ writing_faults effects.now (node_of shapes.now node.entry)) }
{
    match node {
        NodeRef::Pre(e) | NodeRef::Post(e) => push_contract_fault(alloc, found, shapes, e),
        NodeRef::Statement(s) => push_statement_fault(alloc, found, shapes, effects, s),
        _ => Ok(()),
    }
}

fn push_all_writing_faults(
    alloc: Global,
    found: &mut FlowList,
    shapes: &ShapeList,
    effects: &Effects,
    nodes: &[NodeRef],
) -> Result<(), Starved>
    ensures { OnOk result (found.new ≡ found.old ++ gathered (writing_faults effects.now) (map (node_of shapes.now) nodes.now)) }
{
    for node in nodes {
        push_writing_faults(alloc, found, shapes, effects, *node)?;
    }
    Ok(())
}

fn push_function_writes(
    alloc: Global,
    found: &mut FlowList,
    shapes: &ShapeList,
    effects: &Effects,
    sub: &Sub,
) -> Result<(), Starved>
    ensures { OnOk result (found.new ≡ found.old ++ function_writes effects.now (routine shapes.now sub.now)) }
{
    if sub.result.is_none() {
        return Ok(());
    }
    let nodes = subprogram_nodes(alloc, shapes, sub)?;
    push_all_writing_faults(alloc, found, shapes, effects, nodes.as_slice())
}

fn push_subprogram_faults(
    alloc: Global,
    found: &mut FlowList,
    program: &Program,
    effects: &Effects,
    number: u32,
    sub: &Sub,
) -> Result<(), Starved>
    ensures { OnOk result (found.new ≡ found.old ++ (stated_fault sub.now.global (set_at effects.now.reads number) (set_at effects.now.writes number) ++ function_writes effects.now (routine program.now.shapes sub.now))) }
{
    let read = set_at(&effects.reads, number);
    let written = set_at(&effects.writes, number);
    push_stated_fault(alloc, found, &sub.global, read, written)?;
    push_function_writes(alloc, found, &program.shapes, effects, sub)
}

/// Where F3 and F6 are broken, subprogram by subprogram, of each F6 first: a function writes nothing but its locals, and a
/// stated `Global` fits the effects. The effects are the program's. Want of memory is the only error.
pub fn function_faults(
    alloc: Global,
    program: &Program,
    effects: &Effects,
) -> Result<FlowList, Starved>
    requires { length program.now.subs < 2 ^ 32 }
    ensures { IfOk result (λ found. found ≡ function_faults (headed program.now) effects.now) }
{
    let mut found = Items::new(alloc);
    let mut number = 0u32;
    for sub in program.subs.as_slice() {
        push_subprogram_faults(alloc, &mut found, program, effects, number, sub)?;
        number += 1;
    }
    Ok(found)
}
