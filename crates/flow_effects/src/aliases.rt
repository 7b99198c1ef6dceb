//! F4 and F5 in a program.

ghost use Rattle.std.specs.Prelude.{◌≡◌, ◌++◌, ◌<◌, ◌^◌, length, IfOk, OnOk};
ghost use Rattle.typed_units.specs.View.{expr, stmt, text_of};
ghost use Rattle.unit_nodes.specs.Inner.{action_of};
ghost use Rattle.unit_nodes.specs.View.{node_of};
ghost use Rattle.flow_rules.specs.Base.{form_of};
ghost use Rattle.flow_rules.specs.Aliases.{action_faults, alias_faults, form_faults, node_faults};

use crate::Starved;
use crate::passed::push_call_faults;
use flow_rules::{Effects, FlowList};
use sqlite_items::Items;
use std::alloc::Global;
use typed_units::{Action, Expr, ExprNode, Program, Stmt};
use unit_nodes::{NodeRef, program_nodes};

fn push_statement_faults(
    alloc: Global,
    found: &mut FlowList,
    program: &Program,
    effects: &Effects,
    s: &Stmt,
) -> Result<(), Starved>
    ensures { OnOk result (found.new ≡ found.old ++ action_faults (text_of program.now) effects.now (action_of (stmt program.now.shapes s.now))) }
{
    match s.action.get() {
        Action::Call(callee, arguments) => {
            push_call_faults(alloc, found, &program.shapes, effects, *callee, arguments)
        }
        _ => Ok(()),
    }
}

fn push_expression_faults(
    alloc: Global,
    found: &mut FlowList,
    program: &Program,
    effects: &Effects,
    e: &Expr,
) -> Result<(), Starved>
    ensures { OnOk result (found.new ≡ found.old ++ form_faults (text_of program.now) effects.now (form_of (expr program.now.shapes e.now))) }
{
    match e.node.get() {
        ExprNode::Call(_, callee, arguments) => {
            push_call_faults(alloc, found, &program.shapes, effects, *callee, arguments)
        }
        _ => Ok(()),
    }
}

fn push_node_faults(
    alloc: Global,
    found: &mut FlowList,
    program: &Program,
    effects: &Effects,
    node: NodeRef,
) -> Result<(), Starved>
    ensures { OnOk result (found.new ≡ found.old ++ node_faults (text_of program.now) effects.now (node_of program.now.shapes node.entry)) }
{
    match node {
        NodeRef::Statement(s) => push_statement_faults(alloc, found, program, effects, s),
        NodeRef::Expression(_, e) => push_expression_faults(alloc, found, program, effects, e),
        _ => Ok(()),
    }
}

/// Where F4 and F5 are broken, in the order of the text: no written actual overlaps another that is written or is of array or
/// record type, and none is a global that the callee uses. The effects are the program's. Want of memory is the only error.
pub fn alias_faults(
    alloc: Global,
    program: &Program,
    effects: &Effects,
) -> Result<FlowList, Starved>
    requires { length program.now.subs < 2 ^ 32 }
    ensures { IfOk result (λ found. found ≡ alias_faults (text_of program.now) effects.now) }
{
    let nodes = program_nodes(alloc, program)?;
    let mut found = Items::new(alloc);
    for node in nodes.as_slice() {
        push_node_faults(alloc, &mut found, program, effects, *node)?;
    }
    Ok(found)
}
