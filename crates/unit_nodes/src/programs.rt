//! The nodes of a subprogram, and of a program.

ghost use Rattle.std.specs.Prelude.{◌≡◌, ◌<◌, ◌^◌, [], length, map, IfOk, OnOk};
ghost use Rattle.typed_units.specs.View.{condition_of, routine, text_of};
ghost use Rattle.unit_nodes.specs.Nodes.{nodes_of, post_onto, pre_onto, routine_onto};
ghost use Rattle.unit_nodes.specs.View.{node_of};

use crate::Starved;
use crate::expressions::push_expression;
use crate::node::{Asked, NodeList, NodeRef, push_node};
use crate::statements::push_statements;
use ada_values::ShapeList;
use sqlite_items::Items;
use std::alloc::Global;
use typed_units::{Contract, Program, Sub};

fn push_pre<'a>(
    found: &mut NodeList<'a>,
    shapes: &ShapeList,
    pre: &'a Option<Contract>,
) -> Result<(), Starved>
    ensures { OnOk result (map (node_of shapes.now) found.new ≡ pre_onto (map (node_of shapes.now) found.old) (condition_of shapes.now pre.now)) }
{
    match pre {
        None => Ok(()),
        Some(contract) => {
            push_node(found, shapes, NodeRef::Pre(&contract.condition))?;
            push_expression(found, shapes, Asked::Whole, &contract.condition)
        }
    }
}

fn push_post<'a>(
    found: &mut NodeList<'a>,
    shapes: &ShapeList,
    post: &'a Option<Contract>,
) -> Result<(), Starved>
    ensures { OnOk result (map (node_of shapes.now) found.new ≡ post_onto (map (node_of shapes.now) found.old) (condition_of shapes.now post.now)) }
{
    match post {
        None => Ok(()),
        Some(contract) => {
            push_node(found, shapes, NodeRef::Post(&contract.condition))?;
            push_expression(found, shapes, Asked::Whole, &contract.condition)
        }
    }
}

fn push_subprogram<'a>(
    found: &mut NodeList<'a>,
    shapes: &ShapeList,
    sub: &'a Sub,
) -> Result<(), Starved>
    ensures { OnOk result (map (node_of shapes.now) found.new ≡ routine_onto (map (node_of shapes.now) found.old) (routine shapes.now sub.now)) }
{
    push_pre(found, shapes, &sub.pre)?;
    push_post(found, shapes, &sub.post)?;
    push_statements(found, shapes, &sub.opening)?;
    push_statements(found, shapes, &sub.body)
}

/// The nodes of a subprogram in the order of its text: `Pre`, `Post`, the declarative part, the statements. `shapes` are
/// those of its program.
pub fn subprogram_nodes<'a>(
    alloc: Global,
    shapes: &ShapeList,
    sub: &'a Sub,
) -> Result<NodeList<'a>, Starved>
    ensures { IfOk result (λ found. map (node_of shapes.now) found ≡ routine_onto [] (routine shapes.now sub.now)) }
{
    let mut found = Items::new(alloc);
    push_subprogram(&mut found, shapes, sub)?;
    Ok(found)
}

/// The nodes of a program: its subprograms in the order of the files as they were named, then of their declarations.
pub fn program_nodes<'a>(alloc: Global, program: &'a Program) -> Result<NodeList<'a>, Starved>
    requires { length program.now.subs < 2 ^ 32 }
    ensures { IfOk result (λ found. map (node_of program.now.shapes) found ≡ nodes_of (text_of program.now)) }
{
    let mut found = Items::new(alloc);
    let mut number = 0u32;
    for sub in program.subs.as_slice() {
        push_node(&mut found, &program.shapes, NodeRef::Subprogram(number))?;
        push_subprogram(&mut found, &program.shapes, sub)?;
        number += 1;
    }
    Ok(found)
}
