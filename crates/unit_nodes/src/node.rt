//! What a node is.

ghost use Rattle.std.specs.Prelude.{◌≡◌, ◌++◌, ◌∷◌, [], map, OnOk};
ghost use Rattle.unit_nodes.specs.View.{node_of};

use crate::Starved;
use ada_values::ShapeList;
use sqlite_items::Items;
use typed_units::{Argument, Association, Demand, Expr, Indexed, Stmt};

/// What is asked of an expression where it stands.
#[derive(Clone, Copy)]
pub enum Asked {
    /// Its value.
    Whole,
    /// One of its components: it is the prefix of a selected component.
    Component,
    /// Its bounds: it is the prefix of `'First`, `'Last` or `'Length`.
    Bounds,
}

/// A node of a typed program.
#[derive(Clone, Copy)]
pub enum NodeRef<'a> {
    /// The subprogram of this number begins here. Its nodes follow, up to the next subprogram.
    Subprogram(u32),
    /// The condition of a `Pre`, which is the next node.
    Pre(&'a Expr),
    /// The condition of a `Post`, which is the next node.
    Post(&'a Expr),
    Statement(&'a Stmt),
    /// A pragma of a loop's group.
    Demand(&'a Demand),
    /// What is passed in a call of the subprogram of this number.
    Passed(u32, &'a Argument<Expr>),
    /// The index of an item in an object that is assigned or passed, which is the next node. The index of an item that is
    /// read stands in the expression that is this item.
    Index(&'a Indexed<Expr>),
    /// An association of an aggregate. Its value is the next node.
    Association(&'a Association<Expr>),
    Expression(Asked, &'a Expr),
}

/// Nodes in the order of the text, each before its parts.
pub type NodeList<'a> = Items<NodeRef<'a>>;

/// Adds a node.
pub(crate) fn push_node<'a>(
    found: &mut NodeList<'a>,
    shapes: &ShapeList,
    node: NodeRef<'a>,
) -> Result<(), Starved>
    ensures { OnOk result (map (node_of shapes.now) found.new ≡ map (node_of shapes.now) found.old ++ node_of shapes.now node.entry ∷ []) }
{
    found.push(node)
}
