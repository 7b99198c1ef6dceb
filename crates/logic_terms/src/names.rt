//! Whether a formula names a symbol or a call.

ghost use Rattle.std.specs.Prelude.{◌≡◌};
ghost use Rattle.logic_terms.specs.NodeParts.{node_of};
ghost use Rattle.logic_terms.specs.View.{formula, terms};
ghost use Rattle.logic_terms.specs.Names.{names_nothing as no_name, name_nothing as no_names};

use crate::node::{Leaf, NodeParts, NodeRef, node_parts};
use crate::operators::ListOperator;
use crate::syntax::{Formula, TermList};

#[cycle(names)]
fn terms_name_nothing(ts: &TermList) -> bool
    ensures { result ≡ no_names (terms ts.now) }
{
    for t in ts.as_slice() {
        if !node_names_nothing(NodeRef::Term(t)) {
            return false;
        }
    }
    true
}

#[cycle(names)]
fn node_names_nothing(n: NodeRef) -> bool
    ensures { result ≡ no_name (node_of n.entry) }
{
    match node_parts(n) {
        NodeParts::Leaf(Leaf::Symbol(_)) => false,
        NodeParts::Leaf(_) => true,
        NodeParts::One(_, a) => node_names_nothing(a),
        NodeParts::Two(_, a, b) => node_names_nothing(a) && node_names_nothing(b),
        NodeParts::Three(_, a, b, c) | NodeParts::Quantified(_, a, b, c) => {
            node_names_nothing(a) && node_names_nothing(b) && node_names_nothing(c)
        }
        NodeParts::List(ListOperator::Record, ts) => terms_name_nothing(ts),
        NodeParts::List(ListOperator::Call(_), _) => false,
    }
}

/// Whether a formula has no symbol and no call.
pub fn names_nothing(p: &Formula) -> bool
    ensures { result ≡ no_name (formula p.now) }
{
    node_names_nothing(NodeRef::Formula(p))
}
