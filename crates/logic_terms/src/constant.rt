//! Whether the value of a formula is fixed.

ghost use Rattle.std.specs.Prelude.{◌≡◌};
ghost use Rattle.logic_terms.specs.NodeParts.{node_of};
ghost use Rattle.logic_terms.specs.View.{formula, terms};
ghost use Rattle.logic_terms.specs.Levels.{levels, levels_of};
ghost use Rattle.logic_terms.specs.Names.{is_constant as constant};

use crate::names::names_nothing;
use crate::node::{Leaf, NodeParts, NodeRef, node_parts};
use crate::syntax::{Formula, TermList};

#[cycle(levels)]
fn terms_levels(ts: &TermList) -> u64
    ensures { result ≡ levels_of (terms ts.now) }
{
    let mut most = 0;
    for t in ts.as_slice() {
        most = node_levels(NodeRef::Term(t)).max(most);
    }
    most
}

/// How many quantifiers around a term or a formula bind all its variables.
#[cycle(levels)]
fn node_levels(n: NodeRef) -> u64
    ensures { result ≡ levels (node_of n.entry) }
{
    match node_parts(n) {
        NodeParts::Leaf(Leaf::Bound(k)) => u64::from(k) + 1,
        NodeParts::Leaf(_) => 0,
        NodeParts::One(_, a) => node_levels(a),
        NodeParts::Two(_, a, b) => node_levels(a).max(node_levels(b)),
        NodeParts::Three(_, a, b, c) => node_levels(a).max(node_levels(b).max(node_levels(c))),
        NodeParts::List(_, ts) => terms_levels(ts),
        NodeParts::Quantified(_, first, last, p) => {
            node_levels(first).max(node_levels(last).max(node_levels(p).saturating_sub(1)))
        }
    }
}

/// Whether a formula has no symbol, no call and no free variable, so that its truth is fixed.
#[tactic(auto, using(crate::proofs::Closed::closed_levels))]
pub fn is_constant(f: &Formula) -> bool
    ensures { result ≡ constant (formula f.now) }
{
    names_nothing(f) && node_levels(NodeRef::Formula(f)) == 0
}
