//! What lists of nodes have.

ghost use Rattle.std.specs.Prelude.{◌≡◌, ◌+◌, List, Contains, length};
ghost use Rattle.typed_units.specs.Syntax.{Ex, Routine, St, Text};
ghost use Rattle.unit_nodes.specs.declared.node.Asked.{Asked};
ghost use Rattle.unit_nodes.specs.Nodes.{Node, expression, nodes_of, onto, statement};
ghost use Rattle.unit_nodes.specs.Counts.{count, routines_count};
ghost use Rattle.unit_nodes.specs.Inner.{Under, action_of, conditions_of, own_parts, statements_of};
ghost use Rattle.unit_nodes.specs.Parts.{Inside};

/// What stands inside an expression is among its nodes, and a node that is in the list stays there.
#[tactic(auto, using(crate::proofs::Members::inside_is_shown, crate::proofs::Members::stays))]
pub fn laws_of_expressions()
    ensures inside { (x : Ex) (e : Ex) → Inside x e → (a : Asked) (xs : List Node) → (b : Asked) × Contains (onto a xs e) (expression b x) }
    ensures stays { (y : Node) (a : Asked) (xs : List Node) (e : Ex) → Contains xs y → Contains (onto a xs e) y }
{}

/// What stands in a subprogram of a program is among the program's nodes: each statement of its declarative part and of its
/// body, also within others, and what stands inside the expressions of these and of its contracts.
pub fn laws_of_programs()
    ensures statements { (t : Text) (r : Routine) (d : St) (x : St) → Contains t.routines r → Contains (statements_of r) d → Under x d → Contains (nodes_of t) (statement x) }
    ensures expressions { (t : Text) (r : Routine) (d : St) (x : St) (e : Ex) (y : Ex) → Contains t.routines r → Contains (statements_of r) d → Under x d
        → Contains (own_parts (action_of x)) e → Inside y e → (b : Asked) × Contains (nodes_of t) (expression b y) }
    ensures contracts { (t : Text) (r : Routine) (e : Ex) (y : Ex) → Contains t.routines r → Contains (conditions_of r) e → Inside y e
        → (b : Asked) × Contains (nodes_of t) (expression b y) }
{}

/// An expression, and a program, have as many nodes as are counted.
#[tactic(auto, using(crate::proofs::Counted::counted, crate::proofs::Counted::counted_program))]
pub fn laws_of_counts()
    ensures expression { (a : Asked) (xs : List Node) (e : Ex) → length (onto a xs e) ≡ length xs + count e }
    ensures program { (t : Text) → length (nodes_of t) ≡ routines_count t.routines }
{}
