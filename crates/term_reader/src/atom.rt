//! Parts without brackets.

ghost use Rattle.std.specs.Prelude.{◌≡◌, IfOk};
ghost use Rattle.logic_terms.specs.View.{term, formula};
ghost use Rattle.logic_terms.specs.Sorts.{sort};
ghost use Rattle.term_reader.specs.Atoms.{atom_tree};
ghost use Rattle.term_reader.specs.Reads.{tree};
ghost use Rattle.term_reader.specs.Trees.{of_node, of_kind};

use crate::part::Part;
use logic_terms::{Formula, Sort, Starved, Term};
use sqlite_items::Boxed;
use std::alloc::Global;

/// A part without brackets.
#[derive(Clone, Copy)]
pub enum Atom {
    /// A whole number.
    Num(i128),
    /// A symbol by its number.
    Sym(u32),
    /// A bound variable by its number.
    Bound(u32),
    True,
    False,
    /// The sort of numbers.
    Numbers,
    /// The sort of truth values.
    Truths,
}

/// The part that is this term.
pub fn term_part(alloc: Global, t: Term) -> Result<Part, Starved>
    ensures { IfOk result (λ p. tree p ≡ of_node (term t)) }
{
    Ok(Part::Term(Boxed::new(alloc, t)?))
}

/// The part that is this formula.
pub fn formula_part(alloc: Global, p: Formula) -> Result<Part, Starved>
    ensures { IfOk result (λ q. tree q ≡ of_node (formula p)) }
{
    Ok(Part::Formula(Boxed::new(alloc, p)?))
}

/// The part that is this sort.
pub fn sort_part(alloc: Global, s: Sort) -> Result<Part, Starved>
    ensures { IfOk result (λ p. tree p ≡ of_kind (sort s)) }
{
    Ok(Part::Sort(Boxed::new(alloc, s)?))
}

impl Atom {
    /// The part that it is.
    pub fn part(self, alloc: Global) -> Result<Part, Starved>
        ensures { IfOk result (λ p. tree p ≡ atom_tree self) }
    {
        match self {
            Atom::Num(n) => term_part(alloc, Term::Num(n)),
            Atom::Sym(k) => term_part(alloc, Term::Sym(k)),
            Atom::Bound(k) => term_part(alloc, Term::Bound(k)),
            Atom::True => formula_part(alloc, Formula::True),
            Atom::False => formula_part(alloc, Formula::False),
            Atom::Numbers => sort_part(alloc, Sort::Num),
            Atom::Truths => sort_part(alloc, Sort::Truth),
        }
    }
}
