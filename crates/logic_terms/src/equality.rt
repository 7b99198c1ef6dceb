//! Whether terms, formulas and sorts are the same, also as contracts see them.

ghost use Rattle.std.specs.Prelude.{◌≡◌, ◌↔◌, IsTrue};
ghost use Rattle.logic_terms.specs.View.{term, formula};
ghost use Rattle.logic_terms.specs.Same.{same_node};
ghost use Rattle.logic_terms.specs.Value.{same_kind};
ghost use Rattle.logic_terms.specs.Sorts.{sort};

use crate::sort::Sort;
use crate::syntax::{Formula, Term};
use crate::{same, same_sorts};

/// Whether two terms are the same.
pub fn same_term(a: &Term, b: &Term) -> bool
    ensures same { IsTrue result ↔ (a.now ≡ b.now) }
    ensures alike { result ≡ same_node (term a.now) (term b.now) }
{
    same::same_term(a, b)
}

/// Whether two formulas are the same.
pub fn same_formula(a: &Formula, b: &Formula) -> bool
    ensures same { IsTrue result ↔ (a.now ≡ b.now) }
    ensures alike { result ≡ same_node (formula a.now) (formula b.now) }
{
    same::same_formula(a, b)
}

/// Whether two sorts are the same.
pub fn same_sort(a: &Sort, b: &Sort) -> bool
    ensures same { IsTrue result ↔ (a.now ≡ b.now) }
    ensures alike { result ≡ same_kind (sort a.now) (sort b.now) }
{
    same_sorts::same_sort(a, b)
}
