//! Where a variable stands among others.

ghost use Rattle.std.specs.Prelude.{IfOk};
ghost use Rattle.logic_terms.specs.View.{term};
ghost use Rattle.linear_forms.specs.View.{parts as monomials};
ghost use Rattle.linear_forms.specs.Places.{IsPlace};

use crate::form::Part;
use logic_terms::{Starved, Term, precedes, same_term};
use std::alloc::Global;

/// Where a variable stands, or is to stand.
#[derive(Clone, Copy, Debug, PartialEq, Eq)]
pub enum Place {
    /// It stands at this index.
    At(usize),
    /// It is to stand before the variable at this index.
    Before(usize),
}

/// The place of a variable.
pub fn place_of(alloc: Global, parts: &[Part], v: &Term) -> Result<Place, Starved>
    ensures { IfOk result (λ p. IsPlace (term v.now) (monomials parts.now) p) }
{
    for (i, part) in parts.iter().enumerate() {
        if same_term(v, &part.variable) {
            return Ok(Place::At(i));
        }
        if precedes(alloc, v, &part.variable)? {
            return Ok(Place::Before(i));
        }
    }
    Ok(Place::Before(parts.len()))
}
