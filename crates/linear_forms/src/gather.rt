//! Monomials that are added to those of a form, in the order of their texts.

ghost use Rattle.std.specs.Prelude.{◌≡◌, ◌<◌, IfOk, length};
ghost use Rattle.logic_terms.specs.View.{term};
ghost use Rattle.linear_forms.specs.Form.{scaled, multiples, products, product_variable};
ghost use Rattle.linear_forms.specs.View.{parts as monomials, part as monomial_of};
ghost use Rattle.linear_forms.specs.Places.{Raises, Adds, Gathers};

use crate::fault::FormFault;
use crate::form::Part;
use crate::numbers::{product, sum};
use crate::place::{Place, place_of};
use logic_terms::{Starved, Term, precedes};
use sqlite_items::Boxed;
use std::alloc::Global;

/// Adds a coefficient to that at an index, and drops the monomial where the sum is 0.
fn raise(parts: &mut Vec<Part>, at: usize, coefficient: i128) -> Result<(), FormFault>
    requires { at < length parts.old.items }
    ensures { Raises (monomials parts.old.items) at coefficient (monomials parts.new.items) result }
{
    let raised = sum(parts[at].coefficient, coefficient)?;
    if raised == 0 {
        parts.remove(at);
    } else {
        parts[at].coefficient = raised;
    }
    Ok(())
}

/// Adds a coefficient times a variable.
pub fn add(
    alloc: Global,
    parts: &mut Vec<Part>,
    coefficient: i128,
    variable: Term,
) -> Result<(), FormFault>
    ensures { Adds coefficient (term variable) (monomials parts.old.items) (monomials parts.new.items) result }
{
    match place_of(alloc, parts.as_slice(), &variable)? {
        Place::At(at) => raise(parts, at, coefficient),
        Place::Before(at) => {
            if coefficient != 0 {
                let part = Part {
                    coefficient,
                    variable,
                };
                parts.insert(at, part)?;
            }
            Ok(())
        }
    }
}

/// Adds a multiple of each monomial.
pub fn add_multiples(
    alloc: Global,
    parts: &mut Vec<Part>,
    by: i128,
    more: &[Part],
) -> Result<(), FormFault>
    ensures { Gathers (scaled by (monomials more.now)) (monomials parts.old.items) (monomials parts.new.items) result }
{
    for part in more {
        let coefficient = product(by, part.coefficient)?;
        let variable = part.variable.copy(alloc)?;
        add(alloc, parts, coefficient, variable)?;
    }
    Ok(())
}

/// The variable for the product of two variables, the lesser text first.
fn product_of(alloc: Global, u: &Term, v: &Term) -> Result<Term, Starved>
    ensures { IfOk result (λ t. term t ≡ product_variable (term u.now) (term v.now)) }
{
    let first = Boxed::new(alloc, u.copy(alloc)?)?;
    let second = Boxed::new(alloc, v.copy(alloc)?)?;
    if precedes(alloc, v, u)? {
        Ok(Term::Mul(second, first))
    } else {
        Ok(Term::Mul(first, second))
    }
}

/// Adds the products of a monomial and others.
fn add_products_of(
    alloc: Global,
    parts: &mut Vec<Part>,
    factor: &Part,
    more: &[Part],
) -> Result<(), FormFault>
    ensures { Gathers (multiples (monomial_of factor.now) (monomials more.now)) (monomials parts.old.items) (monomials parts.new.items) result }
{
    for part in more {
        let coefficient = product(factor.coefficient, part.coefficient)?;
        let variable = product_of(alloc, &factor.variable, &part.variable)?;
        add(alloc, parts, coefficient, variable)?;
    }
    Ok(())
}

/// Adds the products of monomials and others.
pub fn add_products(
    alloc: Global,
    parts: &mut Vec<Part>,
    factors: &[Part],
    more: &[Part],
) -> Result<(), FormFault>
    ensures { Gathers (products (monomials factors.now) (monomials more.now)) (monomials parts.old.items) (monomials parts.new.items) result }
{
    for factor in factors {
        add_products_of(alloc, parts, factor, more)?;
    }
    Ok(())
}
