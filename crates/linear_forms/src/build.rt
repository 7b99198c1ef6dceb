//! The form of a term, sums of forms, and tightening.

ghost use Rattle.std.specs.Prelude.{◌≡◌, IfOk, pos, [], ◌∷◌};
ghost use Rattle.logic_terms.specs.View.{term};
ghost use Rattle.linear_forms.specs.Form.{form, monomial, form_of_node, combined, multiplied, tightened};
ghost use Rattle.linear_forms.specs.Fits.{node_fits, combining_fits, multiplying_fits};
ghost use Rattle.linear_forms.specs.View.{linear, Makes};

use crate::divisor::{divisor, floor_quotient};
use crate::fault::FormFault;
use crate::form::{LinearForm, Part};
use crate::gather::{add_multiples, add_products};
use crate::numbers::{product, sum};
use logic_terms::{Starved, Term};
use sqlite_items::{Boxed, Items};
use std::alloc::Global;

/// `m` times one form plus `n` times another.
///
/// `Wide` exactly where a number on the way leaves 128 bits: `m` or `n` times a constant or a coefficient, or a sum of these.
pub fn add_scaled(
    alloc: Global,
    a: &LinearForm,
    m: i128,
    b: &LinearForm,
    n: i128,
) -> Result<LinearForm, FormFault>
    ensures { Makes (combined m (linear a.now) n (linear b.now)) (combining_fits m (linear a.now) n (linear b.now)) result }
{
    let first = product(m, a.constant)?;
    let second = product(n, b.constant)?;
    let constant = sum(first, second)?;
    let mut parts = Vec::new(alloc);
    add_multiples(alloc, &mut parts, m, a.parts.as_slice())?;
    add_multiples(alloc, &mut parts, n, b.parts.as_slice())?;
    Ok(LinearForm {
        constant,
        parts: Items::from_vec(parts),
    })
}

/// Two forms multiplied out.
fn multiply(alloc: Global, a: &LinearForm, b: &LinearForm) -> Result<LinearForm, FormFault>
    ensures { Makes (multiplied (linear a.now) (linear b.now)) (multiplying_fits (linear a.now) (linear b.now)) result }
{
    let constant = product(a.constant, b.constant)?;
    let mut parts = Vec::new(alloc);
    add_multiples(alloc, &mut parts, a.constant, b.parts.as_slice())?;
    add_multiples(alloc, &mut parts, b.constant, a.parts.as_slice())?;
    add_products(alloc, &mut parts, a.parts.as_slice(), b.parts.as_slice())?;
    Ok(LinearForm {
        constant,
        parts: Items::from_vec(parts),
    })
}

/// A term as a variable.
fn variable_form(alloc: Global, t: &Term) -> Result<LinearForm, Starved>
    ensures { IfOk result (λ f. linear f ≡ form (pos 0) (monomial (pos 1) (term t.now) ∷ [])) }
{
    let mut parts = Items::new(alloc);
    parts.push(Part {
        coefficient: 1,
        variable: t.copy(alloc)?,
    })?;
    Ok(LinearForm { constant: 0, parts })
}

// What recurses holds boxes alone, and leaves what takes more of the stack to functions that are never inlined.

/// A number as a form, behind a box.
#[inline(never)]
fn boxed_number(alloc: Global, n: i128) -> Result<Boxed<LinearForm>, Starved>
    ensures { IfOk result (λ f. linear f ≡ form n []) }
{
    let number = LinearForm {
        constant: n,
        parts: Items::new(alloc),
    };
    Boxed::new(alloc, number)
}

/// A term as a variable, behind a box.
#[inline(never)]
fn boxed_variable(alloc: Global, t: &Term) -> Result<Boxed<LinearForm>, Starved>
    ensures { IfOk result (λ f. linear f ≡ form (pos 0) (monomial (pos 1) (term t.now) ∷ [])) }
{
    Boxed::new(alloc, variable_form(alloc, t)?)
}

/// A form plus a multiple of another, behind a box.
#[inline(never)]
fn boxed_sum(
    alloc: Global,
    a: Boxed<LinearForm>,
    b: Boxed<LinearForm>,
    n: i128,
) -> Result<Boxed<LinearForm>, FormFault>
    ensures { Makes (combined (pos 1) (linear a) n (linear b)) (combining_fits (pos 1) (linear a) n (linear b)) result }
{
    let sum = add_scaled(alloc, a.get(), 1, b.get(), n)?;
    Ok(Boxed::new(alloc, sum)?)
}

/// Two forms multiplied out, behind a box.
#[inline(never)]
fn boxed_product(
    alloc: Global,
    a: Boxed<LinearForm>,
    b: Boxed<LinearForm>,
) -> Result<Boxed<LinearForm>, FormFault>
    ensures { Makes (multiplied (linear a) (linear b)) (multiplying_fits (linear a) (linear b)) result }
{
    let product = multiply(alloc, a.get(), b.get())?;
    Ok(Boxed::new(alloc, product)?)
}

/// The form of a term, behind a box.
#[inline(never)]
fn boxed_form(alloc: Global, t: &Term) -> Result<Boxed<LinearForm>, FormFault>
    ensures { Makes (form_of_node (term t.now)) (node_fits (term t.now)) result }
{
    match t {
        Term::Num(n) => Ok(boxed_number(alloc, *n)?),
        Term::Add(a, b) => {
            let first = boxed_form(alloc, a.get())?;
            let second = boxed_form(alloc, b.get())?;
            boxed_sum(alloc, first, second, 1)
        }
        Term::Sub(a, b) => {
            let first = boxed_form(alloc, a.get())?;
            let second = boxed_form(alloc, b.get())?;
            boxed_sum(alloc, first, second, -1)
        }
        Term::Mul(a, b) => {
            let first = boxed_form(alloc, a.get())?;
            let second = boxed_form(alloc, b.get())?;
            boxed_product(alloc, first, second)
        }
        _ => Ok(boxed_variable(alloc, t)?),
    }
}

/// The form of a term of numbers, whose value is the term's.
///
/// Sums, differences and products are taken apart, products multiplied out; any other term is a variable. `Wide` exactly
/// where a number on the way leaves 128 bits: a constant or a coefficient of a part's form, a product of two of these, or a
/// sum as monomials are added.
pub fn form_of(alloc: Global, t: &Term) -> Result<LinearForm, FormFault>
    ensures { Makes (form_of_node (term t.now)) (node_fits (term t.now)) result }
{
    Ok(boxed_form(alloc, t)?.into_inner())
}

/// The form with its coefficients divided by their greatest common divisor, and its constant divided by it and rounded
/// down, so that it is at least 0 at the same whole numbers. A constant form stays.
pub fn tighten(alloc: Global, a: &LinearForm) -> Result<LinearForm, Starved>
    ensures { IfOk result (λ f. linear f ≡ tightened (linear a.now)) }
{
    let common = divisor(a.parts.as_slice()).max(1);
    let mut parts = Items::new(alloc);
    for part in a.parts.as_slice() {
        parts.push(Part {
            coefficient: floor_quotient(part.coefficient, common),
            variable: part.variable.copy(alloc)?,
        })?;
    }
    Ok(LinearForm {
        constant: floor_quotient(a.constant, common),
        parts,
    })
}
