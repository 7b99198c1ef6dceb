//! Questions about forms.

ghost use Rattle.std.specs.Prelude.{◌≡◌, ◌&&◌, IfOk, map, [], ◌∷◌, ◌++◌, if◌then◌else◌};
ghost use Rattle.logic_terms.specs.View.{term};
ghost use Rattle.logic_terms.specs.Value.{same_int};
ghost use Rattle.logic_terms.specs.Same.{same_node};
ghost use Rattle.linear_forms.specs.View.{linear, parts as monomials};
ghost use Rattle.linear_prover.specs.Forms.{coefficient as coefficient_of, same_monomials as are_same_monomials, same_form as is_same_form, stands as stands_in, with_variables, variables_of as all_variables};

use linear_forms::{LinearForm, Part};
use logic_terms::{Starved, Term, same_term};
use std::alloc::Global;

/// The coefficient of a variable, 0 where it does not stand.
pub fn coefficient(v: &Term, parts: &[Part]) -> i128
    ensures { result ≡ coefficient_of (term v.now) (monomials parts.now) }
{
    for part in parts {
        if same_term(v, &part.variable) {
            return part.coefficient;
        }
    }
    0
}

/// Whether monomials are the same.
fn same_part(a: &Part, b: &Part) -> bool
    ensures { result ≡ (same_int a.now.coefficient b.now.coefficient && same_node (term a.now.variable) (term b.now.variable)) }
{
    a.coefficient == b.coefficient && same_term(&a.variable, &b.variable)
}

/// Whether sums of monomials are the same.
fn same_parts(a: &[Part], b: &[Part]) -> bool
    ensures { result ≡ are_same_monomials (monomials a.now) (monomials b.now) }
{
    if a.len() != b.len() {
        return false;
    }
    for (i, part) in a.iter().enumerate() {
        if !same_part(part, &b[i]) {
            return false;
        }
    }
    true
}

/// Whether forms are the same.
pub fn same_form(a: &LinearForm, b: &LinearForm) -> bool
    ensures { result ≡ is_same_form (linear a.now) (linear b.now) }
{
    a.constant == b.constant && same_parts(a.parts.as_slice(), b.parts.as_slice())
}

/// Whether a variable is one of these.
fn stands(v: &Term, variables: &[Term]) -> bool
    ensures { result ≡ stands_in (term v.now) (map term variables.now) }
{
    for u in variables {
        if same_term(v, u) {
            return true;
        }
    }
    false
}

/// Adds a variable, unless it stands already.
fn add_variable(alloc: Global, variables: &mut Vec<Term>, v: &Term) -> Result<(), Starved>
    ensures { IfOk result (λ _. map term variables.new.items ≡ (if stands_in (term v.now) (map term variables.old.items) then map term variables.old.items else map term variables.old.items ++ term v.now ∷ [])) }
{
    if stands(v, variables.as_slice()) {
        return Ok(());
    }
    variables.push(v.copy(alloc)?)?;
    Ok(())
}

/// Adds the variables that do not stand yet.
fn add_variables(alloc: Global, variables: &mut Vec<Term>, parts: &[Part]) -> Result<(), Starved>
    ensures { IfOk result (λ _. map term variables.new.items ≡ with_variables (monomials parts.now) (map term variables.old.items)) }
{
    for part in parts {
        add_variable(alloc, variables, &part.variable)?;
    }
    Ok(())
}

/// The variables of forms, in the order in which they appear.
pub fn variables_of(alloc: Global, forms: &[LinearForm]) -> Result<Vec<Term>, Starved>
    ensures { IfOk result (λ vs. map term vs.items ≡ all_variables (map linear forms.now)) }
{
    let mut variables = Vec::new(alloc);
    for form in forms {
        add_variables(alloc, &mut variables, form.parts.as_slice())?;
    }
    Ok(variables)
}
