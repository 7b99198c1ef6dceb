//! What the prover says of the goals of a form, one for each assertion.

ghost use Rattle.std.specs.Prelude.{◌≡◌, ◌<◌, ◌^◌, ◌||◌, [], ◌∷◌, ◌++◌, map, length, IfOk, OnOk};
ghost use Rattle.ada_semantics.specs.Outcome.{site};
ghost use Rattle.logic_terms.specs.View.{formula};
ghost use Rattle.typed_units.specs.declared.checks.CheckKind.TheVariants as kind;
ghost use Rattle.first_form.specs.Form.{IsForm};
ghost use Rattle.form_prover.specs.Given.{is_false, some_false};
ghost use Rattle.form_prover.specs.Formulas.{condition_node, input_nodes, verdict_on, verdicts_on};

use crate::formulas::{condition, inputs};
use crate::given::{has_equal, truth_of};
use ada_values::{NameList, Place, Starved};
use first_form::{Assertion, FirstForm};
use logic_terms::FormulaList;
use sqlite_items::Items;
use std::alloc::Global;
use typed_units::{CheckKind, SiteKey};

/// A goal's site, and whether the goal is proved.
#[derive(Clone, Copy, Debug)]
pub struct Verdict {
    pub site: SiteKey,
    pub proved: bool,
}

/// Verdicts in the order of their goals.
pub type VerdictList = Items<Verdict>;

/// The way along the assertions: what it has assumed and checked, whether one of these computes to false, and its
/// verdicts.
#[derive(Drop)]
struct Way {
    hypotheses: FormulaList,
    refuted: bool,
    verdicts: VerdictList,
}

/// The site of an assertion whose condition stands at a place.
fn site_at(place: Place) -> SiteKey
    ensures { result ≡ site place kind.Assert }
{
    SiteKey {
        place,
        kind: CheckKind::Assert,
    }
}

/// Whether a hypothesis computes to false, where one before does or this one's truth says so.
fn is_refuted(before: bool, truth: Option<bool>) -> bool
    ensures { result ≡ (before || is_false truth) }
{
    match truth {
        Some(false) => true,
        _ => before,
    }
}

impl Way {
    /// Passes an assertion.
    fn pass(
        &mut self,
        alloc: Global,
        params: &NameList,
        assertion: &Assertion,
    ) -> Result<(), Starved>
        requires few { length params.now < 2 ^ 32 }
        requires tells { self.old.refuted ≡ some_false (map formula self.old.hypotheses) }
        ensures verdict { OnOk result (self.new.verdicts ≡ self.old.verdicts ++ verdict_on params.now (map formula self.old.hypotheses) assertion.now ∷ []) }
        ensures learns { OnOk result (map formula self.new.hypotheses ≡ map formula self.old.hypotheses ++ condition_node params.now assertion.now ∷ []) }
        ensures told { OnOk result (self.new.refuted ≡ some_false (map formula self.new.hypotheses)) }
    {
        let conclusion = condition(alloc, params, assertion)?;
        let truth = truth_of(assertion);
        let proved = has_equal(&self.hypotheses, &conclusion)
            || truth == Some(true)
            || self.refuted;
        self.verdicts.push(Verdict {
            site: site_at(assertion.left.place),
            proved,
        })?;
        let refuted = is_refuted(self.refuted, truth);
        self.hypotheses.push(conclusion)?;
        self.refuted = refuted;
        Ok(())
    }
}

/// The verdicts on the assertions of a form, in order.
pub fn verdicts_of(alloc: Global, form: &FirstForm) -> Result<VerdictList, Starved>
    requires { IsForm form.now }
    ensures { IfOk result (λ vs. vs ≡ verdicts_on form.now.params (input_nodes (length form.now.params) 0) form.now.assertions) }
{
    let mut way = Way {
        hypotheses: inputs(alloc, form.params.len())?,
        refuted: false,
        verdicts: Items::new(alloc),
    };
    for assertion in form.assertions.as_slice() {
        way.pass(alloc, &form.params, assertion)?;
    }
    Ok(way.verdicts)
}
