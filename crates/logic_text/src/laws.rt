//! Goals and certificates are known by their texts.

ghost use Rattle.std.specs.Prelude.{◌≡◌, ℕ, List};
ghost use Rattle.logic_terms.specs.Sorting.{Problem};
ghost use Rattle.cert_lines.specs.Line.{Line};
ghost use Rattle.logic_text.specs.Answers.{IsGoal, IsBadGoal};
ghost use Rattle.logic_text.specs.Goals.{goal_bytes};
ghost use Rattle.logic_text.specs.Certs.{cert_bytes};

/// Goals with one text state one problem: they differ in no more than roles and numbers of subprograms.
#[tactic(auto, using(crate::proofs::GoalTexts::goals_same))]
pub fn goal_texts_are_injective()
    ensures { (p : Problem) (q : Problem) → goal_bytes p ≡ goal_bytes q → p ≡ q }
{}

/// The text of a goal whose numbers fit has no fault, so where it is read the answer is a goal that states the same.
pub fn goal_texts_have_no_fault()
    ensures { (p : Problem) (at : ℕ) → IsGoal p → IsBadGoal (goal_bytes p) at → ⊥ }
{}

/// Certificates with one text have the same lines.
#[tactic(auto, using(crate::proofs::CertTexts::certs_same))]
pub fn cert_texts_are_injective()
    ensures { (a : List Line) (b : List Line) → cert_bytes a ≡ cert_bytes b → a ≡ b }
{}
