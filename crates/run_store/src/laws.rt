//! What the contracts of this crate say of a subprogram at work.

ghost use Rattle.std.specs.Prelude.{◌≡◌, ◌==◌, ℕ, []};
ghost use Rattle.typed_units.specs.Syntax.{Var};
ghost use Rattle.ada_semantics.specs.Outcome.{pick};
ghost use Rattle.ada_semantics.specs.Store.{Slot, put, set, begin, enter_loop};
ghost use Rattle.run_store.specs.Entries.{entry_of};
ghost use Rattle.run_store.specs.RunStores.{store_of};
ghost use Rattle.run_store.specs.RunFrames.{frame_of};
ghost use Rattle.run_store.specs.declared.variables.RunVars.{RunVars};
ghost use Rattle.run_store.specs.declared.run_frames.RunFrame.{RunFrame};

/// What the contracts of this crate say of a subprogram at work, as frames of the definitions.
#[tactic(auto, using(crate::proofs::FrameLaws::frame_begins, crate::proofs::FrameLaws::frame_puts, crate::proofs::FrameLaws::frame_enters))]
pub fn frame_laws()
    ensures begins { (vars : RunVars) → frame_of (record { state = vars; start = vars; entries = [] }) ≡ begin (store_of vars) }
    ensures puts { (f : RunFrame) (g : RunFrame) (x : Var) (s : Slot) → ((y : Var) → store_of g.state y ≡ put (store_of f.state) x s y) → g.start ≡ f.start → g.entries ≡ f.entries → frame_of g ≡ set (frame_of f) x s }
    ensures enters { (f : RunFrame) (g : RunFrame) (n : ℕ) → g.state ≡ f.state → g.start ≡ f.start → ((k : ℕ) → entry_of g.entries f.start k ≡ pick (k == n) f.state (entry_of f.entries f.start k)) → frame_of g ≡ enter_loop (frame_of f) n }
{}
