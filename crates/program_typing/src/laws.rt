//! Worked programs, and what is known of a well-typed expression by its node.

ghost use Rattle.std.specs.Prelude.{◌≡◌, ℕ};
ghost use Rattle.typed_units.specs.declared.expressions.Expr.{Expr, out-Expr};
ghost use Rattle.program_typing.specs.Cases.{increment, no_such_object, truth_assigned, unchecked};
ghost use Rattle.program_typing.specs.Expressions.{Frame, Gives, HasSubtype};
ghost use Rattle.program_typing.specs.WellTyped.{WellTyped};

/// A program is well typed that adds 1 to a parameter of Natural with the range check; without the check, with a truth value, or with a
/// target that isn't there it isn't.
pub fn worked_programs()
    ensures increment { WellTyped increment }
    ensures unchecked { WellTyped unchecked → ⊥ }
    ensures truth_assigned { WellTyped truth_assigned → ⊥ }
    ensures no_such_object { WellTyped no_such_object → ⊥ }
{}

/// A well-typed expression has its own subtype, and its node gives a value of this subtype.
pub fn well_typed_nodes()
    ensures subtype { (f : Frame) (x : Expr) (k : ℕ) → HasSubtype f x k → (out-Expr x).subtype ≡ k }
    ensures node { (f : Frame) (x : Expr) (k : ℕ) → HasSubtype f x k → Gives f (out-Expr x).node k }
{}
