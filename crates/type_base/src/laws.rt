//! Which refusal an operator gives.

ghost use Rattle.ada_syntax.specs.declared.expressions.UnaryOperator.{UnaryOperator};
ghost use Rattle.ada_values.specs.declared.place.Place.{Place};
ghost use Rattle.front_codes.specs.declared.codes.Refusal.{Refusal};
ghost use Rattle.type_base.specs.declared.seen.Family.{Family};
ghost use Rattle.type_base.specs.declared.seen.Seen.{Seen};
ghost use Rattle.type_base.specs.declared.seen.Want.{Want};
ghost use Rattle.type_base.specs.declared.world.World.{World};
ghost use Rattle.std.specs.Prelude.{List};
ghost use Rattle.type_base.specs.Faults.{First, binary_faults, fault_of, unary_faults};
ghost use Rattle.type_base.specs.Operators.{joined, unary_of};

/// An operator is refused where a rule is broken, and then by the first one of these, where that is so of its operands.
pub fn laws_of_operators()
    ensures binary { (w : World) (v : Want) (p o pa pb : Place) (f : Family) (x y : Seen) (fs gs : List Refusal) → First (fault_of x) fs → First (fault_of y) gs → First (fault_of (joined w v p o pa pb f x y)) (binary_faults w v p pa pb f fs gs x y) }
    ensures unary { (w : World) (p q : Place) (o : UnaryOperator) (x : Seen) (fs : List Refusal) → First (fault_of x) fs → First (fault_of (unary_of w p q o x)) (unary_faults w p q o fs x) }
{}
