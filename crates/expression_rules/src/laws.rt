//! What accepted operators obey, and where operators are accepted or refused.

ghost use Rattle.ada_syntax.specs.declared.expressions.UnaryOperator.{UnaryOperator};
ghost use Rattle.ada_values.specs.declared.place.Place.{Place};
ghost use Rattle.type_base.specs.declared.seen.Family.{Family};
ghost use Rattle.type_base.specs.declared.seen.Seen.{Seen};
ghost use Rattle.type_base.specs.declared.seen.Want.{Want};
ghost use Rattle.type_base.specs.declared.world.World.{World};
ghost use Rattle.type_base.specs.Operators.{joined, unary_of};
ghost use Rattle.expression_rules.specs.Known.{HasStandard, IsKnown};
ghost use Rattle.expression_rules.specs.Rules.{Gives, GivesOne, Is, Kind};

/// An operator that is accepted with a type has operands as its rule demands, and gives this type by the rule.
pub fn accepted_have_types()
    ensures binary { (w : World) (v : Want) (p o pa pb : Place) (f : Family) (x y : Seen) (k : Kind) → Is (joined w v p o pa pb f x y) k → Gives w v x y f k }
    ensures unary { (w : World) (p q : Place) (o : UnaryOperator) (x : Seen) (k : Kind) → Is (unary_of w p q o x) k → GivesOne w x o k }
{}

/// Where Standard is declared, of operands that are each accepted or refused an operator is accepted or refused.
pub fn known_where_declared()
    ensures binary { (w : World) → HasStandard w → (v : Want) (p o pa pb : Place) (f : Family) (x y : Seen) → IsKnown w x → IsKnown w y → IsKnown w (joined w v p o pa pb f x y) }
    ensures unary { (w : World) → HasStandard w → (p q : Place) (o : UnaryOperator) (x : Seen) → IsKnown w x → IsKnown w (unary_of w p q o x) }
{}
