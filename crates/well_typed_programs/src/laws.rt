//! What the rules of types give for well-typed parts is well typed.

ghost use Rattle.std.specs.Prelude.{◌≡◌, ℕ, Bool, false, true, List, Option, Some};
ghost use Rattle.ada_syntax.specs.declared.expressions.BinaryOperator.{BinaryOperator};
ghost use Rattle.ada_syntax.specs.declared.expressions.UnaryOperator.{UnaryOperator};
ghost use Rattle.ada_values.specs.declared.place.Place.{Place};
ghost use Rattle.front_codes.specs.declared.codes.Code.{Code};
ghost use Rattle.program_typing.specs.Cases.{increment};
ghost use Rattle.program_typing.specs.Expressions.{FitsFor, Frame, HasTarget, Indexes, IsVariable, Passes, Steps};
ghost use Rattle.type_base.specs.Demands.{agree, operand};
ghost use Rattle.ada_values.specs.declared.scalars.Scalar.{Scalar};
ghost use Rattle.type_base.specs.Lookups.{form_at, type_at};
ghost use Rattle.type_base.specs.declared.seen.Seen.TheVariants.{Typed};
ghost use Rattle.type_base.specs.declared.world.Discrete.{Discrete};
ghost use Rattle.type_base.specs.declared.world.Form.TheVariants as form;
ghost use Rattle.typing_rules.specs.Attributes.{Bounded, bound_at, is_enumeration, length_at, literal, next_value, not_modular, position};
ghost use Rattle.type_base.specs.declared.seen.Demand.TheVariants as demand;
ghost use Rattle.typing_rules.specs.Parts.{Range};
ghost use Rattle.typing_rules.specs.Ranges.{bounds_reach, member_by, subtype_reach};
ghost use Rattle.typing_rules.specs.declared.prefix.Reach.{Reach};
ghost use Rattle.type_base.specs.Scope.{Scope};
ghost use Rattle.type_base.specs.Standard.{standard};
ghost use Rattle.typing_rules.specs.Names.{conversion, index_placed, of_type, value_component};
ghost use Rattle.type_base.specs.Operators.{family_of, joined, unary_of};
ghost use Rattle.type_base.specs.declared.seen.Seen.{Seen};
ghost use Rattle.type_base.specs.declared.seen.Want.{Want};
ghost use Rattle.type_base.specs.declared.world.World.{World};
ghost use Rattle.typed_units.specs.declared.expressions.Expr.{Expr};
ghost use Rattle.typed_units.specs.declared.expressions.Fitted.{Fitted};
ghost use Rattle.typed_units.specs.declared.expressions.Indexed.{Indexed};
ghost use Rattle.typed_units.specs.declared.expressions.Step.{Step};
ghost use Rattle.typing_rules.specs.Lookups.{type_of};
ghost use Rattle.typing_rules.specs.Values.{part_value};
ghost use Rattle.typing_rules.specs.declared.prefix.Part.{Part};
ghost use Rattle.typed_units.specs.declared.operators.Bounds.{Bounds};
ghost use Rattle.typing_rules.specs.Calls.{passed};
ghost use Rattle.typed_units.specs.declared.programs.Mode.TheVariants as mode;
ghost use Rattle.typed_units.specs.declared.programs.Param.{Param};
ghost use Rattle.typing_rules.specs.Fits.{fit, takes};
ghost use Rattle.typing_rules.specs.declared.prefix.Found.TheVariants.{Is};
ghost use Rattle.well_typed_programs.specs.Fits.{GivesType, IsTyped, IsWell, PartFits, PathFits, PrefixFits, ReachesWell, WorldFits};

/// What an operator gives is well typed in a program, where its operands are and the world in which it is read stands in the program:
/// of one operand, and of two in a context. -- L1 to L6, L29
pub fn operators_are_well_typed()
    ensures one { (f : Frame) (w : World) (p : Place) (q : Place) (o : UnaryOperator) (x : Seen) → WorldFits f.program w → IsWell f w x → IsWell f w (unary_of w p q o x) }
    ensures two { (f : Frame) (w : World) (v : Want) (p : Place) (o : Place) (a : Place) (b : Place) (g : BinaryOperator) (x : Seen) (y : Seen)
        → WorldFits f.program w → GivesType w v → IsWell f w x → IsWell f w y → IsWell f w (joined w v p o a b (family_of g) x y) }
{}

/// A value that a rule of types takes for a subtype is well typed for it, with its range check: of its type, and an array of its
/// bounds, or for no assignment of any where the subtype is unconstrained. -- L8, L11, L13, L18
pub fn values_are_well_typed()
    ensures { (f : Frame) (w : World) (r : Code) (whole : Bool) (k : ℕ) (q : Place) (s : Seen) (v : Fitted Expr)
        → WorldFits f.program w → IsWell f w s → fit w r whole k q s ≡ Is v → FitsFor f whole k v }
{}

/// What a conversion to a subtype gives is well typed, where its operand is. -- L18, L29
pub fn conversions_are_well_typed()
    ensures { (f : Frame) (c : Scope) (p : Place) (k : ℕ) (q : Place) (s : Seen) → WorldFits f.program c.world → IsWell f c.world s → IsWell f c.world (conversion c p k q s) }
{}

/// A range of two well-typed bounds, and that of a subtype, is well typed: its bounds are of one integer or enumeration type, and the
/// values between them lie in its subtype. What a membership test gives is well typed, where its operand and its range are. -- L7, L22, L23
pub fn ranges_are_well_typed()
    ensures bounds { (f : Frame) (w : World) (r : Code) (p : Place) (q : Place) (s : Seen) (u : Seen) → WorldFits f.program w → IsWell f w s → IsWell f w u
        → ReachesWell f w (bounds_reach (agree w r p q (operand w demand.Ordered r p s) (operand w demand.Ordered r q u))) }
    ensures subtype { (f : Frame) (w : World) (r : Code) (p : Place) (k : ℕ) → WorldFits f.program w → ReachesWell f w (subtype_reach r p k (form_at w k)) }
    ensures member { (f : Frame) (c : Scope) (p : Place) (is : Bool) (q : Place) (g : Range) (s : Seen) (u : Reach)
        → WorldFits f.program c.world → IsWell f c.world s → ReachesWell f c.world u → IsWell f c.world (member_by c p is q g s u) }
{}

/// What `'Succ` and `'Pred` of a subtype that isn't modular, and `'Pos` and `'Val` of an enumeration give is well typed, where the argument
/// is: of the subtype's type, and for `'Val` of any integer type. -- L11, L19, L29
pub fn attributes_are_well_typed()
    ensures next { (f : Frame) (c : Scope) (p : Place) (up : Bool) (q : Place) (k : ℕ) (j : ℕ) (i : ℕ) (d : Discrete) (s : Scalar) (x : Expr)
        → WorldFits f.program c.world → form_at c.world k ≡ Some (form.Number d s) → not_modular d ≡ true → type_at c.world k ≡ Some j → IsTyped f c.world j x → IsWell f c.world (next_value c p up q i (Typed j x)) }
    ensures position { (f : Frame) (c : Scope) (p : Place) (k : ℕ) (j : ℕ) (d : Discrete) (s : Scalar) (x : Expr)
        → WorldFits f.program c.world → form_at c.world k ≡ Some (form.Number d s) → is_enumeration d ≡ true → type_at c.world k ≡ Some j → IsTyped f c.world j x → IsWell f c.world (position c p (Typed j x)) }
    ensures literal { (f : Frame) (c : Scope) (p : Place) (k : ℕ) (j : ℕ) (q : Place) (d : Discrete) (s : Scalar) (u : Seen)
        → WorldFits f.program c.world → form_at c.world k ≡ Some (form.Number d s) → is_enumeration d ≡ true → type_at c.world k ≡ Some j → IsWell f c.world u → IsWell f c.world (literal c p j q u) }
{}

/// A component of a well-typed record is well typed, and an index that a rule takes for an array, with its index check. -- L14, L15
pub fn parts_are_well_typed()
    ensures component { (f : Frame) (c : Scope) (p : Place) (m : ℕ) (s : Seen) → WorldFits f.program c.world → IsWell f c.world s → IsWell f c.world (value_component c p m s) }
    ensures index { (f : Frame) (c : Scope) (r : Code) (i : ℕ) (q : Place) (b : Option Bounds) (s : Seen) (y : Indexed Expr)
        → WorldFits f.program c.world → IsWell f c.world s → index_placed c b (of_type c r i q s) ≡ Is y → Indexes f i b y }
{}

/// The value of an object of the frame, or of a part of it, is well typed, and its steps lead from the one's subtype to the other's. -- L14, L15
pub fn objects_are_well_typed()
    ensures value { (f : Frame) (w : World) (g : Part) → WorldFits f.program w → PartFits f w g → IsTyped f w (type_of w g.subtype) (part_value w g) }
    ensures steps { (f : Frame) (w : World) (k : ℕ) (j : ℕ) (ss : List (Step Expr)) → WorldFits f.program w → PathFits f w k ss j → Steps f k ss j }
{}

/// What is passed for an `out` or `in out` parameter of a subtype is well typed, where it is a variable of the parameter's type, and of its
/// bounds where these are fixed; with the checks on the way in and back. -- L8, L11
pub fn actuals_are_well_typed()
    ensures target { (f : Frame) (w : World) (g : Part) → WorldFits f.program w → PartFits f w g → IsVariable f g.target.object → HasTarget f g.target g.subtype }
    ensures out { (f : Frame) (c : Scope) (x : Param) (g : Part) (t : ℕ) → WorldFits f.program c.world → PartFits f c.world g → IsVariable f g.target.object → x.mode ≡ mode.Out
        → type_at c.world x.subtype ≡ Some t → type_at c.world g.subtype ≡ Some t → takes c.world false x.subtype g.subtype ≡ true → Passes f x (passed c mode.Out x.subtype g) }
    ensures in_out { (f : Frame) (c : Scope) (x : Param) (g : Part) (t : ℕ) → WorldFits f.program c.world → PartFits f c.world g → IsVariable f g.target.object → x.mode ≡ mode.InOut
        → type_at c.world x.subtype ≡ Some t → type_at c.world g.subtype ≡ Some t → takes c.world false x.subtype g.subtype ≡ true → Passes f x (passed c mode.InOut x.subtype g) }
{}

/// A bound of an array is well typed, of its index's type, and its length, of the integer type that the context gives. -- L19
pub fn array_attributes_are_well_typed()
    ensures bound { (f : Frame) (c : Scope) (p : Place) (first : Bool) (g : Bounded) → WorldFits f.program c.world → PrefixFits f c.world g → IsWell f c.world (bound_at c p first g) }
    ensures length { (f : Frame) (c : Scope) (v : Want) (p : Place) (q : Place) (g : Bounded) → WorldFits f.program c.world → GivesType c.world v → PrefixFits f c.world g → IsWell f c.world (length_at c v p q g) }
{}

/// The premise can be met: Standard's world stands in the worked program, which is well typed.
pub fn standard_fits()
    ensures { WorldFits increment standard }
{}
