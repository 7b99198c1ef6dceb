//! What is so of every subtype indication and of every definition of a type.

ghost use Rattle.std.specs.List.{All};
ghost use Rattle.ada_values.specs.declared.place.Place.{Place};
ghost use Rattle.front_codes.specs.declared.codes.Code.{Code};
ghost use Rattle.syntax_view.specs.Trees as tree;
ghost use Rattle.type_base.specs.Moduli.{HasModulus};
ghost use Rattle.type_base.specs.Scope.{Scope};
ghost use Rattle.statement_typing.specs.Objects.{object_subtype};
ghost use Rattle.statement_typing.specs.Subtypes.{indicated};
ghost use Rattle.statement_typing.specs.Types.{definition};
ghost use Rattle.sound_subtypes.specs.Sound.{IfIs, IsSound, IsSoundDefinition};

/// Where each modulus of the subtypes so far is from 2 to 2^64, so is each that is found of a subtype indication, of an object's
/// subtype and of a definition.
pub fn moduli_are_sound()
    ensures indications { (c : Scope) → (r : Code) → (s : tree.SubInd) → All HasModulus c.world.subtypes → IfIs IsSound (indicated c r s) }
    ensures objects { (c : Scope) → (p : Place) → (s : tree.SubInd) → All HasModulus c.world.subtypes → IfIs IsSound (object_subtype c p s) }
    ensures definitions { (c : Scope) → (t : tree.TypeForm) → All HasModulus c.world.subtypes → IfIs IsSoundDefinition (definition c t) }
{}
