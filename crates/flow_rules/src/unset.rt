//! What is read before it is set, and what isn't set at an end.

ghost use Rattle.std.specs.Prelude.{[], ◌∷◌};
ghost use Rattle.ada_values.specs.declared.place.Place.{Place};
ghost use Rattle.flow_rules.specs.Sets.{Reads, Writes};
ghost use Rattle.flow_rules.specs.Unset.{BreaksF1, BreaksF2};
ghost use Rattle.ada_semantics.specs.Cases.{place};
ghost use Rattle.flow_rules.specs.Cases.{text};
ghost use Rattle.flow_rules.specs.Cases.Globals.{chain, m, n};
ghost use Rattle.flow_rules.specs.Cases.Unset.{half, maybe, no_effects, old, one_item, set_first, un};

/// F1: a local is read on a path that doesn't set it, a part of an array is written where the array is unset, and `'Old` reads
/// the state on entry.
pub fn reads_before_setting()
    ensures local { BreaksF1 un no_effects 0 (place 4 9) }
    ensures one_branch { BreaksF1 maybe no_effects 0 (place 7 9) }
    ensures item { BreaksF1 one_item no_effects 0 (place 3 4) }
    ensures entry { BreaksF1 old no_effects 0 (place 1 46) }
{}

/// F2: a component of an `out` parameter isn't set at the end.
pub fn ends_unset()
    ensures component { BreaksF2 half no_effects 0 }
{}

/// A local with an initial value is set wherever it is read, and the parameter at the end.
pub fn sets_first()
    ensures reads { (q : Place) → BreaksF1 set_first no_effects 0 q → ⊥ }
    ensures ends { BreaksF2 set_first no_effects 0 → ⊥ }
{}

/// Effects go through calls, also those in contracts.
pub fn effects_of_calls()
    ensures reads { Reads (text (0 ∷ 0 ∷ []) chain) 2 m }
    ensures writes { Writes (text (0 ∷ 0 ∷ []) chain) 2 n }
{}
