//! The groups of loops, values on entry to a loop, and ways out before a group.

ghost use Rattle.std.specs.Prelude.{◌≡◌, [], ◌∷◌, negsuc};
ghost use Rattle.ada_values.specs.Value.{number};
ghost use Rattle.typed_units.specs.declared.checks.CheckKind.TheVariants as kind;
ghost use Rattle.ada_semantics.specs.Plain.{plain, fails, reads_unset};
ghost use Rattle.ada_semantics.specs.Cases.{key, int, ends_with, gives_back};
ghost use Rattle.ada_semantics.specs.Cases.Turns.{twice, outer, group, mixed, soon, no_entry};

/// `'Loop_Entry` is of its own loop, and renewed each time that this is entered; what didn't exist then has none.
pub fn entries_of_loops()
    ensures inner { plain twice 0 [] [] 200 ≡ ends_with (int 4 ∷ []) }
    ensures outer { plain outer 0 [] [] 200 ≡ ends_with (int 4 ∷ []) }
    ensures own_parameter { plain no_entry 0 [] [] 200 ≡ reads_unset }
{}

/// The pragmas of a group are checked in order, and a variant is compared also where an invariant follows it.
pub fn groups_in_order()
    ensures passes { plain group 0 (int 2 ∷ int 5 ∷ int 0 ∷ []) [] 200 ≡ ends_with (int 2 ∷ int 5 ∷ int 2 ∷ []) }
    ensures first_of_both { plain group 0 (int 2 ∷ number (negsuc 4) ∷ number (negsuc 0) ∷ []) [] 200 ≡ fails (key 4 30 kind.InvFirst) }
    ensures second { plain group 0 (int 2 ∷ number (negsuc 4) ∷ int 0 ∷ []) [] 200 ≡ fails (key 5 30 kind.InvFirst) }
    ensures second_later { plain group 0 (int 5 ∷ int 1 ∷ int 0 ∷ []) [] 200 ≡ fails (key 5 30 kind.InvKept) }
    ensures variant_first { plain mixed 0 (int 3 ∷ int 0 ∷ []) [] 200 ≡ ends_with (int 3 ∷ int 3 ∷ []) }
    ensures invariant_after { plain mixed 0 (int 3 ∷ number (negsuc 0) ∷ []) [] 200 ≡ fails (key 5 30 kind.InvFirst) }
{}

/// A `return` before the group leaves it unchecked.
pub fn returns_before_groups()
    ensures returns { plain soon 0 (int 2 ∷ []) [] 200 ≡ gives_back (int 2 ∷ []) (int 2) }
    ensures not_kept { plain soon 0 (int 9 ∷ []) [] 200 ≡ fails (key 7 30 kind.InvKept) }
{}
