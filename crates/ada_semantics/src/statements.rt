//! Statements other than loops and calls.

ghost use Rattle.std.specs.Prelude.{◌≡◌, [], ◌∷◌, negsuc};
ghost use Rattle.ada_values.specs.Value.{number};
ghost use Rattle.typed_units.specs.declared.checks.CheckKind.TheVariants as kind;
ghost use Rattle.ada_semantics.specs.Plain.{plain, fails, short, reads_unset};
ghost use Rattle.ada_semantics.specs.Cases.{key, int, ends_with};
ghost use Rattle.ada_semantics.specs.Cases.Statements.{same, kind_of, sign, trust, start, unsure};

/// An assertion that fails once fails at its first place.
pub fn assertions()
    ensures fails_short { plain same 0 (number (negsuc 0) ∷ int 0 ∷ []) [] 3 ≡ short }
    ensures fails_first { plain same 0 (number (negsuc 0) ∷ int 0 ∷ []) [] 4 ≡ fails (key 3 19 kind.Assert) }
    ensures holds_short { plain same 0 (int 5 ∷ int 5 ∷ []) [] 7 ≡ short }
    ensures holds { plain same 0 (int 5 ∷ int 5 ∷ []) [] 8 ≡ ends_with (int 5 ∷ int 5 ∷ []) }
{}

/// A `case` runs the alternative with the selector's value, and its choices take no unit.
pub fn cases()
    ensures value_short { plain kind_of 0 (int 1 ∷ []) [] 3 ≡ short }
    ensures value { plain kind_of 0 (int 1 ∷ []) [] 4 ≡ ends_with (int 1 ∷ int 1 ∷ []) }
    ensures range_start { plain kind_of 0 (int 3 ∷ []) [] 4 ≡ ends_with (int 3 ∷ int 1 ∷ []) }
    ensures range_end { plain kind_of 0 (int 5 ∷ []) [] 4 ≡ ends_with (int 5 ∷ int 1 ∷ []) }
    ensures second { plain kind_of 0 (int 2 ∷ []) [] 4 ≡ ends_with (int 2 ∷ int 2 ∷ []) }
    ensures others { plain kind_of 0 (int 6 ∷ []) [] 4 ≡ ends_with (int 6 ∷ int 0 ∷ []) }
    ensures others_below { plain kind_of 0 (number (negsuc 0) ∷ []) [] 4 ≡ ends_with (number (negsuc 0) ∷ int 0 ∷ []) }
{}

/// An `if` runs the statements of its first condition that is True.
pub fn branches()
    ensures first { plain sign 0 (int 5 ∷ []) [] 6 ≡ ends_with (int 5 ∷ int 1 ∷ []) }
    ensures second_short { plain sign 0 (int 0 ∷ []) [] 8 ≡ short }
    ensures second { plain sign 0 (int 0 ∷ []) [] 9 ≡ ends_with (int 0 ∷ int 0 ∷ []) }
    ensures neither { plain sign 0 (number (negsuc 1) ∷ []) [] 9 ≡ ends_with (number (negsuc 1) ∷ number (negsuc 0) ∷ []) }
{}

/// An assumption is checked when it runs, and nothing after `return` is.
pub fn pragmas_and_return()
    ensures assumption_fails_short { plain trust 0 (int 0 ∷ []) [] 3 ≡ short }
    ensures assumption_fails { plain trust 0 (int 0 ∷ []) [] 4 ≡ fails (key 3 19 kind.Assume) }
    ensures assertion_fails { plain trust 0 (int 1 ∷ []) [] 8 ≡ fails (key 4 19 kind.Assert) }
    ensures returns_short { plain trust 0 (int 2 ∷ []) [] 8 ≡ short }
    ensures returns { plain trust 0 (int 2 ∷ []) [] 9 ≡ ends_with (int 2 ∷ []) }
{}

/// Initial values are assignments, in order with the pragmas of the declarative part.
pub fn declarative_parts()
    ensures first_fails { plain start 0 (int 0 ∷ []) [] 4 ≡ fails (key 2 19 kind.Range) }
    ensures pragma_fails { plain start 0 (int 2 ∷ []) [] 8 ≡ fails (key 3 19 kind.Assert) }
    ensures passes_short { plain start 0 (int 3 ∷ []) [] 13 ≡ short }
    ensures passes { plain start 0 (int 3 ∷ []) [] 14 ≡ ends_with (int 3 ∷ int 0 ∷ []) }
{}

/// What was never set can't be read.
pub fn reads_of_unset_objects()
    ensures set_before { plain unsure 0 (int 1 ∷ []) [] 8 ≡ ends_with (int 1 ∷ int 1 ∷ []) }
    ensures not_set { plain unsure 0 (int 0 ∷ []) [] 6 ≡ reads_unset }
    ensures not_set_short { plain unsure 0 (int 0 ∷ []) [] 5 ≡ short }
{}
