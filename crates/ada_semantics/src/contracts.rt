//! Contracts, globals, and what calls keep.

ghost use Rattle.std.specs.Prelude.{◌≡◌, [], ◌∷◌, Some, None, negsuc};
ghost use Rattle.ada_values.specs.Value.{number};
ghost use Rattle.typed_units.specs.declared.checks.CheckKind.TheVariants as kind;
ghost use Rattle.ada_semantics.specs.Plain.{plain, ends, fails, short, not_a_start, reads_unset};
ghost use Rattle.ada_semantics.specs.Cases.{key, int, ends_with, gives_back};
ghost use Rattle.ada_semantics.specs.Cases.Parts.{row};
ghost use Rattle.ada_semantics.specs.Cases.Contracts.{late, begin_at, keep, seen, halves, positive_half, peeks, ticks, no_old, deep_pre, item_inc};

/// `Post` is checked before anything is copied back, and `Pre` before the initial values of the locals.
pub fn order_of_contracts()
    ensures post_first { plain late 1 [] [] 100 ≡ fails (key 2 49 kind.Post) }
    ensures pre_first { plain begin_at 0 (int 0 ∷ []) [] 100 ≡ not_a_start }
    ensures initial_value { plain begin_at 0 (int 1 ∷ []) [] 100 ≡ ends_with (int 1 ∷ []) }
{}

/// A check inside the precondition of what is called fails as any other, where it stands.
pub fn checks_inside_preconditions()
    ensures overflows { plain deep_pre 1 (int 2147483647 ∷ []) [] 100 ≡ fails (key 2 50 kind.Overflow) }
    ensures is_false { plain deep_pre 1 (number (negsuc 0) ∷ []) [] 100 ≡ fails (key 8 7 kind.Pre) }
    ensures holds { plain deep_pre 1 (int 5 ∷ []) [] 100 ≡ ends_with (int 5 ∷ []) }
{}

/// A call leaves the caller's locals as they were, whatever the callee's are.
pub fn locals_of_the_caller()
    ensures stay { plain keep 1 [] [] 100 ≡ ends_with (int 5 ∷ []) }
{}

/// A function reads the globals, and its actuals have range checks.
pub fn functions()
    ensures globals { plain seen 1 [] (int 41 ∷ []) 100
        ≡ ends (record { params = Some (int 42) ∷ []; globals = Some (int 41) ∷ []; returned = None }) }
    ensures actual_fits { plain halves 1 (int 7 ∷ []) [] 100 ≡ ends_with (int 7 ∷ int 3 ∷ []) }
    ensures actual_fails { plain halves 1 (number (negsuc 0) ∷ []) [] 100 ≡ fails (key 8 18 kind.Range) }
    ensures larger_actual_fails { plain halves 2 (int 0 ∷ []) [] 100 ≡ fails (key 12 19 kind.Range) }
{}

/// The precondition of a call in parentheses is checked at the function's name.
pub fn calls_in_parentheses()
    ensures fails { plain positive_half 1 (int 0 ∷ []) [] 100 ≡ fails (key 8 13 kind.Pre) }
    ensures holds { plain positive_half 1 (int 8 ∷ []) [] 100 ≡ ends_with (int 8 ∷ int 4 ∷ []) }
{}

/// What is passed for an `in out` parameter of a function is passed in, with its check, and nothing is copied back; for an
/// `out` parameter nothing is passed. Their places are evaluated.
pub fn functions_with_other_modes()
    ensures passes { plain peeks 1 (int 5 ∷ []) [] 100 ≡ ends_with (int 5 ∷ int 6 ∷ []) }
    ensures inwards { plain peeks 1 (number (negsuc 0) ∷ []) [] 100 ≡ fails (key 8 18 kind.Range) }
    ensures item { plain peeks 2 (row 10 20 30 ∷ int 2 ∷ []) [] 100 ≡ ends_with (row 10 20 30 ∷ int 2 ∷ int 21 ∷ []) }
    ensures index { plain peeks 2 (row 10 20 30 ∷ int 4 ∷ []) [] 100 ≡ fails (key 12 21 kind.Index) }
    ensures without_end { plain peeks 3 [] [] 50 ≡ short }
{}

/// `'Old` of a global, and of a parameter, is the value on entry; what didn't exist then has none.
pub fn values_on_entry()
    ensures global { plain ticks 0 [] (int 5 ∷ []) 100 ≡ ends (record { params = []; globals = Some (int 6) ∷ []; returned = None }) }
    ensures parameter { plain ticks 1 (int 5 ∷ []) (int 0 ∷ []) 100 ≡ fails (key 6 53 kind.Post) }
    ensures local { plain no_old 0 (int 0 ∷ []) [] 100 ≡ reads_unset }
{}

/// An item that is passed is copied in and back by itself.
pub fn items_that_are_passed()
    ensures second { plain item_inc 1 (row 10 20 30 ∷ int 2 ∷ []) [] 100 ≡ ends_with (row 10 21 30 ∷ int 2 ∷ []) }
    ensures outside { plain item_inc 1 (row 10 20 30 ∷ int 4 ∷ []) [] 100 ≡ fails (key 8 15 kind.Index) }
{}
