//! Calls and contracts.

ghost use Rattle.std.specs.Prelude.{◌≡◌, [], ◌∷◌, pos, negsuc, Some, None};
ghost use Rattle.ada_values.specs.Value.{number, array, vals_of};
ghost use Rattle.typed_units.specs.declared.checks.CheckKind.TheVariants as kind;
ghost use Rattle.ada_semantics.specs.Plain.{plain, ends, fails, short, not_a_start};
ghost use Rattle.ada_semantics.specs.Cases.{key, int, ends_with, gives_back};
ghost use Rattle.ada_semantics.specs.Cases.Calls.{lower, natural_lower, weak, inc_by, more, low, guarded, sum, endless, down, count, named, positional, moved_index};

/// A parameter is copied back with the range check of the actual, and a call takes the unit of its statement alone.
pub fn copies_back()
    ensures passes_short { plain lower 1 (int 5 ∷ []) [] 4 ≡ short }
    ensures passes { plain lower 1 (int 5 ∷ []) [] 5 ≡ ends_with (int 4 ∷ []) }
    ensures fails_short { plain lower 1 (int 0 ∷ []) [] 4 ≡ short }
    ensures fails_on_the_way_back { plain lower 1 (int 0 ∷ []) [] 5 ≡ fails (key 8 12 kind.Range) }
{}

/// An actual is checked on the way in, before the body runs.
pub fn copies_in()
    ensures in_out_short { plain natural_lower 1 (number (negsuc 0) ∷ []) [] 0 ≡ short }
    ensures in_out { plain natural_lower 1 (number (negsuc 0) ∷ []) [] 1 ≡ fails (key 8 12 kind.Range) }
    ensures in_the_body { plain natural_lower 1 (int 0 ∷ []) [] 100 ≡ fails (key 4 12 kind.Range) }
    ensures passes { plain natural_lower 1 (int 5 ∷ []) [] 5 ≡ ends_with (int 4 ∷ []) }
    ensures in_alone { plain natural_lower 3 (number (negsuc 1) ∷ []) [] 4 ≡ fails (key 16 13 kind.Range) }
    ensures in_alone_passes { plain natural_lower 3 (number (negsuc 0) ∷ []) [] 5 ≡ ends_with (number (negsuc 0) ∷ []) }
{}

/// An `out` parameter, and a postcondition that is checked before the copy back.
pub fn out_parameters()
    ensures holds_short { plain (weak 7) 1 [] [] 9 ≡ short }
    ensures holds { plain (weak 7) 1 [] [] 10 ≡ ends_with [] }
    ensures post_fails { plain (weak 0) 1 [] [] 6 ≡ fails (key 2 50 kind.Post) }
    ensures post_fails_short { plain (weak 0) 1 [] [] 5 ≡ short }
    ensures assertion_fails { plain (weak 8) 1 [] [] 10 ≡ fails (key 10 22 kind.Assert) }
{}

/// `'Old` is the value on entry, and `'Result` what the function gives.
pub fn postconditions()
    ensures holds_short { plain inc_by 0 (int 5 ∷ int 1 ∷ []) [] 8 ≡ short }
    ensures holds { plain inc_by 0 (int 5 ∷ int 1 ∷ []) [] 9 ≡ ends_with (int 6 ∷ int 1 ∷ []) }
    ensures is_false { plain inc_by 0 (int 5 ∷ int 2 ∷ []) [] 9 ≡ fails (key 1 65 kind.Post) }
    ensures check_inside { plain inc_by 0 (int 2147483647 ∷ int 0 ∷ []) [] 100 ≡ fails (key 1 75 kind.Overflow) }
    ensures result { plain more 0 (int 5 ∷ int 1 ∷ []) [] 7 ≡ gives_back (int 5 ∷ int 1 ∷ []) (int 6) }
    ensures result_short { plain more 0 (int 5 ∷ int 1 ∷ []) [] 6 ≡ short }
    ensures result_is_false { plain more 0 (int 5 ∷ int 0 ∷ []) [] 7 ≡ fails (key 1 60 kind.Post) }
    ensures result_in_subtype { plain down 0 (int 1 ∷ []) [] 4 ≡ gives_back (int 1 ∷ []) (int 0) }
    ensures result_out_of_subtype { plain down 0 (int 0 ∷ []) [] 4 ≡ fails (key 3 11 kind.Range) }
{}

/// A precondition that is False is no start of a run, and a check inside it fails as any other.
pub fn own_preconditions()
    ensures holds { plain low 0 (int 0 ∷ []) [] 6 ≡ ends_with (int 0 ∷ []) }
    ensures holds_short { plain low 0 (int 0 ∷ []) [] 5 ≡ short }
    ensures is_false { plain low 0 (number (negsuc 0) ∷ []) [] 5 ≡ not_a_start }
    ensures is_false_short { plain low 0 (number (negsuc 0) ∷ []) [] 4 ≡ short }
    ensures check_inside { plain low 0 (int 2147483647 ∷ []) [] 4 ≡ fails (key 1 46 kind.Overflow) }
    ensures calls_a_function { plain guarded 1 (int 1 ∷ []) [] 100 ≡ not_a_start }
    ensures calls_a_function_short { plain guarded 1 (int 2 ∷ []) [] 8 ≡ short }
    ensures calls_a_function_and_holds { plain guarded 1 (int 2 ∷ []) [] 9 ≡ ends_with (int 2 ∷ []) }
    ensures check_inside_the_function { plain guarded 1 (int 2147483647 ∷ []) [] 100 ≡ fails (key 4 16 kind.Overflow) }
{}

/// A precondition that is False at a call fails at the first token of the call.
pub fn preconditions_of_calls()
    ensures of_procedure_short { plain guarded 2 (int 1 ∷ []) [] 9 ≡ short }
    ensures of_procedure { plain guarded 2 (int 1 ∷ []) [] 10 ≡ fails (key 12 7 kind.Pre) }
    ensures of_procedure_holds { plain guarded 2 (int 2 ∷ []) [] 11 ≡ ends_with (int 2 ∷ []) }
    ensures of_function { plain guarded 4 (int 0 ∷ []) [] 100 ≡ fails (key 20 16 kind.Pre) }
    ensures of_function_holds { plain guarded 4 (int 5 ∷ []) [] 10 ≡ ends_with (int 5 ∷ int 6 ∷ []) }
    ensures of_function_short { plain guarded 4 (int 5 ∷ []) [] 9 ≡ short }
{}

/// A recursion may spend its budget.
pub fn recursions()
    ensures ends_short { plain sum 0 (int 3 ∷ []) [] 38 ≡ short }
    ensures ends_in_time { plain sum 0 (int 3 ∷ []) [] 39 ≡ gives_back (int 3 ∷ []) (int 6) }
    ensures without_end { plain endless 0 (int 3 ∷ []) [] 60 ≡ short }
{}

/// A procedure's writes of globals stay.
pub fn globals()
    ensures both { plain count 1 [] (int 5 ∷ []) 100
        ≡ ends (record { params = Some (int 6) ∷ []; globals = Some (int 7) ∷ []; returned = None }) }
    ensures overflows { plain count 1 [] (int 2147483646 ∷ []) 100 ≡ fails (key 4 14 kind.Overflow) }
{}

/// Actuals are evaluated and copied back as they are written, also where they are named.
pub fn order_of_actuals()
    ensures inwards { plain named 1 (number (negsuc 0) ∷ number (negsuc 0) ∷ []) [] 100 ≡ fails (key 9 13 kind.Range) }
    ensures second { plain named 1 (int 7 ∷ number (negsuc 0) ∷ []) [] 100 ≡ fails (key 9 21 kind.Range) }
    ensures named_back { plain named 1 (int 0 ∷ int 0 ∷ []) [] 100 ≡ fails (key 9 29 kind.Range) }
    ensures positional_back { plain positional 1 (int 0 ∷ int 0 ∷ []) [] 100 ≡ fails (key 9 19 kind.Range) }
    ensures named_passes { plain named 1 (int 7 ∷ int 8 ∷ []) [] 100 ≡ ends_with (int 7 ∷ int 8 ∷ int 2 ∷ int 3 ∷ []) }
    ensures positional_passes { plain positional 1 (int 7 ∷ int 8 ∷ []) [] 100 ≡ ends_with (int 7 ∷ int 8 ∷ int 2 ∷ int 3 ∷ []) }
{}

/// The place of an `out` actual is fixed before the body runs.
pub fn places_of_actuals()
    ensures stays { plain moved_index 1 (array (pos 1) (pos 3) (vals_of (int 0 ∷ int 0 ∷ int 0 ∷ [])) ∷ []) (int 2 ∷ []) 100
        ≡ ends (record { params = Some (array (pos 1) (pos 3) (vals_of (int 0 ∷ int 7 ∷ int 0 ∷ []))) ∷ []; globals = Some (int 3) ∷ []; returned = None }) }
{}
