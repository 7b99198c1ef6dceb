//! What a run starts with, programs of several files, and the text that a program is seen as.

ghost use Rattle.std.specs.Prelude.{◌≡◌, [], ◌∷◌, true, false, pos, negsuc};
ghost use Rattle.ada_values.specs.Value.{number, truth, array, record_of, vals_of};
ghost use Rattle.typed_units.specs.View.{text_of};
ghost use Rattle.typed_units.specs.declared.checks.CheckKind.TheVariants as kind;
ghost use Rattle.typed_units.specs.declared.programs.Mode.TheVariants as mode;
ghost use Rattle.ada_semantics.specs.Plain.{plain, fails, inputs_fit};
ghost use Rattle.ada_semantics.specs.Cases.{int, ends_with};
ghost use Rattle.ada_semantics.specs.Cases.Starts.{idle, with_globals_of, formal_of, in_one, key_in, two, inc_written, inc_seen};

/// A run starts with a value in its subtype for each parameter of mode `in` and `in out`.
pub fn values_of_parameters()
    ensures first { inputs_fit (with_globals_of [] (in_one 1)) (idle (in_one 1)) (number (negsuc 4) ∷ []) [] ≡ true }
    ensures below { inputs_fit (with_globals_of [] (in_one 1)) (idle (in_one 1)) (number (negsuc 5) ∷ []) [] ≡ false }
    ensures last { inputs_fit (with_globals_of [] (in_one 1)) (idle (in_one 1)) (int 10 ∷ []) [] ≡ true }
    ensures above { inputs_fit (with_globals_of [] (in_one 1)) (idle (in_one 1)) (int 11 ∷ []) [] ≡ false }
    ensures other_class { inputs_fit (with_globals_of [] (in_one 1)) (idle (in_one 1)) (truth true ∷ []) [] ≡ false }
    ensures flag { inputs_fit (with_globals_of [] (in_one 2)) (idle (in_one 2)) (truth false ∷ []) [] ≡ true }
    ensures no_flag { inputs_fit (with_globals_of [] (in_one 2)) (idle (in_one 2)) (int 0 ∷ []) [] ≡ false }
    ensures too_few { inputs_fit (with_globals_of [] (in_one 1)) (idle (in_one 1)) [] [] ≡ false }
    ensures too_many { inputs_fit (with_globals_of [] (in_one 1)) (idle (in_one 1)) (int 0 ∷ int 0 ∷ []) [] ≡ false }
    ensures in_out { inputs_fit (with_globals_of [] (formal_of mode.InOut 1 ∷ [])) (idle (formal_of mode.InOut 1 ∷ [])) (int 11 ∷ []) [] ≡ false }
    ensures in_out_last { inputs_fit (with_globals_of [] (formal_of mode.InOut 1 ∷ [])) (idle (formal_of mode.InOut 1 ∷ [])) (int 10 ∷ []) [] ≡ true }
    ensures out_is_passed_over { inputs_fit (with_globals_of [] (formal_of mode.Out 1 ∷ formal_of mode.In 2 ∷ [])) (idle (formal_of mode.Out 1 ∷ formal_of mode.In 2 ∷ [])) (truth true ∷ []) [] ≡ true }
    ensures out_has_none { inputs_fit (with_globals_of [] (formal_of mode.Out 1 ∷ [])) (idle (formal_of mode.Out 1 ∷ [])) (int 0 ∷ []) [] ≡ false }
{}

/// An array has the bounds of its subtype, or bounds in its index subtype, or is null with bounds in the base range; items
/// and components have their subtypes.
pub fn values_of_arrays_and_records()
    ensures pair { inputs_fit (with_globals_of [] (in_one 3)) (idle (in_one 3)) (array (pos 1) (pos 2) (vals_of (int 10 ∷ int 0 ∷ [])) ∷ []) [] ≡ true }
    ensures pair_of_others { inputs_fit (with_globals_of [] (in_one 3)) (idle (in_one 3)) (array (pos 1) (pos 2) (vals_of (int 10 ∷ int 11 ∷ [])) ∷ []) [] ≡ false }
    ensures pair_elsewhere { inputs_fit (with_globals_of [] (in_one 3)) (idle (in_one 3)) (array (pos 2) (pos 3) (vals_of (int 1 ∷ int 1 ∷ [])) ∷ []) [] ≡ false }
    ensures pair_too_short { inputs_fit (with_globals_of [] (in_one 3)) (idle (in_one 3)) (array (pos 1) (pos 2) (vals_of (int 1 ∷ [])) ∷ []) [] ≡ false }
    ensures any_bounds { inputs_fit (with_globals_of [] (in_one 4)) (idle (in_one 4)) (array (pos 9) (pos 10) (vals_of (truth true ∷ truth false ∷ [])) ∷ []) [] ≡ true }
    ensures first_bounds { inputs_fit (with_globals_of [] (in_one 4)) (idle (in_one 4)) (array (negsuc 4) (negsuc 3) (vals_of (truth true ∷ truth false ∷ [])) ∷ []) [] ≡ true }
    ensures before_the_index { inputs_fit (with_globals_of [] (in_one 4)) (idle (in_one 4)) (array (negsuc 5) (negsuc 4) (vals_of (truth true ∷ truth false ∷ [])) ∷ []) [] ≡ false }
    ensures past_the_index { inputs_fit (with_globals_of [] (in_one 4)) (idle (in_one 4)) (array (pos 10) (pos 11) (vals_of (truth true ∷ truth false ∷ [])) ∷ []) [] ≡ false }
    ensures null_far_away { inputs_fit (with_globals_of [] (in_one 4)) (idle (in_one 4)) (array (pos 127) (negsuc 127) (vals_of []) ∷ []) [] ≡ true }
    ensures null_past_base { inputs_fit (with_globals_of [] (in_one 4)) (idle (in_one 4)) (array (pos 128) (pos 0) (vals_of []) ∷ []) [] ≡ false }
    ensures null_before_base { inputs_fit (with_globals_of [] (in_one 4)) (idle (in_one 4)) (array (pos 0) (negsuc 128) (vals_of []) ∷ []) [] ≡ false }
    ensures components { inputs_fit (with_globals_of [] (in_one 5)) (idle (in_one 5)) (record_of (vals_of (int 10 ∷ truth true ∷ [])) ∷ []) [] ≡ true }
    ensures component_past { inputs_fit (with_globals_of [] (in_one 5)) (idle (in_one 5)) (record_of (vals_of (int 11 ∷ truth true ∷ [])) ∷ []) [] ≡ false }
    ensures component_before { inputs_fit (with_globals_of [] (in_one 5)) (idle (in_one 5)) (record_of (vals_of (number (negsuc 5) ∷ truth true ∷ [])) ∷ []) [] ≡ false }
    ensures component_missing { inputs_fit (with_globals_of [] (in_one 5)) (idle (in_one 5)) (record_of (vals_of (int 1 ∷ [])) ∷ []) [] ≡ false }
{}

/// A run starts with a value in its subtype for each global.
pub fn values_of_globals()
    ensures last { inputs_fit (with_globals_of (1 ∷ 2 ∷ []) []) (idle []) [] (int 10 ∷ truth true ∷ []) ≡ true }
    ensures first { inputs_fit (with_globals_of (1 ∷ 2 ∷ []) []) (idle []) [] (number (negsuc 4) ∷ truth true ∷ []) ≡ true }
    ensures below { inputs_fit (with_globals_of (1 ∷ 2 ∷ []) []) (idle []) [] (number (negsuc 5) ∷ truth true ∷ []) ≡ false }
    ensures outside { inputs_fit (with_globals_of (1 ∷ 2 ∷ []) []) (idle []) [] (int 11 ∷ truth true ∷ []) ≡ false }
    ensures second_outside { inputs_fit (with_globals_of (1 ∷ 2 ∷ []) []) (idle []) [] (int 1 ∷ int 1 ∷ []) ≡ false }
    ensures too_few { inputs_fit (with_globals_of (1 ∷ 2 ∷ []) []) (idle []) [] (int 10 ∷ []) ≡ false }
    ensures too_many { inputs_fit (with_globals_of (1 ∷ []) []) (idle []) [] (int 10 ∷ int 10 ∷ []) ≡ false }
{}

/// A check of a contract fails in the file of its specification, and one of the body in that.
pub fn files_of_checks()
    ensures in_the_first { plain two 1 (int 0 ∷ []) [] 100 ≡ fails (key_in 0 2 65 kind.Post) }
    ensures in_the_second { plain two 1 (int 3 ∷ []) [] 100 ≡ fails (key_in 1 10 22 kind.Assert) }
    ensures passes { plain two 1 (int 6 ∷ []) [] 100 ≡ ends_with (int 6 ∷ []) }
{}

/// A program in the types of the code is the text that was written by hand for it, and runs as that.
#[tactic(auto, using(crate::proofs::Seen::written_is_seen, crate::proofs::Seen::written_runs))]
pub fn program_that_is_seen()
    ensures text { text_of inc_written ≡ inc_seen }
    ensures runs { plain (text_of inc_written) 0 (int 5 ∷ []) [] 4 ≡ ends_with (int 6 ∷ []) }
    ensures fails { plain inc_seen 0 (int 2147483647 ∷ []) [] 4 ≡ fails (key_in 0 3 11 kind.Overflow) }
{}
