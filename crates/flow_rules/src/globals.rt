//! Effects, what functions write, and stated `Global`s.

ghost use Rattle.std.specs.Prelude.{◌≡◌, [], ◌∷◌};
ghost use Rattle.flow_rules.specs.Base.{called, named_reads, named_writes};
ghost use Rattle.flow_rules.specs.Sets.{Reads, Writes};
ghost use Rattle.flow_rules.specs.Functions.{function_faults};
ghost use Rattle.flow_rules.specs.Cases.{at_place, input, output, in_out, text};
ghost use Rattle.flow_rules.specs.Cases.Globals.{n, m, a, copies, gets, steps, puts_item, sees_item, sees_bounds, sees_bounds_of_call, in_contracts, in_declarations, chain, writing, writing_effects, assigns_global, assigns_local, passes_global, passes_local, calls_a_writer, stating, stating_effects, adding, adding_effects};

/// A name is read but as the object of a target, as an `out` actual or as the prefix of an attribute of its bounds.
pub fn names_read()
    ensures value { named_reads copies ≡ n ∷ [] }
    ensures out_actual { named_reads gets ≡ [] }
    ensures in_out_actual { named_reads steps ≡ n ∷ [] }
    ensures target_and_index { named_reads puts_item ≡ n ∷ [] }
    ensures item { named_reads sees_item ≡ a ∷ [] }
    ensures prefix { named_reads sees_bounds ≡ [] }
    ensures call_as_prefix { named_reads sees_bounds_of_call ≡ n ∷ [] }
    ensures contracts { named_reads in_contracts ≡ n ∷ m ∷ [] }
    ensures declarations { named_reads in_declarations ≡ n ∷ [] }
{}

/// A target is written whole or in part, and so is an `out` or `in out` actual.
pub fn names_written()
    ensures target { named_writes copies ≡ m ∷ [] }
    ensures part { named_writes puts_item ≡ a ∷ [] }
    ensures out_actual { named_writes gets ≡ n ∷ [] }
    ensures in_out_actual { named_writes steps ≡ n ∷ [] }
    ensures read_alone { named_writes sees_item ≡ [] }
    ensures local { named_writes in_declarations ≡ [] }
{}

/// A function writes nothing but its locals: F3 stands at the writing statement.
pub fn functions()
    ensures assigns_global { function_faults (writing assigns_global) (writing_effects (0 ∷ [])) ≡ at_place 3 5 7 ∷ [] }
    ensures assigns_local { function_faults (writing assigns_local) (writing_effects []) ≡ [] }
    ensures passes_global { function_faults (writing passes_global) (writing_effects (0 ∷ [])) ≡ at_place 3 5 7 ∷ [] }
    ensures passes_local { function_faults (writing passes_local) (writing_effects []) ≡ [] }
    ensures calls_a_writer { function_faults (writing calls_a_writer) (writing_effects (0 ∷ [])) ≡ at_place 3 5 7 ∷ [] }
{}

/// `Output` and `In_Out` together are the written globals, `Input` those that are read and not written.
pub fn stated_globals()
    ensures fits { function_faults (stating (input n ∷ output m ∷ [])) stating_effects ≡ [] }
    ensures in_out_fits { function_faults (stating (in_out m ∷ input n ∷ [])) stating_effects ≡ [] }
    ensures output_missing { function_faults (stating (input n ∷ [])) stating_effects ≡ at_place 6 2 22 ∷ [] }
    ensures input_missing { function_faults (stating (output m ∷ [])) stating_effects ≡ at_place 6 2 22 ∷ [] }
    ensures input_too_many { function_faults (stating (input n ∷ input a ∷ output m ∷ [])) stating_effects ≡ at_place 6 2 22 ∷ [] }
    ensures output_too_many { function_faults (stating (input n ∷ output m ∷ output a ∷ [])) stating_effects ≡ at_place 6 2 22 ∷ [] }
    ensures read_and_written { function_faults (adding (in_out m ∷ input n ∷ [])) adding_effects ≡ [] }
    ensures written_as_input { function_faults (adding (output m ∷ input m ∷ input n ∷ [])) adding_effects ≡ at_place 6 2 22 ∷ [] }
{}
