//! Items and components: equality, positions, aggregates, and records that are set in part.

ghost use Rattle.std.specs.Prelude.{◌≡◌, [], ◌∷◌, true, false, pos, negsuc};
ghost use Rattle.ada_values.specs.Value.{number, truth, record_of, vals_of};
ghost use Rattle.typed_units.specs.declared.checks.CheckKind.TheVariants as kind;
ghost use Rattle.ada_semantics.specs.Plain.{plain, fails, reads_unset};
ghost use Rattle.ada_semantics.specs.Cases.{key, int, ends_with};
ghost use Rattle.ada_semantics.specs.Cases.Parts.{integers, p};
ghost use Rattle.ada_semantics.specs.Cases.Pieces.{same, put_at, make, both_checked, nest, half, filled, filled_whole};

/// Arrays are equal where their items are, in order, whatever their bounds.
pub fn equality_of_arrays()
    ensures equal { plain same 0 (integers (pos 1) (pos 2) (int 5 ∷ int 6 ∷ []) ∷ integers (pos 1) (pos 2) (int 5 ∷ int 6 ∷ []) ∷ []) [] 100
        ≡ ends_with (integers (pos 1) (pos 2) (int 5 ∷ int 6 ∷ []) ∷ integers (pos 1) (pos 2) (int 5 ∷ int 6 ∷ []) ∷ truth true ∷ []) }
    ensures other_bounds { plain same 0 (integers (pos 1) (pos 2) (int 5 ∷ int 6 ∷ []) ∷ integers (pos 7) (pos 8) (int 5 ∷ int 6 ∷ []) ∷ []) [] 100
        ≡ ends_with (integers (pos 1) (pos 2) (int 5 ∷ int 6 ∷ []) ∷ integers (pos 7) (pos 8) (int 5 ∷ int 6 ∷ []) ∷ truth true ∷ []) }
    ensures other_item { plain same 0 (integers (pos 1) (pos 2) (int 5 ∷ int 6 ∷ []) ∷ integers (pos 1) (pos 2) (int 5 ∷ int 7 ∷ []) ∷ []) [] 100
        ≡ ends_with (integers (pos 1) (pos 2) (int 5 ∷ int 6 ∷ []) ∷ integers (pos 1) (pos 2) (int 5 ∷ int 7 ∷ []) ∷ truth false ∷ []) }
    ensures other_length { plain same 0 (integers (pos 1) (pos 1) (int 5 ∷ []) ∷ integers (pos 1) (pos 2) (int 5 ∷ int 7 ∷ []) ∷ []) [] 100
        ≡ ends_with (integers (pos 1) (pos 1) (int 5 ∷ []) ∷ integers (pos 1) (pos 2) (int 5 ∷ int 7 ∷ []) ∷ truth false ∷ []) }
    ensures null_arrays { plain same 0 (integers (pos 1) (pos 0) [] ∷ integers (pos 5) (pos 4) [] ∷ []) [] 100
        ≡ ends_with (integers (pos 1) (pos 0) [] ∷ integers (pos 5) (pos 4) [] ∷ truth true ∷ []) }
{}

/// A target in an array without fixed bounds lies where the array's own bounds say.
pub fn targets_without_fixed_bounds()
    ensures second { plain put_at 0 (integers (pos 3) (pos 5) (int 1 ∷ int 2 ∷ int 3 ∷ []) ∷ int 4 ∷ int 9 ∷ []) [] 100
        ≡ ends_with (integers (pos 3) (pos 5) (int 1 ∷ int 9 ∷ int 3 ∷ []) ∷ int 4 ∷ int 9 ∷ []) }
    ensures first { plain put_at 0 (integers (pos 3) (pos 5) (int 1 ∷ int 2 ∷ int 3 ∷ []) ∷ int 3 ∷ int 9 ∷ []) [] 100
        ≡ ends_with (integers (pos 3) (pos 5) (int 9 ∷ int 2 ∷ int 3 ∷ []) ∷ int 3 ∷ int 9 ∷ []) }
    ensures below { plain put_at 0 (integers (pos 3) (pos 5) (int 1 ∷ int 2 ∷ int 3 ∷ []) ∷ int 2 ∷ int 9 ∷ []) [] 100 ≡ fails (key 3 7 kind.Index) }
    ensures above { plain put_at 0 (integers (pos 3) (pos 5) (int 1 ∷ int 2 ∷ int 3 ∷ []) ∷ int 6 ∷ int 9 ∷ []) [] 100 ≡ fails (key 3 7 kind.Index) }
{}

/// An aggregate's first index is that of its subtype, and an association that gives several components is checked for each.
pub fn associations()
    ensures from_three { plain make 0 (int 7 ∷ []) [] 100 ≡ ends_with (int 7 ∷ integers (pos 3) (pos 5) (int 8 ∷ int 7 ∷ int 8 ∷ []) ∷ []) }
    ensures both_fit { plain both_checked 0 (int 10 ∷ []) [] 100 ≡ ends_with (int 10 ∷ p 10 10 ∷ []) }
    ensures first_fails { plain both_checked 0 (number (negsuc 0) ∷ []) [] 100 ≡ fails (key 3 19 kind.Range) }
    ensures second_fails { plain both_checked 0 (int 11 ∷ []) [] 100 ≡ fails (key 3 19 kind.Range) }
{}

/// A record within a record is set component by component, and read whole where each of them is set.
pub fn nested_records()
    ensures by_parts { plain nest 0 (int 5 ∷ []) [] 100 ≡ ends_with (int 5 ∷ int 5 ∷ int 11 ∷ []) }
    ensures inner_in_part { plain half 0 (int 5 ∷ []) [] 100 ≡ reads_unset }
    ensures outer_in_part { plain filled 0 (int 5 ∷ []) [] 100 ≡ reads_unset }
    ensures whole { plain filled_whole 0 (int 5 ∷ []) [] 100 ≡ ends_with (int 5 ∷ p 5 2 ∷ record_of (vals_of (p 5 2 ∷ int 9 ∷ [])) ∷ []) }
{}
