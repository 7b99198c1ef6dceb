//! Arrays and records.

ghost use Rattle.std.specs.Prelude.{◌≡◌, [], ◌∷◌, true, false, pos, negsuc};
ghost use Rattle.ada_values.specs.Value.{number, truth, array};
ghost use Rattle.typed_units.specs.declared.checks.CheckKind.TheVariants as kind;
ghost use Rattle.ada_semantics.specs.Plain.{plain, fails, short, not_a_start, reads_unset};
ghost use Rattle.ada_semantics.specs.Cases.{key, int, ends_with, gives_back};
ghost use Rattle.ada_semantics.specs.Cases.Search.{find};
ghost use Rattle.ada_semantics.specs.Cases.Parts.{integers, row, p, table, zeros, store, early, bounds, count, above, fill, both_ends, all_given, none_given, written, same_all, parts, copy, half, given_parts, deep, lend};

/// An index is checked where it stands, that of a target before the value that is assigned.
pub fn items()
    ensures passes_short { plain store 0 (row 10 20 30 ∷ int 2 ∷ int 3 ∷ []) [] 8 ≡ short }
    ensures passes { plain store 0 (row 10 20 30 ∷ int 2 ∷ int 3 ∷ []) [] 9 ≡ ends_with (row 10 4 30 ∷ int 2 ∷ int 3 ∷ int 30 ∷ []) }
    ensures target_first { plain store 0 (row 10 20 30 ∷ int 4 ∷ int 2147483647 ∷ []) [] 2 ≡ fails (key 3 7 kind.Index) }
    ensures value_then { plain store 0 (row 10 20 30 ∷ int 1 ∷ int 2147483647 ∷ []) [] 5 ≡ fails (key 3 15 kind.Overflow) }
    ensures read { plain store 0 (row 10 20 30 ∷ int 2 ∷ int 0 ∷ []) [] 9 ≡ fails (key 4 12 kind.Index) }
    ensures part_of_part_short { plain deep 0 (table (p 1 2) (p 3 4) ∷ int 2 ∷ []) [] 10 ≡ short }
    ensures part_of_part { plain deep 0 (table (p 1 2) (p 3 4) ∷ int 2 ∷ []) [] 11 ≡ ends_with (table (p 1 2) (p 3 1) ∷ int 2 ∷ int 1 ∷ []) }
    ensures part_of_part_fails { plain deep 0 (table (p 1 2) (p 3 4) ∷ int 0 ∷ []) [] 11 ≡ fails (key 3 7 kind.Index) }
{}

/// An array that was never set has no part to write, which comes after the checks of the indexes.
pub fn unset_arrays()
    ensures index_fails { plain early 0 (int 4 ∷ []) [] 2 ≡ fails (key 4 7 kind.Index) }
    ensures no_array { plain early 0 (int 1 ∷ []) [] 2 ≡ reads_unset }
    ensures no_array_short { plain early 0 (int 1 ∷ []) [] 1 ≡ short }
{}

/// An array without items has length 0, and a length is checked against the base range.
pub fn bounds_of_arrays()
    ensures null_array { plain bounds 0 (integers (pos 5) (pos 4) [] ∷ []) [] 9 ≡ ends_with (integers (pos 5) (pos 4) [] ∷ int 5 ∷ int 4 ∷ int 0 ∷ []) }
    ensures far_null_array { plain bounds 0 (integers (pos 1) (negsuc 2) [] ∷ []) [] 9
        ≡ ends_with (integers (pos 1) (negsuc 2) [] ∷ int 1 ∷ number (negsuc 2) ∷ int 0 ∷ []) }
    ensures three_items { plain bounds 0 (integers (pos 3) (pos 5) (int 7 ∷ int 8 ∷ int 9 ∷ []) ∷ []) [] 9
        ≡ ends_with (integers (pos 3) (pos 5) (int 7 ∷ int 8 ∷ int 9 ∷ []) ∷ int 3 ∷ int 5 ∷ int 3 ∷ []) }
    ensures past_base { plain count 0 (array (pos 1) (pos 200) (zeros 200) ∷ []) [] 100 ≡ fails (key 3 10 kind.Range) }
    ensures past_subtype { plain count 0 (array (pos 1) (pos 110) (zeros 110) ∷ []) [] 100 ≡ fails (key 3 9 kind.Range) }
    ensures fits { plain count 0 (array (pos 11) (pos 60) (zeros 50) ∷ []) [] 3 ≡ ends_with (array (pos 11) (pos 60) (zeros 50) ∷ int 50 ∷ []) }
    ensures over_items { plain above 0 (integers (pos 3) (pos 5) (int 1 ∷ int 0 ∷ int 9 ∷ []) ∷ []) [] 18
        ≡ ends_with (integers (pos 3) (pos 5) (int 1 ∷ int 0 ∷ int 9 ∷ []) ∷ truth false ∷ []) }
    ensures over_items_short { plain above 0 (integers (pos 3) (pos 5) (int 1 ∷ int 0 ∷ int 9 ∷ []) ∷ []) [] 17 ≡ short }
    ensures over_none { plain above 0 (integers (pos 3) (pos 2) [] ∷ []) [] 6 ≡ ends_with (integers (pos 3) (pos 2) [] ∷ truth true ∷ []) }
{}

/// Each association of an aggregate is evaluated once, and not at all where it gives nothing.
pub fn aggregates()
    ensures once_short { plain fill 0 (int 5 ∷ []) [] 5 ≡ short }
    ensures once { plain fill 0 (int 5 ∷ []) [] 6 ≡ ends_with (int 5 ∷ row 5 6 6 ∷ []) }
    ensures choices { plain both_ends 0 (int 5 ∷ []) [] 4 ≡ ends_with (int 5 ∷ row 5 0 5 ∷ []) }
    ensures others_give_nothing { plain all_given 0 (int 0 ∷ []) [] 3 ≡ ends_with (int 0 ∷ row 0 0 0 ∷ []) }
    ensures null_range_gives_nothing { plain none_given 0 (int 0 ∷ []) [] 3 ≡ ends_with (int 0 ∷ row 0 0 0 ∷ []) }
    ensures in_written_order { plain written 0 (int 0 ∷ []) [] 100 ≡ fails (key 3 18 kind.Division) }
    ensures others_after { plain written 0 (int 2147483647 ∷ []) [] 100 ≡ fails (key 3 35 kind.Overflow) }
    ensures passes { plain written 0 (int 5 ∷ []) [] 100 ≡ ends_with (int 5 ∷ row 6 2 6 ∷ []) }
    ensures checked { plain same_all 0 (number (negsuc 0) ∷ []) [] 100 ≡ fails (key 3 20 kind.Range) }
    ensures of_records_short { plain given_parts 0 (int 5 ∷ []) [] 10 ≡ short }
    ensures of_records { plain given_parts 0 (int 5 ∷ []) [] 11 ≡ ends_with (int 5 ∷ p 5 2 ∷ p 5 5 ∷ truth false ∷ []) }
    ensures equal_records { plain given_parts 0 (int 2 ∷ []) [] 11 ≡ ends_with (int 2 ∷ p 2 2 ∷ p 2 2 ∷ truth true ∷ []) }
{}

/// Binary search, null arrays included.
pub fn searches()
    ensures found { plain find 0 (integers (pos 1) (pos 5) (int 1 ∷ int 3 ∷ int 5 ∷ int 7 ∷ int 9 ∷ []) ∷ int 7 ∷ []) [] 400
        ≡ gives_back (integers (pos 1) (pos 5) (int 1 ∷ int 3 ∷ int 5 ∷ int 7 ∷ int 9 ∷ []) ∷ int 7 ∷ []) (int 4) }
    ensures not_found { plain find 0 (integers (pos 3) (pos 5) (int 2 ∷ int 4 ∷ int 6 ∷ []) ∷ int 5 ∷ []) [] 400
        ≡ gives_back (integers (pos 3) (pos 5) (int 2 ∷ int 4 ∷ int 6 ∷ []) ∷ int 5 ∷ []) (int 0) }
    ensures in_null_array { plain find 0 (integers (pos 5) (pos 4) [] ∷ int 5 ∷ []) [] 400 ≡ gives_back (integers (pos 5) (pos 4) [] ∷ int 5 ∷ []) (int 0) }
    ensures below_the_first { plain find 0 (integers (pos 1) (pos 2) (int 2 ∷ int 4 ∷ []) ∷ int 1 ∷ []) [] 400
        ≡ gives_back (integers (pos 1) (pos 2) (int 2 ∷ int 4 ∷ []) ∷ int 1 ∷ []) (int 0) }
    ensures no_start { plain find 0 (integers (pos 2147483647) (pos 2147483647) (int 2 ∷ []) ∷ int 1 ∷ []) [] 400 ≡ not_a_start }
{}

/// A record is set component by component, and read whole where each of them is set.
pub fn records()
    ensures by_parts_short { plain parts 0 (int 5 ∷ []) [] 8 ≡ short }
    ensures by_parts { plain parts 0 (int 5 ∷ []) [] 9 ≡ ends_with (int 5 ∷ p 5 6 ∷ int 5 ∷ []) }
    ensures read_whole { plain copy 0 (int 5 ∷ []) [] 6 ≡ ends_with (int 5 ∷ p 5 2 ∷ []) }
    ensures not_whole { plain half 0 (int 5 ∷ []) [] 4 ≡ reads_unset }
    ensures not_whole_short { plain half 0 (int 5 ∷ []) [] 3 ≡ short }
    ensures lends_a_part { plain lend 1 (int 5 ∷ []) [] 10 ≡ ends_with (int 5 ∷ int 6 ∷ []) }
    ensures lends_a_part_short { plain lend 1 (int 5 ∷ []) [] 9 ≡ short }
{}
