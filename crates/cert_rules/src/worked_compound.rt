//! Lines of equals for equals, of arrays, records and division that are judged by hand, by specs/WorkedCompound.antt.

ghost use Rattle.std.specs.Prelude.{◌≡◌, [], ◌∷◌, pos, negsuc};
ghost use Rattle.logic_terms.specs.Node.{bound, op1, op2, tru, disj, eq, quant, any};
ghost use Rattle.cert_lines.specs.Line.{replacing, array_fact, extensionality, field_fact, division};
ghost use Rattle.cert_rules.specs.Judged.{yields, refused};
ghost use Rattle.cert_rules.specs.Rules.{judge};
ghost use Rattle.cert_rules.specs.Worked.{x, y, set, number, at_most, equal, opposite, plus, product_of, each_digit};
ghost use Rattle.cert_rules.specs.WorkedCompound.{switch, items, others, flags, pair, lamp, compound, below_0, same_truth, first_of, last_of, item_of, with_item, all_of_one, field_of_record, with_field_of, record_of_two, quotient_by, remainder_by, modulus_by};

/// C8: occurrences are numbered from 0 in the order of the text, also below quantifiers and in arguments.
pub fn worked_replacing()
    ensures first { judge compound (replacing 0 0 (equal x y) (at_most x (plus x y))) ≡ yields (opposite (equal x y) ∷ opposite (at_most x (plus x y)) ∷ at_most y (plus x y) ∷ []) }
    ensures second { judge compound (replacing 0 1 (equal x y) (at_most x (plus x y))) ≡ yields (opposite (equal x y) ∷ opposite (at_most x (plus x y)) ∷ at_most x (plus y y) ∷ []) }
    ensures other_way { judge compound (replacing 1 0 (equal x y) (at_most x (plus x y))) ≡ yields (opposite (equal x y) ∷ opposite (at_most x (plus x y)) ∷ at_most x (plus x x) ∷ []) }
    ensures below_quantifier { judge compound (replacing 0 1 (equal x (number 7)) (each_digit (quant any x (bound 0) (at_most x (bound 1))))) ≡ yields (opposite (equal x (number 7)) ∷ opposite (each_digit (quant any x (bound 0) (at_most x (bound 1)))) ∷ each_digit (quant any x (bound 0) (at_most (number 7) (bound 1))) ∷ []) }
    ensures of_a_term { judge compound (replacing 0 1 (equal (plus x y) x) (equal (product_of (plus x y) y) (plus x y))) ≡ yields (opposite (equal (plus x y) x) ∷ opposite (equal (product_of (plus x y) y) (plus x y)) ∷ equal (product_of (plus x y) y) x ∷ []) }
    ensures in_a_field { judge compound (replacing 0 0 (equal x y) (equal (record_of_two x switch) pair)) ≡ yields (opposite (equal x y) ∷ opposite (equal (record_of_two x switch) pair) ∷ equal (record_of_two y switch) pair ∷ []) }
    ensures of_negated { judge compound (replacing 0 0 (equal x y) (opposite (at_most x y))) ≡ yields (opposite (equal x y) ∷ at_most x y ∷ opposite (at_most y y) ∷ []) }
    ensures of_truths { judge compound (replacing 0 0 (same_truth switch lamp) (op2 disj set (at_most x y))) ≡ yields (opposite (same_truth switch lamp) ∷ opposite (op2 disj set (at_most x y)) ∷ op2 disj (op1 tru lamp) (at_most x y) ∷ []) }
    ensures of_arrays { judge compound (replacing 1 0 (equal items others) (equal (item_of others x) y)) ≡ yields (opposite (equal items others) ∷ opposite (equal (item_of others x) y) ∷ equal (item_of items x) y ∷ []) }
    ensures no_third { judge compound (replacing 0 2 (equal x y) (at_most x (plus x y))) ≡ refused }
    ensures no_occurrence { judge compound (replacing 0 0 (equal (number 7) y) (at_most x (plus x y))) ≡ refused }
    ensures no_third_way { judge compound (replacing 2 0 (equal x y) (at_most x (plus x y))) ≡ refused }
    ensures no_equation { judge compound (replacing 0 0 (at_most x y) (at_most x (plus x y))) ≡ refused }
    ensures of_formulas { judge compound (replacing 0 0 (op2 eq set (op1 tru lamp)) set) ≡ refused }
    ensures two_kinds { judge compound (replacing 0 0 (equal x items) (at_most x y)) ≡ refused }
    ensures no_formula { judge compound (replacing 0 0 (equal x y) (plus x y)) ≡ refused }
    ensures free_variable { judge compound (replacing 0 0 (equal x y) (at_most x (bound 0))) ≡ refused }
{}

/// C9: items and bounds of changed and filled arrays.
pub fn worked_arrays()
    ensures at_index { judge compound (array_fact 0 (item_of (with_item items x (number 5)) y)) ≡ yields (opposite (equal x y) ∷ opposite (at_most (first_of items) y) ∷ opposite (at_most y (last_of items)) ∷ equal (item_of (with_item items x (number 5)) y) (number 5) ∷ []) }
    ensures at_another { judge compound (array_fact 1 (item_of (with_item items x (number 5)) y)) ≡ yields (equal x y ∷ equal (item_of (with_item items x (number 5)) y) (item_of items y) ∷ []) }
    ensures of_truths { judge compound (array_fact 1 (item_of (with_item flags x lamp) y)) ≡ yields (equal x y ∷ same_truth (item_of (with_item flags x lamp) y) (item_of flags y) ∷ []) }
    ensures first_index { judge compound (array_fact 2 (first_of (with_item items x y))) ≡ yields (equal (first_of (with_item items x y)) (first_of items) ∷ []) }
    ensures last_index { judge compound (array_fact 3 (last_of (with_item items x y))) ≡ yields (equal (last_of (with_item items x y)) (last_of items) ∷ []) }
    ensures of_filled { judge compound (array_fact 4 (item_of (all_of_one (number 1) x lamp) y)) ≡ yields (opposite (at_most (number 1) y) ∷ opposite (at_most y x) ∷ same_truth (item_of (all_of_one (number 1) x lamp) y) lamp ∷ []) }
    ensures first_of_filled { judge compound (array_fact 5 (first_of (all_of_one (number 1) x lamp))) ≡ yields (equal (first_of (all_of_one (number 1) x lamp)) (number 1) ∷ []) }
    ensures last_of_filled { judge compound (array_fact 6 (last_of (all_of_one (number 1) x lamp))) ≡ yields (equal (last_of (all_of_one (number 1) x lamp)) x ∷ []) }
    ensures part_of_an_item { judge compound (array_fact 2 (item_of (with_item items x (number 5)) y)) ≡ refused }
    ensures part_of_the_first { judge compound (array_fact 3 (first_of (with_item items x y))) ≡ refused }
    ensures part_of_filled { judge compound (array_fact 0 (item_of (all_of_one (number 1) x lamp) y)) ≡ refused }
    ensures no_more_parts { judge compound (array_fact 7 (last_of (all_of_one (number 1) x lamp))) ≡ refused }
    ensures not_changed { judge compound (array_fact 0 (item_of items y)) ≡ refused }
    ensures another_kind { judge compound (array_fact 0 (item_of (with_item items x lamp) y)) ≡ refused }
    ensures free_index { judge compound (array_fact 0 (item_of (with_item items x y) (bound 0))) ≡ refused }
{}

/// C10: arrays of one kind.
pub fn worked_extensionality()
    ensures of_numbers { judge compound (extensionality items others) ≡ yields (equal items others ∷ opposite (equal (first_of items) (first_of others)) ∷ opposite (equal (last_of items) (last_of others)) ∷ quant any (first_of items) (last_of items) (opposite (equal (item_of items (bound 0)) (item_of others (bound 0)))) ∷ []) }
    ensures of_truths { judge compound (extensionality flags (all_of_one x y lamp)) ≡ yields (equal flags (all_of_one x y lamp) ∷ opposite (equal (first_of flags) (first_of (all_of_one x y lamp))) ∷ opposite (equal (last_of flags) (last_of (all_of_one x y lamp))) ∷ quant any (first_of flags) (last_of flags) (opposite (same_truth (item_of flags (bound 0)) (item_of (all_of_one x y lamp) (bound 0)))) ∷ []) }
    ensures two_kinds { judge compound (extensionality items flags) ≡ refused }
    ensures no_arrays { judge compound (extensionality x y) ≡ refused }
    ensures one_array { judge compound (extensionality items x) ≡ refused }
    ensures a_record { judge compound (extensionality pair pair) ≡ refused }
    ensures not_well_sorted { judge compound (extensionality items (with_item items x lamp)) ≡ refused }
{}

/// C11: fields of records.
pub fn worked_fields()
    ensures listed { judge compound (field_fact 0 (field_of_record 0 (record_of_two x switch))) ≡ yields (equal (field_of_record 0 (record_of_two x switch)) x ∷ []) }
    ensures second_listed { judge compound (field_fact 0 (field_of_record 1 (record_of_two x switch))) ≡ yields (same_truth (field_of_record 1 (record_of_two x switch)) switch ∷ []) }
    ensures changed { judge compound (field_fact 1 (field_of_record 0 (with_field_of 0 pair y))) ≡ yields (equal (field_of_record 0 (with_field_of 0 pair y)) y ∷ []) }
    ensures kept { judge compound (field_fact 2 (field_of_record 1 (with_field_of 0 pair y))) ≡ yields (same_truth (field_of_record 1 (with_field_of 0 pair y)) (field_of_record 1 pair) ∷ []) }
    ensures whole { judge compound (field_fact 3 pair) ≡ yields (equal pair (record_of_two (field_of_record 0 pair) (field_of_record 1 pair)) ∷ []) }
    ensures whole_of_changed { judge compound (field_fact 3 (with_field_of 0 pair y)) ≡ yields (equal (with_field_of 0 pair y) (record_of_two (field_of_record 0 (with_field_of 0 pair y)) (field_of_record 1 (with_field_of 0 pair y))) ∷ []) }
    ensures not_kept { judge compound (field_fact 2 (field_of_record 0 (with_field_of 0 pair y))) ≡ refused }
    ensures not_changed { judge compound (field_fact 1 (field_of_record 1 (with_field_of 0 pair y))) ≡ refused }
    ensures not_listed { judge compound (field_fact 0 (field_of_record 0 (with_field_of 0 pair y))) ≡ refused }
    ensures part_of_listed { judge compound (field_fact 1 (field_of_record 0 (record_of_two x switch))) ≡ refused }
    ensures no_third_field { judge compound (field_fact 0 (field_of_record 2 (record_of_two x switch))) ≡ refused }
    ensures no_record { judge compound (field_fact 3 x) ≡ refused }
    ensures no_more_parts { judge compound (field_fact 4 pair) ≡ refused }
    ensures another_kind { judge compound (field_fact 1 (field_of_record 0 (with_field_of 0 pair lamp))) ≡ refused }
{}

/// C12: division by a number, here by -3 and by 3, of what has no sign yet, of 7 and of -7.
pub fn worked_division()
    ensures sum { judge compound (division 0 (number 7) (negsuc 2)) ≡ yields (equal (number 7) (plus (product_of (below_0 2) (quotient_by (negsuc 2) (number 7))) (remainder_by (negsuc 2) (number 7))) ∷ []) }
    ensures sum_below_0 { judge compound (division 0 (below_0 6) (negsuc 2)) ≡ yields (equal (below_0 6) (plus (product_of (below_0 2) (quotient_by (negsuc 2) (below_0 6))) (remainder_by (negsuc 2) (below_0 6))) ∷ []) }
    ensures above { judge compound (division 1 (number 7) (negsuc 2)) ≡ yields (opposite (at_most (number 0) (number 7)) ∷ at_most (number 0) (remainder_by (negsuc 2) (number 7)) ∷ []) }
    ensures above_size { judge compound (division 2 (number 7) (negsuc 2)) ≡ yields (opposite (at_most (number 0) (number 7)) ∷ at_most (remainder_by (negsuc 2) (number 7)) (number 2) ∷ []) }
    ensures below { judge compound (division 3 (below_0 6) (negsuc 2)) ≡ yields (at_most (number 0) (below_0 6) ∷ at_most (remainder_by (negsuc 2) (below_0 6)) (number 0) ∷ []) }
    ensures below_size { judge compound (division 4 (below_0 6) (negsuc 2)) ≡ yields (at_most (number 0) (below_0 6) ∷ at_most (below_0 1) (remainder_by (negsuc 2) (below_0 6)) ∷ []) }
    ensures sign_below_0 { judge compound (division 5 x (negsuc 2)) ≡ yields (at_most (modulus_by (negsuc 2) x) (number 0) ∷ []) }
    ensures sign_above_0 { judge compound (division 5 x (pos 3)) ≡ yields (at_most (number 0) (modulus_by (pos 3) x) ∷ []) }
    ensures size_below_0 { judge compound (division 6 x (negsuc 2)) ≡ yields (at_most (below_0 1) (modulus_by (negsuc 2) x) ∷ []) }
    ensures size_above_0 { judge compound (division 6 x (pos 3)) ≡ yields (at_most (modulus_by (pos 3) x) (number 2) ∷ []) }
    ensures either { judge compound (division 7 (below_0 6) (negsuc 2)) ≡ yields (equal (modulus_by (negsuc 2) (below_0 6)) (remainder_by (negsuc 2) (below_0 6)) ∷ equal (modulus_by (negsuc 2) (below_0 6)) (plus (remainder_by (negsuc 2) (below_0 6)) (below_0 2)) ∷ []) }
    ensures by_one { judge compound (division 2 x (pos 1)) ≡ yields (opposite (at_most (number 0) x) ∷ at_most (remainder_by (pos 1) x) (number 0) ∷ []) }
    ensures by_minus_one { judge compound (division 6 x (negsuc 0)) ≡ yields (at_most (number 0) (modulus_by (negsuc 0) x) ∷ []) }
    ensures by_0 { judge compound (division 0 (number 7) (pos 0)) ≡ refused }
    ensures by_0_again { judge compound (division 5 x (pos 0)) ≡ refused }
    ensures no_more_parts { judge compound (division 8 x (negsuc 2)) ≡ refused }
    ensures of_a_truth { judge compound (division 0 lamp (negsuc 2)) ≡ refused }
    ensures of_a_free_variable { judge compound (division 0 (plus x (bound 0)) (pos 3)) ≡ refused }
{}
