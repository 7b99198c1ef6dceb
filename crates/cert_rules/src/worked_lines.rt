//! Lines that are judged by hand, by the small goal of specs/Worked.antt.

ghost use Rattle.std.specs.Prelude.{◌≡◌, ◌-◌, ◌^◌, [], ◌∷◌, pos, negsuc};
ghost use Rattle.logic_terms.specs.Node.{num, sym, bound, op1, op2, op3, bit, tru, conj, disj, iff, ite, arith, sub, quant, all, any};
ghost use Rattle.cert_lines.specs.Line.{given, opening, choice, propagation, linear, sum_of, tighten, trichotomy, instance, witness, product, computing, c1, c3, c7};
ghost use Rattle.cert_rules.specs.Judged.{yields, refused, too_wide};
ghost use Rattle.cert_rules.specs.Rules.{judge};
ghost use Rattle.cert_rules.specs.Checking.{answer_to, accepted, not_allowed, leaves_range, no_end};
ghost use Rattle.cert_rules.specs.Worked.{x, y, set, made, unmade, number, at_most, equal, opposite, plus, product_of, each_digit, some_digit, small, weaker_goal, equal_goal};

/// C1: hypotheses, and the negated conclusion after them.
pub fn worked_hypotheses()
    ensures first { judge small (given 0) ≡ yields (at_most x y ∷ []) }
    ensures second { judge small (given 1) ≡ yields (set ∷ []) }
    ensures conclusion { judge small (given 2) ≡ yields (at_most y x ∷ []) }
    ensures beyond { judge small (given 3) ≡ refused }
    ensures far_beyond { judge small (given 17) ≡ refused }
{}

/// C2: connectives.
pub fn worked_connectives()
    ensures and_first { judge small (opening 0 (op2 conj set (at_most x y))) ≡ yields (opposite (op2 conj set (at_most x y)) ∷ set ∷ []) }
    ensures and_second { judge small (opening 1 (op2 conj set (at_most x y))) ≡ yields (opposite (op2 conj set (at_most x y)) ∷ at_most x y ∷ []) }
    ensures and_both { judge small (opening 2 (op2 conj (opposite set) (at_most x y))) ≡ yields (op2 conj (opposite set) (at_most x y) ∷ set ∷ opposite (at_most x y) ∷ []) }
    ensures and_no_more { judge small (opening 3 (op2 conj set (at_most x y))) ≡ refused }
    ensures or_first { judge small (opening 0 (op2 disj set (at_most x y))) ≡ yields (op2 disj set (at_most x y) ∷ opposite set ∷ []) }
    ensures or_second { judge small (opening 1 (op2 disj set (at_most x y))) ≡ yields (op2 disj set (at_most x y) ∷ opposite (at_most x y) ∷ []) }
    ensures or_both { judge small (opening 2 (op2 disj set (at_most x y))) ≡ yields (opposite (op2 disj set (at_most x y)) ∷ set ∷ at_most x y ∷ []) }
    ensures or_no_more { judge small (opening 3 (op2 disj set (at_most x y))) ≡ refused }
    ensures iff_right { judge small (opening 0 (op2 iff set (at_most x y))) ≡ yields (opposite (op2 iff set (at_most x y)) ∷ opposite set ∷ at_most x y ∷ []) }
    ensures iff_left { judge small (opening 1 (op2 iff set (at_most x y))) ≡ yields (opposite (op2 iff set (at_most x y)) ∷ set ∷ opposite (at_most x y) ∷ []) }
    ensures iff_neither { judge small (opening 2 (op2 iff set (at_most x y))) ≡ yields (op2 iff set (at_most x y) ∷ set ∷ at_most x y ∷ []) }
    ensures iff_both { judge small (opening 3 (op2 iff set (at_most x y))) ≡ yields (op2 iff set (at_most x y) ∷ opposite set ∷ opposite (at_most x y) ∷ []) }
    ensures iff_no_more { judge small (opening 4 (op2 iff set (at_most x y))) ≡ refused }
    ensures no_connective { judge small (opening 0 (at_most x y)) ≡ refused }
    ensures negated { judge small (opening 0 (opposite (op2 conj set (at_most x y)))) ≡ refused }
    ensures free_variable { judge small (opening 0 (op2 conj set (at_most x (bound 0)))) ≡ refused }
    ensures unmade_symbol { judge small (opening 0 (op2 conj set (at_most x unmade))) ≡ refused }
    ensures made_symbol { judge small (opening 0 (op2 conj set (at_most x made))) ≡ yields (opposite (op2 conj set (at_most x made)) ∷ set ∷ []) }
{}

/// C2: truth values and choices.
pub fn worked_choices()
    ensures bit_first { judge small (opening 0 (op1 tru (op1 bit (at_most x y)))) ≡ yields (opposite (op1 tru (op1 bit (at_most x y))) ∷ at_most x y ∷ []) }
    ensures bit_second { judge small (opening 1 (op1 tru (op1 bit (at_most x y)))) ≡ yields (op1 tru (op1 bit (at_most x y)) ∷ opposite (at_most x y) ∷ []) }
    ensures bit_no_more { judge small (opening 2 (op1 tru (op1 bit (at_most x y)))) ≡ refused }
    ensures no_bit { judge small (opening 0 set) ≡ refused }
    ensures chosen { judge small (choice 0 (op3 ite set x y)) ≡ yields (opposite set ∷ equal (op3 ite set x y) x ∷ []) }
    ensures otherwise { judge small (choice 1 (op3 ite set x y)) ≡ yields (set ∷ equal (op3 ite set x y) y ∷ []) }
    ensures of_truths { judge small (choice 0 (op3 ite (at_most x y) (sym 2) (op1 bit set))) ≡ yields (opposite (at_most x y) ∷ op2 iff (op1 tru (op3 ite (at_most x y) (sym 2) (op1 bit set))) set ∷ []) }
    ensures no_third { judge small (choice 2 (op3 ite set x y)) ≡ refused }
    ensures no_choice { judge small (choice 0 x) ≡ refused }
    ensures two_kinds { judge small (choice 0 (op3 ite set x (sym 2))) ≡ refused }
{}

/// C3: propagation. The earlier lines are [x <= y], [not x <= y, set], [not set, y <= x] and [set, set].
pub fn worked_propagation()
    ensures forwards { judge small (propagation (at_most y x ∷ []) (1 ∷ 2 ∷ 3 ∷ [])) ≡ yields (at_most y x ∷ []) }
    ensures backwards { judge small (propagation (at_most y x ∷ []) (3 ∷ 2 ∷ 1 ∷ [])) ≡ yields (at_most y x ∷ []) }
    ensures more_literals { judge small (propagation (set ∷ equal x y ∷ []) (1 ∷ 2 ∷ [])) ≡ yields (set ∷ equal x y ∷ []) }
    ensures by_negation { judge small (propagation (opposite (at_most x y) ∷ set ∷ []) (2 ∷ [])) ≡ yields (opposite (at_most x y) ∷ set ∷ []) }
    ensures false_clause_before_the_end { judge small (propagation (set ∷ []) (4 ∷ 4 ∷ [])) ≡ yields (set ∷ []) }
    ensures too_few { judge small (propagation (at_most y x ∷ []) (1 ∷ 2 ∷ [])) ≡ refused }
    ensures two_open { judge small (propagation (at_most y x ∷ []) (2 ∷ 1 ∷ 3 ∷ [])) ≡ refused }
    ensures twice_one { judge small (propagation (at_most y x ∷ []) (4 ∷ 3 ∷ [])) ≡ refused }
    ensures no_hint { judge small (propagation (at_most x y ∷ []) []) ≡ refused }
    ensures no_line_0 { judge small (propagation (set ∷ []) (0 ∷ 4 ∷ [])) ≡ refused }
    ensures no_line_5 { judge small (propagation (set ∷ []) (5 ∷ 4 ∷ [])) ≡ refused }
    ensures no_formula { judge small (propagation (x ∷ set ∷ []) (4 ∷ [])) ≡ refused }
{}

/// C4: sums of forms.
pub fn worked_sums()
    ensures one_sum { judge small (linear (opposite (at_most x y) ∷ at_most x (plus y (number 1)) ∷ []) (sum_of 0 (pos 1) 1 (pos 1) ∷ [])) ≡ yields (opposite (at_most x y) ∷ at_most x (plus y (number 1)) ∷ []) }
    ensures with_factors { judge small (linear (opposite (at_most (product_of (number 2) x) y) ∷ opposite (at_most y x) ∷ opposite (at_most (number 1) x) ∷ []) (sum_of 0 (pos 1) 1 (pos 1) ∷ sum_of 3 (pos 2) 2 (pos 2) ∷ [])) ≡ yields (opposite (at_most (product_of (number 2) x) y) ∷ opposite (at_most y x) ∷ opposite (at_most (number 1) x) ∷ []) }
    ensures tightened { judge small (linear (opposite (equal (product_of (number 2) x) (number 1)) ∷ []) (tighten 0 ∷ tighten 1 ∷ sum_of 2 (pos 1) 3 (pos 1) ∷ [])) ≡ yields (opposite (equal (product_of (number 2) x) (number 1)) ∷ []) }
    ensures not_tightened { judge small (linear (opposite (equal (product_of (number 2) x) (number 1)) ∷ []) (sum_of 0 (pos 1) 1 (pos 1) ∷ [])) ≡ refused }
    ensures truth_literal { judge small (linear (set ∷ at_most (number 1) (number 2) ∷ []) []) ≡ refused }
    ensures a_constant { judge small (linear (opposite (at_most x y) ∷ at_most (number 1) (number 2) ∷ []) []) ≡ yields (opposite (at_most x y) ∷ at_most (number 1) (number 2) ∷ []) }
    ensures no_constant { judge small (linear (at_most x y ∷ []) []) ≡ refused }
    ensures just_0 { judge small (linear (opposite (at_most x y) ∷ opposite (at_most y x) ∷ []) (sum_of 0 (pos 1) 1 (pos 1) ∷ [])) ≡ refused }
    ensures not_the_last { judge small (linear (opposite (at_most x y) ∷ at_most (number 1) (number 2) ∷ []) (tighten 1 ∷ tighten 0 ∷ [])) ≡ refused }
    ensures factor_0 { judge small (linear (at_most (number 1) (number 2) ∷ []) (sum_of 0 (pos 1) 0 (pos 0) ∷ [])) ≡ refused }
    ensures factor_below_0 { judge small (linear (at_most (number 1) (number 2) ∷ []) (sum_of 0 (negsuc 0) 0 (pos 2) ∷ [])) ≡ refused }
    ensures no_form { judge small (linear (at_most (number 1) (number 2) ∷ []) (tighten 1 ∷ [])) ≡ refused }
    ensures negated_equality { judge small (linear (equal x y ∷ at_most (number 1) (number 2) ∷ []) []) ≡ refused }
    ensures wide_number { judge small (linear (at_most x (num (pos (2 ^ 127))) ∷ at_most (number 1) (number 2) ∷ []) []) ≡ too_wide }
    ensures wide_sum { judge small (linear (at_most (number 1) (number 2) ∷ []) (sum_of 0 (pos (2 ^ 126)) 0 (pos 1) ∷ [])) ≡ too_wide }
{}

/// C5, C13 and C14: numbers, products and computed truth.
pub fn worked_numbers()
    ensures compared { judge small (trichotomy x made) ≡ yields (equal x made ∷ at_most (plus x (number 1)) made ∷ at_most (plus made (number 1)) x ∷ []) }
    ensures compared_numbers { judge small (trichotomy (number 1) (number 2)) ≡ yields (equal (number 1) (number 2) ∷ at_most (plus (number 1) (number 1)) (number 2) ∷ at_most (plus (number 2) (number 1)) (number 1) ∷ []) }
    ensures truth_compared { judge small (trichotomy x (sym 2)) ≡ refused }
    ensures unmade_compared { judge small (trichotomy unmade x) ≡ refused }
    ensures multiplied { judge small (product x y) ≡ yields (opposite (at_most (number 0) x) ∷ opposite (at_most (number 0) y) ∷ at_most (number 0) (product_of x y) ∷ []) }
    ensures multiplied_below_0 { judge small (product (op2 (arith sub) (number 0) x) y) ≡ yields (opposite (at_most (number 0) (op2 (arith sub) (number 0) x)) ∷ opposite (at_most (number 0) y) ∷ at_most (number 0) (product_of (op2 (arith sub) (number 0) x) y) ∷ []) }
    ensures truth_multiplied { judge small (product (sym 2) y) ≡ refused }
    ensures free_multiplied { judge small (product x (bound 0)) ≡ refused }
    ensures computed { judge small (computing (each_digit (at_most (bound 0) (number 9)))) ≡ yields (each_digit (at_most (bound 0) (number 9)) ∷ []) }
    ensures computed_false { judge small (computing (at_most (number 2) (number 1))) ≡ yields (opposite (at_most (number 2) (number 1)) ∷ []) }
    ensures computed_not { judge small (computing (opposite (at_most (number 1) (number 2)))) ≡ yields (at_most (number 1) (number 2) ∷ []) }
    ensures with_a_symbol { judge small (computing (equal x x)) ≡ refused }
    ensures free_variable { judge small (computing (at_most (bound 0) (bound 0))) ≡ refused }
    ensures long_enough { judge small (computing (quant all (number 1) (number 3332) (at_most (bound 0) (bound 0)))) ≡ yields (quant all (number 1) (number 3332) (at_most (bound 0) (bound 0)) ∷ []) }
    ensures too_long { judge small (computing (quant all (number 1) (number 3333) (at_most (bound 0) (bound 0)))) ≡ refused }
    ensures wide { judge small (computing (at_most (plus (num (pos (2 ^ 127 - 1))) (number 1)) (number 0))) ≡ too_wide }
{}

/// C6 and C7: instances of quantifiers, and new symbols.
pub fn worked_quantifiers()
    ensures of_all { judge small (instance y (each_digit (at_most (bound 0) x))) ≡ yields (opposite (each_digit (at_most (bound 0) x)) ∷ opposite (at_most (number 0) y) ∷ opposite (at_most y (number 9)) ∷ at_most y x ∷ []) }
    ensures of_some { judge small (instance (number 3) (some_digit (at_most (bound 0) x))) ≡ yields (some_digit (at_most (bound 0) x) ∷ opposite (at_most (number 0) (number 3)) ∷ opposite (at_most (number 3) (number 9)) ∷ opposite (at_most (number 3) x) ∷ []) }
    ensures below_another { judge small (instance y (each_digit (quant any (number 0) (bound 0) (equal (bound 0) (bound 1))))) ≡ yields (opposite (each_digit (quant any (number 0) (bound 0) (equal (bound 0) (bound 1)))) ∷ opposite (at_most (number 0) y) ∷ opposite (at_most y (number 9)) ∷ quant any (number 0) y (equal (bound 0) y) ∷ []) }
    ensures at_a_truth { judge small (instance (sym 2) (each_digit (at_most (bound 0) x))) ≡ refused }
    ensures at_a_variable { judge small (instance (bound 0) (each_digit (at_most (bound 0) x))) ≡ refused }
    ensures of_no_quantifier { judge small (instance y (opposite (each_digit (at_most (bound 0) x)))) ≡ refused }
    ensures new_of_some { judge small (witness 4 (some_digit (at_most (bound 0) x))) ≡ yields (opposite (some_digit (at_most (bound 0) x)) ∷ op2 conj (at_most (number 0) unmade) (op2 conj (at_most unmade (number 9)) (at_most unmade x)) ∷ []) }
    ensures new_of_all { judge small (witness 4 (each_digit (at_most (bound 0) x))) ≡ yields (each_digit (at_most (bound 0) x) ∷ op2 conj (at_most (number 0) unmade) (op2 conj (at_most unmade (number 9)) (opposite (at_most unmade x))) ∷ []) }
    ensures made_before { judge small (witness 3 (some_digit (at_most (bound 0) x))) ≡ refused }
    ensures too_far { judge small (witness 5 (some_digit (at_most (bound 0) x))) ≡ refused }
    ensures names_itself { judge small (witness 4 (some_digit (at_most (bound 0) unmade))) ≡ refused }
    ensures new_of_no_quantifier { judge small (witness 4 (at_most x y)) ≡ refused }
{}

/// Whole certificates.
pub fn worked_certificates()
    ensures is_accepted { answer_to weaker_goal (given 0 ∷ given 1 ∷ linear (opposite (at_most x y) ∷ at_most x (plus y (number 1)) ∷ []) (sum_of 0 (pos 1) 1 (pos 1) ∷ []) ∷ propagation [] (1 ∷ 2 ∷ 3 ∷ []) ∷ []) ≡ accepted }
    ensures new_symbols { answer_to weaker_goal (witness 2 (some_digit (at_most (bound 0) x)) ∷ witness 3 (each_digit (at_most (bound 0) (sym 2))) ∷ []) ≡ no_end }
    ensures no_line { answer_to weaker_goal [] ≡ no_end }
    ensures empty_but_not_last { answer_to weaker_goal (given 0 ∷ given 1 ∷ linear (opposite (at_most x y) ∷ at_most x (plus y (number 1)) ∷ []) (sum_of 0 (pos 1) 1 (pos 1) ∷ []) ∷ propagation [] (1 ∷ 2 ∷ 3 ∷ []) ∷ given 0 ∷ []) ≡ no_end }
    ensures second_line { answer_to weaker_goal (given 0 ∷ given 2 ∷ given 1 ∷ []) ≡ not_allowed 2 c1 }
    ensures later_line { answer_to weaker_goal (propagation [] (2 ∷ []) ∷ given 0 ∷ []) ≡ not_allowed 1 c3 }
    ensures new_symbol_twice { answer_to weaker_goal (witness 2 (some_digit (at_most (bound 0) x)) ∷ witness 2 (some_digit (at_most (bound 0) x)) ∷ []) ≡ not_allowed 2 c7 }
    ensures three_lines { answer_to equal_goal (given 2 ∷ given 3 ∷ propagation [] (1 ∷ 2 ∷ []) ∷ []) ≡ accepted }
    ensures no_hypothesis_4 { answer_to equal_goal (given 4 ∷ given 3 ∷ propagation [] (1 ∷ 2 ∷ []) ∷ []) ≡ not_allowed 1 c1 }
    ensures hint_1_alone { answer_to equal_goal (given 2 ∷ given 3 ∷ propagation [] (1 ∷ []) ∷ []) ≡ not_allowed 3 c3 }
    ensures hint_4 { answer_to equal_goal (given 2 ∷ given 3 ∷ propagation [] (1 ∷ 4 ∷ []) ∷ []) ≡ not_allowed 3 c3 }
    ensures two_lines { answer_to equal_goal (given 2 ∷ given 3 ∷ []) ≡ no_end }
    ensures symbol_of_the_goal { answer_to equal_goal (witness 1 (some_digit (at_most (bound 0) x)) ∷ []) ≡ not_allowed 1 c7 }
    ensures wide_factor { answer_to equal_goal (linear (opposite (at_most (product_of (number 2) x) (number 0)) ∷ []) (sum_of 0 (pos (2 ^ 127 - 1)) 0 (pos 1) ∷ []) ∷ []) ≡ leaves_range 1 }
    ensures wide_line { answer_to weaker_goal (given 0 ∷ computing (at_most (num (pos (2 ^ 127))) (number 0)) ∷ []) ≡ leaves_range 2 }
{}
