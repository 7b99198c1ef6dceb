//! Worked cases of the rules, in the world of `typing_rules`' samples: a byte says where an identifier stands and what it is, 100 times
//! its place and the number of its name. 0 is `Boolean`, 1 `False`, 2 `True`, 3 `Integer`, 5 `Positive`; 60 X : Integer; 61 N : in Natural;
//! 62 D : Boolean; 63 A : Arr (1 .. 3); 67 E : Color; 68 K : constant Integer := 5; 69 Ten : constant := 10; 70 Red and 71 Blue, the first and
//! the last of Color's three; 74 Arr, an array type without bounds, of index Positive; 78 procedure G (Q : in out Natural; P : Integer);
//! 80 V : T, of range 1 .. 10; 83 a package's variable of Integer; 81 a name whose declaration is refused; 86 a loop's parameter; 87 O : Natural; 88 Y : Arr (1 .. 5); 32
//! `Assert`, 34 `Loop_Invariant`, 35 `Loop_Variant`, 36 `Pre`, 38 `Global`, 50 `Check`, 52 `Decreases`, 55 `In_Out`.

ghost use Rattle.std.specs.Prelude.{◌≡◌, Some, None, List, [], ◌∷◌, true, false};
ghost use Rattle.ada_syntax.specs.declared.declarations.Mode.TheVariants as mode;
ghost use Rattle.front_codes.specs.declared.codes.Code.TheVariants as rule;
ghost use Rattle.syntax_view.specs.Trees as tree;
ghost use Rattle.typing_rules.specs.Cases.{arg, args, call, id, name_tree, num, span, with_choice};
ghost use Rattle.statement_typing.specs.Cases.{alone, an_object, array_over, aspect, assign, body_breaks, bounds, breaks, between, case_on, choice, choice_range, component, declared, function_breaks, if_else, if_then, indexed, item, local_breaks, loop, loop_over, mark, named_number, open_array, package_breaks, param, pragma_at, procedure, ranged, refusal, return_value, skip, stmt, subtype_of, type_of, when, with_body};

/// Bounds are static, in order and in their parent; base ranges fit 64 bits; moduli are 2 to 2**32. -- L20
pub fn bounds_and_moduli()
    ensures descending { local_breaks (subtype_of 190 (ranged 203 (num 300 5) (num 400 1))) ≡ refusal rule.L20 400 }
    ensures ascending { local_breaks (subtype_of 190 (ranged 203 (num 300 1) (num 400 5))) ≡ [] }
    ensures outside_parent { local_breaks (subtype_of 190 (ranged 205 (num 300 0) (num 400 5))) ≡ refusal rule.L20 300 }
    ensures not_static { local_breaks (subtype_of 190 (ranged 203 (num 300 1) (id 460))) ≡ refusal rule.L20 460 }
    ensures of_a_constant { local_breaks (subtype_of 190 (ranged 203 (num 300 1) (id 468))) ≡ [] }
    ensures past_64_bits { local_breaks (type_of 190 (tree.signed (bounds (num 300 0) (num 400 9223372036854775808)))) ≡ refusal rule.L20 400 }
    ensures in_64_bits { local_breaks (type_of 190 (tree.signed (bounds (num 300 0) (num 400 9223372036854775807)))) ≡ [] }
    ensures modulus_of_one { local_breaks (type_of 190 (tree.modular (num 300 1))) ≡ refusal rule.L20 300 }
    ensures modulus { local_breaks (type_of 190 (tree.modular (num 300 256))) ≡ [] }
    ensures of_truth { local_breaks (subtype_of 190 (ranged 200 (id 301) (id 402))) ≡ refusal rule.L20 301 }
    ensures of_literals { local_breaks (subtype_of 190 (ranged 273 (id 370) (id 471))) ≡ [] }
    ensures derived { local_breaks (type_of 190 (tree.derived (mark 203))) ≡ [] }
    ensures derived_from_literals { local_breaks (type_of 190 (tree.derived (mark 273))) ≡ [] }
    ensures derived_from_truth { local_breaks (type_of 190 (tree.derived (mark 200))) ≡ refusal rule.L20 200 }
{}

/// Targets are variables, and values have their types. -- L8
pub fn assignments()
    ensures to_a_variable { breaks (assign 160 (num 200 2)) ≡ [] }
    ensures to_a_constant { breaks (assign 168 (num 200 2)) ≡ refusal rule.L8 168 }
    ensures to_a_parameter { breaks (assign 161 (num 200 2)) ≡ refusal rule.L8 161 }
    ensures to_a_loop_parameter { breaks (assign 186 (num 200 2)) ≡ refusal rule.L8 186 }
    ensures of_another_type { breaks (assign 160 (id 262)) ≡ refusal rule.L8 262 }
    ensures to_what_is_refused { breaks (assign 181 (id 262)) ≡ [] }
    ensures initial_value { local_breaks (an_object 190 false (mark 203) (Some (id 302))) ≡ refusal rule.L8 302 }
    ensures other_initial_value { local_breaks (an_object 190 false (mark 203) (Some (id 360))) ≡ [] }
{}

/// Conditions, and the arguments of assertions, are Boolean, one each. -- L9
pub fn conditions()
    ensures nothing_asserted { breaks (pragma_at 500 532 tree.no_args tree.no_stmts) ≡ refusal rule.L9 500 }
    ensures of_a_number { breaks (if_then 500 (num 160 1) (skip 600) tree.no_stmts) ≡ refusal rule.L9 160 }
    ensures asserted_number { breaks (pragma_at 500 532 (args (arg 160 (num 160 1) ∷ [])) tree.no_stmts) ≡ refusal rule.L9 160 }
{}

/// A statement that is a name calls a procedure. -- L10, L12
pub fn calls()
    ensures of_an_object { breaks (alone 160 (tree.call (name_tree 160 []))) ≡ refusal rule.L12 160 }
    ensures of_a_procedure { breaks (alone 178 (tree.call (name_tree 178 (call (arg 287 (id 287) ∷ arg 360 (id 360) ∷ []) ∷ [])))) ≡ [] }
{}

/// A function returns a value of its type at each end, and a procedure none. -- L13
pub fn returns()
    ensures a_value { function_breaks (return_value 500 (num 600 1)) ≡ [] }
    ensures no_value { function_breaks (alone 500 (tree.return None)) ≡ refusal rule.L13 500 }
    ensures another_type { function_breaks (return_value 500 (id 662)) ≡ refusal rule.L13 662 }
    ensures of_a_procedure { breaks (return_value 500 (num 600 1)) ≡ refusal rule.L13 600 }
    ensures no_end { body_breaks (skip 500) ≡ refusal rule.L13 500 }
    ensures by_a_loop { body_breaks (loop 500 tree.forever (skip 600)) ≡ [] }
    ensures by_a_loop_with_exit { body_breaks (loop 500 tree.forever (alone 600 (tree.exit None))) ≡ refusal rule.L13 500 }
    ensures by_a_loop_in_a_loop { body_breaks (loop 500 tree.forever (loop 600 tree.forever (alone 700 (tree.exit None)))) ≡ [] }
{}

/// A loop goes over an integer or enumeration range, and `exit` stands inside one. -- L22, L24
pub fn loops()
    ensures over_numbers { breaks (loop_over 500 190 (between (num 300 1) (num 400 5)) (skip 600)) ≡ [] }
    ensures over_a_subtype { breaks (loop_over 500 190 (tree.range (id 305) tree.no_expr) (skip 600)) ≡ [] }
    ensures over_an_object { breaks (loop_over 500 190 (tree.range (id 360) tree.no_expr) (skip 600)) ≡ refusal rule.L22 360 }
    ensures exit_outside { breaks (alone 500 (tree.exit None)) ≡ refusal rule.L24 500 }
    ensures exit_inside { breaks (loop 500 tree.forever (alone 600 (tree.exit None))) ≡ [] }
{}

/// A `case` selector is of an integer or enumeration type. -- L21
pub fn selectors()
    ensures of_a_number { breaks (case_on 500 (num 100 5) (when tree.other_values tree.no_alternatives)) ≡ refusal rule.L21 100 }
{}

/// A variant stands in the loop's own list, one in a loop. -- L25
pub fn groups()
    ensures outside { breaks (pragma_at 500 535 (args (with_choice 652 (id 652) (num 660 1) ∷ [])) tree.no_stmts) ≡ refusal rule.L25 500 }
    ensures inside { breaks (loop 500 tree.forever (pragma_at 600 635 (args (with_choice 652 (id 652) (num 660 1) ∷ [])) (skip 800))) ≡ [] }
    ensures two_groups { breaks (loop 500 tree.forever (pragma_at 600 635 (args (with_choice 652 (id 652) (num 660 1) ∷ [])) (stmt 700 tree.skip (pragma_at 800 835 (args (with_choice 852 (id 852) (num 860 1) ∷ [])) tree.no_stmts)))) ≡ refusal rule.L25 800 }
    ensures two_variants { breaks (loop 500 tree.forever (pragma_at 600 635 (args (with_choice 652 (id 652) (num 660 1) ∷ [])) (pragma_at 700 735 (args (with_choice 752 (id 752) (num 760 1) ∷ [])) tree.no_stmts))) ≡ refusal rule.L25 700 }
    ensures another_choice { breaks (loop 500 tree.forever (pragma_at 600 635 (args (with_choice 650 (id 650) (num 660 1) ∷ [])) tree.no_stmts)) ≡ refusal rule.L25 650 }
{}

/// Parts and objects have constrained subtypes, constants values; initial values at package level are static. -- L20, L26, L27
pub fn constrained_subtypes()
    ensures of_an_item { local_breaks (type_of 190 (array_over (num 300 1) (num 400 5) (mark 574))) ≡ refusal rule.L26 574 }
    ensures constrained_item { local_breaks (type_of 190 (array_over (num 300 1) (num 400 5) (mark 503))) ≡ [] }
    ensures of_a_component { local_breaks (type_of 190 (tree.record_of (component 291 (mark 574) ∷ []))) ≡ refusal rule.L26 574 }
    ensures constrained_component { local_breaks (type_of 190 (tree.record_of (component 291 (indexed 574 (num 600 1) (num 700 5)) ∷ []))) ≡ [] }
    ensures of_an_object { local_breaks (an_object 190 false (mark 574) None) ≡ refusal rule.L27 190 }
    ensures constrained_object { local_breaks (an_object 190 false (indexed 574 (num 600 1) (num 700 5)) None) ≡ [] }
    ensures outside_the_index { local_breaks (an_object 190 false (indexed 574 (num 600 0) (num 700 5)) None) ≡ refusal rule.L20 600 }
    ensures without_indexes { local_breaks (an_object 190 false (indexed 574 (num 600 1) (num 700 0)) None) ≡ [] }
    ensures constant_without_value { local_breaks (an_object 190 true (mark 203) None) ≡ refusal rule.L27 190 }
    ensures no_subtype { local_breaks (an_object 190 false (mark 260) None) ≡ refusal rule.L27 260 }
    ensures outside_the_subtype { package_breaks (an_object 190 false (mark 205) (Some (num 300 0))) ≡ refusal rule.L27 300 }
    ensures named_numbers { package_breaks (named_number 190 (id 368)) ≡ [] }
    ensures out_parameter { package_breaks (declared (procedure 190 (param 291 mode.Out (mark 374) ∷ []) [])) ≡ refusal rule.L27 291 }
    ensures in_parameter { package_breaks (declared (procedure 190 (param 291 mode.In (mark 374) ∷ []) [])) ≡ [] }
{}

/// Aspects stand on the first declaration, each once, and contracts are Boolean; `Global` names globals, each once. -- L28, L30
pub fn aspects()
    ensures of_a_number { package_breaks (declared (procedure 190 [] (aspect 236 (item 300 (id 369)) ∷ []))) ≡ refusal rule.L28 300 }
    ensures without_one { package_breaks (with_body (procedure 178 [] []) (skip 500)) ≡ [] }
    ensures global_of_a_local { package_breaks (declared (procedure 190 [] (aspect 238 (item 360 (id 360)) ∷ []))) ≡ refusal rule.L30 360 }
    ensures global_of_a_variable { package_breaks (declared (procedure 190 [] (aspect 238 (item 383 (id 383)) ∷ []))) ≡ [] }
    ensures global_twice { package_breaks (declared (procedure 190 [] (aspect 238 (item 300 (tree.at (span 300) (tree.group (args (arg 383 (id 383) ∷ arg 483 (id 483) ∷ []))))) ∷ []))) ≡ refusal rule.L30 483 }
    ensures global_by_mode { package_breaks (declared (procedure 190 [] (aspect 238 (item 300 (tree.at (span 300) (tree.group (args (with_choice 355 (id 355) (id 383) ∷ []))))) ∷ []))) ≡ [] }
    ensures global_of_nothing { package_breaks (declared (procedure 190 [] (aspect 238 (item 300 (tree.at (span 300) tree.null)) ∷ []))) ≡ [] }
    ensures twice { package_breaks (declared (procedure 190 [] (aspect 238 (item 300 (tree.at (span 300) tree.null)) ∷ aspect 438 (item 500 (tree.at (span 500) tree.null)) ∷ []))) ≡ refusal rule.L28 438 }
    ensures on_a_second_declaration { package_breaks (with_body (procedure 178 [] (aspect 238 (item 300 (tree.at (span 300) tree.null)) ∷ [])) (skip 500)) ≡ refusal rule.L28 238 }
{}
