//! Worked cases. `Cases.antt` has the world of them: what the numbers of names stand for.

ghost use Rattle.std.specs.Prelude.{◌≡◌, List, [], ◌∷◌, Option, Some, None, pos, true, false};
ghost use Rattle.ada_syntax.specs.declared.expressions.BinaryOperator.TheVariants as binary';
ghost use Rattle.ada_syntax.specs.declared.expressions.UnaryOperator.TheVariants as unary';
ghost use Rattle.ada_values.specs.declared.scalars.Op.TheVariants as op;
ghost use Rattle.front_codes.specs.declared.codes.Code.TheVariants as code;
ghost use Rattle.typed_units.specs.declared.expressions.Actual.TheVariants as actual;
ghost use Rattle.typed_units.specs.declared.expressions.ExprNode.TheVariants as node;
ghost use Rattle.typed_units.specs.declared.operators.Composite.TheVariants as composite;
ghost use Rattle.typed_units.specs.declared.operators.Connective.TheVariants as connective;
ghost use Rattle.typed_units.specs.declared.operators.Object.TheVariants as object;
ghost use Rattle.typed_units.specs.declared.operators.Quantifier.TheVariants as quantifier;
ghost use Rattle.typed_units.specs.declared.operators.Relation.TheVariants as relation;
ghost use Rattle.type_base.specs.declared.seen.Seen.TheVariants as seen';
ghost use Rattle.type_base.specs.declared.seen.Want.TheVariants as want;
ghost use Rattle.typing_rules.specs.declared.prefix.Found.TheVariants as found;
ghost use Rattle.typing_rules.specs.Reading.{call_seen, faults, seen};
ghost use Rattle.typing_rules.specs.Cases.{arg, args, assoc, binary, bounds, call, counted, dot, ex, for_all, from_to, group, id, if_alone, if_else, in_group, in_loop, int, lone, member, name, name_tree, natural_bounds, num, obj, place, post, qualified, refusal, refused_call, refuses, rest, scope, seen_at, static, static_truth, tick, tick_range, truth_at, unary, with_choice, with_others, with_range};

/// Operands of arithmetic operators, and universal numbers (Ada RM 4.5.3, 4.9). -- L1, L29, TooWide
#[tactic(auto, unfolding(name_numbers::specs::Numbers::word_of))]
pub fn arithmetic()
    ensures numbers { seen scope want.Free (binary 1 2 binary'.Add (num 1 3) (num 3 4)) ≡ seen'.Number (pos 7) }
    ensures number_takes_the_type { seen scope want.Free (binary 160 2 binary'.Add (id 160) (num 300 4)) ≡ seen_at 1 160 1 (node.Binary (place 2) op.Add (obj 160 2 0) (int 300 1 4)) }
    ensures static_constant { seen scope want.Free (binary 168 2 binary'.Add (id 168) (num 300 3)) ≡ seen_at 1 168 1 (static 8) }
    ensures named_number { seen scope want.Free (binary 166 2 binary'.Add (id 166) (id 369)) ≡ seen_at 7 166 7 (node.Binary (place 2) op.Add (obj 166 8 4) (int 369 7 10)) }
    ensures other_type { seen scope want.Free (binary 160 2 binary'.Add (id 160) (id 366)) ≡ refuses code.L1 366 }
    ensures no_integer { seen scope want.Free (binary 160 2 binary'.Add (id 160) (id 362)) ≡ refuses code.L1 362 }
    ensures too_great_for_the_type { seen scope want.Free (binary 166 2 binary'.Add (id 166) (num 300 300)) ≡ refuses code.L29 300 }
    ensures zero_divisor { seen scope want.Free (binary 168 2 binary'.Divide (id 168) (num 300 0)) ≡ refuses code.L29 300 }
    ensures too_wide { seen scope want.Free (binary 1 2 binary'.Add (num 1 170141183460469231731687303715884105727) (num 3 1)) ≡ refuses code.TooWide 1 }
    ensures refused_declaration { seen scope want.Free (binary 181 2 binary'.Add (id 181) (id 360)) ≡ seen'.Unknown }
    ensures refused_beside_it { seen scope want.Free (binary 181 2 binary'.Add (id 181) (id 362)) ≡ refuses code.L1 362 }
{}

/// Powers, signs and logical operators (Ada RM 4.5). -- L2, L3, L4
#[tactic(auto, unfolding(name_numbers::specs::Numbers::word_of))]
pub fn other_operators()
    ensures power { seen scope want.Free (binary 160 2 binary'.Power (id 160) (num 300 2)) ≡ seen_at 1 160 1 (node.Binary (place 2) op.Pow (obj 160 2 0) (int 300 1 2)) }
    ensures exponent { seen scope want.Free (binary 160 2 binary'.Power (id 160) (id 366)) ≡ refuses code.L2 366 }
    ensures minus { seen scope want.Free (unary 100 unary'.Minus (id 160)) ≡ seen_at 1 100 1 (node.Unary (place 100) op.Neg (obj 160 2 0)) }
    ensures minus_of_truth { seen scope want.Free (unary 100 unary'.Minus (id 162)) ≡ refuses code.L3 162 }
    ensures both { seen scope want.Free (binary 162 2 binary'.And (id 162) (id 362)) ≡ truth_at 162 (node.Connect connective.And (obj 162 0 1) (obj 362 0 1)) }
    ensures and_of_number { seen scope want.Free (binary 162 2 binary'.And (id 162) (id 360)) ≡ refuses code.L4 360 }
{}

/// Comparisons and membership tests (Ada RM 4.5.2). -- L5, L6, L7
#[tactic(auto, unfolding(name_numbers::specs::Numbers::word_of))]
pub fn comparisons()
    ensures arrays { seen scope want.Free (binary 163 2 binary'.Equal (id 163) (id 363)) ≡ truth_at 163 (node.Compare relation.Equal (obj 163 12 2) (obj 363 12 2)) }
    ensures other_bounds { seen scope want.Free (binary 163 2 binary'.Equal (id 163) (id 388)) ≡ refuses code.L5 388 }
    ensures unconstrained { seen scope want.Free (binary 164 2 binary'.Equal (id 164) (id 363)) ≡ refuses code.L5 164 }
    ensures order { seen scope want.Free (binary 167 2 binary'.Less (id 167) (id 370)) ≡ truth_at 167 (node.Compare relation.Less (obj 167 9 5) (int 370 9 0)) }
    ensures order_of_truth { seen scope want.Free (binary 162 2 binary'.Less (id 162) (id 362)) ≡ refuses code.L6 162 }
    ensures within_bounds { seen scope want.Free (member 160 (id 160) (bounds (num 300 1) (num 400 9))) ≡ truth_at 160 (node.Member true (obj 160 2 0) (int 300 1 1) (int 400 1 9)) }
    ensures within_subtype { seen scope want.Free (member 180 (id 180) (lone (id 376))) ≡ truth_at 180 (node.Member true (obj 180 16 6) (int 376 16 1) (int 376 16 10)) }
    ensures within_range { seen scope want.Free (member 160 (id 160) (lone (name 363 (tick_range 365 ∷ [])))) ≡ truth_at 160 (node.Member true (obj 160 2 0) (int 363 1 1) (int 363 1 3)) }
    ensures other_subtype { seen scope want.Free (member 160 (id 160) (lone (id 376))) ≡ refuses code.L7 376 }
    ensures of_truth { seen scope want.Free (member 162 (id 162) (bounds (num 300 1) (num 400 9))) ≡ refuses code.L7 162 }
    ensures no_range { seen scope want.Free (member 160 (id 160) (lone (id 360))) ≡ refuses code.L7 360 }
{}

/// Calls (Ada RM 6.4). -- L10, L11, L12
#[tactic(auto, unfolding(name_numbers::specs::Numbers::word_of))]
pub fn calls()
    ensures function { seen scope want.Free (name 177 (call (arg 360 (id 360) ∷ []) ∷ [])) ≡ seen_at 1 177 2 (node.Call (place 177) 0 (record { formal = 0; value = actual.In (record { bounds = Some natural_bounds; value = obj 360 2 0 }) } ∷ [])) }
    ensures named_argument { seen scope want.Free (name 177 (call (with_choice 392 (id 392) (num 500 7) ∷ []) ∷ [])) ≡ seen_at 1 177 2 (node.Call (place 177) 0 (record { formal = 0; value = actual.In (record { bounds = None; value = int 500 1 7 }) } ∷ [])) }
    ensures no_arguments { seen scope want.Free (id 177) ≡ refuses code.L10 177 }
    ensures too_many { seen scope want.Free (name 177 (call (arg 360 (id 360) ∷ arg 460 (id 460) ∷ []) ∷ [])) ≡ refuses code.L10 460 }
    ensures no_such_formal { seen scope want.Free (name 177 (call (with_choice 393 (id 393) (num 500 7) ∷ []) ∷ [])) ≡ refuses code.L10 393 }
    ensures other_type { seen scope want.Free (name 177 (call (arg 362 (id 362) ∷ []) ∷ [])) ≡ refuses code.L11 362 }
    ensures procedure_as_value { seen scope want.Free (name 178 (call (arg 387 (id 387) ∷ arg 400 (num 400 1) ∷ []) ∷ [])) ≡ refuses code.L12 178 }
    ensures subtype_as_value { seen scope want.Free (id 176) ≡ refuses code.L12 176 }
    ensures function_without_formals { seen scope want.Free (id 184) ≡ seen_at 11 184 12 (node.Call (place 184) 2 []) }
    ensures item_of_its_value { seen scope want.Free (name 184 (call (arg 300 (num 300 2) ∷ []) ∷ [])) ≡ seen_at 1 184 2 (node.Item (ex 184 12 (node.Call (place 184) 2 [])) (record { checked = false; value = int 300 1 2 })) }
    ensures procedure { call_seen scope (name_tree 178 (call (arg 387 (id 387) ∷ arg 400 (num 400 1) ∷ []) ∷ [])) ≡ found.Is (record { routine = 1; arguments = record { formal = 0; value = actual.InOut (record { place = place 387; object = object.Local 8; path = [] }) None None } ∷ record { formal = 1; value = actual.In (record { bounds = None; value = int 400 1 1 }) } ∷ [] }) }
    ensures checked_on_the_way_in { call_seen scope (name_tree 178 (call (arg 360 (id 360) ∷ arg 400 (num 400 1) ∷ []) ∷ [])) ≡ found.Is (record { routine = 1; arguments = record { formal = 0; value = actual.InOut (record { place = place 360; object = object.Local 0; path = [] }) (Some natural_bounds) None } ∷ record { formal = 1; value = actual.In (record { bounds = None; value = int 400 1 1 }) } ∷ [] }) }
    ensures no_variable { call_seen scope (name_tree 178 (call (arg 361 (id 361) ∷ arg 400 (num 400 1) ∷ []) ∷ [])) ≡ refused_call code.L11 361 }
    ensures function_as_statement { call_seen scope (name_tree 177 (call (arg 360 (id 360) ∷ []) ∷ [])) ≡ refused_call code.L12 177 }
{}

/// Components, items and conversions (Ada RM 4.1, 4.6, 4.7). -- L14, L15, L18, L29
#[tactic(auto, unfolding(name_numbers::specs::Numbers::word_of))]
pub fn names()
    ensures component { seen scope want.Free (name 165 (dot 290 ∷ [])) ≡ seen_at 1 165 2 (node.Component (obj 165 14 3) 0) }
    ensures no_record { seen scope want.Free (name 160 (dot 290 ∷ [])) ≡ refuses code.L15 160 }
    ensures no_component { seen scope want.Free (name 165 (dot 292 ∷ [])) ≡ refuses code.L15 165 }
    ensures item { seen scope want.Free (name 163 (call (arg 300 (num 300 2) ∷ []) ∷ [])) ≡ seen_at 1 163 2 (node.Item (obj 163 12 2) (record { checked = false; value = int 300 1 2 })) }
    ensures item_of_component { seen scope want.Free (name 165 (dot 291 ∷ call (arg 360 (id 360) ∷ []) ∷ [])) ≡ seen_at 1 165 2 (node.Item (ex 165 12 (node.Component (obj 165 14 3) 1)) (record { checked = true; value = obj 360 2 0 })) }
    ensures no_array { seen scope want.Free (name 160 (call (arg 300 (num 300 2) ∷ []) ∷ [])) ≡ refuses code.L14 160 }
    ensures other_index { seen scope want.Free (name 163 (call (arg 362 (id 362) ∷ []) ∷ [])) ≡ refuses code.L14 362 }
    ensures two_indexes { seen scope want.Free (name 163 (call (arg 300 (num 300 2) ∷ arg 400 (num 400 2) ∷ []) ∷ [])) ≡ refuses code.L14 400 }
    ensures conversion { seen scope want.Free (name 176 (call (arg 360 (id 360) ∷ []) ∷ [])) ≡ seen_at 15 176 16 (node.Convert (Some (record { first = pos 1; last = pos 10 })) (obj 360 2 0)) }
    ensures static_conversion { seen scope want.Free (name 176 (call (arg 300 (num 300 5) ∷ []) ∷ [])) ≡ seen_at 15 176 16 (static 5) }
    ensures outside_the_subtype { seen scope want.Free (name 176 (call (arg 300 (num 300 11) ∷ []) ∷ [])) ≡ seen_at 15 176 16 (node.Convert (Some (record { first = pos 1; last = pos 10 })) (int 300 15 11)) }
    ensures outside_the_base_range { seen scope want.Free (name 176 (call (arg 300 (num 300 200) ∷ []) ∷ [])) ≡ refuses code.L29 176 }
    ensures conversion_of_truth { seen scope want.Free (name 176 (call (arg 362 (id 362) ∷ []) ∷ [])) ≡ refuses code.L18 362 }
    ensures qualification { seen scope want.Free (name 176 (qualified 200 (arg 380 (id 380) ∷ []) ∷ [])) ≡ seen_at 15 176 16 (node.Convert None (obj 380 16 6)) }
    ensures qualification_of_other_type { seen scope want.Free (name 176 (qualified 200 (arg 360 (id 360) ∷ []) ∷ [])) ≡ refuses code.L18 360 }
{}

/// Attributes (Ada RM 3.5, 3.6.2, 6.1.1). -- L19
#[tactic(auto, unfolding(name_numbers::specs::Numbers::word_of))]
pub fn attributes()
    ensures first_of_array { seen scope want.Free (name 163 (tick 200 239 ∷ [])) ≡ seen_at 1 163 1 (static 1) }
    ensures first_of_parameter { seen scope want.Free (name 164 (tick 200 239 ∷ [])) ≡ seen_at 1 164 1 (node.First (ex 164 11 (node.Read (place 164) (object.Param 1)))) }
    ensures first_of_component { seen scope want.Free (name 165 (dot 291 ∷ tick 200 239 ∷ [])) ≡ seen_at 1 165 1 (node.Same (int 165 1 1)) }
    ensures last_of_subtype { seen scope want.Free (name 176 (tick 200 240 ∷ [])) ≡ seen_at 15 176 16 (static 10) }
    ensures first_of_number { seen scope want.Free (name 160 (tick 200 239 ∷ [])) ≡ refuses code.L19 160 }
    ensures static_length { seen scope want.Free (name 163 (tick 200 241 ∷ [])) ≡ seen'.Number (pos 3) }
    ensures length_of_context { seen scope (want.Subtype 6) (binary 164 300 binary'.Add (name 164 (tick 200 241 ∷ [])) (num 400 1)) ≡ seen_at 5 164 5 (node.Binary (place 300) op.Add (ex 164 5 (node.Length (place 200) (ex 164 11 (node.Read (place 164) (object.Param 1))))) (int 400 5 1)) }
    ensures length_beside { seen scope want.Free (binary 164 300 binary'.Equal (name 164 (tick 200 241 ∷ [])) (id 482)) ≡ truth_at 164 (node.Compare relation.Equal (ex 164 5 (node.Length (place 200) (ex 164 11 (node.Read (place 164) (object.Param 1))))) (obj 482 6 7)) }
    ensures length_alone { seen scope want.Free (name 164 (tick 200 241 ∷ [])) ≡ seen_at 1 164 1 (node.Length (place 200) (ex 164 11 (node.Read (place 164) (object.Param 1)))) }
    ensures successor { seen scope want.Free (name 173 (tick 200 242 ∷ call (arg 367 (id 367) ∷ []) ∷ [])) ≡ seen_at 9 173 9 (node.Succ (place 200) (obj 367 9 5)) }
    ensures successor_of_last { seen scope want.Free (name 173 (tick 200 242 ∷ call (arg 371 (id 371) ∷ []) ∷ [])) ≡ refuses code.L29 173 }
    ensures successor_of_modular { seen scope want.Free (name 172 (tick 200 242 ∷ call (arg 366 (id 366) ∷ []) ∷ [])) ≡ refuses code.L19 172 }
    ensures position { seen scope want.Free (name 173 (tick 200 244 ∷ call (arg 367 (id 367) ∷ []) ∷ [])) ≡ seen_at 1 173 1 (node.Same (obj 367 9 5)) }
    ensures literal_at { seen scope want.Free (name 173 (tick 200 245 ∷ call (arg 300 (num 300 2) ∷ []) ∷ [])) ≡ seen_at 9 173 9 (static 2) }
    ensures old { seen post want.Free (name 161 (tick 200 246 ∷ [])) ≡ seen_at 1 161 3 (node.Old (place 161) (object.Param 0)) }
    ensures old_elsewhere { seen scope want.Free (name 161 (tick 200 246 ∷ [])) ≡ refuses code.L19 161 }
    ensures old_of_part { seen post want.Free (name 163 (call (arg 300 (num 300 2) ∷ []) ∷ tick 200 246 ∷ [])) ≡ refuses code.L19 163 }
    ensures result { seen post want.Free (name 177 (tick 200 247 ∷ [])) ≡ seen_at 1 177 2 (node.Result (place 177)) }
    ensures result_of_another { seen post want.Free (name 184 (tick 200 247 ∷ [])) ≡ refuses code.L19 184 }
    ensures loop_entry { seen in_loop want.Free (name 160 (tick 200 248 ∷ [])) ≡ seen_at 1 160 2 (node.LoopEntry (place 160) 2 (object.Local 0)) }
    ensures entry_of_own_parameter { seen in_loop want.Free (name 186 (tick 200 248 ∷ [])) ≡ refuses code.L19 186 }
{}

/// Aggregates (Ada RM 4.3). -- L16, L17
#[tactic(auto, unfolding(name_numbers::specs::Numbers::word_of))]
pub fn aggregates()
    ensures by_place { seen scope (want.Subtype 12) (group 100 (arg 200 (num 200 7) ∷ arg 300 (num 300 8) ∷ arg 460 (id 460) ∷ [])) ≡ seen_at 11 100 12 (node.Aggregate composite.Array (from_to 1 3) (assoc 1 1 (int 200 1 7) ∷ assoc 2 2 (int 300 1 8) ∷ assoc 3 3 (obj 460 2 0) ∷ [])) }
    ensures by_ranges { seen scope (want.Subtype 12) (group 100 (with_range 200 (num 200 2) (num 250 3) (num 300 8) ∷ with_choice 400 (num 400 1) (num 450 9) ∷ [])) ≡ seen_at 11 100 12 (node.Aggregate composite.Array (from_to 1 3) (assoc 2 3 (int 300 1 8) ∷ assoc 1 1 (int 450 1 9) ∷ [])) }
    ensures others_alone { seen scope (want.Subtype 12) (group 100 (with_others 200 (num 300 8) ∷ [])) ≡ seen_at 11 100 12 (node.Aggregate composite.Array (from_to 1 3) (rest (int 300 1 8) ∷ [])) }
    ensures too_few { seen scope (want.Subtype 12) (group 100 (arg 200 (num 200 7) ∷ arg 300 (num 300 8) ∷ [])) ≡ refuses code.L16 100 }
    ensures too_many { seen scope (want.Subtype 12) (group 100 (arg 200 (num 200 7) ∷ arg 300 (num 300 8) ∷ arg 400 (num 400 8) ∷ arg 500 (num 500 8) ∷ [])) ≡ refuses code.L16 500 }
    ensures twice { seen scope (want.Subtype 12) (group 100 (with_range 200 (num 200 1) (num 250 3) (num 300 8) ∷ with_choice 400 (num 400 1) (num 450 9) ∷ [])) ≡ refuses code.L16 400 }
    ensures not_static { seen scope (want.Subtype 12) (group 100 (with_choice 260 (id 260) (num 300 8) ∷ with_others 400 (num 450 9) ∷ [])) ≡ refuses code.L16 260 }
    ensures empty_range { seen scope (want.Subtype 12) (group 100 (with_range 200 (num 200 1) (num 250 0) (num 300 8) ∷ with_others 400 (num 450 9) ∷ [])) ≡ refuses code.L16 200 }
    ensures both_ways { seen scope (want.Subtype 12) (group 100 (arg 200 (num 200 7) ∷ with_range 300 (num 300 2) (num 350 3) (num 400 8) ∷ [])) ≡ refuses code.L16 300 }
    ensures record_by_names { seen scope (want.Subtype 14) (group 100 (with_choice 290 (id 290) (num 300 8) ∷ with_choice 491 (id 491) (id 563) ∷ [])) ≡ seen_at 14 100 14 (node.Aggregate composite.Record (from_to 0 1) (assoc 0 0 (int 300 1 8) ∷ assoc 1 1 (obj 563 12 2) ∷ [])) }
    ensures record_beside { seen scope want.Free (binary 165 50 binary'.Equal (id 165) (group 100 (arg 200 (num 200 8) ∷ arg 363 (id 363) ∷ []))) ≡ truth_at 165 (node.Compare relation.Equal (obj 165 14 3) (ex 100 14 (node.Aggregate composite.Record (from_to 0 1) (assoc 0 0 (int 200 1 8) ∷ assoc 1 1 (obj 363 12 2) ∷ [])))) }
    ensures missing_component { seen scope (want.Subtype 14) (group 100 (with_choice 290 (id 290) (num 300 8) ∷ [])) ≡ refuses code.L16 100 }
    ensures component_twice { seen scope (want.Subtype 14) (group 100 (with_choice 290 (id 290) (num 300 8) ∷ with_choice 490 (id 490) (num 500 8) ∷ [])) ≡ refuses code.L16 490 }
    ensures value_of_other_bounds { seen scope (want.Subtype 14) (group 100 (arg 200 (num 200 8) ∷ arg 388 (id 388) ∷ [])) ≡ refuses code.L8 388 }
    ensures no_subtype { seen scope want.Free (group 100 (arg 200 (num 200 7) ∷ arg 300 (num 300 8) ∷ [])) ≡ refuses code.L17 100 }
    ensures unconstrained_subtype { seen scope (want.Subtype 11) (group 100 (arg 200 (num 200 7) ∷ arg 300 (num 300 8) ∷ [])) ≡ refuses code.L17 100 }
    ensures parentheses { seen scope want.Free (group 100 (arg 260 (id 260) ∷ [])) ≡ seen_at 1 100 2 (node.Read (place 260) (object.Local 0)) }
{}

/// If-expressions and quantified expressions (Ada RM 4.5.7, 4.5.8). -- L9, L23, L26
#[tactic(auto, unfolding(name_numbers::specs::Numbers::word_of))]
pub fn conditional()
    ensures number_takes_the_type { seen scope want.Free (in_group 100 (if_else (id 262) (num 300 1) (id 460))) ≡ seen_at 1 100 1 (node.If (record { condition = obj 262 0 1; gives = int 300 1 1 } ∷ []) (obj 460 2 0)) }
    ensures of_the_context { seen scope (want.Subtype 6) (in_group 100 (if_else (id 262) (num 300 1) (num 400 2))) ≡ seen_at 5 100 5 (node.If (record { condition = obj 262 0 1; gives = int 300 5 1 } ∷ []) (int 400 5 2)) }
    ensures static_parts { seen scope want.Free (in_group 100 (if_else (id 202) (num 300 1) (num 400 2))) ≡ seen'.Number (pos 1) }
    ensures without_else { seen scope want.Free (in_group 100 (if_alone (id 262) (id 362))) ≡ truth_at 100 (node.If (record { condition = obj 262 0 1; gives = obj 362 0 1 } ∷ []) (ex 100 0 (static_truth true))) }
    ensures other_types { seen scope want.Free (in_group 100 (if_else (id 262) (id 360) (id 462))) ≡ refuses code.L26 462 }
    ensures number_without_else { seen scope want.Free (in_group 100 (if_alone (id 262) (id 360))) ≡ refuses code.L26 360 }
    ensures no_condition { seen scope want.Free (in_group 100 (if_else (id 260) (num 300 1) (num 400 2))) ≡ refuses code.L9 260 }
    ensures quantified { seen scope want.Free (in_group 100 (for_all 83 (lone (name 263 (tick_range 265 ∷ []))) (binary 363 400 binary'.Equal (name 363 (call (arg 383 (id 383) ∷ []) ∷ [])) (id 460)))) ≡ truth_at 100 (node.Quantified quantifier.All (counted 4 1) (int 263 1 1) (int 263 1 3) (ex 363 0 (node.Compare relation.Equal (ex 363 2 (node.Item (obj 363 12 2) (record { checked = true; value = ex 383 1 (node.Read (place 383) (object.Index 4)) }))) (obj 460 2 0)))) }
    ensures over_a_subtype { seen scope want.Free (in_group 100 (for_all 83 (lone (id 276)) (id 362))) ≡ truth_at 100 (node.Quantified quantifier.All (counted 4 16) (int 276 16 1) (int 276 16 10) (obj 362 0 1)) }
    ensures over_truth { seen scope want.Free (in_group 100 (for_all 83 (lone (id 200)) (id 362))) ≡ refuses code.L23 200 }
    ensures predicate { seen scope want.Free (in_group 100 (for_all 83 (lone (id 276)) (id 360))) ≡ refuses code.L23 360 }
{}

/// All broken rules of an expression. The refusal is the first of them by its place and its rule.
#[tactic(auto, unfolding(name_numbers::specs::Numbers::word_of))]
pub fn broken_rules()
    ensures none { faults scope want.Free (binary 160 2 binary'.Add (id 160) (num 300 4)) ≡ [] }
    ensures each_operand { faults scope want.Free (binary 162 2 binary'.Add (id 162) (binary 360 370 binary'.Add (id 360) (id 466))) ≡ refusal code.L1 162 ∷ refusal code.L1 466 ∷ [] }
    ensures beside_a_refused_declaration { faults scope want.Free (name 181 (call (arg 360 (unary 360 unary'.Not (id 460)) ∷ []) ∷ [])) ≡ refusal code.L4 460 ∷ refusal code.L4 460 ∷ [] }
    ensures items_and_their_number { faults scope (want.Subtype 12) (group 100 (arg 262 (id 262) ∷ arg 362 (id 362) ∷ [])) ≡ refusal code.L8 262 ∷ refusal code.L8 362 ∷ refusal code.L16 100 ∷ [] }
    ensures subtype_as_value { faults scope want.Free (binary 160 2 binary'.Add (id 160) (id 376)) ≡ refusal code.L12 376 ∷ [] }
    ensures conditions_and_branches { faults scope want.Free (in_group 100 (if_else (id 260) (id 360) (id 462))) ≡ refusal code.L9 260 ∷ refusal code.L26 462 ∷ [] }
{}
