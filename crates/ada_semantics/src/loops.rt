//! Loops.

ghost use Rattle.std.specs.Prelude.{◌≡◌, [], ◌∷◌, true, false};
ghost use Rattle.typed_units.specs.Syntax.{local};
ghost use Rattle.typed_units.specs.declared.checks.CheckKind.TheVariants as kind;
ghost use Rattle.typed_units.specs.declared.operators.Relation.TheVariants as relation;
ghost use Rattle.typed_units.specs.declared.statements.Direction.TheVariants as direction;
ghost use Rattle.ada_semantics.specs.Plain.{plain, fails, short};
ghost use Rattle.ada_semantics.specs.Cases.{key, int, ends_with, gives_back};
ghost use Rattle.ada_semantics.specs.Cases.Loops.{climb, mid, never, digits, once, root, above, inner, stay, sink, rise, steps, add};

/// An invariant that holds in the first turn and not in the second.
pub fn invariant_that_is_not_kept()
    ensures none_short { plain climb 0 (int 0 ∷ []) [] 7 ≡ short }
    ensures none { plain climb 0 (int 0 ∷ []) [] 8 ≡ ends_with (int 0 ∷ int 0 ∷ []) }
    ensures one_short { plain climb 0 (int 1 ∷ []) [] 23 ≡ short }
    ensures one { plain climb 0 (int 1 ∷ []) [] 24 ≡ ends_with (int 1 ∷ int 1 ∷ []) }
    ensures two_short { plain climb 0 (int 2 ∷ []) [] 28 ≡ short }
    ensures two { plain climb 0 (int 2 ∷ []) [] 29 ≡ fails (key 6 30 kind.InvKept) }
{}

/// An invariant in the middle of a loop's body, which fails in the first turn that reaches it, or in a later one.
pub fn invariant_in_the_middle()
    ensures holds { plain (mid relation.AtMost) 0 (int 2 ∷ []) [] 100 ≡ ends_with (int 2 ∷ int 2 ∷ []) }
    ensures not_reached { plain (mid relation.Less) 0 (int 0 ∷ []) [] 100 ≡ ends_with (int 0 ∷ int 0 ∷ []) }
    ensures first { plain (mid relation.Less) 0 (int 1 ∷ []) [] 100 ≡ fails (key 7 30 kind.InvFirst) }
    ensures later { plain (mid relation.Less) 0 (int 2 ∷ []) [] 100 ≡ fails (key 7 30 kind.InvKept) }
{}

/// A `for` loop goes upwards, or downwards in reverse, over a range that is evaluated once.
pub fn ranges_of_loops()
    ensures null_short { plain never 0 [] [] 2 ≡ short }
    ensures null { plain never 0 [] [] 3 ≡ ends_with [] }
    ensures upwards_short { plain (digits false) 0 [] [] 25 ≡ short }
    ensures upwards { plain (digits false) 0 [] [] 26 ≡ ends_with (int 123 ∷ []) }
    ensures downwards { plain (digits true) 0 [] [] 26 ≡ ends_with (int 321 ∷ []) }
    ensures bounds { plain once 0 (int 3 ∷ []) [] 100 ≡ ends_with (int 0 ∷ int 3 ∷ []) }
{}

/// `exit` ends the innermost loop, and `return` the subprogram.
pub fn ways_out()
    ensures exit_when_short { plain root 0 (int 1 ∷ []) [] 22 ≡ short }
    ensures exit_when { plain root 0 (int 1 ∷ []) [] 23 ≡ gives_back (int 1 ∷ []) (int 1) }
    ensures later_exit { plain root 0 (int 10 ∷ []) [] 100 ≡ gives_back (int 10 ∷ []) (int 4) }
    ensures returns { plain above 0 (int 10 ∷ []) [] 100 ≡ gives_back (int 10 ∷ []) (int 4) }
    ensures falls_out { plain above 0 (int 200 ∷ []) [] 200 ≡ gives_back (int 200 ∷ []) (int 0) }
    ensures inner_exit { plain inner 0 [] [] 200 ≡ ends_with (int 3 ∷ []) }
    ensures no_way_out { plain stay 0 [] [] 200 ≡ short }
{}

/// A variant moves in its direction against the last turn, or the next expression does where the first stays.
pub fn variants()
    ensures moves { plain (sink direction.Decreases) 0 (int 2 ∷ int 1 ∷ []) [] 100 ≡ ends_with (int 2 ∷ int 1 ∷ []) }
    ensures stays_short { plain (sink direction.Decreases) 0 (int 1 ∷ int 0 ∷ []) [] 18 ≡ short }
    ensures stays { plain (sink direction.Decreases) 0 (int 1 ∷ int 0 ∷ []) [] 19 ≡ fails (key 5 41 kind.Variant) }
    ensures wrong_way { plain (sink direction.Increases) 0 (int 2 ∷ int 1 ∷ []) [] 100 ≡ fails (key 5 41 kind.Variant) }
    ensures not_in_first_turn { plain (sink direction.Increases) 0 (int 1 ∷ int 1 ∷ []) [] 100 ≡ ends_with (int 1 ∷ int 1 ∷ []) }
    ensures other_check { plain (sink direction.Decreases) 0 (int 5 ∷ int 2 ∷ []) [] 100 ≡ fails (key 6 12 kind.Range) }
    ensures upwards { plain rise 0 (int 3 ∷ []) [] 100 ≡ ends_with (int 3 ∷ []) }
    ensures second_falls { plain (steps (local 0) (local 1)) 0 [] [] 200 ≡ ends_with [] }
    ensures first_rises { plain (steps (local 1) (local 0)) 0 [] [] 200 ≡ fails (key 6 41 kind.Variant) }
{}

/// `'Loop_Entry` is the value when the loop was entered.
pub fn values_on_loop_entry()
    ensures kept { plain add 0 (int 3 ∷ int 1 ∷ int 5 ∷ []) [] 100 ≡ ends_with (int 3 ∷ int 1 ∷ int 8 ∷ []) }
    ensures not_kept { plain add 0 (int 3 ∷ int 2 ∷ int 5 ∷ []) [] 100 ≡ fails (key 4 30 kind.InvKept) }
    ensures one_turn { plain add 0 (int 1 ∷ int 2 ∷ int 5 ∷ []) [] 100 ≡ ends_with (int 1 ∷ int 2 ∷ int 7 ∷ []) }
{}
