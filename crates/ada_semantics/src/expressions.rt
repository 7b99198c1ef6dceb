//! Expressions.

ghost use Rattle.std.specs.Prelude.{◌≡◌, [], ◌∷◌, true, false, negsuc};
ghost use Rattle.ada_values.specs.Value.{number, truth};
ghost use Rattle.typed_units.specs.declared.checks.CheckKind.TheVariants as kind;
ghost use Rattle.typed_units.specs.declared.operators.Connective.TheVariants as connective;
ghost use Rattle.ada_semantics.specs.Plain.{plain, fails, short};
ghost use Rattle.ada_semantics.specs.Cases.{key, int, ends_with};
ghost use Rattle.ada_semantics.specs.Cases.Expressions.{inc, back, divide, wrap, modular, grow, next, after, power, size, inside, guard, search_both, empty_ranges};

/// `X := X + 1` takes four units, and fails at `+` where X is the last.
pub fn budgets_of_inc()
    ensures none { plain inc 0 (int 5 ∷ []) [] 0 ≡ short }
    ensures one { plain inc 0 (int 5 ∷ []) [] 1 ≡ short }
    ensures two { plain inc 0 (int 5 ∷ []) [] 2 ≡ short }
    ensures three { plain inc 0 (int 5 ∷ []) [] 3 ≡ short }
    ensures four { plain inc 0 (int 5 ∷ []) [] 4 ≡ ends_with (int 6 ∷ []) }
    ensures fails_at_last { plain inc 0 (int 2147483647 ∷ []) [] 4 ≡ fails (key 3 11 kind.Overflow) }
{}

/// Each operator is checked by itself, though the last result fits.
pub fn intermediate_results()
    ensures passes_short { plain back 0 (int 5 ∷ []) [] 5 ≡ short }
    ensures passes { plain back 0 (int 5 ∷ []) [] 6 ≡ ends_with (int 5 ∷ int 5 ∷ []) }
    ensures fails_short { plain back 0 (int 2147483647 ∷ []) [] 4 ≡ short }
    ensures fails_at_plus { plain back 0 (int 2147483647 ∷ []) [] 5 ≡ fails (key 3 12 kind.Overflow) }
{}

/// `/` truncates toward zero, `rem` has the sign of the dividend, `mod` that of the divisor.
pub fn divisions()
    ensures minus_seven { plain divide 0 (number (negsuc 6) ∷ int 2 ∷ number (negsuc 2) ∷ number (negsuc 0) ∷ int 1 ∷ []) [] 100
        ≡ ends_with (number (negsuc 6) ∷ int 2 ∷ number (negsuc 2) ∷ number (negsuc 0) ∷ int 1 ∷ []) }
    ensures minus_two { plain divide 0 (int 7 ∷ number (negsuc 1) ∷ number (negsuc 2) ∷ int 1 ∷ number (negsuc 0) ∷ []) [] 100
        ≡ ends_with (int 7 ∷ number (negsuc 1) ∷ number (negsuc 2) ∷ int 1 ∷ number (negsuc 0) ∷ []) }
    ensures no_sign_of_dividend { plain divide 0 (number (negsuc 6) ∷ int 2 ∷ number (negsuc 2) ∷ number (negsuc 0) ∷ number (negsuc 0) ∷ []) [] 100
        ≡ fails (key 5 19 kind.Assert) }
    ensures by_zero { plain divide 0 (int 7 ∷ int 0 ∷ int 0 ∷ int 0 ∷ int 0 ∷ []) [] 100 ≡ fails (key 3 21 kind.Division) }
    ensures overflows { plain divide 0 (number (negsuc 2147483647) ∷ number (negsuc 0) ∷ int 0 ∷ int 0 ∷ int 0 ∷ []) [] 100
        ≡ fails (key 3 21 kind.Overflow) }
{}

/// A conversion checks its operand, and a modular operation wraps.
pub fn modular_types()
    ensures below { plain wrap 0 (number (negsuc 0) ∷ []) [] 5 ≡ fails (key 6 12 kind.Range) }
    ensures below_short { plain wrap 0 (number (negsuc 0) ∷ []) [] 4 ≡ short }
    ensures above { plain wrap 0 (int 256 ∷ []) [] 5 ≡ fails (key 6 12 kind.Range) }
    ensures first_short { plain wrap 0 (int 0 ∷ []) [] 6 ≡ short }
    ensures first { plain wrap 0 (int 0 ∷ []) [] 7 ≡ ends_with (int 0 ∷ []) }
    ensures last { plain wrap 0 (int 255 ∷ []) [] 7 ≡ ends_with (int 255 ∷ []) }
    ensures wraps { plain modular 0 (int 200 ∷ []) [] 100 ≡ ends_with (int 200 ∷ int 44 ∷ int 156 ∷ int 88 ∷ int 56 ∷ []) }
{}

/// A result is checked against the base range, and an assigned value against the subtype.
pub fn base_ranges_and_subtypes()
    ensures overflows { plain grow 0 (int 100 ∷ int 30 ∷ []) [] 100 ≡ fails (key 3 11 kind.Overflow) }
    ensures too_large { plain grow 0 (int 100 ∷ int 20 ∷ []) [] 100 ≡ fails (key 3 9 kind.Range) }
    ensures fits { plain grow 0 (int 100 ∷ number (negsuc 19) ∷ []) [] 100 ≡ ends_with (int 100 ∷ number (negsuc 19) ∷ int 80 ∷ []) }
    ensures past_subtype { plain next 0 (int 100 ∷ []) [] 100 ≡ fails (key 3 9 kind.Range) }
    ensures within_subtype { plain next 0 (int 99 ∷ []) [] 100 ≡ ends_with (int 99 ∷ int 100 ∷ []) }
    ensures past_base { plain after 0 (int 2147483647 ∷ []) [] 100 ≡ fails (key 3 16 kind.Range) }
    ensures within_base { plain after 0 (number (negsuc 0) ∷ []) [] 100 ≡ ends_with (number (negsuc 0) ∷ int 0 ∷ []) }
{}

/// An exponent isn't below 0.
pub fn powers()
    ensures negative { plain power 0 (int 2 ∷ number (negsuc 0) ∷ []) [] 100 ≡ fails (key 3 14 kind.Range) }
    ensures nothing { plain power 0 (int 0 ∷ int 0 ∷ []) [] 100 ≡ ends_with (int 0 ∷ int 0 ∷ int 1 ∷ []) }
    ensures cube { plain power 0 (number (negsuc 1) ∷ int 3 ∷ []) [] 100 ≡ ends_with (number (negsuc 1) ∷ int 3 ∷ number (negsuc 7) ∷ []) }
    ensures overflows { plain power 0 (int 2 ∷ int 31 ∷ []) [] 100 ≡ fails (key 3 11 kind.Overflow) }
{}

/// Only the branch that is taken is evaluated.
pub fn choices()
    ensures positive { plain size 0 (int 5 ∷ []) [] 6 ≡ ends_with (int 5 ∷ int 5 ∷ []) }
    ensures positive_short { plain size 0 (int 5 ∷ []) [] 5 ≡ short }
    ensures negative { plain size 0 (number (negsuc 4) ∷ []) [] 7 ≡ ends_with (number (negsuc 4) ∷ int 5 ∷ []) }
    ensures negative_short { plain size 0 (number (negsuc 4) ∷ []) [] 6 ≡ short }
    ensures overflows { plain size 0 (number (negsuc 2147483647) ∷ []) [] 100 ≡ fails (key 3 31 kind.Overflow) }
{}

/// A membership evaluates its operand and both bounds.
pub fn memberships()
    ensures inner { plain inside 0 (int 3 ∷ int 3 ∷ []) [] 10 ≡ ends_with (int 3 ∷ int 3 ∷ truth true ∷ truth false ∷ []) }
    ensures inner_short { plain inside 0 (int 3 ∷ int 3 ∷ []) [] 9 ≡ short }
    ensures outer { plain inside 0 (int 0 ∷ int 3 ∷ []) [] 10 ≡ ends_with (int 0 ∷ int 3 ∷ truth false ∷ truth true ∷ []) }
    ensures of_none { plain inside 0 (int 1 ∷ int 0 ∷ []) [] 10 ≡ ends_with (int 1 ∷ int 0 ∷ truth false ∷ truth true ∷ []) }
{}

/// A short-circuit form stops before the division by zero, and `and` and `or` don't.
pub fn short_circuits()
    ensures and_then_short { plain (guard connective.AndThen) 0 (int 0 ∷ []) [] 4 ≡ short }
    ensures and_then { plain (guard connective.AndThen) 0 (int 0 ∷ []) [] 5 ≡ ends_with (int 0 ∷ truth false ∷ []) }
    ensures and_then_both_short { plain (guard connective.AndThen) 0 (int 5 ∷ []) [] 9 ≡ short }
    ensures and_then_both { plain (guard connective.AndThen) 0 (int 5 ∷ []) [] 10 ≡ ends_with (int 5 ∷ truth true ∷ []) }
    ensures and_fails { plain (guard connective.And) 0 (int 0 ∷ []) [] 100 ≡ fails (key 3 23 kind.Division) }
    ensures or_else { plain (guard connective.OrElse) 0 (int 20 ∷ []) [] 5 ≡ ends_with (int 20 ∷ truth true ∷ []) }
    ensures or_else_fails { plain (guard connective.OrElse) 0 (int 0 ∷ []) [] 100 ≡ fails (key 3 23 kind.Division) }
    ensures or_fails { plain (guard connective.Or) 0 (int 0 ∷ []) [] 100 ≡ fails (key 3 23 kind.Division) }
    ensures xor { plain (guard connective.Xor) 0 (int 5 ∷ []) [] 10 ≡ ends_with (int 5 ∷ truth false ∷ []) }
{}

/// A quantified expression stops at the first index that decides.
pub fn quantifiers()
    ensures stops_short { plain search_both 0 (int 3 ∷ []) [] 35 ≡ short }
    ensures stops { plain search_both 0 (int 3 ∷ []) [] 36 ≡ ends_with (int 3 ∷ truth false ∷ truth true ∷ []) }
    ensures to_the_end_short { plain search_both 0 (int 6 ∷ []) [] 47 ≡ short }
    ensures to_the_end { plain search_both 0 (int 6 ∷ []) [] 48 ≡ ends_with (int 6 ∷ truth true ∷ truth false ∷ []) }
    ensures null_ranges_short { plain empty_ranges 0 [] [] 7 ≡ short }
    ensures null_ranges { plain empty_ranges 0 [] [] 8 ≡ ends_with (truth true ∷ truth false ∷ []) }
{}
