//! Single operations, enumerations, and the order of evaluation.

ghost use Rattle.std.specs.Prelude.{◌≡◌, [], ◌∷◌, true, false, negsuc};
ghost use Rattle.ada_values.specs.Value.{number, truth};
ghost use Rattle.typed_units.specs.declared.checks.CheckKind.TheVariants as kind;
ghost use Rattle.ada_semantics.specs.Plain.{plain, fails, short};
ghost use Rattle.ada_semantics.specs.Cases.{key, int, ends_with};
ghost use Rattle.ada_semantics.specs.Cases.Operations.{truths, shorts, arith, before, colors, color_before, arms, low_first, within};

/// `not`, `and`, `or` and `xor` of each two truth values.
pub fn logical_operators()
    ensures true_true { plain truths 0 (truth true ∷ truth true ∷ []) [] 100
        ≡ ends_with (truth true ∷ truth true ∷ truth false ∷ truth true ∷ truth true ∷ truth false ∷ []) }
    ensures true_false { plain truths 0 (truth true ∷ truth false ∷ []) [] 100
        ≡ ends_with (truth true ∷ truth false ∷ truth false ∷ truth false ∷ truth true ∷ truth true ∷ []) }
    ensures false_true { plain truths 0 (truth false ∷ truth true ∷ []) [] 100
        ≡ ends_with (truth false ∷ truth true ∷ truth true ∷ truth false ∷ truth true ∷ truth true ∷ []) }
    ensures false_false { plain truths 0 (truth false ∷ truth false ∷ []) [] 100
        ≡ ends_with (truth false ∷ truth false ∷ truth true ∷ truth false ∷ truth false ∷ truth false ∷ []) }
{}

/// `and then` and `or else` of each two truth values, with the right one where it is needed.
pub fn short_circuit_forms()
    ensures true_true { plain shorts 0 (truth true ∷ truth true ∷ []) [] 7 ≡ ends_with (truth true ∷ truth true ∷ truth true ∷ truth true ∷ []) }
    ensures true_false { plain shorts 0 (truth true ∷ truth false ∷ []) [] 7 ≡ ends_with (truth true ∷ truth false ∷ truth false ∷ truth true ∷ []) }
    ensures false_true { plain shorts 0 (truth false ∷ truth true ∷ []) [] 7 ≡ ends_with (truth false ∷ truth true ∷ truth false ∷ truth true ∷ []) }
    ensures false_false { plain shorts 0 (truth false ∷ truth false ∷ []) [] 7 ≡ ends_with (truth false ∷ truth false ∷ truth false ∷ truth false ∷ []) }
    ensures needed { plain shorts 0 (truth true ∷ truth true ∷ []) [] 6 ≡ short }
{}

/// Unary `+`, `abs` and `'Pred`.
pub fn operators_of_one_number()
    ensures negative { plain arith 0 (number (negsuc 6) ∷ []) [] 100
        ≡ ends_with (number (negsuc 6) ∷ int 7 ∷ number (negsuc 7) ∷ number (negsuc 6) ∷ []) }
    ensures positive { plain arith 0 (int 7 ∷ []) [] 100 ≡ ends_with (int 7 ∷ int 7 ∷ int 6 ∷ int 7 ∷ []) }
    ensures abs_overflows { plain arith 0 (number (negsuc 2147483647) ∷ []) [] 100 ≡ fails (key 4 9 kind.Overflow) }
    ensures before_the_first { plain before 0 (number (negsuc 2147483647) ∷ []) [] 100 ≡ fails (key 3 16 kind.Range) }
    ensures to_the_first { plain before 0 (number (negsuc 2147483646) ∷ []) [] 100
        ≡ ends_with (number (negsuc 2147483646) ∷ number (negsuc 2147483647) ∷ []) }
{}

/// The values of an enumeration are its positions; `'Succ` and `'Pred` fail at its ends, and `'Val` outside.
pub fn enumerations()
    ensures inner { plain colors 0 (int 1 ∷ int 0 ∷ []) [] 100 ≡ ends_with (int 1 ∷ int 0 ∷ int 2 ∷ int 0 ∷ int 1 ∷ []) }
    ensures after_the_last { plain colors 0 (int 2 ∷ int 2 ∷ []) [] 100 ≡ fails (key 5 14 kind.Range) }
    ensures no_value { plain colors 0 (int 0 ∷ int 3 ∷ []) [] 100 ≡ fails (key 3 20 kind.Range) }
    ensures below { plain colors 0 (int 0 ∷ number (negsuc 0) ∷ []) [] 100 ≡ fails (key 3 20 kind.Range) }
    ensures before_the_first { plain color_before 0 (int 0 ∷ []) [] 100 ≡ fails (key 3 14 kind.Range) }
    ensures before_the_last { plain color_before 0 (int 2 ∷ []) [] 100 ≡ ends_with (int 2 ∷ int 1 ∷ []) }
{}

/// The arms of an if-expression are tried in order, up to the first whose condition is True.
pub fn arms_in_order()
    ensures first { plain arms 0 (int 11 ∷ []) [] 6 ≡ ends_with (int 11 ∷ int 1 ∷ []) }
    ensures first_short { plain arms 0 (int 11 ∷ []) [] 5 ≡ short }
    ensures second { plain arms 0 (int 7 ∷ []) [] 9 ≡ ends_with (int 7 ∷ int 2 ∷ []) }
    ensures second_short { plain arms 0 (int 7 ∷ []) [] 8 ≡ short }
    ensures third { plain arms 0 (int 3 ∷ []) [] 12 ≡ ends_with (int 3 ∷ int 3 ∷ []) }
    ensures none { plain arms 0 (int 0 ∷ []) [] 12 ≡ ends_with (int 0 ∷ int 4 ∷ []) }
    ensures none_short { plain arms 0 (int 0 ∷ []) [] 11 ≡ short }
{}

/// The low bound of a range is evaluated before the high one, and both after what is tested.
pub fn bounds_in_order()
    ensures loop_low { plain low_first 0 (int 0 ∷ int 0 ∷ []) [] 100 ≡ fails (key 3 15 kind.Division) }
    ensures loop_high { plain low_first 0 (int 1 ∷ int 0 ∷ []) [] 100 ≡ fails (key 3 24 kind.Division) }
    ensures quantifier_low { plain low_first 0 (int 1 ∷ int 1 ∷ []) [] 100 ≡ fails (key 6 25 kind.Division) }
    ensures quantifier_high { plain low_first 0 (int 2 ∷ int 1 ∷ []) [] 100 ≡ fails (key 6 40 kind.Division) }
    ensures passes { plain low_first 0 (int 2 ∷ int 2 ∷ []) [] 100 ≡ ends_with (int 2 ∷ int 2 ∷ truth true ∷ []) }
    ensures tested_first { plain within 0 (int 0 ∷ int 0 ∷ int 0 ∷ []) [] 100 ≡ fails (key 3 11 kind.Division) }
    ensures low_then { plain within 0 (int 1 ∷ int 0 ∷ int 0 ∷ []) [] 100 ≡ fails (key 3 20 kind.Division) }
    ensures high_last { plain within 0 (int 1 ∷ int 1 ∷ int 0 ∷ []) [] 100 ≡ fails (key 3 29 kind.Division) }
    ensures inside { plain within 0 (int 2 ∷ int 3 ∷ int 1 ∷ []) [] 100 ≡ ends_with (int 2 ∷ int 3 ∷ int 1 ∷ truth true ∷ []) }
{}
