//! Worked cases of the meaning, which are computed by hand.

ghost use Rattle.std.specs.Prelude.{◌≡◌, [], pos, negsuc, true, false};
ghost use Rattle.logic_terms.specs.Node.{num, flag, bound, op1, op2, op3, opn, quant, node, no_nodes, arith, add, quo, rem, mod_by, pow, le, eq, sel, upd, fst, lst, fld, fill, sto, fields, all, any};
ghost use Rattle.logic_terms.specs.Value.{number};
ghost use Rattle.logic_terms.specs.Meaning.{World, holds, meaning};

/// Formulas that hold, or don't, in each world.
pub fn laws_of_formulas()
    ensures sum { (w : World) → holds w [] (op2 le (op2 (arith add) (num (pos 2)) (num (pos 1))) (num (pos 3))) ≡ true }
    ensures over { (w : World) → holds w [] (op2 le (num (pos 4)) (num (pos 3))) ≡ false }
    ensures all_of_none { (w : World) → holds w [] (quant all (num (pos 5)) (num (pos 1)) (flag false)) ≡ true }
    ensures some_of_none { (w : World) → holds w [] (quant any (num (pos 5)) (num (pos 1)) (flag true)) ≡ false }
    ensures all_of_three { (w : World) → holds w [] (quant all (num (pos 1)) (num (pos 3)) (op2 le (bound 0) (num (pos 3)))) ≡ true }
    ensures some_of_three { (w : World) → holds w [] (quant any (num (pos 1)) (num (pos 3)) (op2 eq (bound 0) (num (pos 3)))) ≡ true }
    ensures last_of_three { (w : World) → holds w [] (quant all (num (pos 1)) (num (pos 3)) (op2 le (bound 0) (num (pos 2)))) ≡ false }
    ensures null_arrays { (w : World) → holds w [] (op2 eq (op3 fill (num (pos 1)) (num (pos 0)) (num (pos 7))) (op3 fill (num (pos 1)) (num (pos 0)) (num (pos 8)))) ≡ true }
    ensures other_bounds { (w : World) → holds w [] (op2 eq (op3 fill (num (pos 1)) (num (pos 0)) (num (pos 7))) (op3 fill (num (pos 2)) (num (pos 1)) (num (pos 7)))) ≡ false }
{}

/// Values of terms, the same in each world.
pub fn laws_of_terms()
    ensures outside { (w : World) → meaning w [] (op2 sel (op3 fill (num (pos 1)) (num (pos 3)) (num (pos 7))) (num (pos 9))) ≡ number (pos 0) }
    ensures inside { (w : World) → meaning w [] (op2 sel (op3 fill (num (pos 1)) (num (pos 3)) (num (pos 7))) (num (pos 3))) ≡ number (pos 7) }
    ensures changed { (w : World) → meaning w [] (op2 sel (op3 sto (op3 fill (num (pos 1)) (num (pos 3)) (num (pos 7))) (num (pos 2)) (num (pos 5))) (num (pos 2))) ≡ number (pos 5) }
    ensures unchanged { (w : World) → meaning w [] (op2 sel (op3 sto (op3 fill (num (pos 1)) (num (pos 3)) (num (pos 7))) (num (pos 4)) (num (pos 5))) (num (pos 4))) ≡ number (pos 0) }
    ensures first { (w : World) → meaning w [] (op1 fst (op3 fill (num (pos 1)) (num (pos 3)) (num (pos 7)))) ≡ number (pos 1) }
    ensures last { (w : World) → meaning w [] (op1 lst (op3 fill (num (pos 1)) (num (pos 3)) (num (pos 7)))) ≡ number (pos 3) }
    ensures field { (w : World) → meaning w [] (op1 (fld 1) (op2 (upd 1) (opn fields (node (num (pos 4)) (node (num (pos 6)) no_nodes))) (num (pos 8)))) ≡ number (pos 8) }
    ensures other_field { (w : World) → meaning w [] (op1 (fld 0) (op2 (upd 1) (opn fields (node (num (pos 4)) (node (num (pos 6)) no_nodes))) (num (pos 8)))) ≡ number (pos 4) }
{}

/// Division and powers of whole numbers.
pub fn laws_of_arithmetic()
    ensures quotient { (w : World) → meaning w [] (op2 (arith quo) (num (negsuc 6)) (num (pos 2))) ≡ number (negsuc 2) }
    ensures quotient_by_0 { (w : World) → meaning w [] (op2 (arith quo) (num (pos 1)) (num (pos 0))) ≡ number (pos 0) }
    ensures remainder { (w : World) → meaning w [] (op2 (arith rem) (num (negsuc 6)) (num (pos 2))) ≡ number (negsuc 0) }
    ensures modulus { (w : World) → meaning w [] (op2 (arith mod_by) (num (negsuc 6)) (num (pos 2))) ≡ number (pos 1) }
    ensures modulus_below_0 { (w : World) → meaning w [] (op2 (arith mod_by) (num (pos 7)) (num (negsuc 1))) ≡ number (negsuc 0) }
    ensures modulus_by_0 { (w : World) → meaning w [] (op2 (arith mod_by) (num (pos 7)) (num (pos 0))) ≡ number (pos 0) }
    ensures power { (w : World) → meaning w [] (op2 (arith pow) (num (negsuc 1)) (num (pos 3))) ≡ number (negsuc 7) }
    ensures power_below_0 { (w : World) → meaning w [] (op2 (arith pow) (num (pos 2)) (num (negsuc 0))) ≡ number (pos 0) }
{}
