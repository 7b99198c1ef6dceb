//! Terms and formulas.

use sqlite_items::{Boxed, Items};

/// Terms in order.
pub type TermList = Items<Term>;

/// Formulas in order.
pub type FormulaList = Items<Formula>;

/// A term. A bound variable is numbered outwards from the nearest quantifier, from 0.
#[cycle(logic)]
pub enum Term {
    /// A whole number.
    Num(i128),
    /// `sK`, a symbol of the goal.
    Sym(u32),
    /// `bK`, the variable bound by the K-th quantifier outwards.
    Bound(u32),
    /// `(+ t t)`.
    Add(Boxed<Term>, Boxed<Term>),
    /// `(- t t)`.
    Sub(Boxed<Term>, Boxed<Term>),
    /// `(* t t)`.
    Mul(Boxed<Term>, Boxed<Term>),
    /// `(quo t t)`, truncated toward zero, 0 by 0.
    Quo(Boxed<Term>, Boxed<Term>),
    /// `(rem t t)`, with the sign of the dividend, 0 by 0.
    Rem(Boxed<Term>, Boxed<Term>),
    /// `(mod t t)`, with the sign of the divisor, 0 by 0.
    Mod(Boxed<Term>, Boxed<Term>),
    /// `(pow t t)`, 0 at a negative exponent.
    Pow(Boxed<Term>, Boxed<Term>),
    /// `(bit F)`, a truth value as a term.
    Bit(Boxed<Formula>),
    /// `(ite F t t)`, a choice.
    Ite(Boxed<Formula>, Boxed<Term>, Boxed<Term>),
    /// `(sel t t)`, an array's item at an index.
    Sel(Boxed<Term>, Boxed<Term>),
    /// `(sto t t t)`, an array with another item at an index.
    Sto(Boxed<Term>, Boxed<Term>, Boxed<Term>),
    /// `(fst t)`, an array's first index.
    Fst(Boxed<Term>),
    /// `(lst t)`, an array's last index.
    Lst(Boxed<Term>),
    /// `(fill t t t)`, the array from a first to a last index with one value throughout.
    Fill(Boxed<Term>, Boxed<Term>, Boxed<Term>),
    /// `(rec t ..)`, a record of these fields.
    Rec(TermList),
    /// `(fld K t)`, a record's field.
    Fld(u32, Boxed<Term>),
    /// `(upd K t t)`, a record with another field.
    Upd(u32, Boxed<Term>, Boxed<Term>),
    /// `(call K t ..)`, the answer of a call of the goal.
    Call(u32, TermList),
}

impl Drop for Term {
    #[cycle(logic_drop)]
    fn drop(self) {
        match self {
            Term::Num(_) => {}
            Term::Sym(_) | Term::Bound(_) => {}
            Term::Fst(a) | Term::Lst(a) | Term::Fld(_, a) => drop(a),
            Term::Bit(p) => drop(p),
            Term::Add(a, b)
            | Term::Sub(a, b)
            | Term::Mul(a, b)
            | Term::Quo(a, b)
            | Term::Rem(a, b)
            | Term::Mod(a, b)
            | Term::Pow(a, b)
            | Term::Sel(a, b)
            | Term::Upd(_, a, b) => {
                drop(a);
                drop(b);
            }
            Term::Sto(a, b, c) | Term::Fill(a, b, c) => {
                drop(a);
                drop(b);
                drop(c);
            }
            Term::Ite(p, a, b) => {
                drop(p);
                drop(a);
                drop(b);
            }
            Term::Rec(ts) | Term::Call(_, ts) => drop(ts),
        }
    }
}

/// A formula.
#[cycle(logic)]
pub enum Formula {
    /// `T`.
    True,
    /// `F`.
    False,
    /// `(tru t)`, a term of the sort of truth values as a formula.
    Tru(Boxed<Term>),
    /// `(<= t t)`.
    Le(Boxed<Term>, Boxed<Term>),
    /// `(= t t)`.
    Eq(Boxed<Term>, Boxed<Term>),
    /// `(not F)`.
    Not(Boxed<Formula>),
    /// `(and F F)`.
    And(Boxed<Formula>, Boxed<Formula>),
    /// `(or F F)`.
    Or(Boxed<Formula>, Boxed<Formula>),
    /// `(iff F F)`.
    Iff(Boxed<Formula>, Boxed<Formula>),
    /// `(all t t F)`, for all whole numbers between the two bounds.
    All(Boxed<Term>, Boxed<Term>, Boxed<Formula>),
    /// `(any t t F)`, for some whole number between the two bounds.
    Any(Boxed<Term>, Boxed<Term>, Boxed<Formula>),
}

impl Drop for Formula {
    #[cycle(logic_drop)]
    fn drop(self) {
        match self {
            Formula::True => {}
            Formula::False => {}
            Formula::Tru(t) => drop(t),
            Formula::Not(p) => drop(p),
            Formula::Le(a, b) | Formula::Eq(a, b) => {
                drop(a);
                drop(b);
            }
            Formula::And(p, q) | Formula::Or(p, q) | Formula::Iff(p, q) => {
                drop(p);
                drop(q);
            }
            Formula::All(first, last, p) | Formula::Any(first, last, p) => {
                drop(first);
                drop(last);
                drop(p);
            }
        }
    }
}
