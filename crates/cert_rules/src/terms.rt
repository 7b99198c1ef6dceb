//! Terms from their parts. They stand in boxes: a box costs little to drop where memory runs out on the way.

ghost use Rattle.std.specs.Prelude.{◌≡◌, IfOk};
ghost use Rattle.logic_terms.specs.Node.{add, arith, fld, fst, lst, mod_by, mul, num, op1, op2, fields, opn, quo, rem, sel, sym};
ghost use Rattle.logic_terms.specs.View.{term, terms};

use logic_terms::{Starved, Term, TermList};
use sqlite_items::Boxed;
use std::alloc::Global;

/// A copy of a term.
pub fn boxed(alloc: Global, t: &Term) -> Result<Boxed<Term>, Starved>
    ensures { IfOk result (λ r. r ≡ t.now) }
{
    Boxed::new(alloc, t.copy(alloc)?)
}

/// `n`.
pub fn number(alloc: Global, n: i128) -> Result<Boxed<Term>, Starved>
    ensures { IfOk result (λ r. term r ≡ num n) }
{
    Boxed::new(alloc, Term::Num(n))
}

/// `sK`.
pub fn symbol(alloc: Global, k: u32) -> Result<Boxed<Term>, Starved>
    ensures { IfOk result (λ r. term r ≡ sym k) }
{
    Boxed::new(alloc, Term::Sym(k))
}

/// `(+ a b)`.
pub fn sum(alloc: Global, a: Boxed<Term>, b: Boxed<Term>) -> Result<Boxed<Term>, Starved>
    ensures { IfOk result (λ r. term r ≡ op2 (arith add) (term a) (term b)) }
{
    Boxed::new(alloc, Term::Add(a, b))
}

/// `(* a b)`.
pub fn product(alloc: Global, a: Boxed<Term>, b: Boxed<Term>) -> Result<Boxed<Term>, Starved>
    ensures { IfOk result (λ r. term r ≡ op2 (arith mul) (term a) (term b)) }
{
    Boxed::new(alloc, Term::Mul(a, b))
}

/// `(quo a d)`.
pub fn quotient(alloc: Global, a: &Term, d: i128) -> Result<Boxed<Term>, Starved>
    ensures { IfOk result (λ r. term r ≡ op2 (arith quo) (term a.now) (num d)) }
{
    let a = boxed(alloc, a)?;
    Boxed::new(alloc, Term::Quo(a, number(alloc, d)?))
}

/// `(rem a d)`.
pub fn remainder(alloc: Global, a: &Term, d: i128) -> Result<Boxed<Term>, Starved>
    ensures { IfOk result (λ r. term r ≡ op2 (arith rem) (term a.now) (num d)) }
{
    let a = boxed(alloc, a)?;
    Boxed::new(alloc, Term::Rem(a, number(alloc, d)?))
}

/// `(mod a d)`.
pub fn modulus(alloc: Global, a: &Term, d: i128) -> Result<Boxed<Term>, Starved>
    ensures { IfOk result (λ r. term r ≡ op2 (arith mod_by) (term a.now) (num d)) }
{
    let a = boxed(alloc, a)?;
    Boxed::new(alloc, Term::Mod(a, number(alloc, d)?))
}

/// `(sel a i)`.
pub fn item(alloc: Global, a: &Term, i: Boxed<Term>) -> Result<Boxed<Term>, Starved>
    ensures { IfOk result (λ r. term r ≡ op2 sel (term a.now) (term i)) }
{
    Boxed::new(alloc, Term::Sel(boxed(alloc, a)?, i))
}

/// `(fst a)`.
pub fn first(alloc: Global, a: &Term) -> Result<Boxed<Term>, Starved>
    ensures { IfOk result (λ r. term r ≡ op1 fst (term a.now)) }
{
    Boxed::new(alloc, Term::Fst(boxed(alloc, a)?))
}

/// `(lst a)`.
pub fn last(alloc: Global, a: &Term) -> Result<Boxed<Term>, Starved>
    ensures { IfOk result (λ r. term r ≡ op1 lst (term a.now)) }
{
    Boxed::new(alloc, Term::Lst(boxed(alloc, a)?))
}

/// `(fld k a)`.
pub fn field(alloc: Global, k: u32, a: &Term) -> Result<Boxed<Term>, Starved>
    ensures { IfOk result (λ r. term r ≡ op1 (fld k) (term a.now)) }
{
    Boxed::new(alloc, Term::Fld(k, boxed(alloc, a)?))
}

/// `(rec ..)` of these fields.
pub fn record(alloc: Global, parts: TermList) -> Result<Boxed<Term>, Starved>
    ensures { IfOk result (λ r. term r ≡ opn fields (terms parts)) }
{
    Boxed::new(alloc, Term::Rec(parts))
}
