//! Elimination of variables.

ghost use Rattle.std.specs.Prelude.{◌≡◌, ◌+◌, ◌^◌, ◌<◌, ◌++◌, IfOk, OnOk, map, length, nat_le, if◌then◌else◌};
ghost use Rattle.logic_terms.specs.View.{term};
ghost use Rattle.linear_prover.specs.Elimination.{is_positive as has_positive, is_negative as has_negative, positives, negatives, pairs as pairs_of, first_least, set_aside as set_aside_by, eliminate as eliminated_by, eliminate_next as eliminated_next, rounds};
ghost use Rattle.linear_prover.specs.Machine.{goes_on};
ghost use Rattle.linear_prover.specs.View.{made_of, state, Runs};
ghost use Rattle.linear_prover.specs.SplitView.{Added, Splits, Opposes};

use crate::answer::LinearAnswer;
use crate::forms::coefficient;
use crate::machine::{LinearMachine, MadeForm, SetAside};
use logic_terms::{Starved, Term};
use std::alloc::Global;
use std::mem::replace;

/// Forms by the sign of a variable's coefficient.
#[derive(Drop)]
pub struct Split {
    positive: Vec<MadeForm>,
    negative: Vec<MadeForm>,
    free: Vec<MadeForm>,
}

impl Split {
    /// Adds a form.
    fn add(&mut self, v: &Term, x: MadeForm) -> Result<(), Starved>
        ensures { OnOk result (Added (term v.now) (made_of x) self.old self.new) }
    {
        let c = coefficient(v, x.form.parts.as_slice());
        if c > 0 {
            self.positive.push(x)?;
            Ok(())
        } else if c < 0 {
            self.negative.push(x)?;
            Ok(())
        } else {
            self.free.push(x)?;
            Ok(())
        }
    }
}

/// Splits the forms that stand.
fn separate(alloc: Global, v: &Term, standing: Vec<MadeForm>) -> Result<Split, Starved>
    ensures { IfOk result (λ s. Splits (term v.now) (map made_of standing.items) s) }
{
    let mut parts = Split {
        positive: Vec::new(alloc),
        negative: Vec::new(alloc),
        free: Vec::new(alloc),
    };
    for x in standing {
        parts.add(v, x)?;
    }
    Ok(parts)
}

/// The forms with a variable, by the sign of its coefficient.
#[derive(Drop)]
pub struct Opposed {
    positive: Vec<MadeForm>,
    negative: Vec<MadeForm>,
}

/// Whether a form has a positive coefficient of a variable.
fn is_positive(v: &Term, x: &MadeForm) -> bool
    ensures { result ≡ has_positive (term v.now) (made_of x.now) }
{
    coefficient(v, x.form.parts.as_slice()) > 0
}

/// Whether a form has a negative coefficient of a variable.
fn is_negative(v: &Term, x: &MadeForm) -> bool
    ensures { result ≡ has_negative (term v.now) (made_of x.now) }
{
    coefficient(v, x.form.parts.as_slice()) < 0
}

/// A count with one more, where that is so.
fn counted(count: usize, is_more: bool) -> usize
    requires { count + 1 < 2 ^ 64 }
    ensures { result ≡ (if is_more then count + 1 else count) }
{
    if is_more { count + 1 } else { count }
}

/// How many forms have a positive coefficient of a variable.
fn count_positive(v: &Term, standing: &[MadeForm]) -> usize
    ensures { result ≡ length (positives (term v.now) (map made_of standing.now)) }
{
    let mut count = 0;
    for x in standing {
        count = counted(count, is_positive(v, x));
    }
    count
}

/// How many forms have a negative coefficient of a variable.
fn count_negative(v: &Term, standing: &[MadeForm]) -> usize
    ensures { result ≡ length (negatives (term v.now) (map made_of standing.now)) }
{
    let mut count = 0;
    for x in standing {
        count = counted(count, is_negative(v, x));
    }
    count
}

/// How many pairs of a positive and a negative form there are.
fn pairs(v: &Term, standing: &[MadeForm]) -> u128
    ensures { result ≡ pairs_of (term v.now) (map made_of standing.now) }
{
    count_positive(v, standing) as u128 * count_negative(v, standing) as u128
}

/// Where the least count stands that was met so far.
#[derive(Clone, Copy)]
struct Least {
    at: usize,
    count: u128,
}

impl Least {
    /// The lesser of this and an earlier count, which wins a tie.
    fn or_earlier(self, at: usize, count: u128) -> Least
        ensures { result ≡ (if nat_le count self.count then record { at = at; count = count } else self) }
    {
        if count <= self.count {
            Least { at, count }
        } else {
            self
        }
    }
}

/// Where the variable with the fewest pairs stands, the first on a tie.
fn fewest(left: &[Term], standing: &[MadeForm]) -> usize
    ensures { result ≡ first_least (map (λ v. pairs_of (term v) (map made_of standing.now)) left.now) }
{
    let mut least = Least {
        at: 0,
        count: u128::MAX,
    };
    for i in (0..left.len()).rev() {
        least = least.or_earlier(i, pairs(&left[i], standing));
    }
    least.at
}

impl LinearMachine {
    /// Takes out the forms with a variable.
    fn take_opposed(&mut self, alloc: Global, v: &Term) -> Result<Opposed, Starved>
        ensures { IfOk result (λ o. Opposes (term v.now) (state self.old) o (state self.new)) }
    {
        let standing = replace(&mut self.standing, Vec::new(alloc));
        let Split {
            positive,
            negative,
            free,
        } = separate(alloc, v, standing)?;
        self.standing = free;
        Ok(Opposed { positive, negative })
    }

    /// Sets the forms with a variable aside.
    fn set_aside(&mut self, v: Term, opposed: Opposed) -> Result<(), Starved>
        ensures { OnOk result (goes_on (state self.new) ≡ set_aside_by (term v) (map made_of opposed.positive.items ++ map made_of opposed.negative.items) (state self.old)) }
    {
        let Opposed {
            mut positive,
            mut negative,
        } = opposed;
        positive.append(&mut negative)?;
        let aside = SetAside {
            variable: v,
            forms: positive,
        };
        self.eliminated.insert(0, aside)?;
        Ok(())
    }

    /// Eliminates a variable.
    fn eliminate(&mut self, alloc: Global, v: Term) -> Result<Option<LinearAnswer>, Starved>
        ensures { Runs (eliminated_by (term v) (state self.old)) self.new result }
    {
        let opposed = self.take_opposed(alloc, &v)?;
        match self.pair_all(
            alloc,
            &v,
            opposed.positive.as_slice(),
            opposed.negative.as_slice(),
        )? {
            Some(answer) => Ok(Some(answer)),
            None => {
                self.set_aside(v, opposed)?;
                Ok(None)
            }
        }
    }

    /// Eliminates the variable with the fewest pairs, if one is left.
    fn eliminate_next(&mut self, alloc: Global) -> Result<Option<LinearAnswer>, Starved>
        ensures { Runs (eliminated_next (state self.old)) self.new result }
    {
        let at = fewest(self.left.as_slice(), self.standing.as_slice());
        if at < self.left.len() {
            let v = self.left.remove(at);
            return self.eliminate(alloc, v);
        }
        Ok(None)
    }

    /// Eliminates this many variables.
    pub fn eliminate_all(
        &mut self,
        alloc: Global,
        count: usize,
    ) -> Result<Option<LinearAnswer>, Starved>
        ensures { Runs (rounds count (state self.old)) self.new result }
    {
        for round in 0..count {
            if let Some(answer) = self.eliminate_next(alloc)? {
                return Ok(Some(answer));
            }
        }
        Ok(None)
    }
}
