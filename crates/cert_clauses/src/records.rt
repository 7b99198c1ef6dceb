//! Fields of records.

ghost use Rattle.std.specs.Prelude.{◌≡◌, ◌∷◌, [], map, IfOk};
ghost use Rattle.logic_terms.specs.Node.{fld, op1};
ghost use Rattle.logic_terms.specs.Sorts.{kinds_in, sort};
ghost use Rattle.logic_terms.specs.View.{term, terms};
ghost use Rattle.cert_rules.specs.Clause.{equals as equals_at};
ghost use Rattle.cert_rules.specs.Compound.{equal_to, field_clause as field_clause_of, field_of, fields_from, node_at, updated_field, whole_record as whole_record_of};
ghost use Rattle.cert_rules.specs.Judged.{yields};
ghost use Rattle.cert_rules.specs.Judges.{Judges, clause};

use cert_rules::{LineFault, boxed, clause_of_one, equal, equals, field, record};
use logic_terms::{FormulaList, Sort, SortList, Starved, Term, TermList};
use sqlite_items::{Boxed, Items, at};
use std::alloc::Global;

/// The fields of `t`, of which there are as many as sorts.
#[tactic(auto, using(cert_rules::proofs::Parts::fields_more, cert_rules::proofs::Parts::fields_all))]
fn fields_of(alloc: Global, sorts: &SortList, t: &Term) -> Result<TermList, Starved>
    ensures { IfOk result (λ r. terms r ≡ fields_from 0 (kinds_in (map sort sorts.now)) (term t.now)) }
{
    let mut made = Items::new(alloc);
    for i in 0..sorts.len() {
        match u32::try_from(i) {
            Ok(k) => made.push(field(alloc, k, t)?.into_inner())?,
            Err(_) => return Err(Starved),
        }
    }
    Ok(made)
}

/// That a record is the record of its fields.
fn whole_record(alloc: Global, of: &Sort, t: &Term) -> Result<FormulaList, LineFault>
    ensures { Judges clause (whole_record_of (sort of.now) (term t.now)) result }
{
    match of {
        Sort::Record(sorts) => {
            let whole = record(alloc, fields_of(alloc, sorts, t)?)?;
            Ok(clause_of_one(alloc, equal(alloc, boxed(alloc, t)?, whole)?)?)
        }
        _ => Err(LineFault::NotAllowed),
    }
}

/// That `t`, which is of this sort, is `u`.
fn same_value(alloc: Global, of: &Sort, t: &Term, u: Boxed<Term>) -> Result<FormulaList, LineFault>
    ensures { Judges clause (yields (equals_at (sort of.now) (term t.now) (term u) ∷ [])) result }
{
    Ok(clause_of_one(alloc, equals(alloc, of, boxed(alloc, t)?, u)?)?)
}

/// What `t`, field `k` of a record of these fields, is.
#[tactic(auto, using(cert_rules::proofs::Parts::field_there, cert_rules::proofs::Parts::field_past))]
fn made_field(
    alloc: Global,
    of: &Sort,
    t: &Term,
    k: u32,
    ts: &TermList,
) -> Result<FormulaList, LineFault>
    ensures { Judges clause (equal_to (sort of.now) (term t.now) (node_at (terms ts.now) k)) result }
{
    match at(ts.as_slice(), k as usize) {
        Some(u) => same_value(alloc, of, t, boxed(alloc, u)?),
        None => Err(LineFault::NotAllowed),
    }
}

/// What `t`, field `j` of the record `r` with `v` at `k`, is.
fn changed_field(
    alloc: Global,
    of: &Sort,
    t: &Term,
    j: u32,
    k: u32,
    r: &Term,
    v: &Term,
    part: u32,
) -> Result<FormulaList, LineFault>
    ensures { Judges clause (updated_field (sort of.now) (term t.now) j k (term r.now) (term v.now) part) result }
{
    if j == k {
        match part {
            1 => same_value(alloc, of, t, boxed(alloc, v)?),
            _ => Err(LineFault::NotAllowed),
        }
    } else {
        match part {
            2 => same_value(alloc, of, t, field(alloc, j, r)?),
            _ => Err(LineFault::NotAllowed),
        }
    }
}

/// What `t`, field `k` of the term `r`, is.
fn field_in(
    alloc: Global,
    of: &Sort,
    t: &Term,
    k: u32,
    r: &Term,
    part: u32,
) -> Result<FormulaList, LineFault>
    requires { term t.now ≡ op1 (fld k) (term r.now) }
    ensures { Judges clause (field_of (sort of.now) (op1 (fld k) (term r.now)) part) result }
{
    match r {
        Term::Rec(ts) => match part {
            0 => made_field(alloc, of, t, k, ts),
            _ => Err(LineFault::NotAllowed),
        },
        Term::Upd(j, r, v) => changed_field(alloc, of, t, k, *j, r.get(), v.get(), part),
        _ => Err(LineFault::NotAllowed),
    }
}

/// What a field of a record is, or that a record is the record of its fields, by the number of the part, where the term is of
/// this sort. `NotAllowed` at another term or part.
pub fn field_clause(alloc: Global, of: &Sort, t: &Term, part: u32) -> Result<FormulaList, LineFault>
    ensures { Judges clause (field_clause_of (sort of.now) (term t.now) part) result }
{
    if part == 3 {
        return whole_record(alloc, of, t);
    }
    match t {
        Term::Fld(k, r) => field_in(alloc, of, t, *k, r.get(), part),
        _ => Err(LineFault::NotAllowed),
    }
}
