//! Whether a certificate is accepted.

ghost use Rattle.std.specs.Prelude.{◌≡◌, ◌<◌, ◌^◌, length, OnOk};
ghost use Rattle.logic_terms.specs.Goal.{problem};
ghost use Rattle.logic_terms.specs.Sorting.{IsWellSorted, IsValid};
ghost use Rattle.cert_lines.specs.View.{line as line_of, lines};
ghost use Rattle.cert_rules.specs.Checking.{answer_to, new_symbols as new_symbols_of};
ghost use Rattle.cert_lines.specs.Line.{code_of};
ghost use Rattle.cert_checker.specs.Answers.{Answers, Refuses};

use crate::judging::judge;
use crate::refusal::CertRefusal;
use cert_lines::{Cert, CertLine};
use cert_rules::LineFault;
use cert_store::ClauseStore;
use logic_terms::Goal;
use std::alloc::Global;

/// How many new symbols a line makes.
fn new_symbols(line: &CertLine) -> u32
    ensures { result ≡ new_symbols_of (line_of line.now) }
{
    match line {
        CertLine::New { .. } => 1,
        _ => 0,
    }
}

/// Why a certificate is refused at this line, for the fault of the line.
fn refusal(fault: LineFault, number: u32, line: &CertLine) -> CertRefusal
    ensures { Refuses fault number (code_of (line_of line.now)) result }
{
    match fault {
        LineFault::NotAllowed => CertRefusal::Line(number, line.rule()),
        LineFault::Wide => CertRefusal::Wide(number),
        LineFault::Starved => CertRefusal::Starved,
    }
}

/// The answer to a certificate, line by line.
fn check_lines(alloc: Global, g: &Goal, c: &Cert) -> Result<(), CertRefusal>
    requires { length c.now.lines < 2 ^ 32 }
    ensures { Answers (answer_to (problem g.now) (lines c.now)) result }
{
    let mut store = ClauseStore::new(alloc);
    let mut fresh = 0;
    let mut number = 0;
    for line in c.lines.as_slice() {
        number += 1;
        match judge(alloc, g, fresh, &store, line) {
            Ok(clause) => store.push(clause)?,
            Err(fault) => return Err(refusal(fault, number, line)),
        }
        fresh += new_symbols(line);
    }
    if store.ends_empty() {
        Ok(())
    } else {
        Err(CertRefusal::NoEnd)
    }
}

/// Whether each line of a certificate is allowed, and the last clause is empty. A well sorted goal is valid then.
///
/// `Line` at the first line that is not allowed, `Wide` at the first at which a number leaves 128 bits, whichever comes first,
/// and `NoEnd` where each line is allowed and the last clause isn't empty. `Starved` also where there are 2^32 lines or more,
/// whose numbers no `u32` holds. The time is that of reading the literals that each line names, its own and those of its hints'
/// clauses, times a logarithm, and for rule C14 that of at most 10000 nodes.
pub fn checks(alloc: Global, g: &Goal, c: &Cert) -> Result<(), CertRefusal>
    ensures answers { Answers (answer_to (problem g.now) (lines c.now)) result }
    ensures sound { OnOk result (IsWellSorted (problem g.now) → IsValid (problem g.now)) }
{
    match u32::try_from(c.lines.len()) {
        Ok(_) => check_lines(alloc, g, c),
        Err(_) => Err(CertRefusal::Starved),
    }
}
