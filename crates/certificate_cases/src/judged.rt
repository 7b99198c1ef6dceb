//! Certificates and lines that are judged.

use crate::texts::{cert_of, cert_of_line};
use case_parts::{CaseFault, push, push_text};
use cert_checker::{CertRefusal, checks};
use cert_lines::{Cert, Rule};
use logic_terms::Goal;
use logic_text::cert_text;
use std::alloc::{AllocError, Global};

/// `cert CERT`
pub fn text(alloc: Global, line: &mut String, word: &[u8]) -> Result<(), CaseFault> {
    let cert = cert_of(alloc, word)?;
    match cert_text(alloc, &cert) {
        Ok(text) => push_text(line, text.as_slice()),
        Err(_) => Err(CaseFault::Starved),
    }
}

fn push_refusal(line: &mut String, refusal: CertRefusal) -> Result<(), AllocError> {
    match refusal {
        CertRefusal::Line(number, rule) => write!(line, "line {number} is refused by {rule:?}"),
        CertRefusal::Wide(number) => write!(line, "line {number} is wide"),
        CertRefusal::NoEnd => line.push_str("no end"),
        CertRefusal::Starved => Err(AllocError),
    }
}

/// `check CERT`
pub fn checked(
    alloc: Global,
    line: &mut String,
    goal: &Goal,
    word: &[u8],
) -> Result<(), CaseFault> {
    let cert = cert_of(alloc, word)?;
    match checks(alloc, goal, &cert) {
        Ok(()) => push(line, "accepted"),
        Err(refusal) => Ok(push_refusal(line, refusal)?),
    }
}

/// The rule of a certificate's first line.
fn first_rule(cert: &Cert) -> Result<Rule, CaseFault> {
    match cert.lines.as_slice() {
        [first, ..] => Ok(first.rule()),
        [] => Err(CaseFault::BadCase),
    }
}

fn push_judgement(
    line: &mut String,
    rule: Rule,
    verdict: Result<(), CertRefusal>,
) -> Result<(), AllocError> {
    match verdict {
        Ok(()) => line.push_str("accepted"),
        Err(CertRefusal::NoEnd) => write!(line, "allowed by {rule:?}"),
        Err(CertRefusal::Line(_, by)) => write!(line, "refused by {by:?}"),
        Err(CertRefusal::Wide(_)) => line.push_str("wide"),
        Err(CertRefusal::Starved) => Err(AllocError),
    }
}

/// `line LINE`
pub fn allowed(
    alloc: Global,
    line: &mut String,
    goal: &Goal,
    word: &[u8],
) -> Result<(), CaseFault> {
    let cert = cert_of_line(alloc, word)?;
    let rule = first_rule(&cert)?;
    Ok(push_judgement(line, rule, checks(alloc, goal, &cert))?)
}
