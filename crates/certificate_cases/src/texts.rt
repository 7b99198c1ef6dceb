//! Goals and certificates from words.

use case_parts::CaseFault;
use cert_lines::Cert;
use cert_reader::read_cert;
use logic_terms::Goal;
use logic_text::{TextFault, read_goal};
use sqlite_items::Boxed;
use std::alloc::{AllocError, Global};

fn unread(fault: TextFault) -> CaseFault {
    match fault {
        TextFault::TooLong => CaseFault::TooLong,
        TextFault::BadText(at) => CaseFault::BadText(at),
        TextFault::Starved => CaseFault::NotRead,
    }
}

/// The goal that a word is the text of.
pub fn goal_of(alloc: Global, word: &[u8]) -> Result<Boxed<Goal>, CaseFault> {
    match read_goal(alloc, word) {
        Err(fault) => Err(unread(fault)),
        Ok(goal) => match Boxed::new(alloc, goal) {
            Ok(goal) => Ok(goal),
            Err(_) => Err(CaseFault::Starved),
        },
    }
}

/// The certificate that a word is the text of.
pub fn cert_of(alloc: Global, word: &[u8]) -> Result<Cert, CaseFault> {
    match read_cert(alloc, word) {
        Err(fault) => Err(unread(fault)),
        Ok(cert) => Ok(cert),
    }
}

fn push_line(text: &mut Vec<u8>, line: &[u8]) -> Result<(), AllocError> {
    text.extend_from_slice(line)?;
    text.extend_from_slice(b"\n")
}

/// The text of the certificate of one line.
fn text_of_line(alloc: Global, line: &[u8]) -> Result<Vec<u8>, AllocError> {
    let mut text = Vec::new(alloc);
    text.extend_from_slice(b"cert 1\n")?;
    push_line(&mut text, line)?;
    text.extend_from_slice(b"end\n")?;
    Ok(text)
}

/// The certificate of the one line that a word is.
pub fn cert_of_line(alloc: Global, line: &[u8]) -> Result<Cert, CaseFault> {
    match text_of_line(alloc, line) {
        Ok(text) => cert_of(alloc, text.as_slice()),
        Err(_) => Err(CaseFault::Starved),
    }
}

/// The text of the certificate of these lines.
fn text_of_lines(alloc: Global, lines: &[Vec<u8>]) -> Result<Vec<u8>, AllocError> {
    let mut text = Vec::new(alloc);
    text.extend_from_slice(b"cert 1\n")?;
    for line in lines {
        push_line(&mut text, line.as_slice())?;
    }
    text.extend_from_slice(b"end\n")?;
    Ok(text)
}

/// The certificate of the lines that the words are.
pub fn cert_of_lines(alloc: Global, lines: &[Vec<u8>]) -> Result<Cert, CaseFault> {
    match text_of_lines(alloc, lines) {
        Ok(text) => cert_of(alloc, text.as_slice()),
        Err(_) => Err(CaseFault::Starved),
    }
}
