//! Certificates read from their texts.

ghost use Rattle.std.specs.Prelude.{◌≡◌, ◌≤◌, length, IfOk, IfErr};
ghost use Rattle.cert_lines.specs.View.{lines as lines_of};
ghost use Rattle.logic_text.specs.Certs.{cert_bytes};
ghost use Rattle.term_reader.specs.Phases.{IsBadAt};
ghost use Rattle.cert_reader.specs.Answers.{IsCertFault, most_cert_bytes};
ghost use Rattle.cert_reader.specs.Phases.{AtStart};

use crate::lines::read_lines;
use cert_lines::Cert;
use logic_text::TextFault;
use std::alloc::Global;
use term_reader::{ReadFault, read_word};

/// Longer texts are not read as certificates.
pub const MOST_CERT_BYTES: usize = 1_048_576;

/// Reads a certificate.
fn read_whole(alloc: Global, bytes: &[u8]) -> Result<Cert, ReadFault>
    ensures text { IfOk result (λ c. cert_bytes (lines_of c) ≡ bytes.now) }
    ensures fault { IfErr result (λ f. IsBadAt AtStart bytes.now 0 f) }
{
    match read_word(bytes, 0, b"cert 1\n") {
        Err(to) => Err(ReadFault::BadText(to)),
        Ok(to) => match read_lines(alloc, bytes, to) {
            Err(fault) => Err(fault),
            Ok(lines) => Ok(Cert { lines }),
        },
    }
}

/// The certificate of a text. `TooLong` comes exactly where the text has more than `MOST_CERT_BYTES` bytes. Where it has
/// no more, `BadText` is the first byte, or the end, after which no text of a certificate goes on so. `Starved` comes
/// where memory was refused, or where more than `MOST_LEVELS` brackets are open.
pub fn read_cert(alloc: Global, bytes: &[u8]) -> Result<Cert, TextFault>
    ensures text { IfOk result (λ c. cert_bytes (lines_of c) ≡ bytes.now) }
    ensures short { IfOk result (λ c. length bytes.now ≤ most_cert_bytes) }
    ensures fault { IfErr result (λ f. IsCertFault bytes.now f) }
{
    if bytes.len() > MOST_CERT_BYTES {
        return Err(TextFault::TooLong);
    }
    match read_whole(alloc, bytes) {
        Err(fault) => Err(TextFault::from(fault)),
        Ok(cert) => Ok(cert),
    }
}
