//! The texts of certificates are read.

ghost use Rattle.std.specs.Prelude.{ℕ, List};
ghost use Rattle.cert_lines.specs.Line.{Line};
ghost use Rattle.cert_lines.specs.View.{lines as lines_of};
ghost use Rattle.logic_text.specs.Certs.{cert_bytes};
ghost use Rattle.logic_text.specs.Fits.{AreLines};
ghost use Rattle.cert_reader.specs.Answers.{IsBadCert};

use cert_lines::Cert;
use logic_text::cert_fits;

/// The text of a certificate whose numbers fit has no fault, so where it is read the answer is a certificate of the same
/// lines.
pub fn cert_texts_have_no_fault()
    ensures { (ls : List Line) (at : ℕ) → AreLines ls → IsBadCert (cert_bytes ls) at → ⊥ }
{}

/// The text of a certificate in memory has no fault, as its numbers fit. The call goes through all lines of the
/// certificate, in time linear in their size.
pub fn cert_has_no_fault(c: &Cert)
    ensures { (at : ℕ) → IsBadCert (cert_bytes (lines_of c.now)) at → ⊥ }
{
    cert_fits(c)
}
