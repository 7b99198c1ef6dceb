//! Bytes of a text.

ghost use Rattle.std.specs.Prelude.{◌≡◌, ◌+◌, ◌<◌, ◌≤◌, ◌∷◌, length, drop, false, MatchOption};
ghost use Rattle.term_reader.specs.Bytes.{first, is_digit};

/// The byte at a place, or 256 at the end.
#[tactic(auto, using(crate::proofs::Fronts::first_dropped, crate::proofs::Fronts::first_at_end))]
pub fn byte_at(bytes: &[u8], at: usize) -> u16
    requires { at ≤ length bytes.now }
    ensures { result ≡ first (drop at bytes.now) }
{
    if at < bytes.len() {
        bytes[at] as u16
    } else {
        256
    }
}

/// The digit at a place.
#[tactic(auto, using(crate::proofs::Fronts::front_dropped, crate::proofs::Fronts::first_at_end, crate::proofs::Fronts::digit_is, crate::proofs::Fronts::no_digit))]
pub fn digit_at(bytes: &[u8], at: usize) -> Option<u8>
    requires { at ≤ length bytes.now }
    ensures { MatchOption result (is_digit (first (drop at bytes.now)) ≡ false)
        (λ d. (d < 10) × (at < length bytes.now) × (drop at bytes.now ≡ (48 + d) ∷ drop (at + 1) bytes.now)) }
{
    if at >= bytes.len() {
        return None;
    }
    let byte = bytes[at];
    if byte >= 48 && byte <= 57 {
        Some(byte - 48)
    } else {
        None
    }
}
