//! Numbers, each with a space before it.

ghost use Rattle.std.specs.Prelude.{◌≡◌, ◌<◌, ◌≤◌, ◌++◌, length, drop, IfOk, IfErr};
ghost use Rattle.logic_text.specs.Certs.{spaced_number, spaced_whole};
ghost use Rattle.term_reader.specs.Phases.{IsUpTo, IsBadAt};
ghost use Rattle.cert_reader.specs.Phases.{Phase, index, whole, times, counted, Has};

use term_reader::{ReadFault, Whole, read_number, read_whole, read_word};

/// A number of 32 bits that is read, and the place after it.
#[derive(Clone, Copy)]
pub struct Index {
    pub value: u32,
    pub to: usize,
}

/// Reads a space and a number of 32 bits.
pub fn read_index(bytes: &[u8], at: usize) -> Result<Index, ReadFault>
    requires { at ≤ length bytes.now }
    ensures before { IfOk result (λ r. at < r.to) }
    ensures inside { IfOk result (λ r. r.to ≤ length bytes.now) }
    ensures text { IfOk result (λ r. drop at bytes.now ≡ spaced_number r.value ++ drop r.to bytes.now) }
    ensures on { IfOk result (λ r. (p : Phase) → IsUpTo (Has (index p)) (drop at bytes.now) (Has p) (drop r.to bytes.now)) }
    ensures fault { IfErr result (λ f. (p : Phase) → IsBadAt (Has (index p)) bytes.now at f) }
{
    match read_word(bytes, at, b" ") {
        Err(to) => Err(ReadFault::BadText(to)),
        Ok(from) => match read_number(bytes, from, 0, u32::MAX as u128) {
            Err(to) => Err(ReadFault::BadText(to)),
            Ok(number) => Ok(Index {
                value: number.value as u32,
                to: number.to,
            }),
        },
    }
}

/// How many literals follow, and the place after that number.
#[derive(Clone, Copy)]
pub struct Count {
    pub value: u64,
    pub to: usize,
}

/// Reads a space and a number of 64 bits, of the literals that follow.
pub fn read_count(bytes: &[u8], at: usize) -> Result<Count, ReadFault>
    requires { at ≤ length bytes.now }
    ensures before { IfOk result (λ r. at < r.to) }
    ensures inside { IfOk result (λ r. r.to ≤ length bytes.now) }
    ensures text { IfOk result (λ r. drop at bytes.now ≡ spaced_number r.value ++ drop r.to bytes.now) }
    ensures on { IfOk result (λ r. (p : Phase) → IsUpTo (Has (counted p)) (drop at bytes.now) (Has (times r.value p)) (drop r.to bytes.now)) }
    ensures fault { IfErr result (λ f. (p : Phase) → IsBadAt (Has (counted p)) bytes.now at f) }
{
    match read_word(bytes, at, b" ") {
        Err(to) => Err(ReadFault::BadText(to)),
        Ok(from) => match read_number(bytes, from, 0, u64::MAX as u128) {
            Err(to) => Err(ReadFault::BadText(to)),
            Ok(number) => Ok(Count {
                value: number.value as u64,
                to: number.to,
            }),
        },
    }
}

/// Reads a space and a number of 128 bits with a sign.
pub fn read_spaced_whole(bytes: &[u8], at: usize) -> Result<Whole, ReadFault>
    requires { at ≤ length bytes.now }
    ensures before { IfOk result (λ r. at < r.to) }
    ensures inside { IfOk result (λ r. r.to ≤ length bytes.now) }
    ensures text { IfOk result (λ r. drop at bytes.now ≡ spaced_whole r.value ++ drop r.to bytes.now) }
    ensures on { IfOk result (λ r. (p : Phase) → IsUpTo (Has (whole p)) (drop at bytes.now) (Has p) (drop r.to bytes.now)) }
    ensures fault { IfErr result (λ f. (p : Phase) → IsBadAt (Has (whole p)) bytes.now at f) }
{
    match read_word(bytes, at, b" ") {
        Err(to) => Err(ReadFault::BadText(to)),
        Ok(from) => match read_whole(bytes, from) {
            Err(to) => Err(ReadFault::BadText(to)),
            Ok(read) => Ok(read),
        },
    }
}
