//! How deep terms and formulas nest.

ghost use Rattle.std.specs.Prelude.{◌≡◌, IfOk, suc};

use crate::Starved;

/// How many levels of brackets a value may nest. `(not (not T))` has two, and the brackets of a list are one.
///
/// Code over values recurses. The calls that build a value of others answer `Starved` where it would have more levels, so
/// that no value takes more of the stack than there is.
pub const MOST_LEVELS: u32 = 10_000;

/// One level fewer, or want of memory where none is left.
pub fn below(levels: u32) -> Result<u32, Starved>
    ensures { IfOk result (λ r. suc r ≡ levels) }
{
    match levels.checked_sub(1) {
        Some(left) => Ok(left),
        None => Err(Starved),
    }
}
