//! Lines and columns of places.

ghost use Rattle.std.specs.Prelude.{◌≡◌, ◌<◌, ◌≤◌, ◌+◌, ◌-◌, ◌^◌, length};
ghost use Rattle.ada_text.specs.Places.{column_after, counted_before, line_after};

use crate::bytes::skipped;

/// The line and the column after some bytes.
fn after(front: &[u8]) -> (u32, u32)
    requires { length front.now < 2 ^ 32 - 1 }
    ensures line { result.0 ≡ line_after front.now }
    ensures column { result.1 ≡ column_after front.now }
{
    let (mut line, mut column) = (1, 1);
    for byte in front {
        if *byte == b'\n' {
            line += 1;
            column = 1;
        } else {
            column += 1;
        }
    }
    (line, column)
}

/// The line and the column of a place, both from 1, columns in bytes. A place before the end of the bytes that are
/// skipped at the start has line 1 and column 1.
pub fn line_col(text: &[u8], at: u32) -> (u32, u32)
    requires short { length text.now < 2 ^ 32 - 1 }
    requires inside { at ≤ length text.now }
    ensures line { result.0 ≡ line_after (counted_before text.now at) }
    ensures column { result.1 ≡ column_after (counted_before text.now at) }
{
    let front = &text[..at as usize];
    let start = skipped(text);
    if start < front.len() {
        after(&front[start..])
    } else {
        (1, 1)
    }
}
