//! Texts on one line.

use std::alloc::AllocError;

/// Adds bytes to a line, as a word in quotes has them between its quotes: what would mean something else there is escaped, and
/// so are bytes that aren't printable ASCII.
pub fn push_shown(line: &mut String, bytes: &[u8]) -> Result<(), AllocError> {
    for byte in bytes {
        push_byte(line, *byte)?;
    }
    Ok(())
}

fn push_byte(line: &mut String, byte: u8) -> Result<(), AllocError> {
    match byte {
        b'\n' => line.push_str("\\n"),
        b'\\' | b'"' | b'{' | b'}' => {
            line.push('\\')?;
            line.push(char::from(byte))
        }
        b' '..=b'~' => line.push(char::from(byte)),
        _ => write!(line, "\\x{byte:02x}"),
    }
}
