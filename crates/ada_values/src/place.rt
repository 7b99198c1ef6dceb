//! Places in source files.

/// A place in a source file: the file's number from 0, and the line and the column in bytes, both from 1.
///
/// Places are ordered by file, then line, then column.
#[derive(Clone, Copy, Debug, PartialEq, Eq, PartialOrd, Ord)]
pub struct Place {
    pub file: u32,
    pub line: u32,
    pub column: u32,
}
