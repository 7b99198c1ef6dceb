//! The words of a line.

use std::alloc::{AllocError, AllocFailed, Global};

/// Words, as bytes.
pub type WordList = Vec<Vec<u8>>;

/// Why a line has no words.
#[derive(Clone, Copy, Debug, PartialEq, Eq)]
pub enum LineFault {
    /// An escape, a repeated piece or a word in quotes isn't as `words_of` has them.
    BadWord,
    /// Memory was refused.
    Starved,
}

impl From<AllocError> for LineFault {
    fn from(_: AllocError) -> LineFault {
        LineFault::Starved
    }
}

impl<T: Drop> From<AllocFailed<T>> for LineFault {
    fn from(_: AllocFailed<T>) -> LineFault {
        LineFault::Starved
    }
}

/// Where in a line the next byte stands.
#[derive(Clone, Copy)]
enum State {
    /// Before a word.
    Between,
    /// In a word, or in a repeated piece of one.
    Inside,
    /// After a backslash.
    Escape,
    /// After a backslash and an x.
    HighDigit,
    /// After one digit of two, which is this one.
    LowDigit(u8),
    /// In the count of a repeated piece.
    Count,
    /// After the quote that ends a word.
    Ended,
}

/// The words so far.
#[derive(Drop)]
struct Reading {
    words: WordList,
    word: Vec<u8>,
    quoted: bool,
    state: State,
    count: u32,
    in_piece: bool,
    piece: Vec<u8>,
}

/// The value of a hexadecimal digit.
fn hex_digit(byte: u8) -> Result<u8, LineFault> {
    match byte {
        b'0'..=b'9' => Ok(byte - b'0'),
        b'a'..=b'f' => Ok(byte - b'a' + 10),
        _ => Err(LineFault::BadWord),
    }
}

impl Reading {
    fn new(alloc: Global) -> Reading {
        Reading {
            words: Vec::new(alloc),
            word: Vec::new(alloc),
            quoted: false,
            state: State::Between,
            count: 0,
            in_piece: false,
            piece: Vec::new(alloc),
        }
    }

    /// Adds a byte to the piece or the word.
    fn put(&mut self, byte: u8) -> Result<(), LineFault> {
        self.state = State::Inside;
        let added = if self.in_piece {
            self.piece.push(byte)
        } else {
            self.word.push(byte)
        };
        match added {
            Ok(()) => Ok(()),
            Err(_) => Err(LineFault::Starved),
        }
    }

    /// Ends the word.
    fn end_word(&mut self, alloc: Global, state: State) -> Result<(), LineFault> {
        if self.in_piece {
            return Err(LineFault::BadWord);
        }
        self.state = state;
        let word = std::mem::replace(&mut self.word, Vec::new(alloc));
        match self.words.push(word) {
            Ok(()) => Ok(()),
            Err(_) => Err(LineFault::Starved),
        }
    }

    /// Ends the piece, which stands in the word as often as its count says.
    fn end_piece(&mut self, alloc: Global) -> Result<(), LineFault> {
        if !self.in_piece {
            return Err(LineFault::BadWord);
        }
        for _ in 0..self.count {
            self.word.extend_from_slice(self.piece.as_slice())?;
        }
        self.in_piece = false;
        self.piece = Vec::new(alloc);
        Ok(())
    }

    /// Begins a piece.
    fn begin_piece(&mut self) -> Result<(), LineFault> {
        if self.in_piece {
            return Err(LineFault::BadWord);
        }
        self.count = 0;
        self.state = State::Count;
        Ok(())
    }

    /// A byte before a word.
    fn between(&mut self, alloc: Global, byte: u8) -> Result<(), LineFault> {
        match byte {
            b' ' => Ok(()),
            b'"' => {
                self.quoted = true;
                self.state = State::Inside;
                Ok(())
            }
            _ => {
                self.quoted = false;
                self.inside(alloc, byte)
            }
        }
    }

    /// A byte in a word.
    fn inside(&mut self, alloc: Global, byte: u8) -> Result<(), LineFault> {
        match byte {
            b'"' if self.quoted => self.end_word(alloc, State::Ended),
            b' ' if !self.quoted => self.end_word(alloc, State::Between),
            b'\\' => {
                self.state = State::Escape;
                Ok(())
            }
            b'{' => self.begin_piece(),
            b'}' => self.end_piece(alloc),
            _ => self.put(byte),
        }
    }

    /// A byte after a backslash.
    fn escape(&mut self, byte: u8) -> Result<(), LineFault> {
        match byte {
            b'n' => self.put(b'\n'),
            b'r' => self.put(b'\r'),
            b't' => self.put(b'\t'),
            b'\\' | b'"' | b'{' | b'}' => self.put(byte),
            b'x' => {
                self.state = State::HighDigit;
                Ok(())
            }
            _ => Err(LineFault::BadWord),
        }
    }

    /// A byte of the count of a piece.
    fn counted(&mut self, byte: u8) -> Result<(), LineFault> {
        match byte {
            b'0'..=b'9' => {
                let digit = u32::from(byte - b'0');
                self.count = self.count.saturating_mul(10).saturating_add(digit);
                Ok(())
            }
            b' ' => {
                self.in_piece = true;
                self.state = State::Inside;
                Ok(())
            }
            _ => Err(LineFault::BadWord),
        }
    }

    /// The next byte.
    fn step(&mut self, alloc: Global, byte: u8) -> Result<(), LineFault> {
        match self.state {
            State::Between => self.between(alloc, byte),
            State::Inside => self.inside(alloc, byte),
            State::Escape => self.escape(byte),
            State::HighDigit => {
                self.state = State::LowDigit(hex_digit(byte)?);
                Ok(())
            }
            State::LowDigit(high) => {
                let low = hex_digit(byte)?;
                self.put(high << 4 | low)
            }
            State::Count => self.counted(byte),
            State::Ended if byte == b' ' => {
                self.state = State::Between;
                Ok(())
            }
            State::Ended => Err(LineFault::BadWord),
        }
    }

    /// The words, at the end of the line.
    fn end(mut self, alloc: Global) -> Result<WordList, LineFault> {
        match self.state {
            State::Between | State::Ended => Ok(self.words),
            State::Inside if !self.quoted => {
                self.end_word(alloc, State::Between)?;
                Ok(self.words)
            }
            _ => Err(LineFault::BadWord),
        }
    }
}

/// The words of a line, which are separated by spaces.
///
/// A word in quotes may have spaces and none in between its quotes at all. In each word `\n`, `\r` and `\t` are line feed,
/// carriage return and tab, `\x` and two digits of 0 to 9 and a to f are a byte, a backslash stands before a quote, a
/// backslash and a brace, and `{COUNT PIECE}` is the piece as often as the count says.
pub fn words_of(alloc: Global, line: &[u8]) -> Result<WordList, LineFault> {
    let mut reading = Reading::new(alloc);
    for byte in line {
        reading.step(alloc, *byte)?;
    }
    reading.end(alloc)
}
