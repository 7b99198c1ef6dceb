//! The words of lines.

ghost use Rattle.std.specs.Prelude.{◌≡◌, ◌<◌, ◌≤◌, ◌++◌, length, drop, map, slice_index_or, IfOk, IfErr};
ghost use Rattle.term_reader.specs.Words.{IsNoWord};
ghost use Rattle.cert_reader.specs.Words.{line_words, word_of, words};
ghost use Rattle.cert_reader.specs.declared.line_word.LineWord.{LineWord};

use term_reader::word_among;

/// What a line begins with, the last line included.
#[derive(Clone, Copy, Debug, PartialEq, Eq)]
pub enum LineWord {
    Given,
    Open,
    Case,
    Rup,
    Lin,
    Tri,
    Ins,
    New,
    Same,
    Arr,
    Ext,
    Fld,
    Div,
    Mul,
    Calc,
    End,
}

/// A word, and what it stands for.
type Row = (&'static [u8], LineWord);

/// The words of lines.
static LINE_WORDS: [Row; 16] = [
    (b"given", LineWord::Given),
    (b"open", LineWord::Open),
    (b"case", LineWord::Case),
    (b"rup", LineWord::Rup),
    (b"lin", LineWord::Lin),
    (b"tri", LineWord::Tri),
    (b"ins", LineWord::Ins),
    (b"new", LineWord::New),
    (b"same", LineWord::Same),
    (b"arr", LineWord::Arr),
    (b"ext", LineWord::Ext),
    (b"fld", LineWord::Fld),
    (b"div", LineWord::Div),
    (b"mul", LineWord::Mul),
    (b"calc", LineWord::Calc),
    (b"end", LineWord::End),
];

/// The words of lines.
fn rows() -> &'static [Row]
    ensures words { map (λ w. w.0.now) result.now ≡ words }
    ensures lines { map (λ w. w.1) result.now ≡ line_words }
{
    &LINE_WORDS
}

/// What the word at a place of a table stands for.
fn line_at(table: &[Row], place: usize) -> LineWord
    requires { place < length table.now }
    ensures { result ≡ slice_index_or (map (λ w. w.1) table.now) place LineWord.End }
{
    table[place].1
}

/// The word of a line, and the place after it.
#[derive(Clone, Copy)]
pub struct Chosen {
    pub line: LineWord,
    pub to: usize,
}

/// The word at a place. The error is the first byte after which none of the words goes on so.
pub fn choose(bytes: &[u8], at: usize) -> Result<Chosen, usize>
    requires { at ≤ length bytes.now }
    ensures before { IfOk result (λ c. at < c.to) }
    ensures inside { IfOk result (λ c. c.to ≤ length bytes.now) }
    ensures text { IfOk result (λ c. drop at bytes.now ≡ word_of c.line ++ drop c.to bytes.now) }
    ensures place { IfErr result (λ to. to ≤ length bytes.now) }
    ensures fault { IfErr result (λ to. IsNoWord words (drop at bytes.now) (drop to bytes.now)) }
{
    let table = rows();
    match word_among(table, bytes, at) {
        Err(to) => Err(to),
        Ok(found) => Ok(Chosen {
            line: line_at(table, found.place),
            to: found.to,
        }),
    }
}
