//! A file of a program, as the stage of names leaves it.

ghost use Rattle.std.specs.Prelude.{◌≡◌, ◌≤◌, length};
ghost use Rattle.std.specs.List.{prefix_len};
ghost use Rattle.program_scope.specs.Homes.{file_of, is_in_name};
ghost use Rattle.statement_typing.specs.Files.{spot_of};
ghost use Rattle.statement_typing.specs.Units.{is_first};

use ada_syntax::SourceUnit;
use ada_text::Span;
use ada_values::Place;
use name_library::{Link, Spot};
use name_links::Links;
use name_numbers::{NameTable, Word, word_of};
use text_lines::Lines;

/// A file of a program, as the stage of names leaves it. Contracts speak of it by `file_of`.
#[derive(Clone, Copy)]
pub struct File<'a> {
    pub unit: &'a SourceUnit,
    /// Its number, from 0.
    pub number: u32,
    pub text: &'a [u8],
    pub lines: &'a Lines,
    /// The links of the whole program.
    pub links: &'a Links,
    pub names: &'a NameTable,
}

/// How many bytes at the front are letters, digits and underlines.
fn name_length(bytes: &[u8]) -> usize
    ensures value { result ≡ prefix_len is_in_name bytes.now }
    ensures within { result ≤ length bytes.now }
{
    for (at, byte) in bytes.iter().enumerate() {
        if !(byte.is_ascii_alphanumeric() || *byte == b'_') {
            return at;
        }
    }
    bytes.len()
}

impl<'a> File<'a> {
    /// The place of a byte.
    pub fn place(&self, at: u32) -> Place
        ensures { result ≡ (file_of self.now).place at }
    {
        self.lines.place_at(self.number, at)
    }

    /// What the identifier at a byte stands for.
    pub fn link(&self, at: u32) -> Option<Link>
        ensures { result ≡ (file_of self.now).link at }
    {
        self.links.link_at(Spot {
            file: self.number,
            at,
        })
    }

    /// The number of the name of the identifier at a byte.
    pub fn name(&self, at: u32) -> u32
        ensures { result ≡ (file_of self.now).name at }
    {
        self.names.number_at(at)
    }

    /// The word that the identifier at a byte is, where it names a pragma, an aspect or an attribute.
    pub fn word(&self, at: u32) -> Option<Word>
        ensures { result ≡ (file_of self.now).word at }
    {
        word_of(self.names.number_at(at))
    }

    /// The bytes of the identifier at a byte; none past the end of the text.
    pub fn spelled(&self, at: u32) -> &[u8]
        ensures { result.now ≡ (file_of self.now).spelled at }
    {
        let at = at as usize;
        if at >= self.text.len() {
            return &[];
        }
        let rest = &self.text[at..];
        &rest[..name_length(rest)]
    }

    /// Whether what an identifier declares has no declaration before it.
    pub fn is_first(&self, name: Span) -> bool
        ensures { result ≡ is_first (file_of self.now) name }
    {
        match self.link(name.from) {
            Some(_) => false,
            None => true,
        }
    }

    /// The declaring identifier of what an identifier declares: of two spellings of one declaration it is the first.
    pub fn spot_of(&self, name: Span) -> Spot
        ensures { result ≡ spot_of (file_of self.now) name }
    {
        match self.link(name.from) {
            Some(Link::Declared(spot)) => spot,
            Some(Link::Predefined(_)) | None => Spot {
                file: self.number,
                at: name.from,
            },
        }
    }
}
