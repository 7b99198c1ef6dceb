//! A scope: what the reading of a part of a file's text goes by.

ghost use Rattle.std.specs.Prelude.{◌≡◌};
ghost use Rattle.name_numbers.specs.Numbers.{word_of};
ghost use Rattle.reading_scope.specs.Scopes.{scope_of};

use crate::numbers::Numbers;
use ada_values::Place;
use name_library::{Link, Spot};
use name_links::Links;
use name_numbers::{NameTable, Word, word_of};
use text_lines::Lines;
use type_base::{Moment, Parameter, World};

/// What the reading of a part of a file's text goes by. Contracts speak of it by `scope_of`.
#[derive(Clone, Copy)]
pub struct Scope<'a> {
    pub world: &'a World,
    /// The number of the file.
    pub file: u32,
    pub lines: &'a Lines,
    pub links: &'a Links,
    pub names: &'a NameTable,
    pub numbers: &'a Numbers,
    /// The subprogram whose text this is.
    pub own: Option<u32>,
    pub moment: Moment,
    /// The parameters of the loops and the indexes of the quantified expressions around it, innermost first.
    pub parameters: &'a [Parameter],
}

impl<'a> Scope<'a> {
    /// The place of a byte.
    pub fn place(&self, at: u32) -> Place
        ensures { result ≡ (scope_of self.now).place at }
    {
        self.lines.place_at(self.file, at)
    }

    /// What the identifier at a byte stands for.
    pub fn link(&self, at: u32) -> Option<Link>
        ensures { result ≡ (scope_of self.now).link at }
    {
        self.links.link_at(Spot {
            file: self.file,
            at,
        })
    }

    /// The number of the name of the identifier at a byte.
    pub fn name(&self, at: u32) -> u32
        ensures { result ≡ (scope_of self.now).name at }
    {
        self.names.number_at(at)
    }

    /// The word that the identifier at a byte is, where it names a pragma, an aspect or an attribute.
    pub fn word(&self, at: u32) -> Option<Word>
        ensures { result ≡ word_of ((scope_of self.now).name at) }
    {
        word_of(self.names.number_at(at))
    }

    /// The number of the index, loop parameter or loop that begins at a byte.
    pub fn number(&self, at: u32) -> u32
        ensures { result ≡ (scope_of self.now).number at }
    {
        self.numbers.number_at(at)
    }

    /// What is declared so far.
    pub fn world(&self) -> &World
        ensures { result.now ≡ (scope_of self.now).world }
    {
        self.world
    }
}
