//! Where declarations stand.

ghost use Rattle.std.specs.Prelude.{◌≡◌};
ghost use Rattle.reading_scope.specs.Scopes.{scope_of};
ghost use Rattle.program_scope.specs.Homes.{home_of};
ghost use Rattle.statement_typing.specs.Files.{place_at, scope};

use crate::file::File;
use crate::ranks::SpotRanks;
use ada_text::Span;
use ada_values::Place;
use reading_scope::{Numbers, Scope};
use type_base::{Moment, World};

/// Where declarations stand. Contracts speak of it by `home_of`.
#[derive(Clone, Copy)]
pub struct Home<'a> {
    pub file: &'a File<'a>,
    /// The subprogram whose body has them.
    pub own: Option<u32>,
    /// The numbers of loop parameters, indexes and loops in it.
    pub numbers: &'a Numbers,
    /// The declaring identifiers of all globals of the program, in the order of their numbers.
    pub globals: &'a SpotRanks,
    /// Those of all subprograms.
    pub routines: &'a SpotRanks,
}

impl<'a> Home<'a> {
    /// What a part of the text is read by at a moment, with what is declared so far.
    pub fn scope<'s>(&'s self, moment: Moment, world: &'s World) -> Scope<'s>
        ensures { scope_of result ≡ scope (home_of self.now) moment world.now }
    {
        Scope {
            world,
            file: self.file.number,
            lines: self.file.lines,
            links: self.file.links,
            names: self.file.names,
            numbers: self.numbers,
            own: self.own,
            moment,
            parameters: &[],
        }
    }

    /// The place where a span begins.
    pub fn place_at(&self, span: Span) -> Place
        ensures { result ≡ place_at (home_of self.now) span }
    {
        self.file.place(span.from)
    }

    /// The number of the loop parameter, index or loop that begins at a byte.
    pub fn number(&self, at: u32) -> u32
        ensures { result ≡ (home_of self.now).number at }
    {
        self.numbers.number_at(at)
    }
}
