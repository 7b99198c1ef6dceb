//! The levels that are open.

ghost use Rattle.std.specs.Prelude.{◌≡◌, [], ◌∷◌, IfOk, drop, length};
ghost use Rattle.std.specs.List.{slice_get};
ghost use Rattle.grammar_table.specs.Levels.{after, closed, rank};

use crate::answers::Starved;
use crate::symbols::{Construct, Effect};
use std::alloc::Global;
use std::marker::Model;

/// The constructs that are open, which contracts see as a list, the last opened first.
#[derive(Drop)]
pub struct Levels {
    /// The last opened last.
    constructs: Vec<Construct>,
}

impl Model for Levels {
    ghost use Rattle.std.specs.Prelude.{List, reverse};
    ghost use Rattle.grammar_table.specs.declared.symbols.Construct.{Construct};

    ghost Value = { List Construct };

    ghost view = { λ l. reverse l.constructs.items };
}

/// The place of a construct in the order of constructs.
fn rank(construct: Construct) -> u8
    ensures { result ≡ rank construct }
{
    match construct {
        Construct::Operator => 0,
        Construct::Membership => 1,
        Construct::Conditional => 2,
        Construct::Enclosure => 3,
    }
}

impl Levels {
    pub fn new(alloc: Global) -> Levels
        ensures { result ≡ [] }
    {
        Levels {
            constructs: Vec::new(alloc),
        }
    }

    /// How many levels are open.
    pub fn count(&self) -> usize
        ensures { result ≡ length self.now }
    {
        self.constructs.len()
    }

    fn open(&mut self, construct: Construct) -> Result<(), Starved>
        ensures { IfOk result (λ _. self.new ≡ construct ∷ self.old) }
    {
        self.constructs.push(construct)?;
        Ok(())
    }

    /// The level that was opened last.
    fn last(&self) -> Option<Construct>
        ensures { result ≡ slice_get self.now 0 }
    {
        self.constructs.last().copied()
    }

    /// Closes the level that was opened last, if there is one.
    fn close_last(&mut self)
        ensures { self.new ≡ drop 1 self.old }
    {
        self.constructs.pop();
    }

    /// Closes the levels that are no greater than `limit`, up to the first that is.
    fn close(&mut self, limit: Construct)
        ensures { self.new ≡ closed limit self.old }
    {
        while let Some(last) = self.last() {
            if rank(last) > rank(limit) {
                return;
            }
            self.close_last();
        }
    }

    /// What a token of a production does. The error comes where memory was refused.
    pub fn apply(&mut self, effect: Effect) -> Result<(), Starved>
        ensures { IfOk result (λ _. self.new ≡ after effect self.old) }
    {
        match effect {
            Effect::Plain => Ok(()),
            Effect::Opens(construct) => self.open(construct),
            Effect::Ends(construct) => {
                self.close(construct);
                Ok(())
            }
            Effect::Begins => {
                self.close(Construct::Conditional);
                self.open(Construct::Enclosure)
            }
            Effect::Closes => {
                self.close(Construct::Conditional);
                self.close_last();
                Ok(())
            }
        }
    }
}
