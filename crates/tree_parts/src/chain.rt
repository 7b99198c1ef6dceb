//! A list that is made from its last item to its first.

ghost use Rattle.std.specs.Prelude.{◌≡◌, [], ◌∷◌, IfOk, MatchOption, OnOk, length};

use sqlite_items::Items;
use std::alloc::{AllocError, Global};
use std::marker::Model;

/// Items in order, to the front of which more are put.
#[derive(Drop)]
pub struct Chain<T> {
    /// The last item stands first.
    backward: Vec<T>,
}

impl<T> Model for Chain<T> {
    ghost use Rattle.std.specs.Prelude.{List, reverse};
    ghost use Rattle.std.specs.Coded.{coded_list};

    ghost Value = { List T };

    ghost coded = { coded_list T.code };

    ghost view = { λ c. reverse c.backward.items };
}

impl<T> Chain<T> {
    pub fn new(alloc: Global) -> Chain<T>
        ensures { result ≡ [] }
    {
        Chain {
            backward: Vec::new(alloc),
        }
    }

    pub fn len(&self) -> usize
        ensures { result ≡ length self.now }
    {
        self.backward.len()
    }

    /// Takes the item at the front.
    pub fn take_first(&mut self) -> Option<T>
        ensures { MatchOption result ((self.old ≡ []) × (self.new ≡ [])) (λ first. self.old ≡ first ∷ self.new) }
    {
        self.backward.pop()
    }

    pub fn into_items(self) -> Items<T>
        ensures { result ≡ self }
    {
        let Chain { mut backward } = self;
        backward.reverse();
        Items::from_vec(backward)
    }
}

impl<T: Drop> Chain<T> {
    pub fn put_first(&mut self, item: T) -> Result<(), AllocError>
        ensures { OnOk result (self.new ≡ item ∷ self.old) }
    {
        self.backward.push(item)?;
        Ok(())
    }

    /// The same list with an item before it.
    pub fn with_first(self, item: T) -> Result<Chain<T>, AllocError>
        ensures { IfOk result (λ all. all ≡ item ∷ self) }
    {
        let mut all = self;
        all.put_first(item)?;
        Ok(all)
    }
}
