//! A list in chunks, of which a copy and the list itself share those that neither has written since.

ghost use Rattle.std.specs.Prelude.{◌≡◌, [], ◌∷◌, ◌++◌, ◌<◌, length, slice_get, slice_set, IfOk, OnOk, OnErr};
ghost use Rattle.std.specs.Option.{option_copied};
ghost use Rattle.shared_items.specs.Chunks.{chained};

use crate::shared::{Copied, Shared};
use std::alloc::{AllocError, Global};
use std::marker::Model;

/// How many items a chunk has.
const WIDTH: usize = 32;

/// A list whose copy takes no time: `chunks` of 32 items each, and the items after them. A write copies one chunk and
/// the list of the chunks where they have another owner, and else is made in place.
pub struct SharedItems<T> {
    chunks: Shared<Shared<T>>,
    rest: Shared<T>,
    len: usize,
}

impl<T> Model for SharedItems<T> {
    ghost use Rattle.std.specs.Prelude.{◌≡◌, List, ◌+◌, ◌*◌, true, length};
    ghost use Rattle.std.specs.Coded.{coded_list};
    ghost use Rattle.shared_items.specs.Chunks.{chained, are_full};

    ghost Value = { List T };

    ghost coded = { coded_list T.code };

    ghost view = { λ it. chained it.chunks it.rest };

    ghost invariant = { λ it. (are_full it.chunks ≡ true) × (it.len ≡ 32 * length it.chunks + length it.rest) };
}

impl<T: Drop> Drop for SharedItems<T> {
    fn drop(self) {
        let SharedItems {
            chunks,
            rest,
            len: _,
        } = self;
        drop(chunks);
        drop(rest);
    }
}

impl<T> SharedItems<T> {
    /// The number of its items.
    pub fn len(&self) -> usize
        ensures { result ≡ length self.now }
    {
        self.len
    }

    /// The item at a number from 0, where there is one.
    pub fn get(&self, at: usize) -> Option<&T>
        ensures { option_copied result ≡ slice_get self.now at }
    {
        match self.chunks.get(at / WIDTH) {
            Some(chunk) => chunk.get(at % WIDTH),
            None => self.rest.get(at - WIDTH * self.chunks.len()),
        }
    }
}

impl<T: Drop> SharedItems<T> {
    /// The list of nothing.
    pub fn new(alloc: Global) -> Result<SharedItems<T>, AllocError>
        ensures { IfOk result (λ it. it ≡ []) }
    {
        let chunks = Shared::from_vec(alloc, Vec::new(alloc))?;
        let rest = Shared::from_vec(alloc, Vec::new(alloc))?;
        Ok(SharedItems {
            chunks,
            rest,
            len: 0,
        })
    }

    /// The same list once more.
    pub fn copy(&self) -> Result<SharedItems<T>, AllocError>
        ensures { IfOk result (λ copy. copy ≡ self.now) }
    {
        let chunks = self.chunks.copy()?;
        let rest = self.rest.copy()?;
        Ok(SharedItems {
            chunks,
            rest,
            len: self.len,
        })
    }
}

impl<T: Drop> Copied for SharedItems<T> {
    fn copied(&self) -> Result<SharedItems<T>, AllocError> {
        self.copy()
    }
}

impl<T: Copied> SharedItems<T> {
    /// Writes the item at a number.
    pub fn set(&mut self, alloc: Global, at: usize, item: T) -> Result<(), AllocError>
        requires { at < length self.old }
        ensures ok { OnOk result (self.new ≡ slice_set self.old at item) }
        ensures err { OnErr result (self.new ≡ self.old) }
    {
        let chunk = at / WIDTH;
        if chunk < self.chunks.len() {
            self.chunks.set_within(alloc, chunk, at % WIDTH, item)
        } else {
            self.rest.set(alloc, at - WIDTH * self.chunks.len(), item)
        }
    }

    /// Puts an item at the end.
    pub fn push(&mut self, alloc: Global, item: T) -> Result<(), AllocError>
        ensures ok { OnOk result (self.new ≡ self.old ++ item ∷ []) }
        ensures err { OnErr result (self.new ≡ self.old) }
    {
        self.make_room(alloc)?;
        let Some(len) = self.len.checked_add(1) else {
            return Err(AllocError);
        };
        self.rest.push(alloc, item)?;
        self.len = len;
        Ok(())
    }

    /// A list of these items.
    pub fn from_vec(alloc: Global, items: Vec<T>) -> Result<SharedItems<T>, AllocError>
        ensures { IfOk result (λ it. it ≡ items.items) }
    {
        let mut list = SharedItems::new(alloc)?;
        for item in items {
            list.push(alloc, item)?;
        }
        Ok(list)
    }

    // Makes a chunk of the rest where it is as long as one.
    fn make_room(&mut self, alloc: Global) -> Result<(), AllocError>
        ensures { self.new ≡ self.old }
    {
        if self.rest.len() == WIDTH {
            let chunk = self.rest.copy()?;
            let rest = Shared::from_vec(alloc, Vec::new(alloc))?;
            self.chunks.push(alloc, chunk)?;
            self.rest = rest;
        }
        Ok(())
    }
}
