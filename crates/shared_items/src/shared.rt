//! A list behind one count.

ghost use Rattle.std.specs.Prelude.{◌≡◌, [], ◌∷◌, ◌++◌, ◌<◌, length, slice_get, slice_set, IfOk, OnOk, OnErr};
ghost use Rattle.std.specs.Option.{option_copied};
ghost use Rattle.shared_items.specs.Chunks.{list_at};

use std::alloc::{AllocError, Global};
use std::marker::Model;
use std::rc::Rc;

/// What has copies that are the same.
pub trait Copied: Sized + Drop {
    /// A copy.
    fn copied(&self) -> Result<Self, AllocError>
        ensures { IfOk result (λ copy. copy ≡ self.now) };
}

/// A list whose copy takes no time. A write copies it where it has another owner, and else is made in place.
pub struct Shared<T> {
    inner: Rc<Vec<T>>,
}

impl<T> Model for Shared<T> {
    ghost use Rattle.std.specs.Prelude.{List};
    ghost use Rattle.std.specs.Coded.{coded_list};

    ghost Value = { List T };

    ghost coded = { coded_list T.code };

    ghost view = { λ shared. shared.inner.value.items };
}

impl<T: Drop> Drop for Shared<T> {
    fn drop(self) {
        let Shared { inner } = self;
        drop(inner);
    }
}

impl<T> Shared<T> {
    /// The number of its items.
    pub fn len(&self) -> usize
        ensures { result ≡ length self.now }
    {
        self.inner.as_ref().len()
    }

    /// The item at a number from 0, where there is one.
    pub fn get(&self, at: usize) -> Option<&T>
        ensures { option_copied result ≡ slice_get self.now at }
    {
        self.inner.as_ref().get(at)
    }

    /// Its items.
    pub fn as_slice(&self) -> &[T]
        ensures { result.now ≡ self.now }
    {
        self.inner.as_ref().as_slice()
    }
}

impl<T: Drop> Shared<T> {
    /// A list of these items.
    pub fn from_vec(alloc: Global, items: Vec<T>) -> Result<Shared<T>, AllocError>
        ensures { IfOk result (λ shared. shared ≡ items.items) }
    {
        let inner = Rc::new(alloc, items)?;
        Ok(Shared { inner })
    }

    /// The same list once more.
    pub fn copy(&self) -> Result<Shared<T>, AllocError>
        ensures { IfOk result (λ copy. copy ≡ self.now) }
    {
        let inner = self.inner.clone()?;
        Ok(Shared { inner })
    }
}

impl<T: Drop> Copied for Shared<T> {
    fn copied(&self) -> Result<Shared<T>, AllocError> {
        self.copy()
    }
}

impl<T: Copied> Shared<T> {
    /// Writes the item at a number.
    pub fn set(&mut self, alloc: Global, at: usize, item: T) -> Result<(), AllocError>
        requires { at < length self.old }
        ensures ok { OnOk result (self.new ≡ slice_set self.old at item) }
        ensures err { OnErr result (self.new ≡ self.old) }
    {
        if let Some(items) = Rc::get_mut(&mut self.inner) {
            items[at] = item;
            return Ok(());
        }
        let mut items = copied_items(alloc, self.inner.as_ref().as_slice())?;
        items[at] = item;
        self.inner = Rc::new(alloc, items)?;
        Ok(())
    }

    /// Puts an item at the end.
    pub fn push(&mut self, alloc: Global, item: T) -> Result<(), AllocError>
        ensures ok { OnOk result (self.new ≡ self.old ++ item ∷ []) }
        ensures err { OnErr result (self.new ≡ self.old) }
    {
        if let Some(items) = Rc::get_mut(&mut self.inner) {
            items.push(item)?;
            return Ok(());
        }
        let mut items = copied_items(alloc, self.inner.as_ref().as_slice())?;
        items.push(item)?;
        self.inner = Rc::new(alloc, items)?;
        Ok(())
    }
}

impl<T: Copied> Shared<Shared<T>> {
    /// Writes the item at a number of the list at another.
    pub fn set_within(
        &mut self,
        alloc: Global,
        list: usize,
        at: usize,
        item: T,
    ) -> Result<(), AllocError>
        requires { at < length (list_at self.old list) }
        ensures ok { OnOk result (self.new ≡ slice_set self.old list (slice_set (list_at self.old list) at item)) }
        ensures err { OnErr result (self.new ≡ self.old) }
    {
        if let Some(lists) = Rc::get_mut(&mut self.inner) {
            return lists[list].set(alloc, at, item);
        }
        let mut lists = copied_items(alloc, self.inner.as_ref().as_slice())?;
        lists[list].set(alloc, at, item)?;
        self.inner = Rc::new(alloc, lists)?;
        Ok(())
    }
}

fn copied_items<T: Copied>(alloc: Global, items: &[T]) -> Result<Vec<T>, AllocError>
    ensures { IfOk result (λ copy. copy.items ≡ items.now) }
{
    let mut copy = Vec::new(alloc);
    for item in items {
        copy.push(item.copied()?)?;
    }
    Ok(copy)
}
