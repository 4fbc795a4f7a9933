//! Changes of a list in place.
ghost use Rattle.std.specs.Prelude.{◌≡◌, ◌<◌, ◌≤◌, length, remove, insert, Some, slice_get, OnOk, OnErr};
ghost use Rattle.std.specs.Borrow.{sem};

use crate::list::List;
use cl_time::NoMemory;

impl<T> List<T> {
    ghost use Rattle.cl_model.specs.ListLends.{lends_item};

    /// Returns the item at index `place`, counted from 0, to be changed. The others stay as they
    /// are.
    pub fn item_mut(&mut self, place: usize) -> &mut T
        requires { place < length self.old }
        ensures* writes_back { sem 𝓛 (lends_item T.row self.entry place result) }
        ensures value { slice_get self.old place ≡ Some result.now }
    {
        &mut self.items[place]
    }

    /// Removes and returns the item at index `place`, counted from 0. The others keep their order.
    pub fn remove(&mut self, place: usize) -> T
        requires { place < length self.old }
        ensures item { slice_get self.old place ≡ Some result }
        ensures others { self.new ≡ remove self.old place }
    {
        self.items.remove(place)
    }
}

impl<T: Drop> List<T> {
    /// Inserts an item at index `place`, counted from 0, before the items from there on. Where
    /// there is no memory for it, the list stays as it was and the item is dropped.
    pub fn insert(&mut self, place: usize, item: T) -> Result<(), NoMemory>
        requires { place ≤ length self.old }
        ensures ok { OnOk result (self.new ≡ insert self.old place item) }
        ensures err { OnErr result (self.new ≡ self.old) }
    {
        self.items.insert(place, item)?;
        Ok(())
    }
}
