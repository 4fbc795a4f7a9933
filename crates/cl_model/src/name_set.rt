//! Sets of names, which are numbered and found by their bytes.
ghost use Rattle.std.specs.Prelude.{◌≡◌, ◌<◌, ◌≤◌, [], not, remove, length, IfOk, OnOk, OnErr, IfSome, is_some};
ghost use Rattle.std.specs.List.{remove_range};
ghost use Rattle.cl_model.specs.{Named.{has_name, index_of}, NameSets.names_with};

use crate::name::Name;
use cl_time::NoMemory;
use indexmap::IndexSet;
use std::alloc::Global;
use std::marker::Model;

/// Up to this many names are compared one by one, which is faster than hashing one.
const FEW_NAMES: usize = 4;

/// A set of names, numbered from 0 in the order in which they were added. A name is found in
/// constant time.
pub struct NameSet {
    names: IndexSet<Name>,
}

// Written out: a function that lets a set go calls this once, where a derived drop would stand in
// it as a call for each vector inside.
impl Drop for NameSet {
    fn drop(self) {
        let NameSet { names: _names } = self;
    }
}

impl Model for NameSet {
    ghost use Rattle.std.specs.Prelude.{List, ℕ};

    ghost Value = { List (List ℕ) };

    ghost view = { λ set. set.names.keys };
}

impl NameSet {
    /// Makes an empty set. It takes no memory.
    pub fn new(alloc: Global) -> NameSet
        ensures { result ≡ [] }
    {
        NameSet {
            names: IndexSet::new(alloc),
        }
    }

    /// Returns the number of names.
    pub fn len(&self) -> usize
        ensures { result ≡ length self.now }
    {
        self.names.len()
    }

    /// Makes room for `further` more names. `NoMemory` leaves the names as they were.
    pub fn reserve(&mut self, further: usize) -> Result<(), NoMemory>
        ensures { self.new ≡ self.old }
    {
        self.names.reserve(further)?;
        Ok(())
    }

    /// Adds a name after the others and returns whether it is new. A name that is there already
    /// changes nothing. `NoMemory` leaves the names as they were.
    pub fn add(&mut self, name: &Name) -> Result<bool, NoMemory>
        ensures is_new { IfOk result (λ is_new. is_new ≡ not (has_name name.now self.old)) }
        ensures ok { OnOk result (self.new ≡ names_with name.now self.old) }
        ensures err { OnErr result (self.new ≡ self.old) }
    {
        Ok(self.names.insert(name.copy())?)
    }

    /// Removes the name of this number. The others keep their order. A number past the last one
    /// removes nothing.
    pub fn remove(&mut self, number: usize)
        ensures { self.new ≡ remove self.old number }
    {
        let _removed = self.names.shift_remove_index(number);
    }

    /// Removes the names from number `first` up to, but not including, `last`. The others keep
    /// their order.
    pub fn remove_range(&mut self, first: usize, last: usize)
        requires ordered { first ≤ last }
        requires within { last ≤ length self.old }
        ensures { self.new ≡ remove_range self.old first last }
    {
        self.names.drain(first..last);
    }

    /// Whether a name is in the set. Few names are compared one by one.
    pub fn contains(&self, name: &Name) -> bool
        ensures { result ≡ has_name name.now self.now }
    {
        if self.names.len() <= FEW_NAMES {
            self.names.as_slice().contains(name)
        } else {
            self.names.contains(name)
        }
    }

    /// Finds the number of a name, counted from 0, or `None` exactly where the name isn't in the
    /// set.
    pub fn number_of(&self, name: &Name) -> Option<usize>
        ensures number { result ≡ index_of name.now self.now }
        ensures found { is_some result ≡ has_name name.now self.now }
        ensures within { IfSome result (λ number. number < length self.now) }
    {
        self.names.get_index_of(name)
    }

    /// Finds the number of a name as `number_of` does, but looks at number `guess` first: a right
    /// guess is found without hashing. Names that are looked up in their order can be guessed, each
    /// as the one after the last one found.
    pub fn number_guessed(&self, name: &Name, guess: usize) -> Option<usize>
        ensures number { result ≡ index_of name.now self.now }
        ensures found { is_some result ≡ has_name name.now self.now }
        ensures within { IfSome result (λ number. number < length self.now) }
    {
        match self.names.as_slice().get(guess) {
            Some(known) if known == name => Some(guess),
            _ => self.names.get_index_of(name),
        }
    }
}
