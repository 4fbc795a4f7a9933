ghost use Rattle.std.specs.Prelude.{List, [], ℕ, OnOk, OnErr};
ghost use Rattle.cl_io.specs.{Names.{ChangesAlone, SameAtEach}, Shelf.Content, MemShelf.{sure_held, sure_longest}};

use crate::files::Files;
use crate::mem_shelf::give;
use crate::{FetchFault, NameNumbers, Shelf};
use cl_time::NoMemory;
use std::alloc::Global;

/// A shelf in memory whose fetches never return `Failed`: a name under which nothing was put is an
/// empty file. They return `Long` only where the file has more bytes than the limit.
#[derive(Drop)]
pub struct SureShelf {
    files: Files,
    numbers: NameNumbers,
}

impl SureShelf {
    /// Creates a shelf on which every name is an empty file that was never fetched. Takes no
    /// memory.
    pub fn new(alloc: Global) -> Self
        ensures held { SameAtEach (λ _. Content []) (sure_held result) }
        ensures longest { SameAtEach (λ _. 0) (sure_longest result) }
    {
        SureShelf {
            files: Files::new(alloc),
            numbers: NameNumbers::new(alloc),
        }
    }

    /// Puts a file on the shelf under a name, in place of one that was there. After `NoMemory` the
    /// shelf holds what it held.
    pub fn put(&mut self, name: &str, content: &[u8]) -> Result<(), NoMemory>
        ensures ok { OnOk result
            (ChangesAlone name.now (Content content.now) (sure_held self.old) (sure_held self.new)) }
        ensures err { OnErr result (SameAtEach (sure_held self.old) (sure_held self.new)) }
        ensures longest { SameAtEach (sure_longest self.old) (sure_longest self.new) }
    {
        self.files.put(name, content)
    }
}

impl Shelf for SureShelf {
    ghost held = { sure_held };

    ghost faults = { λ _ _. 0 };

    ghost longest = { sure_longest };

    fn fetch(&mut self, alloc: Global, name: &str, limit: u64) -> Result<Vec<u8>, FetchFault> {
        if self.numbers.enter(name).is_err() {
            return Err(FetchFault::NoMemory);
        }
        match self.files.get(name) {
            Some(content) => give(alloc, content, name, limit, &mut self.numbers),
            None => give(alloc, &[], name, limit, &mut self.numbers),
        }
    }
}
