ghost use Rattle.std.specs.Prelude.{◌≡◌, None, Some, OnOk, OnErr};
ghost use Rattle.std.specs.Option.{option_copied};
ghost use Rattle.cl_io.specs.{Names.{ChangesAlone, SameAtEach}, Files.file_of};

use cl_time::NoMemory;
use std::alloc::Global;
use std::collections::BTreeMap;

/// The files of a shelf in memory, by name.
#[derive(Drop)]
pub(crate) struct Files {
    alloc: Global,
    entries: BTreeMap<String, Vec<u8>>,
}

impl Files {
    /// Creates an empty list of files. Takes no memory.
    pub(crate) fn new(alloc: Global) -> Self
        ensures { SameAtEach (λ _. None) (file_of result) }
    {
        Files {
            alloc,
            entries: BTreeMap::new(alloc),
        }
    }

    /// Returns the bytes of the file with this name, or `None` where there is no such file.
    pub(crate) fn get(&self, name: &str) -> Option<&[u8]>
        ensures { option_copied result ≡ file_of self.now name.now }
    {
        match self.entries.get(name) {
            Some(content) => Some(content.as_slice()),
            None => None,
        }
    }

    /// Puts a file under a name in place of one that was there. After `NoMemory` each file is as it
    /// was.
    pub(crate) fn put(&mut self, name: &str, content: &[u8]) -> Result<(), NoMemory>
        ensures ok { OnOk result
            (ChangesAlone name.now (Some content.now) (file_of self.old) (file_of self.new)) }
        ensures err { OnErr result (SameAtEach (file_of self.old) (file_of self.new)) }
    {
        let key = String::from_str(self.alloc, name)?;
        let bytes = Vec::from_slice(self.alloc, content)?;
        self.entries.insert(key, bytes)?;
        Ok(())
    }
}
