ghost use Rattle.std.specs.Prelude.{◌≡◌, ◌+◌, ◌-◌, ◌^◌, min, max, OnOk};
ghost use Rattle.cl_io.specs.{Counts.RisesAlone, Names.{ChangesAlone, SameAtEach}, NameNumbers.{no_numbers, numbers_of, faults_of, longest_of, IsEntered}};

use cl_time::NoMemory;
use std::alloc::Global;
use std::collections::BTreeMap;

/// The numbers that a shelf keeps for one name.
#[derive(Clone, Copy, PartialEq, Eq)]
pub struct Numbers {
    /// How often a fetch of the name has failed. At the greatest `u64` the count stays.
    pub faults: u64,
    /// The most bytes that one fetch of the name took.
    pub longest: u64,
}

/// The numbers of every name, all 0 at first. They never fall, and a number at the greatest `u64`
/// stays there.
#[derive(Drop)]
pub struct NameNumbers {
    alloc: Global,
    entries: BTreeMap<String, Numbers>,
}

impl NameNumbers {
    /// Creates the numbers, all 0. Takes no memory.
    pub fn new(alloc: Global) -> Self
        ensures { SameAtEach (λ _. no_numbers) (numbers_of result) }
    {
        NameNumbers {
            alloc,
            entries: BTreeMap::new(alloc),
        }
    }

    /// Returns the numbers of a name.
    pub fn of(&self, name: &str) -> Numbers
        ensures { result ≡ numbers_of self.now name.now }
    {
        match self.entries.get(name) {
            Some(numbers) => *numbers,
            None => Numbers {
                faults: 0,
                longest: 0,
            },
        }
    }

    /// Makes room for the numbers of a name, so that `count_fault` and `note_taken` take no memory
    /// for it. No number changes. `NoMemory` comes where there is no memory for the room.
    pub fn enter(&mut self, name: &str) -> Result<(), NoMemory>
        ensures same { SameAtEach (numbers_of self.old) (numbers_of self.new) }
        ensures entered { OnOk result (IsEntered self.new name.now) }
    {
        if self.entries.get(name).is_none() {
            let key = String::from_str(self.alloc, name)?;
            let numbers = Numbers {
                faults: 0,
                longest: 0,
            };
            self.entries.insert(key, numbers)?;
        }
        Ok(())
    }

    /// Replaces the numbers of a name that has room.
    fn set(&mut self, name: &str, numbers: Numbers)
        requires { IsEntered self.old name.now }
        ensures { ChangesAlone name.now numbers (numbers_of self.old) (numbers_of self.new) }
    {
        if let Some(entry) = self.entries.get_mut(name) {
            *entry = numbers;
        }
    }

    /// Counts a failed fetch of a name that `enter` made room for. At the greatest `u64` the count
    /// stays. Takes no memory.
    pub fn count_fault(&mut self, name: &str)
        requires { IsEntered self.old name.now }
        ensures faults { RisesAlone name.now (faults_of self.old) (faults_of self.new) }
        ensures counted { faults_of self.new name.now
            ≡ min (faults_of self.old name.now + 1) (2 ^ 64 - 1) }
        ensures longest { SameAtEach (longest_of self.old) (longest_of self.new) }
    {
        let numbers = self.of(name);
        let faults = numbers.faults.saturating_add(1);
        self.set(name, Numbers { faults, ..numbers });
    }

    /// Notes how many bytes a fetch of a name took, for which `enter` made room: `longest` rises to
    /// that number where it is less. Takes no memory.
    pub fn note_taken(&mut self, name: &str, taken: u64)
        requires { IsEntered self.old name.now }
        ensures longest { RisesAlone name.now (longest_of self.old) (longest_of self.new) }
        ensures noted { longest_of self.new name.now ≡ max (longest_of self.old name.now) taken }
        ensures faults { SameAtEach (faults_of self.old) (faults_of self.new) }
    {
        let numbers = self.of(name);
        let longest = numbers.longest.max(taken);
        self.set(name, Numbers { longest, ..numbers });
    }
}
