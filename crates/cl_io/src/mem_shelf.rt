ghost use Rattle.std.specs.Prelude.{◌≡◌, ◌∷◌, ◌++◌, ◌+◌, ◌-◌, ◌^◌, List, [], ℕ, min, OnOk, OnErr};
ghost use Rattle.cl_io.specs.{Counts.RisesAlone, Names.{ChangesAlone, SameAtEach}, NameNumbers.{no_numbers, faults_of, longest_of, IsEntered}, Shelf.{Absent, Content, MayAnswer}, Inner.Giving.IsGiven, MemShelf.{mem_held, mem_numbers, failing_calls, calls_made, fetch_fails_next}};
ghost use Rattle.cl_io.specs.MemShelf.{FailsExactly, CountsFaults};

use crate::files::Files;
use crate::{FetchFault, NameNumbers, Shelf};
use cl_time::NoMemory;
use std::alloc::Global;

/// A shelf in memory that tells what it holds and fails where it is told to. A fetch of a name that
/// it doesn't hold fails too.
#[derive(Drop)]
pub struct MemShelf {
    files: Files,
    numbers: NameNumbers,
    failing: Vec<u64>,
    calls: u64,
}

impl MemShelf {
    /// Creates an empty shelf. Both numbers of each name are 0. Takes no memory.
    pub fn new(alloc: Global) -> Self
        ensures held { SameAtEach (λ _. Absent) (mem_held result) }
        ensures numbers { SameAtEach (λ _. no_numbers) (mem_numbers result) }
        ensures failing { failing_calls result ≡ [] }
        ensures calls { calls_made result ≡ 0 }
    {
        MemShelf {
            files: Files::new(alloc),
            numbers: NameNumbers::new(alloc),
            failing: Vec::new(alloc),
            calls: 0,
        }
    }

    /// Puts a file on the shelf under a name, in place of one that was there. After `NoMemory` the
    /// shelf holds what it held.
    pub fn put(&mut self, name: &str, content: &[u8]) -> Result<(), NoMemory>
        ensures ok { OnOk result
            (ChangesAlone name.now (Content content.now) (mem_held self.old) (mem_held self.new)) }
        ensures err { OnErr result (SameAtEach (mem_held self.old) (mem_held self.new)) }
        ensures numbers { SameAtEach (mem_numbers self.old) (mem_numbers self.new) }
        ensures failing { failing_calls self.new ≡ failing_calls self.old }
        ensures calls { calls_made self.new ≡ calls_made self.old }
    {
        self.files.put(name, content)
    }

    /// Makes the fetch with this number fail, counted from 0 over all fetches of the shelf. After
    /// `NoMemory` the shelf is as it was.
    pub fn fail_call(&mut self, call: u64) -> Result<(), NoMemory>
        ensures ok { OnOk result (failing_calls self.new ≡ failing_calls self.old ++ call ∷ []) }
        ensures err { OnErr result (failing_calls self.new ≡ failing_calls self.old) }
        ensures held { SameAtEach (mem_held self.old) (mem_held self.new) }
        ensures numbers { SameAtEach (mem_numbers self.old) (mem_numbers self.new) }
        ensures calls { calls_made self.new ≡ calls_made self.old }
    {
        self.failing.push(call)?;
        Ok(())
    }
}

impl Shelf for MemShelf {
    ghost held = { mem_held };

    ghost faults = { λ s name. (mem_numbers s name).faults };

    ghost longest = { λ s name. (mem_numbers s name).longest };

    fn fetch(&mut self, alloc: Global, name: &str, limit: u64) -> Result<Vec<u8>, FetchFault>
        ensures same { SameAtEach (mem_held self.old) (mem_held self.new) }
        ensures faults { RisesAlone name.now (λ n. (mem_numbers self.old n).faults)
            (λ n. (mem_numbers self.new n).faults) }
        ensures longest { RisesAlone name.now (λ n. (mem_numbers self.old n).longest)
            (λ n. (mem_numbers self.new n).longest) }
        ensures answer { MayAnswer (mem_held self.old name.now) limit
            (mem_numbers self.old name.now) (mem_numbers self.new name.now) result }

        // As it was told to, and nothing is forgotten of that.
        ensures scripted { FailsExactly (fetch_fails_next self.old name.now) result }
        ensures counted { CountsFaults (mem_numbers self.old name.now).faults (mem_numbers self.new name.now).faults result }
        ensures failing { failing_calls self.new ≡ failing_calls self.old }
        ensures calls { calls_made self.new ≡ min (calls_made self.old + 1) (2 ^ 64 - 1) }
    {
        let call = self.calls;
        self.calls = call.saturating_add(1);
        if self.numbers.enter(name).is_err() {
            return Err(FetchFault::NoMemory);
        }
        match self.files.get(name) {
            Some(content) if !self.failing.contains(&call) => {
                give(alloc, content, name, limit, &mut self.numbers)
            }
            _ => {
                self.numbers.count_fault(name);
                Err(FetchFault::Failed)
            }
        }
    }
}

/// Returns a copy of the content under a name, or `Long` where it has more than `limit` bytes, and
/// notes how many bytes were taken. After `NoMemory` no number has changed.
pub(crate) fn give(
    alloc: Global,
    content: &[u8],
    name: &str,
    limit: u64,
    numbers: &mut NameNumbers,
) -> Result<Vec<u8>, FetchFault>
    requires { IsEntered numbers.old name.now }
    ensures faults { SameAtEach (faults_of numbers.old) (faults_of numbers.new) }
    ensures longest { RisesAlone name.now (longest_of numbers.old) (longest_of numbers.new) }
    ensures given { IsGiven content.now limit (longest_of numbers.old name.now) (longest_of numbers.new name.now) result }
{
    let taken = content.len() as u64;
    if taken > limit {
        numbers.note_taken(name, taken);
        return Err(FetchFault::Long { taken });
    }
    let bytes = match Vec::from_slice(alloc, content) {
        Ok(bytes) => bytes,
        Err(_) => return Err(FetchFault::NoMemory),
    };
    numbers.note_taken(name, taken);
    Ok(bytes)
}
