ghost use Rattle.std.specs.Prelude.{◌≡◌, List, ℕ, take, IfSome, IfOk, IfErr, IsErrAnd};
ghost use Rattle.cl_io.specs.{Counts.{counted, RisesAlone}, Names.SameAtEach, NameNumbers.{numbers_of, faults_of, longest_of, IsEntered}, Shelf.{Untold, MayAnswer}};
ghost use Rattle.cl_engine.specs.{Edges.{IsFaultOfError, Settles, ReadsWithin}, Inner.Within.IsWithin};

use cl_io::{FetchFault, NameNumbers, Shelf};
use std::alloc::Global;
use std::io::{ErrorKind, Read};
use std::rt::Files;
use std::{fs, io};

/// The files of a runtime, as a shelf. It doesn't tell what lies under a name, and hands each name
/// to the runtime as it stands.
#[derive(Drop)]
pub struct FileShelf<'a, R: Files> {
    files: &'a R,
    numbers: NameNumbers,
}

impl<'a, R: Files> FileShelf<'a, R> {
    /// Makes a shelf on which both numbers of every name are 0. Takes no memory.
    pub fn new(alloc: Global, files: &'a R) -> Self
        ensures faults { SameAtEach (λ _. 0) (⟦<FileShelf<'a, R> as Shelf>⟧.faults result) }
        ensures longest { SameAtEach (λ _. 0) (⟦<FileShelf<'a, R> as Shelf>⟧.longest result) }
    {
        FileShelf {
            files,
            numbers: NameNumbers::new(alloc),
        }
    }
}

impl<R: Files> Shelf for FileShelf<'_, R> {
    ghost held = { λ _ _. Untold };

    ghost faults = { λ s. faults_of s.numbers };

    ghost longest = { λ s. longest_of s.numbers };

    fn fetch(&mut self, alloc: Global, name: &str, limit: u64) -> Result<Vec<u8>, FetchFault> {
        if self.numbers.enter(name).is_err() {
            return Err(FetchFault::NoMemory);
        }
        let answer = fetched(self.files, alloc, name, limit);
        note(&mut self.numbers, name, &answer);
        answer
    }
}

/// Reads the file of exactly this name, where it has at most `limit` bytes.
fn fetched<R: Files>(
    files: &R,
    alloc: Global,
    name: &str,
    limit: u64,
) -> Result<Vec<u8>, FetchFault>
    ensures { IsWithin limit result }
{
    read_opened(alloc, fs::open(files, name), limit)
}

/// Reads an opened file, where it has at most `limit` bytes. Where the opening failed, want of
/// memory gives `NoMemory`, and every other error `Failed`.
fn read_opened<T: Read + Drop>(
    alloc: Global,
    answer: io::Result<T>,
    limit: u64,
) -> Result<Vec<u8>, FetchFault>
    ensures opened { IfOk answer
        (λ reader. IfSome (T.remaining reader) (λ left. ReadsWithin left limit result)) }
    ensures unopened { IfErr answer (λ error. IsErrAnd result (IsFaultOfError error)) }
    ensures within { IsWithin limit result }
{
    match answer {
        Ok(reader) => read_within(alloc, reader, limit),
        Err(unopened) => Err(fault_of(&unopened)),
    }
}

/// Records the answer of a fetch in the numbers of its name: how many bytes were taken, or one more
/// fault, or nothing for want of memory.
fn note(numbers: &mut NameNumbers, name: &str, answer: &Result<Vec<u8>, FetchFault>)
    requires { IsEntered numbers.old name.now }
    ensures faults { RisesAlone name.now (faults_of numbers.old) (faults_of numbers.new) }
    ensures longest { RisesAlone name.now (longest_of numbers.old) (longest_of numbers.new) }
    ensures noted { (limit : ℕ) → IsWithin limit answer.now
        → MayAnswer Untold limit (numbers_of numbers.old name.now) (numbers_of numbers.new name.now) answer.now }
{
    match answer {
        Ok(bytes) => numbers.note_taken(name, bytes.len() as u64),
        Err(FetchFault::Long { taken }) => numbers.note_taken(name, *taken),
        Err(FetchFault::Failed) => numbers.count_fault(name),
        Err(FetchFault::NoMemory) => {}
    }
}

/// Reads all that a reader has left, where that is at most `limit` bytes. A file that was read in
/// part is never given as the whole.
fn read_within<T: Read + Drop>(alloc: Global, reader: T, limit: u64) -> Result<Vec<u8>, FetchFault>
    ensures reads { IfSome (T.remaining reader) (λ left. ReadsWithin left limit result) }
    ensures within { IsWithin limit result }
{
    settle(read_past(alloc, reader, limit), limit)
}

/// Reads what the reader has left, but no more than one byte past the limit.
fn read_past<T: Read + Drop>(alloc: Global, reader: T, limit: u64) -> io::Result<Vec<u8>>
    ensures { IfSome (T.remaining reader)
        (λ left. IfOk result (λ bytes. bytes.items ≡ take (counted limit) left)) }
{
    let mut bytes = Vec::new(alloc);
    reader
        .take(limit.saturating_add(1))
        .read_to_end(&mut bytes)?;
    Ok(bytes)
}

/// Converts what the reading of a file gave: its bytes, `Long` where they are more than the limit,
/// or the fault of the error.
fn settle(answer: io::Result<Vec<u8>>, limit: u64) -> Result<Vec<u8>, FetchFault>
    ensures { Settles answer limit result }
{
    match answer {
        Ok(bytes) => {
            let taken = bytes.len() as u64;
            if taken > limit {
                return Err(FetchFault::Long { taken });
            }
            Ok(bytes)
        }
        Err(error) => Err(fault_of(&error)),
    }
}

/// Converts an error of the system to a fault: want of memory to `NoMemory`, and every other to
/// `Failed`.
fn fault_of(error: &io::Error) -> FetchFault
    ensures { IsFaultOfError error.now result }
{
    if error.kind() == ErrorKind::OutOfMemory {
        FetchFault::NoMemory
    } else {
        FetchFault::Failed
    }
}
