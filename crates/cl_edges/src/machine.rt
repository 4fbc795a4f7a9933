//! A machine of values: its arguments, its files and its output.
ghost use Rattle.std.specs.Prelude.{◌≤◌, length, IfOk};
ghost use Rattle.std.specs.Io.{WritesAtMost};

use std::alloc::{Allocator, Global};
use std::cell::Cell;
use std::env::FillError;
use std::fmt::Display;
use std::fs::{Metadata, OpenFile, OpenOptions};
use std::io;
use std::io::{ErrorKind, Read, Seek, SeekFrom, Write};
use std::rt::{Env, Files};

/// How many bytes the machine's output can hold.
pub(crate) const OUTPUT: usize = 256;

/// The error of a read, or of a write, once no more bytes are left for it, if there is one.
pub(crate) type Failure = Option<ErrorKind>;

/// A machine with a file under one name, whose reads give at most `step` bytes each and then the
/// end or an error, and with an output that takes `room` bytes, at most seven at a time, and then
/// nothing or an error. Where `letters` isn't 0, under every other name there is a file of
/// `letters` times `x`; its bytes are made as they are read.
#[derive(Drop)]
pub(crate) struct Machine<'a> {
    pub(crate) alloc: Global,
    pub(crate) arguments: &'a [&'a [u8]],
    pub(crate) name: &'a str,
    pub(crate) content: &'a [u8],
    pub(crate) letters: u64,
    pub(crate) step: usize,
    pub(crate) read_failure: Failure,
    pub(crate) room: Cell<usize>,
    pub(crate) write_failure: Failure,
    pub(crate) output: Cell<[u8; OUTPUT]>,
    pub(crate) written: Cell<usize>,
}

impl<'a> Machine<'a> {
    /// Makes a machine whose file is read whole, and whose output takes all that it can hold.
    pub(crate) fn new(
        alloc: Global,
        arguments: &'a [&'a [u8]],
        name: &'a str,
        content: &'a [u8],
    ) -> Machine<'a> {
        Machine {
            alloc,
            arguments,
            name,
            content,
            letters: 0,
            step: 4096,
            read_failure: None,
            room: Cell::new(OUTPUT),
            write_failure: None,
            output: Cell::new([0; OUTPUT]),
            written: Cell::new(0),
        }
    }

    /// Returns the buffer of the output, and how many bytes of it were written.
    pub(crate) fn output(&self) -> ([u8; OUTPUT], usize)
        ensures { result.1 ≤ 256 }
    {
        (self.output.get(), self.written.get().min(OUTPUT))
    }
}

impl Alloc for Machine<'_> {
    type A = Global;

    fn alloc(&self) -> Global {
        self.alloc
    }
}

impl Env for Machine<'_> {
    fn arg(&self, i: usize, buf: &mut [u8]) -> Result<usize, FillError>
        ensures bound { WritesAtMost result buf.new }
    {
        let Some(argument) = self.arguments.get(i) else {
            return Err(FillError::NotPresent);
        };
        if argument.len() > buf.len() {
            return Err(FillError::TooLong);
        }
        buf[..argument.len()].copy_from_slice(argument);
        Ok(argument.len())
    }

    fn var(&self, _name: &str, buf: &mut [u8]) -> Result<usize, FillError>
        ensures bound { WritesAtMost result buf.new }
    {
        Err(FillError::NotPresent)
    }

    fn var_at(&self, _i: usize, buf: &mut [u8]) -> Result<usize, FillError>
        ensures bound { WritesAtMost result buf.new }
    {
        Err(FillError::NotPresent)
    }
}

impl Print for Machine<'_> {
    fn print<D: Display + Drop>(&self, _value: D) -> io::Result<()> {
        Err(unsupported())
    }

    fn println<D: Display + Drop>(&self, _value: D) -> io::Result<()> {
        Err(unsupported())
    }

    fn write_all(&self, _bytes: &[u8]) -> io::Result<()> {
        Err(unsupported())
    }

    fn write_some(&self, bytes: &[u8]) -> io::Result<usize>
        ensures bound { IfOk result (λ n. n ≤ length bytes.now) }
    {
        let start = self.written.get().min(OUTPUT);
        let left = self.room.get().min(OUTPUT - start);
        if left == 0
            && let Some(kind) = self.write_failure
        {
            return Err(io::Error::from(kind));
        }
        let taken = bytes.len().min(left).min(7);
        let mut output = self.output.get();
        output[start..start + taken].copy_from_slice(&bytes[..taken]);
        self.output.set(output);
        self.written.set(start + taken);
        self.room.set(left - taken);
        Ok(taken)
    }
}

/// What is left of a file of the machine: `letters` times `x`, and behind them the bytes of `left`.
/// A file has only one of the two.
#[derive(Drop)]
pub(crate) struct MachineFile<'a> {
    left: &'a [u8],
    letters: u64,
    step: usize,
    failure: Failure,
}

impl MachineFile<'_> {
    /// Fills the buffer with letters that are left, at most 1,048,576, and returns how many.
    fn spell(&mut self, buf: &mut [u8]) -> usize
        ensures { result ≤ length buf.old }
    {
        let given = buf.len().min(self.letters.min(1 << 20) as usize);
        buf[..given].fill(b'x');
        self.letters -= given as u64;
        given
    }
}

impl Read for MachineFile<'_> {
    fn read(&mut self, buf: &mut [u8]) -> io::Result<usize> {
        if self.letters > 0 {
            return Ok(self.spell(buf));
        }
        if self.left.is_empty()
            && let Some(kind) = self.failure
        {
            return Err(io::Error::from(kind));
        }
        let given = self.left.len().min(self.step).min(buf.len());
        buf[..given].copy_from_slice(&self.left[..given]);
        self.left = &self.left[given..];
        Ok(given)
    }
}

impl Write for MachineFile<'_> {
    fn write(&mut self, _buf: &[u8]) -> io::Result<usize> {
        Err(unsupported())
    }

    fn flush(&mut self) -> io::Result<()> {
        Err(unsupported())
    }
}

impl Seek for MachineFile<'_> {
    fn seek(&mut self, _to: SeekFrom) -> io::Result<u64> {
        Err(unsupported())
    }
}

impl OpenFile for MachineFile<'_> {
    fn metadata(&self) -> io::Result<Metadata> {
        Err(unsupported())
    }

    fn set_len(&self, _size: u64) -> io::Result<()> {
        Err(unsupported())
    }

    fn sync_all(&self) -> io::Result<()> {
        Err(unsupported())
    }

    fn sync_data(&self) -> io::Result<()> {
        Err(unsupported())
    }
}

impl<'a> Files for Machine<'a> {
    type File = MachineFile<'a>;

    type Dir = MachineFile<'a>;

    fn open_file(&self, _how: &OpenOptions, path: &str) -> io::Result<MachineFile<'a>> {
        if path != self.name && self.letters == 0 {
            return Err(io::Error::from(ErrorKind::NotFound));
        }
        let (left, letters) = if path == self.name {
            (self.content, 0)
        } else {
            (&[][..], self.letters)
        };
        Ok(MachineFile {
            left,
            letters,
            step: self.step,
            failure: self.read_failure,
        })
    }

    fn open_dir(&self, _path: &str) -> io::Result<MachineFile<'a>> {
        Err(unsupported())
    }

    fn metadata(&self, _path: &str) -> io::Result<Metadata> {
        Err(unsupported())
    }

    fn symlink_metadata(&self, _path: &str) -> io::Result<Metadata> {
        Err(unsupported())
    }

    fn copy(&self, _from: &str, _to: &str) -> io::Result<u64> {
        Err(unsupported())
    }

    fn rename(&self, _from: &str, _to: &str) -> io::Result<()> {
        Err(unsupported())
    }

    fn remove_file(&self, _path: &str) -> io::Result<()> {
        Err(unsupported())
    }

    fn create_dir(&self, _path: &str) -> io::Result<()> {
        Err(unsupported())
    }

    fn remove_dir(&self, _path: &str) -> io::Result<()> {
        Err(unsupported())
    }

    fn remove_dir_all<B: Allocator>(&self, _alloc: B, _path: &str) -> io::Result<()> {
        Err(unsupported())
    }
}

fn unsupported() -> io::Error {
    io::Error::from(ErrorKind::Unsupported)
}
