//! Files of a machine of values, and real ones.
use crate::machine::Machine;
use cl_io::{FetchFault, Shelf};
use cl_top::FileShelf;
use std::alloc::Global;
use std::fs;
use std::io::ErrorKind;
use std::process::Abort;
use std::test::Fail;

/// Asserts how a fetch of a file of twelve bytes fails whose reads end with an error of this kind:
/// with the fault, where all bytes are wanted, and with `Long`, where one byte is past the limit.
fn assert_failing(rt: &impl Abort, alloc: Global, kind: ErrorKind, fault: FetchFault) {
    let mut machine = Machine::new(alloc, &[], "model", b"twelve bytes");
    machine.step = 5;
    machine.read_failure = Some(kind);
    assert_fault(rt, alloc, &machine, ("model", 64), fault);
    // the bytes past the limit are there before the error comes
    assert_fault(
        rt,
        alloc,
        &machine,
        ("model", 11),
        FetchFault::Long { taken: 12 },
    );
}

/// Asserts how the fetch of a name with a limit fails.
fn assert_fault(
    rt: &impl Abort,
    alloc: Global,
    machine: &Machine,
    fetch: (&str, u64),
    fault: FetchFault,
) {
    let (name, limit) = fetch;
    let mut shelf = FileShelf::new(alloc, machine);
    assert_eq!(rt; shelf.fetch(alloc, name, limit).err(), Some(fault));
}

#[test]
fn a_file_that_fails_in_its_middle_is_never_given(rt: HostRuntime) {
    let alloc = rt.alloc();
    assert_failing(&rt, alloc, ErrorKind::Other, FetchFault::Failed);
    assert_failing(&rt, alloc, ErrorKind::UnexpectedEof, FetchFault::Failed);
    assert_failing(&rt, alloc, ErrorKind::OutOfMemory, FetchFault::NoMemory);
}

#[test]
fn a_file_is_read_whole_in_pieces(rt: HostRuntime) -> Result<(), Fail> {
    let alloc = rt.alloc();
    let mut machine = Machine::new(alloc, &[], "model", b"twelve bytes");
    machine.step = 5;
    assert_whole(&rt, alloc, &machine)?;
    assert_fault(
        &rt,
        alloc,
        &machine,
        ("model", 3),
        FetchFault::Long { taken: 4 },
    );
    assert_fault(&rt, alloc, &machine, ("mode", 12), FetchFault::Failed);
    Ok(())
}

/// Asserts that a file of twelve bytes is fetched whole.
fn assert_whole(rt: &impl Abort, alloc: Global, machine: &Machine) -> Result<(), FetchFault> {
    let mut shelf = FileShelf::new(alloc, machine);
    let whole = shelf.fetch(alloc, "model", 12)?;
    assert_eq!(rt; whole.as_slice(), b"twelve bytes".as_slice());
    Ok(())
}

/// A file of the machine that the tests run on.
const REAL: &str = "cl_edges_shelf.test";

#[test]
fn a_real_file_is_taken_to_the_limit(rt: HostRuntime) -> Result<(), Fail> {
    let alloc = rt.alloc();
    fs::write(&rt, REAL, "twelve bytes")?;
    let mut shelf = FileShelf::new(alloc, &rt);
    let whole = shelf.fetch(alloc, REAL, 12)?;
    let short = shelf.fetch(alloc, REAL, 11);
    let endless = shelf.fetch(alloc, REAL, u64::MAX)?;
    fs::remove_file(&rt, REAL)?;
    let absent = shelf.fetch(alloc, REAL, 12);
    let directory = shelf.fetch(alloc, ".", 12);
    assert_eq!(rt; whole.as_slice(), b"twelve bytes".as_slice());
    assert_eq!(rt; short.err(), Some(FetchFault::Long { taken: 12 }));
    assert_eq!(rt; endless.as_slice(), b"twelve bytes".as_slice());
    assert_eq!(rt; absent.err(), Some(FetchFault::Failed));
    assert_eq!(rt; directory.err(), Some(FetchFault::Failed));
    Ok(())
}

#[test]
fn a_large_real_file_is_read_whole(rt: HostRuntime) -> Result<(), Fail> {
    let alloc = rt.alloc();
    let name = "cl_edges_large.test";
    let content = "chainlat ".repeat(alloc, 20_000)?;
    fs::write(&rt, name, content.as_str())?;
    let mut shelf = FileShelf::new(alloc, &rt);
    let whole = shelf.fetch(alloc, name, 16_777_216)?;
    fs::remove_file(&rt, name)?;
    assert_eq!(rt; whole.as_slice(), content.as_bytes());
    Ok(())
}
