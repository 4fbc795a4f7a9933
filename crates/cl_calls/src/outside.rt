//! Tests of shelves and sinks in memory of which a call in the middle fails.
use cl_io::{MemShelf, MemSink, Shelf, write_all};
use cl_time::NoMemory;
use std::alloc::Global;
use std::test::Fail;

/// Fetches a file, and writes its text or the fault.
fn fetched<S: Shelf>(
    alloc: Global,
    shelf: &mut S,
    name: &str,
    limit: u64,
) -> Result<String, NoMemory> {
    match shelf.fetch(alloc, name, limit) {
        Ok(bytes) => Ok(String::from_utf8_lossy(alloc, bytes.as_slice())?),
        Err(fault) => Ok(format!(in alloc; "{fault:?}")?),
    }
}

/// Fetches these names, each up to its limit, and writes what each gives.
fn all_fetched<S: Shelf>(
    alloc: Global,
    shelf: &mut S,
    asked: &[(&str, u64)],
) -> Result<String, NoMemory> {
    let mut text = String::new(alloc);
    for (name, limit) in asked {
        text.push_str(&fetched(alloc, shelf, name, *limit)?)?;
        text.push_str("; ")?;
    }
    Ok(text)
}

/// Puts a file on a shelf of which the second fetch fails.
fn put_failing(shelf: &mut MemShelf) -> Result<(), NoMemory> {
    shelf.put("model", b"bytes")?;
    shelf.fail_call(1)
}

#[test]
fn a_shelf_fails_where_it_is_told_to(rt: HostRuntime) -> Result<(), Fail> {
    let alloc = rt.alloc();
    let mut shelf = MemShelf::new(alloc);
    put_failing(&mut shelf)?;
    let text = all_fetched(
        alloc,
        &mut shelf,
        &[("model", 5), ("model", 5), ("model", 5)],
    )?;
    assert_eq!(rt; text.as_str(), "bytes; Failed; bytes; ");
    Ok(())
}

/// Writes these pieces to a sink, and puts for each what was answered and what the sink has taken
/// by then.
fn all_written(alloc: Global, sink: &mut MemSink, pieces: &[&[u8]]) -> Result<String, NoMemory> {
    let mut text = String::new(alloc);
    for piece in pieces {
        let answer = write_all(sink, piece);
        text.push_str(&format!(in alloc; "{answer:?} ")?)?;
        text.push_str(&String::from_utf8_lossy(alloc, sink.bytes())?)?;
        text.push_str("; ")?;
    }
    Ok(text)
}

/// Writes two pieces to a sink whose third write fails.
fn failing(alloc: Global, sink: &mut MemSink) -> Result<String, NoMemory> {
    sink.fail_call(2)?;
    all_written(alloc, sink, &[b"twelve bytes", b"ytes"])
}

#[test]
fn a_sink_fails_where_it_is_told_to(rt: HostRuntime) -> Result<(), Fail> {
    let alloc = rt.alloc();
    let mut sink = MemSink::new(alloc, 64, 4)?;
    let text = failing(alloc, &mut sink)?;
    let wanted = "Err(Failed { written: 8 }) twelve b; Ok(()) twelve bytes; ";
    assert_eq!(rt; text.as_str(), wanted);
    Ok(())
}
