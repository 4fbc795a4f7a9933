//! File words of every kind, files that are no texts, and shelves and sinks that never fail.
use crate::calls::{analysed, analysis_of, answered_over, of_two_files, run_surely_here};
use crate::models::EMPTY;
use cl_io::{SureShelf, SureSink};
use cl_time::NoMemory;
use cl_top::FILE_LIMIT;
use std::alloc::Global;
use std::process::Abort;
use std::test::Fail;

/// Asserts what the analysis of a model without an entry, in a file of this name, answers.
fn assert_name(rt: &impl Abort, alloc: Global, name: &str) -> Result<(), NoMemory> {
    let found = analysed(alloc, name, EMPTY.as_bytes())?;
    assert_eq!(rt; found.as_str(), "0 chainlat report 1\n", "{name}");
    Ok(())
}

#[test]
fn a_file_word_may_be_any_text(rt: HostRuntime) -> Result<(), Fail> {
    for name in ["", " ", "a b ", "analyse", "\u{e4}/../\n"] {
        assert_name(&rt, rt.alloc(), name)?;
    }
    Ok(())
}

/// Returns the answer to the analysis of a file of `len` bytes that are no text.
fn answer_of_bytes(alloc: Global, len: usize) -> Result<String, NoMemory> {
    let content = vec![in alloc; 0xff; len]?;
    analysed(alloc, "model", content.as_slice())
}

/// Asserts what is answered to a file of `len` bytes that are no text.
fn assert_bytes(rt: &impl Abort, alloc: Global, len: usize, wanted: &str) -> Result<(), NoMemory> {
    let found = answer_of_bytes(alloc, len)?;
    assert_eq!(rt; found.as_str(), wanted, "{len}");
    Ok(())
}

#[test]
fn a_file_is_read_to_its_limit(rt: HostRuntime) -> Result<(), Fail> {
    assert_eq!(rt; FILE_LIMIT, 16_777_216);
    let alloc = rt.alloc();
    assert_bytes(&rt, alloc, 0, "5 model refused M2 top.format\n")?;
    assert_bytes(&rt, alloc, 1, "5 model refused M1 top\n")?;
    assert_bytes(&rt, alloc, 16_777_216, "5 model refused M1 top\n")?;
    assert_bytes(&rt, alloc, 16_777_217, "4 long file 1\n")?;
    Ok(())
}

#[test]
fn sure_shelves_and_sinks_never_fail(rt: HostRuntime) -> Result<(), Fail> {
    let alloc = rt.alloc();
    let words = analysis_of(alloc, "nothing")?;
    let mut shelf = SureShelf::new(alloc);
    let mut sink = SureSink::new();
    assert_eq!(rt; run_surely_here(alloc, &words, &mut shelf, &mut sink), 5);
    assert_eq!(rt; sink.taken(), 28);
    Ok(())
}

#[test]
fn what_a_sure_shelf_lacks_is_an_empty_file(rt: HostRuntime) -> Result<(), Fail> {
    let alloc = rt.alloc();
    let words = analysis_of(alloc, "nothing")?;
    let mut shelf = SureShelf::new(alloc);
    let found = answered_over(alloc, &words, &mut shelf)?;
    assert_eq!(rt; found.as_str(), "5 model refused M2 top.format\n");
    Ok(())
}

/// Makes a sure shelf with a model without an entry, and a second file.
fn shelf_with(alloc: Global, second: &[u8]) -> Result<SureShelf, NoMemory> {
    let mut shelf = SureShelf::new(alloc);
    shelf.put("model", EMPTY.as_bytes())?;
    shelf.put("second", second)?;
    Ok(shelf)
}

/// Asserts what a command on a model without an entry and a second file answers over a sure shelf:
/// this status and text into a sink in memory, and the same status into a sure sink.
fn assert_sure(
    rt: &impl Abort,
    alloc: Global,
    verb: &str,
    second: &[u8],
    status: u8,
    wanted: &str,
) -> Result<(), NoMemory> {
    let words = of_two_files(alloc, verb, "model", "second")?;
    let found = answered_over(alloc, &words, &mut shelf_with(alloc, second)?)?;
    assert_eq!(rt; found.as_str(), wanted, "{verb}");
    let mut shelf = shelf_with(alloc, second)?;
    let mut sink = SureSink::new();
    assert_eq!(rt;
        run_surely_here(alloc, &words, &mut shelf, &mut sink),
        status
    );
    Ok(())
}

#[test]
fn replays_and_edits_over_sure_shelves_never_fail(rt: HostRuntime) -> Result<(), Fail> {
    let alloc = rt.alloc();
    let trace = b"chainlat trace 1\nticks 0\nend\n";
    assert_sure(&rt, alloc, "replay", trace, 0, "0 chainlat replay 1\n")?;
    assert_sure(&rt, alloc, "replay", b"x", 6, "6 trace refused line 1\n")?;
    let edits = b"chainlat edits 1\nreport\n";
    assert_sure(&rt, alloc, "edit", edits, 0, "0 chainlat report 1\n")?;
    let written = "0 format = \"chainlat\"\nversion = 2\n";
    assert_sure(&rt, alloc, "apply", edits, 0, written)?;
    let refused = "7 edits refused line 1 E1 top\n";
    assert_sure(&rt, alloc, "edit", b"x", 7, refused)?;
    assert_sure(&rt, alloc, "apply", b"x", 7, refused)?;
    Ok(())
}
