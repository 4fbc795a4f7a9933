//! The start of the program: its arguments, what it writes and what it ends with.
use crate::machine::{Failure, Machine};
use crate::models::{EMPTY, SPORADIC};
use cl_top::start;
use std::alloc::Global;
use std::io::ErrorKind;
use std::process::Abort;

/// The arguments of the analysis of one file.
const ANALYSE: [&[u8]; 3] = [b"chainlat", b"analyse", b"model"];

/// Asserts the status that the program ends with and what it has written.
fn assert_output(rt: &impl Abort, machine: &Machine, status: u8, text: &[u8]) {
    assert_eq!(rt; start(machine), status);
    let (output, written) = machine.output();
    assert_eq!(rt; &output[..written], text);
}

/// Asserts the same of a machine with these arguments and this file.
fn assert_start(
    rt: &impl Abort,
    alloc: Global,
    arguments: &[&[u8]],
    file: (&str, &str),
    status: u8,
    text: &[u8],
) {
    let (name, content) = file;
    let machine = Machine::new(alloc, arguments, name, content.as_bytes());
    assert_output(rt, &machine, status, text);
}

#[test]
fn a_program_without_a_command_is_refused(rt: HostRuntime) {
    let lines: [&[&[u8]]; 4] = [
        &[],
        &[b"chainlat"],
        &[b"chainlat", b"analyse", b"a", b"b"],
        &[b"analyse", b"model"],
    ];
    let file = ("model", EMPTY);
    for arguments in lines {
        assert_start(&rt, rt.alloc(), arguments, file, 2, b"words refused\n");
    }
}

#[test]
fn a_program_with_an_argument_that_is_no_text_writes_nothing(rt: HostRuntime) {
    let lines: [&[&[u8]]; 3] = [
        &[b"chainlat", b"analyse", b"\xff"],
        &[b"chainlat", b"\xc3", b"a", b"b"],
        &[b"chain\xfflat", b"analyse", b"model"],
    ];
    for arguments in lines {
        assert_start(&rt, rt.alloc(), arguments, ("model", EMPTY), 12, b"");
    }
}

#[test]
fn a_program_takes_its_words_as_they_stand(rt: HostRuntime) {
    // blanks at the ends, a blank inside, no letter at all, a sign that isn't ASCII
    for name in [" a b ", "a/../b", "", "\u{e4}\n", "--help"] {
        let arguments: [&[u8]; 3] = [b"chainlat", b"analyse", name.as_bytes()];
        let text = b"chainlat report 1\n";
        assert_start(&rt, rt.alloc(), &arguments, (name, EMPTY), 0, text);
    }
}

#[test]
fn a_name_is_not_trimmed(rt: HostRuntime) {
    let arguments: [&[u8]; 3] = [b"chainlat", b"analyse", b" a"];
    assert_start(&rt, rt.alloc(), &arguments, ("a", ""), 3, b"read fault 1\n");
}

#[test]
fn a_program_ends_with_what_its_command_answers(rt: HostRuntime) {
    let report = b"chainlat report 1\ntask S response 1 deadline 5\n";
    let refusal = b"model refused M2 top.format\n";
    assert_start(&rt, rt.alloc(), &ANALYSE, ("model", SPORADIC), 0, report);
    assert_start(&rt, rt.alloc(), &ANALYSE, ("model", ""), 5, refusal);
}

/// Asserts that the program has written ten bytes and ends with status 9, where its output has room
/// for ten bytes and then fails in this way.
fn assert_cut(rt: &impl Abort, alloc: Global, failure: Failure) {
    let mut machine = Machine::new(alloc, &ANALYSE, "model", EMPTY.as_bytes());
    machine.room.set(10);
    machine.write_failure = failure;
    assert_output(rt, &machine, 9, b"chainlat r");
}

#[test]
fn a_program_whose_output_fails_has_written_a_prefix(rt: HostRuntime) {
    assert_cut(&rt, rt.alloc(), None);
    assert_cut(&rt, rt.alloc(), Some(ErrorKind::BrokenPipe));
}
