//! Traces at the limit of their bytes, and one past it, on a machine that makes them as they are
//! read.
use crate::machine::Machine;
use crate::models::EMPTY;
use cl_top::{TRACE_LIMIT, start};
use std::alloc::Global;
use std::process::Abort;

/// Asserts what the replay of a trace of `letters` times `x` ends with and writes.
fn assert_trace(rt: &impl Abort, alloc: Global, letters: u64, status: u8, text: &[u8]) {
    let arguments: [&[u8]; 4] = [b"chainlat", b"replay", b"model", b"trace"];
    let mut machine = Machine::new(alloc, &arguments, "model", EMPTY.as_bytes());
    machine.letters = letters;
    assert_eq!(rt; start(&machine), status);
    let (output, written) = machine.output();
    assert_eq!(rt; &output[..written], text);
}

#[test]
fn a_trace_is_read_to_its_limit(rt: HostRuntime) {
    assert_eq!(rt; TRACE_LIMIT, 268_435_456);
    let refused = b"trace refused line 1\n";
    assert_trace(&rt, rt.alloc(), 268_435_456, 6, refused);
    assert_trace(&rt, rt.alloc(), 268_435_457, 4, b"long file 2\n");
}
