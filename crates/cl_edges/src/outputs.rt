//! The output of a machine, and a sink in memory, once they fail.
use crate::machine::{Failure, Machine};
use cl_io::{MemSink, Sink, SinkFault, WriteFault, write_all};
use cl_top::OutSink;
use std::alloc::Global;
use std::io::ErrorKind;
use std::process::Abort;
use std::test::Fail;

/// Asserts what a machine's output has taken where it has room for ten bytes and then fails in this
/// way.
fn assert_full(rt: &impl Abort, alloc: Global, failure: Failure) {
    let mut machine = Machine::new(alloc, &[], "", b"");
    machine.room.set(10);
    machine.write_failure = failure;
    assert_taken(rt, &machine);
    let (output, written) = machine.output();
    assert_eq!(rt; &output[..written], b"words refu".as_slice());
}

/// Asserts how a machine's output with room for ten bytes fails.
fn assert_taken(rt: &impl Abort, machine: &Machine) {
    let mut sink = OutSink::new(machine);
    assert_eq!(rt;
        write_all(&mut sink, b"words refused\n").err(),
        Some(WriteFault::Failed { written: 10 })
    );
    assert_eq!(rt; sink.write(b"more").err(), Some(SinkFault::Failed));
}

#[test]
fn an_output_is_written_until_it_fails(rt: HostRuntime) {
    assert_full(&rt, rt.alloc(), None);
    assert_full(&rt, rt.alloc(), Some(ErrorKind::Other));
}

#[test]
fn nothing_of_nothing_is_no_failure(rt: HostRuntime) -> Result<(), Fail> {
    let machine = Machine::new(rt.alloc(), &[], "", b"");
    assert_eq!(rt; OutSink::new(&machine).write(b"")?, 0);
    Ok(())
}

#[test]
fn a_text_is_written_to_the_standard_output(rt: HostRuntime) -> Result<(), Fail> {
    let mut stdout = OutSink::new(&rt);
    write_all(&mut stdout, b"written to the standard output\n")?;
    Ok(())
}

#[test]
fn a_first_write_that_fails_with_room_left_writes_nothing(rt: HostRuntime) -> Result<(), Fail> {
    let mut sink = MemSink::new(rt.alloc(), 64, 4)?;
    sink.fail_call(0)?;
    assert_eq!(rt;
        write_all(&mut sink, b"twelve bytes").err(),
        Some(WriteFault::Failed { written: 0 })
    );
    assert_eq!(rt; sink.bytes(), b"".as_slice());
    Ok(())
}
