//! Commands over a shelf and a sink of which no call fails.
ghost use Rattle.std.specs.Prelude.{◌≢◌};
ghost use Rattle.cl_engine.specs.declared.status.TheConstants.{READ_FAULT, WRITE_FAULT};

use cl_io::{SureShelf, SureSink, Words};
use cl_time::Steps;
use cl_top::run;
use std::alloc::Global;
use std::sync::ledger::Ledger;

/// Runs a command as `run` does, over a shelf and a sink of which no call fails. The status is
/// neither `READ_FAULT` nor `WRITE_FAULT`.
pub fn run_surely<L: Ledger>(
    alloc: Global,
    words: &Words,
    shelf: &mut SureShelf,
    sink: &mut SureSink,
    steps: &mut Steps<L>,
) -> u8
    ensures no_read_fault { result ≢ READ_FAULT }
    ensures no_write_fault { result ≢ WRITE_FAULT }
{
    run(alloc, words, shelf, sink, steps)
}
