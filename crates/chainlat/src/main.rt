//! `chainlat`: the program that bounds the end-to-end latency of cause-effect chains. It does what
//! `start` of `cl_top` does.
#![tactic(auto)]

use cl_top::start;
use std::process::ExitCode;

fn main(rt: HostRuntime) -> ExitCode {
    ExitCode::from(start(&rt))
}
