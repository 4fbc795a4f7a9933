//! Laws of the numbers that the documentation names: statuses and limits.
ghost use Rattle.std.specs.Prelude.{◌≡◌};
ghost use Rattle.cl_model.specs.declared.limits.TheConstants.{MOST_TICKS, MOST_REQUIRED, MOST_PRIORITY, MOST_DISTANCES, LEAST_JOBS_OF_BURST, MOST_JOBS_OF_BURST, MOST_CORES, MOST_STIMULI, MOST_LABELS, MOST_TASKS, MOST_TASKS_OF_CORE, MOST_RUNNABLES, MOST_RUNNABLES_OF_MODEL, MOST_ACCESSES};
ghost use Rattle.cl_model.specs.declared.{limits.TheConstants.{MOST_CHAINS, MOST_STEPS, MOST_HOPS, MOST_REQUIREMENTS}, name.TheConstants.LONGEST_NAME};
ghost use Rattle.cl_edit.specs.declared.limits.TheConstants.{MOST_EDITS, MOST_REPORTS};
ghost use Rattle.cl_gen.specs.declared.limits.TheConstants.{MOST_RUN_TICKS, MOST_EXECUTIONS};
ghost use Rattle.cl_trace.specs.declared.limits.TheConstants.{MOST_TRACE_TICKS, MOST_TRACE_NUMBER};
ghost use Rattle.cl_exact.specs.declared.limit.TheConstants.{MOST_FIRST_JOBS};
ghost use Rattle.cl_phase.specs.declared.pace.TheConstants.{MOST_ARRIVALS};
ghost use Rattle.cl_scale.specs.declared.percent.TheConstants.{MOST_PERCENT};
ghost use Rattle.cl_picture.specs.declared.window.TheConstants.{MOST_WINDOW};
ghost use Rattle.cl_draw.specs.declared.marks.TheConstants.{MOST_ARRIVALS as MOST_MARKED};

use crate::status::{
    ARGUMENT_NOT_TEXT, DONE, EDITS_REFUSED, LONG_FILE, MODEL_REFUSED, NO_MEMORY, NOT_VERIFIED,
    READ_FAULT, SIMULATION_REFUSED, TRACE_REFUSED, WINDOW_REFUSED, WORDS_REFUSED, WRITE_FAULT,
};
use crate::{FILE_LIMIT, TRACE_LIMIT};

/// The statuses are 0 for a command that did what it says, 2 for refused words, 3 for a read fault,
/// 4 for a long file, 5 for a refused model, 6 for a refused trace, 7 for refused edits, 8 for a
/// refused simulation, 9 for a write fault, 10 for want of memory, 12 for an argument that isn't
/// text, 13 for a model that isn't verified, and 14 for a refused window.
pub fn statuses()
    ensures done { DONE ≡ 0 }
    ensures words_refused { WORDS_REFUSED ≡ 2 }
    ensures read_fault { READ_FAULT ≡ 3 }
    ensures long_file { LONG_FILE ≡ 4 }
    ensures model_refused { MODEL_REFUSED ≡ 5 }
    ensures trace_refused { TRACE_REFUSED ≡ 6 }
    ensures edits_refused { EDITS_REFUSED ≡ 7 }
    ensures simulation_refused { SIMULATION_REFUSED ≡ 8 }
    ensures write_fault { WRITE_FAULT ≡ 9 }
    ensures no_memory { NO_MEMORY ≡ 10 }
    ensures argument_not_text { ARGUMENT_NOT_TEXT ≡ 12 }
    ensures not_verified { NOT_VERIFIED ≡ 13 }
    ensures window_refused { WINDOW_REFUSED ≡ 14 }
{}

/// A model file and a list of edits have at most 16,777,216 bytes, and a trace file has at most
/// 268,435,456.
pub fn limits_of_files()
    ensures model { FILE_LIMIT ≡ 16777216 }
    ensures trace { TRACE_LIMIT ≡ 268435456 }
{}

/// In the format a time is at most 1,000,000,000,000 ticks, the length of a requirement at most
/// 1,000,000,000,000,000 ticks, and a priority at most 1,000,000. A deadline spans at most
/// 1,000,000 least distances of a task of higher priority, a burst has from 2 to 1,000,000 jobs,
/// and a name has at most 64 bytes.
pub fn limits_of_numbers()
    ensures ticks { MOST_TICKS ≡ 1000000000000 }
    ensures required { MOST_REQUIRED ≡ 1000000000000000 }
    ensures priority { MOST_PRIORITY ≡ 1000000 }
    ensures distances { MOST_DISTANCES ≡ 1000000 }
    ensures least_jobs_of_burst { LEAST_JOBS_OF_BURST ≡ 2 }
    ensures jobs_of_burst { MOST_JOBS_OF_BURST ≡ 1000000 }
    ensures name { LONGEST_NAME ≡ 64 }
{}

/// In the format a model has at most 64 cores, 1,024 stimuli, 8,192 labels, 1,024 tasks, 8,192
/// runnables, 1,024 chains and 1,024 requirements. A core has at most 128 tasks, a task has at most
/// 256 runnables, a runnable reads at most 256 labels and writes at most 256, and a chain has at
/// most 64 runnables and 63 labels.
pub fn limits_of_counts()
    ensures cores { MOST_CORES ≡ 64 }
    ensures stimuli { MOST_STIMULI ≡ 1024 }
    ensures labels { MOST_LABELS ≡ 8192 }
    ensures tasks { MOST_TASKS ≡ 1024 }
    ensures tasks_of_core { MOST_TASKS_OF_CORE ≡ 128 }
    ensures runnables { MOST_RUNNABLES ≡ 256 }
    ensures runnables_of_model { MOST_RUNNABLES_OF_MODEL ≡ 8192 }
    ensures accesses { MOST_ACCESSES ≡ 256 }
    ensures chains { MOST_CHAINS ≡ 1024 }
    ensures steps { MOST_STEPS ≡ 64 }
    ensures hops { MOST_HOPS ≡ 63 }
    ensures requirements { MOST_REQUIREMENTS ≡ 1024 }
{}

/// A list of edits has at most 4,096 edits, and at most 64 of them are reports. A run that is
/// simulated has at most 1,000,000,000 ticks and 800,000 executions of runnables. A trace has at
/// most 1,000,000,000 ticks, and arrivals, releases and execution times of at most
/// 2,000,000,000,000. Exact lengths are sought where the hyperperiod of a chain is at most
/// 1,000,000 times the lesser of its first and its last period, and tight bounds keep phases that
/// come round within 1,000,000 arrivals of a group. Headroom and margins are at most 1,000 percent.
/// A window of a picture ends at tick 1,000,000,000 at the latest, and a row with marks has at most
/// 120 arrivals.
pub fn limits_of_commands()
    ensures edits { MOST_EDITS ≡ 4096 }
    ensures reports { MOST_REPORTS ≡ 64 }
    ensures run_ticks { MOST_RUN_TICKS ≡ 1000000000 }
    ensures executions { MOST_EXECUTIONS ≡ 800000 }
    ensures trace_ticks { MOST_TRACE_TICKS ≡ 1000000000 }
    ensures trace_number { MOST_TRACE_NUMBER ≡ 2000000000000 }
    ensures first_jobs { MOST_FIRST_JOBS ≡ 1000000 }
    ensures arrivals { MOST_ARRIVALS ≡ 1000000 }
    ensures percent { MOST_PERCENT ≡ 1000 }
    ensures window { MOST_WINDOW ≡ 1000000000 }
    ensures marked { MOST_MARKED ≡ 120 }
{}
