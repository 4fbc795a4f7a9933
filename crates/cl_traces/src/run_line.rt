//! What the run lines of a trace say. Times are in ticks.
ghost use Rattle.std.specs.Prelude.{◌≡◌, ◌<◌, length, position, Some, IfSome};
ghost use Rattle.cl_model.specs.{ByNumber.task_named, Named.same_name};
ghost use Rattle.cl_traces.specs.BadTraceLines.{run_of, run_line, run_line_at};

use crate::lines::{count_words, is, is_fed, line_word, printed_number, trace_line};
use cl_model::{TaskDef, ValidModel};

/// What a run line says: a task runs in each tick from `from` on and before `to`.
#[derive(Clone, Copy)]
pub(crate) struct RunLine {
    pub(crate) task: u32,
    pub(crate) from: u64,
    pub(crate) to: u64,
}

/// Finds the place of the first task that a word names.
fn place_of(tasks: &[TaskDef], word: &[u8]) -> Option<usize>
    ensures { result ≡ position (λ task. same_name word.now task.name) tasks.now }
{
    tasks.iter().position(|task| word == task.name.as_slice())
}

/// Finds the number of the task that a word names.
#[tactic(auto, using(crate::proofs::TasksByName::place_within))]
pub(crate) fn task_named(model: &ValidModel, word: &[u8]) -> Option<u32>
    ensures number { result ≡ task_named model.now word.now }
    ensures within { IfSome result (λ task. task < length model.now.tasks) }
{
    let place = place_of(model.plain().tasks.as_slice(), word)?;
    Some(place as u32)
}

/// Makes a run line of its task and its ticks, where there are such, and it lasts for a tick at
/// least.
fn run_of(task: Option<u32>, from: Option<u64>, to: Option<u64>) -> Option<RunLine>
    ensures line { result ≡ run_of task from to }
    ensures same { IfSome result (λ line. task ≡ Some line.task) }
{
    match (task, from, to) {
        (Some(task), Some(from), Some(to)) => {
            if from < to {
                Some(RunLine { task, from, to })
            } else {
                None
            }
        }
        _ => None,
    }
}

/// Reads a line as a run line: words with one blank between each two.
#[tactic(auto, using(crate::proofs::TasksByName::line_within))]
fn run_line(model: &ValidModel, line: &[u8]) -> Option<RunLine>
    ensures line { result ≡ run_line model.now line.now }
    ensures within { IfSome result (λ line. line.task < length model.now.tasks) }
{
    if count_words(line) == 4 && is(line_word(line, 0), "run") {
        run_of(
            task_named(model, line_word(line, 1)),
            printed_number(line_word(line, 2)),
            printed_number(line_word(line, 3)),
        )
    } else {
        None
    }
}

/// Reads the line of a number of a trace as a run line.
pub(crate) fn run_line_at(model: &ValidModel, trace: &[u8], number: usize) -> Option<RunLine>
    ensures line { result ≡ run_line_at model.now trace.now number }
    ensures within { IfSome result (λ line. line.task < length model.now.tasks) }
{
    if is_fed(trace, number) {
        run_line(model, trace_line(trace, number))
    } else {
        None
    }
}
