//! Reading the lines of a trace. Each call returns what the line says and the rest of the text.
ghost use Rattle.std.specs.Prelude.{◌≡◌, ◌≢◌, ◌<◌, ◌≤◌, ℕ, List, ◌∷◌, ◌++◌, [], length, codes, IfOk, IfSome, IfNone};
ghost use Rattle.cl_text.specs.Line.{line};
ghost use Rattle.cl_model.specs.{Name.IsName, ByNumber.task_at, Validity.IsValid};
ghost use Rattle.cl_runs.specs.declared.job.Job.{Job};
ghost use Rattle.cl_trace.specs.{declared.limits.TheConstants.{MOST_TRACE_TICKS, MOST_TRACE_NUMBER}, Trace.{numbers, ticks_words, run_words, JobOf, Runs, item_text}, Rules.IsJobOf, Inner.Pieces.{AreRead, AreTimes, AreTasksNamed}};

use crate::guesses::Guesses;
use crate::limits::{MOST_TRACE_NUMBER, MOST_TRACE_TICKS};
use crate::pieces::{after, byte_after, number_after, task_after};
use cl_model::ValidModel;
use cl_runs::{Job, Times};
use cl_time::NoMemory;
use std::alloc::Global;

/// What a run line says: a task runs in each tick from `from` on and before `to`.
#[derive(Clone, Copy, PartialEq, Eq)]
pub(crate) struct RunLine {
    pub task: u32,
    pub from: u64,
    pub to: u64,
}

/// Reads the line with the number of ticks that the text begins with, and returns the number and
/// the rest. Returns `None` exactly where the text begins with no such line.
pub(crate) fn ticks_after(text: &[u8]) -> Option<(u64, &[u8])>
    ensures some { IfSome result
        (λ read. (text.now ≡ line (ticks_words read.0) ++ read.1.now)
        × (read.0 ≤ MOST_TRACE_TICKS)) }
    ensures none { IfNone result
        ((ticks : ℕ) (rest : List ℕ) → ticks ≤ MOST_TRACE_TICKS
        → text.now ≢ line (ticks_words ticks) ++ rest) }
{
    let text = after(text, b"ticks")?;
    let (ticks, text) = number_after(text, MOST_TRACE_TICKS)?;
    let rest = byte_after(text, b'\n')?;
    Some((ticks, rest))
}

/// Reads the two numbers of at most `most`, each after a blank, that the text begins with, and
/// returns them and the rest. Returns `None` where it doesn't begin with two such numbers.
#[inline(always)]
pub(crate) fn two_after(text: &[u8], most: u64) -> Option<(u64, u64, &[u8])>
    ensures some { IfSome result (λ read. text.now ≡ numbers (read.0 ∷ read.1 ∷ []) ++ read.2.now) }
    ensures within { IfSome result (λ read. (read.0 ≤ most) × (read.1 ≤ most)) }
    ensures only { (m n : ℕ) (more rest : List ℕ) → m ≤ most → n ≤ most
        → text.now ≡ numbers (m ∷ n ∷ more) ++ 0x0A ∷ rest
        → AreRead result m n (numbers more ++ 0x0A ∷ rest) }
{
    let (first, text) = number_after(text, most)?;
    let (second, rest) = number_after(text, most)?;
    Some((first, second, rest))
}

/// Reads the `count` numbers, each after a blank, that the text begins with, and returns them and
/// the rest. Finds none where it doesn't begin with that many.
fn times_after(alloc: Global, text: &[u8], count: usize) -> Result<Option<(Times, &[u8])>, NoMemory>
    ensures some { IfOk result
        (λ found. IfSome found (λ read. AreTimes count text.now read.0 read.1.now)) }
    ensures none { IfOk result
        (λ found. IfNone found ((times rest : List ℕ)
        → ¬ AreTimes count text.now times (0x0A ∷ rest))) }
    ensures only { IfOk result
        (λ found. IfSome found
        (λ read. (times rest : List ℕ) → AreTimes count text.now times (0x0A ∷ rest)
        → (read.0 ≡ times) × (read.1.now ≡ 0x0A ∷ rest))) }
{
    let mut times = Times::new(alloc);
    let mut left = text;
    for _ in 0..count {
        let Some((time, rest)) = number_after(left, MOST_TRACE_NUMBER) else {
            return Ok(None);
        };
        times.push(time)?;
        left = rest;
    }
    Ok(Some((times, left)))
}

/// Reads the head of a job line of the task with this name that the text begins with, and returns
/// the arrival, the release and the rest.
fn job_head_after<'a>(name: &[u8], text: &'a [u8]) -> Option<(u64, u64, &'a [u8])>
    ensures some { IfSome result (λ read. text.now ≡ codes "job " ++ (name.now ++ (numbers (read.0 ∷ read.1 ∷ []) ++ read.2.now))) }
    ensures within { IfSome result
        (λ read. (read.0 ≤ MOST_TRACE_NUMBER) × (read.1 ≤ MOST_TRACE_NUMBER)) }
    ensures only { (m n : ℕ) (more rest : List ℕ) → m ≤ MOST_TRACE_NUMBER → n ≤ MOST_TRACE_NUMBER
        → text.now ≡ codes "job " ++ (name.now ++ (numbers (m ∷ n ∷ more) ++ 0x0A ∷ rest)) → AreRead result m n (numbers more ++ 0x0A ∷ rest) }
{
    let text = after(text, b"job ")?;
    let text = after(text, name)?;
    two_after(text, MOST_TRACE_NUMBER)
}

/// Reads the job line of a task that the text begins with, and returns the job and the rest. Finds
/// none exactly where the text begins with no such line.
pub(crate) fn job_after<'a>(
    alloc: Global,
    model: &ValidModel,
    task: u32,
    text: &'a [u8],
) -> Result<Option<(Job, &'a [u8])>, NoMemory>
    requires { task < length model.now.tasks }
    ensures some { IfOk result (λ found. IfSome found (λ read.
        IsJobOf model.now task read.0 × (text.now
        ≡ item_text model.now (JobOf task read.0) ++ read.1.now))) }
    ensures named { IsName (task_at model.now task).name }
    ensures none { IfOk result (λ found. IfNone found ((job : Job) (rest : List ℕ)
        → IsJobOf model.now task job → text.now ≢ item_text model.now (JobOf task job) ++ rest)) }
{
    let task = model.task(task);
    let Some((arrival, release, behind)) = job_head_after(task.name.as_slice(), text) else {
        return Ok(None);
    };
    let Some((times, behind)) = times_after(alloc, behind, task.runnables.len())? else {
        return Ok(None);
    };
    match byte_after(behind, b'\n') {
        None => Ok(None),
        Some(rest) => Ok(Some((
            Job {
                arrival,
                release,
                times,
            },
            rest,
        ))),
    }
}

/// Reads the run line of a task of the model that the text begins with, with ticks of at most
/// `most`, and returns what it says and the rest. Returns `None` exactly where the text begins with
/// no such line.
pub(crate) fn run_after<'a>(
    model: &ValidModel,
    text: &'a [u8],
    most: u64,
    guesses: &mut Guesses,
) -> Option<(RunLine, &'a [u8])>
    requires named { AreTasksNamed model.now }
    requires valid { IsValid model.now }
    ensures some { IfSome result
        (λ read. text.now ≡ item_text model.now (Runs read.0.task read.0.from read.0.to)
        ++ read.1.now) }
    ensures within { IfSome result
        (λ read. (read.0.task < length model.now.tasks) × (read.0.to ≤ most)) }
    ensures none { IfNone result
        ((task from to : ℕ) (rest : List ℕ) → task < length model.now.tasks → from ≤ most
        → to ≤ most
        → text.now ≢ item_text model.now (Runs task from to) ++ rest) }
    ensures only { IfSome result
        (λ read. (task from to : ℕ) (rest : List ℕ) → task < length model.now.tasks → from ≤ most
        → to ≤ most
        → text.now ≡ item_text model.now (Runs task from to) ++ rest
        → (read.0 ≡ record { task = task; from = from; to = to }) × (read.1.now ≡ rest)) }
{
    let text = after(text, b"run ")?;
    let (task, text) = task_after(model, text, guesses)?;
    let (from, to, text) = two_after(text, most)?;
    let rest = byte_after(text, b'\n')?;
    Some((RunLine { task, from, to }, rest))
}
