//! Whether a run is legal, and else the first rule that it breaks, in words.
ghost use Rattle.std.specs.Prelude.{◌≡◌, ◌++◌, [], slice_index_or, OnOk};
ghost use Rattle.cl_model.specs.{ByNumber.task_at, Named.core_names};
ghost use Rattle.cl_runs.specs.{SystemOf.system_of, Run.IsInForm};
ghost use Rattle.cl_observe.specs.{Observed.GoesOnWith, Rules.{rule_words, breaker, illegal_line, IsLegalityLine}};

use cl_check::{Rule, RunFault, check_run};
use cl_model::ValidModel;
use cl_run_data::RunData;
use cl_text::Text;
use cl_time::NoMemory;
use std::alloc::Global;

/// Puts the line on whether a run is legal: that it is, or the first rule that it breaks.
pub(crate) fn put_legality(
    alloc: Global,
    text: &mut Text,
    model: &ValidModel,
    run: &RunData,
) -> Result<(), NoMemory>
    requires { IsInForm (system_of model.now) run.now }
    ensures { OnOk result (GoesOnWith (IsLegalityLine model.now run.now) text.old text.new) }
{
    match check_run(alloc, model, run) {
        Ok(()) => text.put(b"legal\n"),
        Err(RunFault::Illegal { rule, place, tick }) => put_illegal(text, model, rule, place, tick),
        Err(RunFault::NoMemory) => Err(NoMemory),
    }
}

/// Puts the line of a run that first breaks `rule`, at a tick, by the core of number `place` for
/// its schedule, and by the task of that number for every other rule.
fn put_illegal(
    text: &mut Text,
    model: &ValidModel,
    rule: Rule,
    place: u32,
    tick: u64,
) -> Result<(), NoMemory>
    ensures { OnOk result (text.new ≡ text.old ++ illegal_line model.now rule place tick) }
{
    text.put(b"illegal ")?;
    text.put(rule_words(rule))?;
    text.put(breaker(model, rule, place))?;
    text.put(b" tick ")?;
    text.put_number(tick)?;
    text.put(b"\n")
}

/// Returns the words of a rule, up to the name of the task or the core that breaks it.
pub fn rule_words(rule: Rule) -> &'static [u8]
    ensures { result.now ≡ rule_words rule }
{
    match rule {
        Rule::Arrival => b"arrival task ",
        Rule::Release => b"release task ",
        Rule::Time => b"time task ",
        Rule::Missing => b"missing task ",
        Rule::Schedule => b"schedule core ",
    }
}

/// Returns the name of what breaks a rule: for a schedule the core of number `place`, and for every
/// other rule the task of that number. Empty past the last one.
pub fn breaker(model: &ValidModel, rule: Rule, place: u32) -> &[u8]
    ensures { result.now ≡ breaker model.now rule place }
{
    if rule == Rule::Schedule {
        core_name(model, place)
    } else {
        task_name(model, place)
    }
}

/// Returns the name of the core of this number, empty past the last one.
fn core_name(model: &ValidModel, core: u32) -> &[u8]
    ensures { result.now ≡ slice_index_or (core_names model.now) core [] }
{
    match model.plain().cores.at(core as usize) {
        Some(core) => core.name.as_slice(),
        None => b"",
    }
}

/// Returns the name of the task of this number, empty past the last one.
fn task_name(model: &ValidModel, task: u32) -> &[u8]
    ensures { result.now ≡ (task_at model.now task).name }
{
    match model.plain().tasks.at(task as usize) {
        Some(task) => task.name.as_slice(),
        None => b"",
    }
}
