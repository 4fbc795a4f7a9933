ghost use Rattle.std.specs.Prelude.{◌≡◌, ◌<◌, length, IfOk};
ghost use Rattle.cl_runs.specs.SystemOf.{system_of};
ghost use Rattle.cl_tight.specs.TightAnswers.{tight_answers_of};
ghost use Rattle.cl_verify.specs.Witnesses.{IsWitness};
ghost use Rattle.cl_engine.specs.Content.{Model};
ghost use Rattle.cl_top.specs.{Commands.{IsOutcomeOf, TakesStepsOf, Witness.{name_unknown, run_refused, IsRunOutcome}}, Subject.{section_word, names_asked}};

use crate::Command;
use crate::commands::simulate::{refused, traced};
use crate::subject::{What, number_of};
use cl_bound::TaskAnswer;
use cl_engine::{Outcome, status};
use cl_gen::MOST_RUN_TICKS;
use cl_model::{List, Name, ValidModel};
use cl_text::Text;
use cl_tight::answer_tightly;
use cl_time::{NoMemory, Steps};
use cl_verify::{Witness, witness_of_chain, witness_of_task};
use std::alloc::Global;
use std::sync::ledger::Ledger;

/// Finds the outcome of `witness` for a valid model: the trace of a run that comes near to what is
/// asked of, the refusal of one that is too large, or that the model has nothing of that name.
/// Counts at most one step for each task.
#[tactic(auto, unfolding(crate::specs::Commands::command_meaning))]
pub(super) fn witnessed<L: Ledger>(
    alloc: Global,
    model: &ValidModel,
    what: What,
    name: &Name,
    steps: &mut Steps<L>,
) -> Result<Outcome, NoMemory>
    ensures outcome { IfOk result (IsOutcomeOf (Command.Witness what name.now) (Model model.now)) }
    ensures steps { TakesStepsOf (Command.Witness what name.now) (Model model.now) steps.old steps.new }
{
    match number_of(model, what, name) {
        Some(number) => {
            let answers = answer_tightly(alloc, model, steps)?;
            shown(
                alloc,
                model,
                witness_of(alloc, model, &answers, what, number)?,
            )
        }
        None => unknown(alloc, what, name),
    }
}

/// Makes the run of what is asked of, given by its number.
fn witness_of(
    alloc: Global,
    model: &ValidModel,
    answers: &List<TaskAnswer>,
    what: What,
    number: usize,
) -> Result<Witness, NoMemory>
    requires number { number < length (names_asked what model.now) }
    requires answers { answers.now ≡ tight_answers_of (system_of model.now) }
    ensures { IfOk result (IsWitness model.now) }
{
    match what {
        What::Response => {
            prove!(number < model.tasks() as usize);
            witness_of_task(alloc, model, answers, number as u32)
        }
        What::Bound(kind) => {
            prove!(number < model.chains() as usize);
            witness_of_chain(alloc, model, answers, number as u32, kind)
        }
        What::Requirement => {
            let requirement = &model.plain().requirements.as_slice()[number];
            let chain = model.chain_named(&requirement.chain).unwrap_or(0);
            witness_of_chain(alloc, model, answers, chain, requirement.kind)
        }
    }
}

/// Simulates a run and writes its trace, or makes the outcome of one that is too large.
fn shown(alloc: Global, model: &ValidModel, witness: Witness) -> Result<Outcome, NoMemory>
    requires { IsWitness model.now witness }
    ensures { IfOk result (IsRunOutcome model.now) }
{
    match witness {
        Witness::Table(table) => traced(alloc, model, table),
        Witness::TooLong { ticks } => too_long(alloc, ticks),
        Witness::TooMany { count } => refused(alloc, count),
    }
}

/// Makes the outcome of a run that would have too many ticks.
fn too_long(alloc: Global, ticks: u64) -> Result<Outcome, NoMemory>
    ensures { IfOk result (λ outcome. outcome ≡ run_refused ticks) }
{
    let mut text = Text::new(alloc);
    text.put(b"run refused ")?;
    text.put_number(ticks)?;
    text.put(b" ticks of ")?;
    text.put_number(MOST_RUN_TICKS)?;
    text.put(b"\n")?;
    Ok(Outcome {
        status: status::RUN_REFUSED,
        text,
    })
}

/// Makes the outcome of a name that the model has nothing of.
pub(super) fn unknown(alloc: Global, what: What, name: &Name) -> Result<Outcome, NoMemory>
    ensures { IfOk result (λ outcome. outcome ≡ name_unknown what name.now) }
{
    let mut text = Text::new(alloc);
    text.put(b"unknown ")?;
    text.put(section_word(what))?;
    text.put(b" ")?;
    text.put(name.as_slice())?;
    text.put(b"\n")?;
    Ok(Outcome {
        status: status::NAME_UNKNOWN,
        text,
    })
}

/// Returns the word behind which the name of what is asked of stands.
fn section_word(what: What) -> &'static [u8]
    ensures { result.now ≡ section_word what }
{
    match what {
        What::Response => b"task",
        What::Bound(_) => b"chain",
        What::Requirement => b"requirement",
    }
}
