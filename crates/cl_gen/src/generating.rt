//! Generating models. Times are in ticks.
ghost use Rattle.std.specs.Prelude.{◌≡◌, ◌+◌, ◌*◌, ◌/◌, ◌%◌, ◌<◌, ◌≤◌, ◌^◌, ◌∷◌, [], length, map, slice_index, IfOk, OnOk};
ghost use Rattle.std.specs.Int.{div_ceil};
ghost use Rattle.std.specs.List.{range_with_len};
ghost use Rattle.cl_model.specs.{AreNamed.AreNamed, Validity.IsValid};
ghost use Rattle.cl_gen.specs.{Words.word_of, Generated.{runnable_name, label_name, access_of, generated_core, generated_stimulus, generated_label, generated_runnable, generated_task, generated_chain, generated, runnable_with, drawn_stimulus, periods}};

use crate::draws::Draws;
use crate::names::{label_name, labels_read, labels_written, numbered, runnable_name};
use cl_model::{
    AccessKind, ChainDef, CoreDef, LabelDef, List, MOST_TASKS, Name, RunnableDef, StimulusDef,
    StimulusKind, SystemModel, TaskDef,
};
use cl_time::NoMemory;
use std::alloc::Global;

/// The periods of the stimuli, in ticks.
const PERIODS: [u64; 9] = [
    1_000, 2_000, 5_000, 10_000, 20_000, 50_000, 100_000, 200_000, 1_000_000,
];

/// Generates the model of `tasks` tasks that the words of a seed draw. It is valid and its names
/// are of the grammar of names, whatever the seed. It has 16 tasks a core, the last core maybe
/// fewer, nine periodic stimuli, two runnables a task, a chain over each four tasks in a row, and
/// no requirement. Times are in ticks.
///
/// `NoMemory` comes where there is no memory for the model; it leaves nothing. The words are those
/// of the generator PCG XSL RR 128/64, in order; the definitions of this crate say which word draws
/// what.
pub fn generate(alloc: Global, seed: u64, tasks: u64) -> Result<SystemModel, NoMemory>
    requires some { 1 ≤ tasks }
    requires few { tasks ≤ MOST_TASKS }
    ensures generated { IfOk result (λ model. model ≡ generated seed tasks) }
    ensures valid { IfOk result IsValid }
    ensures named { IfOk result AreNamed }
{
    generated_model(alloc, seed, tasks)
}

/// Generates the model, part by part.
#[tactic(auto, unfolding(crate::specs::Generated::model_of_words))]
fn generated_model(alloc: Global, seed: u64, tasks: u64) -> Result<SystemModel, NoMemory>
    requires { tasks ≤ MOST_TASKS }
    ensures { IfOk result (λ model. model ≡ generated seed tasks) }
{
    let mut draws = Draws::of_seed(seed);
    Ok(SystemModel {
        cores: all_cores(alloc, tasks.div_ceil(16))?,
        stimuli: all_stimuli(alloc)?,
        labels: all_labels(alloc, 2 * tasks)?,
        tasks: draw_tasks(alloc, &mut draws, tasks)?,
        chains: all_chains(alloc, tasks / 4)?,
        requirements: List::new(alloc),
    })
}

fn all_cores(alloc: Global, count: u64) -> Result<List<CoreDef>, NoMemory>
    ensures { IfOk result (λ cores. cores ≡ map generated_core (range_with_len 0 count)) }
{
    let mut cores = List::new(alloc);
    for number in 0..count {
        let name = numbered("c", number);
        cores.push(CoreDef { name })?;
    }
    Ok(cores)
}

fn all_stimuli(alloc: Global) -> Result<List<StimulusDef>, NoMemory>
    ensures { IfOk result (λ stimuli. stimuli ≡ map generated_stimulus (range_with_len 0 9)) }
{
    let mut stimuli = List::new(alloc);
    for number in 0..9 {
        stimuli.push(stimulus(alloc, number)?)?;
    }
    Ok(stimuli)
}

#[tactic(auto, unfolding(crate::specs::Generated::generated_stimulus))]
fn stimulus(alloc: Global, number: u64) -> Result<StimulusDef, NoMemory>
    requires { number < 9 }
    ensures { IfOk result (λ stimulus. stimulus ≡ generated_stimulus number) }
{
    Ok(StimulusDef {
        name: numbered("p", number),
        kind: StimulusKind::Periodic {
            period: PERIODS[number as usize],
            offset: 0,
            jitter: 0,
        },
    })
}

fn all_labels(alloc: Global, count: u64) -> Result<List<LabelDef>, NoMemory>
    ensures { IfOk result (λ labels. labels ≡ map generated_label (range_with_len 0 count)) }
{
    let mut labels = List::new(alloc);
    for number in 0..count {
        let name = label_name(number);
        labels.push(LabelDef { name })?;
    }
    Ok(labels)
}

fn all_chains(alloc: Global, count: u64) -> Result<List<ChainDef>, NoMemory>
    requires { count ≤ MOST_TASKS }
    ensures { IfOk result (λ chains. chains ≡ map generated_chain (range_with_len 0 count)) }
{
    let mut chains = List::new(alloc);
    for number in 0..count {
        chains.push(chain(alloc, number)?)?;
    }
    Ok(chains)
}

#[tactic(auto, unfolding(crate::specs::Generated::generated_chain))]
fn chain(alloc: Global, number: u64) -> Result<ChainDef, NoMemory>
    requires { number < MOST_TASKS }
    ensures { IfOk result (λ chain. chain ≡ generated_chain number) }
{
    Ok(ChainDef {
        name: numbered("k", 4 * number),
        runnables: steps(alloc, 8 * number)?,
        labels: hops(alloc, 8 * number)?,
    })
}

/// Lists the names of eight runnables in a row, from the one with the number `first` on.
fn steps(alloc: Global, first: u64) -> Result<List<Name>, NoMemory>
    requires { first < 2 ^ 62 }
    ensures { IfOk result (λ names. names ≡ map runnable_name (range_with_len first 8)) }
{
    let mut names = List::new(alloc);
    for step in 0..8 {
        names.push(runnable_name(first + step))?;
    }
    Ok(names)
}

/// Lists the names of seven labels in a row, from the one with the number `first` on.
fn hops(alloc: Global, first: u64) -> Result<List<Name>, NoMemory>
    requires { first < 2 ^ 62 }
    ensures { IfOk result (λ names. names ≡ map label_name (range_with_len first 7)) }
{
    let mut names = List::new(alloc);
    for hop in 0..7 {
        names.push(label_name(first + hop))?;
    }
    Ok(names)
}

fn draw_tasks(alloc: Global, draws: &mut Draws, count: u64) -> Result<List<TaskDef>, NoMemory>
    requires few { count ≤ MOST_TASKS }
    requires all { draws.old.words ≡ 0 }
    ensures { IfOk result
        (λ tasks. tasks ≡ map (generated_task (word_of draws.old.seed)) (range_with_len 0 count)) }
{
    let mut tasks = List::new(alloc);
    for number in 0..count {
        tasks.push(draw_task(alloc, draws, number)?)?;
    }
    Ok(tasks)
}

#[tactic(auto, unfolding(crate::specs::Generated::generated_task))]
fn draw_task(alloc: Global, draws: &mut Draws, number: u64) -> Result<TaskDef, NoMemory>
    requires few { number < MOST_TASKS }
    requires next { draws.old.words ≡ 6 * number }
    ensures task { IfOk result (λ task. task ≡ generated_task (word_of draws.old.seed) number) }
    ensures taken { OnOk result (draws.new ≡ record draws.old { words = 6 * number + 6 }) }
{
    let stimulus = draws.draw(0, 8);
    let access = access_of(draws.draw(0, 2));
    Ok(TaskDef {
        name: numbered("t", number),
        core: numbered("c", number / 16),
        stimulus: numbered("p", stimulus),
        priority: (8 - stimulus) * 16 + (15 - number % 16),
        access,
        deadline: None,
        runnables: draw_runnables(alloc, draws, number, PERIODS[stimulus as usize])?,
    })
}

fn access_of(number: u64) -> AccessKind
    ensures { result ≡ access_of number }
{
    match number {
        0 => AccessKind::Explicit,
        1 => AccessKind::Implicit,
        _ => AccessKind::Timed,
    }
}

/// Draws the two runnables of a task with this period.
#[tactic(auto, unfolding(crate::specs::Generated::generated_runnable))]
fn draw_runnables(
    alloc: Global,
    draws: &mut Draws,
    task: u64,
    period: u64,
) -> Result<List<RunnableDef>, NoMemory>
    requires task { task < MOST_TASKS }
    requires short { period ≤ 2 ^ 32 }
    requires long { 32 ≤ period }
    requires next { draws.old.words ≡ 6 * task + 2 }
    requires own { period ≡ slice_index periods (drawn_stimulus (word_of draws.old.seed) task) }
    ensures runnables { IfOk result (λ runnables. runnables
        ≡ generated_runnable (word_of draws.old.seed) (2 * task) ∷ generated_runnable (word_of draws.old.seed) (2 * task + 1) ∷ []) }
    ensures taken { OnOk result (draws.new ≡ record draws.old { words = 6 * task + 6 }) }
{
    let mut runnables = List::new(alloc);
    runnables.push(draw_runnable(alloc, draws, 2 * task, period)?)?;
    runnables.push(draw_runnable(alloc, draws, 2 * task + 1, period)?)?;
    Ok(runnables)
}

fn draw_runnable(
    alloc: Global,
    draws: &mut Draws,
    number: u64,
    period: u64,
) -> Result<RunnableDef, NoMemory>
    requires short { period ≤ 2 ^ 32 }
    requires long { 32 ≤ period }
    requires few { draws.old.words < 2 ^ 32 }
    ensures runnable { IfOk result (λ runnable. runnable
        ≡ runnable_with period (word_of draws.old.seed draws.old.words) (word_of draws.old.seed (draws.old.words + 1)) number) }
    ensures taken { OnOk result (draws.new ≡ record draws.old { words = draws.old.words + 2 }) }
{
    let greatest = draws.draw(1, period / 32);
    let least = draws.draw(1, greatest);
    Ok(RunnableDef {
        name: runnable_name(number),
        least,
        greatest,
        whole: false,
        reads: labels_read(alloc, number)?,
        writes: labels_written(alloc, number)?,
    })
}
