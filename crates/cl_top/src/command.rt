//! The commands: the words of each, and the files that it needs.
ghost use Rattle.std.specs.Prelude.{◌≡◌, drop};
ghost use Rattle.std.specs.Option.{option_map};
ghost use Rattle.cl_help.specs.Topic.{topic_of};
ghost use Rattle.cl_gen.specs.declared.limits.TheConstants.{MOST_RUN_TICKS};
ghost use Rattle.cl_picture.specs.declared.window.TheConstants.{MOST_WINDOW};
ghost use Rattle.cl_top.specs.Command.{files_read, upto, some_tasks, any_seed, whole, checking_of, with_two_numbers, subject_of, with_subject, with_topic, by_word, by_other_verb, by_verb, command_of};

use crate::subject::{What, read_what};
use cl_engine::{Bounds, FILE_LIMIT, Files, two_numbers};
use cl_gen::MOST_RUN_TICKS;
use cl_help::{Topic, read_topic};
use cl_io::Words;
use cl_model::{MOST_TASKS, Name};
use cl_picture::MOST_WINDOW;

/// The most bytes that a trace file may have.
pub const TRACE_LIMIT: u64 = 268_435_456;

/// A command of the program, with the numbers and names that its words spell.
#[derive(PartialEq, Eq, Drop)]
pub enum Command {
    /// `analyse MODEL`: writes the report of a model: responses, bounds, exact lengths and
    /// verdicts.
    Analyse,
    /// `migrate MODEL`: writes a model as a file of the least version from 2 on that can say it.
    Migrate,
    /// `cut MODEL`: finds the best cut of every chain of a model: consecutive pieces by which its
    /// reaction is bounded best.
    Cut,
    /// `order MODEL`: finds priorities with which no task of a model is late.
    Order,
    /// `headroom MODEL`: finds how far the greatest execution times of a model may grow.
    Headroom,
    /// `margin MODEL`: finds how far the greatest execution times of a model may grow, of all tasks
    /// and of each alone, until something breaks that is met now, and what breaks first.
    Margin,
    /// `tighten MODEL`: writes the report of a model by tight bounds, which know how the arrivals
    /// of its tasks lie to each other.
    Tighten,
    /// `verify MODEL`: decides each deadline and each requirement of a model: met, broken or
    /// unshown, and says by the status whether all are met.
    Verify,
    /// `explain MODEL`: writes what the responses and the bounds of a model are the sums of.
    Explain,
    /// `witness MODEL WHAT NAME`: writes the trace of a run that comes near to the response of a
    /// task, or to a bound of a chain or a requirement.
    Witness { what: What, name: Name },
    /// `why MODEL WHAT NAME`: writes why a task is answered, or a chain or a requirement bounded, as
    /// `verify` says.
    Why { what: What, name: Name },
    /// `simulate MODEL TICKS SEED`: writes the trace of a run of so many ticks that the seed draws.
    Simulate { ticks: u64, seed: u64 },
    /// `replay MODEL TRACE`: measures every chain in the run of a trace.
    Replay,
    /// `observe MODEL TRACE`: writes what the run of a trace shows, legal or not, beside what is
    /// found of the model.
    Observe,
    /// `draw MODEL TRACE FROM TO`: draws the run of a trace, from tick FROM to tick TO.
    Draw { from: u64, to: u64 },
    /// `edit MODEL EDITS`: makes the edits of a list one after the other, and writes a report of
    /// the model for each line `report` among them.
    Edit,
    /// `apply MODEL EDITS`: writes a model as it is after all edits of a list, as a file of the
    /// least version from 2 on that can say it.
    Apply,
    /// `generate SEED TASKS`: writes a model of so many tasks that the seed draws.
    Generate { seed: u64, tasks: u64 },
    /// `survey SEED TASKS`: analyses such a model and writes the sums of what was found.
    Survey { seed: u64, tasks: u64 },
    /// `check MODEL`: says what to mend in a model file, or what to know of its model.
    Check,
    /// `check MODEL FILE`: says what to mend in a list of edits or in a trace, for a model that is
    /// accepted.
    CheckFile,
    /// `help`: says what the commands are.
    Help,
    /// `help COMMAND`: says what one command is.
    HelpOn(Topic),
    /// `version`: says which version of the program this is.
    Version,
}

/// Returns the files that a command names: a model file with a valid model, but for the commands
/// that are listed here.
pub(crate) fn files_read(command: &Command) -> Files
    ensures { result ≡ files_read command.now }
{
    match command {
        Command::Check => Files::Content,
        Command::CheckFile => Files::ContentAnd { limit: TRACE_LIMIT },
        Command::Replay | Command::Observe | Command::Draw { .. } => {
            Files::ModelAnd { limit: TRACE_LIMIT }
        }
        Command::Edit | Command::Apply => Files::ModelAnd { limit: FILE_LIMIT },
        Command::Generate { .. }
        | Command::Survey { .. }
        | Command::Help
        | Command::HelpOn(_)
        | Command::Version => Files::Nothing,
        _ => Files::Model,
    }
}

/// Returns the bounds of a number from 0 to `most`.
const fn upto(most: u64) -> Bounds
    ensures { result ≡ upto most }
{
    Bounds { least: 0, most }
}

/// Returns the bounds of a number of tasks, from 1 to `MOST_TASKS`.
const fn some_tasks() -> Bounds
    ensures { result ≡ some_tasks }
{
    Bounds {
        least: 1,
        most: MOST_TASKS as u64,
    }
}

/// Reads the command that the words spell. `None` exactly where they spell none. Takes no memory.
#[tactic(auto, unfolding(crate::specs::Command::command_of))]
pub(crate) fn read_command(words: &Words) -> Option<Command>
    ensures { result ≡ command_of words.now }
{
    match words.at(0) {
        Some(verb) => read_by_verb(words, verb),
        None => None,
    }
}

/// Reads the command that the words spell, by their verb: one on a model alone, or another.
fn read_by_verb(words: &Words, verb: &str) -> Option<Command>
    ensures { result ≡ by_verb verb.now words.now }
{
    match verb {
        "analyse" => read_whole(words, Command::Analyse),
        "migrate" => read_whole(words, Command::Migrate),
        "cut" => read_whole(words, Command::Cut),
        "order" => read_whole(words, Command::Order),
        "headroom" => read_whole(words, Command::Headroom),
        "margin" => read_whole(words, Command::Margin),
        "tighten" => read_whole(words, Command::Tighten),
        "verify" => read_whole(words, Command::Verify),
        "explain" => read_whole(words, Command::Explain),
        "check" => read_check(words),
        verb => read_other(words, verb),
    }
}

/// Reads a command on two files, on numbers or on a name, by its verb, or one on the program
/// itself.
fn read_other(words: &Words, verb: &str) -> Option<Command>
    ensures { result ≡ by_other_verb verb.now words.now }
{
    match verb {
        "witness" => read_witness(words),
        "why" => read_why(words),
        "simulate" => read_simulate(words),
        "replay" => read_whole(words, Command::Replay),
        "observe" => read_whole(words, Command::Observe),
        "draw" => read_draw(words),
        "edit" => read_whole(words, Command::Edit),
        "apply" => read_whole(words, Command::Apply),
        "generate" => read_generate(words),
        "survey" => read_survey(words),
        verb => read_about(words, verb),
    }
}

/// Reads a command on the program itself, by the first of the words.
fn read_about(words: &Words, verb: &str) -> Option<Command>
    ensures { result ≡ by_word verb.now words.now }
{
    match verb {
        "help" => read_help(words),
        "--help" | "-h" => read_whole(words, Command::Help),
        "version" | "--version" => read_whole(words, Command::Version),
        _ => None,
    }
}

/// Returns the command where the words are a verb and one word for each of its files, and nothing
/// behind them.
fn read_whole(words: &Words, asked: Command) -> Option<Command>
    ensures { result ≡ whole asked words.now }
{
    if words.len() == files_read(&asked).count() + 1 {
        Some(asked)
    } else {
        None
    }
}

/// Reads `check`, of a model file alone or with a second file behind it.
fn read_check(words: &Words) -> Option<Command>
    ensures { result ≡ checking_of words.now }
{
    if words.len() == 2 {
        read_whole(words, Command::Check)
    } else {
        read_whole(words, Command::CheckFile)
    }
}

/// Finds what `help` tells of by this verb.
fn help_on(verb: &str) -> Option<Command>
    ensures { result ≡ option_map (λ topic. Command.HelpOn topic) (topic_of verb.now) }
{
    match read_topic(verb) {
        Some(topic) => Some(Command::HelpOn(topic)),
        None => None,
    }
}

/// Reads `help`, alone or with the verb of a command behind it.
fn read_help(words: &Words) -> Option<Command>
    ensures { result ≡ with_topic words.now }
{
    if words.len() == 1 {
        return Some(Command::Help);
    }
    if words.len() != 2 {
        return None;
    }
    match words.at(1) {
        Some(verb) => help_on(verb),
        None => None,
    }
}

/// Reads what stands behind the file of a command on one subject: what is asked of, and its name.
fn read_subject(words: &Words) -> Option<(What, Name)>
    ensures { result ≡ subject_of (drop 2 words.now) }
{
    if words.len() != 4 {
        return None;
    }
    let what = read_what(words.at(2)?)?;
    let name = Name::of_text(words.at(3)?)?;
    Some((what, name))
}

/// Reads `witness`.
fn read_witness(words: &Words) -> Option<Command>
    ensures { result ≡ with_subject Command.Witness words.now }
{
    let (what, name) = read_subject(words)?;
    Some(Command::Witness { what, name })
}

/// Reads `why`.
fn read_why(words: &Words) -> Option<Command>
    ensures { result ≡ with_subject Command.Why words.now }
{
    let (what, name) = read_subject(words)?;
    Some(Command::Why { what, name })
}

/// Reads `simulate`: behind the file there are the number of ticks and the seed.
fn read_simulate(words: &Words) -> Option<Command>
    ensures { result ≡ with_two_numbers Command.Simulate 2 (upto MOST_RUN_TICKS) any_seed words.now }
{
    let (ticks, seed) = two_numbers(words, 2, upto(MOST_RUN_TICKS), upto(u64::MAX))?;
    Some(Command::Simulate { ticks, seed })
}

/// Reads `draw`: behind the files there are the tick from which and the tick to which to draw.
fn read_draw(words: &Words) -> Option<Command>
    ensures { result ≡ with_two_numbers Command.Draw 3 (upto MOST_WINDOW) (upto MOST_WINDOW) words.now }
{
    let (from, to) = two_numbers(words, 3, upto(MOST_WINDOW), upto(MOST_WINDOW))?;
    Some(Command::Draw { from, to })
}

/// Reads `generate`: behind the verb there are the seed and the number of tasks.
fn read_generate(words: &Words) -> Option<Command>
    ensures { result ≡ with_two_numbers Command.Generate 1 any_seed some_tasks words.now }
{
    let (seed, tasks) = two_numbers(words, 1, upto(u64::MAX), some_tasks())?;
    Some(Command::Generate { seed, tasks })
}

/// Reads `survey`: behind the verb there are the seed and the number of tasks.
fn read_survey(words: &Words) -> Option<Command>
    ensures { result ≡ with_two_numbers Command.Survey 1 any_seed some_tasks words.now }
{
    let (seed, tasks) = two_numbers(words, 1, upto(u64::MAX), some_tasks())?;
    Some(Command::Survey { seed, tasks })
}
