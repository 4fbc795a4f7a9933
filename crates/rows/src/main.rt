//! Rows as data: a program that runs whole commands over files in memory and compares their
//! answers. Each row is a case of a file of cases.
//!
//! The arguments name the files of cases, which are run one after the other. The word `migrated`
//! before such a file runs its cases with each model put through `migrate` first. After each file,
//! its name and how many commands of it were run are printed. Where a command's answer differs, the
//! case, the words, what was wanted and what came are printed, and in the end the status is 1.
//! Where a file of cases can't be run to its end (it can't be read, it has no case, a line of it is
//! refused, memory runs out or the output fails), its name, the line and why are printed, no
//! further file is run, and the status is 2.
//!
//! A file of cases consists of lines. The lines before its first case belong to every case; the
//! lines of a case add to them, and its words, wants, limits and files of the same name replace
//! theirs.
//!
//! | Line | Meaning |
//! |---|---|
//! | `# ..` | a comment |
//! | `case NAME` | a case begins |
//! | `words ..` | the words of a command, or of a question, whose first word is `ask`; where a case has several such lines, each command has to give the same answer |
//! | `more WORD`, `fewer` | each command gets one more word, or loses its last one |
//! | `file NAME BASE` | a file with the content of the file BASE, or an empty one without BASE; hunks change the last file |
//! | `without NAME` | there is no file of this name |
//! | `-`, `+` and a blank in front | a hunk: lines that are removed, added and kept; an empty line ends it |
//! | only `+` lines | they are added at the end of the file |
//! | `times N` .. `once` | the lines between are added N times, with the number of each time, from 0, in place of each `#` |
//! | `again N` | all lines that are added so far, or wanted so far, stand N times, with the number of each time, from 0, in place of each `@` |
//! | `last` | what the last command of the case before has written is added |
//! | `\` | the line above has no line end |
//! | `fetch N`, `write N` | the number of the fetch or of the write that fails, from 0 |
//! | `room N`, `step N` | how many bytes the sink holds, and how many it takes at a time |
//! | `wants S TEXT`, or `wants S` and lines behind a bar | the status, and the whole text |
//! | `begins S TEXT`, or `begins S` and lines behind a bar | the status, and the first lines of the text |
#![tactic(auto)]

mod answers;
mod asked;
mod case;
mod case_file;
mod fault;
mod hunk;
mod limits;
mod numbered;
mod rows;
mod tally;

use fault::Fault;
use rows::run_file;
use std::env;
use std::process::ExitCode;
use std::rt::{Env, Files};
use tally::Tally;

/// The argument before a file whose models are migrated first.
const MIGRATED: &str = "migrated";

fn main(rt: HostRuntime) -> ExitCode {
    ExitCode::from(status_of(&rt))
}

/// Runs all files of cases that the arguments name, and returns the status of the program.
fn status_of<R: Env + Files + Print + AllocGlobal>(rt: &R) -> u8 {
    let mut tally = Tally::new(rt.alloc());
    match run_arguments(rt, &mut tally) {
        Ok(()) => tally.status(),
        Err(fault) => {
            let _ = print_fault(rt, &tally, fault);
            2
        }
    }
}

/// Runs the files of cases that the arguments name.
fn run_arguments<R: Env + Files + Print + AllocGlobal>(
    rt: &R,
    tally: &mut Tally,
) -> Result<(), Fault> {
    let Ok(arguments) = env::args(rt) else {
        return Err(Fault::Refused("the arguments are no texts"));
    };
    for argument in arguments.skip(1) {
        run_argument(rt, tally, argument)?;
    }
    Ok(())
}

/// Runs a file of cases, or notes that the next file's models are migrated.
fn run_argument<R: Files + Print + AllocGlobal>(
    rt: &R,
    tally: &mut Tally,
    argument: String,
) -> Result<(), Fault> {
    if argument.as_str() == MIGRATED {
        tally.migrated = true;
        return Ok(());
    }
    tally.begin_file(argument);
    run_file(rt, tally)?;
    tally.migrated = false;
    Ok(())
}

/// Prints why the files of cases couldn't be run to their end, and where.
fn print_fault(rt: &impl Print, tally: &Tally, fault: Fault) -> std::io::Result<()> {
    let (file, line) = (tally.file.as_str(), tally.line);
    match fault {
        Fault::NoMemory => println!(rt; "{file}:{line}: no memory"),
        Fault::Output => println!(rt; "{file}:{line}: no output"),
        Fault::Refused(why) => println!(rt; "{file}:{line}: {why}"),
    }
}
