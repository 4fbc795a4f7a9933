//! A file of cases. Each case is run as soon as its lines are read.
ghost use Rattle.std.specs.Prelude.{◌≡◌, ◌↔◌, IsTrue};

use crate::answers::{Found, answered, answered_migrated};
use crate::case::{Case, Wanted};
use crate::fault::Fault;
use crate::tally::Tally;
use std::fs;
use std::rt::Files;

/// What belongs to every case of a file, and the case whose lines are being read.
#[derive(Drop)]
struct Rows {
    every: Case,
    case: Option<Case>,
}

/// Runs all cases of the tally's file, and prints how many commands they have. A file that can't be
/// read and one without a case are refused.
pub(crate) fn run_file<R: Files + Print + AllocGlobal>(
    rt: &R,
    tally: &mut Tally,
) -> Result<(), Fault> {
    let Ok(text) = fs::read_to_string(rt, tally.file.as_str()) else {
        return Err(Fault::Refused("no text of that name"));
    };
    run_rows(rt, tally, text.as_str())?;
    if tally.cases == 0 {
        return Err(Fault::Refused("no case"));
    }
    print_count(rt, tally)
}

/// Runs all cases of a text.
fn run_rows<R: Files + Print + AllocGlobal>(
    rt: &R,
    tally: &mut Tally,
    text: &str,
) -> Result<(), Fault> {
    let mut rows = Rows {
        every: Case::new(rt.alloc()),
        case: None,
    };
    for line in text.split('\n') {
        tally.line = tally.line.saturating_add(1);
        rows.read_line(rt, tally, line)?;
    }
    rows.end_case(rt, tally)
}

impl Rows {
    /// Reads one line of the file.
    fn read_line<R: Files + Print + AllocGlobal>(
        &mut self,
        rt: &R,
        tally: &mut Tally,
        line: &str,
    ) -> Result<(), Fault> {
        if let Some(name) = line.strip_prefix("case ") {
            self.end_case(rt, tally)?;
            self.case = Some(self.every.begun(name, tally.line)?);
            return Ok(());
        }
        match &mut self.case {
            Some(case) => case.read_line(rt, tally.last.as_slice(), line),
            None => self.every.read_line(rt, tally.last.as_slice(), line),
        }
    }

    /// Runs the case that ends here; before the first case, ends the hunk that belongs to every
    /// case.
    fn end_case<R: Print>(&mut self, rt: &R, tally: &mut Tally) -> Result<(), Fault> {
        match self.case.take() {
            Some(case) => run_case(rt, tally, case),
            None => self.every.end_hunk(),
        }
    }
}

/// Runs each command of a case. A case without words and one without wants are refused.
fn run_case<R: Print>(rt: &R, tally: &mut Tally, mut case: Case) -> Result<(), Fault> {
    let here = tally.line;
    tally.line = case.line;
    case.end_hunk()?;
    let wanted = case.wanted()?.clone()?;
    if case.commands.is_empty() {
        return Err(Fault::Refused("a case without `words`"));
    }
    for command in &case.commands {
        run_command(rt, tally, &case, command.as_str(), &wanted)?;
    }
    tally.line = here;
    Ok(())
}

/// Runs a command of a case, and prints it where it differs.
fn run_command<R: Print>(
    rt: &R,
    tally: &mut Tally,
    case: &Case,
    command: &str,
    wanted: &Wanted,
) -> Result<(), Fault> {
    let found = if tally.migrated {
        answered_migrated(case.clone()?, command)?
    } else {
        answered(case, command)?
    };
    tally.cases = tally.cases.saturating_add(1);
    if !is_met(wanted, &found) {
        tally.differs = true;
        print_difference(rt, tally, case, command, wanted, &found)?;
    }
    tally.last = found.text;
    Ok(())
}

/// Checks whether a command came to what was wanted.
fn is_met(wanted: &Wanted, found: &Found) -> bool {
    let text = if wanted.whole {
        found.text.as_slice()
    } else {
        beginning(found.text.as_slice(), wanted.text.len())
    };
    is_same(wanted.status, wanted.text.as_slice(), found.status, text)
}

/// Checks whether both the statuses and the texts are equal.
fn is_same(wanted_status: u8, wanted_text: &[u8], status: u8, text: &[u8]) -> bool
    ensures { IsTrue result ↔ ((status ≡ wanted_status) × (text.now ≡ wanted_text.now)) }
{
    status == wanted_status && text == wanted_text
}

/// Returns the first `length` bytes of a text, or the whole text where it has no more.
fn beginning(text: &[u8], length: usize) -> &[u8] {
    if length < text.len() {
        &text[..length]
    } else {
        text
    }
}

/// Returns a text as it is printed, which is `no text` for bytes that are none.
fn printed(text: &[u8]) -> &str {
    str::from_utf8(text).unwrap_or("no text")
}

/// Prints a command whose answer differs: the place and the name of its case, its words, what was
/// wanted, and what came.
fn print_difference(
    rt: &impl Print,
    tally: &Tally,
    case: &Case,
    command: &str,
    wanted: &Wanted,
    found: &Found,
) -> Result<(), Fault> {
    let (file, line, name) = (tally.file.as_str(), tally.line, case.name.as_str());
    println!(rt; "{file}:{line}: {name}: `{command}`")?;
    let (status, text) = (wanted.status, printed(wanted.text.as_slice()));
    println!(rt; "wanted {status} {text}")?;
    let (status, text) = (found.status, printed(found.text.as_slice()));
    println!(rt; "came {status} {text}")?;
    Ok(())
}

/// Prints how many commands of a file were run.
fn print_count(rt: &impl Print, tally: &Tally) -> Result<(), Fault> {
    let (file, cases) = (tally.file.as_str(), tally.cases);
    if tally.migrated {
        println!(rt; "migrated {file} {cases}")?;
    } else {
        println!(rt; "{file} {cases}")?;
    }
    Ok(())
}
