//! Questions on sessions: a model with its findings while it is edited.
ghost use Rattle.cl_edit.specs.Ranges.{IsEditInRange};

use crate::asking::unfetched;
use crate::words::{put_number, refused, said, unread, word};
use cl_analyse::analyse;
use cl_edit::{Edit, ListedEdit, apply_edit, read_edits};
use cl_incr::Session;
use cl_io::{Shelf, Words};
use cl_model::{ModelFault, SystemModel, ValidModel};
use cl_report::report;
use cl_text::Text;
use cl_time::{NoMemory, Steps};
use std::alloc::Global;
use std::sync::ledger::Ledger;

/// Answers a question on a session of a copy of the model, in which the edits of a list are made.
///
/// - `session MODEL EDITS`: the report after all edits, or the refusal of the first edit that is
///   refused.
/// - `kept MODEL EDITS`: for each edit, on a line, that it was taken; or that it was refused or
///   found no memory, and whether that left the session's model and its report as they were. Later
///   edits are made all the same.
/// - `alike MODEL EDITS`: how many edits the session has taken and how many it has refused, and for
///   how many its answer differs from that of a fresh analysis of the model that `apply_edit`
///   makes.
pub(crate) fn session_lines<S: Shelf, L: Ledger>(
    alloc: Global,
    words: &Words,
    model: &ValidModel,
    shelf: &mut S,
    steps: &mut Steps<L>,
) -> Result<Text, NoMemory> {
    match shelf.fetch(alloc, word(words, 3), u64::MAX) {
        Ok(bytes) => of_text(alloc, words, model, bytes.as_slice(), steps),
        Err(fault) => unfetched(alloc, fault),
    }
}

fn of_text<L: Ledger>(
    alloc: Global,
    words: &Words,
    model: &ValidModel,
    text: &[u8],
    steps: &mut Steps<L>,
) -> Result<Text, NoMemory> {
    match read_edits(alloc, text) {
        Ok(edits) => of_edits(alloc, words, model, edits.as_slice(), steps),
        Err(fault) => unread(alloc, fault),
    }
}

fn of_edits<L: Ledger>(
    alloc: Global,
    words: &Words,
    model: &ValidModel,
    edits: &[ListedEdit],
    steps: &mut Steps<L>,
) -> Result<Text, NoMemory> {
    match model.copy(alloc) {
        Ok(copy) => of_copy(alloc, words, copy, edits, steps),
        Err(no_memory) => Err(no_memory),
    }
}

fn of_copy<L: Ledger>(
    alloc: Global,
    words: &Words,
    model: ValidModel,
    edits: &[ListedEdit],
    steps: &mut Steps<L>,
) -> Result<Text, NoMemory> {
    match Session::start(alloc, model, steps) {
        Ok(session) => of_started(alloc, words, session, edits, steps),
        Err(no_memory) => Err(no_memory),
    }
}

fn of_started<L: Ledger>(
    alloc: Global,
    words: &Words,
    session: Session,
    edits: &[ListedEdit],
    steps: &mut Steps<L>,
) -> Result<Text, NoMemory> {
    let mut session = session;
    of_session(alloc, words, &mut session, edits, steps)
}

fn of_session<L: Ledger>(
    alloc: Global,
    words: &Words,
    session: &mut Session,
    edits: &[ListedEdit],
    steps: &mut Steps<L>,
) -> Result<Text, NoMemory> {
    match word(words, 1) {
        "kept" => kept(alloc, session, edits, steps),
        "alike" => alike(alloc, session, edits, steps),
        _ => edited(alloc, session, edits, steps),
    }
}

fn edited<L: Ledger>(
    alloc: Global,
    session: &mut Session,
    edits: &[ListedEdit],
    steps: &mut Steps<L>,
) -> Result<Text, NoMemory> {
    for listed in edits {
        let edit = &listed.edit;
        if !edit.in_range() {
            return said(alloc, "out of range");
        }
        if let Err(fault) = session.apply(edit, steps) {
            return refused(alloc, fault);
        }
    }
    report(alloc, session.model(), session.findings())
}

fn kept<L: Ledger>(
    alloc: Global,
    session: &mut Session,
    edits: &[ListedEdit],
    steps: &mut Steps<L>,
) -> Result<Text, NoMemory> {
    let mut text = Text::new(alloc);
    for listed in edits {
        let edit = &listed.edit;
        if !edit.in_range() {
            return said(alloc, "out of range");
        }
        put_kept(alloc, &mut text, session, edit, steps)?;
    }
    Ok(text)
}

/// Makes an edit, and puts what came of it on a line.
fn put_kept<L: Ledger>(
    alloc: Global,
    text: &mut Text,
    session: &mut Session,
    edit: &Edit,
    steps: &mut Steps<L>,
) -> Result<(), NoMemory>
    requires { IsEditInRange edit.now }
{
    let model = session.model().plain().copy(alloc)?;
    let findings = report(alloc, session.model(), session.findings())?;
    match session.apply(edit, steps) {
        Ok(()) => text.put(b"taken\n"),
        Err(fault) => put_refused(alloc, text, session, fault, &model, &findings),
    }
}

/// Puts why an edit wasn't made, and whether the session's model and its report are as they were.
fn put_refused(
    alloc: Global,
    text: &mut Text,
    session: &Session,
    fault: ModelFault,
    model: &SystemModel,
    findings: &Text,
) -> Result<(), NoMemory> {
    match fault {
        ModelFault::Refused(refusal) => {
            text.put(format!(in alloc; "refused {refusal}")?.as_bytes())?;
        }
        ModelFault::NoMemory => text.put(b"no memory")?,
    }
    let now = report(alloc, session.model(), session.findings())?;
    if session.model().plain() == model && now.as_slice() == findings.as_slice() {
        text.put(b", kept\n")
    } else {
        text.put(b", changed\n")
    }
}

/// How many edits a session has taken and refused, and for how many its answer differs from that of
/// a fresh analysis.
#[derive(Clone, Copy)]
struct Tally {
    taken: u64,
    refused: u64,
    apart: u64,
}

fn alike<L: Ledger>(
    alloc: Global,
    session: &mut Session,
    edits: &[ListedEdit],
    steps: &mut Steps<L>,
) -> Result<Text, NoMemory> {
    let mut tally = Tally {
        taken: 0,
        refused: 0,
        apart: 0,
    };
    for listed in edits {
        let edit = &listed.edit;
        if !edit.in_range() {
            return said(alloc, "out of range");
        }
        tally = tallied(alloc, session, edit, steps, tally)?;
    }
    let mut text = Text::new(alloc);
    put_number(&mut text, b"taken ", tally.taken)?;
    put_number(&mut text, b" refused ", tally.refused)?;
    put_number(&mut text, b" apart ", tally.apart)?;
    text.put(b"\n")?;
    Ok(text)
}

/// Makes an edit in a session, and afresh on the session's model, and counts what came of it.
fn tallied<L: Ledger>(
    alloc: Global,
    session: &mut Session,
    edit: &Edit,
    steps: &mut Steps<L>,
    tally: Tally,
) -> Result<Tally, NoMemory>
    requires { IsEditInRange edit.now }
{
    let fresh = answer_afresh(alloc, session.model(), edit, steps)?;
    let (answer, is_taken) = match session.apply(edit, steps) {
        Ok(()) => (report(alloc, session.model(), session.findings())?, true),
        Err(fault) => (refused(alloc, fault)?, false),
    };
    let is_apart = answer.as_slice() != fresh.as_slice();
    Ok(Tally {
        taken: tally.taken.saturating_add(u64::from(is_taken)),
        refused: tally.refused.saturating_add(u64::from(!is_taken)),
        apart: tally.apart.saturating_add(u64::from(is_apart)),
    })
}

/// Writes the report of a fresh analysis of the model that an edit makes, or the edit's refusal.
fn answer_afresh<L: Ledger>(
    alloc: Global,
    model: &ValidModel,
    edit: &Edit,
    steps: &mut Steps<L>,
) -> Result<Text, NoMemory>
    requires { IsEditInRange edit.now }
{
    match apply_edit(alloc, model, edit) {
        Ok(edited) => report_afresh(alloc, &edited, steps),
        Err(fault) => refused(alloc, fault),
    }
}

fn report_afresh<L: Ledger>(
    alloc: Global,
    model: &ValidModel,
    steps: &mut Steps<L>,
) -> Result<Text, NoMemory> {
    let findings = analyse(alloc, model, steps)?;
    report(alloc, model, &findings)
}
