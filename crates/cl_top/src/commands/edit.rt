ghost use Rattle.std.specs.Prelude.{◌≡◌, ℕ, ◌+◌, ◌≤◌, ◌++◌, List, Err, All, IfOk, OnOk};
ghost use Rattle.cl_model.specs.{Place.top, declared.refusal.Refusal.Refusal};
ghost use Rattle.cl_edit.specs.{Edited.edited, Ranges.IsEditInRange, Reading.edits_of};
ghost use Rattle.cl_tighten.specs.Tight.{tight_text};
ghost use Rattle.cl_verify.specs.VerifyText.{IsVerifyTextOf};
ghost use Rattle.cl_engine.specs.Content.{ModelAnd};
ghost use Rattle.cl_top.specs.{Commands.{IsOutcomeOf, TakesStepsOf, Edit.{edits_refused, behind, IsWrittenBy, AreEditedTo}}, Inner.Edits.{IsMade, HasAsked, HaveAsked}, Meaning.task_steps, Steps.{written_steps, AskForChanges}};

use crate::Command;
use cl_edit::{Edit, EditLines, EditsFault, ListedEdit};
use cl_engine::{Outcome, status};
use cl_incr::Session;
use cl_model::{Code, ModelFault, Place, Refusal, ValidModel};
use cl_near::Budget;
use cl_report::put_report;
use cl_text::Text;
use cl_tight::tighten;
use cl_tighten::tight_report;
use cl_time::{NoMemory, Steps};
use cl_verify::{decide, verify_text};
use std::alloc::Global;
use std::sync::ledger::Ledger;

/// Finds the outcome of `edit` for a valid model and the text of a list of edits: what is written
/// for its edits, in order; or the first bad line of the text; or what is written before the first
/// edit that is refused, and then its refusal. Counts at most one step for each task and two for
/// each chain of the model; and, where each line is an edit, also one for each task and two for each
/// chain whose question an edit changes, and one for each task where tight bounds are written or the
/// model is verified.
#[tactic(auto, unfolding(crate::specs::Commands::command_meaning))]
pub(super) fn edited<L: Ledger>(
    alloc: Global,
    model: ValidModel,
    text: &[u8],
    steps: &mut Steps<L>,
) -> Result<Outcome, NoMemory>
    ensures outcome { IfOk result (IsOutcomeOf Command.Edit (ModelAnd model text.now)) }
    ensures steps { TakesStepsOf Command.Edit (ModelAnd model text.now) steps.old steps.new }
{
    match EditLines::of(alloc, text) {
        Ok(lines) => write_edited(alloc, model, lines, steps),
        Err(EditsFault::BadLine { line }) => bad_line(alloc, line),
        Err(EditsFault::NoMemory) => Err(NoMemory),
    }
}

/// Starts a session of the model, makes these edits one after the other and collects what is
/// written.
fn write_edited<L: Ledger>(
    alloc: Global,
    model: ValidModel,
    lines: EditLines<'_>,
    steps: &mut Steps<L>,
) -> Result<Outcome, NoMemory>
    requires { All IsEditInRange (edits_of lines) }
    ensures outcome { IfOk result (AreEditedTo model lines.entry) }
    ensures steps { HaveAsked (edits_of lines.entry) model steps.old steps.new }
{
    let mut session = Session::start(alloc, model, steps)?;
    let outcome = write_lines(alloc, &mut session, lines, steps);
    session.close();
    outcome
}

/// Makes the edits one after the other and collects what is written, up to the first edit that is
/// refused. All runs that are made to verify are within one budget.
fn write_lines<L: Ledger>(
    alloc: Global,
    session: &mut Session,
    mut lines: EditLines<'_>,
    steps: &mut Steps<L>,
) -> Result<Outcome, NoMemory>
    requires { All IsEditInRange (edits_of lines) }
    ensures outcome { IfOk result (AreEditedTo session.old.model lines.entry) }
    ensures steps { AskForChanges (edits_of lines.entry) session.old.model steps.old steps.new }
{
    let mut text = Text::new(alloc);
    let mut budget = Budget::new();
    while let Some(listed) = lines.next(alloc)? {
        let line = listed.line;
        if let Err(fault) = make_listed(alloc, session, listed, &mut budget, &mut text, steps) {
            return stopped(alloc, text, line, fault);
        }
    }
    Ok(Outcome::done(text))
}

/// Makes an edit of a list, as `make_edit` does, and drops it.
fn make_listed<L: Ledger>(
    alloc: Global,
    session: &mut Session,
    listed: ListedEdit,
    budget: &mut Budget,
    text: &mut Text,
    steps: &mut Steps<L>,
) -> Result<(), ModelFault>
    requires { IsEditInRange listed.edit }
    ensures made { OnOk result (IsMade session.old.model listed.edit session.new.model text.old text.new) }
    ensures refused { (refusal : Refusal) → result ≡ Err (ModelFault.Refused refusal)
        → (edited session.old.model listed.edit ≡ Err refusal) × (text.new ≡ text.old) }
    ensures steps { HasAsked listed.edit session.old.model (edited session.old.model listed.edit) steps.old steps.new }
{
    make_edit(alloc, session, &listed.edit, budget, text, steps)
}

/// Makes an edit of the session's model, and puts what it writes. An edit that is refused leaves the
/// text as it was.
fn make_edit<L: Ledger>(
    alloc: Global,
    session: &mut Session,
    edit: &Edit,
    budget: &mut Budget,
    text: &mut Text,
    steps: &mut Steps<L>,
) -> Result<(), ModelFault>
    requires { IsEditInRange edit.now }
    ensures made { OnOk result (IsMade session.old.model edit.now session.new.model text.old text.new) }
    ensures refused { (refusal : Refusal) → result ≡ Err (ModelFault.Refused refusal)
        → (edited session.old.model edit.now ≡ Err refusal) × (text.new ≡ text.old) }
    ensures steps { HasAsked edit.now session.old.model (edited session.old.model edit.now) steps.old steps.new }
{
    session.apply(edit, steps)?;
    put_written(alloc, session, edit, budget, text, steps)?;
    Ok(())
}

/// Puts what an edit writes of the session's model, which is nothing for an edit that changes it.
fn put_written<L: Ledger>(
    alloc: Global,
    session: &Session,
    edit: &Edit,
    budget: &mut Budget,
    text: &mut Text,
    steps: &mut Steps<L>,
) -> Result<(), NoMemory>
    ensures written { OnOk result
        ((written : List ℕ) × IsWrittenBy session.now.model edit.now written
        × (text.new ≡ text.old ++ written)) }
    ensures steps { steps.new ≤ steps.old + written_steps edit.now session.now.model }
{
    match edit {
        Edit::Report => put_report(text, session.model(), session.findings()),
        Edit::Tighten => put_tight(alloc, session.model(), text, steps),
        Edit::Verify => put_verified(alloc, session.model(), budget, text, steps),
        _ => Ok(()),
    }
}

/// Puts the report by tight bounds of a model.
fn put_tight<L: Ledger>(
    alloc: Global,
    model: &ValidModel,
    text: &mut Text,
    steps: &mut Steps<L>,
) -> Result<(), NoMemory>
    ensures written { OnOk result (text.new ≡ text.old ++ tight_text model.now) }
    ensures steps { steps.new ≤ steps.old + task_steps model.now }
{
    let findings = tighten(alloc, model, steps)?;
    let report = tight_report(alloc, model, &findings)?;
    text.put(report.as_slice())
}

/// Puts what is decided of a model, by runs within this budget.
fn put_verified<L: Ledger>(
    alloc: Global,
    model: &ValidModel,
    budget: &mut Budget,
    text: &mut Text,
    steps: &mut Steps<L>,
) -> Result<(), NoMemory>
    ensures written { OnOk result
        ((written : List ℕ) × IsVerifyTextOf model.now written × (text.new ≡ text.old ++ written)) }
    ensures steps { steps.new ≤ steps.old + task_steps model.now }
{
    let findings = tighten(alloc, model, steps)?;
    let decisions = decide(alloc, model, &findings, budget)?;
    let written = verify_text(alloc, model, &decisions)?;
    text.put(written.as_slice())
}

/// Makes the outcome where the edit in line `number` isn't made: the text so far and, behind it,
/// the refusal of that line. `NoMemory` where memory ran out.
fn stopped(alloc: Global, text: Text, number: u64, fault: ModelFault) -> Result<Outcome, NoMemory>
    ensures { IfOk result
        (λ outcome. (refusal : Refusal) × (fault ≡ ModelFault.Refused refusal)
        × (outcome ≡ behind text (edits_refused number refusal))) }
{
    match fault {
        ModelFault::Refused(refusal) => refused(alloc, text, number, refusal),
        ModelFault::NoMemory => Err(NoMemory),
    }
}

/// Makes the outcome of a text with the refusal of line `number` behind it.
pub(super) fn refused(
    alloc: Global,
    text: Text,
    number: u64,
    refusal: Refusal,
) -> Result<Outcome, NoMemory>
    ensures { IfOk result (λ outcome. outcome ≡ behind text (edits_refused number refusal)) }
{
    let mut text = text;
    text.put(b"edits refused line ")?;
    text.put_number(number)?;
    text.put(b" ")?;
    text.put(format!(in alloc; "{refusal}")?.as_bytes())?;
    text.put(b"\n")?;
    Ok(Outcome {
        status: status::EDITS_REFUSED,
        text,
    })
}

/// Makes the outcome of a list of edits whose first bad line is line `number`.
pub(super) fn bad_line(alloc: Global, number: u64) -> Result<Outcome, NoMemory>
    ensures { IfOk result
        (λ outcome. outcome ≡ edits_refused number (record { code = Code.E1; place = top })) }
{
    let refusal = Refusal {
        code: Code::E1,
        place: Place::top(),
    };
    refused(alloc, Text::new(alloc), number, refusal)
}
