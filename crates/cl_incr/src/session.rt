//! Sessions: a model that is edited, and its findings.
ghost use Rattle.std.specs.Prelude.{◌≡◌, ◌+◌, ◌*◌, ◌<◌, ◌≤◌, length, Ok, Err, IfOk, IfErr, IfSome, OnOk, OnErr};
ghost use Rattle.cl_model.specs.declared.{model.SystemModel.SystemModel, refusal.Refusal.Refusal};
ghost use Rattle.cl_edit.specs.{Changing.{with_change, MayBeMade}, Edited.edited, Ranges.IsEditInRange};
ghost use Rattle.cl_analyse.specs.Findings.{AreFindings};
ghost use Rattle.cl_incr.specs.{Changed.AsksForChanges, Inner.News.AreNewsOf};

use crate::anew::{News, news_of, put_news};
use cl_analyse::{Findings, analyse};
use cl_edit::{Change, Edit, check_edit};
use cl_model::{ModelFault, ValidModel};
use cl_time::{NoMemory, Steps};
use std::alloc::Global;
use std::marker::Model;
use std::mem;
use std::sync::ledger::Ledger;

/// A model that is edited, together with its findings.
#[derive(Drop)]
pub struct Session {
    alloc: Global,
    model: ValidModel,
    findings: Findings,
    /// A copy of the model, where there was memory for one. The next edit changes it in place, so
    /// that the questions before and after can be compared.
    twin: Option<ValidModel>,
}

impl Model for Session {
    ghost use Rattle.cl_incr.specs.SessionState.{SessionState};
    ghost use Rattle.cl_incr.specs.Inner.IsSession.{IsSession};

    ghost Value = { SessionState };

    ghost view = { λ a. record { model = a.model; findings = a.findings } };

    ghost invariant = { IsSession };
}

impl Session {
    /// Starts a session over a model and analyses it. Counts at most one step for each task and two
    /// for each chain. `NoMemory` comes where there is no memory for the findings or for a
    /// question. It leaves nothing of the model.
    pub fn start<L: Ledger>(
        alloc: Global,
        model: ValidModel,
        steps: &mut Steps<L>,
    ) -> Result<Session, NoMemory>
        ensures model { IfOk result (λ session. session.model ≡ model) }
        ensures findings { IfOk result (λ session. AreFindings session.model session.findings) }
        ensures steps { steps.new ≤ steps.old + (length model.tasks + 2 * length model.chains) }
    {
        let findings = analyse(alloc, &model, steps)?;
        Ok(Session {
            alloc,
            model,
            findings,
            twin: None,
        })
    }

    /// Applies an edit to the model. The findings are then those of a fresh analysis of the edited
    /// model, but only questions that changed are answered again. Whatever the result is, it counts
    /// at most one step for each task, and two for each chain, whose question changed.
    /// `Edit::Report` changes nothing, takes no memory and is always `Ok`.
    ///
    /// An edit is refused exactly where the edited model is, with its first refusal, and counts no
    /// step. `NoMemory` comes where there is no memory for the edited model, for its findings or
    /// for a question. Either error leaves the session as it was.
    pub fn apply<L: Ledger>(&mut self, edit: &Edit, steps: &mut Steps<L>) -> Result<(), ModelFault>
        requires { IsEditInRange edit.now }
        ensures model { OnOk result (edited self.old.model edit.now ≡ Ok self.new.model) }
        ensures findings { AreFindings self.new.model self.new.findings }
        ensures refused { IfErr result
            (λ fault. (refusal : Refusal) → fault ≡ ModelFault.Refused refusal
            → edited self.old.model edit.now ≡ Err refusal) }
        ensures unchanged { OnErr result (self.new ≡ self.old) }
        ensures report { edit.now ≡ Edit.Report
            → (result ≡ Ok tt) × (self.new ≡ self.old) × (steps.new ≡ steps.old) }
        ensures steps { (changed : SystemModel) → edited self.old.model edit.now ≡ Ok changed
            → AsksForChanges self.old.model changed steps.old steps.new }
        ensures refused_steps { (refusal : Refusal) → edited self.old.model edit.now ≡ Err refusal
            → steps.new ≡ steps.old }
    {
        // a report keeps the model, since it is valid, and the findings, since they are its own
        let _plain = self.model().plain();
        let _findings = self.findings();
        match edit {
            Edit::Report => Ok(()),
            _ => self.change(edit, steps),
        }
    }

    /// Ends the session, and frees all that it holds.
    pub fn close(self) {
        // not by the end of the scope, since a check of that opens each field
        mem::drop(self);
    }

    /// The findings of the model, which are those of a fresh analysis.
    pub fn findings(&self) -> &Findings
        ensures findings { result.now ≡ self.now.findings }
        ensures found { AreFindings self.now.model result.now }
    {
        &self.findings
    }

    /// The model with all edits so far.
    pub fn model(&self) -> &ValidModel
        ensures { result.now ≡ self.now.model }
    {
        &self.model
    }

    /// Checks an edit and applies it.
    fn change<L: Ledger>(&mut self, edit: &Edit, steps: &mut Steps<L>) -> Result<(), ModelFault>
        requires { IsEditInRange edit.now }
        ensures model { OnOk result (edited self.old.model edit.now ≡ Ok self.new.model) }
        ensures findings { AreFindings self.new.model self.new.findings }
        ensures refused { IfErr result
            (λ fault. (refusal : Refusal) → fault ≡ ModelFault.Refused refusal
            → edited self.old.model edit.now ≡ Err refusal) }
        ensures unchanged { OnErr result (self.new ≡ self.old) }
        ensures steps { (changed : SystemModel) → edited self.old.model edit.now ≡ Ok changed
            → AsksForChanges self.old.model changed steps.old steps.new }
        ensures refused_steps { (refusal : Refusal) → edited self.old.model edit.now ≡ Err refusal
            → steps.new ≡ steps.old }
    {
        // where an edit is refused, the findings stay those of the model
        let _findings = self.findings();
        let change = check(self.alloc, &self.model, edit)?;
        self.make(&change, steps)?;
        Ok(())
    }

    /// Makes a change. `NoMemory` leaves the model and the findings as they were.
    fn make<L: Ledger>(&mut self, change: &Change, steps: &mut Steps<L>) -> Result<(), NoMemory>
        requires { MayBeMade self.old.model change.now }
        ensures model { OnOk result (self.new.model ≡ with_change self.old.model change.now) }
        ensures findings { AreFindings self.new.model self.new.findings }
        ensures unchanged { OnErr result (self.new ≡ self.old) }
        ensures steps { AsksForChanges self.old.model (with_change self.old.model change.now) steps.old steps.new }
    {
        // where there is no memory for a changed model, the findings stay those of the model
        let _findings = self.findings();
        let model = change.make(self.alloc, self.take_twin()?)?;
        let news = news_of(self.alloc, &self.model, &self.findings, &model, steps)?;
        self.take_news(model, news, change);
        Ok(())
    }

    /// Takes the copy of the model, or makes one.
    fn take_twin(&mut self) -> Result<ValidModel, NoMemory>
        ensures twin { IfOk result (λ twin. twin ≡ self.old.model) }
        ensures unchanged { self.new ≡ self.old }
    {
        match self.twin.take() {
            Some(twin) => Ok(twin),
            None => self.model.copy(self.alloc),
        }
    }

    /// Replaces the model by a changed one, and the findings by those of it. The old model is
    /// changed in the same way, to be the copy of the new one.
    fn take_news(&mut self, model: ValidModel, news: News, change: &Change)
        requires may_be_made { MayBeMade self.old.model change.now }
        requires made { model ≡ with_change self.old.model change.now }
        requires news { AreNewsOf self.old.model self.old.findings model news }
        ensures model { self.new.model ≡ model }
        ensures findings { AreFindings self.new.model self.new.findings }
    {
        let old = mem::replace(&mut self.model, model);
        put_news(&self.model, &mut self.findings, news);
        self.twin = changed(self.alloc, old, change);
    }
}

/// Checks whether an edit may be applied to a model, and finds which change of it the edit is.
/// Changes nothing.
fn check(alloc: Global, model: &ValidModel, edit: &Edit) -> Result<Change, ModelFault>
    requires { IsEditInRange edit.now }
    ensures made { IfOk result (λ change. edited model.now edit.now ≡ Ok (with_change model.now change)) }
    ensures may_be_made { IfOk result (MayBeMade model.now) }
    ensures refused { IfErr result
        (λ fault. (refusal : Refusal) → fault ≡ ModelFault.Refused refusal
        → edited model.now edit.now ≡ Err refusal) }
{
    check_edit(alloc, model, edit)
}

/// Makes a change of a model. `None` comes where there is no memory for it.
fn changed(alloc: Global, model: ValidModel, change: &Change) -> Option<ValidModel>
    requires { MayBeMade model change.now }
    ensures { IfSome result (λ changed. changed ≡ with_change model change.now) }
{
    change.make(alloc, model).ok()
}
