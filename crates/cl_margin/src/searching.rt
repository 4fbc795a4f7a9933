//! How the margin of some tasks is found: by halving, over one thing that is met after the other.
ghost use Rattle.std.specs.Prelude.{◌≡◌, ℕ, ◌<◌, ◌≤◌, true, not, length, IfOk, IfSome, IfNone};
ghost use Rattle.cl_model.specs.Ranges.{IsInRange};
ghost use Rattle.cl_margin.specs.{Grown.grown, Margins.{is_met_task, is_met_requirement, KeepsTasks, KeepsMet, IsFirstLate, IsFirstUnmet, BreaksFirst, IsMargin, SmallerKeepMet}, Inner.Searches.{holds, FitsItem, IsItemOf, IsMetItem, KeepsTask, KeepsChain, KeepsItem, IsNewlyBroken}};
ghost use Rattle.cl_margin.specs.Inner.{Searches.IsMarginSearch, Touched.IsOfModel, Trials.{IsTrialOf, IsTrialAt, IsStanding}};
ghost use Rattle.cl_tight.specs.TightFindings.{tight_findings_of};

use crate::allowed::{Allowed, chain_of};
use crate::answer::{Breaks, Margin};
use crate::standing::Standing;
use crate::trial::Trial;
use crate::whose::Whose;
use cl_analyse::ChainAnswer;
use cl_scale::MOST_PERCENT;
use cl_time::{NoMemory, Steps};
use std::alloc::Global;
use std::sync::ledger::Ledger;

/// Something that is met as the model stands.
#[derive(Clone, Copy)]
enum Item {
    /// The deadline of a task.
    Task { task: u32 },
    /// What the requirements on a chain allow.
    Chain { chain: u32, allowed: Allowed },
}

/// How far a search has come: all that has been asked holds at the percentage, and at none above it
/// and within the range.
#[derive(Drop)]
pub(crate) struct Search {
    percent: u64,
    /// The model with the times at the percentage.
    trial: Trial,
}

/// Checks whether something holds of a model.
fn holds<L: Ledger>(
    alloc: Global,
    trial: &mut Trial,
    item: Item,
    steps: &mut Steps<L>,
) -> Result<bool, NoMemory>
    requires trial { IsTrialOf trial.old.model trial.old }
    requires item { IsItemOf trial.old.model item }
    ensures holds { IfOk result (λ held. held ≡ holds item trial.old.model) }
    ensures fits { IfOk result (λ held. FitsItem item trial.old.model) }
    ensures trial { IsTrialOf trial.old.model trial.new }
{
    match item {
        Item::Task { task } => Ok(!trial.is_late(alloc, task, steps)?),
        Item::Chain { chain, allowed } => match trial.bound(alloc, chain, steps)? {
            ChainAnswer::Bounds(bounds) => Ok(allowed.allows(&bounds)),
            ChainAnswer::Late { .. } => Ok(false),
        },
    }
}

impl Search {
    /// Begins at the greatest percentage at which the times stay in range.
    fn begin(standing: &Standing<'_>, whose: Whose, trial: Trial) -> Search
        requires standing { IsStanding standing.now.model.now standing.now.found.now standing.now.order.now standing.now.allowed.now }
        requires whose { IsOfModel standing.now.model.now whose }
        requires trial { IsTrialOf standing.now.model.now trial }
        ensures { IsMarginSearch standing.now.model.now whose result }
    {
        let percent = whose.most_percent(standing.model);
        Search {
            percent,
            trial: trial.at(standing, whose, percent),
        }
    }

    /// Asks something at the percentage, and halves what is below where it doesn't hold.
    fn ask<L: Ledger>(
        self,
        alloc: Global,
        standing: &Standing<'_>,
        whose: Whose,
        item: Item,
        steps: &mut Steps<L>,
    ) -> Result<Search, NoMemory>
        requires standing { IsStanding standing.now.model.now standing.now.found.now standing.now.order.now standing.now.allowed.now }
        requires whose { IsOfModel standing.now.model.now whose }
        requires search { IsMarginSearch standing.now.model.now whose self }
        requires item { IsItemOf standing.now.model.now item }
        requires met { IsMetItem standing.now.model.now standing.now.allowed.now item }
        ensures search { IfOk result (IsMarginSearch standing.now.model.now whose) }
        ensures kept { IfOk result (λ search. KeepsItem standing.now.model.now (grown standing.now.model.now whose search.percent) item) }
        ensures no_greater { IfOk result (λ search. search.percent ≤ self.percent) }
    {
        let mut trial = self.trial;
        if holds(alloc, &mut trial, item, steps)? {
            return Ok(Search {
                percent: self.percent,
                trial,
            });
        }
        // it holds at `kept`, and not at `end` or above
        let mut kept = 100;
        let mut end = self.percent;
        while end - kept > 1 {
            let middle = (kept + end) / 2;
            trial = trial.at(standing, whose, middle);
            if holds(alloc, &mut trial, item, steps)? {
                kept = middle;
            } else {
                end = middle;
            }
        }
        Ok(Search {
            percent: kept,
            trial: trial.at(standing, whose, kept),
        })
    }

    /// Asks a task, if it is met now and these times may change its answer.
    fn ask_task<L: Ledger>(
        self,
        alloc: Global,
        standing: &Standing<'_>,
        whose: Whose,
        task: u32,
        steps: &mut Steps<L>,
    ) -> Result<Search, NoMemory>
        requires standing { IsStanding standing.now.model.now standing.now.found.now standing.now.order.now standing.now.allowed.now }
        requires whose { IsOfModel standing.now.model.now whose }
        requires search { IsMarginSearch standing.now.model.now whose self }
        requires task { task < length standing.now.model.now.tasks }
        ensures search { IfOk result (IsMarginSearch standing.now.model.now whose) }
        ensures kept { IfOk result (λ search. KeepsTask standing.now.model.now (grown standing.now.model.now whose search.percent) task) }
        ensures no_greater { IfOk result (λ search. search.percent ≤ self.percent) }
    {
        if !standing.has_task(task) {
            return Ok(self);
        }
        if !whose.touches(standing.model, task) {
            return Ok(self);
        }
        self.ask(alloc, standing, whose, Item::Task { task }, steps)
    }

    /// Asks each task that is met now, on each core from the lowest priority to the highest.
    fn ask_tasks<L: Ledger>(
        self,
        alloc: Global,
        standing: &Standing<'_>,
        whose: Whose,
        steps: &mut Steps<L>,
    ) -> Result<Search, NoMemory>
        requires standing { IsStanding standing.now.model.now standing.now.found.now standing.now.order.now standing.now.allowed.now }
        requires whose { IsOfModel standing.now.model.now whose }
        requires search { IsMarginSearch standing.now.model.now whose self }
        ensures search { IfOk result (IsMarginSearch standing.now.model.now whose) }
        ensures tasks { IfOk result (λ search. KeepsTasks standing.now.model.now (grown standing.now.model.now whose search.percent)) }
    {
        let mut search = self;
        for asked in 0..standing.order.len() {
            let task = standing.order[standing.order.len() - 1 - asked];
            search = search.ask_task(alloc, standing, whose, task, steps)?;
        }
        Ok(search)
    }

    /// Asks a chain, if it has a requirement that is met now and these times may change its bounds.
    fn ask_chain<L: Ledger>(
        self,
        alloc: Global,
        standing: &Standing<'_>,
        whose: Whose,
        chain: u32,
        steps: &mut Steps<L>,
    ) -> Result<Search, NoMemory>
        requires standing { IsStanding standing.now.model.now standing.now.found.now standing.now.order.now standing.now.allowed.now }
        requires whose { IsOfModel standing.now.model.now whose }
        requires search { IsMarginSearch standing.now.model.now whose self }
        requires chain { chain < length standing.now.model.now.chains }
        ensures search { IfOk result (IsMarginSearch standing.now.model.now whose) }
        ensures kept { IfOk result (λ search. KeepsChain standing.now.model.now (grown standing.now.model.now whose search.percent) chain) }
        ensures no_greater { IfOk result (λ search. search.percent ≤ self.percent) }
    {
        let allowed = standing.allowed[chain as usize];
        if allowed.is_any() {
            return Ok(self);
        }
        if !whose.touches_chain(standing.model, chain) {
            return Ok(self);
        }
        let item = Item::Chain { chain, allowed };
        self.ask(alloc, standing, whose, item, steps)
    }

    /// Asks each chain with a requirement that is met now.
    fn ask_chains<L: Ledger>(
        self,
        alloc: Global,
        standing: &Standing<'_>,
        whose: Whose,
        steps: &mut Steps<L>,
    ) -> Result<Search, NoMemory>
        requires standing { IsStanding standing.now.model.now standing.now.found.now standing.now.order.now standing.now.allowed.now }
        requires whose { IsOfModel standing.now.model.now whose }
        requires search { IsMarginSearch standing.now.model.now whose self }
        requires tasks { KeepsTasks standing.now.model.now (grown standing.now.model.now whose self.percent) }
        ensures search { IfOk result (IsMarginSearch standing.now.model.now whose) }
        ensures kept { IfOk result (λ search. KeepsMet standing.now.model.now (grown standing.now.model.now whose search.percent)) }
    {
        let mut search = self;
        for chain in 0..standing.model.chains() {
            search = search.ask_chain(alloc, standing, whose, chain, steps)?;
        }
        Ok(search)
    }

    /// Finds what breaks first at one percent more, and lets the model be as it stands again.
    fn end<L: Ledger>(
        self,
        alloc: Global,
        standing: &Standing<'_>,
        whose: Whose,
        steps: &mut Steps<L>,
    ) -> Result<Found, NoMemory>
        requires standing { IsStanding standing.now.model.now standing.now.found.now standing.now.order.now standing.now.allowed.now }
        requires whose { IsOfModel standing.now.model.now whose }
        requires search { IsMarginSearch standing.now.model.now whose self }
        requires kept { KeepsMet standing.now.model.now (grown standing.now.model.now whose self.percent) }
        ensures margin { IfOk result (λ found. IsMargin standing.now.model.now whose found.margin) }
        ensures trial { IfOk result (λ found. IsTrialOf standing.now.model.now found.trial) }
    {
        let percent = self.percent;
        if percent == MOST_PERCENT {
            return Ok(Found {
                margin: Margin {
                    percent,
                    breaks: None,
                },
                trial: self.trial.reset(standing, whose),
            });
        }
        if percent == whose.most_percent(standing.model) {
            return Ok(Found {
                margin: Margin {
                    percent,
                    breaks: Some(Breaks::Limit),
                },
                trial: self.trial.reset(standing, whose),
            });
        }
        let mut trial = self.trial.at(standing, whose, percent + 1);
        let breaks = first_broken(alloc, standing, whose, &mut trial, steps)?;
        Ok(Found {
            margin: Margin { percent, breaks },
            trial: trial.reset(standing, whose),
        })
    }
}

/// Checks whether a task is late that isn't as the model stands.
fn is_newly_late<L: Ledger>(
    alloc: Global,
    standing: &Standing<'_>,
    whose: Whose,
    trial: &mut Trial,
    task: u32,
    steps: &mut Steps<L>,
) -> Result<bool, NoMemory>
    requires standing { IsStanding standing.now.model.now standing.now.found.now standing.now.order.now standing.now.allowed.now }
    requires whose { IsOfModel standing.now.model.now whose }
    requires percent { (percent : ℕ) × IsTrialAt standing.now.model.now whose percent trial.old }
    requires in_range { IsInRange trial.old.model }
    requires task { task < length standing.now.model.now.tasks }
    ensures late { IfOk result (λ late. IsNewlyBroken late (is_met_task (tight_findings_of standing.now.model.now) task)
        (is_met_task (tight_findings_of trial.old.model) task)) }
    ensures trial { IsTrialOf trial.old.model trial.new }
{
    if !standing.has_task(task) {
        return Ok(false);
    }
    if !whose.touches(standing.model, task) {
        return Ok(false);
    }
    trial.is_late(alloc, task, steps)
}

/// Finds the first task that is late and isn't as the model stands.
fn first_late<L: Ledger>(
    alloc: Global,
    standing: &Standing<'_>,
    whose: Whose,
    trial: &mut Trial,
    steps: &mut Steps<L>,
) -> Result<Option<u32>, NoMemory>
    requires standing { IsStanding standing.now.model.now standing.now.found.now standing.now.order.now standing.now.allowed.now }
    requires whose { IsOfModel standing.now.model.now whose }
    requires percent { (percent : ℕ) × IsTrialAt standing.now.model.now whose percent trial.old }
    requires in_range { IsInRange trial.old.model }
    ensures some { IfOk result (λ late. IfSome late (IsFirstLate standing.now.model.now trial.old.model)) }
    ensures none { IfOk result (λ late. IfNone late (KeepsTasks standing.now.model.now trial.old.model)) }
    ensures trial { IsTrialOf trial.old.model trial.new }
{
    for task in 0..standing.model.tasks() {
        if is_newly_late(alloc, standing, whose, trial, task, steps)? {
            return Ok(Some(task));
        }
    }
    Ok(None)
}

/// Checks whether a requirement, given by its number, isn't met.
fn is_over<L: Ledger>(
    alloc: Global,
    standing: &Standing<'_>,
    whose: Whose,
    trial: &mut Trial,
    requirement: usize,
    steps: &mut Steps<L>,
) -> Result<bool, NoMemory>
    requires standing { IsStanding standing.now.model.now standing.now.found.now standing.now.order.now standing.now.allowed.now }
    requires whose { IsOfModel standing.now.model.now whose }
    requires percent { (percent : ℕ) × IsTrialAt standing.now.model.now whose percent trial.old }
    requires in_range { IsInRange trial.old.model }
    requires requirement { requirement < length standing.now.model.now.requirements }
    requires met { is_met_requirement (tight_findings_of standing.now.model.now) requirement ≡ true }
    ensures over { IfOk result (λ over. over ≡ not (is_met_requirement (tight_findings_of trial.old.model) requirement)) }
    ensures trial { IsTrialOf trial.old.model trial.new }
{
    let requirement = &standing.model.plain().requirements.as_slice()[requirement];
    let chain = chain_of(standing.model, requirement);
    if !whose.touches_chain(standing.model, chain) {
        return Ok(false);
    }
    match trial.bound(alloc, chain, steps)?.required(requirement.kind) {
        Some(bound) => Ok(bound > requirement.most),
        None => Ok(true),
    }
}

/// Checks whether a requirement isn't met that is as the model stands.
fn is_newly_over<L: Ledger>(
    alloc: Global,
    standing: &Standing<'_>,
    whose: Whose,
    trial: &mut Trial,
    requirement: usize,
    steps: &mut Steps<L>,
) -> Result<bool, NoMemory>
    requires standing { IsStanding standing.now.model.now standing.now.found.now standing.now.order.now standing.now.allowed.now }
    requires whose { IsOfModel standing.now.model.now whose }
    requires percent { (percent : ℕ) × IsTrialAt standing.now.model.now whose percent trial.old }
    requires in_range { IsInRange trial.old.model }
    requires requirement { requirement < length standing.now.model.now.requirements }
    ensures over { IfOk result (λ over. IsNewlyBroken over (is_met_requirement (tight_findings_of standing.now.model.now) requirement)
        (is_met_requirement (tight_findings_of trial.old.model) requirement)) }
    ensures trial { IsTrialOf trial.old.model trial.new }
{
    if !standing.has_requirement(requirement) {
        return Ok(false);
    }
    is_over(alloc, standing, whose, trial, requirement, steps)
}

/// Finds the first requirement that isn't met and is as the model stands.
fn first_unmet<L: Ledger>(
    alloc: Global,
    standing: &Standing<'_>,
    whose: Whose,
    trial: &mut Trial,
    steps: &mut Steps<L>,
) -> Result<Option<u32>, NoMemory>
    requires standing { IsStanding standing.now.model.now standing.now.found.now standing.now.order.now standing.now.allowed.now }
    requires whose { IsOfModel standing.now.model.now whose }
    requires percent { (percent : ℕ) × IsTrialAt standing.now.model.now whose percent trial.old }
    requires in_range { IsInRange trial.old.model }
    requires tasks { KeepsTasks standing.now.model.now trial.old.model }
    ensures some { IfOk result (λ unmet. IfSome unmet (IsFirstUnmet standing.now.model.now trial.old.model)) }
    ensures none { IfOk result (λ unmet. IfNone unmet (KeepsMet standing.now.model.now trial.old.model)) }
    ensures trial { IsTrialOf trial.old.model trial.new }
{
    for requirement in 0..standing.found.verdicts.len() {
        if is_newly_over(alloc, standing, whose, trial, requirement, steps)? {
            return Ok(Some(requirement as u32));
        }
    }
    Ok(None)
}

/// Finds what breaks first of what is met as the model stands.
fn first_broken<L: Ledger>(
    alloc: Global,
    standing: &Standing<'_>,
    whose: Whose,
    trial: &mut Trial,
    steps: &mut Steps<L>,
) -> Result<Option<Breaks>, NoMemory>
    requires standing { IsStanding standing.now.model.now standing.now.found.now standing.now.order.now standing.now.allowed.now }
    requires whose { IsOfModel standing.now.model.now whose }
    requires percent { (percent : ℕ) × IsTrialAt standing.now.model.now whose percent trial.old }
    requires in_range { IsInRange trial.old.model }
    ensures some { IfOk result (λ broken. IfSome broken (BreaksFirst standing.now.model.now trial.old.model)) }
    ensures none { IfOk result (λ broken. IfNone broken (KeepsMet standing.now.model.now trial.old.model)) }
    ensures trial { IsTrialOf trial.old.model trial.new }
{
    if let Some(task) = first_late(alloc, standing, whose, trial, steps)? {
        return Ok(Some(Breaks::Task { task }));
    }
    match first_unmet(alloc, standing, whose, trial, steps)? {
        Some(requirement) => Ok(Some(Breaks::Requirement { requirement })),
        None => Ok(None),
    }
}

/// A margin, and the model as it stands.
#[derive(Drop)]
pub(crate) struct Found {
    pub(crate) margin: Margin,
    pub(crate) trial: Trial,
}

/// Finds how far these times may grow: over the tasks first, and then over the chains at the
/// percentage that these leave.
pub(crate) fn margin_of<L: Ledger>(
    alloc: Global,
    standing: &Standing<'_>,
    whose: Whose,
    trial: Trial,
    steps: &mut Steps<L>,
) -> Result<Found, NoMemory>
    requires standing { IsStanding standing.now.model.now standing.now.found.now standing.now.order.now standing.now.allowed.now }
    requires whose { IsOfModel standing.now.model.now whose }
    requires trial { IsTrialOf standing.now.model.now trial }
    ensures margin { IfOk result (λ found. IsMargin standing.now.model.now whose found.margin) }
    ensures smaller { IfOk result (λ found. SmallerKeepMet standing.now.model.now whose found.margin.percent) }
    ensures trial { IfOk result (λ found. IsTrialOf standing.now.model.now found.trial) }
{
    let search = Search::begin(standing, whose, trial);
    let search = search.ask_tasks(alloc, standing, whose, steps)?;
    let search = search.ask_chains(alloc, standing, whose, steps)?;
    search.end(alloc, standing, whose, steps)
}
