//! The findings of an edited model: they are those of the model before wherever the questions are
//! the same. Times are in ticks.
ghost use Rattle.std.specs.Prelude.{IfOk};
ghost use Rattle.cl_model.specs.declared.model.SystemModel.{SystemModel};
ghost use Rattle.cl_analyse.specs.Findings.{AreFindings};
ghost use Rattle.cl_incr.specs.{Changed.AsksForChanges, Inner.News.AreNewsOf};

use crate::chains::{FoundChains, find_chains};
use crate::put::{blank_verdicts, judge_anew, moved_exacts, put_exacts, put_moved};
use crate::standing::{note_others, standing_on_cores};
use crate::tasks::answer_tasks;
use cl_analyse::{ExactAnswer, Findings, Verdict};
use cl_bound::TaskAnswer;
use cl_model::{List, ValidModel};
use cl_time::{NoMemory, Steps};
use std::alloc::Global;
use std::sync::ledger::Ledger;

/// What replaces the findings of the model before. Exact answers are large, so those that stay as
/// they were stay in their places.
#[derive(Drop)]
pub(crate) struct News {
    /// The answers for all tasks.
    tasks: List<TaskAnswer>,
    /// The bounds of all chains, and the new exact answers.
    chains: FoundChains,
    /// The earlier exact answers under the numbers that the chains have now, where these may
    /// differ.
    moved: Option<List<ExactAnswer>>,
    /// A verdict for each requirement, which isn't judged yet.
    verdicts: List<Verdict>,
}

/// Finds what is other in a new model than in the old one with these findings. Counts at most one
/// step for each task and two for each chain with a changed question.
pub(crate) fn news_of<L: Ledger>(
    alloc: Global,
    old: &ValidModel,
    findings: &Findings,
    new: &ValidModel,
    steps: &mut Steps<L>,
) -> Result<News, NoMemory>
    requires { AreFindings old.now findings.now }
    ensures news { IfOk result (AreNewsOf old.now findings.now new.now) }
    ensures steps { AsksForChanges old.now new.now steps.old steps.new }
{
    let mut standing = standing_on_cores(alloc, old, new)?;
    let tasks = answer_tasks(alloc, old, &findings.tasks, standing.as_slice(), new, steps)?;
    note_others(old, &findings.tasks, new, &tasks, &mut standing);
    let chains = find_chains(
        alloc,
        old,
        findings,
        new,
        &tasks,
        standing.as_slice(),
        steps,
    )?;
    Ok(News {
        tasks,
        chains,
        moved: moved_exacts(alloc, old, &findings.exacts, new)?,
        verdicts: blank_verdicts(alloc, new.requirements() as usize)?,
    })
}

/// Makes the findings those of the new model. Takes no memory.
pub(crate) fn put_news(model: &ValidModel, findings: &mut Findings, news: News)
    requires { (old : SystemModel) × AreNewsOf old findings.old model.now news }
    ensures { AreFindings model.now findings.new }
{
    let News {
        tasks,
        chains: FoundChains { bounds, noted },
        moved,
        verdicts,
    } = news;
    findings.tasks = tasks;
    findings.chains = bounds;
    put_moved(&mut findings.exacts, moved);
    put_exacts(&mut findings.exacts, noted.as_slice());
    findings.verdicts = verdicts;
    judge_anew(
        model,
        &findings.chains,
        &findings.exacts,
        &mut findings.verdicts,
    );
}
