//! The whole text of why: of a task, of a chain and a kind, and of a requirement. Times are in ticks.
ghost use Rattle.std.specs.Prelude.{◌≡◌, ◌<◌, ◌++◌, length, IfOk, OnOk};
ghost use Rattle.cl_model.specs.Groups.{groups_at};
ghost use Rattle.cl_runs.specs.SystemOf.{system_of};
ghost use Rattle.cl_bound.specs.Answers.{NoneIsLate};
ghost use Rattle.cl_analyse.specs.Verdicts.{limited_bound};
ghost use Rattle.cl_tight.specs.{Promises.AreSafeTightFindings, TightFindings.tight_findings_of, TightTimings.tight_timing};
ghost use Rattle.cl_phase.specs.TightBounds.{tight_bounds};
ghost use Rattle.cl_verify.specs.KnownLengths.{AreRunsOf};
ghost use Rattle.cl_why.specs.Reasons.{title, bound_line, IsReasonOfTask, IsReasonOfBound, IsReasonOfChain, IsWhyOfTask, IsWhyOfChain, IsWhyOfRequirement, Appends};

use crate::hops::put_groups;
use crate::shares::put_shares;
use crate::walks::put_walk;
use crate::window::Window;
use cl_analyse::ChainAnswer;
use cl_model::{RequirementKind, ValidModel};
use cl_phase::whole_walk;
use cl_report::{kind_word, put_chain, put_chain_name};
use cl_text::Text;
use cl_tight::TightFindings;
use cl_time::NoMemory;
use cl_verify::{
    Runs, decide_requirement, decide_task, limited_bound, put_requirement, put_seen, put_task,
};
use std::alloc::Global;

/// Starts the text with its title.
fn titled(alloc: Global) -> Result<Text, NoMemory>
    ensures { IfOk result (λ text. text ≡ title) }
{
    let mut text = Text::new(alloc);
    text.put(b"chainlat why 1\n")?;
    Ok(text)
}

/// Puts the line of a task and its decision, and those of its worst window.
fn put_reason_of_task(
    alloc: Global,
    text: &mut Text,
    model: &ValidModel,
    findings: &TightFindings,
    runs: &mut Runs,
    task: u32,
) -> Result<(), NoMemory>
    requires findings { findings.now ≡ tight_findings_of model.now }
    requires task { task < length model.now.tasks }
    requires runs { AreRunsOf model.now runs.old }
    ensures text { OnOk result (Appends (IsReasonOfTask model.now task) text.old text.new) }
    ensures runs { AreRunsOf model.now runs.new }
{
    let decision = decide_task(alloc, model, findings, runs, task)?;
    put_task(text, model, task, decision)?;
    let window = Window::of(alloc, model, &findings.tasks, task)?;
    put_shares(text, model, &window)
}

/// Puts the line of a bound of a chain, with the length that a run shows, if one does.
fn put_bound(
    text: &mut Text,
    model: &ValidModel,
    chain: u32,
    kind: RequirementKind,
    bound: u64,
    seen: Option<u64>,
) -> Result<(), NoMemory>
    requires { chain < length model.now.chains }
    ensures { OnOk result (text.new ≡ text.old ++ bound_line model.now chain kind bound seen) }
{
    text.put(b"chain ")?;
    put_chain_name(text, model, chain)?;
    text.put(b" ")?;
    text.put(kind_word(kind))?;
    text.put(b" ")?;
    text.put_number(bound)?;
    put_seen(text, seen)?;
    text.put(b"\n")
}

/// Puts the lines of a bound of a chain none of whose tasks is late: what a run shows of it, the
/// groups and hops of the chain, and a walk that lasts as long.
fn put_reason_of_bound(
    alloc: Global,
    text: &mut Text,
    model: &ValidModel,
    findings: &TightFindings,
    runs: &mut Runs,
    chain: u32,
    kind: RequirementKind,
    bound: u64,
) -> Result<(), NoMemory>
    requires findings { findings.now ≡ tight_findings_of model.now }
    requires chain { chain < length model.now.chains }
    requires not_late { NoneIsLate findings.now.tasks (groups_at model.now chain) }
    requires bound { bound ≡ limited_bound kind (tight_bounds (system_of model.now) (tight_timing (system_of model.now)) (groups_at model.now chain)) }
    requires runs { AreRunsOf model.now runs.old }
    ensures text { OnOk result (Appends (IsReasonOfBound model.now chain kind bound) text.old text.new) }
    ensures runs { AreRunsOf model.now runs.new }
{
    let seen = runs.see_chain(alloc, model, &findings.tasks, chain, kind, bound)?;
    let groups = model.groups(chain);
    let timings = runs.windows.timings(alloc, model, groups, &findings.tasks)?;
    let timings = timings.as_slice();
    let walk = whole_walk(alloc, model, groups, timings, kind, bound)?;
    put_bound(text, model, chain, kind, bound, seen)?;
    put_groups(text, model, chain, timings, &walk)?;
    put_walk(text, model, chain, timings, &walk, kind)
}

/// Puts the lines of a kind of a chain: those of its bound or, where a task of it is late, which one
/// is the first, and the lines of that task.
fn put_reason_of_chain(
    alloc: Global,
    text: &mut Text,
    model: &ValidModel,
    findings: &TightFindings,
    runs: &mut Runs,
    chain: u32,
    kind: RequirementKind,
) -> Result<(), NoMemory>
    requires findings { findings.now ≡ tight_findings_of model.now }
    requires chain { chain < length model.now.chains }
    requires runs { AreRunsOf model.now runs.old }
    ensures text { OnOk result (Appends (IsReasonOfChain model.now chain kind) text.old text.new) }
    ensures runs { AreRunsOf model.now runs.new }
{
    // So that it is known that the model is valid.
    let _ = model.plain();
    let answer = &findings.chains.as_slice()[chain as usize];
    match answer {
        ChainAnswer::Late { task } => {
            put_chain(text, model, answer, chain)?;
            put_reason_of_task(alloc, text, model, findings, runs, *task)
        }
        ChainAnswer::Bounds(bounds) => {
            let bound = limited_bound(bounds, kind);
            put_reason_of_bound(alloc, text, model, findings, runs, chain, kind, bound)
        }
    }
}

/// Builds the text of why a task, given by its number, is answered as it is: what is decided of it,
/// its worst window, and all that the ticks of that go to. The findings are those of the model.
///
/// `NoMemory` comes where there is no memory for the text, a run or a list of the tasks above; it
/// leaves nothing.
pub fn why_task(
    alloc: Global,
    model: &ValidModel,
    findings: &TightFindings,
    task: u32,
) -> Result<Text, NoMemory>
    requires findings { findings.now ≡ tight_findings_of model.now }
    requires task { task < length model.now.tasks }
    ensures { IfOk result (IsWhyOfTask model.now task) }
{
    let mut runs = Runs::new(alloc, model)?;
    let mut text = titled(alloc)?;
    put_reason_of_task(alloc, &mut text, model, findings, &mut runs, task)?;
    Ok(text)
}

/// Builds the text of why a chain, given by its number, has its bound of a kind: the bound and the
/// length that its run shows, its groups and hops, and a walk that lasts as long as the bound. Where
/// a task of it is late it has none, and the text is of the first such task. The findings are those
/// of the model.
///
/// `NoMemory` comes where there is no memory for the text, the walk, a run or a list of the tasks
/// above one; it leaves nothing.
pub fn why_chain(
    alloc: Global,
    model: &ValidModel,
    findings: &TightFindings,
    chain: u32,
    kind: RequirementKind,
) -> Result<Text, NoMemory>
    requires findings { findings.now ≡ tight_findings_of model.now }
    requires chain { chain < length model.now.chains }
    ensures { IfOk result (IsWhyOfChain model.now chain kind) }
{
    let mut runs = Runs::new(alloc, model)?;
    let mut text = titled(alloc)?;
    put_reason_of_chain(alloc, &mut text, model, findings, &mut runs, chain, kind)?;
    Ok(text)
}

/// Builds the text of why a requirement, given by its place, is decided as it is: what is decided of
/// it, and why its chain has its bound of its kind. The findings are those of the model.
///
/// `NoMemory` comes where there is no memory for the text, the walk, a run or a list of the tasks
/// above one; it leaves nothing.
pub fn why_requirement(
    alloc: Global,
    model: &ValidModel,
    findings: &TightFindings,
    place: usize,
) -> Result<Text, NoMemory>
    requires findings { findings.now ≡ tight_findings_of model.now }
    requires safe { AreSafeTightFindings model.now findings.now }
    requires place { place < length model.now.requirements }
    ensures { IfOk result (IsWhyOfRequirement model.now place) }
{
    let mut runs = Runs::new(alloc, model)?;
    let mut text = titled(alloc)?;
    let requirement = &model.plain().requirements.as_slice()[place];
    let decision = decide_requirement(alloc, model, findings, &mut runs, place)?;
    put_requirement(&mut text, model, requirement, decision)?;
    let chain = model.chain_named(&requirement.chain).unwrap_or(0);
    let kind = requirement.kind;
    put_reason_of_chain(alloc, &mut text, model, findings, &mut runs, chain, kind)?;
    Ok(text)
}
