//! The checks of what runnables read and write.
ghost use Rattle.std.specs.Prelude.{◌≡◌, ◌<◌, ◌^◌, ◌++◌, [], length, map, OnOk};
ghost use Rattle.cl_model.specs.declared.place.Key.TheVariants as keys;
ghost use Rattle.cl_model.specs.{Answers.Answers, Named.labels_written, NameSets.AreNew, Place.{at_key, at_spot as spot}, declared.refusal.Code.TheVariants.M39, ValidNames.repeat_check, Ranges.{IsRunnableInRange, IsTaskInRange}, Refusals.each, ValidTasks.{label_check, writer_check}};
ghost use Rattle.cl_model.specs.ValidTasks.{times_check, reads_check, writes_check, twice_check, contest_check, runnable_checks, body_checks};
ghost use Rattle.cl_valid.specs.Inner.Tables.{use_of, uses_of};

use crate::labels::Labels;
use crate::places::{at_spot, at_sub};
use cl_model::{
    Code, Key, List, ModelFault, Name, NameSet, Place, RunnableDef, TaskDef, add_new,
    refuse_unless, refuse_when,
};
use cl_time::NoMemory;
use std::alloc::Global;

/// Up to this many labels stay in a list and are compared pair by pair, which is faster than
/// putting them into a set.
const FEW_LABELS: usize = 8;

/// The labels that one runnable reads and writes.
#[derive(Drop)]
pub struct LabelUse<'a> {
    pub reads: Labels<'a>,
    pub writes: Labels<'a>,
}

/// What the runnables that have been checked so far read and write.
#[derive(Drop)]
pub struct LabelUses<'a> {
    /// The labels that they write, in order.
    pub written: NameSet,
    /// What each of them reads and writes, in order.
    pub each: List<LabelUse<'a>>,
}

fn check_label(
    known: &NameSet,
    code: Code,
    place: Place,
    k: usize,
    label: &Name,
) -> Result<(), ModelFault>
    requires { k < 2 ^ 32 }
    ensures { Answers result (label_check code place known.now k label.now) tt }
{
    refuse_unless(known.contains(label), code, at_spot(place, k))
}

fn check_writer(written: &NameSet, place: Place, k: usize, label: &Name) -> Result<(), ModelFault>
    requires { k < 2 ^ 32 }
    ensures { Answers result (writer_check place written.now k label.now) tt }
{
    refuse_when(written.contains(label), Code::M40, at_spot(place, k))
}

/// Checks that each label is known, and refuses the first unknown one with this code.
#[tactic(auto, using(cl_model::proofs::FirstRefusals::loop_faults))]
fn check_known(known: &NameSet, code: Code, place: Place, labels: &[Name]) -> Result<(), ModelFault>
    requires { length labels.now < 2 ^ 32 }
    ensures { Answers result (each (label_check code place known.now) labels.now) tt }
{
    for (k, label) in labels.iter().enumerate() {
        check_label(known, code, place, k, label)?;
    }
    Ok(())
}

/// Checks M39 for label `k` of a list: it isn't earlier in the list.
fn check_apart(place: Place, labels: &[Name], k: usize, label: &Name) -> Result<(), ModelFault>
    requires within { k < length labels.now }
    requires few { length labels.now < 2 ^ 32 }
    ensures { Answers result (repeat_check M39 (λ n. spot n place) [] labels.now k label.now) tt }
{
    let is_earlier = labels[..k].contains(label);
    refuse_when(is_earlier, Code::M39, at_spot(place, k))
}

/// Checks M39 for each label of a list, pair by pair.
#[tactic(auto, using(cl_model::proofs::FirstRefusals::loop_faults))]
fn check_few(place: Place, labels: &[Name]) -> Result<(), ModelFault>
    requires { length labels.now < 2 ^ 32 }
    ensures { Answers result (twice_check place labels.now) tt }
{
    for (k, label) in labels.iter().enumerate() {
        check_apart(place, labels, k, label)?;
    }
    Ok(())
}

/// Checks M39 for each label of a list by a set of those before it, and returns the set of all.
fn distinct_many(alloc: Global, place: Place, labels: &[Name]) -> Result<NameSet, ModelFault>
    requires { length labels.now < 2 ^ 32 }
    ensures { Answers result (twice_check place labels.now) labels.now }
{
    let mut set = NameSet::new(alloc);
    for (k, label) in labels.iter().enumerate() {
        add_new(&mut set, label, Code::M39, at_spot(place, k))?;
    }
    Ok(set)
}

/// Checks M39 for each label of a list, and returns the labels.
fn distinct<'a>(alloc: Global, place: Place, labels: &'a [Name]) -> Result<Labels<'a>, ModelFault>
    requires { length labels.now < 2 ^ 32 }
    ensures { Answers result (twice_check place labels.now) labels.now }
{
    if labels.len() <= FEW_LABELS {
        check_few(place, labels)?;
        Ok(Labels::few(alloc, labels))
    } else {
        let many = distinct_many(alloc, place, labels)?;
        Ok(Labels::many(many))
    }
}

/// Checks M40: no label of a list is written by an earlier runnable.
#[tactic(auto, using(cl_model::proofs::FirstRefusals::loop_faults))]
fn check_unwritten(written: &NameSet, place: Place, labels: &[Name]) -> Result<(), ModelFault>
    requires { length labels.now < 2 ^ 32 }
    ensures { Answers result (each (writer_check place written.now) labels.now) tt }
{
    for (k, label) in labels.iter().enumerate() {
        check_writer(written, place, k, label)?;
    }
    Ok(())
}

/// Adds labels, each of which must be new.
fn add_written(written: &mut NameSet, labels: &[Name]) -> Result<(), NoMemory>
    requires { AreNew written.old labels.now }
    ensures { OnOk result (written.new ≡ written.old ++ labels.now) }
{
    for label in labels {
        let _ = written.add(label)?;
    }
    Ok(())
}

fn check_times(place: Place, runnable: &RunnableDef) -> Result<(), ModelFault>
    ensures { Answers result (times_check place runnable.now) tt }
{
    let place = place.at_key(Key::Greatest);
    refuse_when(runnable.greatest < runnable.least, Code::M36, place)
}

fn check_reads(known: &NameSet, place: Place, runnable: &RunnableDef) -> Result<(), ModelFault>
    requires { IsRunnableInRange runnable.now }
    ensures { Answers result (reads_check known.now place runnable.now) tt }
{
    let place = place.at_key(Key::Reads);
    check_known(known, Code::M37, place, runnable.reads.as_slice())
}

fn check_writes(known: &NameSet, place: Place, runnable: &RunnableDef) -> Result<(), ModelFault>
    requires { IsRunnableInRange runnable.now }
    ensures { Answers result (writes_check known.now place runnable.now) tt }
{
    let place = place.at_key(Key::Writes);
    check_known(known, Code::M38, place, runnable.writes.as_slice())
}

fn distinct_reads<'a>(
    alloc: Global,
    place: Place,
    runnable: &'a RunnableDef,
) -> Result<Labels<'a>, ModelFault>
    requires { IsRunnableInRange runnable.now }
    ensures { Answers result
        (twice_check (at_key keys.Reads place) runnable.now.reads) runnable.now.reads }
{
    distinct(alloc, place.at_key(Key::Reads), runnable.reads.as_slice())
}

fn distinct_writes<'a>(
    alloc: Global,
    place: Place,
    runnable: &'a RunnableDef,
) -> Result<Labels<'a>, ModelFault>
    requires { IsRunnableInRange runnable.now }
    ensures { Answers result
        (twice_check (at_key keys.Writes place) runnable.now.writes) runnable.now.writes }
{
    distinct(alloc, place.at_key(Key::Writes), runnable.writes.as_slice())
}

fn check_contest(written: &NameSet, place: Place, runnable: &RunnableDef) -> Result<(), ModelFault>
    requires { IsRunnableInRange runnable.now }
    ensures { Answers result (contest_check written.now place runnable.now) tt }
{
    let place = place.at_key(Key::Writes);
    check_unwritten(written, place, runnable.writes.as_slice())
}

/// Checks M36 to M40 for the runnable at `place` and returns what it reads and writes.
#[tactic(auto, using(cl_model::proofs::FirstRefusals::faults), unfolding(cl_model::specs::ValidTasks::runnable_checks))]
fn checked_use<'a>(
    alloc: Global,
    known: &NameSet,
    written: &NameSet,
    place: Place,
    runnable: &'a RunnableDef,
) -> Result<LabelUse<'a>, ModelFault>
    requires { IsRunnableInRange runnable.now }
    ensures checked { Answers result
        (runnable_checks known.now written.now place runnable.now) (use_of runnable.now) }
    ensures new { OnOk result (AreNew written.now runnable.now.writes) }
{
    check_times(place, runnable)?;
    check_reads(known, place, runnable)?;
    check_writes(known, place, runnable)?;
    let reads = distinct_reads(alloc, place, runnable)?;
    let writes = distinct_writes(alloc, place, runnable)?;
    check_contest(written, place, runnable)?;
    Ok(LabelUse { reads, writes })
}

/// Checks M36 to M40 for each runnable of the task at `place` and adds what they read and write to
/// `uses`. `known` are the labels of the model. Fails with the first refusal, or with `NoMemory`
/// where memory runs out; then `uses` may have some of these runnables.
pub fn check_body<'a>(
    alloc: Global,
    known: &NameSet,
    uses: &mut LabelUses<'a>,
    place: Place,
    task: &'a TaskDef,
) -> Result<(), ModelFault>
    requires { IsTaskInRange task.now }
    ensures checked { Answers result (body_checks known.now uses.old.written place task.now) tt }
    ensures written { OnOk result
        (uses.new.written ≡ uses.old.written ++ labels_written task.now.runnables) }
    ensures each { OnOk result (uses.new.each ≡ uses.old.each ++ uses_of task.now.runnables) }
{
    let runnables = task.runnables.as_slice();
    for (p, runnable) in runnables.iter().enumerate() {
        let label_use = checked_use(alloc, known, &uses.written, at_sub(place, p), runnable)?;
        uses.each.push(label_use)?;
        add_written(&mut uses.written, runnable.writes.as_slice())?;
    }
    Ok(())
}

/// Checks M36 to M40 for each runnable of the task at `place`. `known` are the labels that exist,
/// and `written` those that other runnables write already. Fails with the first refusal, or with
/// `NoMemory` where memory runs out.
pub fn check_runnables(
    alloc: Global,
    known: &NameSet,
    written: NameSet,
    place: Place,
    task: &TaskDef,
) -> Result<(), ModelFault>
    requires { IsTaskInRange task.now }
    ensures { Answers result (body_checks known.now written place task.now) tt }
{
    let mut uses = LabelUses {
        written,
        each: List::new(alloc),
    };
    check_body(alloc, known, &mut uses, place, task)
}
