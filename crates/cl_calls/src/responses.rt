//! Tests of responses to questions that are made by hand.
ghost use Rattle.std.specs.Prelude.{◌≡◌, ◌+◌, ◌*◌, ◌<◌, ◌≤◌, [], length, OnOk};
ghost use Rattle.cl_model.specs.Timing.{least_distance, greatest_jitter};
ghost use Rattle.cl_stim.specs.Stimulus.{IsStimulus};
ghost use Rattle.cl_resp.specs.Question.{IsQuestionInRange};

use cl_model::{List, MOST_TICKS, StimulusKind};
use cl_resp::{Above, Late, Question, respond};
use cl_stim::AnyStimulus;
use cl_time::{NoMemory, Steps};
use std::alloc::Global;
use std::marker::Brand;
use std::sync::ledger::{Blank, Ledger};
use std::test::Fail;

fn counted<L: Ledger>(blank: Blank, question: &Question) -> Option<(u64, u64)>
    requires name { blank.name ≡ L.name }
    requires parts { blank.parts ≡ L.parts }
    requires a_part { 0 < blank.parts }
    requires in_range { IsQuestionInRange question.now }
{
    let mut steps = Steps::<L>::open(blank);
    match respond(question, &mut steps) {
        Ok(settled) => Some((settled.window(), settled.response())),
        Err(Late) => None,
    }
}

// Finds the window and the response of a question. `None` where its task is late.
fn answer(question: &Question) -> Option<(u64, u64)>
    requires { IsQuestionInRange question.now }
{
    counted::<Brand>(Blank::new(1), question)
}

// Makes the question of a task with this execution time, jitter and deadline, and nothing above it.
fn alone(alloc: Global, time: u64, jitter: u64, deadline: u64) -> Question
    requires time { (1 ≤ time) × (time ≤ MOST_TICKS) }
    requires deadline { (jitter < deadline) × (deadline ≤ MOST_TICKS) }
    ensures { result ≡ record { time = time; block = 0; jitter = jitter; deadline = deadline; above = [] } }
{
    Question {
        time,
        block: 0,
        jitter,
        deadline,
        above: List::new(alloc),
    }
}

// Puts a task of higher priority, with this stimulus and execution time, above the task of a
// question.
fn put_above(question: &mut Question, kind: StimulusKind, time: u64) -> Result<(), NoMemory>
    requires question { IsQuestionInRange question.old }
    requires room { length question.old.above < 127 }
    requires kind { IsStimulus kind }
    requires distances { question.old.deadline + greatest_jitter kind
        ≤ 1000000 * least_distance kind }
    requires time { time ≤ MOST_TICKS }
    ensures in_range { OnOk result (IsQuestionInRange question.new) }
    ensures deadline { OnOk result (question.new.deadline ≡ question.old.deadline) }
    ensures one_more { OnOk result (length question.new.above ≡ length question.old.above + 1) }
{
    let stimulus = AnyStimulus::of(kind);
    question.above.push(Above { stimulus, time })
}

// Finds the window and the response of a task below one of that stimulus, whose execution time is
// `above`. `None` where it is late.
fn answer_below(
    alloc: Global,
    kind: StimulusKind,
    above: u64,
    time: u64,
    deadline: u64,
) -> Result<Option<(u64, u64)>, NoMemory>
    requires kind { IsStimulus kind }
    requires distances { deadline + greatest_jitter kind ≤ 1000 * least_distance kind }
    requires above { above ≤ 1000 }
    requires time { (1 ≤ time) × (time ≤ 1000) }
    requires deadline { (1 ≤ deadline) × (deadline ≤ 1000) }
{
    let mut question = alone(alloc, time, 0, deadline);
    put_above(&mut question, kind, above)?;
    Ok(answer(&question))
}

fn periodic(period: u64, jitter: u64) -> StimulusKind
    ensures { result ≡ StimulusKind.Periodic period 0 jitter }
{
    StimulusKind::Periodic {
        period,
        offset: 0,
        jitter,
    }
}

#[test]
fn settles_a_task_alone(rt: HostRuntime) {
    assert_eq!(rt; answer(&alone(rt.alloc(), 3, 2, 10)), Some((3, 5)));
    assert_eq!(rt; answer(&alone(rt.alloc(), 8, 2, 10)), Some((8, 10)));
    assert_eq!(rt; answer(&alone(rt.alloc(), 9, 2, 10)), None);
}

#[test]
fn settles_a_task_below_another(rt: HostRuntime) -> Result<(), Fail> {
    let alloc = rt.alloc();
    assert_eq!(rt;
        answer_below(alloc, periodic(10, 2), 3, 5, 20)?,
        Some((8, 8))
    );
    assert_eq!(rt;
        answer_below(alloc, periodic(10, 3), 3, 5, 20)?,
        Some((11, 11))
    );
    assert_eq!(rt; answer_below(alloc, periodic(4, 0), 3, 6, 20)?, None);
    assert_eq!(rt;
        answer_below(alloc, periodic(4, 0), 3, 6, 24)?,
        Some((24, 24))
    );
    let sporadic = StimulusKind::Sporadic {
        least: 5,
        greatest: 8,
    };
    assert_eq!(rt; answer_below(alloc, sporadic, 2, 4, 9)?, Some((8, 8)));
    Ok(())
}

// The window is reached in some hundred steps, over 127 tasks above.
#[test]
fn settles_a_task_below_a_crowd(rt: HostRuntime) -> Result<(), Fail> {
    let mut question = alone(rt.alloc(), 10_000_000_000, 0, 1_000_000_000_000);
    for _ in 0..127_u64 {
        put_above(&mut question, periodic(1_000_000, 0), 7_000)?;
    }
    assert_eq!(rt; answer(&question), Some((90_090_899_000, 90_090_899_000)));
    Ok(())
}
