ghost use Rattle.std.specs.Prelude.{◌≡◌, ◌≤◌, IfOk};
ghost use Rattle.cl_picture.specs.declared.window.TheConstants.{MOST_WINDOW};
ghost use Rattle.cl_runs.specs.{SystemOf.system_of, Legal.IsLegal};
ghost use Rattle.cl_engine.specs.Content.{ModelAnd};
ghost use Rattle.cl_top.specs.{Command.AsksForFew, Commands.{IsOutcomeOf, Draw.{window_refused, IsDrawn}}};

use super::legal_run::{LegalRun, legal_run};
use crate::Command;
use cl_draw::draw;
use cl_engine::{Outcome, status};
use cl_model::ValidModel;
use cl_run_data::RunData;
use cl_text::Text;
use cl_time::NoMemory;
use std::alloc::Global;

/// Finds the outcome of `draw` for a valid model and the text of a trace, from one tick to another:
/// the picture of its run; or the first bad line of the text; or the first rule that its run
/// breaks; or the refusal of a window that doesn't lie within the run.
#[tactic(auto, unfolding(crate::specs::Commands::command_meaning, crate::specs::Command::AsksForFew), using(crate::proofs::OfTrace::legal_answer, crate::proofs::OfTrace::stop_follows, crate::proofs::OfTrace::is_legal))]
pub(super) fn drawn(
    alloc: Global,
    model: &ValidModel,
    text: &[u8],
    from: u64,
    to: u64,
) -> Result<Outcome, NoMemory>
    requires { AsksForFew (Command.Draw from to) }
    ensures { IfOk result (IsOutcomeOf (Command.Draw from to) (ModelAnd model.now text.now)) }
{
    match legal_run(alloc, model, text)? {
        LegalRun::Legal(run) => draw_legal(alloc, model, &run, from, to),
        LegalRun::Stopped(outcome) => Ok(outcome),
    }
}

/// Draws a legal run, or refuses a window that doesn't lie within it.
fn draw_legal(
    alloc: Global,
    model: &ValidModel,
    run: &RunData,
    from: u64,
    to: u64,
) -> Result<Outcome, NoMemory>
    requires legal { IsLegal (system_of model.now) run.now }
    requires limited { to ≤ MOST_WINDOW }
    ensures { IfOk result (IsDrawn from to model.now run.now) }
{
    let ticks = run.table().ticks;
    if from < to && to <= ticks {
        Ok(Outcome::done(draw(alloc, model, run, from, to)?))
    } else {
        refused(alloc, from, to, ticks)
    }
}

/// Makes the outcome of a window that doesn't lie within a run of `ticks` ticks.
fn refused(alloc: Global, from: u64, to: u64, ticks: u64) -> Result<Outcome, NoMemory>
    ensures { IfOk result (λ outcome. outcome ≡ window_refused from to ticks) }
{
    let mut text = Text::new(alloc);
    text.put(b"window refused ")?;
    text.put_number(from)?;
    text.put(b" ")?;
    text.put_number(to)?;
    text.put(b" of ")?;
    text.put_number(ticks)?;
    text.put(b"\n")?;
    Ok(Outcome {
        status: status::WINDOW_REFUSED,
        text,
    })
}
