//! The text of the best orders of the priorities.
ghost use Rattle.std.specs.Prelude.{◌≡◌, ◌<◌, ◌++◌, length, OnOk, IfOk};
ghost use Rattle.cl_tune.specs.{declared.answer.OrderAnswer.TheVariants.Order, BestOrders.IsOrderAnswer};
ghost use Rattle.cl_designs.specs.Orders.{priority_line, core_name, none_line, order_lines, order_text, IsOrderTextOf};

use cl_model::ValidModel;
use cl_report::{put_name, put_task_name};
use cl_text::Text;
use cl_time::{NoMemory, Steps};
use cl_tune::{OrderAnswer, order};
use std::alloc::Global;
use std::sync::ledger::Ledger;

/// Makes the text of the best order of the priorities on every core: a title, and a line with the
/// name and the priority of each task in file order. On each core the priorities count from 1
/// upward, and a greater number is a higher priority. Where no order of some core passes, one line
/// stands in place of these, with the name of the first such core in file order.
///
/// `NoMemory` comes where there is no memory for the orders or for the text; it leaves nothing.
pub fn order_text<L: Ledger>(
    alloc: Global,
    model: &ValidModel,
    steps: &mut Steps<L>,
) -> Result<Text, NoMemory>
    ensures { IfOk result (IsOrderTextOf model.now) }
{
    let answer = order(alloc, model, steps)?;
    text_of(alloc, model, &answer)
}

/// Makes the text of an answer.
fn text_of(alloc: Global, model: &ValidModel, answer: &OrderAnswer) -> Result<Text, NoMemory>
    requires { IsOrderAnswer model.now answer.now }
    ensures { IfOk result (λ text. text ≡ order_text model.now answer.now) }
{
    let mut text = Text::new(alloc);
    text.put(b"chainlat order 1\n")?;
    put_answer(&mut text, model, answer)?;
    Ok(text)
}

/// Puts the lines of an answer.
fn put_answer(text: &mut Text, model: &ValidModel, answer: &OrderAnswer) -> Result<(), NoMemory>
    requires { IsOrderAnswer model.now answer.now }
    ensures { OnOk result (text.new ≡ text.old ++ order_lines model.now answer.now) }
{
    match answer {
        OrderAnswer::Order { priorities } => put_priorities(text, model, priorities.as_slice()),
        OrderAnswer::NoOrder { core } => put_none(text, model, *core),
    }
}

/// Puts the lines of all tasks.
fn put_priorities(text: &mut Text, model: &ValidModel, priorities: &[u64]) -> Result<(), NoMemory>
    requires { length priorities.now ≡ length model.now.tasks }
    ensures { OnOk result (text.new ≡ text.old ++ order_lines model.now (Order priorities.now)) }
{
    for task in 0..model.tasks() {
        put_priority(text, model, priorities, task)?;
    }
    Ok(())
}

/// Puts the line of a task.
fn put_priority(
    text: &mut Text,
    model: &ValidModel,
    priorities: &[u64],
    task: u32,
) -> Result<(), NoMemory>
    requires one_a_task { length priorities.now ≡ length model.now.tasks }
    requires within { task < length model.now.tasks }
    ensures { OnOk result (text.new ≡ text.old ++ priority_line model.now priorities.now task) }
{
    text.put(b"priority ")?;
    put_task_name(text, model, task)?;
    text.put(b" ")?;
    text.put_number(priorities[task as usize])?;
    text.put(b"\n")
}

/// Puts the name of a core.
fn put_core_name(text: &mut Text, model: &ValidModel, core: u32) -> Result<(), NoMemory>
    requires { core < length model.now.cores }
    ensures { OnOk result (text.new ≡ text.old ++ core_name model.now core) }
{
    put_name(text, &model.core(core).name)
}

/// Puts the line of a core of which no order passes.
fn put_none(text: &mut Text, model: &ValidModel, core: u32) -> Result<(), NoMemory>
    requires { core < length model.now.cores }
    ensures { OnOk result (text.new ≡ text.old ++ none_line model.now core) }
{
    text.put(b"none ")?;
    put_core_name(text, model, core)?;
    text.put(b"\n")
}
