//! The way from the top of a document to a place.
use cl_model::{Part, Place};
use cl_time::NoMemory;
use std::alloc::Global;

/// A step from a table to the member at a key, or from an array to the item with a number.
#[derive(Clone, Copy)]
pub(crate) enum Step<'a> {
    Member(&'a str),
    Item(u32),
}

/// Appends the steps to a runnable of a task.
fn push_runnable(steps: &mut Vec<Step<'_>>, number: u32) -> Result<(), NoMemory> {
    steps.push(Step::Member("runnable"))?;
    steps.push(Step::Item(number))?;
    Ok(())
}

/// Returns the steps to a place, where `key` is the key that it is about.
///
/// Fails with `NoMemory` where there is no memory for them.
pub(crate) fn steps_to<'a>(
    alloc: Global,
    place: Place,
    key: Option<&'a str>,
) -> Result<Vec<Step<'a>>, NoMemory> {
    let mut steps = Vec::new(alloc);
    if place.part != Part::Top {
        steps.push(Step::Member(place.part.word()))?;
    }
    if let Some(number) = place.item {
        steps.push(Step::Item(number))?;
    }
    if let Some(number) = place.sub {
        push_runnable(&mut steps, number)?;
    }
    if let Some(key) = key {
        steps.push(Step::Member(key))?;
    }
    if let Some(number) = place.spot {
        steps.push(Step::Item(number))?;
    }
    Ok(steps)
}
