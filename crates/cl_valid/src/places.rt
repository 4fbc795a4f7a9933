//! Places by the numbers of entries, runnables and members.
ghost use Rattle.std.specs.Prelude.{◌≡◌, ◌<◌, ◌^◌};
ghost use Rattle.cl_model.specs.Place as place;

use cl_model::{Part, Place};

/// Returns the place of an entry of a section. Entries count from 0.
pub fn entry_of(section: Part, item: usize) -> Place
    requires { item < 2 ^ 32 }
    ensures { result ≡ place.entry_of section item }
{
    section.section_place().at_item(item as u32)
}

/// Returns the place of a runnable of the task at `task`.
pub(crate) fn at_sub(task: Place, sub: usize) -> Place
    requires { sub < 2 ^ 32 }
    ensures { result ≡ place.at_sub sub task }
{
    task.at_sub(sub as u32)
}

/// Returns the place of a member of the array at `array`. Members count from 0.
pub fn at_spot(array: Place, spot: usize) -> Place
    requires { spot < 2 ^ 32 }
    ensures { result ≡ place.at_spot spot array }
{
    array.at_spot(spot as u32)
}
