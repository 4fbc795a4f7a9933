//! Lists of the items that pass a test.
ghost use Rattle.std.specs.Prelude.{◌≡◌, ◌++◌, OnOk};
ghost use Rattle.std.specs.Option.{option_to_list};

use cl_model::List;
use cl_time::NoMemory;

/// Appends an item to a list, if there is one.
pub(crate) fn keep<T: Drop>(list: &mut List<T>, item: Option<T>) -> Result<(), NoMemory>
    ensures { OnOk result (list.new ≡ list.old ++ option_to_list item) }
{
    match item {
        Some(item) => list.push(item),
        None => Ok(()),
    }
}
