//! Items that are written one after the other.
ghost use Rattle.std.specs.Prelude.{◌≡◌, ◌++◌, ℕ, List, All, OnOk, flat_map};

use cl_text::Text;
use cl_time::NoMemory;

/// An item that is written as one of several.
pub(crate) trait Written {
    /// That the names in the item are of the name grammar.
    ghost is_named: { Self → Type 0 };

    /// The text that is written of the item.
    ghost printed: { Self → List ℕ };

    /// Appends the text of the item.
    fn put(&self, text: &mut Text) -> Result<(), NoMemory>
        ensures printed { OnOk result (text.new ≡ text.old ++ printed self.now) }
        ensures named { OnOk result (is_named self.now) };
}

/// Appends the texts of items, in order.
pub(crate) fn put_all<T: Written>(text: &mut Text, items: &[T]) -> Result<(), NoMemory>
    ensures printed { OnOk result (text.new ≡ text.old ++ flat_map T.printed items.now) }
    ensures named { OnOk result (All T.is_named items.now) }
{
    for item in items {
        item.put(text)?;
    }
    Ok(())
}
