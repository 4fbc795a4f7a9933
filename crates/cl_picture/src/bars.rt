//! The bars of a list of items. Times are in ticks, and the sides of bars are lengths.
ghost use Rattle.std.specs.Prelude.{◌≡◌, None, IfOk};
ghost use Rattle.cl_picture.specs.{Window.IsPictureWindow, Bars.{counts, bar_of, joined_bar, bars_from}};

use crate::item::{Bar, End, Item};
use crate::window::Window;
use cl_model::List;
use cl_time::NoMemory;
use std::alloc::Global;

impl Window {
    /// Checks whether an item shares a tick with the window.
    pub fn counts(self, item: &Item) -> bool
        ensures { result ≡ counts self item.now }
    {
        self.from < item.to && item.from < self.to
    }
}

/// Returns the bar of a single item, which begins at the length `floor` or right of it.
fn bar_of(window: Window, floor: u64, item: Item) -> Bar
    requires { IsPictureWindow window }
    ensures { result ≡ bar_of window floor item }
{
    Bar {
        left: window.low(item.from).max(floor),
        right: window.high(item.to),
        kind: item.kind,
        first: item,
        last: None,
    }
}

/// Adds a further item to a bar.
fn joined(bar: Bar, item: Item) -> Bar
    ensures { result ≡ joined_bar bar item }
{
    Bar {
        kind: bar.kind.max(item.kind),
        last: Some(End {
            job: item.job,
            to: item.to,
        }),
        ..bar
    }
}

/// Builds the bars of items in order. An item that ends in the same unit as the item before it
/// joins the bar of that one. Any other item begins a bar, no further left than where the bar
/// before ends. It is meant for items each of which shares a tick with the window
/// (`Window::counts`).
///
/// `NoMemory` comes where there is no memory for the bars; it leaves nothing.
pub fn bars_of(alloc: Global, window: Window, items: &[Item]) -> Result<List<Bar>, NoMemory>
    requires { IsPictureWindow window }
    ensures { IfOk result (λ bars. bars ≡ bars_from window None items.now) }
{
    let mut bars = List::new(alloc);
    let mut before: Option<Bar> = None;
    for item in items {
        match before {
            None => before = Some(bar_of(window, 0, *item)),
            Some(bar) => {
                if window.high(item.to) == bar.right {
                    before = Some(joined(bar, *item));
                } else {
                    bars.push(bar)?;
                    before = Some(bar_of(window, bar.right, *item));
                }
            }
        }
    }
    if let Some(bar) = before {
        bars.push(bar)?;
    }
    Ok(bars)
}
