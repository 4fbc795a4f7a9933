//! The window of a picture, and the lengths at which its ticks lie. A length is a tenth of a unit,
//! and a picture is 12,000 lengths wide.
ghost use Rattle.std.specs.Prelude.{◌≡◌, ◌≤◌};
ghost use Rattle.cl_picture.specs.Window.{offset, x_of, low_of, high_of, is_inside, IsPictureWindow};

/// The greatest tick of a window.
pub const MOST_WINDOW: u64 = 1_000_000_000;

/// The ticks that a picture shows: `from..to`.
#[derive(Clone, Copy, Debug, PartialEq, Eq)]
pub struct Window {
    pub from: u64,
    pub to: u64,
}

impl Window {
    /// Checks whether a moment lies in the window. Its end `to` lies in it, too.
    pub fn contains(self, tick: u64) -> bool
        ensures { result ≡ is_inside self tick }
    {
        self.from <= tick && tick <= self.to
    }

    /// Returns how many ticks a tick lies behind the beginning of the window: 0 for a tick before
    /// it, and those of the end for a tick after that.
    fn offset(self, tick: u64) -> u64
        requires { IsPictureWindow self }
        ensures { result ≡ offset self tick }
    {
        tick.max(self.from).min(self.to) - self.from
    }

    /// Returns the length at which a tick lies. A tick before the window lies at its beginning, and
    /// one after it at its end.
    pub fn x(self, tick: u64) -> u64
        requires { IsPictureWindow self }
        ensures x { result ≡ x_of self tick }
        ensures most { result ≤ 11600 }
    {
        2000 + self.offset(tick) * 9600 / (self.to - self.from)
    }

    /// Returns the last whole unit at or before a tick, as a length. A tick before the window lies
    /// at its beginning, and one after it at its end.
    pub fn low(self, tick: u64) -> u64
        requires { IsPictureWindow self }
        ensures { result ≡ low_of self tick }
    {
        2000 + 10 * (self.offset(tick) * 960 / (self.to - self.from))
    }

    /// Returns the first whole unit at or after a tick, as a length. A tick before the window lies
    /// at its beginning, and one after it at its end.
    pub fn high(self, tick: u64) -> u64
        requires { IsPictureWindow self }
        ensures { result ≡ high_of self tick }
    {
        let span = self.to - self.from;
        2000 + 10 * ((self.offset(tick) * 960 + (span - 1)) / span)
    }
}
