//! One hop of many job chains at once. Times are in ticks.
ghost use Rattle.std.specs.Prelude.{◌≡◌, ℕ, ◌<◌, ◌≤◌, length, slice_index};
ghost use Rattle.cl_exact.specs.Inner.{Beats.{IsBeat, read_at, first_reader, hop_to}, Blocks.{LATEST, AreRising, AreBefore, IsReadUpTo}};

use crate::beat::Beat;

/// Finds the first read at or after a moment, where `read` is the first at or after an earlier one
/// or the same.
#[inline(always)]
fn next_read(reader: &Beat, read: u64, moment: u64) -> u64
    requires beat { IsBeat reader.now }
    requires early { moment ≤ LATEST }
    requires read { IsReadUpTo reader.now read moment }
    ensures { result ≡ read_at reader.now (first_reader reader.now moment) }
{
    if moment <= read {
        read
    } else if moment <= read + reader.period {
        read + reader.period
    } else {
        reader.read(reader.first_reader(moment))
    }
}

/// Goes on from the writes of a group to those of the next: each moment becomes the write of the
/// reader's first job that reads at or after it. The moments never fall, so one walk along them is
/// enough, which divides only where a moment lies beyond the next read.
pub(crate) fn hop(moments: &mut [u64], reader: &Beat)
    requires beat { IsBeat reader.now }
    requires rising { AreRising moments.old }
    requires early { AreBefore moments.old LATEST }
    ensures { (i : ℕ) → i < length moments.old
        → slice_index moments.new i ≡ hop_to reader.now (slice_index moments.old i) }
{
    let mut read = reader.offset;
    for i in 0..moments.len() {
        read = next_read(reader, read, moments[i]);
        moments[i] = read + reader.deadline;
    }
}
