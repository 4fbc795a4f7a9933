//! The lines of each kind of stimulus. Times are in ticks.
ghost use Rattle.std.specs.Prelude.{◌≡◌, ◌++◌, OnOk};
ghost use Rattle.std.specs.List.{concat};
ghost use Rattle.cl_model.specs.{declared.stimulus.StimulusKind.TheVariants.{Periodic, Sporadic, Burst}, Name.IsName};
ghost use Rattle.cl_write.specs.Inner.Printed.{lines_of_kind};

use crate::lines::{put_name, put_number, put_unless_zero, put_word};
use cl_model::{Key, Name, StimulusKind};
use cl_text::Text;
use cl_time::NoMemory;

fn put_periodic(
    text: &mut Text,
    name: &Name,
    period: u64,
    offset: u64,
    jitter: u64,
) -> Result<(), NoMemory>
    ensures printed { OnOk result
        (text.new ≡ text.old ++ concat (lines_of_kind name.now (Periodic period offset jitter))) }
    ensures named { OnOk result (IsName name.now) }
{
    put_unless_zero(text, Key::Jitter, jitter)?;
    put_word(text, Key::Kind, b"periodic")?;
    put_name(text, Key::Name, name)?;
    put_unless_zero(text, Key::Offset, offset)?;
    put_number(text, Key::Period, period)?;
    Ok(())
}

fn put_sporadic(text: &mut Text, name: &Name, least: u64, greatest: u64) -> Result<(), NoMemory>
    ensures printed { OnOk result
        (text.new ≡ text.old ++ concat (lines_of_kind name.now (Sporadic least greatest))) }
    ensures named { OnOk result (IsName name.now) }
{
    put_number(text, Key::Greatest, greatest)?;
    put_word(text, Key::Kind, b"sporadic")?;
    put_number(text, Key::Least, least)?;
    put_name(text, Key::Name, name)?;
    Ok(())
}

fn put_burst(
    text: &mut Text,
    name: &Name,
    period: u64,
    offset: u64,
    count: u64,
    distance: u64,
) -> Result<(), NoMemory>
    ensures printed { OnOk result
        (text.new ≡ text.old ++ concat (lines_of_kind name.now (Burst period offset count distance))) }
    ensures named { OnOk result (IsName name.now) }
{
    put_number(text, Key::Count, count)?;
    put_number(text, Key::Distance, distance)?;
    put_word(text, Key::Kind, b"burst")?;
    put_name(text, Key::Name, name)?;
    put_unless_zero(text, Key::Offset, offset)?;
    put_number(text, Key::Period, period)?;
    Ok(())
}

/// Appends the lines of a stimulus of this name and kind.
pub(crate) fn put_kind(text: &mut Text, name: &Name, kind: StimulusKind) -> Result<(), NoMemory>
    ensures printed { OnOk result (text.new ≡ text.old ++ concat (lines_of_kind name.now kind)) }
    ensures named { OnOk result (IsName name.now) }
{
    match kind {
        StimulusKind::Periodic {
            period,
            offset,
            jitter,
        } => put_periodic(text, name, period, offset, jitter),
        StimulusKind::Sporadic { least, greatest } => put_sporadic(text, name, least, greatest),
        StimulusKind::Burst {
            period,
            offset,
            count,
            distance,
        } => put_burst(text, name, period, offset, count, distance),
    }
}
