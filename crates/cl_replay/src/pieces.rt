//! What a line of a replay says of a kind of length.
ghost use Rattle.std.specs.Prelude.{◌≡◌};
ghost use Rattle.cl_chain.specs.JobChains.{option_of, measured_of};
ghost use Rattle.cl_replay.specs.Replay.{longest_of_kind, count_of_kind};

use cl_chain::{JobChain, Measured};
use cl_model::LengthKind;

/// Returns the longest complete chain of a kind, if there is one.
pub(crate) fn longest_of_kind(kind: LengthKind, measured: &Measured) -> &Option<JobChain>
    ensures { option_of result.now ≡ longest_of_kind kind (measured_of measured.now) }
{
    match kind {
        LengthKind::Reaction => &measured.reaction,
        LengthKind::Age => &measured.age,
        LengthKind::Reduced => &measured.reduced,
    }
}

/// Returns the number of complete chains of a kind: of forward ones for the reaction, and of
/// backward ones for the age and the reduced age.
pub(crate) fn count_of_kind(kind: LengthKind, measured: &Measured) -> u64
    ensures { result ≡ count_of_kind kind (measured_of measured.now) }
{
    match kind {
        LengthKind::Reaction => measured.forward,
        LengthKind::Age | LengthKind::Reduced => measured.backward,
    }
}
