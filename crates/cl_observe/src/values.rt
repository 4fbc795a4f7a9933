//! Numbers that some jobs have: the greatest response, and the least and the greatest of some.
ghost use Rattle.std.specs.Prelude.{◌≡◌, pos, ◌-ℤ◌};
ghost use Rattle.cl_observe.specs.Inner.Choices.{or_response, or_number};

/// The greatest response of some jobs, in ticks, and the least job that has it, counted from 0.
#[derive(Clone, Copy, PartialEq, Eq)]
pub(crate) struct GreatestResponse {
    pub(crate) response: i128,
    pub(crate) job: u64,
}

/// The least and the greatest of the numbers that some jobs have, in ticks.
#[derive(Clone, Copy, PartialEq, Eq)]
pub(crate) struct Spread {
    pub(crate) least: i128,
    pub(crate) greatest: i128,
}

/// Computes how long after its arrival something happens to a job.
pub(crate) fn since(arrival: u64, moment: u64) -> i128
    ensures { result ≡ pos moment -ℤ pos arrival }
{
    i128::from(moment) - i128::from(arrival)
}

/// Returns the greater of the greatest response of the jobs before one, if they have any, and that
/// of this job.
pub(crate) fn or_response(
    found: Option<GreatestResponse>,
    job: u64,
    response: i128,
) -> GreatestResponse
    ensures { result ≡ or_response found job response }
{
    match found {
        None => GreatestResponse { response, job },
        Some(greatest) => {
            if greatest.response < response {
                GreatestResponse { response, job }
            } else {
                greatest
            }
        }
    }
}

/// Returns the least and the greatest of some numbers, if there are any, and of one more.
pub(crate) fn or_number(found: Option<Spread>, number: i128) -> Spread
    ensures { result ≡ or_number found number }
{
    match found {
        None => Spread {
            least: number,
            greatest: number,
        },
        Some(spread) => {
            if number < spread.least {
                Spread {
                    least: number,
                    greatest: spread.greatest,
                }
            } else if spread.greatest < number {
                Spread {
                    least: spread.least,
                    greatest: number,
                }
            } else {
                spread
            }
        }
    }
}
