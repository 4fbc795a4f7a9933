//! The lines of a replay.
ghost use Rattle.std.specs.Prelude.{◌≡◌, ℕ, Some, ◌<◌, ◌≤◌, ◌++◌, length, map, OnOk};
ghost use Rattle.std.specs.List.{flat_map, range_with_len};
ghost use Rattle.cl_model.specs.Groups.{groups_at};
ghost use Rattle.cl_analyse.specs.Findings.{AreFindings};
ghost use Rattle.cl_chain.specs.JobChains.{job_chain_of, option_of, measured_of};
ghost use Rattle.cl_replay.specs.{Margins.{HasMargin, LongestHasMargin, ChainHasMargins, HaveMargins}, Replay.{bound_words, margin_words, longest_words, found_words, kind_line, measured_lines, measured_chain_lines}};

use crate::pieces::{count_of_kind, longest_of_kind};
use cl_analyse::{ChainAnswer, Findings};
use cl_chain::{JobChain, Measured};
use cl_model::{LengthKind, RequirementKind, ValidModel};
use cl_report::{kind_word, put_chain_name, put_jobs};
use cl_text::Text;
use cl_time::NoMemory;

/// Puts the lines of all chains in file order.
pub(crate) fn put_chains(
    text: &mut Text,
    model: &ValidModel,
    findings: &Findings,
    measured: &[Measured],
) -> Result<(), NoMemory>
    requires found { AreFindings model.now findings.now }
    requires one_a_chain { length measured.now ≡ length model.now.chains }
    requires margins { HaveMargins model.now findings.now (map measured_of measured.now) }
    ensures { OnOk result (text.new ≡ text.old
        ++ flat_map (measured_chain_lines model.now findings.now (map measured_of measured.now)) (range_with_len 0 (length model.now.chains))) }
{
    for chain in 0..model.chains() {
        let answer = &findings.chains.as_slice()[chain as usize];
        put_chain(text, model, chain, answer, &measured[chain as usize])?;
    }
    Ok(())
}

/// Puts the three lines of a chain, one for each kind of length.
fn put_chain(
    text: &mut Text,
    model: &ValidModel,
    chain: u32,
    answer: &ChainAnswer,
    measured: &Measured,
) -> Result<(), NoMemory>
    requires within { chain < length model.now.chains }
    requires margins { ChainHasMargins (groups_at model.now chain) answer.now (measured_of measured.now) }
    ensures { OnOk result
        (text.new ≡ text.old ++ measured_lines model.now chain answer.now (measured_of measured.now)) }
{
    put_kind(text, model, chain, LengthKind::Reaction, answer, measured)?;
    put_kind(text, model, chain, LengthKind::Age, answer, measured)?;
    put_kind(text, model, chain, LengthKind::Reduced, answer, measured)
}

/// Puts the line of a chain for one kind of length.
fn put_kind(
    text: &mut Text,
    model: &ValidModel,
    chain: u32,
    kind: LengthKind,
    answer: &ChainAnswer,
    measured: &Measured,
) -> Result<(), NoMemory>
    requires within { chain < length model.now.chains }
    requires margins { ChainHasMargins (groups_at model.now chain) answer.now (measured_of measured.now) }
    ensures { OnOk result
        (text.new ≡ text.old ++ kind_line model.now chain answer.now (measured_of measured.now) kind) }
{
    let count = count_of_kind(kind, measured);
    let longest = longest_of_kind(kind, measured);
    text.put(b"measured ")?;
    put_chain_name(text, model, chain)?;
    text.put(b" ")?;
    text.put(kind_word(RequirementKind::Length(kind)))?;
    put_found(text, model, chain, count, answer.value(kind), longest)?;
    text.put(b"\n")
}

/// Puts what a line says of the longest complete chain of a kind, or that there is none, and the
/// bound.
fn put_found(
    text: &mut Text,
    model: &ValidModel,
    chain: u32,
    count: u64,
    bound: Option<u64>,
    longest: &Option<JobChain>,
) -> Result<(), NoMemory>
    requires within { chain < length model.now.chains }
    requires margin { LongestHasMargin (groups_at model.now chain) bound (option_of longest.now) }
    ensures { OnOk result
        (text.new ≡ text.old ++ found_words model.now chain count bound (option_of longest.now)) }
{
    match longest {
        Some(longest) => put_longest(text, model, chain, count, bound, longest),
        None => {
            text.put(b" none")?;
            put_bound(text, bound)
        }
    }
}

/// Puts what a line says of the longest complete chain of a kind: its length, its ends, its jobs,
/// how many complete chains there are, the bound and the margin.
fn put_longest(
    text: &mut Text,
    model: &ValidModel,
    chain: u32,
    count: u64,
    bound: Option<u64>,
    longest: &JobChain,
) -> Result<(), NoMemory>
    requires within { chain < length model.now.chains }
    requires margin { HasMargin (groups_at model.now chain) bound (job_chain_of longest.now) }
    ensures { OnOk result
        (text.new ≡ text.old ++ longest_words model.now chain count bound (job_chain_of longest.now)) }
{
    let length = longest.to - longest.from;
    text.put(b" ")?;
    text.put_number(length)?;
    text.put(b" from ")?;
    text.put_number(longest.from)?;
    text.put(b" to ")?;
    text.put_number(longest.to)?;
    text.put(b" jobs")?;
    put_jobs(text, model, chain, longest.jobs.as_slice())?;
    text.put(b" count ")?;
    text.put_number(count)?;
    put_margin(text, bound, length)
}

/// Puts a bound and the margin that a length leaves to it, or that the chain is late and has no
/// bound.
fn put_margin(text: &mut Text, bound: Option<u64>, length: u64) -> Result<(), NoMemory>
    requires { (most : ℕ) → bound ≡ Some most → length ≤ most }
    ensures { OnOk result (text.new ≡ text.old ++ margin_words bound length) }
{
    put_bound(text, bound)?;
    match bound {
        Some(bound) => {
            text.put(b" margin ")?;
            text.put_number(bound - length)
        }
        None => Ok(()),
    }
}

/// Puts a bound, or that the chain is late and has none.
fn put_bound(text: &mut Text, bound: Option<u64>) -> Result<(), NoMemory>
    ensures { OnOk result (text.new ≡ text.old ++ bound_words bound) }
{
    match bound {
        Some(bound) => {
            text.put(b" bound ")?;
            text.put_number(bound)
        }
        None => text.put(b" late"),
    }
}
