//! The lines on the exact lengths of chains.
ghost use Rattle.std.specs.Prelude.{◌≡◌, ◌<◌, ◌++◌, length, slice_index, OnOk, OnErr};
ghost use Rattle.cl_model.specs.Groups.{groups_at};
ghost use Rattle.cl_runs.specs.SystemOf.{system_of};
ghost use Rattle.cl_exact.specs.ExactLengths.{AreExactLengths};
ghost use Rattle.cl_analyse.specs.{declared.findings.ExactAnswer.TheVariants.Exact, ChainAnswers.exact_answer_at, Findings.AreFindings};
ghost use Rattle.cl_text.specs.Beginnings.{PutsPart};
ghost use Rattle.cl_report.specs.Report.{job_words, jobs_words, witness_line, past_line, exact_lines};

use crate::words::{kind_word, put_chain_name, put_jobs};
use cl_analyse::{ExactAnswer, Findings};
use cl_exact::{ExactLengths, Witness};
use cl_model::{LengthKind, RequirementKind, ValidModel};
use cl_text::Text;
use cl_time::NoMemory;

/// Puts the lines on the exact lengths of a chain: three where they were found, one where its
/// hyperperiod exceeds the limit, and none otherwise.
pub(crate) fn put_exact(
    text: &mut Text,
    model: &ValidModel,
    findings: &Findings,
    chain: u32,
) -> Result<(), NoMemory>
    requires found { AreFindings model.now findings.now }
    requires within { chain < length model.now.chains }
    ensures ok { OnOk result
        (text.new ≡ text.old ++ exact_lines model.now chain (exact_answer_at findings.now.exacts chain)) }
    ensures err { OnErr result
        (PutsPart text.old text.new (exact_lines model.now chain (exact_answer_at findings.now.exacts chain))) }
{
    match &findings.exacts.as_slice()[chain as usize] {
        ExactAnswer::Exact(lengths) => put_witnesses(text, model, chain, lengths),
        ExactAnswer::Past { limit } => put_past(text, model, chain, *limit),
        ExactAnswer::NotTimed | ExactAnswer::ChainLate => Ok(()),
    }
}

/// Puts the lines of the three exact lengths of a chain.
fn put_witnesses(
    text: &mut Text,
    model: &ValidModel,
    chain: u32,
    lengths: &ExactLengths,
) -> Result<(), NoMemory>
    requires within { chain < length model.now.chains }
    requires lengths { AreExactLengths (system_of model.now) (groups_at model.now chain) lengths.now }
    ensures ok { OnOk result
        (text.new ≡ text.old ++ exact_lines model.now chain (Exact lengths.now)) }
    ensures err { OnErr result
        (PutsPart text.old text.new (exact_lines model.now chain (Exact lengths.now))) }
{
    put_witness(text, model, chain, LengthKind::Reaction, lengths.reaction())?;
    put_witness(text, model, chain, LengthKind::Age, lengths.age())?;
    put_witness(text, model, chain, LengthKind::Reduced, lengths.reduced())
}

/// Puts the line of an exact length of a chain, with the job chain that attains it.
fn put_witness(
    text: &mut Text,
    model: &ValidModel,
    chain: u32,
    kind: LengthKind,
    witness: &Witness,
) -> Result<(), NoMemory>
    requires within { chain < length model.now.chains }
    requires jobs { length witness.now.jobs ≡ length (groups_at model.now chain) }
    ensures ok { OnOk result
        (text.new ≡ text.old ++ witness_line model.now chain kind witness.now) }
    ensures err { OnErr result
        (PutsPart text.old text.new (witness_line model.now chain kind witness.now)) }
{
    text.put(b"exact ")?;
    put_chain_name(text, model, chain)?;
    text.put(b" ")?;
    text.put(kind_word(RequirementKind::Length(kind)))?;
    text.put(b" ")?;
    text.put_number(witness.length)?;
    text.put(b" from ")?;
    text.put_number(witness.from)?;
    text.put(b" to ")?;
    text.put_number(witness.to)?;
    text.put(b" jobs")?;
    put_jobs(text, model, chain, witness.jobs.as_slice())?;
    text.put(b"\n")
}

/// Puts the line of a chain whose hyperperiod exceeds a limit.
fn put_past(text: &mut Text, model: &ValidModel, chain: u32, limit: u64) -> Result<(), NoMemory>
    requires { chain < length model.now.chains }
    ensures ok { OnOk result (text.new ≡ text.old ++ past_line model.now chain limit) }
    ensures err { OnErr result (PutsPart text.old text.new (past_line model.now chain limit)) }
{
    text.put(b"exact ")?;
    put_chain_name(text, model, chain)?;
    text.put(b" past ")?;
    text.put_number(limit)?;
    text.put(b"\n")
}
