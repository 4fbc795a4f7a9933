//! The lines of requirements.
ghost use Rattle.std.specs.Prelude.{◌≡◌, ◌++◌, length, OnOk, OnErr};
ghost use Rattle.cl_text.specs.Beginnings.{PutsPart};
ghost use Rattle.cl_report.specs.Report.{verdict_value, verdict_word, verdict_words, verdict_line, requirement_lines};

use crate::words::{kind_word, put_name};
use cl_analyse::Verdict;
use cl_model::{List, RequirementDef, ValidModel};
use cl_text::Text;
use cl_time::NoMemory;

/// Puts the lines of all requirements in file order. There is one verdict for each requirement.
pub(crate) fn put_requirements(
    text: &mut Text,
    model: &ValidModel,
    verdicts: &List<Verdict>,
) -> Result<(), NoMemory>
    requires { length verdicts.now ≡ length model.now.requirements }
    ensures ok { OnOk result (text.new ≡ text.old ++ requirement_lines model.now verdicts.now) }
    ensures err { OnErr result
        (PutsPart text.old text.new (requirement_lines model.now verdicts.now)) }
{
    let requirements = model.plain().requirements.as_slice();
    for place in 0..requirements.len() {
        put_requirement(text, &requirements[place], &verdicts.as_slice()[place])?;
    }
    Ok(())
}

/// Puts the line of a requirement with this verdict.
fn put_requirement(
    text: &mut Text,
    requirement: &RequirementDef,
    verdict: &Verdict,
) -> Result<(), NoMemory>
    ensures ok { OnOk result (text.new ≡ text.old ++ verdict_line requirement.now verdict.now) }
    ensures err { OnErr result
        (PutsPart text.old text.new (verdict_line requirement.now verdict.now)) }
{
    text.put(b"requirement ")?;
    put_name(text, &requirement.name)?;
    text.put(b" ")?;
    text.put(kind_word(requirement.kind))?;
    text.put(b" ")?;
    put_verdict(text, requirement.most, verdict)?;
    text.put(b"\n")
}

/// Puts the verdict on a requirement that allows `most` ticks.
fn put_verdict(text: &mut Text, most: u64, verdict: &Verdict) -> Result<(), NoMemory>
    ensures ok { OnOk result (text.new ≡ text.old ++ verdict_words most verdict.now) }
    ensures err { OnErr result (PutsPart text.old text.new (verdict_words most verdict.now)) }
{
    put_value(text, verdict)?;
    text.put(b" of ")?;
    text.put_number(most)?;
    text.put(b" ")?;
    text.put(verdict_word(verdict))
}

/// Puts the value of a verdict, or `late` where it has none.
fn put_value(text: &mut Text, verdict: &Verdict) -> Result<(), NoMemory>
    ensures ok { OnOk result (text.new ≡ text.old ++ verdict_value verdict.now) }
    ensures err { OnErr result (PutsPart text.old text.new (verdict_value verdict.now)) }
{
    match verdict {
        Verdict::Met { value }
        | Verdict::Broken { value }
        | Verdict::Unshown { value: Some(value) } => text.put_number(*value),
        Verdict::Unshown { value: None } => text.put(b"late"),
    }
}

/// Returns the word for a verdict: `met`, `broken` or `unshown`.
fn verdict_word(verdict: &Verdict) -> &'static [u8]
    ensures { result.now ≡ verdict_word verdict.now }
{
    match verdict {
        Verdict::Met { .. } => b"met",
        Verdict::Broken { .. } => b"broken",
        Verdict::Unshown { .. } => b"unshown",
    }
}
