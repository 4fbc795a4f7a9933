//! The words that the lines of several texts share: names of a model, kinds of requirements, and
//! the jobs of a chain.
ghost use Rattle.std.specs.Prelude.{◌≡◌, ◌<◌, ◌++◌, length, OnOk, OnErr};
ghost use Rattle.cl_model.specs.{Kinds.requirement_word, ByNumber.{task_at, chain_at}, Groups.groups_at};
ghost use Rattle.cl_text.specs.Beginnings.{PutsPart};
ghost use Rattle.cl_report.specs.Report.{job_words, jobs_words};

use cl_model::{Name, RequirementKind, ValidModel};
use cl_text::Text;
use cl_time::NoMemory;

/// Appends a name to a text.
///
/// `NoMemory` comes where there is no memory for the longer text; it leaves the text as it was.
pub fn put_name(text: &mut Text, name: &Name) -> Result<(), NoMemory>
    ensures ok { OnOk result (text.new ≡ text.old ++ name.now) }
    ensures err { OnErr result (text.new ≡ text.old) }
{
    text.put(name.as_slice())
}

/// Appends the name of a task to a text.
///
/// `NoMemory` comes where there is no memory for the longer text; it leaves the text as it was.
pub fn put_task_name(text: &mut Text, model: &ValidModel, task: u32) -> Result<(), NoMemory>
    requires { task < length model.now.tasks }
    ensures ok { OnOk result (text.new ≡ text.old ++ (task_at model.now task).name) }
    ensures err { OnErr result (text.new ≡ text.old) }
{
    put_name(text, &model.task(task).name)
}

/// Appends the name of a chain to a text.
///
/// `NoMemory` comes where there is no memory for the longer text; it leaves the text as it was.
pub fn put_chain_name(text: &mut Text, model: &ValidModel, chain: u32) -> Result<(), NoMemory>
    requires { chain < length model.now.chains }
    ensures ok { OnOk result (text.new ≡ text.old ++ (chain_at model.now chain).name) }
    ensures err { OnErr result (text.new ≡ text.old) }
{
    put_name(text, &model.chain(chain).name)
}

/// Appends the job of the group at a place of a chain to a text, as ` TASK:JOB`. After `NoMemory`
/// the text ends with a prefix of the words.
fn put_job(
    text: &mut Text,
    model: &ValidModel,
    chain: u32,
    jobs: &[u64],
    place: u32,
) -> Result<(), NoMemory>
    requires within { chain < length model.now.chains }
    requires jobs { length jobs.now ≡ length (groups_at model.now chain) }
    requires place { place < length (groups_at model.now chain) }
    ensures ok { OnOk result (text.new ≡ text.old ++ job_words model.now chain jobs.now place) }
    ensures err { OnErr result
        (PutsPart text.old text.new (job_words model.now chain jobs.now place)) }
{
    text.put(b" ")?;
    put_task_name(text, model, model.group(chain, place).task)?;
    text.put(b":")?;
    text.put_number(jobs[place as usize])
}

/// Appends the jobs of a chain to a text, one for each group in order, each as ` TASK:JOB`.
///
/// `NoMemory` comes where there is no memory for the longer text. After `NoMemory` the text ends
/// with a prefix of the words.
pub fn put_jobs(
    text: &mut Text,
    model: &ValidModel,
    chain: u32,
    jobs: &[u64],
) -> Result<(), NoMemory>
    requires within { chain < length model.now.chains }
    requires jobs { length jobs.now ≡ length (groups_at model.now chain) }
    ensures ok { OnOk result (text.new ≡ text.old ++ jobs_words model.now chain jobs.now) }
    ensures err { OnErr result (PutsPart text.old text.new (jobs_words model.now chain jobs.now)) }
{
    for place in 0..model.group_count(chain) {
        put_job(text, model, chain, jobs, place)?;
    }
    Ok(())
}

/// Returns the word for a kind of requirement: `reaction`, `age`, `reduced` or `delay`.
pub fn kind_word(kind: RequirementKind) -> &'static [u8]
    ensures { result.now ≡ requirement_word kind }
{
    kind.word().as_bytes()
}
