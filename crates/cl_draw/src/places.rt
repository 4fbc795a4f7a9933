//! The heights of the heads and the rows of a picture. Heights are lengths from the top.
ghost use Rattle.std.specs.Prelude.{◌≡◌, ◌+◌, ◌*◌, ◌<◌, ◌≤◌, ◌^◌, length, map, All, IfOk};
ghost use Rattle.cl_draw.specs.{Places.{core_top, row_top, chain_top, bottom}, Inner.Heights.{ArePlaces, AreCoreTops, AreRowTops}};

use cl_model::{List, ValidModel};
use cl_time::NoMemory;
use std::alloc::Global;

/// The height at which the first head begins.
pub const FIRST_TOP: u64 = 380;

/// The length of a head from its top to its bottom.
pub const HEAD: u64 = 320;

/// The length of a row from its top to its bottom.
pub const ROW: u64 = 400;

/// The greatest height at which the head of a core or the row of a task begins, and at which the
/// rows of the last core end.
pub(crate) const MOST_HEIGHT: u64 = 1_000_000_000;

/// The heights at which heads and rows begin.
#[derive(Drop)]
pub(crate) struct Places {
    /// For each core in file order the beginning of its head, and behind these the end of the rows
    /// of the last core.
    pub(crate) cores: List<u64>,
    /// For each task in file order the beginning of its row.
    pub(crate) tasks: List<u64>,
}

/// Finds where the heads of the cores begin, and where the rows of the last core end.
fn core_tops(alloc: Global, model: &ValidModel) -> Result<List<u64>, NoMemory>
    ensures { IfOk result (AreCoreTops model.now) }
{
    let mut tops = List::new(alloc);
    let mut top = FIRST_TOP;
    for core in 0..model.cores() {
        tops.push(top)?;
        top += HEAD + ROW * model.tasks_of_core(core).len() as u64;
    }
    tops.push(top)?;
    Ok(tops)
}

/// Finds where the first row below each of these heads begins.
fn first_rows(alloc: Global, tops: &[u64]) -> Result<Vec<u64>, NoMemory>
    requires { All (λ top. top ≤ MOST_HEIGHT) tops.now }
    ensures { IfOk result (λ rows. rows.items ≡ map (λ top. top + HEAD) tops.now) }
{
    let mut rows = Vec::new(alloc);
    for top in tops {
        rows.push(*top + HEAD)?;
    }
    Ok(rows)
}

/// Finds where the rows of the tasks begin.
fn row_tops(alloc: Global, model: &ValidModel, tops: &[u64]) -> Result<List<u64>, NoMemory>
    requires { AreCoreTops model.now tops.now }
    ensures { IfOk result (AreRowTops model.now) }
{
    let mut next = first_rows(alloc, tops)?;
    let mut rows = List::new(alloc);
    for task in 0..model.tasks() {
        let core = model.core_of(task) as usize;
        let top = next[core];
        rows.push(top)?;
        next[core] = top + ROW;
    }
    Ok(rows)
}

/// Finds where all heads and rows begin.
pub(crate) fn places_of(alloc: Global, model: &ValidModel) -> Result<Places, NoMemory>
    ensures { IfOk result (ArePlaces model.now) }
{
    let cores = core_tops(alloc, model)?;
    let tasks = row_tops(alloc, model, cores.as_slice())?;
    Ok(Places { cores, tasks })
}

impl Places {
    /// Returns the height at which the row of a task begins.
    pub(crate) fn row(&self, model: &ValidModel, task: u32) -> u64
        requires places { ArePlaces model.now self.now }
        requires within { task < length model.now.tasks }
        ensures row { result ≡ row_top model.now task }
        ensures least { HEAD ≤ result }
        ensures most { result ≤ MOST_HEIGHT }
    {
        self.tasks.as_slice()[task as usize]
    }

    /// Returns the height at which the head of a core begins or, behind the last core, that of the
    /// chains.
    pub(crate) fn head(&self, model: &ValidModel, core: u32) -> u64
        requires places { ArePlaces model.now self.now }
        requires within { core ≤ length model.now.cores }
        ensures head { result ≡ core_top model.now core }
        ensures most { result ≤ MOST_HEIGHT }
    {
        self.cores.as_slice()[core as usize]
    }

    /// Returns the height at which the row of a chain begins.
    pub(crate) fn chain_row(&self, model: &ValidModel, chain: u32) -> u64
        requires { ArePlaces model.now self.now }
        ensures row { result ≡ chain_top model.now chain }
        ensures most { result ≤ 3 * 10 ^ 12 }
    {
        self.head(model, model.cores()) + HEAD + ROW * u64::from(chain)
    }

    /// Returns the height at which the rows end.
    pub(crate) fn bottom(&self, model: &ValidModel) -> u64
        requires { ArePlaces model.now self.now }
        ensures bottom { result ≡ bottom model.now }
        ensures most { result ≤ 3 * 10 ^ 12 }
    {
        if model.chains() == 0 {
            self.head(model, model.cores())
        } else {
            self.chain_row(model, model.chains())
        }
    }
}
