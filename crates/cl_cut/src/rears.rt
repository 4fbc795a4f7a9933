//! The best cuts of the rear parts of a chain, from its last group to its first. Times are in
//! ticks.
ghost use Rattle.std.specs.Prelude.{◌≡◌, ℕ, ◌+◌, ◌<◌, ◌≤◌, ◌∷◌, List, length, IfOk};
ghost use Rattle.cl_model.specs.declared.group.Group.{Group};
ghost use Rattle.cl_runs.specs.TaskTiming.{System};
ghost use Rattle.cl_cut.specs.{Cuts.IsBestCutFrom, Inner.Rears.{AreRears, AreValuesFrom, ArePositive, AreSome, CostSome, pieces_behind}};

use cl_model::List;
use cl_time::NoMemory;
use std::alloc::Global;

/// A cut of a rear part: its cost, and the first group of each piece.
#[derive(Drop)]
pub(crate) struct Rear {
    pub(crate) cost: u64,
    pub(crate) pieces: List<u32>,
}

/// The first piece of a cut of a rear part: how many groups it has after its first, and the cost of
/// the cut.
#[derive(Clone, Copy)]
struct Front {
    size: usize,
    cost: u64,
}

/// Finds the first piece of the best cut of a rear part, from the values of the pieces that begin
/// with its first group and the best cuts of the rear parts behind it. Among equal costs it takes
/// the piece with no piece behind it, or else the shortest one, so that the list of first groups is
/// the least.
fn best_front(values: &[u64], rears: &[Rear]) -> Front
    requires as_many { length values.now ≡ length rears.now + 1 }
    requires values { AreSome values.now }
    requires costs { CostSome rears.now }
    ensures within { result.size ≤ length rears.now }
    ensures some { 1 ≤ result.cost }
    ensures best { (system : System) (groups : List Group) (first : ℕ) → ArePositive system groups
        → AreValuesFrom system groups first values.now → AreRears system groups rears.now
        → IsBestCutFrom system groups first (pieces_behind rears.now first result.size) result.cost }
{
    let last = rears.len();
    let mut best = Front {
        size: last,
        cost: values[last],
    };
    for size in 0..last {
        // where the sum overflows, it isn't less than the best cost so far
        let cost = values[size].saturating_add(rears[last - 1 - size].cost - 1);
        if cost < best.cost {
            best = Front { size, cost };
        }
    }
    best
}

/// Lists a number and others after it.
fn joined(alloc: Global, first: u32, others: &[u32]) -> Result<List<u32>, NoMemory>
    ensures { IfOk result (λ list. list ≡ first ∷ others.now) }
{
    let mut list = List::new(alloc);
    list.push(first)?;
    for other in others {
        list.push(*other)?;
    }
    Ok(list)
}

/// Lists the first groups of the pieces of a cut of a rear part, from the size of its first piece.
fn pieces_behind(
    alloc: Global,
    first: u32,
    rears: &[Rear],
    size: usize,
) -> Result<List<u32>, NoMemory>
    ensures { IfOk result (λ pieces. pieces ≡ pieces_behind rears.now first size) }
{
    if size < rears.len() {
        joined(
            alloc,
            first,
            rears[rears.len() - 1 - size].pieces.as_slice(),
        )
    } else {
        joined(alloc, first, &[])
    }
}

/// Finds the best cut of the rear part that begins with group `first`. `values` are those of the
/// pieces that begin with this group, and `rears` the best cuts of all shorter rear parts, both
/// from the shortest on.
pub(crate) fn best_from(
    alloc: Global,
    first: u32,
    values: &[u64],
    rears: &[Rear],
) -> Result<Rear, NoMemory>
    requires as_many { length values.now ≡ length rears.now + 1 }
    requires values { AreSome values.now }
    requires costs { CostSome rears.now }
    ensures some { IfOk result (λ rear. 1 ≤ rear.cost) }
    ensures best { IfOk result
        (λ rear. (system : System) (groups : List Group) → ArePositive system groups
        → AreValuesFrom system groups first values.now → AreRears system groups rears.now
        → IsBestCutFrom system groups first rear.pieces rear.cost) }
{
    let front = best_front(values, rears);
    Ok(Rear {
        cost: front.cost,
        pieces: pieces_behind(alloc, first, rears, front.size)?,
    })
}
