//! The shares that tasks have in their cores.
ghost use Rattle.std.specs.Prelude.{◌≡◌, ◌<◌, ◌++◌, [], ◌∷◌, length, replicate, slice_set, slice_index_or, IfOk, OnOk, OnErr};

use cl_model::StimulusKind;
use cl_time::NoMemory;
use std::alloc::Global;
use std::marker::Model;

/// The share of a task in its core: its priority and the kind of its stimulus, where that is known.
#[derive(Clone, Copy)]
pub struct Share {
    pub priority: u64,
    pub kind: Option<StimulusKind>,
}

/// The shares of the tasks of one core, in file order.
#[derive(Drop)]
struct Shares {
    shares: Vec<Share>,
}

impl Model for Shares {
    ghost use Rattle.std.specs.Prelude.{List};
    ghost use Rattle.cl_valid.specs.declared.shares.Share.{Share};

    ghost Value = { List Share };

    ghost view = { λ shares. shares.shares.items };
}

/// The shares of the tasks of each core, by the core's number.
#[derive(Drop)]
pub struct SharesByCore {
    cores: Vec<Shares>,
}

impl Model for SharesByCore {
    ghost use Rattle.std.specs.Prelude.{List};
    ghost use Rattle.cl_valid.specs.declared.shares.Share.{Share};

    ghost Value = { List (List Share) };

    ghost view = { λ by_core. by_core.cores.items };
}

impl Shares {
    fn push(&mut self, share: Share) -> Result<(), NoMemory>
        ensures { OnOk result (self.new ≡ self.old ++ share ∷ []) }
    {
        self.shares.push(share)?;
        Ok(())
    }
}

impl SharesByCore {
    /// Makes `count` cores without shares. Fails with `NoMemory` where memory runs out.
    pub fn new(alloc: Global, count: usize) -> Result<SharesByCore, NoMemory>
        ensures { IfOk result (λ by_core. by_core ≡ replicate count []) }
    {
        let mut cores = Vec::new(alloc);
        for _ in 0..count {
            cores.push(Shares {
                shares: Vec::new(alloc),
            })?;
        }
        Ok(SharesByCore { cores })
    }

    /// Returns the shares of a core so far, in the order in which they were put.
    pub fn on(&self, core: usize) -> &[Share]
        requires { core < length self.now }
        ensures { result.now ≡ slice_index_or self.now core [] }
    {
        self.cores[core].shares.as_slice()
    }

    /// Appends a share to those of a core. `NoMemory` leaves the shares as they were.
    pub fn put(&mut self, core: usize, share: Share) -> Result<(), NoMemory>
        requires { core < length self.old }
        ensures { OnOk result
            (self.new ≡ slice_set self.old core (slice_index_or self.old core [] ++ share ∷ [])) }
    {
        self.cores[core].push(share)
    }
}
