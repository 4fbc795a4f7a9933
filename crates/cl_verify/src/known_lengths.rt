//! The lengths of chains that runs have shown so far. Times are in ticks.
ghost use Rattle.std.specs.Prelude.{◌≡◌, ℕ, IfOk, IfSome};
ghost use Rattle.cl_model.specs.declared.model.SystemModel.{SystemModel};
ghost use Rattle.cl_runs.specs.Requirements.{HasLength};
ghost use Rattle.cl_verify.specs.KnownLengths.{known_of_kind, nothing_known, IsKnownOf, AreKnownLengths};

use cl_model::{LengthKind, List, RequirementKind, ValidModel};
use cl_time::NoMemory;
use std::alloc::Global;

/// What runs have shown of a chain, kind by kind: `None` where no run was asked for, and else the
/// length, if there is one.
#[derive(Clone, Copy, PartialEq, Eq)]
pub(crate) struct LengthsOfChain {
    reaction: Option<Option<u64>>,
    age: Option<Option<u64>>,
    reduced: Option<Option<u64>>,
    delay: Option<Option<u64>>,
}

impl LengthsOfChain {
    /// Starts with no kind asked for.
    fn new() -> LengthsOfChain
        ensures { result ≡ nothing_known }
    {
        LengthsOfChain {
            reaction: None,
            age: None,
            reduced: None,
            delay: None,
        }
    }

    /// Returns what is known of a kind.
    fn of_kind(&self, kind: RequirementKind) -> Option<Option<u64>>
        ensures { result ≡ known_of_kind kind self.now }
    {
        match kind {
            RequirementKind::Length(LengthKind::Reaction) => self.reaction,
            RequirementKind::Length(LengthKind::Age) => self.age,
            RequirementKind::Length(LengthKind::Reduced) => self.reduced,
            RequirementKind::Delay => self.delay,
        }
    }

    /// Returns what is known once a kind has been asked for.
    fn with(mut self, kind: RequirementKind, seen: Option<u64>) -> LengthsOfChain
        ensures { (model : SystemModel) (chain : ℕ) → IsKnownOf model chain self
            → IfSome seen (HasLength model chain kind) → IsKnownOf model chain result }
    {
        match kind {
            RequirementKind::Length(LengthKind::Reaction) => self.reaction = Some(seen),
            RequirementKind::Length(LengthKind::Age) => self.age = Some(seen),
            RequirementKind::Length(LengthKind::Reduced) => self.reduced = Some(seen),
            RequirementKind::Delay => self.delay = Some(seen),
        }
        self
    }
}

/// What runs have shown of the chains of a model, in file order.
#[derive(Drop)]
pub(crate) struct KnownLengths {
    pub(crate) of_chains: List<LengthsOfChain>,
}

impl KnownLengths {
    /// Starts with nothing asked for. `NoMemory` comes where there is no memory for it.
    pub(crate) fn new(alloc: Global, model: &ValidModel) -> Result<KnownLengths, NoMemory>
        ensures { IfOk result (AreKnownLengths model.now) }
    {
        let mut of_chains = List::with_room(alloc, model.chains() as usize)?;
        for _ in 0..model.chains() {
            of_chains.push(LengthsOfChain::new())?;
        }
        Ok(KnownLengths { of_chains })
    }

    /// Returns what is known of a chain and a kind: `None` where it wasn't asked for.
    pub(crate) fn get(&self, chain: u32, kind: RequirementKind) -> Option<Option<u64>>
        ensures { (model : SystemModel) → AreKnownLengths model self.now
            → IfSome result (λ seen. IfSome seen (HasLength model chain kind)) }
    {
        self.of_chains.at(chain as usize)?.of_kind(kind)
    }

    /// Keeps what runs have shown of a chain and a kind.
    pub(crate) fn keep(&mut self, chain: u32, kind: RequirementKind, seen: Option<u64>)
        ensures { (model : SystemModel) → AreKnownLengths model self.old
            → IfSome seen (HasLength model chain kind) → AreKnownLengths model self.new }
    {
        if (chain as usize) < self.of_chains.len() {
            let known = self.of_chains.as_slice()[chain as usize];
            *self.of_chains.item_mut(chain as usize) = known.with(kind, seen);
        }
    }
}
