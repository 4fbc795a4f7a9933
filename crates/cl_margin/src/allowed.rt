//! What the requirements that are met now allow of the bounds of chains. Times are in ticks.
ghost use Rattle.std.specs.Prelude.{◌≡◌, ◌<◌, length, slice_set, IfOk};
ghost use Rattle.cl_model.specs.Validity.{IsValid};
ghost use Rattle.cl_runs.specs.Requirements.{required_chain};
ghost use Rattle.cl_analyse.specs.Verdicts.{is_met};
ghost use Rattle.cl_margin.specs.Inner.Allowing.{any_allowed, most_bounds, with_most, allows, allowed_at, AreAllowed};

use cl_analyse::Verdict;
use cl_hop::Bounds;
use cl_model::{LengthKind, List, RequirementDef, RequirementKind, ValidModel};
use cl_time::NoMemory;
use std::alloc::Global;

/// The most that each bound of a chain may be, so that each requirement on it is met that is met
/// now. `u64::MAX` stands where there is none.
#[derive(Clone, Copy)]
pub(crate) struct Allowed {
    reaction: u64,
    age: u64,
    reduced: u64,
    delay: u64,
}

impl Allowed {
    /// Allows any bounds.
    pub(crate) fn any() -> Allowed
        ensures { result ≡ any_allowed }
    {
        Allowed {
            reaction: u64::MAX,
            age: u64::MAX,
            reduced: u64::MAX,
            delay: u64::MAX,
        }
    }

    /// Checks whether any bounds are allowed.
    pub(crate) fn is_any(&self) -> bool
        ensures { result ≡ allows self.now most_bounds }
    {
        u64::MAX <= self.reaction
            && u64::MAX <= self.age
            && u64::MAX <= self.reduced
            && u64::MAX <= self.delay
    }

    /// Lets a bound be at most `most`.
    fn at_most(&mut self, kind: RequirementKind, most: u64)
        ensures { self.new ≡ with_most kind most self.old }
    {
        match kind {
            RequirementKind::Length(LengthKind::Reaction) => self.reaction = self
                .reaction
                .min(most),
            RequirementKind::Length(LengthKind::Age) => self.age = self.age.min(most),
            RequirementKind::Length(LengthKind::Reduced) => self.reduced = self.reduced.min(most),
            RequirementKind::Delay => self.delay = self.delay.min(most),
        }
    }

    /// Checks whether these bounds are allowed.
    pub(crate) fn allows(&self, bounds: &Bounds) -> bool
        ensures { result ≡ allows self.now bounds.now }
    {
        bounds.reaction() <= self.reaction
            && bounds.age() <= self.age
            && bounds.reduced() <= self.reduced
            && bounds.delay() <= self.delay
    }
}

/// Checks whether a requirement is met.
pub(crate) fn is_met(verdict: &Verdict) -> bool
    ensures { result ≡ is_met verdict.now }
{
    matches!(verdict, Verdict::Met { .. })
}

/// Lists for each chain what its requirements allow that are met now.
pub(crate) fn allowed_of(
    alloc: Global,
    model: &ValidModel,
    verdicts: &[Verdict],
) -> Result<List<Allowed>, NoMemory>
    requires one_a_requirement { length verdicts.now ≡ length model.now.requirements }
    ensures allowed { IfOk result (AreAllowed model.now verdicts.now) }
    ensures valid { IsValid model.now }
{
    let mut allowed = List::with_room(alloc, model.chains() as usize)?;
    for _ in 0..model.chains() {
        allowed.push(Allowed::any())?;
    }
    let requirements = model.plain().requirements.as_slice();
    for i in 0..requirements.len() {
        if is_met(&verdicts[i]) {
            let requirement = &requirements[i];
            let chain = chain_of(model, requirement);
            narrow(&mut allowed, chain, requirement.kind, requirement.most);
        }
    }
    Ok(allowed)
}

/// Lets a bound of a chain be at most `most`.
fn narrow(allowed: &mut List<Allowed>, chain: u32, kind: RequirementKind, most: u64)
    requires { chain < length allowed.old }
    ensures { allowed.new ≡ slice_set allowed.old chain (with_most kind most (allowed_at allowed.old chain)) }
{
    allowed.item_mut(chain as usize).at_most(kind, most);
}

/// Returns the number of the chain of a requirement.
pub(crate) fn chain_of(model: &ValidModel, requirement: &RequirementDef) -> u32
    ensures { result ≡ required_chain model.now requirement.now }
{
    model.chain_named(&requirement.chain).unwrap_or(0)
}
