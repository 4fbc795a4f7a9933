//! A whole model, as a model file describes it.
ghost use Rattle.std.specs.Prelude.{◌≡◌, IfOk};

use crate::chain::{ChainDef, RequirementDef};
use crate::copying::TryCopy;
use crate::list::List;
use crate::name::Name;
use crate::stimulus::StimulusDef;
use crate::task::TaskDef;
use cl_time::NoMemory;
use std::alloc::Global;

/// A core. It runs at most one task in each tick.
#[derive(Debug, PartialEq, Eq, Drop)]
pub struct CoreDef {
    pub name: Name,
}

/// A label, which runnables read and write.
#[derive(Debug, PartialEq, Eq, Drop)]
pub struct LabelDef {
    pub name: Name,
}

/// A model. It need not be valid: its names may refer to nothing, and its numbers may be out of
/// range or contradict each other.
#[derive(Debug, PartialEq, Eq)]
pub struct SystemModel {
    pub cores: List<CoreDef>,
    pub stimuli: List<StimulusDef>,
    pub labels: List<LabelDef>,
    pub tasks: List<TaskDef>,
    pub chains: List<ChainDef>,
    pub requirements: List<RequirementDef>,
}

// Written out, so that a function that lets a model go calls this once.
impl Drop for SystemModel {
    fn drop(self) {
        let SystemModel {
            cores: _cores,
            stimuli: _stimuli,
            labels: _labels,
            tasks: _tasks,
            chains: _chains,
            requirements: _requirements,
        } = self;
    }
}

impl SystemModel {
    /// Copies the model, or fails with `NoMemory` where memory runs out.
    pub fn copy(&self, alloc: Global) -> Result<SystemModel, NoMemory>
        ensures { IfOk result (λ copy. copy ≡ self.now) }
    {
        Ok(SystemModel {
            cores: self.cores.try_copy(alloc)?,
            stimuli: self.stimuli.try_copy(alloc)?,
            labels: self.labels.try_copy(alloc)?,
            tasks: self.tasks.try_copy(alloc)?,
            chains: self.chains.try_copy(alloc)?,
            requirements: self.requirements.try_copy(alloc)?,
        })
    }
}

impl TryCopy for CoreDef {
    fn try_copy(&self, _alloc: Global) -> Result<CoreDef, NoMemory> {
        Ok(CoreDef {
            name: self.name.copy(),
        })
    }
}

impl TryCopy for LabelDef {
    fn try_copy(&self, _alloc: Global) -> Result<LabelDef, NoMemory> {
        Ok(LabelDef {
            name: self.name.copy(),
        })
    }
}
