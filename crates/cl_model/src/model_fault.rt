//! Why there is no result for a model: the first refusal, or want of memory.
ghost use Rattle.std.specs.Prelude.{◌≡◌, ◌++◌, ◌∷◌, [], OnOk};
ghost use Rattle.cl_model.specs.{Answers.Answers, Named.has_name, Refusals.{when, unless}};

use crate::name::Name;
use crate::name_set::NameSet;
use crate::place::Place;
use crate::refusal::{Code, Refusal};
use cl_time::NoMemory;
use std::alloc::{AllocError, AllocFailed};

/// Why there is no result for a model or an edit of it.
#[derive(Clone, Copy, PartialEq, Eq)]
pub enum ModelFault {
    /// The model or the edit is refused: this is the first refusal.
    Refused(Refusal),
    /// Memory ran out.
    NoMemory,
}

impl From<NoMemory> for ModelFault {
    ghost use Rattle.std.specs.Prelude.{◌≡◌};
    ghost use Rattle.cl_model.specs.declared.model_fault.ModelFault.TheVariants.{NoMemory};

    ghost from_gives = { λ _ fault. fault ≡ NoMemory };

    fn from(_: NoMemory) -> ModelFault {
        ModelFault::NoMemory
    }
}

impl From<AllocError> for ModelFault {
    ghost use Rattle.std.specs.Prelude.{◌≡◌};
    ghost use Rattle.cl_model.specs.declared.model_fault.ModelFault.TheVariants.{NoMemory};

    ghost from_gives = { λ _ fault. fault ≡ NoMemory };

    fn from(_: AllocError) -> ModelFault {
        ModelFault::NoMemory
    }
}

impl<T: Drop> From<AllocFailed<T>> for ModelFault {
    ghost use Rattle.std.specs.Prelude.{◌≡◌};
    ghost use Rattle.cl_model.specs.declared.model_fault.ModelFault.TheVariants.{NoMemory};

    ghost from_gives = { λ _ fault. fault ≡ NoMemory };

    fn from(_: AllocFailed<T>) -> ModelFault {
        ModelFault::NoMemory
    }
}

impl ModelFault {
    /// Makes the fault of a refusal with this code at this place.
    pub fn refused(code: Code, place: Place) -> ModelFault
        ensures { result ≡ ModelFault.Refused (record { code = code; place = place }) }
    {
        ModelFault::Refused(Refusal { code, place })
    }
}

/// Refuses with this code at this place where the test passes.
pub fn refuse_when(test: bool, code: Code, place: Place) -> Result<(), ModelFault>
    ensures { Answers result (when test code place) tt }
{
    if test {
        return Err(ModelFault::refused(code, place));
    }
    Ok(())
}

/// Refuses with this code at this place unless the test passes.
pub fn refuse_unless(test: bool, code: Code, place: Place) -> Result<(), ModelFault>
    ensures { Answers result (unless test code place) tt }
{
    refuse_when(!test, code, place)
}

/// Adds a name after the others. A name that is there already is refused with this code at this
/// place. A refusal and `NoMemory` leave the names as they were.
pub fn add_new(names: &mut NameSet, name: &Name, code: Code, place: Place) -> Result<(), ModelFault>
    ensures checked { Answers result (when (has_name name.now names.old) code place) tt }
    ensures names { OnOk result (names.new ≡ names.old ++ name.now ∷ []) }
{
    let is_new = names.add(name)?;
    refuse_unless(is_new, code, place)
}
