ghost use Rattle.std.specs.Prelude.{◌≡◌, IfSome, IfOk};
ghost use Rattle.cl_engine.specs.{Content.{content_of, Fits}, Language.{Language, IsSpelled, HasFileWords}, Outcome.MayEnd};

use crate::{Files, Given, Outcome};
use cl_io::Words;
use cl_time::{NoMemory, Steps};
use std::alloc::Global;
use std::sync::ledger::Ledger;

/// A command of a program, which words spell.
pub trait Command: Drop {
    /// Which words spell a command, which files it needs, what its outcome is, and how many steps
    /// it counts.
    ghost language: { Language Self };

    /// Reads the command that the words spell. `None` exactly where they spell none. Where they
    /// spell one, there is a word for each of its files behind the verb. Takes no memory.
    fn read(words: &Words) -> Option<Self>
        ensures spelled { result ≡ language.spelled words.now }
        ensures file_words { IfSome result (HasFileWords language words.now) };

    /// Returns the files that the command names behind its verb.
    fn files(&self) -> Files
        ensures { result ≡ language.files self.now };

    /// Finds the outcome of the command, by what its files hold. `NoMemory` is the only error.
    ///
    /// The status is `DONE` or one of a command's own (6 to 8, or 13 and greater); where the command
    /// is given `Given::Content` it may be `MODEL_REFUSED`, too. A command that names
    /// `Files::ContentAnd` may also come to the outcome of a second file that is too long, where it
    /// is given one of more than `FILE_LIMIT` bytes. Whether or not memory runs out, the steps that
    /// were counted are those that `language` allows.
    fn answer<L: Ledger>(
        self,
        alloc: Global,
        given: Given,
        steps: &mut Steps<L>,
    ) -> Result<Outcome, NoMemory>
        requires spelled { IsSpelled language self }
        requires fits { Fits (language.files self) (content_of given) }
        ensures outcome { IfOk result (language.comes_to self (content_of given)) }
        ensures status { IfOk result (MayEnd (content_of given) (language.files self)) }
        ensures steps { language.takes self (content_of given) steps.old steps.new };
}
