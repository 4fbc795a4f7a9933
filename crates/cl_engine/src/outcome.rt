ghost use Rattle.std.specs.Prelude.{◌≡◌, ◌∷◌, [], ◌++◌, decimal, IfOk};
ghost use Rattle.cl_text.specs.Line.{line};
ghost use Rattle.cl_engine.specs.{declared.status.TheConstants.DONE, Outcome.{words_refused, read_fault, long_file, model_refused}};

use crate::status;
use cl_model::Refusal;
use cl_text::Text;
use cl_time::NoMemory;
use std::alloc::Global;

/// The outcome of a command: the status that it ends with, and the text that it writes.
#[derive(Drop)]
pub struct Outcome {
    pub status: u8,
    pub text: Text,
}

impl Outcome {
    /// Makes the outcome of a command that did what it says: status `DONE`, with this text.
    pub fn done(text: Text) -> Outcome
        ensures { result ≡ record { status = DONE; text = text } }
    {
        Outcome {
            status: status::DONE,
            text,
        }
    }

    /// Makes an outcome of this status whose text is these words on a line.
    fn of_line(alloc: Global, status: u8, words: &[u8]) -> Result<Outcome, NoMemory>
        ensures { IfOk result
            (λ outcome. outcome ≡ record { status = status; text = line words.now }) }
    {
        let mut text = Text::new(alloc);
        text.put(words)?;
        text.put(b"\n")?;
        Ok(Outcome { status, text })
    }

    /// Makes an outcome of this status whose text is these words on a line, with the number of a
    /// file behind them.
    fn of_file(alloc: Global, status: u8, words: &[u8], place: u64) -> Result<Outcome, NoMemory>
        ensures { IfOk result
            (λ outcome. outcome ≡ record { status = status; text = line (words.now ++ decimal place) }) }
    {
        let mut text = Text::new(alloc);
        text.put(words)?;
        text.put_number(place)?;
        text.put(b"\n")?;
        Ok(Outcome { status, text })
    }

    /// Makes the outcome of words that are no command.
    pub(crate) fn words_refused(alloc: Global) -> Result<Outcome, NoMemory>
        ensures { IfOk result (λ outcome. outcome ≡ words_refused) }
    {
        Outcome::of_line(alloc, status::WORDS_REFUSED, b"words refused")
    }

    /// Makes the outcome where the file that word `place` names couldn't be read.
    pub(crate) fn read_fault(alloc: Global, place: u64) -> Result<Outcome, NoMemory>
        ensures { IfOk result (λ outcome. outcome ≡ read_fault place) }
    {
        Outcome::of_file(alloc, status::READ_FAULT, b"read fault ", place)
    }

    /// Makes the outcome where the file that word `place` names is longer than its limit: status
    /// `LONG_FILE`, and a line with the place. `NoMemory` comes where there is no memory for it.
    pub fn long_file(alloc: Global, place: u64) -> Result<Outcome, NoMemory>
        ensures { IfOk result (λ outcome. outcome ≡ long_file place) }
    {
        Outcome::of_file(alloc, status::LONG_FILE, b"long file ", place)
    }

    /// Makes the outcome of a model that is refused: status `MODEL_REFUSED`, and a line with the
    /// refusal. `NoMemory` comes where there is no memory for the line.
    pub fn model_refused(alloc: Global, refusal: Refusal) -> Result<Outcome, NoMemory>
        ensures { IfOk result (λ outcome. outcome ≡ model_refused refusal) }
    {
        let words = format!(in alloc; "model refused {refusal}")?;
        Outcome::of_line(alloc, status::MODEL_REFUSED, words.as_bytes())
    }
}
