//! What the files of a command hold, as it is given to the command.
ghost use Rattle.std.specs.Prelude.{◌≡◌, ℕ, IfOk, IfErr};
ghost use Rattle.cl_engine.specs.declared.files.Files.TheVariants as files;
ghost use Rattle.cl_engine.specs.Content.{Bytes, Model, ModelAnd, content_of, Fits};

use cl_model::ValidModel;

/// What the files of a command hold.
#[derive(Drop)]
pub enum Given {
    /// The command names no file.
    Nothing,
    /// The bytes of its one file, whatever they are, or of a first file that holds no valid model.
    Content(Vec<u8>),
    /// The valid model of its one file.
    Model(ValidModel),
    /// The valid model of its first file, and the bytes of its second.
    ModelAnd(ValidModel, Vec<u8>),
}

impl Given {
    /// Returns the bytes of the one file of a command that names `Files::Content`.
    #[tactic(auto, unfolding(crate::specs::Content::Fits))]
    pub fn bytes(self) -> Vec<u8>
        requires { Fits files.Content (content_of self) }
        ensures { content_of self ≡ Bytes result.items }
    {
        self.either().err().unwrap()
    }

    /// Returns the model of the one file of a command that names `Files::Model`.
    #[tactic(auto, unfolding(crate::specs::Content::Fits))]
    pub fn model(self) -> ValidModel
        requires { Fits files.Model (content_of self) }
        ensures { content_of self ≡ Model result }
    {
        match self {
            Given::Model(model) => model,
            _ => unreachable!(),
        }
    }

    /// Returns the model of the first file and the bytes of the second, for a command that names
    /// `Files::ModelAnd`.
    #[tactic(auto, unfolding(crate::specs::Content::Fits))]
    pub fn both(self) -> (ValidModel, Vec<u8>)
        requires { (limit : ℕ) × Fits (files.ModelAnd limit) (content_of self) }
        ensures { content_of self ≡ ModelAnd result.0 result.1.items }
    {
        self.either().ok().unwrap()
    }

    /// Returns the model of the first file and the bytes of the second, for a command that names
    /// `Files::ContentAnd`; or the bytes of the first as the error, where it holds no valid model.
    #[tactic(auto, unfolding(crate::specs::Content::Fits))]
    pub fn either(self) -> Result<(ValidModel, Vec<u8>), Vec<u8>>
        requires { (limit : ℕ) × Fits (files.ContentAnd limit) (content_of self) }
        ensures both { IfOk result (λ both. content_of self ≡ ModelAnd both.0 both.1.items) }
        ensures bytes { IfErr result (λ bytes. content_of self ≡ Bytes bytes.items) }
    {
        match self {
            Given::ModelAnd(model, text) => Ok((model, text)),
            Given::Content(bytes) => Err(bytes),
            _ => unreachable!(),
        }
    }
}
