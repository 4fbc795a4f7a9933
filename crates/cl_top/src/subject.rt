//! What is asked of: the response of a task, a bound of a chain, or a requirement.
ghost use Rattle.std.specs.Prelude.{◌≡◌};
ghost use Rattle.cl_model.specs.Named.{index_of};
ghost use Rattle.cl_top.specs.Subject.{what_of, names_asked};

use cl_model::{LengthKind, Name, RequirementKind, ValidModel};

/// What is asked of. A name says of which.
#[derive(Clone, Copy, PartialEq, Eq)]
pub enum What {
    /// `response`: a task.
    Response,
    /// `reaction`, `age`, `reduced` or `delay`: a chain, and one kind of its bounds.
    Bound(RequirementKind),
    /// `requirement`: a requirement.
    Requirement,
}

/// Reads what a word asks of, or `None` where it is no such word.
#[tactic(auto, unfolding(crate::specs::Subject::what_of))]
pub(crate) fn read_what(word: &str) -> Option<What>
    ensures { result ≡ what_of word.now }
{
    match word {
        "response" => Some(What::Response),
        "reaction" => Some(What::Bound(RequirementKind::Length(LengthKind::Reaction))),
        "age" => Some(What::Bound(RequirementKind::Length(LengthKind::Age))),
        "reduced" => Some(What::Bound(RequirementKind::Length(LengthKind::Reduced))),
        "delay" => Some(What::Bound(RequirementKind::Delay)),
        "requirement" => Some(What::Requirement),
        _ => None,
    }
}

/// Finds the number of the task, the chain or the requirement of a name, or `None` where there is
/// none.
pub(crate) fn number_of(model: &ValidModel, what: What, name: &Name) -> Option<usize>
    ensures { result ≡ index_of name.now (names_asked what model.now) }
{
    match what {
        What::Response => model.task_named(name).map(|task| task as usize),
        What::Bound(_) => model.chain_named(name).map(|chain| chain as usize),
        What::Requirement => model
            .requirement_named(name)
            .map(|requirement| requirement as usize),
    }
}
