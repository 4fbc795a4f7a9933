//! The commands that `help` tells of.
ghost use Rattle.std.specs.Prelude.{◌≡◌};
ghost use Rattle.cl_help.specs.Topic.{topic_of};

/// A command that `help` tells of.
#[derive(Clone, Copy, PartialEq, Eq)]
pub enum Topic {
    Analyse,
    Tighten,
    Verify,
    Explain,
    Witness,
    Why,
    Check,
    Cut,
    Order,
    Headroom,
    Margin,
    Migrate,
    Edit,
    Apply,
    Simulate,
    Replay,
    Observe,
    Draw,
    Generate,
    Survey,
    Help,
    Version,
}

/// Returns the command of this verb, if it is one.
pub fn read_topic(verb: &str) -> Option<Topic>
    ensures { result ≡ topic_of verb.now }
{
    match verb {
        "analyse" => Some(Topic::Analyse),
        "tighten" => Some(Topic::Tighten),
        "verify" => Some(Topic::Verify),
        "explain" => Some(Topic::Explain),
        "witness" => Some(Topic::Witness),
        "why" => Some(Topic::Why),
        "check" => Some(Topic::Check),
        "cut" => Some(Topic::Cut),
        "order" => Some(Topic::Order),
        "headroom" => Some(Topic::Headroom),
        "margin" => Some(Topic::Margin),
        "migrate" => Some(Topic::Migrate),
        "edit" => Some(Topic::Edit),
        "apply" => Some(Topic::Apply),
        "simulate" => Some(Topic::Simulate),
        "replay" => Some(Topic::Replay),
        "observe" => Some(Topic::Observe),
        "draw" => Some(Topic::Draw),
        "generate" => Some(Topic::Generate),
        "survey" => Some(Topic::Survey),
        "help" => Some(Topic::Help),
        "version" => Some(Topic::Version),
        _ => None,
    }
}
