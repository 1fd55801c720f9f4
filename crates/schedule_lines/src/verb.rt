//! The first words of lines and commands.
ghost use Rattle.std.specs.Prelude.{◌≡◌, IfSome, IfNone};
ghost use Rattle.schedule_lines.specs.declared.verb.Verb.{Verb as AnyVerb};
ghost use Rattle.schedule_lines.specs.declared.verb.CommandVerb.{CommandVerb as AnyCommandVerb};
ghost use Rattle.schedule_lines.specs.Inside.{verb_word, command_word};

/// What a line does.
#[derive(Clone, Copy)]
pub(crate) enum Verb {
    World,
    Do,
    Deliver,
    Lose,
    Tick,
    Stop,
    Start,
    Fail,
    Page,
    Version,
    Publish,
    Lag,
    Get,
    Scan,
    Drain,
    Try,
}

/// The verb that the word is.
pub(crate) fn verb_of(word: &[u8]) -> Option<Verb>
    ensures some { IfSome result (λ verb. word.now ≡ verb_word verb) }
    ensures none { IfNone result ((verb : AnyVerb) → word.now ≡ verb_word verb → ⊥) }
{
    match word {
        b"world" => Some(Verb::World),
        b"do" => Some(Verb::Do),
        b"deliver" => Some(Verb::Deliver),
        b"lose" => Some(Verb::Lose),
        b"tick" => Some(Verb::Tick),
        b"stop" => Some(Verb::Stop),
        b"start" => Some(Verb::Start),
        b"fail" => Some(Verb::Fail),
        b"page" => Some(Verb::Page),
        b"version" => Some(Verb::Version),
        b"publish" => Some(Verb::Publish),
        b"lag" => Some(Verb::Lag),
        b"get" => Some(Verb::Get),
        b"scan" => Some(Verb::Scan),
        b"drain" => Some(Verb::Drain),
        b"try" => Some(Verb::Try),
        _ => None,
    }
}

/// What a command of a session does.
#[derive(Clone, Copy)]
pub(crate) enum CommandVerb {
    Begin,
    Get,
    Put,
    Del,
    Commit,
    Abort,
    Recover,
}

/// The verb of a command that the word is.
pub(crate) fn command_verb_of(word: &[u8]) -> Option<CommandVerb>
    ensures some { IfSome result (λ verb. word.now ≡ command_word verb) }
    ensures none { IfNone result ((verb : AnyCommandVerb) → word.now ≡ command_word verb → ⊥) }
{
    match word {
        b"begin" => Some(CommandVerb::Begin),
        b"get" => Some(CommandVerb::Get),
        b"put" => Some(CommandVerb::Put),
        b"del" => Some(CommandVerb::Del),
        b"commit" => Some(CommandVerb::Commit),
        b"abort" => Some(CommandVerb::Abort),
        b"recover" => Some(CommandVerb::Recover),
        _ => None,
    }
}
