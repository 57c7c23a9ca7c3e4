//! The result of an event.
ghost use Rattle.std.specs.Prelude.{◌≡◌, IfOk};
ghost use Rattle.kb_execute.specs.declared.start.Finish.TheVariants.{Done};
ghost use Rattle.kb_resolve.specs.declared.found.Found.TheVariants.{Nothing};
ghost use Rattle.kb_session.specs.Handled.{done_by, none_ended};

use kb_base::NoMemory;
use kb_execute::Finish;
use kb_resolve::Found;
use kb_trace::Answer;

/// How an event ended, beside its answer.
#[derive(Clone, Copy, Debug, PartialEq, Eq)]
pub struct EventEnd {
    /// How the command ended that the event started. An event that starts no command is `Done`. After
    /// `Trapped` the session is stopped.
    pub finish: Finish,
    /// What the search of a key press found, at its position among the rules in force, which a press doesn't
    /// change (`Resolver::at`). `Nothing` for any other event.
    pub found: Found,
}

impl EventEnd {
    /// The end of an event that starts no command. There is no error.
    pub fn without_command() -> EventEnd
        ensures { result ≡ none_ended }
    {
        EventEnd {
            finish: Finish::Done,
            found: Found::Nothing,
        }
    }
}

/// The answer to an event, and how it ended.
#[derive(Debug, Drop)]
pub struct Handled {
    /// The answer to the event.
    pub answer: Answer,
    /// How the event ended.
    pub ended: EventEnd,
}

/// The result of an event that starts no command.
pub(crate) fn started_nothing(answered: Result<Answer, NoMemory>) -> Result<Handled, NoMemory>
    ensures value { result ≡ done_by answered }
    ensures finish { IfOk result (λ handled. handled.ended.finish ≡ Done) }
    ensures found { IfOk result (λ handled. handled.ended.found ≡ Nothing) }
{
    match answered {
        Ok(answer) => Ok(Handled {
            answer,
            ended: EventEnd::without_command(),
        }),
        Err(refused) => Err(refused),
    }
}
