//! A session that is told one event, or one line of a script, at a time. Its trace is that of the last one.
ghost use Rattle.std.specs.Prelude.{◌≡◌, [], IfOk, IfErr, option_map};
ghost use Rattle.kb_core.specs.Native.{natives};
ghost use Rattle.kb_engine.specs.Engine.{before_caret, after_caret};
ghost use Rattle.kb_engine.specs.Running.{FindsBy, HaltsFrom, Tells, TellsSaid, cleared, next_number};
ghost use Rattle.kb_script.specs.ScriptLine.{said_by};
ghost use Rattle.kb_script.specs.Shelf.{FindsSaid};
ghost use Rattle.kb_session.specs.Inspect.{Finds};
ghost use Rattle.kb_session.specs.Session.{Seen};
ghost use Rattle.kb_stream.specs.Writing.{text_of_lines};

use crate::outcome::Outcome;
use crate::plain::{Cost, PlainCommand, commands};
use kb_base::NoMemory;
use kb_core::Core;
use kb_execute::Finish;
use kb_palette::Entry;
use kb_resolve::Found;
use kb_script::{ScriptLine, obey};
use kb_session::{Handled, Session, SessionFault};
use kb_trace::{Answer, Event};
use std::alloc::Global;
use std::marker::Model;

/// A session, the shelf of commands that aren't registered, and the number of the last line of a script.
/// Contracts see these three.
pub struct Running {
    session: Session<PlainCommand>,
    shelf: Vec<PlainCommand>,
    number: u64,
}

impl Model for Running {
    ghost use Rattle.std.specs.Coded.{codes};
    ghost use Rattle.std.specs.Prelude.{map};
    ghost use Rattle.kb_core.specs.contracts.core_state.Core as whole;
    ghost use Rattle.kb_files.specs.contracts.extension_file.Extension as extension;
    ghost use Rattle.kb_rules.specs.contracts.removal.Removal as removal;
    ghost use Rattle.kb_rules.specs.contracts.rule.Rule as rule;
    ghost use Rattle.kb_base.specs.contracts.note.EntryPattern as marks;
    ghost use Rattle.kb_base.specs.contracts.note.Warning as warning;
    ghost use Rattle.kb_engine.specs.Values.{RunningData};

    ghost Value = { RunningData };

    ghost coded = { Prim.hlevel (
      codes,
      whole.the_row.coded,
      extension.the_row.coded,
      rule.the_row.coded,
      removal.the_row.coded,
      warning.the_row.coded,
      marks.the_row.coded,
    ) };

    ghost view = { λ r. record {
      session = r.session;
      shelf = map (λ c. c.native) r.shelf.items;
      number = r.number;
    } };
}

impl Drop for Running {
    fn drop(self) {
        let Running {
            session,
            shelf,
            number: _,
        } = self;
        drop(shelf);
        drop(session.into_trace());
    }
}

impl Running {
    /// A session with a shelf of one command for each native command, at the cost of its whole budget.
    ///
    /// Error: `NoMemory`. The session is dropped then.
    pub fn new(alloc: Global, session: Session<PlainCommand>) -> Result<Running, NoMemory>
        ensures { IfOk result (λ made.
            made ≡ record { session = session; shelf = natives; number = 0 }) }
    {
        match commands(alloc, Cost::Budget) {
            Ok(shelf) => Ok(Running {
                session,
                shelf,
                number: 0,
            }),
            Err(refused) => {
                drop(session.into_trace());
                Err(refused)
            }
        }
    }

    /// The session.
    pub fn session(&self) -> &Session<PlainCommand>
        ensures { result.now ≡ self.now.session }
    {
        &self.session
    }

    /// Tells the session an event. Returns the outcome, and what the search of a key press found: `Nothing`
    /// for any other event, and if nothing was done. The outcomes are `Done`, `Refused`, `NotFound`,
    /// `BadArguments`, `Trapped`, `Stopped` and `NoMemory`. After `Refused` the trace is the line of the
    /// refusal, and all else stays. After `NoMemory` the session is stopped, and the trace is empty; from
    /// then on each event is `Stopped`, and nothing changes.
    #[tactic(auto, using(crate::proofs::RunningLemmas::telling))]
    pub fn tell(&mut self, event: Event) -> (Outcome, Found)
        ensures told { Tells event self.old result.0 self.new }
        ensures found { FindsBy (Finds event self.old.session.state self.new.session.state)
            result.0 result.1 }
    {
        self.session.truncate_trace(0);
        match self.session.handle_fully(event) {
            Ok(Handled { answer, ended }) => match answer {
                Answer::Refused(_) => (Outcome::Refused, ended.found),
                Answer::Did => match ended.finish {
                    Finish::Done => (Outcome::Done, ended.found),
                    Finish::NotFound => (Outcome::NotFound, ended.found),
                    Finish::BadArguments => (Outcome::BadArguments, ended.found),
                    Finish::Trapped => (Outcome::Trapped, ended.found),
                },
            },
            Err(SessionFault::Stopped) => (Outcome::Stopped, Found::Nothing),
            Err(SessionFault::NoMemory) => (Outcome::NoMemory, Found::Nothing),
            Err(SessionFault::Refused(_)) => unreachable!(),
        }
    }

    /// Empties the trace of the last event.
    pub fn clear(&mut self)
        ensures { self.new ≡ cleared self.old }
    {
        self.session.truncate_trace(0);
    }

    /// The number of the next line of a script.
    pub fn next_number(&self) -> u64
        ensures { result ≡ next_number self.now.number }
    {
        next_number(self.number)
    }

    /// Has the session and the shelf do what the next line of a script says. Returns what `tell` returns. The
    /// outcomes are `Done` (also if the event of the line is refused), `NotFound`, `BadArguments`, `Trapped`,
    /// `Stopped` and `NoMemory`. After `NoMemory` the shelf still has all its commands. No clause says that
    /// `NotFound` and `BadArguments` are right.
    #[tactic(auto, using(crate::proofs::RunningLemmas::telling))]
    pub fn tell_said(&mut self, said: Option<ScriptLine<'_>>) -> (Outcome, Found)
        ensures told { TellsSaid (option_map said_by said.entry) self.old result.0 self.new }
        ensures found { FindsBy (FindsSaid (option_map said_by said.entry) self.old.session.state
            self.new.session.state) result.0 result.1 }
    {
        self.session.truncate_trace(0);
        if self.session.is_stopped() {
            return (Outcome::Stopped, Found::Nothing);
        }
        self.number = self.next_number();
        match obey(said, &mut self.session, &mut self.shelf) {
            Ok(ended) => match ended.finish {
                Finish::Done => (Outcome::Done, ended.found),
                Finish::NotFound => (Outcome::NotFound, ended.found),
                Finish::BadArguments => (Outcome::BadArguments, ended.found),
                Finish::Trapped => (Outcome::Trapped, ended.found),
            },
            Err(_) => (Outcome::NoMemory, Found::Nothing),
        }
    }

    /// Stops the session, for a host that lacks memory for an event. Its trace is empty then.
    #[tactic(auto, using(crate::proofs::RunningLemmas::telling))]
    pub fn halt(&mut self)
        ensures { HaltsFrom self.old self.new }
    {
        self.session.truncate_trace(0);
        self.session.stop();
    }

    /// The text of the trace lines of the last event, each with a line feed behind it.
    pub fn trace_text(&self) -> &[u8]
        ensures { result.now ≡ text_of_lines self.now.session.trace }
    {
        self.session.trace().text_from(0)
    }

    /// The text around the caret, and the scopes with their context keys.
    pub fn core(&self) -> &Core
        ensures { result.now ≡ self.now.session.state.core }
    {
        self.session.core()
    }

    /// The entries of the last palette, in the order of their numbers from 1, until one of them is chosen.
    pub fn listed(&self) -> Option<&[Entry]>
        ensures { option_map (λ entries. entries.now) result ≡ self.now.session.state.listed }
    {
        self.session.listed()
    }
}

/// The number of the next line of a script, as far as 64 bits go.
fn next_number(number: u64) -> u64
    ensures { result ≡ next_number number }
{
    if number < u64::MAX {
        number + 1
    } else {
        number
    }
}
