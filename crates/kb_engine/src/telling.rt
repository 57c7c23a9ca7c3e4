//! An event or a line that is told to a session, with a note of what it took.
ghost use Rattle.std.specs.Prelude.{◌≡◌, false, option_map};
ghost use Rattle.kb_engine.specs.Running.{HaltsFrom, Tells, TellsLine, TellsSaid, cleared, next_number};
ghost use Rattle.kb_engine.specs.Taken.{Takes, TakesBy, TakesLine, TakesSaid, no_taken};
ghost use Rattle.kb_engine.specs.declared.outcome.Outcome.TheVariants.{NoMemory, Stopped};
ghost use Rattle.kb_script.specs.ScriptLine.{said_by};

use crate::outcome::Outcome;
use crate::running::Running;
use crate::taken::{Taken, completed, nothing_taken, prepared, prepared_line, taken_behind};
use kb_script::{ScriptLine, read_line};
use kb_trace::Event;
use std::alloc::Global;

/// Tells a session an event. Returns the outcome, and what the event took. The rule that a press takes is the
/// one that its search found. If memory is refused for the note, the session is stopped.
#[tactic(auto, using(crate::proofs::TellingLemmas::noted))]
pub(crate) fn tell_noted(alloc: Global, running: &mut Running, event: Event) -> (Outcome, Taken)
    ensures told { Tells event running.old result.0 running.new }
    ensures taken { TakesBy (Takes event running.old.session.state) result.0 result.1 }
{
    if running.session().is_stopped() {
        return stopped(alloc, running);
    }
    let Ok(before) = prepared(alloc, &event, running.session()) else {
        return halted(alloc, running);
    };
    let (outcome, found) = running.tell(event);
    match completed(alloc, found, before, running.session()) {
        Ok(taken) => (outcome, taken_behind(alloc, outcome, taken)),
        Err(_) => halted(alloc, running),
    }
}

/// Has a session do what a line of a script says, which is read once. Returns the outcome, and what the line
/// took.
#[tactic(auto, using(crate::proofs::TellingLemmas::lines))]
pub(crate) fn tell_line_noted(alloc: Global, running: &mut Running, line: &[u8]) -> (Outcome, Taken)
    ensures told { TellsLine line.now running.old result.0 running.new }
    ensures taken { TakesBy (TakesLine (next_number running.old.number) line.now running.old.session.state)
        result.0 result.1 }
{
    if running.session().is_stopped() {
        return stopped(alloc, running);
    }
    match read_line(alloc, running.next_number(), line) {
        Ok(said) => tell_said_noted(alloc, running, said),
        Err(_) => halted(alloc, running),
    }
}

/// Has a running session do what a line of a script says. Returns the outcome, and what the line took.
#[tactic(auto, using(crate::proofs::TellingLemmas::noted))]
fn tell_said_noted(
    alloc: Global,
    running: &mut Running,
    said: Option<ScriptLine<'_>>,
) -> (Outcome, Taken)
    requires { running.old.session.state.stopped ≡ false }
    ensures told { TellsSaid (option_map said_by said.entry) running.old result.0 running.new }
    ensures taken { TakesBy (TakesSaid (option_map said_by said.entry) running.old.session.state)
        result.0 result.1 }
{
    let Ok(before) = prepared_line(alloc, &said, running.session()) else {
        return halted(alloc, running);
    };
    let (outcome, found) = running.tell_said(said);
    match completed(alloc, found, before, running.session()) {
        Ok(taken) => (outcome, taken_behind(alloc, outcome, taken)),
        Err(_) => halted(alloc, running),
    }
}

/// A session that was stopped before does nothing, so memory is refused to a running one alone.
fn stopped(alloc: Global, running: &mut Running) -> (Outcome, Taken)
    ensures running { running.new ≡ cleared running.old }
    ensures outcome { result.0 ≡ Stopped }
    ensures taken { result.1 ≡ no_taken }
{
    running.clear();
    (Outcome::Stopped, nothing_taken(alloc))
}

/// Stops a session for which memory was refused. Nothing is taken.
fn halted(alloc: Global, running: &mut Running) -> (Outcome, Taken)
    ensures running { HaltsFrom running.old running.new }
    ensures outcome { result.0 ≡ NoMemory }
    ensures taken { result.1 ≡ no_taken }
{
    running.halt();
    (Outcome::NoMemory, nothing_taken(alloc))
}
