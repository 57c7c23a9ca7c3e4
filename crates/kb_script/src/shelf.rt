//! The effect of a script's line on a session and on the shelf: the list of the host's closures that
//! aren't registered.
ghost use Rattle.std.specs.Prelude.{◌≡◌, ◌<◌, false, true, map, option_map, position};
ghost use Rattle.std.specs.Prelude.{vec_len, vec_capacity, OnOk, OnErr, IfOk, IsSome, MatchOption};
ghost use Rattle.kb_handler_table.specs.Live.{same_native};
ghost use Rattle.kb_script.specs.ScriptRun.{AreRightlySaid, with_marks};
ghost use Rattle.kb_execute.specs.Start.{stops};
ghost use Rattle.kb_script.specs.ScriptLine.{said_by};
ghost use Rattle.kb_script.specs.Shelf.{FindsSaid, Halts, Obeys, beside, move, on_shelf, takes, tells};
ghost use Rattle.kb_script.specs.Shelf.{without_first};
ghost use Rattle.kb_session.specs.State.{dispose};
ghost use Rattle.kb_stream.specs.Fold.{after_all};

use crate::script::ScriptLine;
use kb_base::NoMemory;
use kb_core::Native;
use kb_registry::{HostCommand, Ticket};
use kb_session::{EventEnd, Session, SessionFault};
use kb_trace::Event;
use std::alloc::AllocError;

/// Applies a parsed line to session and shelf; `None` is a line that says nothing (`read_line`). Returns how
/// the command that it started ended, and what a press found. The contract's marks are those that the session
/// found. If memory is refused, the session is stopped, the trace is as it was, and the shelf still has all
/// its closures.
#[tactic(auto, using(crate::proofs::ShelfLemmas::halting, kb_session::proofs::Stopping::answers_quietly))]
pub fn obey<C: HostCommand>(
    said: Option<ScriptLine<'_>>,
    session: &mut Session<C>,
    shelf: &mut Vec<C>,
) -> Result<EventEnd, NoMemory>
    requires { session.old.state.stopped ≡ false }
    ensures ok { OnOk result (beside session.new (map C.stands_for shelf.new.items)
        ≡ after_all move
        (with_marks session.new.state.sources.user.unread (option_map said_by said.entry))
        (beside session.old (map C.stands_for shelf.old.items))) }
    ensures marked { IfOk result (λ ended. AreRightlySaid
        (with_marks session.new.state.sources.user.unread (option_map said_by said.entry))) }
    ensures stops { IfOk result (λ ended. session.new.state.stopped ≡ stops ended.finish) }
    ensures found { IfOk result (λ ended.
        FindsSaid (option_map said_by said.entry) session.old.state session.new.state ended.found) }
    ensures err { OnErr result (Halts (beside session.old (map C.stands_for shelf.old.items)).state
        (beside session.new (map C.stands_for shelf.new.items)).state) }
    ensures trace { OnErr result (session.new.trace ≡ session.old.trace) }
    ensures asked { OnErr result (IsSome (option_map said_by said.entry)) }
{
    match said {
        Some(ScriptLine::Key(key)) => match session.press(key) {
            Ok(ended) => Ok(ended),
            Err(_) => Err(AllocError),
        },
        Some(ScriptLine::Event(event)) => match session.handle_fully(event) {
            Ok(handled) => Ok(handled.ended),
            Err(_) => Err(AllocError),
        },
        Some(ScriptLine::Set(scope, key, value)) => {
            match session.set_context(scope, key, value) {
                Ok(_) => Ok(EventEnd::without_command()),
                Err(_) => Err(AllocError),
            }
        }
        Some(ScriptLine::Unset(scope, key)) => match session.unset_context(scope, key) {
            Ok(_) => Ok(EventEnd::without_command()),
            Err(_) => Err(AllocError),
        },
        Some(ScriptLine::Reload(text)) => match session.reload_user(text.as_bytes()) {
            Ok(_) => Ok(EventEnd::without_command()),
            Err(_) => Err(AllocError),
        },
        Some(ScriptLine::Update(id, json)) => {
            match session.update_extension(id, json.as_bytes()) {
                Ok(_) => Ok(EventEnd::without_command()),
                Err(_) => Err(AllocError),
            }
        }
        Some(ScriptLine::Rule(number, key, command, text)) => {
            match session.add_rule(number, key, command, text) {
                Ok(_) => Ok(EventEnd::without_command()),
                Err(_) => Err(AllocError),
            }
        }
        Some(ScriptLine::Register(native)) => {
            register_first(native, session, shelf)?;
            Ok(EventEnd::without_command())
        }
        Some(ScriptLine::Dispose(ticket)) => {
            give_back(ticket, session, shelf)?;
            Ok(EventEnd::without_command())
        }
        None => Ok(EventEnd::without_command()),
    }
}

/// Registers the first closure for a native command on the shelf. If that is refused, the closure goes
/// to the end of the shelf.
#[tactic(auto, using(crate::proofs::ShelfLemmas::halting, kb_session::proofs::Stopping::answers_quietly))]
fn register_first<C: HostCommand>(
    native: Native,
    session: &mut Session<C>,
    shelf: &mut Vec<C>,
) -> Result<(), NoMemory>
    requires { session.old.state.stopped ≡ false }
    ensures ok { OnOk result (Obeys (takes native) (beside session.old (map C.stands_for shelf.old.items))
        (beside session.new (map C.stands_for shelf.new.items))) }
    ensures running { OnOk result (session.new.state.stopped ≡ false) }
    ensures err { OnErr result (Halts (beside session.old (map C.stands_for shelf.old.items)).state
        (beside session.new (map C.stands_for shelf.new.items)).state) }
    ensures trace { OnErr result (session.new.trace ≡ session.old.trace) }
{
    let Some(command) = take_first(native, shelf) else {
        return match session.handle(Event::NoClosure) {
            Ok(_) => Ok(()),
            Err(_) => Err(AllocError),
        };
    };
    match session.register(command) {
        Ok(_) => Ok(()),
        Err((command, SessionFault::Refused(_))) => {
            shelf.push(command).unwrap();
            Ok(())
        }
        Err((command, SessionFault::NoMemory)) => {
            shelf.push(command).unwrap();
            Err(AllocError)
        }
        Err((_, SessionFault::Stopped)) => unreachable!(),
    }
}

/// Disposes of a ticket, and puts its closure at the end of the shelf.
#[tactic(auto, using(crate::proofs::ShelfLemmas::halting, kb_session::proofs::Stopping::answers_quietly))]
fn give_back<C: HostCommand>(
    ticket: Ticket,
    session: &mut Session<C>,
    shelf: &mut Vec<C>,
) -> Result<(), NoMemory>
    requires { session.old.state.stopped ≡ false }
    ensures ok { OnOk result (Obeys (tells (dispose ticket.0))
        (beside session.old (map C.stands_for shelf.old.items))
        (beside session.new (map C.stands_for shelf.new.items))) }
    ensures running { OnOk result (session.new.state.stopped ≡ false) }
    ensures err { OnErr result (Halts (beside session.old (map C.stands_for shelf.old.items)).state
        (beside session.new (map C.stands_for shelf.new.items)).state) }
    ensures trace { OnErr result (session.new.trace ≡ session.old.trace) }
{
    if shelf.reserve(1).is_err() {
        session.stop();
        return Err(AllocError);
    }
    match session.dispose(ticket) {
        Ok(command) => {
            shelf.push(command).unwrap();
            Ok(())
        }
        Err(SessionFault::Refused(_)) => Ok(()),
        Err(SessionFault::NoMemory) => Err(AllocError),
        Err(SessionFault::Stopped) => unreachable!(),
    }
}

/// Removes the first closure for a native command from the shelf, which then has capacity for one more.
fn take_first<C: HostCommand>(native: Native, shelf: &mut Vec<C>) -> Option<C>
    ensures taken { MatchOption result
        ((on_shelf native (map C.stands_for shelf.old.items) ≡ false) × (shelf.new ≡ shelf.old))
        (λ command. (C.stands_for command ≡ native)
        × (on_shelf native (map C.stands_for shelf.old.items) ≡ true)
        × (map C.stands_for shelf.new.items
        ≡ without_first native (map C.stands_for shelf.old.items))) }
    ensures room { IsSome result → vec_len shelf.new < vec_capacity shelf.new }
{
    match place_of(native, shelf.as_slice()) {
        Some(place) => Some(shelf.remove(place)),
        None => None,
    }
}

/// The index of the first closure for a native command, or `None`.
fn place_of<C: HostCommand>(native: Native, shelf: &[C]) -> Option<usize>
    ensures { result ≡ position (λ command. same_native native (C.stands_for command)) shelf.now }
{
    shelf.iter().position(|command| native == command.native())
}
