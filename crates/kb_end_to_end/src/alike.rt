//! Sessions that differ only in their closures: they answer alike, and their traces are alike.
ghost use Rattle.std.specs.Prelude.{◌≡◌};
ghost use Rattle.kb_end_to_end.specs.Alike.{OneBegins, LoadsAlike, RawLoadsAlike, ScriptsAlike, unread_rules};
ghost use Rattle.kb_end_to_end.specs.Alike.{WithMemory, numbered, with_native};

use kb_context::ContextValue;
use kb_registry::{HostCommand, Ticket};
use kb_session::{Session, SessionFault};
use kb_trace::{Answer, Event};

/// Handles an event in two sessions with equal states and traces. They answer the same, and their states and
/// traces are equal again, for any closures, unless one of them is refused memory.
///
/// Errors: the first result is that of `first`, the second that of `second`; see `Session::handle`.
#[tactic(auto, using(crate::proofs::AlikeLemmas::answers_alike))]
pub fn handle_alike<C: HostCommand, D: HostCommand>(
    first: &mut Session<C>,
    second: &mut Session<D>,
    event: Event,
    same: Event,
) -> (Result<Answer, SessionFault>, Result<Answer, SessionFault>)
    requires alike { first.old ≡ second.old }
    requires same { same ≡ event }
    ensures answers { WithMemory result.0 result.1 (result.0 ≡ result.1) }
    ensures sessions { WithMemory result.0 result.1 (first.new ≡ second.new) }
{
    (first.handle(event), second.handle(same))
}

/// Runs the same events in two sessions with equal states and traces. They end alike, and their states and
/// traces are equal again, for any closures, unless one of them is refused memory. In any case one of the
/// traces is the beginning of the other.
///
/// Errors: the first result is that of `first`, the second that of `second`; see `Session::run`.
#[tactic(auto, using(crate::proofs::AlikeLemmas::runs))]
pub fn run_alike<C: HostCommand, D: HostCommand>(
    first: &mut Session<C>,
    second: &mut Session<D>,
    events: Vec<Event>,
    same: Vec<Event>,
) -> (Result<(), SessionFault>, Result<(), SessionFault>)
    requires alike { first.old ≡ second.old }
    requires same { same.items ≡ events.items }
    ensures ends { WithMemory result.0 result.1 (result.0 ≡ result.1) }
    ensures sessions { WithMemory result.0 result.1 (first.new ≡ second.new) }
    ensures traces { OneBegins first.new.trace second.new.trace }
{
    (first.run(events), second.run(same))
}

/// Registers closures for the same native command in two sessions with equal states and traces. They get
/// equal tickets or refusals, and their states and traces are equal again, unless one of them is refused
/// memory.
///
/// Errors: the first result is that of `first`, the second that of `second`; see `Session::register`.
#[tactic(auto, using(crate::proofs::AlikeLemmas::tickets_alike))]
pub fn register_alike<C: HostCommand, D: HostCommand>(
    first: &mut Session<C>,
    second: &mut Session<D>,
    command: C,
    same: D,
) -> (
    Result<Ticket, (C, SessionFault)>,
    Result<Ticket, (D, SessionFault)>,
)
    requires alike { first.old ≡ second.old }
    requires same { D.stands_for same ≡ C.stands_for command }
    ensures tickets { WithMemory (numbered result.0) (numbered result.1)
        (numbered result.0 ≡ numbered result.1) }
    ensures sessions { WithMemory (numbered result.0) (numbered result.1)
        (first.new ≡ second.new) }
{
    (first.register(command), second.register(same))
}

/// Ends the registrations with the same ticket in two sessions with equal states and traces. The closures
/// that come back are for the same native command, or the refusals are equal; and the states and traces are
/// equal again, unless one of the sessions is refused memory.
///
/// Errors: the first result is that of `first`, the second that of `second`; see `Session::dispose`.
#[tactic(auto, using(crate::proofs::AlikeLemmas::natives_alike))]
pub fn dispose_alike<C: HostCommand, D: HostCommand>(
    first: &mut Session<C>,
    second: &mut Session<D>,
    ticket: Ticket,
) -> (Result<C, SessionFault>, Result<D, SessionFault>)
    requires alike { first.old ≡ second.old }
    ensures natives { WithMemory result.0 result.1
        (with_native C.stands_for result.0 ≡ with_native D.stands_for result.1) }
    ensures sessions { WithMemory result.0 result.1 (first.new ≡ second.new) }
{
    (first.dispose(ticket), second.dispose(ticket))
}

/// Reloads the same rules of the user in two sessions with equal states and traces. Where both report the
/// same patterns as unread, they answer the same, and their states and traces are equal again, unless one of
/// them is refused memory.
///
/// Errors: the first result is that of `first`, the second that of `second`; see `Session::reload_user`.
#[tactic(auto, using(crate::proofs::AlikeLemmas::reloads_alike))]
pub fn reload_alike<C: HostCommand, D: HostCommand>(
    first: &mut Session<C>,
    second: &mut Session<D>,
    bytes: &[u8],
) -> (Result<Answer, SessionFault>, Result<Answer, SessionFault>)
    requires alike { first.old ≡ second.old }
    ensures answers { unread_rules first.new ≡ unread_rules second.new
        → WithMemory result.0 result.1 (result.0 ≡ result.1) }
    ensures sessions { unread_rules first.new ≡ unread_rules second.new
        → WithMemory result.0 result.1 (first.new ≡ second.new) }
{
    (first.reload_user(bytes), second.reload_user(bytes))
}

/// Updates the same extension by the same file in two sessions with equal states and traces. They answer the
/// same, and their states and traces are equal again, unless one of them is refused memory.
///
/// Errors: the first result is that of `first`, the second that of `second`; see
/// `Session::update_extension`.
#[tactic(auto, using(crate::proofs::AlikeLemmas::answers_alike))]
pub fn update_alike<C: HostCommand, D: HostCommand>(
    first: &mut Session<C>,
    second: &mut Session<D>,
    id: &str,
    bytes: &[u8],
) -> (Result<Answer, SessionFault>, Result<Answer, SessionFault>)
    requires alike { first.old ≡ second.old }
    ensures answers { WithMemory result.0 result.1 (result.0 ≡ result.1) }
    ensures sessions { WithMemory result.0 result.1 (first.new ≡ second.new) }
{
    (
        first.update_extension(id, bytes),
        second.update_extension(id, bytes),
    )
}

/// Sets the same key in two sessions with equal states and traces. They answer the same, and their states and
/// traces are equal again, unless one of them is refused memory.
///
/// Errors: the first result is that of `first`, the second that of `second`; see `Session::set_context`.
#[tactic(auto, using(crate::proofs::AlikeLemmas::answers_alike))]
pub fn set_alike<C: HostCommand, D: HostCommand>(
    first: &mut Session<C>,
    second: &mut Session<D>,
    scope: &str,
    key: &str,
    value: ContextValue,
    same: ContextValue,
) -> (Result<Answer, SessionFault>, Result<Answer, SessionFault>)
    requires alike { first.old ≡ second.old }
    requires same { same ≡ value }
    ensures answers { WithMemory result.0 result.1 (result.0 ≡ result.1) }
    ensures sessions { WithMemory result.0 result.1 (first.new ≡ second.new) }
{
    (
        first.set_context(scope, key, value),
        second.set_context(scope, key, same),
    )
}

/// Removes the same key in two sessions with equal states and traces. They answer the same, and their states
/// and traces are equal again, unless one of them is refused memory.
///
/// Errors: the first result is that of `first`, the second that of `second`; see `Session::unset_context`.
#[tactic(auto, using(crate::proofs::AlikeLemmas::answers_alike))]
pub fn unset_alike<C: HostCommand, D: HostCommand>(
    first: &mut Session<C>,
    second: &mut Session<D>,
    scope: &str,
    key: &str,
) -> (Result<Answer, SessionFault>, Result<Answer, SessionFault>)
    requires alike { first.old ≡ second.old }
    ensures answers { WithMemory result.0 result.1 (result.0 ≡ result.1) }
    ensures sessions { WithMemory result.0 result.1 (first.new ≡ second.new) }
{
    (
        first.unset_context(scope, key),
        second.unset_context(scope, key),
    )
}

/// Two loads of the same files with closures for the same native commands, which report the same patterns as
/// unread, give sessions with equal states and traces.
pub fn loads_are_alike()
    ensures { LoadsAlike }
{}

/// The same for loads without verification.
pub fn raw_loads_are_alike()
    ensures { RawLoadsAlike }
{}

/// The same script, with the same patterns unread in its reloads, leaves equal sessions and shelves,
/// whichever closures these have. Where one of two runs breaks off, one of the traces is the beginning of
/// the other.
pub fn scripts_are_alike()
    ensures { ScriptsAlike }
{}
