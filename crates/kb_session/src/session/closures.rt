//! The registration and disposal of the host's closures during a session.
ghost use Rattle.std.specs.Prelude.{◌≡◌, ◌<◌, false, [], ◌∷◌, ◌++◌, Some, None};
ghost use Rattle.std.specs.Prelude.{IfOk, IfErr, OnOk, OnErr};
ghost use Rattle.kb_base.specs.Refusal.{refused_for};
ghost use Rattle.kb_handler_table.specs.Live.{caller_of};
ghost use Rattle.kb_registry.specs.Live.{registration_fault, holder};
ghost use Rattle.kb_session.specs.Session.{Answers, RefusesAt};
ghost use Rattle.kb_session.specs.State.{Told, register, dispose, ticket, gave, refuse, step_on};
ghost use Rattle.kb_trace.specs.Lines as line;

use crate::fault::SessionFault;
use crate::session::Session;
use kb_base::{FaultKind, NoMemory, Refusal};
use kb_core::Native;
use kb_registry::{HostCommand, Ticket};
use kb_trace::lines;

impl<C: HostCommand> Session<C> {
    /// Registers a closure for its native command, and returns its ticket. An open chord stays open (our
    /// decision). A refusal has its trace line.
    ///
    /// Errors, each with the closure: `Refused` if a closure is already registered for the native
    /// command (70), or after 1,000,000 registrations (71); `Stopped` if the session was already
    /// stopped; `NoMemory` if memory was refused. Then the session is stopped and otherwise unchanged.
    pub fn register(&mut self, command: C) -> Result<Ticket, (C, SessionFault)>
        ensures ok { IfOk result (λ made.
            Answers (register (C.stands_for command)) self.old (ticket made.0) self.new) }
        ensures err { IfErr result (λ e. RefusesAt e.1 (register (C.stands_for command)) self.old self.new) }
        ensures back { IfErr result (λ e. e.0 ≡ command) }
    {
        if self.stopped {
            return Err((command, SessionFault::Stopped));
        }
        match self.registry.registration_fault(command.native()) {
            None => self.admit(command),
            Some(fault) => match self.note_refusal(Refusal::of(fault.kind())) {
                Ok(refusal) => Err((command, SessionFault::Refused(refusal))),
                Err(_) => Err((command, self.halted())),
            },
        }
    }

    /// Ends the registration with a ticket, and returns its closure. An open chord stays open (our decision).
    /// A refusal has its trace line, and the closure stays registered.
    ///
    /// Errors: `Refused` if no registered closure has the ticket (72), or if a live handler calls the
    /// native command (73, with the command of the first such handler); `Stopped` if the session was
    /// already stopped; `NoMemory` if memory was refused. Then the session is stopped and otherwise
    /// unchanged.
    pub fn dispose(&mut self, ticket: Ticket) -> Result<C, SessionFault>
        ensures ok { IfOk result (λ command.
            Answers (dispose ticket.0) self.old (gave (C.stands_for command)) self.new) }
        ensures err { IfErr result (λ fault. RefusesAt fault (dispose ticket.0) self.old self.new) }
    {
        if self.stopped {
            return Err(SessionFault::Stopped);
        }
        match self.registry.holder(ticket) {
            Some(native) => self.release_unless_called(native, ticket),
            None => Err(self.refuse_disposal(Refusal::of(FaultKind::StaleTicket))),
        }
    }

    /// Ends the registration of a native command, unless a live handler calls it.
    fn release_unless_called(&mut self, native: Native, ticket: Ticket) -> Result<C, SessionFault>
        requires running { self.old.state.stopped ≡ false }
        requires held { holder ticket.0 self.old.state.live ≡ Some native }
        ensures ok { IfOk result (λ command.
            Answers (dispose ticket.0) self.old (gave (C.stands_for command)) self.new) }
        ensures err { IfErr result (λ fault. RefusesAt fault (dispose ticket.0) self.old self.new) }
    {
        let Some(caller) = self.registry.caller_of(native) else {
            return self.release(native, ticket);
        };
        match caller.command().copied() {
            Ok(command) => Err(self.refuse_disposal(Refusal {
                kind: FaultKind::InUse,
                detail: Some(command),
            })),
            Err(_) => Err(self.halted()),
        }
    }

    /// Adds the line of a refusal and returns the refusal. On refused memory it stops the session.
    fn refuse_disposal(&mut self, refusal: Refusal) -> SessionFault
        requires running { self.old.state.stopped ≡ false }
        ensures { (told : Told) → step_on told self.old.state ≡ refuse refusal self.old.state
            → RefusesAt result told self.old self.new }
    {
        match self.note_refusal(refusal) {
            Ok(refusal) => SessionFault::Refused(refusal),
            Err(_) => self.halted(),
        }
    }

    /// Registers a closure; no fault prevents it. The line is written first, and removed again if the
    /// registry is refused memory.
    #[tactic(auto, using(kb_stream::proofs::Undoing::undoing))]
    fn admit(&mut self, command: C) -> Result<Ticket, (C, SessionFault)>
        requires running { self.old.state.stopped ≡ false }
        requires allowed { registration_fault (C.stands_for command) self.old.state.live ≡ None }
        requires room { self.old.state.live.made < self.old.state.live.limit }
        ensures ok { IfOk result (λ made.
            Answers (register (C.stands_for command)) self.old (ticket made.0) self.new) }
        ensures err { IfErr result (λ e. RefusesAt e.1 (register (C.stands_for command)) self.old self.new) }
        ensures back { IfErr result (λ e. e.0 ≡ command) }
    {
        let mark = self.trace.len();
        let name = command.native().name();
        let number = self.registry.next_ticket().0;
        if lines::registered_line(&mut self.trace, name, number).is_err() {
            return Err((command, self.halted()));
        }
        match self.registry.register_allowed(command) {
            Ok(ticket) => Ok(ticket),
            Err(command) => Err((command, self.halted_at(mark))),
        }
    }

    /// Ends a registration. The line is written first, since only it allocates.
    fn release(&mut self, native: Native, ticket: Ticket) -> Result<C, SessionFault>
        requires running { self.old.state.stopped ≡ false }
        requires held { holder ticket.0 self.old.state.live ≡ Some native }
        requires free { caller_of native self.old.state.live.code ≡ None }
        ensures ok { IfOk result (λ command.
            Answers (dispose ticket.0) self.old (gave (C.stands_for command)) self.new) }
        ensures err { IfErr result (λ fault. RefusesAt fault (dispose ticket.0) self.old self.new) }
    {
        if lines::disposed_line(&mut self.trace, native.name(), ticket.0).is_err() {
            return Err(self.halted());
        }
        Ok(self.registry.dispose_allowed(ticket))
    }

    /// Adds the line of a refusal, and returns the refusal.
    fn note_refusal(&mut self, refusal: Refusal) -> Result<Refusal, NoMemory>
        ensures refusal { IfOk result (λ noted. noted ≡ refusal) }
        ensures ok { OnOk result (self.new ≡ record self.old {
          trace = self.old.trace ++ line.refused_line refusal ∷ [];
        }) }
        ensures err { OnErr result (self.new ≡ self.old) }
    {
        lines::refused_line(&mut self.trace, &refusal)?;
        Ok(refusal)
    }
}
