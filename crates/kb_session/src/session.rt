//! A session: its state, its calls, and its trace.
ghost use Rattle.std.specs.Prelude.{◌≡◌, false, [], ◌∷◌, ◌++◌, take, map};
ghost use Rattle.std.specs.Prelude.{OnOk, OnErr, IfOk, IfErr};
ghost use Rattle.kb_base.specs.Refusal.{refused_for};
ghost use Rattle.kb_context.specs.ScopeFault.{kind_of};
ghost use Rattle.kb_rules.specs.RuleList.{AreRightlyMarked};
ghost use Rattle.kb_bindings.specs.Load.{MarksAreRight};
ghost use Rattle.kb_files.specs.Inputs.{files_of};
ghost use Rattle.kb_bindings.specs.Unread.{unread_of};
ghost use Rattle.kb_base.specs.declared.failure.Failure.TheVariants as failure;
ghost use Rattle.kb_session.specs.Session.{Loads, LoadsRaw, Takes, Does, halt, Undone, HalfDone, IsHalf};
ghost use Rattle.kb_session.specs.Session.{loaded_session};
ghost use Rattle.kb_session.specs.Session.{FailsAt, FailsAmong, is_late};
ghost use Rattle.kb_bindings.specs.Sources.{source_of};
ghost use Rattle.kb_execute.specs.Start.{stops};
ghost use Rattle.kb_session.specs.Inspect.{Finds, finish_of};
ghost use Rattle.kb_session.specs.State.{IsRightlyTold, IsSafe, happens, reload, next, left_lines, with_user};
ghost use Rattle.kb_bindings.specs.Warning.{warnings_of};
ghost use Rattle.kb_session.specs.declared.fault.SessionFault.TheVariants.{NoMemory};
ghost use Rattle.kb_stream.specs.Fold.{after_all};
ghost use Rattle.kb_trace.specs.Lines as line;

use crate::fault::{SessionFault, fault_in};
use crate::handled::{EventEnd, Handled, started_nothing};
use crate::press::press_key;
use kb_base::{EntryPattern, Failure, FaultKind, NoMemory, Refusal, Seq, Warning};
use kb_bindings::{Bindings, Loaded, load_files, unread_rules};
use kb_context::{ContextValue, ScopeFault, Scopes};
use kb_core::Core;
use kb_execute::HeldCore;
use kb_extension_code::{checked_commands, raw_commands};
use kb_files::{Inputs, LoadFault, read_rules};
use kb_keys::Keystroke;
use kb_palette::{Entry, History};
use kb_registry::{HostCommand, Registry};
use kb_resolve::ChordState;
use kb_rules::{Origin, RuleList};
use kb_stream::Lines;
use kb_trace::{Answer, Event, lines};
use std::alloc::Global;
use std::collections::VecDeque;
use std::marker::Model;
use std::mem;

mod closures;
mod context;
mod extensions;
mod inspect;
mod palette;
mod rules;

/// A session of the engine, with the host's closures for native commands. Contracts see its state and its
/// trace. The state consists of the core with its text and scopes, the sources of the key bindings with the
/// extensions and which of them are enabled, the commands that are live or not, the keystrokes of the open
/// chord, whether the session is stopped, the unread patterns of the load and of each reload, the history of
/// choices in the palette, the entries of the last palette, and whether lines of a script add rules.
///
/// Refused memory or a trap of a handler stops the session for good. Each later call returns `Stopped`.
/// The trace then ends with the line of the trap, or with the last line before the call that was
/// refused memory.
#[derive(Drop)]
pub struct Session<C: HostCommand> {
    core: HeldCore,
    bindings: Bindings,
    registry: Registry<C>,
    chord: ChordState,
    stopped: bool,
    unread: Seq<Seq<EntryPattern>>,
    history: History,
    listed: Option<Seq<Entry>>,
    takes_rules: bool,
    trace: Lines,
    alloc: Global,
}

impl<C: HostCommand> Model for Session<C> {
    ghost use Rattle.std.specs.Coded.{codes};
    ghost use Rattle.kb_core.specs.contracts.core_state.Core as whole;
    ghost use Rattle.kb_files.specs.contracts.extension_file.Extension as extension;
    ghost use Rattle.kb_rules.specs.contracts.removal.Removal as removal;
    ghost use Rattle.kb_rules.specs.contracts.rule.Rule as rule;
    ghost use Rattle.kb_base.specs.contracts.note.EntryPattern as marks;
    ghost use Rattle.kb_base.specs.contracts.note.Warning as warning;
    ghost use Rattle.kb_session.specs.State.{State};
    ghost use Rattle.kb_stream.specs.Fold.{Traced};

    ghost Value = { Traced State };

    ghost coded = { Prim.hlevel (
      codes,
      whole.the_row.coded,
      extension.the_row.coded,
      rule.the_row.coded,
      removal.the_row.coded,
      warning.the_row.coded,
      marks.the_row.coded,
    ) };

    ghost view = { λ s. record {
      state = record {
        core = s.core;
        sources = s.bindings;
        live = s.registry;
        pressed = s.chord;
        stopped = s.stopped;
        unread = s.unread;
        history = s.history;
        listed = s.listed;
        takes_rules = s.takes_rules;
      };
      trace = s.trace;
    } };
}

impl<C: HostCommand> Session<C> {
    /// Creates a session from these files, with an empty text and an empty trace. It registers the
    /// closures in order, with tickets from 1 on, and then the handlers of the extensions' handler
    /// files, in load order. Each handler is verified against the commands that its extension may call:
    /// the live native commands, the handlers of the extensions that it depends on, and its own
    /// handlers. All extensions are enabled at first. A session allows at most 1,000,000 registrations of
    /// closures. (The verification, the limit and the order of the errors are our decisions.)
    ///
    /// Errors: refused memory, or the first fault, with its file, in this order:
    /// - the layout: 1 to 4, 40, 41, 21, 22
    /// - the default rules, and then the user's rules: 1 to 4, 41 each
    /// - more than 100 extensions: 44
    /// - for each extension in load order its manifest: 1 to 4, 40, 41; and its handler file: 1 to 4,
    ///   40 to 44, 50 to 53
    /// - an extension with the identifier of an earlier one: 91
    /// - an extension that depends on an extension that isn't loaded before it: 90
    /// - two closures for one native command: 70
    /// - for each extension in load order the first handler that the verifier rejects: 60 to 69, with
    ///   its command and place; and a handler whose name is taken: 70
    ///
    /// On an error the closures are dropped.
    #[tactic(auto, using(crate::proofs::LoadLemmas::loading))]
    pub fn load(
        alloc: Global,
        inputs: Inputs<'_>,
        natives: Vec<C>,
    ) -> Result<Session<C>, Failure<LoadFault>>
        ensures read { Loads (files_of inputs.entry) (map C.stands_for natives.items) result }

        // A pattern is reported as unread only if `regex` rejects it, for its syntax or for its depth
        // of nesting. Each pattern with a syntax that `regex` rejects is reported.
        ensures right { IfOk result (λ session. MarksAreRight (files_of inputs.entry) session.state.sources) }

        // All handlers are verified, so only refused memory stops the session (`laws`).
        ensures safe { IfOk result (λ session. IsSafe session.state) }
    {
        let Loaded {
            scopes,
            bindings,
            handlers,
        } = load_files(alloc, inputs)?;
        match checked_commands(alloc, natives, bindings.extensions(), handlers) {
            Ok(registry) => Session::begun(alloc, scopes, bindings, registry),
            Err(failure) => {
                // Explicit, so the value is dropped by a call, and the proofs don't drop it field by
                // field.
                drop(bindings);
                Err(failure)
            }
        }
    }

    /// Creates a session as `load` does, but without the verification of handlers. A handler that traps
    /// stops the session.
    ///
    /// Errors: those of `load`, except 60 to 69.
    #[tactic(auto, using(crate::proofs::LoadLemmas::loading))]
    pub fn load_raw(
        alloc: Global,
        inputs: Inputs<'_>,
        natives: Vec<C>,
    ) -> Result<Session<C>, Failure<LoadFault>>
        ensures read { LoadsRaw (files_of inputs.entry) (map C.stands_for natives.items) result }
        ensures right { IfOk result (λ session. MarksAreRight (files_of inputs.entry) session.state.sources) }
    {
        let Loaded {
            scopes,
            bindings,
            handlers,
        } = load_files(alloc, inputs)?;
        match raw_commands(alloc, natives, handlers) {
            Ok(registry) => Session::begun(alloc, scopes, bindings, registry),
            Err(failure) => {
                drop(bindings);
                Err(failure)
            }
        }
    }

    /// A session with these scopes, bindings and commands, with an empty text and an empty trace.
    fn begun(
        alloc: Global,
        scopes: Scopes,
        bindings: Bindings,
        registry: Registry<C>,
    ) -> Result<Session<C>, Failure<LoadFault>>
        ensures ok { IfOk result (λ session. session ≡ loaded_session scopes.seen bindings registry) }
        ensures err { IfErr result (λ why. why ≡ failure.NoMemory) }
    {
        let Ok((unread, history)) = first_lists(alloc, &bindings) else {
            drop(bindings);
            return Err(Failure::NoMemory);
        };
        Ok(Session {
            core: HeldCore::new(Core::new(alloc, scopes)),
            bindings,
            registry,
            chord: ChordState::new(alloc),
            stopped: false,
            unread,
            history,
            listed: None,
            takes_rules: false,
            trace: Lines::new(alloc),
            alloc,
        })
    }

    /// Ends the session and returns its trace. Everything else is dropped, also the closures.
    pub fn into_trace(self) -> Lines
        ensures { result ≡ self.trace }
    {
        let Session {
            trace,
            bindings,
            ..
        } = self;
        drop(bindings);
        trace
    }

    /// All trace lines so far, in order.
    pub fn trace(&self) -> &Lines
        ensures { result.now ≡ self.now.trace }
    {
        &self.trace
    }

    /// Takes the trace lines so far out of the session, which goes on with an empty trace. A host that lives
    /// long calls it after each event, so that the trace doesn't grow with the number of events.
    pub fn take_trace(&mut self) -> Lines
        ensures lines { result ≡ self.old.trace }
        ensures rest { self.new ≡ record self.old { trace = [] } }
    {
        mem::replace(&mut self.trace, Lines::new(self.alloc))
    }

    /// Keeps the first `len` trace lines and removes the others. The memory of those is kept for further
    /// lines.
    pub fn truncate_trace(&mut self, len: usize)
        ensures { self.new ≡ record self.old { trace = take len self.old.trace } }
    {
        self.trace.truncate(len);
    }

    /// The warnings for single entries of the current files, in this order: the default rules, the
    /// extensions in load order (for each its commands, its rules and its palette items), and the
    /// user's rules.
    pub fn warnings(&self) -> &[Warning]
        ensures { result.now ≡ warnings_of self.now.state.sources }
    {
        self.bindings.warnings()
    }

    /// The name of an entry's file in messages: `defaults`, `user`, or the identifier of the extension
    /// as its manifest spells it.
    pub fn source(&self, origin: Origin) -> &str
        ensures { result.now ≡ source_of self.now.state.sources origin }
    {
        self.bindings.source(origin)
    }

    /// The unread patterns (those that `regex` rejects): one list for the files of the load, and one
    /// for the user's rules of each successful reload. Each list has the order of `warnings`. Together
    /// with the inputs these lists determine what the session does.
    pub fn unread(&self) -> &[Seq<EntryPattern>]
        ensures { result.now ≡ self.now.state.unread }
    {
        self.unread.as_slice()
    }

    /// Whether the session is stopped, after refused memory or a trap of a handler. Each call then
    /// returns `Stopped`.
    pub fn is_stopped(&self) -> bool
        ensures { result ≡ self.now.state.stopped }
    {
        self.stopped
    }

    /// Stops the session, as refused memory does. A caller that was refused memory while it prepared an
    /// input calls it, so the trace has no lines after a missing input.
    pub fn stop(&mut self)
        ensures { self.new ≡ halt self.old }
    {
        self.stopped = true;
    }

    /// Handles one event. A change of the focus, and an extension that is enabled or disabled, end an open
    /// chord; a change of a key, a palette, a choice and an update of an extension don't. The list of a
    /// palette stays until an entry of it is chosen, or until the next palette. A chosen command starts
    /// without arguments, also if it was disabled or hidden since. A handler that traps has its trace line,
    /// and stops the session. (These are our decisions.)
    ///
    /// A refused event has its trace line, and changes nothing else, an open chord included. Refusals: a
    /// scope that doesn't exist (20); a key too many (22); a choice of an entry that the last palette doesn't
    /// have, or without a palette (96); an extension that doesn't exist (92); enabling it while it depends on
    /// one that isn't enabled (93), or while a native command that its handlers call has no registered
    /// closure (74); disabling it while an enabled one depends on it (94); an update by a file with a fault
    /// (1 to 4, 40 to 44, 50 to 53), with other commands than before (95), or with a handler that isn't
    /// accepted (60 to 69); a registration for which the host has no closure (98).
    ///
    /// Errors: `Stopped` if the session was already stopped; `NoMemory` if memory was refused. Then the
    /// session is stopped and otherwise unchanged, except for the core and the chord if the event is a
    /// key press, and for the core if it is a choice.
    pub fn handle(&mut self, event: Event) -> Result<Answer, SessionFault>
        ensures ok { IfOk result (λ answer. Takes (happens event) self.old answer self.new) }
        ensures err { IfErr result (λ fault. FailsAt fault (happens event) self.old self.new) }
    {
        match self.handle_fully(event) {
            Ok(handled) => Ok(handled.answer),
            Err(fault) => Err(fault),
        }
    }

    /// Presses a key, as the event `Key` of `handle` does; no press is refused. Returns how the command that
    /// it started ended, and what its search found: the rule that it took, by its position.
    ///
    /// Errors: those of `handle`.
    #[tactic(auto, using(crate::proofs::Stopping::taking, crate::proofs::Stopping::pressing))]
    pub fn press(&mut self, key: Keystroke) -> Result<EventEnd, SessionFault>
        ensures ok { OnOk result (Takes (happens (Event.Key key)) self.old Answer.Did self.new) }
        ensures stops { IfOk result (λ ended. self.new.state.stopped ≡ stops ended.finish) }
        ensures finish { IfOk result (λ ended. ended.finish ≡ finish_of (Event.Key key) self.old.state) }
        ensures found { IfOk result (λ ended.
            Finds (Event.Key key) self.old.state self.new.state ended.found) }
        ensures err { IfErr result (λ fault. FailsAt fault (happens (Event.Key key)) self.old self.new) }
    {
        if self.stopped {
            return Err(SessionFault::Stopped);
        }
        let mark = self.trace.len();
        match self.take_key(key) {
            Ok(ended) => Ok(ended),
            Err(_) => Err(self.halted_at(mark)),
        }
    }

    /// Handles one event as `handle` does, and also returns how it ended. A caller of `press` makes no event.
    ///
    /// Errors: those of `handle`.
    #[tactic(auto, using(crate::proofs::Stopping::taking))]
    pub fn handle_fully(&mut self, event: Event) -> Result<Handled, SessionFault>
        ensures ok { IfOk result (λ handled. Takes (happens event) self.old handled.answer self.new) }
        ensures stops { IfOk result (λ handled. self.new.state.stopped ≡ stops handled.ended.finish) }
        ensures finish { IfOk result (λ handled. handled.ended.finish ≡ finish_of event self.old.state) }
        ensures found { IfOk result (λ handled.
            Finds event self.old.state self.new.state handled.ended.found) }
        ensures err { IfErr result (λ fault. FailsAt fault (happens event) self.old self.new) }
    {
        if self.stopped {
            return Err(SessionFault::Stopped);
        }
        let mark = self.trace.len();
        match self.take(event) {
            Ok(handled) => Ok(handled),
            Err(_) => Err(self.halted_at(mark)),
        }
    }

    /// Handles one event. If memory is refused, the trace may have some of its lines.
    #[tactic(auto, using(crate::proofs::Stopping::stopping))]
    fn take(&mut self, event: Event) -> Result<Handled, NoMemory>
        requires running { self.old.state.stopped ≡ false }
        ensures ok { IfOk result (λ handled. Does (happens event) self.old handled.answer self.new) }
        ensures stops { IfOk result (λ handled. self.new.state.stopped ≡ stops handled.ended.finish) }
        ensures finish { IfOk result (λ handled. handled.ended.finish ≡ finish_of event self.old.state) }
        ensures found { IfOk result (λ handled.
            Finds event self.old.state self.new.state handled.ended.found) }
        ensures err { OnErr result (IsHalf event self.old self.new) }
    {
        match event {
            Event::Key(key) => Ok(Handled {
                answer: Answer::Did,
                ended: self.take_key(key)?,
            }),
            Event::Choose(number) => self.choose(number),
            Event::Focus(scope) => started_nothing(self.focus(scope.as_str())),
            Event::SetKey(scope, key, value) => {
                started_nothing(self.set_key(scope.as_str(), key.as_str(), value))
            }
            Event::UnsetKey(scope, key) => started_nothing(self.unset_key(
                scope.as_str(),
                key.as_str(),
            )),
            Event::Palette(query) => started_nothing(self.list_palette(query.as_str())),
            Event::Enable(id) => started_nothing(self.enable(id.as_str())),
            Event::Disable(id) => started_nothing(self.disable(id.as_str())),
            Event::Update(id, bytes) => {
                started_nothing(self.update(id.as_str(), bytes.as_slice()))
            }
            Event::NoClosure => started_nothing(self.note_no_closure()),
            Event::Unread(number) => started_nothing(self.note_unread(number)),
        }
    }

    /// Reads the user's rules again, from the bytes of their file. A successful reload ends an open chord
    /// (our decision). A refused file (1 to 4, 41) changes nothing but the trace.
    ///
    /// Errors: `Stopped` if the session was already stopped; `NoMemory` if memory was refused. Then the
    /// session is stopped and otherwise unchanged.
    pub fn reload_user(&mut self, bytes: &[u8]) -> Result<Answer, SessionFault>
        ensures ok { IfOk result (λ answer.
            Takes (reload bytes.now self.new.state.sources.user.unread) self.old answer self.new) }
        ensures err { IfErr result (λ fault. FailsAt fault (reload bytes.now []) self.old self.new) }

        // The patterns of the new rules are marked as `regex` reads them, and so stay those of the user's
        // rules.
        ensures marked { IfOk result (λ answer.
            IsRightlyTold (reload bytes.now self.new.state.sources.user.unread)) }
        ensures right { AreRightlyMarked self.old.state.sources.user
            → AreRightlyMarked self.new.state.sources.user }
    {
        if self.stopped {
            return Err(SessionFault::Stopped);
        }
        let mark = self.trace.len();
        match self.reload(bytes) {
            Ok(answer) => Ok(answer),
            Err(_) => Err(self.halted_at(mark)),
        }
    }

    /// Handles the events in order. A refused event doesn't end the run.
    ///
    /// Errors: `Stopped` if the session was already stopped, or if a trap of a handler stopped it
    /// before the last event; `NoMemory` if memory was refused in an event. Then no later event is
    /// handled, and the session is stopped.
    #[tactic(auto, using(crate::proofs::Runs::progress))]
    pub fn run(&mut self, events: Vec<Event>) -> Result<(), SessionFault>
        ensures running { OnOk result (is_late (map happens events.items) self.old.state ≡ false) }
        ensures ok { OnOk result (self.new ≡ after_all next (map happens events.items) self.old) }
        ensures err { IfErr result (λ fault. FailsAmong fault (map happens events.items) self.old self.new) }
    {
        if self.stopped {
            return Err(SessionFault::Stopped);
        }
        let mut rest = VecDeque::from(events);
        while let Some(event) = rest.pop_front() {
            self.handle(event)?;
        }
        Ok(())
    }

    /// Truncates the trace to its first `mark` lines, and stops the session.
    fn halted_at(&mut self, mark: usize) -> SessionFault
        ensures session { self.new ≡ halt (record self.old { trace = take mark self.old.trace }) }
        ensures fault { result ≡ NoMemory }
    {
        self.truncate_trace(mark);
        self.halted()
    }

    /// Stops the session after refused memory.
    fn halted(&mut self) -> SessionFault
        ensures session { self.new ≡ halt self.old }
        ensures fault { result ≡ NoMemory }
    {
        self.stop();
        SessionFault::NoMemory
    }

    /// Presses a key. If memory is refused, the trace may have some of its lines.
    fn take_key(&mut self, key: Keystroke) -> Result<EventEnd, NoMemory>
        ensures ok { OnOk result (Does (happens (Event.Key key)) self.old Answer.Did self.new) }
        ensures stops { IfOk result (λ ended. self.new.state.stopped ≡ stops ended.finish) }
        ensures finish { IfOk result (λ ended. ended.finish ≡ finish_of (Event.Key key) self.old.state) }
        ensures found { IfOk result (λ ended.
            Finds (Event.Key key) self.old.state self.new.state ended.found) }
        ensures err { OnErr result (HalfDone self.old self.new) }
    {
        let ended = press_key(
            self.alloc,
            key,
            &self.registry,
            &mut self.core,
            &mut self.chord,
            &self.bindings,
            &mut self.trace,
        )?;
        self.stopped = ended.finish.stops();
        Ok(ended)
    }

    /// Sets the focus to a scope. An open chord ends. The lines are written first, since only they
    /// allocate.
    #[tactic(auto, using(kb_stream::proofs::Undoing::undoing))]
    fn focus(&mut self, scope: &str) -> Result<Answer, NoMemory>
        ensures ok { IfOk result (λ answer. Does (happens (Event.Focus scope.now)) self.old answer self.new) }
        ensures err { OnErr result (Undone self.old self.new) }
    {
        let mark = self.trace.len();
        self.note_leaving()?;
        lines::focus_line(&mut self.trace, scope)?;
        match self.core.focus(scope) {
            Ok(()) => {
                self.chord.leave();
                Ok(Answer::Did)
            }
            Err(_) => self.refuse_instead(mark, ScopeFault::UnknownScope),
        }
    }

    /// Sets a key in a scope. An open chord stays open. The line is written first, since the change of
    /// the scopes can't be undone.
    #[tactic(auto, using(kb_stream::proofs::Undoing::undoing))]
    fn set_key(&mut self, scope: &str, key: &str, value: ContextValue) -> Result<Answer, NoMemory>
        ensures ok { IfOk result (λ answer.
            Does (happens (Event.SetKey scope.now key.now value)) self.old answer self.new) }
        ensures err { OnErr result (Undone self.old self.new) }
    {
        let mark = self.trace.len();
        lines::set_line(&mut self.trace, scope, key)?;
        match self.core.set_key(scope, key, value) {
            Ok(()) => Ok(Answer::Did),
            Err(failure) => self.refuse_instead(mark, fault_in(failure)?),
        }
    }

    /// Removes a key from a scope. An open chord stays open. The line is written first, since only it
    /// allocates.
    #[tactic(auto, using(kb_stream::proofs::Undoing::undoing))]
    fn unset_key(&mut self, scope: &str, key: &str) -> Result<Answer, NoMemory>
        ensures ok { IfOk result (λ answer.
            Does (happens (Event.UnsetKey scope.now key.now)) self.old answer self.new) }
        ensures err { OnErr result (Undone self.old self.new) }
    {
        let mark = self.trace.len();
        lines::unset_line(&mut self.trace, scope, key)?;
        match self.core.unset_key(scope, key) {
            Ok(()) => Ok(Answer::Did),
            Err(_) => self.refuse_instead(mark, ScopeFault::UnknownScope),
        }
    }

    /// Reports that the host has no closure to register (98).
    #[tactic(auto, using(kb_stream::proofs::Undoing::undoing))]
    fn note_no_closure(&mut self) -> Result<Answer, NoMemory>
        ensures ok { IfOk result (λ answer. Does (happens Event.NoClosure) self.old answer self.new) }
        ensures err { OnErr result (Undone self.old self.new) }
    {
        self.refuse(Refusal::of(FaultKind::NoClosure))
    }

    #[tactic(auto, using(kb_stream::proofs::Undoing::undoing))]
    fn note_unread(&mut self, number: u64) -> Result<Answer, NoMemory>
        ensures ok { IfOk result (λ answer. Does (happens (Event.Unread number)) self.old answer self.new) }
        ensures err { OnErr result (Undone self.old self.new) }
    {
        lines::unread_line(&mut self.trace, number)?;
        Ok(Answer::Did)
    }

    /// Adds the line of a chord that ends, if one is open.
    fn note_leaving(&mut self) -> Result<(), NoMemory>
        ensures ok { OnOk result
            (self.new ≡ record self.old { trace = self.old.trace ++ left_lines self.old.state.pressed }) }
        ensures err { OnErr result (self.new ≡ self.old) }
    {
        let pressed = self.chord.pressed();
        if pressed.is_empty() {
            return Ok(());
        }
        lines::left_line(&mut self.trace, pressed)
    }

    /// Adds the lines of a reload of the user's rules, which ends an open chord.
    #[tactic(auto, using(kb_stream::proofs::Undoing::undoing))]
    fn note_reload(&mut self) -> Result<(), NoMemory>
        ensures ok { OnOk result (self.new ≡ record self.old {
          trace = self.old.trace ++ (left_lines self.old.state.pressed ++ line.reloaded_line ∷ []);
        }) }
        ensures err { OnErr result (Undone self.old self.new) }
    {
        self.note_leaving()?;
        lines::reloaded_line(&mut self.trace)
    }

    /// Truncates the trace to its first `mark` lines, and adds the line of a refusal.
    fn refuse_instead(&mut self, mark: usize, fault: ScopeFault) -> Result<Answer, NoMemory>
        ensures answer { IfOk result (λ answer. answer ≡ Answer.Refused (refused_for (kind_of fault))) }
        ensures ok { OnOk result (self.new ≡ record self.old {
          trace = take mark self.old.trace ++ line.refused_line (refused_for (kind_of fault)) ∷ [];
        }) }
        ensures err { OnErr result (self.new ≡ record self.old { trace = take mark self.old.trace }) }
    {
        self.truncate_trace(mark);
        self.refuse(Refusal::of(fault.kind()))
    }

    /// Adds the line of a refusal.
    fn refuse(&mut self, refusal: Refusal) -> Result<Answer, NoMemory>
        ensures answer { IfOk result (λ answer. answer ≡ Answer.Refused refusal) }
        ensures ok { OnOk result
            (self.new ≡ record self.old { trace = self.old.trace ++ line.refused_line refusal ∷ [] }) }
        ensures err { OnErr result (self.new ≡ self.old) }
    {
        lines::refused_line(&mut self.trace, &refusal)?;
        Ok(Answer::Refused(refusal))
    }

    #[tactic(auto, using(kb_stream::proofs::Undoing::undoing, crate::proofs::RightReloads::marking))]
    fn reload(&mut self, bytes: &[u8]) -> Result<Answer, NoMemory>
        ensures ok { IfOk result (λ answer.
            Does (reload bytes.now self.new.state.sources.user.unread) self.old answer self.new) }
        ensures err { OnErr result (Undone self.old self.new) }
        ensures marked { IfOk result (λ answer.
            IsRightlyTold (reload bytes.now self.new.state.sources.user.unread)) }
        ensures right { AreRightlyMarked self.old.state.sources.user
            → AreRightlyMarked self.new.state.sources.user }
    {
        match read_rules(self.alloc, bytes, Origin::User) {
            Ok(user) => {
                self.take_rules(user)?;
                Ok(Answer::Did)
            }
            Err(failure) => self.refuse(fault_in(failure)?),
        }
    }

    /// Replaces the user's rules. Everything that allocates is done first.
    #[tactic(auto, using(kb_stream::proofs::Undoing::undoing))]
    fn take_rules(&mut self, user: RuleList) -> Result<(), NoMemory>
        ensures ok { OnOk result (self.new ≡ record self.old {
          state = record (with_user user self.old.state) { pressed = [] };
          trace = self.old.trace ++ (left_lines self.old.state.pressed ++ line.reloaded_line ∷ []);
        }) }
        ensures err { OnErr result (Undone self.old self.new) }
    {
        self.note_reload()?;
        let unread = unread_rules(self.alloc, &user)?;
        let renewed = self.bindings.renewed(self.alloc, user)?;
        self.unread.push(unread)?;
        self.chord.leave();
        self.bindings.renew(renewed);
        Ok(())
    }
}

/// The lists of a new session: of unread patterns one list, for the load; and of choices none.
fn first_lists(
    alloc: Global,
    bindings: &Bindings,
) -> Result<(Seq<Seq<EntryPattern>>, History), NoMemory>
    ensures unread { IfOk result (λ lists. lists.0 ≡ unread_of bindings.now ∷ []) }
    ensures history { IfOk result (λ lists. lists.1 ≡ []) }
{
    let mut lists = Seq::new(alloc);
    lists.push(bindings.unread(alloc)?)?;
    Ok((lists, History::new(alloc)?))
}
