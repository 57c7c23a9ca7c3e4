//! The calls of a session for its extensions.
ghost use Rattle.std.specs.Prelude.{◌≡◌, ◌∷◌, ◌++◌, [], IfOk, OnOk, OnErr, IfErr};
ghost use Rattle.kb_base.specs.Failure.{Gives};
ghost use Rattle.kb_session.specs.Session.{Does, FailsAt, KeepsFace, Takes, Undone};
ghost use Rattle.kb_session.specs.Session.{has_switched, has_updated};
ghost use Rattle.kb_session.specs.State.{code_updated, disabling_refusal, enabling_refusal, happens};
ghost use Rattle.kb_extension_code.specs.Dependencies.{extension_named};
ghost use Rattle.kb_session.specs.State.{is_new, left_lines, named_in, spelled, switch_line, switch_target};
ghost use Rattle.kb_session.specs.State.{switched};
ghost use Rattle.kb_trace.specs.declared.event.Event.TheVariants as event;

use crate::fault::{SessionFault, fault_in};
use crate::session::Session;
use kb_base::{Failure, FaultKind, NoMemory, Refusal};
use kb_extension_code::{disable_obstacle, enable_obstacle, extension_named, updated_code};
use kb_files::Extension;
use kb_handler_table::Codes;
use kb_registry::HostCommand;
use kb_trace::{Answer, lines};

impl<C: HostCommand> Session<C> {
    /// Gives an extension the handlers of the bytes of a `handlers.json`, as `Event::Update` does. The bytes
    /// are lent.
    ///
    /// Errors: those of `handle`.
    #[tactic(auto, using(crate::proofs::Stopping::stopping))]
    pub fn update_extension(&mut self, id: &str, bytes: &[u8]) -> Result<Answer, SessionFault>
        ensures ok { IfOk result (λ answer.
            Takes (happens (event.Update id.now bytes.now)) self.old answer self.new) }
        ensures err { IfErr result (λ fault.
            FailsAt fault (happens (event.Update id.now bytes.now)) self.old self.new) }
    {
        if self.stopped {
            return Err(SessionFault::Stopped);
        }
        let mark = self.trace.len();
        match self.update(id, bytes) {
            Ok(answer) => Ok(answer),
            Err(_) => Err(self.halted_at(mark)),
        }
    }

    /// Enables an extension, unless that is refused.
    pub(super) fn enable(&mut self, id: &str) -> Result<Answer, NoMemory>
        ensures ok { IfOk result (λ answer. Does (happens (event.Enable id.now)) self.old answer self.new) }
        ensures err { OnErr result (Undone self.old self.new) }
    {
        match self.enabling_refusal(id)? {
            Some(refusal) => self.refuse(refusal),
            None => {
                self.switch(id, true)?;
                Ok(Answer::Did)
            }
        }
    }

    /// Disables an extension, unless that is refused.
    pub(super) fn disable(&mut self, id: &str) -> Result<Answer, NoMemory>
        ensures ok { IfOk result (λ answer. Does (happens (event.Disable id.now)) self.old answer self.new) }
        ensures err { OnErr result (Undone self.old self.new) }
    {
        match self.disabling_refusal(id)? {
            Some(refusal) => self.refuse(refusal),
            None => {
                self.switch(id, false)?;
                Ok(Answer::Did)
            }
        }
    }

    /// Updates an extension, unless that is refused.
    pub(super) fn update(&mut self, id: &str, bytes: &[u8]) -> Result<Answer, NoMemory>
        ensures ok { IfOk result (λ answer.
            Does (happens (event.Update id.now bytes.now)) self.old answer self.new) }
        ensures err { OnErr result (Undone self.old self.new) }
    {
        match self.code_updated(id, bytes) {
            Ok(codes) => {
                self.take_code(id, codes)?;
                Ok(Answer::Did)
            }
            Err(failure) => self.refuse(fault_in(failure)?),
        }
    }

    /// The refusal of enabling an extension, if it is refused. Its name is copied.
    fn enabling_refusal(&self, id: &str) -> Result<Option<Refusal>, NoMemory>
        ensures { IfOk result (λ refusal. refusal ≡ enabling_refusal id.now self.now.state) }
    {
        let extensions = self.bindings.extensions();
        let Some(named) = extension_named(id, extensions) else {
            return Ok(Some(Refusal::of(FaultKind::UnknownExtension)));
        };
        match enable_obstacle(named.extension, extensions, &self.registry) {
            Some(obstacle) => Ok(Some(obstacle.refusal()?)),
            None => Ok(None),
        }
    }

    /// The refusal of disabling an extension, if it is refused. Its name is copied.
    fn disabling_refusal(&self, id: &str) -> Result<Option<Refusal>, NoMemory>
        ensures { IfOk result (λ refusal. refusal ≡ disabling_refusal id.now self.now.state) }
    {
        let extensions = self.bindings.extensions();
        let Some(named) = extension_named(id, extensions) else {
            return Ok(Some(Refusal::of(FaultKind::UnknownExtension)));
        };
        match disable_obstacle(named.extension, extensions) {
            Some(obstacle) => Ok(Some(obstacle.refusal()?)),
            None => Ok(None),
        }
    }

    /// Enables or disables an extension, with its lines. An open chord ends.
    #[tactic(auto, using(kb_stream::proofs::Undoing::undoing))]
    fn switch(&mut self, id: &str, enabled: bool) -> Result<(), NoMemory>
        ensures ok { OnOk result (self.new ≡ has_switched enabled id.now self.old) }
        ensures err { OnErr result (Undone self.old self.new) }
    {
        self.note_switch(id, enabled)?;
        self.switch_parts(id, enabled)?;
        self.chord.leave();
        Ok(())
    }

    /// Adds the lines of an extension that is enabled or disabled.
    #[tactic(auto, using(kb_stream::proofs::Undoing::undoing))]
    fn note_switch(&mut self, id: &str, enabled: bool) -> Result<(), NoMemory>
        ensures ok { let id = spelled (named_in id.now self.old.state) in
            OnOk result (self.new ≡ record self.old {
              trace = self.old.trace ++ (left_lines self.old.state.pressed ++ switch_line enabled id ∷ []);
            }) }
        ensures err { OnErr result (Undone self.old self.new) }
    {
        self.note_leaving()?;
        let id = spelled_in(id, self.bindings.extensions());
        if enabled {
            lines::enabled_line(&mut self.trace, id)
        } else {
            lines::disabled_line(&mut self.trace, id)
        }
    }

    /// Enables or disables an extension in what binds keys, and makes its handlers live or not. If memory is
    /// refused nothing changes.
    fn switch_parts(&mut self, id: &str, enabled: bool) -> Result<(), NoMemory>
        ensures ok { OnOk result (self.new
            ≡ record self.old { state = switched enabled (named_in id.now self.old.state) self.old.state }) }
        ensures err { OnErr result (self.new ≡ self.old) }
    {
        match self.switch_target(id, enabled) {
            Some((place, number)) => {
                self.bindings.switch(self.alloc, place, enabled)?;
                self.registry.switch_code(number, enabled);
                Ok(())
            }
            None => Ok(()),
        }
    }

    /// The place and the number of the extension that is to be enabled or disabled, if it isn't already.
    fn switch_target(&self, id: &str, enabled: bool) -> Option<(usize, u32)>
        ensures { result ≡ switch_target enabled (named_in id.now self.now.state) }
    {
        match extension_named(id, self.bindings.extensions()) {
            Some(named) if is_new(enabled, named.extension) => {
                Some((named.place, named.extension.number))
            }
            _ => None,
        }
    }

    /// The code that an update gives an extension, or why it is refused.
    fn code_updated(&self, id: &str, bytes: &[u8]) -> Result<Codes, Failure<Refusal>>
        ensures code { Gives (λ codes. codes) result
            (code_updated (named_in id.now self.now.state) bytes.now self.now.state) }
        ensures face { IfOk result (λ codes. KeepsFace id.now self.now.state codes) }
    {
        let extensions = self.bindings.extensions();
        match extension_named(id, extensions) {
            Some(named) => {
                updated_code(
                    self.alloc,
                    named.extension,
                    extensions,
                    &self.registry,
                    bytes,
                )
            }
            None => Err(Failure::Fault(Refusal::of(FaultKind::UnknownExtension))),
        }
    }

    /// Gives an extension other code, with its line.
    #[tactic(auto, using(kb_stream::proofs::Undoing::undoing))]
    fn take_code(&mut self, id: &str, codes: Codes) -> Result<(), NoMemory>
        requires { KeepsFace id.now self.old.state codes }
        ensures ok { OnOk result (self.new ≡ has_updated id.now codes self.old) }
        ensures err { OnErr result (Undone self.old self.new) }
    {
        lines::updated_line(&mut self.trace, spelled_in(id, self.bindings.extensions()))?;
        match extension_named(id, self.bindings.extensions()) {
            Some(named) => self.registry.exchange_code(named.extension.number, codes),
            None => Ok(()),
        }
    }
}

/// How its manifest spells the identifier of the extension that an identifier names; empty without one.
fn spelled_in<'a>(id: &str, extensions: &'a [Extension]) -> &'a str
    ensures { result.now ≡ spelled (extension_named id.now extensions.now) }
{
    match extension_named(id, extensions) {
        Some(named) => named.extension.manifest.id.as_str(),
        None => "",
    }
}

/// Whether an extension isn't yet enabled, or not yet disabled.
fn is_new(enabled: bool, extension: &Extension) -> bool
    ensures { result ≡ is_new enabled extension.now }
{
    if enabled {
        !extension.enabled
    } else {
        extension.enabled
    }
}
