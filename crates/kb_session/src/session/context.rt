//! The calls of a session for its context keys.
ghost use Rattle.std.specs.Prelude.{◌≡◌, IfOk, IfErr};
ghost use Rattle.kb_session.specs.Session.{FailsAt, Takes};
ghost use Rattle.kb_session.specs.State.{happens};
ghost use Rattle.kb_trace.specs.declared.event.Event.TheVariants as event;

use crate::fault::SessionFault;
use crate::session::Session;
use kb_context::ContextValue;
use kb_registry::HostCommand;
use kb_trace::Answer;

impl<C: HostCommand> Session<C> {
    /// Sets a key in a scope, as `Event::SetKey` does. The names are lent: only a key that the scope lacks is
    /// copied.
    ///
    /// Errors: those of `handle`.
    #[tactic(auto, using(crate::proofs::Stopping::stopping))]
    pub fn set_context(
        &mut self,
        scope: &str,
        key: &str,
        value: ContextValue,
    ) -> Result<Answer, SessionFault>
        ensures ok { IfOk result (λ answer.
            Takes (happens (event.SetKey scope.now key.now value)) self.old answer self.new) }
        ensures err { IfErr result (λ fault.
            FailsAt fault (happens (event.SetKey scope.now key.now value)) self.old self.new) }
    {
        if self.stopped {
            return Err(SessionFault::Stopped);
        }
        let mark = self.trace.len();
        match self.set_key(scope, key, value) {
            Ok(answer) => Ok(answer),
            Err(_) => Err(self.halted_at(mark)),
        }
    }

    /// Removes a key from a scope, as `Event::UnsetKey` does. The names are lent.
    ///
    /// Errors: those of `handle`.
    #[tactic(auto, using(crate::proofs::Stopping::stopping))]
    pub fn unset_context(&mut self, scope: &str, key: &str) -> Result<Answer, SessionFault>
        ensures ok { IfOk result (λ answer.
            Takes (happens (event.UnsetKey scope.now key.now)) self.old answer self.new) }
        ensures err { IfErr result (λ fault.
            FailsAt fault (happens (event.UnsetKey scope.now key.now)) self.old self.new) }
    {
        if self.stopped {
            return Err(SessionFault::Stopped);
        }
        let mark = self.trace.len();
        match self.unset_key(scope, key) {
            Ok(answer) => Ok(answer),
            Err(_) => Err(self.halted_at(mark)),
        }
    }
}
