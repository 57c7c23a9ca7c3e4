//! The calls of a session for rules in lines of a script.
ghost use Rattle.std.specs.Prelude.{◌≡◌, ◌∷◌, ◌++◌, [], IfOk, IfErr, OnErr, OnOk, Some};
ghost use Rattle.std.specs.Prelude.{length};
ghost use Rattle.kb_bindings.specs.Bindings.{IsRenewed};
ghost use Rattle.kb_rules.specs.RuleList.{AreRightlyMarked, with_rule};
ghost use Rattle.kb_session.specs.Session.{Does, FailsAt, Takes, Undone, with_rule_lines};
ghost use Rattle.kb_session.specs.State.{left_lines, typed_rule, types_rule, with_typed};
ghost use Rattle.kb_trace.specs.Lines as line;

use crate::fault::SessionFault;
use crate::session::Session;
use kb_base::{HashedText, NoMemory, Text};
use kb_bindings::{Bindings, Renewed};
use kb_keys::{Chord, Keystroke};
use kb_registry::HostCommand;
use kb_rules::{Json, Origin, Rule, RuleList};
use kb_trace::{Answer, lines};
use serde_json::Value;
use std::alloc::Global;

impl<C: HostCommand> Session<C> {
    /// Says whether lines `rule KEY COMMAND [TEXT]` of scripts add rules from now on. A new session leaves
    /// them unread; a program without any argument takes them (our decision).
    pub fn take_rule_lines(&mut self, are_taken: bool)
        ensures { self.new ≡ with_rule_lines are_taken self.old }
    {
        self.takes_rules = are_taken;
    }

    /// Does what the line `rule KEY COMMAND [TEXT]` of a script says, if this session takes such lines
    /// (`take_rule_lines`). A rule without a clause is added at the bottom of the user's rules, with the text
    /// as its argument. It ends an open chord, as a reload does. Else the trace gets the line of an unread
    /// line with this number. (Our decision.)
    ///
    /// Errors: those of `reload_user`.
    #[tactic(auto, using(crate::proofs::Stopping::stopping))]
    pub fn add_rule(
        &mut self,
        number: u64,
        key: Keystroke,
        command: &str,
        text: &str,
    ) -> Result<Answer, SessionFault>
        ensures ok { IfOk result (λ answer.
            Takes (types_rule number key command.now text.now) self.old answer self.new) }
        ensures err { IfErr result (λ fault.
            FailsAt fault (types_rule number key command.now text.now) self.old self.new) }
        ensures right { AreRightlyMarked self.old.state.sources.user
            → AreRightlyMarked self.new.state.sources.user }
    {
        if self.stopped {
            return Err(SessionFault::Stopped);
        }
        let mark = self.trace.len();
        match self.type_rule(number, key, command, text) {
            Ok(answer) => Ok(answer),
            Err(_) => Err(self.halted_at(mark)),
        }
    }

    /// Adds the rule of a line, or notes that the line is unread.
    #[tactic(auto, using(crate::proofs::RuleLines::typing))]
    fn type_rule(
        &mut self,
        number: u64,
        key: Keystroke,
        command: &str,
        text: &str,
    ) -> Result<Answer, NoMemory>
        ensures ok { IfOk result (λ answer.
            Does (types_rule number key command.now text.now) self.old answer self.new) }
        ensures err { OnErr result (Undone self.old self.new) }
        ensures right { AreRightlyMarked self.old.state.sources.user
            → AreRightlyMarked self.new.state.sources.user }
    {
        if self.takes_rules {
            self.append_rule(key, command, text)?;
            return Ok(Answer::Did);
        }
        match self.note_unread(number) {
            Ok(answer) => Ok(answer),
            Err(refused) => Err(refused),
        }
    }

    /// Adds a rule at the bottom of the user's rules. Everything that allocates is done first.
    #[tactic(auto, using(kb_stream::proofs::Undoing::undoing))]
    fn append_rule(&mut self, key: Keystroke, command: &str, text: &str) -> Result<(), NoMemory>
        ensures ok { OnOk result (self.new ≡ record self.old {
          state = record (with_typed key command.now text.now self.old.state) { pressed = [] };
          trace = self.old.trace ++ (left_lines self.old.state.pressed ++ line.rule_line key ∷ []);
        }) }
        ensures err { OnErr result (Undone self.old self.new) }
        ensures right { AreRightlyMarked self.old.state.sources.user
            → AreRightlyMarked self.new.state.sources.user }
    {
        let key = &key;
        self.note_rule(*key)?;
        let renewed = with_typed(self.alloc, *key, command, text, &self.bindings)?;
        self.chord.leave();
        self.bindings.renew(renewed);
        Ok(())
    }

    /// Adds the lines of a rule that is added, which ends an open chord.
    #[tactic(auto, using(kb_stream::proofs::Undoing::undoing))]
    fn note_rule(&mut self, key: Keystroke) -> Result<(), NoMemory>
        ensures ok { OnOk result (self.new ≡ record self.old {
          trace = self.old.trace ++ (left_lines self.old.state.pressed ++ line.rule_line key ∷ []);
        }) }
        ensures err { OnErr result (Undone self.old self.new) }
    {
        self.note_leaving()?;
        lines::rule_line(&mut self.trace, key)
    }
}

/// The rule of a line, for a place of the user's rules.
fn typed_rule(
    alloc: Global,
    key: Keystroke,
    command: &str,
    text: &str,
    place: usize,
) -> Result<Rule, NoMemory>
    ensures { IfOk result (λ rule. rule ≡ typed_rule key command.now text.now place) }
{
    let command = HashedText::new(Text::from_str(alloc, command)?);
    let text = String::from_str(alloc, text)?;
    let mut chord = Chord::new(alloc);
    chord.push(key);
    Ok(Rule {
        chord,
        command,
        when: None,
        args: Some(Json::from_value(Value::String(text))),
        origin: Origin::User,
        place,
    })
}

/// The number of rules of a list.
#[tactic(auto, using(crate::proofs::RuleLines::as_many))]
fn count_of(user: &RuleList) -> usize
    ensures { result ≡ length user.now.rules }
{
    user.rules().len()
}

/// What the rule of a line at the bottom of the user's rules makes of the search.
#[tactic(auto, using(crate::proofs::RuleLines::typed_right))]
fn with_typed(
    alloc: Global,
    key: Keystroke,
    command: &str,
    text: &str,
    bindings: &Bindings,
) -> Result<Renewed, NoMemory>
    ensures made { IfOk result (λ renewed. IsRenewed bindings.now (with_rule
        (typed_rule key command.now text.now (length bindings.now.user.rules)) bindings.now.user) renewed) }
    ensures right { IfOk result (λ renewed. AreRightlyMarked bindings.now.user
        → AreRightlyMarked renewed.user) }
{
    let user = bindings.user();
    let rule = typed_rule(alloc, key, command, text, count_of(user))?;
    bindings.renewed(alloc, user.with_rule(alloc, rule)?)
}
