//! Handlers: commands implemented in code.
ghost use Rattle.std.specs.Prelude.{◌≡◌, ◌≤◌, length, IfOk};
ghost use Rattle.kb_code.specs.Handler.{HandlerData};
ghost use Rattle.kb_code.specs.Callees.{callees_of};
ghost use Rattle.kb_code.specs.Reachable.{CalleesBelow};

use crate::callees::callees_from;
use crate::code::Code;
use kb_base::{NoMemory, Seq, Text};
use kb_core::Signature;
use std::alloc::Global;
use std::marker::Model;

/// A command implemented in code: its name and signature, the texts and the names of commands to which the
/// code refers by index, and the code. Its declared depth is at least 1, even if it calls no others (our
/// decision). Contracts see the five as a record.
#[derive(Drop)]
pub struct Handler {
    command: Text,
    signature: Signature,
    texts: Seq<Text>,
    calls: Seq<Text>,
    code: Code,
}

impl Model for Handler {
    ghost use Rattle.std.specs.Prelude.{◌≤◌};
    ghost use Rattle.kb_code.specs.Handler.{HandlerData};

    ghost Value = { HandlerData };

    ghost view = { λ h. record {
      command = h.command;
      signature = h.signature;
      texts = h.texts;
      calls = h.calls;
      code = h.code;
    } };

    ghost invariant = { λ h. 1 ≤ h.signature.depth };
}

impl Handler {
    /// A handler whose declared depth is at least 1.
    pub fn new(
        command: Text,
        signature: Signature,
        texts: Seq<Text>,
        calls: Seq<Text>,
        code: Code,
    ) -> Handler
        requires { 1 ≤ signature.depth }
        ensures { result ≡ record {
          command = command;
          signature = signature;
          texts = texts;
          calls = calls;
          code = code;
        } }
    {
        Handler {
            command,
            signature,
            texts,
            calls,
            code,
        }
    }

    /// The name under which the command is started and called.
    pub fn command(&self) -> &Text
        ensures { result.now ≡ self.now.command }
    {
        &self.command
    }

    /// The signature of the command. Its depth is at least 1.
    pub fn signature(&self) -> &Signature
        ensures signature { result.now ≡ self.now.signature }
        ensures depth { 1 ≤ self.now.signature.depth }
    {
        &self.signature
    }

    /// The texts to which the code refers by index.
    pub fn texts(&self) -> &[Text]
        ensures { result.now ≡ self.now.texts }
    {
        self.texts.as_slice()
    }

    /// The names of commands to which the code refers by index.
    pub fn calls(&self) -> &[Text]
        ensures { result.now ≡ self.now.calls }
    {
        self.calls.as_slice()
    }

    /// The code.
    pub fn code(&self) -> &Code
        ensures { result.now ≡ self.now.code }
    {
        &self.code
    }

    /// The callees: the indices in the list of calls that `Call` instructions at reachable places use, one
    /// for each such instruction, in order of place. An index outside the list is left out. Error:
    /// `NoMemory`.
    #[tactic(auto, using(crate::proofs::ReachableLemmas::all_called), unfolding(crate::specs::Callees::callees_of))]
    pub fn callees(&self, alloc: Global) -> Result<Seq<u16>, NoMemory>
        ensures callees { IfOk result (λ callees. callees ≡ callees_of self.now) }
        ensures each { CalleesBelow self.now (length self.now.code) (callees_of self.now) }
    {
        let code = self.code();
        callees_from(alloc, self.calls().len(), code, code.instrs())
    }
}
