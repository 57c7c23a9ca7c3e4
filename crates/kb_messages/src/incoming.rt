//! A stream of messages, in whatever pieces it arrives.
ghost use Rattle.std.specs.Prelude.{◌≡◌, ◌++◌, [], OnOk, OnErr, IfOk, IsErr};
ghost use Rattle.kb_messages.specs.Reading.{taken, IsMessage};

use crate::fault::FrameFault;
use crate::front::{Front, front_of};
use kb_base::{NoMemory, Seq};
use std::alloc::Global;
use std::marker::Model;

/// What came on a stream.
#[derive(Debug, Drop)]
pub enum Received {
    /// The body of a message.
    Message(Seq<u8>),
    /// Bytes that are no message.
    Fault(FrameFault),
}

/// The bytes of a stream that came and aren't used yet. Contracts see them.
#[derive(Drop)]
pub struct Incoming {
    held: Vec<u8>,
    alloc: Global,
}

impl Model for Incoming {
    ghost use Rattle.std.specs.Prelude.{ℕ, List};

    ghost Value = { List ℕ };

    ghost view = { λ i. i.held.items };
}

impl Incoming {
    /// The beginning of a stream.
    pub fn new(alloc: Global) -> Incoming
        ensures { result ≡ [] }
    {
        Incoming {
            held: Vec::new(alloc),
            alloc,
        }
    }

    /// Adds the next piece of the stream. Error: `NoMemory`; nothing was added then.
    pub fn feed(&mut self, piece: &[u8]) -> Result<(), NoMemory>
        ensures ok { OnOk result (self.new ≡ self.old ++ piece.now) }
        ensures err { OnErr result (self.new ≡ self.old) }
    {
        self.held.extend_from_slice(piece)
    }

    /// Takes the next message, or the next bytes that are none, or `None` until more of the stream came.
    /// Error: `NoMemory`, if there is a message; it can be taken later.
    pub fn next(&mut self) -> Result<Option<Received>, NoMemory>
        ensures ok { IfOk result
            (λ received. record { received = received; held = self.new } ≡ taken self.old) }
        ensures err { OnErr result (self.new ≡ self.old) }
        ensures refused { IsErr result → IsMessage self.old }
    {
        match front_of(self.held.as_slice()) {
            Front::Wait => Ok(None),
            Front::Body(from, to) => {
                let body = Vec::from_slice(self.alloc, &self.held[from..to])?;
                self.held.drain(..to);
                Ok(Some(Received::Message(Seq::from_vec(body))))
            }
            Front::Lost(fault, to) => {
                self.held.drain(..to);
                Ok(Some(Received::Fault(fault)))
            }
        }
    }
}
