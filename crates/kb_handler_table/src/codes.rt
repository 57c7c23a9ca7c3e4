//! The code of an extension.
ghost use Rattle.std.specs.Prelude.{◌≡◌, option_map};
ghost use Rattle.kb_handler_table.specs.Codes.{raw, checked, CalleesAreChecked};

use kb_base::Seq;
use kb_code::Handler;
use kb_verify::{Callee, VerifiedList};
use std::marker::Model;

/// The handlers of one extension, in file order. A registry takes them and returns them in this form.
/// If they were verified, each has its list of callees, with the signatures at the time of
/// verification. Contracts see both.
#[derive(Drop)]
pub struct Codes {
    handlers: Seq<Handler>,
    callees: Option<Seq<Seq<Callee>>>,
}

impl Model for Codes {
    ghost use Rattle.kb_handler_table.specs.Codes.{CodesData, CalleesAreChecked};

    ghost Value = { CodesData };

    ghost view = { λ c. record { handlers = c.handlers; callees = c.callees } };

    ghost invariant = { λ c. CalleesAreChecked c.handlers c.callees };
}

impl Codes {
    /// Code that was not verified.
    pub fn raw(handlers: Seq<Handler>) -> Codes
        ensures { result ≡ raw handlers }
    {
        Codes {
            handlers,
            callees: None,
        }
    }

    /// Code whose handlers were all verified.
    pub fn checked(verified: VerifiedList) -> Codes
        ensures { result ≡ checked verified }
    {
        let (handlers, callees) = verified.into_parts();
        Codes {
            handlers,
            callees: Some(callees),
        }
    }

    /// The handlers, in file order.
    pub fn handlers(&self) -> &[Handler]
        ensures { result.now ≡ self.now.handlers }
    {
        self.handlers.as_slice()
    }

    /// The callees of each handler, or `None` if the code was not verified. Each handler is accepted
    /// against some table of commands, and its callees have the signatures that this table declares.
    pub fn callees(&self) -> Option<&[Seq<Callee>]>
        ensures callees { option_map (λ callees. callees.now) result ≡ self.now.callees }
        ensures accepted { CalleesAreChecked self.now.handlers self.now.callees }
    {
        match &self.callees {
            Some(callees) => Some(callees.as_slice()),
            None => None,
        }
    }
}
