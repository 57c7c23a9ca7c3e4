//! A list of handlers that the verifier accepted.
ghost use Rattle.std.specs.Prelude.{◌≡◌, ◌++◌, ◌∷◌, [], IfOk, map};
ghost use Rattle.kb_verify.specs.Accepted.{EachChecked};

use crate::callees::Callee;
use crate::verified::Verified;
use kb_base::{NoMemory, Seq};
use kb_code::Handler;
use std::alloc::Global;
use std::marker::Model;

/// Handlers that the verifier accepted, each with its callees. Contracts see the list of both.
#[derive(Drop)]
pub struct VerifiedList {
    handlers: Seq<Handler>,
    callees: Seq<Seq<Callee>>,
}

impl Model for VerifiedList {
    ghost use Rattle.std.specs.Prelude.{List};
    ghost use Rattle.kb_verify.specs.Accepted.{CheckedHandler, EachChecked, together};

    ghost Value = { List CheckedHandler };

    ghost view = { λ l. together l.handlers l.callees };

    ghost invariant = { λ l. EachChecked l.handlers l.callees };
}

impl VerifiedList {
    /// The empty list.
    pub fn new(alloc: Global) -> VerifiedList
        ensures { result ≡ [] }
    {
        VerifiedList {
            handlers: Seq::new(alloc),
            callees: Seq::new(alloc),
        }
    }

    /// The list with one more handler at its end. On refused memory all handlers are dropped.
    #[tactic(auto, using(crate::proofs::VerifiedLemmas::adding))]
    pub fn with(self, verified: Verified) -> Result<VerifiedList, NoMemory>
        ensures { IfOk result (λ list. list ≡ self ++ verified ∷ []) }
    {
        let VerifiedList {
            mut handlers,
            mut callees,
        } = self;
        let (handler, its) = verified.into_parts();
        handlers.push(handler)?;
        callees.push(its)?;
        Ok(VerifiedList { handlers, callees })
    }

    /// The handlers and the callees of each, by value.
    #[tactic(auto, using(crate::proofs::VerifiedLemmas::listing))]
    pub fn into_parts(self) -> (Seq<Handler>, Seq<Seq<Callee>>)
        ensures handlers { result.0 ≡ map (λ v. v.handler) self }
        ensures callees { result.1 ≡ map (λ v. v.callees) self }
        ensures accepted { EachChecked result.0 result.1 }
    {
        let VerifiedList { handlers, callees } = self;
        (handlers, callees)
    }
}
