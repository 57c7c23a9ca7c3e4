//! Theorems about verified handlers. The functions have no effect; their contracts are the theorems.
ghost use Rattle.kb_soundness.specs.Sound.{NeverStuck, StartsNeverStuck};
ghost use Rattle.kb_soundness.specs.Callees.{VerifiedByCallees};
ghost use Rattle.kb_soundness.specs.Stays.{FreshIsSound, RegisteredStaysSound, DisposedStaysSound};
ghost use Rattle.kb_soundness.specs.Stays.{CodeStaysSound, NoCodeStaysSound};
ghost use Rattle.kb_soundness.specs.Stays.{CodeDisposedStaysSound, CodeExchangedStaysSound};
ghost use Rattle.kb_soundness.specs.Stays.{CodeSwitchedOffStaysSound, CodeSwitchedOnStaysSound};

/// The run of a verified handler with fitting arguments ends without a trap, in each state of the core.
pub fn never_stuck()
    ensures { NeverStuck }
{}

/// If each live handler is verified, the start of each live command with fitting arguments ends without
/// a trap.
pub fn starts_never_stuck()
    ensures { StartsNeverStuck }
{}

/// An accepted handler is verified if each callee in the verifier's list is live and still declares
/// what it declared when the handler was accepted.
pub fn verified_by_callees()
    ensures { VerifiedByCallees }
{}

/// In an empty registry each live handler is verified.
pub fn fresh_is_sound()
    ensures { FreshIsSound }
{}

/// If each live handler is verified, this still holds after a closure is registered.
pub fn registered_stays_sound()
    ensures { RegisteredStaysSound }
{}

/// If each live handler is verified, this still holds after a registration is ended whose native
/// command no live handler calls.
pub fn disposed_stays_sound()
    ensures { DisposedStaysSound }
{}

/// If each live handler is verified, this still holds after verified code is added, unless the registry
/// refuses it.
pub fn code_stays_sound()
    ensures { CodeStaysSound }
{}

/// If each live handler is verified, this still holds after code without any handler is added, verified
/// or not.
pub fn no_code_stays_sound()
    ensures { NoCodeStaysSound }
{}

/// If each live handler is verified, this still holds after the code of an extension is removed, unless
/// the registry refuses it.
pub fn code_disposed_stays_sound()
    ensures { CodeDisposedStaysSound }
{}

/// If each live handler is verified, this still holds after the code of an extension is exchanged for
/// verified code, unless the registry refuses it.
pub fn code_exchanged_stays_sound()
    ensures { CodeExchangedStaysSound }
{}

/// If each live handler is verified, this still holds after the code of an extension is switched off,
/// unless the registry would refuse its removal.
pub fn code_switched_off_stays_sound()
    ensures { CodeSwitchedOffStaysSound }
{}

/// If each live handler is verified, this still holds after the code of an extension is switched on, if it
/// has no missing callee. That its callees were checked is what `Codes::callees` says of all code.
pub fn code_switched_on_stays_sound()
    ensures { CodeSwitchedOnStaysSound }
{}
