//! Theorems about the definitions, independent of any run.
ghost use Rattle.std.specs.Prelude.{◌≡◌, ℕ, List, Some, slice_get};
ghost use Rattle.kb_code.specs.Handler.{HandlerData};
ghost use Rattle.kb_core.specs.Declaration.{Declaration};
ghost use Rattle.kb_verify.specs.Accepted.{AreCallees, HasCallee, IsAccepted, IsCallee};
ghost use Rattle.kb_verify.specs.Accepted.{IsNamed, IsSwapped};
ghost use Rattle.kb_verify.specs.Callable.{Commands};
ghost use Rattle.kb_verify.specs.Faults.{IsDecided, IsFault, IsSameFault};
ghost use Rattle.kb_verify.specs.declared.callees.Callee.{Callee};
ghost use Rattle.kb_verify.specs.declared.fault.VerifyFault.{VerifyFault};

/// A handler has at most one fault: all its faults have the same number and the same place.
pub fn one_fault()
    ensures { (commands : Commands) (h : HandlerData) (a b : VerifyFault) →
        IsFault commands h a → IsFault commands h b → IsSameFault a b }
{}

/// Each handler is accepted or has a fault, whatever commands it may call.
pub fn accepted_or_faulty()
    ensures { (commands : Commands) (h : HandlerData) → IsDecided commands h }
{}

/// Each reachable call of a handler has an entry in its list of callees.
pub fn each_callee_is_listed()
    ensures { (commands : Commands) (h : HandlerData) (callees : List Callee) →
        AreCallees commands h callees →
        (place index : ℕ) (d : Declaration) → IsCallee commands h place index d → HasCallee callees index d }
{}

/// Each callee has a name in the handler's list of calls, and the signature that the command of that
/// name declares.
pub fn each_callee_is_named()
    ensures { (commands : Commands) (h : HandlerData) (callees : List Callee) →
        AreCallees commands h callees →
        (k : ℕ) (c : Callee) → slice_get callees k ≡ Some c → IsNamed commands h c }
{}

/// Acceptance depends only on the signatures of the callees. A handler that is accepted with one table
/// of commands is also accepted with any other table that declares the same signatures for its callees.
pub fn accepted_by_its_callees()
    ensures { (commands other : Commands) (h : HandlerData) → IsAccepted commands h →
        IsSwapped commands other h → IsAccepted other h }
{}
