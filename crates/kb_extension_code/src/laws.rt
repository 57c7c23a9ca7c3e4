//! Theorems about extensions that are loaded, enabled, disabled and updated. The functions have no effect;
//! their contracts are the theorems.
ghost use Rattle.kb_extension_code.specs.Lacking.{NeverLacksCallees};
ghost use Rattle.kb_extension_code.specs.Stays.{DisabledStaysSettled, EnabledStaysSettled};
ghost use Rattle.kb_extension_code.specs.Stays.{LoadedIsSettled, UpdatedStaysSettled};
ghost use Rattle.kb_extension_code.specs.Stays.{DisposedStaysSettled, RegisteredStaysSettled};

/// After a load whose handlers are verified, with all extensions enabled, no live handler traps, and the
/// session is settled.
pub fn loaded_is_settled()
    ensures { LoadedIsSettled }
{}

/// After an extension is enabled, no live handler traps, and the session stays settled.
pub fn enabled_stays_settled()
    ensures { EnabledStaysSettled }
{}

/// After an extension is disabled, no live handler traps, and the session stays settled.
pub fn disabled_stays_settled()
    ensures { DisabledStaysSettled }
{}

/// After an extension got other handlers, no live handler traps, and the session stays settled.
pub fn updated_stays_settled()
    ensures { UpdatedStaysSettled }
{}

/// After a closure is registered, no live handler traps, and the session stays settled.
pub fn registered_stays_settled()
    ensures { RegisteredStaysSettled }
{}

/// After a registration is ended that isn't refused, no live handler traps, and the session stays settled.
pub fn disposed_stays_settled()
    ensures { DisposedStaysSettled }
{}

/// No load is refused because a callee of a verified handler isn't live (74). The callees of an
/// extension's handlers are native commands, handlers of its dependencies, or its own handlers: they
/// are live by then, or are added together with the handler, with the same declarations.
pub fn never_lacks_callees()
    ensures { NeverLacksCallees }
{}
