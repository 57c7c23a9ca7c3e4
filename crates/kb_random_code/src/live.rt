//! The registry in which accepted handlers are started.
use crate::finding::Finding;
use kb_base::{Failure, NoMemory};
use kb_core::{Args, Core, NATIVES, Native, Ran, at_budget};
use kb_handler_table::Codes;
use kb_registry::{HostCommand, Permit, Registry, RegistryFault};
use kb_verify::{Verified, VerifiedList};
use std::alloc::{AllocError, Global};

/// A closure that costs its native's whole budget, so that a start spends as much as it can.
#[derive(Drop)]
pub struct FullBudget {
    native: Native,
}

impl HostCommand for FullBudget {
    ghost stands_for = { λ c. c.native };

    fn native(&self) -> Native {
        self.native
    }

    fn call(&self, core: Core, args: Args, _permit: Permit) -> Ran {
        at_budget(self.native, core, args)
    }
}

/// A registry with a closure for each native.
pub(crate) fn natives(alloc: Global) -> Result<Registry<FullBudget>, NoMemory> {
    let mut registry = Registry::new(alloc, 9)?;
    for native in NATIVES {
        if registry.register(FullBudget { native }).is_err() {
            return Err(AllocError);
        }
    }
    Ok(registry)
}

/// Removes the handlers of a file, each of which is registered as an extension of its own. A handler may call
/// those before it, so the last goes first.
pub(crate) fn clear(registry: &mut Registry<FullBudget>, handlers: u32) {
    for extension in (0..handlers).rev() {
        remove(registry, extension);
    }
}

/// Removes the handlers of an extension, if it has some that no other handler calls.
fn remove(registry: &mut Registry<FullBudget>, extension: u32) {
    if registry.codes(extension).is_some() {
        drop(registry.dispose_code(extension));
    }
}

fn codes_of(alloc: Global, verified: Verified) -> Result<Codes, NoMemory> {
    Ok(Codes::checked(VerifiedList::new(alloc).with(verified)?))
}

fn not_live(failure: Failure<RegistryFault>) -> Failure<Finding> {
    failure.map_fault(|fault| Finding::NotLive {
        number: fault.kind().number(),
    })
}

/// Registers a handler as the only one of an extension, in place of the one before.
pub(crate) fn replace(
    alloc: Global,
    registry: &mut Registry<FullBudget>,
    extension: u32,
    verified: Verified,
) -> Result<(), Failure<Finding>> {
    remove(registry, extension);
    if registry.codes(extension).is_some() {
        let number = RegistryFault::InUse.kind().number();
        return Err(Failure::Fault(Finding::NotLive { number }));
    }
    match registry.register_code(extension, codes_of(alloc, verified)?) {
        Ok(()) => Ok(()),
        Err((_codes, failure)) => Err(not_live(failure)),
    }
}
