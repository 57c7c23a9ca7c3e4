//! The closures of the test's host.
use kb_base::NoMemory;
use kb_core::{Args, Core, NATIVES, Native, Ran, plain};
use kb_registry::{HostCommand, Permit};
use std::alloc::Global;

/// Does what its native command does, at cost 1.
#[derive(Drop)]
pub(crate) struct Plain {
    pub(crate) native: Native,
}

impl HostCommand for Plain {
    ghost stands_for = { λ c. c.native };

    fn native(&self) -> Native {
        self.native
    }

    fn call(&self, core: Core, args: Args, _permit: Permit) -> Ran {
        plain(self.native, core, args)
    }
}

/// A closure for each native command.
pub(crate) fn all(alloc: Global) -> Result<Vec<Plain>, NoMemory> {
    let mut commands = Vec::new(alloc);
    for native in NATIVES {
        commands.push(Plain { native }).map_err(NoMemory::from)?;
    }
    Ok(commands)
}
