//! The native commands of an engine whose host gives no closures.
ghost use Rattle.std.specs.Prelude.{◌≡◌, IfOk, map};
ghost use Rattle.kb_core.specs.Native.{natives};

use kb_base::NoMemory;
use kb_core::{Args, Core, NATIVES, Native, Ran, at_budget, plain};
use kb_registry::{HostCommand, Permit};
use std::alloc::Global;

/// What a native command costs, in instructions.
#[derive(Clone, Copy, Debug, PartialEq, Eq)]
pub enum Cost {
    /// One instruction.
    One,
    /// The whole budget of the command.
    Budget,
}

/// A native command that runs as [`plain`] does, or as [`at_budget`] does.
#[derive(Clone, Copy, Debug, PartialEq, Eq)]
pub struct PlainCommand {
    /// The native command.
    pub native: Native,
    /// What a run costs.
    pub cost: Cost,
}

impl HostCommand for PlainCommand {
    ghost stands_for = { λ c. c.native };

    fn native(&self) -> Native {
        self.native
    }

    fn call(&self, core: Core, args: Args, _permit: Permit) -> Ran {
        match self.cost {
            Cost::One => plain(self.native, core, args),
            Cost::Budget => at_budget(self.native, core, args),
        }
    }
}

/// One command for each native command, in the order of their table. Error: `NoMemory`.
pub fn commands(alloc: Global, cost: Cost) -> Result<Vec<PlainCommand>, NoMemory>
    ensures { IfOk result (λ made. map (λ c. c.native) made.items ≡ natives) }
{
    commands_for(alloc, NATIVES.as_slice(), cost)
}

/// One command for each of these native commands. Error: `NoMemory`.
fn commands_for(
    alloc: Global,
    natives: &[Native],
    cost: Cost,
) -> Result<Vec<PlainCommand>, NoMemory>
    ensures { IfOk result (λ made. map (λ c. c.native) made.items ≡ natives.now) }
{
    let mut made = Vec::with_capacity(alloc, natives.len())?;
    for native in natives {
        made.push(PlainCommand {
            native: *native,
            cost,
        })?;
    }
    Ok(made)
}
