//! The closures of the sessions' host.
ghost use Rattle.std.specs.Prelude.{◌≡◌};
ghost use Rattle.std.specs.Result.{result_map_both};

use kb_base::NoMemory;
use kb_core::{Args, Core, NATIVES, Native, Ran, at_budget, plain};
use kb_registry::{HostCommand, Permit};
use std::alloc::{AllocError, Global};

/// What the closures of a host answer as their cost.
#[derive(Clone, Copy, Debug, PartialEq, Eq)]
pub enum Cost {
    Nothing,
    One,
    Budget,
}

/// A closure that does what its native command does, or that is refused memory in each call.
#[derive(Drop)]
pub struct Command {
    pub native: Native,
    pub cost: Cost,
    pub is_refused: bool,
}

impl HostCommand for Command {
    ghost stands_for = { λ c. c.native };

    fn native(&self) -> Native {
        self.native
    }

    fn call(&self, core: Core, args: Args, _permit: Permit) -> Ran {
        if self.is_refused {
            return Ran {
                core,
                cost: Err(AllocError),
            };
        }
        match self.cost {
            Cost::Nothing => for_nothing(plain(self.native, core, args)),
            Cost::One => plain(self.native, core, args),
            Cost::Budget => at_budget(self.native, core, args),
        }
    }
}

/// The same run at cost 0.
fn for_nothing(ran: Ran) -> Ran
    ensures core { result.core ≡ ran.core }
    ensures cost { result.cost ≡ result_map_both (λ _. 0) (λ refused. refused) ran.cost }
{
    let Ran { core, cost } = ran;
    let cost = match cost {
        Ok(_) => Ok(0),
        Err(refused) => Err(refused),
    };
    Ran { core, cost }
}

fn usual_command(native: Native, cost: Cost) -> Command {
    Command {
        native,
        cost,
        is_refused: false,
    }
}

/// A closure for each native command, in the order of `NATIVES`.
pub(crate) fn all_commands(alloc: Global, cost: Cost) -> Result<Vec<Command>, NoMemory> {
    let mut commands = Vec::new(alloc);
    for native in NATIVES {
        commands
            .push(usual_command(native, cost))
            .map_err(NoMemory::from)?;
    }
    Ok(commands)
}

/// A closure for each word that is the identifier of a native command.
pub(crate) fn commands_named(
    alloc: Global,
    words: &str,
    cost: Cost,
) -> Result<Vec<Command>, NoMemory> {
    let mut commands = Vec::new(alloc);
    for word in words.split(' ') {
        if let Some(native) = Native::named(word) {
            commands
                .push(usual_command(native, cost))
                .map_err(NoMemory::from)?;
        }
    }
    Ok(commands)
}
