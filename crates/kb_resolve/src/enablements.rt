//! The enablements of commands.
ghost use Rattle.std.specs.Prelude.{◌≡◌, ℕ, List, IfOk, OnOk, option_map, bytes_eq};
ghost use Rattle.std.specs.FinMap.{get};
ghost use Rattle.kb_base.specs.TextMap.{filled};
ghost use Rattle.kb_resolve.specs.Enablements.{enablement_in, enablement_of};

use kb_base::{HashedMap, HashedText, NoMemory, Text};
use kb_when::SharedClause;
use std::alloc::Global;

/// A command that an extension contributes, with its enablement.
#[derive(Debug, Drop)]
pub struct Contribution {
    /// The identifier of the command. No such command needs to exist.
    pub command: Text,
    /// The condition under which the command may start, if there is one.
    pub enablement: Option<SharedClause>,
}

/// The enablements of contributed commands. Only the first contribution of an identifier counts: if it
/// has no enablement, that of a later one is ignored (our decision). A command without a contribution
/// is always enabled. A rule keeps the hash of its command, so that a search hashes no text.
#[derive(Drop)]
pub struct Enablements {
    table: HashedMap<Option<SharedClause>>,
}

/// Adds a contribution, unless an earlier one has its command. Error: `NoMemory`.
#[tactic(auto, using(crate::proofs::EnablementLemmas::added, crate::proofs::EnablementLemmas::kept))]
fn add_first(
    alloc: Global,
    table: &mut HashedMap<Option<SharedClause>>,
    contribution: Contribution,
) -> Result<(), NoMemory>
    ensures { OnOk result ((command : List ℕ) → get table.new command
        ≡ filled (get table.old command) (bytes_eq command contribution.command) contribution.enablement) }
{
    let Contribution {
        command,
        enablement,
    } = contribution;
    if table.contains_key(command.as_str()) {
        return Ok(());
    }
    table.set(alloc, command.as_str(), enablement, 0)
}

impl Enablements {
    /// The enablements of contributions, which are in load order. Error: `NoMemory`.
    #[tactic(auto, unfolding(crate::specs::Enablements::enablement_in), using(crate::proofs::EnablementLemmas::none_yet))]
    pub fn new(alloc: Global, contributions: Vec<Contribution>) -> Result<Enablements, NoMemory>
        ensures { IfOk result (λ made. enablement_in made ≡ enablement_of contributions.items) }
    {
        let mut table: HashedMap<Option<SharedClause>> = HashedMap::new(alloc)?;
        for contribution in contributions {
            add_first(alloc, &mut table, contribution)?;
        }
        Ok(Enablements { table })
    }

    /// The enablement of a command, or `None` if it has none.
    #[tactic(auto, unfolding(crate::specs::Enablements::enablement_in))]
    pub fn of(&self, command: &str) -> Option<&SharedClause>
        ensures { option_map (λ clause. clause.now) result ≡ enablement_in self.now command.now }
    {
        let (enablement, _) = self.table.get_text(command)?;
        enablement.as_ref()
    }

    /// The same for a command with its hash.
    #[tactic(auto, unfolding(crate::specs::Enablements::enablement_in))]
    pub fn of_hashed(&self, command: &HashedText) -> Option<&SharedClause>
        ensures { option_map (λ clause. clause.now) result ≡ enablement_in self.now command.now }
    {
        let (enablement, _) = self.table.get(command)?;
        enablement.as_ref()
    }
}
