//! A random handler under test.
use crate::handler_files::{file, object};
use crate::names::command_at;
use crate::paths::highest_cost;
use crate::random::{Draft, Random, Source, random_draft};
use kb_base::NoMemory;
use kb_code::{Handler, Instr};
use kb_golden_code::{handlers_in, run_case};
use kb_verify::Callable;
use std::alloc::Global;

/// The largest budget that a handler may declare.
const BUDGET_LIMIT: u64 = 1_000_000_000;

/// A start that may cost more than this would take too long.
const START_LIMIT: u64 = 20_000;

/// A random handler with its place in its file, the cost of its most expensive path, and the budget under
/// which it is verified next.
#[derive(Drop)]
pub(crate) struct Trial {
    pub place: u16,
    pub draft: Draft,
    pub highest_cost: u64,
    pub budget: u64,
}

// A random budget: the highest cost, one less, or more.
fn random_budget(random: &mut Random, highest_cost: u64) -> u64 {
    let budget = match random.below(4) {
        0 => highest_cost.saturating_sub(1),
        1 => highest_cost.saturating_add(u64::from(random.below(2_000))),
        _ => highest_cost,
    };
    budget.max(1).min(BUDGET_LIMIT)
}

/// A random handler for a place of a file, which may call those before it, with a random budget.
pub(crate) fn random_trial(
    alloc: Global,
    source: &mut Source,
    callable: &Callable,
    place: u16,
) -> Result<Trial, NoMemory> {
    let draft = random_draft(alloc, source, callable, place)?;
    let highest_cost = highest_cost(callable, draft.code.as_slice());
    let budget = random_budget(&mut source.random, highest_cost);
    Ok(Trial {
        place,
        draft,
        highest_cost,
        budget,
    })
}

impl Trial {
    /// The handler's command.
    pub(crate) fn name(&self) -> &'static str {
        command_at(self.place)
    }

    /// The handler as an object of a file.
    pub(crate) fn object(&self, alloc: Global) -> Result<String, NoMemory> {
        object(alloc, self.name(), &self.draft, self.budget)
    }

    /// Whether the handler is started where it is accepted.
    pub(crate) fn is_started(&self) -> bool {
        self.highest_cost <= START_LIMIT
    }

    /// Whether the handler's code has a block.
    pub(crate) fn has_blocks(&self) -> bool {
        let code = self.draft.code.as_slice();
        code.iter().any(|instr| matches!(instr, Instr::Repeat(_)))
    }

    // The file that has the handler alone.
    fn file(&self, alloc: Global) -> Result<String, NoMemory> {
        let object = self.object(alloc)?;
        file(alloc, self.draft.version, object.as_str())
    }

    /// The fault of the handler's file, with its name, or what the file has.
    pub(crate) fn file_fault(&self, alloc: Global) -> Result<String, NoMemory> {
        let text = self.file(alloc)?;
        run_case(alloc, "handlers", text.as_str().as_bytes())
    }

    /// The handler as it is read from its file; `None` where the file is refused.
    pub(crate) fn handler(&self, alloc: Global) -> Result<Option<Handler>, NoMemory> {
        let text = self.file(alloc)?;
        let handlers = handlers_in(alloc, text.as_str().as_bytes());
        Ok(handlers.into_vec().into_iter().next())
    }
}
