//! Rules that were seen, found by their keystrokes and by what else decides whether they start.
use crate::spelling::{Operands, write_clause};
use kb_base::NoMemory;
use kb_resolve::Enablements;
use kb_rules::Rule;
use kb_when::Clause;
use std::alloc::Global;
use std::collections::HashMap;

/// What decides whether a rule starts, besides its keystrokes.
#[derive(Clone, Copy)]
pub(crate) struct Conditions<'a> {
    /// Its clause.
    clause: Option<&'a Clause>,
    /// Its command, if that has an enablement.
    command: Option<&'a str>,
}

impl<'a> Conditions<'a> {
    /// Those of a rule.
    pub(crate) fn of(rule: &'a Rule, enablements: &Enablements) -> Conditions<'a> {
        let command = rule.command.as_str();
        let command = match enablements.of(command) {
            Some(_) => Some(command),
            None => None,
        };
        Conditions {
            clause: rule.when.as_ref(),
            command,
        }
    }

    /// The same without the clause.
    fn without_clause(self) -> Conditions<'a> {
        Conditions {
            clause: None,
            command: self.command,
        }
    }

    /// The same without the command.
    fn without_command(self) -> Conditions<'a> {
        Conditions {
            clause: self.clause,
            command: None,
        }
    }

    /// Keystrokes and conditions as one text.
    fn text(&self, alloc: Global, keys: &str) -> Result<String, NoMemory> {
        let mut text = String::from_str(alloc, keys)?;
        if let Some(clause) = self.clause {
            text.push('\n')?;
            write_clause(alloc, clause, Operands::InOrder, &mut text)?;
        }
        if let Some(command) = self.command {
            text.push('\t')?;
            text.push_str(command)?;
        }
        Ok(text)
    }
}

/// The positions of rules, each under keystrokes and conditions. A later note of both replaces an earlier
/// one.
#[derive(Drop)]
pub(crate) struct Seen {
    alloc: Global,
    positions: HashMap<String, usize>,
}

impl Seen {
    /// No rules.
    pub(crate) fn new(alloc: Global) -> Seen {
        Seen {
            alloc,
            positions: HashMap::new(alloc),
        }
    }

    /// Whether no rule was noted.
    pub(crate) fn is_empty(&self) -> bool {
        self.positions.is_empty()
    }

    /// Notes the position of a rule.
    pub(crate) fn note(
        &mut self,
        keys: &str,
        conditions: Conditions<'_>,
        position: usize,
    ) -> Result<(), NoMemory> {
        let text = conditions.text(self.alloc, keys)?;
        self.positions.insert(text, position)?;
        Ok(())
    }

    /// The position of a rule that may start wherever these conditions hold: one without a clause before one
    /// with the same, and one whose command has no enablement before one of the same command.
    pub(crate) fn covering(
        &self,
        keys: &str,
        conditions: Conditions<'_>,
    ) -> Result<Option<usize>, NoMemory> {
        let found = self.of_each_command(keys, conditions.without_clause())?;
        match (found, conditions.clause) {
            (None, Some(_)) => self.of_each_command(keys, conditions),
            _ => Ok(found),
        }
    }

    /// The position that is noted under these conditions without the command, or else under them.
    fn of_each_command(
        &self,
        keys: &str,
        conditions: Conditions<'_>,
    ) -> Result<Option<usize>, NoMemory> {
        let found = self.at(keys, conditions.without_command())?;
        match (found, conditions.command) {
            (None, Some(_)) => self.at(keys, conditions),
            _ => Ok(found),
        }
    }

    /// The position that is noted under these conditions.
    fn at(&self, keys: &str, conditions: Conditions<'_>) -> Result<Option<usize>, NoMemory> {
        let text = conditions.text(self.alloc, keys)?;
        Ok(self.positions.get(text.as_str()).copied())
    }
}
