//! Contributed commands by their identifiers.
ghost use Rattle.std.specs.Prelude.{◌≡◌, [], IfOk, OnOk, length, slice_get, option_map, option_copied};
ghost use Rattle.kb_manifest.specs.CommandTable.{command_named, firsts_behind, with_first};

use crate::command::Command;
use indexmap::IndexMap;
use kb_base::{NoMemory, Seq, Text};
use std::alloc::Global;
use std::marker::Model;

/// A command, by its identifier.
#[derive(Debug, Drop)]
pub struct Named {
    /// The identifier of the command, which need not exist.
    pub name: Text,
    /// What is contributed of it.
    pub command: Command,
}

/// The commands that a manifest contributes, each identifier once, in the order in which the manifest
/// names them first. The first entry of an identifier counts, whole (our decision).
#[derive(Drop)]
pub struct CommandTable {
    table: IndexMap<String, Command>,
}

impl Model for CommandTable {
    ghost use Rattle.std.specs.Prelude.{List};
    ghost use Rattle.std.specs.Coded.{codes};
    ghost use Rattle.kb_manifest.specs.declared.command_table.Named.{Named};
    ghost use Rattle.kb_manifest.specs.contracts.command_table.Named as named;
    ghost use Rattle.kb_manifest.specs.CommandTable.{by_name};

    ghost Value = { List Named };

    ghost coded = { Prim.hlevel (codes, named.the_row.coded) };

    ghost view = { λ t. by_name t.table.entries };
}

impl CommandTable {
    /// The table without commands.
    fn new(alloc: Global) -> CommandTable
        ensures { result ≡ [] }
    {
        CommandTable {
            table: IndexMap::new(alloc),
        }
    }

    /// The table of these entries.
    pub(crate) fn from_entries(alloc: Global, entries: Seq<Named>) -> Result<CommandTable, NoMemory>
        ensures { IfOk result (λ table. table ≡ firsts_behind [] entries) }
    {
        let mut table = CommandTable::new(alloc);
        for named in entries.into_vec() {
            table.add(named)?;
        }
        Ok(table)
    }

    /// How many commands there are.
    pub fn len(&self) -> usize
        ensures { result ≡ length self.now }
    {
        self.table.len()
    }

    /// The command at a number in the order, from 0, by its identifier.
    pub fn at(&self, number: usize) -> Option<(&str, &Command)>
        ensures { option_map (λ e. record { name = e.0.now; command = e.1.now }) result
            ≡ slice_get self.now number }
    {
        match self.table.get_index(number) {
            Some((name, command)) => Some((name.as_str(), command)),
            None => None,
        }
    }

    /// The command of an identifier.
    pub fn get(&self, name: &str) -> Option<&Command>
        ensures { option_copied result ≡ command_named name.now self.now }
    {
        self.table.get(name)
    }

    /// Adds a command behind the others, unless its identifier is there.
    fn add(&mut self, named: Named) -> Result<(), NoMemory>
        ensures { OnOk result (self.new ≡ with_first named self.old) }
    {
        if self.table.contains_key(named.name.as_str()) {
            drop(named);
            return Ok(());
        }
        let Named { name, command } = named;
        self.table.insert(name.into_string(), command)?;
        Ok(())
    }
}
