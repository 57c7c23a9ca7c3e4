//! The places of handlers in a list, by name.
ghost use Rattle.std.specs.Prelude.{◌≡◌, ℕ, List, Some, None, OnOk, if◌then◌else◌, bytes_eq};
ghost use Rattle.kb_handler_table.specs.Names.{place_in};

use kb_base::{NoMemory, Text};
use std::alloc::Global;
use std::collections::HashMap;

/// A map from names to places.
#[derive(Drop)]
pub(crate) struct Names {
    places: HashMap<String, usize>,
}

impl Names {
    /// The empty map.
    #[tactic(auto, unfolding(crate::specs::Names::place_in))]
    pub(crate) fn new(alloc: Global) -> Names
        ensures { (name : List ℕ) → place_in result name ≡ None }
    {
        Names {
            places: HashMap::new(alloc),
        }
    }

    /// Sets the place of a name, and replaces an earlier one.
    #[tactic(auto, unfolding(crate::specs::Names::place_in))]
    pub(crate) fn keep(&mut self, name: Text, place: usize) -> Result<(), NoMemory>
        ensures { OnOk result ((other : List ℕ) → place_in self.new other
            ≡ (if bytes_eq name other then Some place else place_in self.old other)) }
    {
        self.places.insert(name.into_string(), place)?;
        Ok(())
    }

    /// The place of a name, or `None`.
    #[tactic(auto, unfolding(crate::specs::Names::place_in))]
    pub(crate) fn place(&self, name: &str) -> Option<usize>
        ensures { result ≡ place_in self.now name.now }
    {
        self.places.get(name).copied()
    }
}
