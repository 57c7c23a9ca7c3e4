//! Where names are in a list.
ghost use Rattle.std.specs.Prelude.{◌≡◌, ℕ, List, Some, None, OnOk, IfOk, if◌then◌else◌, bytes_eq};
ghost use Rattle.std.specs.Prelude.{map as mapped};
ghost use Rattle.kb_base.specs.TextMap.{filled};
ghost use Rattle.kb_assembly.specs.Index.{number_in, IsIndex};

use kb_base::{NoMemory, Text};
use std::alloc::Global;
use std::collections::HashMap;

/// An item with a name.
pub(crate) trait Named {
    ghost use Rattle.std.specs.Prelude.{◌≡◌, ℕ, List};

    ghost named: { Self → List ℕ };

    /// The name.
    fn name(&self) -> &str
        ensures { result.now ≡ named self.now };
}

impl Named for Text {
    ghost named = { λ text. text };

    fn name(&self) -> &str {
        self.as_str()
    }
}

/// The place of each name in a list: that of the first of its name. So a name is found without a search.
#[derive(Drop)]
pub(crate) struct Index {
    numbers: HashMap<String, usize>,
}

impl Index {
    /// The index of no names.
    #[tactic(auto, unfolding(crate::specs::Index::number_in))]
    fn new(alloc: Global) -> Index
        ensures { (name : List ℕ) → number_in result name ≡ None }
    {
        Index {
            numbers: HashMap::new(alloc),
        }
    }

    /// Sets the place of a name. Error: `NoMemory`.
    #[tactic(auto, unfolding(crate::specs::Index::number_in))]
    fn keep(&mut self, name: Text, place: usize) -> Result<(), NoMemory>
        ensures { OnOk result ((other : List ℕ) → number_in self.new other
            ≡ (if bytes_eq name other then Some place else number_in self.old other)) }
    {
        self.numbers.insert(name.into_string(), place)?;
        Ok(())
    }

    /// Adds the place of a name, unless the index has the name. Error: `NoMemory`.
    fn add(&mut self, alloc: Global, name: &str, place: usize) -> Result<(), NoMemory>
        ensures { OnOk result ((other : List ℕ) → number_in self.new other
            ≡ filled (number_in self.old other) (bytes_eq name.now other) place) }
    {
        match self.place(name) {
            Some(_place) => Ok(()),
            None => {
                let name = Text::from_str(alloc, name)?;
                self.keep(name, place)?;
                Ok(())
            }
        }
    }

    /// The index with the place of one more name. Error: `NoMemory`.
    pub(crate) fn with(self, alloc: Global, name: &str, place: usize) -> Result<Index, NoMemory>
        ensures { IfOk result (λ index. (other : List ℕ) → number_in index other
            ≡ filled (number_in self other) (bytes_eq name.now other) place) }
    {
        let mut index = self;
        index.add(alloc, name, place)?;
        Ok(index)
    }

    /// The place of a name.
    #[tactic(auto, unfolding(crate::specs::Index::number_in))]
    pub(crate) fn place(&self, name: &str) -> Option<usize>
        ensures { result ≡ number_in self.now name.now }
    {
        self.numbers.get(name).copied()
    }
}

/// The index of the names of items. Error: `NoMemory`.
pub(crate) fn index_of<T: Named>(alloc: Global, items: &[T]) -> Result<Index, NoMemory>
    ensures { IfOk result (λ index. IsIndex index (mapped T.named items.now)) }
{
    let mut index = Index::new(alloc);
    for (place, item) in items.iter().enumerate() {
        index.add(alloc, item.name(), place)?;
    }
    Ok(index)
}
