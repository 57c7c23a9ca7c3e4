//! A handler's texts, and its labels, each with an index of their names.
ghost use Rattle.std.specs.Prelude.{◌≡◌, ◌∷◌, ◌++◌, [], IfOk, option_map, slice_get};
ghost use Rattle.kb_assembly.specs.Places.{place_in};
ghost use Rattle.kb_assembly.specs.Names.{label_named};

use crate::index::{Index, Named, index_of};
use kb_base::{NoMemory, Seq, Text};
use std::alloc::Global;
use std::marker::Model;

/// Texts that operands refer to by their place, with an index. Contracts see the texts.
#[derive(Drop)]
pub struct Table {
    texts: Seq<Text>,
    index: Index,
}

impl Model for Table {
    ghost use Rattle.std.specs.Prelude.{ℕ, List};
    ghost use Rattle.kb_assembly.specs.Index.{IsIndex};

    ghost Value = { List (List ℕ) };

    ghost view = { λ t. t.texts };

    ghost invariant = { λ t. IsIndex t.index t.texts };
}

impl Table {
    /// A table of these texts. Error: `NoMemory`.
    pub fn of(alloc: Global, texts: Seq<Text>) -> Result<Table, NoMemory>
        ensures { IfOk result (λ table. table ≡ texts) }
    {
        let index = index_of(alloc, texts.as_slice())?;
        Ok(Table { texts, index })
    }

    /// The table with one more text at its end. Error: `NoMemory`.
    pub(crate) fn with(self, alloc: Global, text: Text) -> Result<Table, NoMemory>
        ensures { IfOk result (λ table. table ≡ self ++ text ∷ []) }
    {
        let Table { texts, index } = self;
        let mut texts = texts;
        let index = index.with(alloc, text.as_str(), texts.len())?;
        texts.push(text)?;
        Ok(Table { texts, index })
    }

    /// The place of the first text that is equal to a name.
    pub(crate) fn place(&self, name: &str) -> Option<usize>
        ensures { result ≡ place_in 0 self.now name.now }
    {
        self.index.place(name)
    }

    /// The text at a place.
    pub(crate) fn at(&self, place: usize) -> Option<&str>
        ensures { option_map (λ text. text.now) result ≡ slice_get self.now place }
    {
        match self.texts.as_slice().get(place) {
            Some(text) => Some(text.as_str()),
            None => None,
        }
    }

    /// The texts, without the index.
    pub(crate) fn into_texts(self) -> Seq<Text>
        ensures { result ≡ self }
    {
        let Table { texts, .. } = self;
        texts
    }
}

/// A label of a handler's lines.
#[derive(Debug, Drop)]
pub struct Label {
    /// Its name.
    pub name: Text,
    /// The place of the instruction behind it.
    pub place: usize,
    /// The index of its line.
    pub line: usize,
}

impl Named for Label {
    ghost named = { λ label. label.name };

    fn name(&self) -> &str {
        self.name.as_str()
    }
}

/// The labels of a handler's lines, with an index. Contracts see the labels.
#[derive(Drop)]
pub struct Labels {
    labels: Seq<Label>,
    index: Index,
}

impl Model for Labels {
    ghost use Rattle.std.specs.Prelude.{List, map};
    ghost use Rattle.kb_assembly.specs.declared.table.Label.{Label as TheLabel};
    ghost use Rattle.kb_assembly.specs.Index.{IsIndex};

    ghost Value = { List TheLabel };

    ghost view = { λ l. l.labels };

    ghost invariant = { λ l. IsIndex l.index (map (λ label. label.name) l.labels) };
}

/// The label at an index.
fn label_at(labels: &[Label], index: usize) -> Option<&Label>
    ensures { option_map (λ label. label.now) result ≡ slice_get labels.now index }
{
    match labels.get(index) {
        Some(label) => Some(label),
        None => None,
    }
}

impl Labels {
    /// These labels. Error: `NoMemory`.
    pub fn of(alloc: Global, labels: Seq<Label>) -> Result<Labels, NoMemory>
        ensures { IfOk result (λ made. made ≡ labels) }
    {
        let index = index_of(alloc, labels.as_slice())?;
        Ok(Labels { labels, index })
    }

    /// The first label with a name.
    pub(crate) fn named(&self, name: &str) -> Option<&Label>
        ensures { option_map (λ label. label.now) result ≡ label_named self.now name.now }
    {
        match self.index.place(name) {
            Some(place) => label_at(self.labels.as_slice(), place),
            None => None,
        }
    }
}
