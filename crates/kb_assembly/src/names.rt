//! The names of a handler's texts, calls, parameters and labels, and the numbers of its operands.
ghost use Rattle.std.specs.Prelude.{◌≡◌, IfOk, option_map, is_some};
ghost use Rattle.std.specs.List.{list_all};
ghost use Rattle.kb_assembly.specs.Words.{is_plain};
ghost use Rattle.kb_assembly.specs.Names.{label_named, label_name, after_hash, is_bare, number_in, wide_in};
ghost use Rattle.kb_assembly.specs.Names.{found, lack, short, name_in, chosen, needs_quotes};

use crate::fault::Mistake;
use crate::mnemonic::Space;
use crate::table::{Labels, Table};
use crate::words::is_plain;
use itoa::Buffer;
use kb_base::NoMemory;
use std::alloc::Global;

/// What the operands of a handler's instructions are called.
#[derive(Drop)]
pub struct Names {
    pub texts: Table,
    pub calls: Table,
    pub params: Table,
    pub labels: Labels,
}

/// The number that a text spells, without leading zeros.
pub(crate) fn number_in(text: &str) -> Option<u16>
    ensures { result ≡ number_in text.now }
{
    match text.parse::<u16>() {
        Ok(number) => {
            let mut buffer = Buffer::new();
            if buffer.format(number) == text {
                Some(number)
            } else {
                None
            }
        }
        Err(_) => None,
    }
}

/// The number below 2^32 that a text spells, without leading zeros.
pub(crate) fn wide_in(text: &str) -> Option<u32>
    ensures { result ≡ wide_in text.now }
{
    match text.parse::<u32>() {
        Ok(number) => {
            let mut buffer = Buffer::new();
            if buffer.format(number) == text {
                Some(number)
            } else {
                None
            }
        }
        Err(_) => None,
    }
}

/// What is behind a `#`.
pub(crate) fn after_hash(text: &str) -> Option<&str>
    ensures { option_map (λ rest. rest.now) result ≡ after_hash text.now }
{
    text.strip_prefix('#')
}

/// Whether a name may stand without quotes.
pub(crate) fn is_bare(name: &str) -> bool
    ensures { result ≡ is_bare name.now }
{
    !name.is_empty() && is_plain_text(name) && !has_hash(name)
}

/// Whether each byte of a text is plain.
fn is_plain_text(text: &str) -> bool
    ensures { result ≡ list_all is_plain text.now }
{
    text.as_bytes().iter().all(|byte| is_plain(*byte))
}

/// Whether a text begins with a `#`.
fn has_hash(text: &str) -> bool
    ensures { result ≡ is_some (after_hash text.now) }
{
    match after_hash(text) {
        Some(_) => true,
        None => false,
    }
}

/// Whether the texts of a space stand between quotes.
pub(crate) fn needs_quotes(space: Space) -> bool
    ensures { result ≡ needs_quotes space }
{
    match space {
        Space::Texts => true,
        _ => false,
    }
}

/// A number of 16 bits, if it is one.
fn short(number: Option<usize>) -> Option<u16>
    ensures { result ≡ short number }
{
    match number {
        Some(number) => {
            if number < 65_536 {
                Some(number as u16)
            } else {
                None
            }
        }
        None => None,
    }
}

/// The place of the label with a name.
fn label_place(labels: &Labels, name: &str) -> Option<usize>
    ensures { result ≡ option_map (λ label. label.place) (label_named labels.now name.now) }
{
    match labels.named(name) {
        Some(label) => Some(label.place),
        None => None,
    }
}

/// The name of the label that is made for a place, if there is one. Error: `NoMemory`.
fn made_label(alloc: Global, labels: &Labels, place: u16) -> Result<Option<&str>, NoMemory>
    ensures { IfOk result (λ name. option_map (λ name. name.now) name
        ≡ option_map (λ label. label.name) (label_named labels.now (label_name place))) }
{
    let made = format!(in alloc; "L{place}")?;
    match labels.named(made.as_str()) {
        Some(label) => Ok(Some(label.name.as_str())),
        None => Ok(None),
    }
}

impl Names {
    /// The number of a name.
    fn place(&self, space: Space, name: &str) -> Option<usize>
        ensures { result ≡ found self.now space name.now }
    {
        match space {
            Space::Texts | Space::Keys => self.texts.place(name),
            Space::Calls => self.calls.place(name),
            Space::Params => self.params.place(name),
            Space::Labels => label_place(&self.labels, name),
            _ => None,
        }
    }

    /// The number of the operand that a name stands for.
    pub(crate) fn found(&self, space: Space, name: &str) -> Option<u16>
        ensures { result ≡ short (found self.now space name.now) }
    {
        short(self.place(space, name))
    }

    /// Why a name stands for no operand.
    pub(crate) fn lack(&self, space: Space, name: &str) -> Mistake
        ensures { result ≡ lack (found self.now space name.now) }
    {
        match self.place(space, name) {
            Some(_) => Mistake::TooMany,
            None => Mistake::UnknownName,
        }
    }

    /// A name at an operand's number. Error: `NoMemory`.
    fn name_in(&self, alloc: Global, space: Space, number: u16) -> Result<Option<&str>, NoMemory>
        ensures { IfOk result (λ name. option_map (λ name. name.now) name ≡ name_in self.now space number) }
    {
        let place = usize::from(number);
        match space {
            Space::Texts | Space::Keys => Ok(self.texts.at(place)),
            Space::Calls => Ok(self.calls.at(place)),
            Space::Params => Ok(self.params.at(place)),
            Space::Labels => made_label(alloc, &self.labels, number),
            _ => Ok(None),
        }
    }

    /// A name that stands for an operand's number, if there is one. Error: `NoMemory`.
    pub(crate) fn chosen(
        &self,
        alloc: Global,
        space: Space,
        number: u16,
    ) -> Result<Option<&str>, NoMemory>
        ensures { IfOk result (λ name. option_map (λ name. name.now) name ≡ chosen self.now space number) }
    {
        match self.name_in(alloc, space, number)? {
            Some(name) => Ok(if self.found(space, name) == Some(number) {
                Some(name)
            } else {
                None
            }),
            None => Ok(None),
        }
    }
}
