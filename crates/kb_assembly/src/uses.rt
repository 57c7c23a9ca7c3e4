//! The texts and calls that a handler's lines use, in order of first use.
ghost use Rattle.std.specs.Prelude.{◌≡◌, IfOk, option_map};
ghost use Rattle.kb_assembly.specs.Uses.{space_in, used_word, is_text, is_call, text_used, call_used};
ghost use Rattle.kb_assembly.specs.Uses.{with_name, grown};

use crate::line::hash_in;
use crate::mnemonic::{Mnemonic, Space};
use crate::table::Table;
use crate::words::Word;
use kb_base::{NoMemory, Seq, Text};
use std::alloc::Global;

/// Where the operand comes from of an instruction whose first word this is.
fn space_in(word: &Word) -> Space
    ensures { result ≡ space_in word.now }
{
    if word.is_quoted {
        return Space::Nothing;
    }
    match Mnemonic::named(word.text.as_str()) {
        Some(mnemonic) => mnemonic.space(),
        None => Space::Nothing,
    }
}

/// The name that a word is, unless it is a number behind a `#`.
fn used_word(word: &Word) -> Option<&str>
    ensures { option_map (λ name. name.now) result ≡ used_word word.now }
{
    match hash_in(word) {
        Some(_) => None,
        None => Some(word.text.as_str()),
    }
}

/// Whether operands of a space are texts.
fn is_text(space: Space) -> bool
    ensures { result ≡ is_text space }
{
    match space {
        Space::Texts | Space::Keys => true,
        _ => false,
    }
}

/// Whether operands of a space are commands.
fn is_call(space: Space) -> bool
    ensures { result ≡ is_call space }
{
    match space {
        Space::Calls => true,
        _ => false,
    }
}

/// The text that a line uses by its name.
fn text_used(words: &[Word]) -> Option<&str>
    ensures { option_map (λ name. name.now) result ≡ text_used words.now }
{
    match words {
        [first, operand] => if is_text(space_in(first)) {
            used_word(operand)
        } else {
            None
        },
        _ => None,
    }
}

/// The command that a line uses by its name.
fn call_used(words: &[Word]) -> Option<&str>
    ensures { option_map (λ name. name.now) result ≡ call_used words.now }
{
    match words {
        [first, operand] => if is_call(space_in(first)) {
            used_word(operand)
        } else {
            None
        },
        _ => None,
    }
}

/// A table with a name, which is added if the table lacks it. Error: `NoMemory`.
fn with_name(alloc: Global, table: Table, name: Option<&str>) -> Result<Table, NoMemory>
    ensures { IfOk result (λ made. made ≡ with_name table (option_map (λ name. name.now) name.entry)) }
{
    match name {
        None => Ok(table),
        Some(name) => {
            if table.place(name).is_some() {
                return Ok(table);
            }
            table.with(alloc, Text::from_str(alloc, name)?)
        }
    }
}

/// The table of texts, and behind them the others that lines use, in order of first use. Error: `NoMemory`.
pub fn texts_used(alloc: Global, texts: Seq<Text>, lines: &[Seq<Word>]) -> Result<Table, NoMemory>
    ensures { IfOk result (λ table. table ≡ grown text_used texts lines.now) }
{
    let mut table = Table::of(alloc, texts)?;
    for words in lines {
        table = with_name(alloc, table, text_used(words.as_slice()))?;
    }
    Ok(table)
}

/// The table of calls, and behind them the others that lines use, in order of first use. Error: `NoMemory`.
pub fn calls_used(alloc: Global, calls: Seq<Text>, lines: &[Seq<Word>]) -> Result<Table, NoMemory>
    ensures { IfOk result (λ table. table ≡ grown call_used calls lines.now) }
{
    let mut table = Table::of(alloc, calls)?;
    for words in lines {
        table = with_name(alloc, table, call_used(words.as_slice()))?;
    }
    Ok(table)
}
