//! The folded words of a text, and whether the words of a query find those of a label.
ghost use Rattle.std.specs.Prelude.{◌≡◌, ◌++◌, [], IfOk, OnOk, nat_eq};
ghost use Rattle.std.specs.List.{list_any, starts_with};
ghost use Rattle.kb_palette.specs.Words.{closed, words, folded_words, matches};

use caseless::default_case_fold_str;
use kb_base::{NoMemory, Text};
use std::alloc::Global;
use std::mem;

/// The words of a text after full case folding.
pub(crate) fn folded_words(alloc: Global, text: &str) -> Result<Vec<Text>, NoMemory>
    ensures { IfOk result (λ made. made.items ≡ folded_words text.now) }
{
    let folded = default_case_fold_str(alloc, text)?;
    words(alloc, folded.as_str())
}

/// The parts of a text between white space, without empty ones.
fn words(alloc: Global, text: &str) -> Result<Vec<Text>, NoMemory>
    ensures { IfOk result (λ made. made.items ≡ words text.now) }
{
    let mut words = Vec::new(alloc);
    let mut word = Text::new(alloc);
    for c in text.chars() {
        if !c.is_whitespace() {
            word.push(c)?;
            continue;
        }
        let ended = mem::replace(&mut word, Text::new(alloc));
        close(&mut words, ended)?;
    }
    close(&mut words, word)?;
    Ok(words)
}

/// Adds a word, unless it is empty.
fn close(words: &mut Vec<Text>, word: Text) -> Result<(), NoMemory>
    ensures { OnOk result (words.new.items ≡ words.old.items ++ closed word []) }
{
    if !word.as_str().is_empty() {
        words.push(word)?;
    }
    Ok(())
}

/// Whether each word of the query begins a word of the label.
pub(crate) fn matches(query: &[Text], label: &[Text]) -> bool
    ensures { result ≡ matches query.now label.now }
{
    query.iter().all(|begin| begins_one(begin.as_str(), label))
}

/// Whether a text begins a word of the label.
fn begins_one(begin: &str, label: &[Text]) -> bool
    ensures { result ≡ list_any (λ word. starts_with nat_eq word begin.now) label.now }
{
    label.iter().any(|word| word.as_str().as_bytes().starts_with(begin.as_bytes()))
}
