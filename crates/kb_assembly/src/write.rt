//! The lines of a handler.
ghost use Rattle.std.specs.Prelude.{◌≡◌, ◌++◌, ◌∷◌, [], OnOk, IfOk, map, decimal, true};
ghost use Rattle.kb_assembly.specs.File.{has_code};
ghost use Rattle.kb_assembly.specs.Line.{bare};
ghost use Rattle.kb_assembly.specs.Write.{name_word, handler_line, param_line, text_line, call_line};
ghost use Rattle.kb_assembly.specs.Write.{limit_lines, code_lines, draft_lines};

use crate::code::lines_of;
use crate::draft::{Draft, copied, names_of};
use crate::head::{Directive, kind_name};
use crate::line::written_name;
use crate::mnemonic::Space;
use crate::words::Word;
use kb_base::{NoMemory, Seq, Text};
use kb_core::Param;
use std::alloc::Global;

/// A word without quotes. Error: `NoMemory`.
fn bare_word(alloc: Global, text: &str) -> Result<Word, NoMemory>
    ensures { IfOk result (λ word. word ≡ bare text.now) }
{
    Ok(Word {
        is_quoted: false,
        text: Text::from_str(alloc, text)?,
    })
}

/// A word between quotes. Error: `NoMemory`.
fn quoted_word(alloc: Global, text: &str) -> Result<Word, NoMemory>
    ensures { IfOk result (λ word. word ≡ record { is_quoted = true; text = text.now }) }
{
    Ok(Word {
        is_quoted: true,
        text: Text::from_str(alloc, text)?,
    })
}

/// The word of a name, between quotes where it needs them. Error: `NoMemory`.
fn name_word(alloc: Global, name: &str) -> Result<Word, NoMemory>
    ensures { IfOk result (λ word. word ≡ name_word name.now) }
{
    written_name(alloc, Space::Calls, name)
}

/// A line of two words. Error: `NoMemory`.
fn two_words(alloc: Global, first: &str, second: Word) -> Result<Seq<Word>, NoMemory>
    ensures { IfOk result (λ words. words ≡ bare first.now ∷ second ∷ []) }
{
    let mut words = Seq::new(alloc);
    words.push(bare_word(alloc, first)?)?;
    words.push(second)?;
    Ok(words)
}

/// The line that begins a handler. Error: `NoMemory`.
fn handler_line(alloc: Global, command: &str) -> Result<Seq<Word>, NoMemory>
    ensures { IfOk result (λ words. words ≡ handler_line command.now) }
{
    let name = name_word(alloc, command)?;
    two_words(alloc, ".handler", name)
}

/// The line of a parameter. Error: `NoMemory`.
fn param_line(alloc: Global, param: &Param) -> Result<Seq<Word>, NoMemory>
    ensures { IfOk result (λ words. words ≡ param_line param.now) }
{
    let name = name_word(alloc, param.name.as_str())?;
    let mut words = two_words(alloc, ".param", name)?;
    words.push(bare_word(alloc, kind_name(param.kind))?)?;
    Ok(words)
}

/// The line of an entry of the table of texts. Error: `NoMemory`.
fn text_line(alloc: Global, text: &str) -> Result<Seq<Word>, NoMemory>
    ensures { IfOk result (λ words. words ≡ text_line text.now) }
{
    let word = quoted_word(alloc, text)?;
    two_words(alloc, ".text", word)
}

/// The line of an entry of the table of calls. Error: `NoMemory`.
fn call_line(alloc: Global, name: &str) -> Result<Seq<Word>, NoMemory>
    ensures { IfOk result (λ words. words ≡ call_line name.now) }
{
    let word = name_word(alloc, name)?;
    two_words(alloc, ".call", word)
}

/// The line of a budget or a depth. Error: `NoMemory`.
fn limit_line(alloc: Global, name: &str, number: u32) -> Result<Seq<Word>, NoMemory>
    ensures { IfOk result (λ words. words ≡ bare name.now ∷ bare (decimal number) ∷ []) }
{
    let string = format!(in alloc; "{number}")?;
    let word = Word {
        is_quoted: false,
        text: Text::from_string(string),
    };
    two_words(alloc, name, word)
}

/// Adds the line of a budget or a depth, if there is one. Error: `NoMemory`.
fn push_limit(
    alloc: Global,
    lines: &mut Seq<Seq<Word>>,
    directive: Directive,
    limit: Option<u32>,
) -> Result<(), NoMemory>
    ensures { OnOk result (lines.new ≡ lines.old ++ limit_lines directive limit) }
{
    match limit {
        Some(number) => lines.push(limit_line(alloc, directive.name(), number)?),
        None => Ok(()),
    }
}

/// Adds the lines of parameters. Error: `NoMemory`.
fn push_params(alloc: Global, lines: &mut Seq<Seq<Word>>, params: &[Param]) -> Result<(), NoMemory>
    ensures { OnOk result (lines.new ≡ lines.old ++ map param_line params.now) }
{
    for param in params {
        lines.push(param_line(alloc, param)?)?;
    }
    Ok(())
}

/// Adds the lines of entries of the table of texts. Error: `NoMemory`.
fn push_texts(alloc: Global, lines: &mut Seq<Seq<Word>>, texts: &[Text]) -> Result<(), NoMemory>
    ensures { OnOk result (lines.new ≡ lines.old ++ map text_line texts.now) }
{
    for text in texts {
        lines.push(text_line(alloc, text.as_str())?)?;
    }
    Ok(())
}

/// Adds the lines of entries of the table of calls. Error: `NoMemory`.
fn push_calls(alloc: Global, lines: &mut Seq<Seq<Word>>, calls: &[Text]) -> Result<(), NoMemory>
    ensures { OnOk result (lines.new ≡ lines.old ++ map call_line calls.now) }
{
    for call in calls {
        lines.push(call_line(alloc, call.as_str())?)?;
    }
    Ok(())
}

/// Adds lines. Error: `NoMemory`.
fn push_all(lines: &mut Seq<Seq<Word>>, more: Seq<Seq<Word>>) -> Result<(), NoMemory>
    ensures { OnOk result (lines.new ≡ lines.old ++ more) }
{
    for words in more.into_vec() {
        lines.push(words)?;
    }
    Ok(())
}

/// The lines of a handler's code. Error: `NoMemory`.
#[tactic(auto, using(crate::proofs::WriteLemmas::code_fits))]
fn code_lines(alloc: Global, draft: &Draft) -> Result<Seq<Seq<Word>>, NoMemory>
    ensures lines { IfOk result (λ lines. lines ≡ code_lines draft.now) }
    ensures code { IfOk result (λ lines. has_code draft.now ≡ true) }
{
    let texts = copied(alloc, draft.texts.as_slice())?;
    let calls = copied(alloc, draft.calls.as_slice())?;
    let params = names_of(alloc, draft.params.as_slice())?;
    lines_of(alloc, texts, calls, params, draft.code.as_slice())
}

/// Adds the lines of a handler. Error: `NoMemory`.
#[tactic(auto, using(crate::proofs::WriteLemmas::all_pushed))]
pub(crate) fn push_draft(
    alloc: Global,
    lines: &mut Seq<Seq<Word>>,
    draft: &Draft,
) -> Result<(), NoMemory>
    ensures lines { OnOk result (lines.new ≡ lines.old ++ draft_lines draft.now) }
    ensures code { OnOk result (has_code draft.now ≡ true) }
{
    lines.push(handler_line(alloc, draft.command.as_str())?)?;
    push_params(alloc, lines, draft.params.as_slice())?;
    push_limit(alloc, lines, Directive::Budget, draft.budget)?;
    push_limit(alloc, lines, Directive::Depth, draft.depth)?;
    push_texts(alloc, lines, draft.texts.as_slice())?;
    push_calls(alloc, lines, draft.calls.as_slice())?;
    let code = code_lines(alloc, draft)?;
    push_all(lines, code)?;
    Ok(())
}
