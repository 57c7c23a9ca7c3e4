//! The text of code: its lines, and the bytes of a line.
ghost use Rattle.std.specs.Prelude.{◌≡◌, ◌++◌, ◌∷◌, ◌≤◌, [], Ok, true, length, flat_map, IfOk, IfErr, OnOk};
ghost use Rattle.std.specs.List.{list_all};
ghost use Rattle.std.specs.Str.{is_utf8};
ghost use Rattle.kb_base.specs.Failure.{Gives, Fails};
ghost use Rattle.kb_assembly.specs.Grammar.{written_byte, written_text, gap, written_line};
ghost use Rattle.kb_assembly.specs.Code.{part_of, in_line};
ghost use Rattle.kb_assembly.specs.Words.{words_of};
ghost use Rattle.kb_assembly.specs.Text.{line_len, line_taken, lines_in, indent_of, row, text_of, are_utf8};

use crate::code::{TextFault, is_quiet, label_in};
use crate::words::{Word, words_of};
use kb_base::{Failure, NoMemory, Seq, Text};
use std::alloc::Global;

/// The number of bytes before the first line feed.
#[tactic(auto, using(crate::proofs::TextLemmas::line_steps))]
fn line_len(text: &[u8]) -> usize
    ensures value { result ≡ line_len text.now }
    ensures within { result ≤ length text.now }
{
    for (at, byte) in text.iter().enumerate() {
        if *byte == b'\n' {
            return at;
        }
    }
    text.len()
}

/// The words of a line. Errors: the first mistake, and `NoMemory`.
fn line_words(alloc: Global, line: usize, bytes: &[u8]) -> Result<Seq<Word>, Failure<TextFault>>
    ensures { Gives (λ words. words) result (in_line line (words_of bytes.now)) }
{
    match words_of(alloc, bytes) {
        Ok(words) => Ok(words),
        Err(Failure::NoMemory) => Err(Failure::NoMemory),
        Err(Failure::Fault(fault)) => Err(Failure::Fault(TextFault { line, fault })),
    }
}

/// Adds the words of a line. Errors: the first mistake, and `NoMemory`.
fn take_line(
    alloc: Global,
    lines: &mut Seq<Seq<Word>>,
    bytes: &[u8],
) -> Result<(), Failure<TextFault>>
    ensures ok { OnOk result (line_taken lines.old bytes.now ≡ Ok lines.new) }
    ensures err { IfErr result (λ failure. Fails failure (line_taken lines.old bytes.now)) }
{
    match line_words(alloc, lines.len(), bytes) {
        Ok(words) => {
            lines.push(words)?;
            Ok(())
        }
        Err(failure) => Err(failure),
    }
}

/// The words of the lines of a text. Errors: the first mistake, and `NoMemory`.
pub fn lines_in(alloc: Global, text: &[u8]) -> Result<Seq<Seq<Word>>, Failure<TextFault>>
    ensures { Gives (λ lines. lines) result (lines_in text.now) }
{
    let mut lines = Seq::new(alloc);
    let mut left = text;
    let mut end = line_len(text);
    'cut: while end < left.len() {
        match take_line(alloc, &mut lines, &left[..end]) {
            Ok(()) => {}
            Err(failure) => return Err(failure),
        }
        left = &left[end + 1..];
        end = line_len(left);
    }
    match take_line(alloc, &mut lines, left) {
        Ok(()) => Ok(lines),
        Err(failure) => Err(failure),
    }
}

/// Adds a byte between quotes.
fn push_byte(out: &mut Vec<u8>, byte: u8) -> Result<(), NoMemory>
    ensures { OnOk result (out.new.items ≡ out.old.items ++ written_byte byte) }
{
    match byte {
        b'"' => push_two(out, b'"'),
        b'\\' => push_two(out, b'\\'),
        b'\n' => push_two(out, b'n'),
        b'\r' => push_two(out, b'r'),
        b'\t' => push_two(out, b't'),
        _ => {
            out.push(byte)?;
            Ok(())
        }
    }
}

/// Adds a backslash and a byte.
fn push_two(out: &mut Vec<u8>, byte: u8) -> Result<(), NoMemory>
    ensures { OnOk result (out.new.items ≡ out.old.items ++ 92 ∷ byte ∷ []) }
{
    out.push(b'\\')?;
    out.push(byte)?;
    Ok(())
}

/// Adds a text between quotes, without the quotes.
fn push_body(out: &mut Vec<u8>, text: &[u8]) -> Result<(), NoMemory>
    ensures { OnOk result (out.new.items ≡ out.old.items ++ flat_map written_byte text.now) }
{
    for byte in text {
        push_byte(out, *byte)?;
    }
    Ok(())
}

/// Adds a word.
fn push_word(out: &mut Vec<u8>, word: &Word) -> Result<(), NoMemory>
    ensures { OnOk result (out.new.items ≡ out.old.items ++ written_text word.now) }
{
    let text = word.text.as_str().as_bytes();
    if word.is_quoted {
        out.push(b'"')?;
        push_body(out, text)?;
        out.push(b'"')?;
    } else {
        out.extend_from_slice(text)?;
    }
    Ok(())
}

/// Adds a space before further words.
fn push_gap(out: &mut Vec<u8>, words: &[Word]) -> Result<(), NoMemory>
    ensures { OnOk result (out.new.items ≡ out.old.items ++ gap words.now) }
{
    match words {
        [] => Ok(()),
        _ => {
            out.push(b' ')?;
            Ok(())
        }
    }
}

/// Adds words with a space between two.
fn push_line(out: &mut Vec<u8>, words: &[Word]) -> Result<(), NoMemory>
    ensures { OnOk result (out.new.items ≡ out.old.items ++ written_line words.now) }
{
    let mut left = words;
    while let [word, rest @ ..] = left {
        push_word(out, word)?;
        push_gap(out, rest)?;
        left = rest;
    }
    Ok(())
}

/// Adds four spaces before an instruction.
fn push_indent(out: &mut Vec<u8>, words: &[Word]) -> Result<(), NoMemory>
    ensures { OnOk result (out.new.items ≡ out.old.items ++ indent_of (part_of words.now)) }
{
    match label_in(words) {
        Some(_) => Ok(()),
        None => {
            if !is_quiet(words) {
                out.extend_from_slice([b' ', b' ', b' ', b' '].as_slice())?;
            }
            Ok(())
        }
    }
}

/// Adds a line.
fn push_row(out: &mut Vec<u8>, words: &[Word]) -> Result<(), NoMemory>
    ensures { OnOk result (out.new.items ≡ out.old.items ++ (row words.now ++ 10 ∷ [])) }
{
    push_indent(out, words)?;
    push_line(out, words)?;
    out.push(b'\n')?;
    Ok(())
}

/// The text of lines: an instruction behind four spaces, and a line feed behind each. Error: `NoMemory`.
pub fn text_of(alloc: Global, lines: &[Seq<Word>]) -> Result<Seq<u8>, NoMemory>
    ensures { IfOk result (λ text. text ≡ text_of lines.now) }
{
    let mut out = Vec::new(alloc);
    for words in lines {
        push_row(&mut out, words.as_slice())?;
    }
    Ok(Seq::from_vec(out))
}

/// For proofs alone: texts are UTF-8.
pub(crate) fn are_utf8(texts: &[Text])
    ensures { are_utf8 texts.now ≡ true }
{
    for text in texts {
        is_text(text.as_str());
    }
}

/// For proofs alone: a text is UTF-8.
pub(crate) fn is_text(text: &str)
    ensures { is_utf8 text.now ≡ true }
{
    let _text = text;
}
