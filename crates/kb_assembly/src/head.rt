//! The lines of a handler's head: its parameters, its limits, and entries of its tables.
ghost use Rattle.std.specs.Prelude.{◌≡◌, Ok, OnOk, IfErr, IfOk, option_map};
ghost use Rattle.kb_base.specs.Failure.{Gives, Fails};
ghost use Rattle.kb_base.specs.Reading.{seen};
ghost use Rattle.kb_assembly.specs.declared.code.TextFault.{TextFault as TheFault};
ghost use Rattle.kb_assembly.specs.declared.head.Head.{Head as TheHead};
ghost use Rattle.kb_assembly.specs.Words.{placed};
ghost use Rattle.kb_assembly.specs.Head.{directive_name, directive_named, directive_in, kind_name};
ghost use Rattle.kb_assembly.specs.Head.{kind_named};
ghost use Rattle.kb_assembly.specs.Head.{only, wide_word, kind_word, quoted_text, limit_in};
ghost use Rattle.kb_assembly.specs.Head.{param_in, text_in, call_in, entry_with, entry_of, failure_in};
ghost use Rattle.kb_assembly.specs.Head.{no_head, rank_of, added, taken, head_step, heads_from, IsHead};

use crate::code::{TextFault, is_head};
use crate::fault::{LineFault, Mistake};
use crate::line::at_word;
use crate::names::wide_in;
use crate::words::Word;
use kb_base::{Failure, NoMemory, Seq, Text};
use kb_core::{Kind, Param};
use std::alloc::Global;

/// What a line of a head says, by its first word.
#[derive(Clone, Copy, Debug, PartialEq, Eq)]
pub(crate) enum Directive {
    /// A parameter.
    Param,
    /// The budget.
    Budget,
    /// The depth.
    Depth,
    /// An entry of the table of texts.
    Text,
    /// An entry of the table of calls.
    Call,
}

impl Directive {
    /// The word with which the line begins.
    pub(crate) fn name(self) -> &'static str
        ensures { result.now ≡ directive_name self }
    {
        match self {
            Directive::Param => ".param",
            Directive::Budget => ".budget",
            Directive::Depth => ".depth",
            Directive::Text => ".text",
            Directive::Call => ".call",
        }
    }

    /// What a line says that begins with this word.
    pub(crate) fn named(text: &str) -> Option<Directive>
        ensures { result ≡ directive_named text.now }
    {
        match text {
            ".param" => Some(Directive::Param),
            ".budget" => Some(Directive::Budget),
            ".depth" => Some(Directive::Depth),
            ".text" => Some(Directive::Text),
            ".call" => Some(Directive::Call),
            _ => None,
        }
    }
}

/// The name of a kind of parameters.
pub fn kind_name(kind: Kind) -> &'static str
    ensures { result.now ≡ kind_name kind }
{
    match kind {
        Kind::Text => "text",
        Kind::Number => "number",
        Kind::Truth => "truth",
        Kind::Any => "any",
    }
}

/// The kind of parameters with a name.
fn kind_named(text: &str) -> Option<Kind>
    ensures { result ≡ kind_named text.now }
{
    match text {
        "text" => Some(Kind::Text),
        "number" => Some(Kind::Number),
        "truth" => Some(Kind::Truth),
        "any" => Some(Kind::Any),
        _ => None,
    }
}

/// A line of a head, read.
#[derive(Debug, Drop)]
pub enum Entry {
    /// A parameter.
    Param(Param),
    /// The budget.
    Budget(u32),
    /// The depth.
    Depth(u32),
    /// An entry of the table of texts.
    Text(Text),
    /// An entry of the table of calls.
    Call(Text),
}

/// The lines of a head so far. No line of a lower rank may follow.
#[derive(Drop)]
pub struct Head {
    pub rank: u8,
    pub params: Seq<Param>,
    pub budget: Option<u32>,
    pub depth: Option<u32>,
    pub texts: Seq<Text>,
    pub calls: Seq<Text>,
}

/// The only word behind the first. Errors: `MissingOperand` and `ExtraWord`.
fn only(words: &[Word]) -> Result<&Word, LineFault>
    ensures { seen (λ word. word.now) result ≡ only words.now }
{
    match words {
        [] => Err(at_word(1, Mistake::MissingOperand)),
        [word] => Ok(word),
        _ => Err(at_word(2, Mistake::ExtraWord)),
    }
}

/// The number that a word spells.
fn wide_word(word: &Word) -> Result<u32, LineFault>
    ensures { result ≡ placed 1 (wide_word word.now) }
{
    if word.is_quoted {
        return Err(at_word(1, Mistake::BadLimit));
    }
    wide_in(word.text.as_str()).ok_or(at_word(1, Mistake::BadLimit))
}

/// The kind that a word names.
fn kind_word(word: &Word) -> Result<Kind, LineFault>
    ensures { result ≡ placed 2 (kind_word word.now) }
{
    if word.is_quoted {
        return Err(at_word(2, Mistake::BadKind));
    }
    kind_named(word.text.as_str()).ok_or(at_word(2, Mistake::BadKind))
}

/// The text of a word between quotes.
fn quoted_text(word: &Word) -> Result<&str, LineFault>
    ensures { seen (λ text. text.now) result ≡ placed 1 (quoted_text word.now) }
{
    if word.is_quoted {
        Ok(word.text.as_str())
    } else {
        Err(at_word(1, Mistake::MissingQuotes))
    }
}

/// A budget or a depth. Errors: the first mistake.
fn limit(words: &[Word]) -> Result<u32, LineFault>
    ensures { result ≡ limit_in words.now }
{
    let word = only(words)?;
    wide_word(word)
}

/// A parameter. Errors: the first mistake, and `NoMemory`.
fn param(words: &[Word]) -> Result<Entry, Failure<LineFault>>
    ensures { Gives (λ entry. entry) result (param_in words.now) }
{
    match words {
        [] => Err(Failure::Fault(at_word(1, Mistake::MissingOperand))),
        [_] => Err(Failure::Fault(at_word(2, Mistake::MissingOperand))),
        [name, kind] => {
            let kind = kind_word(kind)?;
            let name = name.text.copied()?;
            Ok(Entry::Param(Param { name, kind }))
        }
        _ => Err(Failure::Fault(at_word(3, Mistake::ExtraWord))),
    }
}

/// An entry of the table of texts. Errors: the first mistake, and `NoMemory`.
fn text_entry(alloc: Global, words: &[Word]) -> Result<Entry, Failure<LineFault>>
    ensures { Gives (λ entry. entry) result (text_in words.now) }
{
    let word = only(words)?;
    let text = quoted_text(word)?;
    Ok(Entry::Text(Text::from_str(alloc, text)?))
}

/// An entry of the table of calls. Errors: the first mistake, and `NoMemory`.
fn call_entry(words: &[Word]) -> Result<Entry, Failure<LineFault>>
    ensures { Gives (λ entry. entry) result (call_in words.now) }
{
    let word = only(words)?;
    Ok(Entry::Call(word.text.copied()?))
}

/// What a line says, by the words behind the first. Errors: the first mistake, and `NoMemory`.
fn entry_with(
    alloc: Global,
    directive: Directive,
    words: &[Word],
) -> Result<Entry, Failure<LineFault>>
    ensures { Gives (λ entry. entry) result (entry_with directive words.now) }
{
    match directive {
        Directive::Param => param(words),
        Directive::Budget => Ok(Entry::Budget(limit(words)?)),
        Directive::Depth => Ok(Entry::Depth(limit(words)?)),
        Directive::Text => text_entry(alloc, words),
        Directive::Call => call_entry(words),
    }
}

/// What a line says that begins with this word.
fn directive_in(word: &Word) -> Result<Directive, LineFault>
    ensures { result ≡ directive_in word.now }
{
    if word.is_quoted {
        return Err(at_word(0, Mistake::UnknownInstruction));
    }
    Directive::named(word.text.as_str()).ok_or(at_word(0, Mistake::UnknownInstruction))
}

/// The line of a head that words are. Errors: the first mistake, at the index of its word, and `NoMemory`.
fn entry_of(alloc: Global, words: &[Word]) -> Result<Entry, Failure<LineFault>>
    ensures { Gives (λ entry. entry) result (entry_of words.now) }
{
    match words {
        [] => Err(Failure::Fault(at_word(0, Mistake::UnknownInstruction))),
        [first, operands @ ..] => {
            let directive = directive_in(first)?;
            entry_with(alloc, directive, operands)
        }
    }
}

/// The rank of a line of a head.
fn rank_of(entry: &Entry) -> u8
    ensures { result ≡ rank_of entry.now }
{
    match entry {
        Entry::Param(_) => 0,
        Entry::Budget(_) => 1,
        Entry::Depth(_) => 2,
        Entry::Text(_) => 3,
        Entry::Call(_) => 4,
    }
}

impl Head {
    /// A head without lines.
    pub fn start(alloc: Global) -> Head
        ensures { result ≡ no_head }
    {
        Head {
            rank: 0,
            params: Seq::new(alloc),
            budget: None,
            depth: None,
            texts: Seq::new(alloc),
            calls: Seq::new(alloc),
        }
    }

    /// Adds what a line says. Error: `NoMemory`.
    fn add(&mut self, entry: Entry) -> Result<(), NoMemory>
        ensures { OnOk result (self.new ≡ added entry self.old) }
    {
        match entry {
            Entry::Param(param) => {
                self.params.push(param)?;
                self.rank = 0;
            }
            Entry::Budget(number) => {
                self.budget = Some(number);
                self.rank = 2;
            }
            Entry::Depth(number) => {
                self.depth = Some(number);
                self.rank = 3;
            }
            Entry::Text(text) => {
                self.texts.push(text)?;
                self.rank = 3;
            }
            Entry::Call(text) => {
                self.calls.push(text)?;
                self.rank = 4;
            }
        }
        Ok(())
    }

    /// Takes what a line says. Errors: `OutOfPlace` and `NoMemory`.
    fn take(&mut self, entry: Entry) -> Result<(), Failure<LineFault>>
        ensures ok { OnOk result (taken self.old entry ≡ Ok self.new) }
        ensures err { IfErr result (λ failure. Fails failure (taken self.old entry)) }
    {
        if rank_of(&entry) < self.rank {
            return Err(Failure::Fault(at_word(0, Mistake::OutOfPlace)));
        }
        self.add(entry)?;
        Ok(())
    }

    /// Takes the next line of a handler. Errors: the first mistake of a line of a head, and `NoMemory`.
    pub fn step(&mut self, alloc: Global, words: &[Word]) -> Result<(), Failure<LineFault>>
        ensures ok { OnOk result (head_step self.old words.now ≡ Ok self.new) }
        ensures err { IfErr result (λ failure. Fails failure (head_step self.old words.now)) }
    {
        match words {
            [] => Ok(()),
            [word, ..] => {
                if is_head(word) {
                    let entry = entry_of(alloc, words)?;
                    self.take(entry)
                } else {
                    self.rank = 5;
                    Ok(())
                }
            }
        }
    }
}

/// The failure in a line.
fn in_line(line: usize, failure: Failure<LineFault>) -> Failure<TextFault>
    ensures { result ≡ failure_in line failure }
{
    match failure {
        Failure::NoMemory => Failure::NoMemory,
        Failure::Fault(fault) => Failure::Fault(TextFault { line, fault }),
    }
}

/// The head of a handler's lines.
///
/// What is read is in the grammar, and what is in the grammar is read. Errors: the first mistake of a line of
/// a head, and `NoMemory`.
pub fn head_of(alloc: Global, lines: &[Seq<Word>]) -> Result<Head, Failure<TextFault>>
    ensures exact { Gives (λ head. head) result (heads_from 0 no_head lines.now) }
    ensures grammar { IfOk result (IsHead no_head lines.now) }
    ensures only { (head : TheHead) → IsHead no_head lines.now head → Gives (λ head. head) result (Ok head) }
{
    read_head(alloc, lines)
}

/// The head of a handler's lines.
fn read_head(alloc: Global, lines: &[Seq<Word>]) -> Result<Head, Failure<TextFault>>
    ensures { Gives (λ head. head) result (heads_from 0 no_head lines.now) }
{
    let mut head = Head::start(alloc);
    for (line, words) in lines.iter().enumerate() {
        if let Err(failure) = head.step(alloc, words.as_slice()) {
            return Err(in_line(line, failure));
        }
    }
    Ok(head)
}
