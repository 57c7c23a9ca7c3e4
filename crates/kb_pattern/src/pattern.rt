//! Compiled patterns.
ghost use Rattle.std.specs.Prelude.{◌≡◌, false, IfOk, IfErr, not, option_map};
ghost use Rattle.regex.specs.Views.{builder_source, builder_config};
ghost use Rattle.kb_pattern.specs.Pattern.{config_of, is_read, pattern_holds, Stands, compiled_of};

use crate::flags::Flags;
use kb_base::{NoMemory, Text};
use regex::{Error, Regex, RegexBuilder};
use std::alloc::{AllocError, Global};
use std::fmt;
use std::marker::Model;

/// A pattern with its flags, compiled once. A pattern that `regex` rejects is marked as unread and never
/// matches. The compiled form has more than a kilobyte, so it is boxed: most clauses have no pattern.
#[derive(Drop)]
pub struct Pattern {
    text: Text,
    flags: Flags,
    compiled: Option<Box<Regex>>,
}

impl Model for Pattern {
    ghost use Rattle.std.specs.Prelude.{is_none, option_map};
    ghost use Rattle.kb_pattern.specs.Pattern.{MarkedPattern, Stands};

    ghost Value = { MarkedPattern };

    ghost view = { λ p. record { text = p.text; flags = p.flags; unread = is_none p.compiled } };

    ghost invariant = { λ p. Stands p.text p.flags (option_map (λ b. b.value) p.compiled) };
}

impl Pattern {
    ghost use Rattle.kb_pattern.specs.Pattern.{marked_pattern, HasRightMark};

    /// Compiles a pattern, or marks it as unread if `regex` rejects its syntax. Error: `NoMemory`, also if
    /// the pattern is too large for `regex`.
    pub fn new(alloc: Global, text: Text, flags: Flags) -> Result<Pattern, NoMemory>
        ensures { IfOk result (λ pattern. pattern ≡ marked_pattern text flags) }
    {
        let compiled = set_apart(alloc, compile(alloc, text.as_str(), flags)?)?;
        Ok(Pattern {
            text,
            flags,
            compiled,
        })
    }

    /// Whether the pattern is marked as unread, because `regex` rejects its syntax.
    pub fn is_unread(&self) -> bool
        ensures value { result ≡ self.now.unread }
        ensures right { HasRightMark self.now }
    {
        self.compiled.is_none()
    }

    /// The source text of the pattern.
    pub fn text(&self) -> &Text
        ensures { result.now ≡ self.now.text }
    {
        &self.text
    }

    /// The flags of the pattern.
    pub fn flags(&self) -> Flags
        ensures { result ≡ self.now.flags }
    {
        self.flags
    }

    /// Whether the pattern matches somewhere in a text; `false` for an unread pattern. Error: `NoMemory`,
    /// only if the pattern is not marked as unread.
    pub fn matches(&self, alloc: Global, text: &str) -> Result<bool, NoMemory>
        ensures value { IfOk result (λ holds. holds ≡ pattern_holds self.now text.now) }
        ensures memory { IfErr result (λ _. self.now.unread ≡ false) }
    {
        match &self.compiled {
            None => Ok(false),
            Some(regex) => {
                let mut matcher = regex.matcher(alloc)?;
                Ok(matcher.is_match(text))
            }
        }
    }
}

impl Pattern {
    ghost use Rattle.std.specs.Prelude.{◌&&◌};
    ghost use Rattle.std.specs.Str.{bytes_eq};
    ghost use Rattle.kb_pattern.specs.Pattern.{same_flags};

    /// Whether both patterns have the same text and the same flags. The marks are not compared.
    pub fn is(&self, other: &Pattern) -> bool
        ensures { result ≡
            bytes_eq self.now.text other.now.text && same_flags self.now.flags other.now.flags }
    {
        self.text.as_str() == other.text.as_str() && self.flags.is(other.flags)
    }
}

impl fmt::Debug for Pattern {
    fn fmt<W: fmt::Write>(&self, f: &mut fmt::Formatter<W>) -> fmt::Result {
        write!(f, "Pattern({:?}, {:?})", self.text, self.flags)
    }
}

/// The outcome of a build by `regex`: an unsupported syntax is not an error. Any other refusal counts as
/// `NoMemory`, also that of a pattern that is too large (our decision).
fn compiled_of(built: Result<Regex, Error>) -> Result<Option<Regex>, NoMemory>
    ensures { result ≡ compiled_of built }
{
    match built {
        Ok(regex) => Ok(Some(regex)),
        Err(error) => match error {
            Error::Syntax(_) => Ok(None),
            _ => Err(AllocError),
        },
    }
}

/// The compiled pattern, or `None` if `regex` rejects its syntax. Error: `NoMemory`.
fn compile(alloc: Global, text: &str, flags: Flags) -> Result<Option<Regex>, NoMemory>
    ensures { IfOk result (Stands text.now flags) }
{
    compiled_of(builder(text, flags).build(alloc))
}

/// Moves the compiled pattern into a box. Error: `NoMemory`.
fn set_apart(alloc: Global, compiled: Option<Regex>) -> Result<Option<Box<Regex>>, NoMemory>
    ensures { IfOk result (λ apart. option_map (λ b. b.value) apart ≡ compiled) }
{
    match compiled {
        Some(regex) => Ok(Some(Box::new(alloc, regex)?)),
        None => Ok(None),
    }
}

fn builder<'t>(text: &'t str, flags: Flags) -> RegexBuilder<'t>
    ensures source { builder_source result ≡ text.now }
    ensures config { builder_config result ≡ config_of flags }
{
    RegexBuilder::new(text)
        .case_insensitive(flags.ignore_case)
        .multi_line(flags.multi_line)
        .dot_matches_new_line(flags.dot_all)
}
