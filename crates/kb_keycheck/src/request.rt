//! What a command line asks for.
ghost use Rattle.std.specs.Prelude.{◌≡◌, [], IfOk, codes, option_map, unwrap_or};
ghost use Rattle.clap.specs.Words.{first_of, found_of, rows_of};
ghost use Rattle.kb_keycheck.specs.CommandLine.{AreWishes, IsAsked, IsForm, IsFormat, IsGiven};
ghost use Rattle.kb_keycheck.specs.CommandLine.{level_given, path_in, subcommand_named};

use clap::ArgMatches;
use kb_base::NoMemory;
use kb_check_report::Format;
use kb_cli::{all_texts, options_in, text_given};
use kb_disk::Options;
use kb_problems::Severity;
use kb_report::Form;
use std::alloc::Global;

/// What a command that loads a session says.
#[derive(Clone, Copy, Debug, PartialEq, Eq)]
pub enum Topic {
    /// `explain`: why a key press does what it does.
    Press,
    /// `list`: which rules are in force.
    Rules,
    /// `context`: what the focus sees.
    Context,
    /// `palette`: what the palette lists.
    Palette,
    /// `log`: what each press of a script does and why.
    Log,
}

/// Which file of handlers is made of which.
#[derive(Clone, Copy, Debug, PartialEq, Eq)]
pub enum Direction {
    /// `assemble`: a `handlers.json` of a text.
    Assemble,
    /// `disassemble`: a text of a `handlers.json`.
    Disassemble,
}

/// A command of the program.
#[derive(Clone, Copy, Debug, PartialEq, Eq)]
pub enum Subcommand {
    /// `check`.
    Check,
    /// One that loads a session.
    Ask(Topic),
    /// `handlers`.
    Handlers,
    /// `assemble` or `disassemble`.
    Translate(Direction),
}

/// What is asked of a loaded session.
#[derive(Clone, Copy, Debug)]
pub enum Question<'m> {
    /// Why these keystrokes do what they do.
    Press(&'m str),
    /// Which rules are in force, of these keystrokes or all, that start this command or any.
    Rules(Option<&'m str>, Option<&'m str>),
    /// Which commands of the palette no rule in force starts.
    Unbound,
    /// What the focus sees.
    Context,
    /// What the palette lists for a query, of one command or all.
    Palette(&'m str, Option<&'m str>),
    /// What each press of the script does and why.
    Log,
}

/// The files that a command line names, and how lines are written.
#[derive(Drop)]
pub struct Given<'m> {
    /// The files, with the script that runs first.
    pub options: Options<'m>,
    /// How lines are written.
    pub form: Form,
}

/// What `check` looks for, and what it shows.
#[derive(Drop)]
pub struct Wishes<'m> {
    /// The names of lints that are silenced.
    pub allowed: Vec<&'m str>,
    /// The names of lints that are asked for, though they are off by default.
    pub asked: Vec<&'m str>,
    /// Names of the files whose problems are shown.
    pub only: Vec<&'m str>,
    /// Problems of this severity and of worse ones are shown.
    pub level: Severity,
    /// The file that lists commands that are known besides.
    pub commands: Option<&'m str>,
    /// How problems are written.
    pub format: Format,
}

/// The command of this name.
pub(crate) fn subcommand_named(name: &str) -> Option<Subcommand>
    ensures { result ≡ subcommand_named name.now }
{
    match name {
        "check" => Some(Subcommand::Check),
        "explain" => Some(Subcommand::Ask(Topic::Press)),
        "list" => Some(Subcommand::Ask(Topic::Rules)),
        "context" => Some(Subcommand::Ask(Topic::Context)),
        "palette" => Some(Subcommand::Ask(Topic::Palette)),
        "log" => Some(Subcommand::Ask(Topic::Log)),
        "handlers" => Some(Subcommand::Handlers),
        "assemble" => Some(Subcommand::Translate(Direction::Assemble)),
        "disassemble" => Some(Subcommand::Translate(Direction::Disassemble)),
        _ => None,
    }
}

/// The text of an argument, empty where it isn't given.
fn text_or_empty<'a>(matches: &ArgMatches<'a>, name: &str) -> &'a str
    ensures { result.now ≡ unwrap_or (first_of name.now (rows_of (found_of matches.now))) [] }
{
    text_given(matches, name).unwrap_or("")
}

/// The path of the file to translate.
pub(crate) fn path_asked<'a>(matches: &ArgMatches<'a>) -> &'a str
    ensures { result.now ≡ path_in (rows_of (found_of matches.now)) }
{
    text_or_empty(matches, "file")
}

/// How lines are written.
pub(crate) fn form_asked(matches: &ArgMatches<'_>) -> Form
    ensures { IsForm (rows_of (found_of matches.now)) result }
{
    if matches.get_flag("json") {
        Form::Json
    } else {
        Form::Text
    }
}

/// The files that matches name, and how lines are written.
///
/// Errors: `NoMemory` from the list of directories.
pub(crate) fn given_in<'a>(alloc: Global, matches: &ArgMatches<'a>) -> Result<Given<'a>, NoMemory>
    ensures { IfOk result (IsGiven (rows_of (found_of matches.now))) }
{
    Ok(Given {
        options: options_in(alloc, matches)?,
        form: form_asked(matches),
    })
}

/// The level of this name, or warnings. `clap` refuses every other name.
fn level_of(name: Option<&str>) -> Severity
    ensures { result ≡ level_given (option_map (λ s. s.now) name.entry) }
{
    match name {
        Some(name) => Severity::named(name).unwrap_or(Severity::Warning),
        None => Severity::Warning,
    }
}

/// How the problems of `check` are written. `clap` refuses every other name.
fn format_asked(matches: &ArgMatches<'_>) -> Format
    ensures { IsFormat (rows_of (found_of matches.now))
        (first_of (codes "format") (rows_of (found_of matches.now))) result }
{
    match text_given(matches, "format") {
        Some(name) => Format::named(name).unwrap_or(Format::Text),
        None => Format::from(form_asked(matches)),
    }
}

/// What the matches of `check` look for, and what they show.
///
/// Errors: `NoMemory` from the lists of names.
pub(crate) fn wishes_in<'a>(alloc: Global, matches: &ArgMatches<'a>) -> Result<Wishes<'a>, NoMemory>
    ensures { IfOk result (AreWishes (rows_of (found_of matches.now))) }
{
    Ok(Wishes {
        allowed: all_texts(alloc, matches, "allow")?,
        asked: all_texts(alloc, matches, "warn")?,
        only: all_texts(alloc, matches, "only")?,
        level: level_of(text_given(matches, "level")),
        commands: text_given(matches, "commands"),
        format: format_asked(matches),
    })
}

/// The question that the matches of `list` ask.
fn rules_asked<'a>(matches: &ArgMatches<'a>) -> Question<'a>
    ensures { IsAsked Topic.Rules (rows_of (found_of matches.now)) result }
{
    if matches.get_flag("unbound") {
        return Question::Unbound;
    }
    Question::Rules(text_given(matches, "key"), text_given(matches, "command"))
}

/// The question that the matches of a command ask.
pub(crate) fn question_in<'a>(topic: Topic, matches: &ArgMatches<'a>) -> Question<'a>
    ensures { IsAsked topic (rows_of (found_of matches.now)) result }
{
    match topic {
        Topic::Press => Question::Press(text_or_empty(matches, "key")),
        Topic::Rules => rules_asked(matches),
        Topic::Context => Question::Context,
        Topic::Palette => Question::Palette(
            text_or_empty(matches, "query"),
            text_given(matches, "command"),
        ),
        Topic::Log => Question::Log,
    }
}
