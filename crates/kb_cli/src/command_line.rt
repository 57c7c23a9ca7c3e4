//! The options of the programs, which `clap` parses. `keyrun` and `rawrun` have the same ones; other programs
//! make their commands of the same parts.
ghost use Rattle.std.specs.Prelude.{◌≡◌, [], true, false, IfOk, IfErr, codes, map, is_some, option_map};
ghost use Rattle.std.specs.Prelude.{unwrap_or};
ghost use Rattle.clap.specs.Words.{app_of, rule_of, with_rule};
ghost use Rattle.clap.specs.Words.{found_of, rows_of, all_of, first_of, kind_of};
ghost use Rattle.kb_cli.specs.CommandLine.{Matched, Gives, Answers, Reads, NamesPlatforms};
ghost use Rattle.kb_cli.specs.CommandLine.{bare_app, valued_rule, platform_rule, dirs_rule, program_app};
ghost use Rattle.kb_cli.specs.CommandLine.{platform_given};

use crate::given::{OptionsFault, Program, VERSION};
use clap::error::ErrorKind;
use clap::{Arg, ArgAction, ArgMatches, Command, Error};
use kb_base::NoMemory;
use kb_disk::Options;
use kb_keys::Platform;
use std::alloc::Global;

static PLATFORM_NAMES: [&str; 3] = ["mac", "linux", "win"];

/// The names that `--platform` takes.
pub fn platform_names<'a>() -> &'a [&'a str]
    ensures { NamesPlatforms result }
{
    PLATFORM_NAMES.as_slice()
}

/// The option `--NAME VALUE`, where `help` says what the value is.
pub fn valued_option<'a>(alloc: Global, name: &'a str, value: &'a str, help: &'a str) -> Arg<'a>
    ensures rule { rule_of result ≡ valued_rule name.entry.now }
    ensures local { result.global ≡ false }
{
    Arg::new(alloc, name)
        .long(name)
        .value_name(value)
        .help(help)
}

/// The option `--NAME F`, where `help` says what F is.
pub fn file_option<'a>(alloc: Global, name: &'a str, help: &'a str) -> Arg<'a>
    ensures rule { rule_of result ≡ valued_rule name.entry.now }
    ensures local { result.global ≡ false }
{
    valued_option(alloc, name, "F", help)
}

/// The command without options. Help and error texts use the program's name, not the first word.
fn bare<'a>(alloc: Global, program: Program<'a>) -> Result<Command<'a>, NoMemory>
    ensures { IfOk result (λ made. app_of made ≡ bare_app program.entry.name.now) }
{
    let command = Command::new(alloc, program.name)
        .about(program.about)
        .version(VERSION);
    command.bin_name(program.name)
}

/// The command with one more option.
fn with<'a>(command: Command<'a>, option: Arg<'a>) -> Result<Command<'a>, NoMemory>
    requires { option.global ≡ false }
    ensures { IfOk result (λ made. app_of made
        ≡ with_rule (app_of command.entry) (rule_of option.entry)) }
{
    command.arg(option)
}

/// The option `--platform P`, where P is one of these names.
pub fn platform_option<'a>(alloc: Global, names: &'a [&'a str]) -> Arg<'a>
    ensures rule { rule_of result ≡ platform_rule names.entry }
    ensures local { result.global ≡ false }
{
    Arg::new(alloc, "platform")
        .long("platform")
        .value_name("P")
        .value_parser(names)
        .help("The platform whose keys the extensions' rules have [default: linux]")
}

/// The positional argument `[DIR]...`.
pub fn dirs_argument<'a>(alloc: Global) -> Arg<'a>
    ensures rule { rule_of result ≡ dirs_rule }
    ensures local { result.global ≡ false }
{
    Arg::new(alloc, "dir")
        .value_name("DIR")
        .action(ArgAction::Append)
        .help("The directories of extensions, each with its package.json, in load order")
}

/// The command of a program, with the names of the platforms.
fn command_of<'a>(
    alloc: Global,
    program: Program<'a>,
    platforms: &'a [&'a str],
) -> Result<Command<'a>, NoMemory>
    ensures { IfOk result (λ made. app_of made ≡ program_app program.entry.name.now platforms.entry) }
{
    let command = bare(alloc, program)?;
    let command = with(
        command,
        file_option(
            alloc,
            "layout",
            "The layout of the scopes, as JSON with comments",
        ),
    )?;
    let command = with(
        command,
        file_option(
            alloc,
            "defaults",
            "The default rules, as JSON with comments",
        ),
    )?;
    let command = with(
        command,
        file_option(alloc, "user", "The user's rules, as JSON with comments"),
    )?;
    let command = with(command, platform_option(alloc, platforms))?;
    let command = with(
        command,
        file_option(alloc, "script", "The script, in place of standard input"),
    )?;
    with(command, dirs_argument(alloc))
}

/// Matches the words against the command of a program. `clap` reports refused memory as an error of the kind
/// `OutOfMemory`.
fn matched<'a>(
    alloc: Global,
    program: Program<'a>,
    platforms: &'a [&'a str],
    words: &'a [&'a str],
) -> Result<ArgMatches<'a>, Error>
    ensures { Matched (program_app program.entry.name.now platforms.entry) (map (λ w. w.now) words.now)
        result }
{
    command_of(alloc, program, platforms)?.try_get_matches_from(words)
}

/// The text of an argument, if it was given.
pub fn text_given<'a>(matches: &ArgMatches<'a>, name: &str) -> Option<&'a str>
    ensures { option_map (λ s. s.now) result ≡ first_of name.now (rows_of (found_of matches.now)) }
{
    matches.get_str(name)
}

/// The platform of this name, or Linux. `clap` refuses every other name.
fn platform_of(name: Option<&str>) -> Platform
    ensures { result ≡ platform_given (option_map (λ s. s.now) name.entry) }
{
    match name {
        Some(name) => Platform::named(name).unwrap_or(Platform::Linux),
        None => Platform::Linux,
    }
}

/// All texts of an argument, if it was given.
fn texts_given<'m, 'a>(matches: &'m ArgMatches<'a>, name: &str) -> Option<&'m [&'a str]>
    ensures { option_map (λ texts. map (λ s. s.now) texts.now) result
        ≡ all_of name.now (rows_of (found_of matches.now)) }
{
    matches.get_strs(name)
}

/// A copy of the texts that were given, or an empty list.
fn listed<'a>(alloc: Global, given: Option<&[&'a str]>) -> Result<Vec<&'a str>, NoMemory>
    ensures ok { IfOk result (λ listed. map (λ s. s.now) listed.items
        ≡ unwrap_or (option_map (λ texts. map (λ s. s.now) texts.now) given.entry) []) }
    ensures err { IfErr result (λ _.
        is_some (option_map (λ texts. map (λ s. s.now) texts.now) given.entry) ≡ true) }
{
    match given {
        Some(texts) => Vec::from_slice(alloc, texts),
        None => Ok(Vec::new(alloc)),
    }
}

/// All texts of an argument, or an empty list if it was not given.
///
/// Errors: `NoMemory`.
pub fn all_texts<'a>(
    alloc: Global,
    matches: &ArgMatches<'a>,
    name: &str,
) -> Result<Vec<&'a str>, NoMemory>
    ensures { IfOk result (λ texts. map (λ s. s.now) texts.items
        ≡ unwrap_or (all_of name.now (rows_of (found_of matches.now))) []) }
{
    listed(alloc, texts_given(matches, name))
}

/// The options, from the matches of a command that has them, or some of them.
///
/// Errors: `NoMemory` from the list of directories.
pub fn options_in<'a>(alloc: Global, matches: &ArgMatches<'a>) -> Result<Options<'a>, NoMemory>
    ensures ok { IfOk result (Gives (rows_of (found_of matches.now))) }
    ensures err { IfErr result (λ _.
        is_some (all_of (codes "dir") (rows_of (found_of matches.now))) ≡ true) }
{
    Ok(Options {
        layout: text_given(matches, "layout"),
        defaults: text_given(matches, "defaults"),
        user: text_given(matches, "user"),
        platform: platform_of(text_given(matches, "platform")),
        script: text_given(matches, "script"),
        dirs: listed(alloc, texts_given(matches, "dir"))?,
    })
}

/// The options, from the result of `clap`, or why there are none.
fn given<'a>(
    alloc: Global,
    read: Result<ArgMatches<'a>, Error>,
) -> Result<Options<'a>, OptionsFault>
    ensures { Answers read.entry result }
{
    match read {
        Ok(matches) => Ok(options_in(alloc, &matches)?),
        Err(error) => Err(OptionsFault::from(error)),
    }
}

/// Parses the words of a command line, of which the first is the program's name.
///
/// The options are `--layout F`, `--defaults F`, `--user F`, `--platform P` (`mac`, `linux` or `win`) and
/// `--script F`, each at most once and in any order; `--` ends them. All other words are directories. The
/// contract gives the words the meaning that `clap` specifies for this command.
///
/// Errors: `Line` if that meaning refuses the words or they ask for help, with a kind of error that it gives
/// them, or `NoMemory` if memory is refused to `clap` or to the list of directories.
pub fn options<'a>(
    alloc: Global,
    program: Program<'a>,
    words: &'a [&'a str],
) -> Result<Options<'a>, OptionsFault>
    ensures { Reads program.entry.name.now (map (λ w. w.now) words.now) result }
{
    given(alloc, matched(alloc, program, platform_names(), words))
}

/// The error of a command line with a word that is no UTF-8 text. [`options`] never sees that word, because
/// it takes texts. That the word is refused is our decision.
///
/// Errors: `NoMemory`.
pub fn not_text(alloc: Global, program: Program<'_>) -> Result<Error, NoMemory>
    ensures { IfOk result (λ made. kind_of made ≡ ErrorKind.InvalidValue) }
{
    command_of(alloc, program, platform_names())?.error(
        ErrorKind::InvalidValue,
        "a word of the command line is no UTF-8 text",
    )
}
