//! The command line, parsed by `clap`.
ghost use Rattle.std.specs.Prelude.{◌≡◌, false, IfOk, codes, map};
ghost use Rattle.clap.specs.Words.{App, Rule, kind_of, new_app, rule_of, with_rule, with_subcommand};
ghost use Rattle.kb_cli.specs.CommandLine.{NamesPlatforms};
ghost use Rattle.kb_keycheck.specs.CommandLine.{IsCommand, IsMatched, Matched, NamesFormats, NamesLevels};
ghost use Rattle.kb_keycheck.specs.CommandLine.{NamesLints, format_rule};
ghost use Rattle.kb_keycheck.specs.CommandLine.{assemble_app, bare_app, check_app, context_app};
ghost use Rattle.kb_keycheck.specs.CommandLine.{disassemble_app};
ghost use Rattle.kb_keycheck.specs.CommandLine.{explain_app, handlers_app, json_rule, keycheck_app};
ghost use Rattle.kb_keycheck.specs.CommandLine.{level_rule, only_rule, unbound_rule};
ghost use Rattle.kb_keycheck.specs.CommandLine.{lints_rule, list_app, log_app, palette_app, some_dirs_rule};
ghost use Rattle.kb_keycheck.specs.CommandLine.{with_files, with_script, word_rule};

use clap::error::ErrorKind;
use clap::{Arg, ArgAction, ArgMatches, Command, Error};
use kb_base::NoMemory;
use kb_check_report::FORMAT_NAMES;
use kb_cli::{VERSION, dirs_argument, file_option, platform_names, platform_option, valued_option};
use kb_problems::{LINT_NAMES, SEVERITY_NAMES};
use std::alloc::Global;

/// The names of the lints.
fn lint_names<'a>() -> &'a [&'a str]
    ensures { NamesLints result }
{
    LINT_NAMES.as_slice()
}

/// The names of the severities.
fn level_names<'a>() -> &'a [&'a str]
    ensures { NamesLevels result }
{
    SEVERITY_NAMES.as_slice()
}

/// The names of the formats.
fn format_names<'a>() -> &'a [&'a str]
    ensures { NamesFormats result }
{
    FORMAT_NAMES.as_slice()
}

/// The option `--json`.
fn json_option<'a>(alloc: Global) -> Arg<'a>
    ensures rule { rule_of result ≡ json_rule }
    ensures local { result.global ≡ false }
{
    Arg::new(alloc, "json")
        .long("json")
        .action(ArgAction::SetTrue)
        .help("Write JSON, one object a line")
}

/// An option that names lints, of these names.
fn lints_option<'a>(alloc: Global, name: &'a str, lints: &'a [&'a str], help: &'a str) -> Arg<'a>
    ensures rule { rule_of result ≡ lints_rule name.entry.now lints.entry }
    ensures local { result.global ≡ false }
{
    valued_option(alloc, name, "NAME", help)
        .value_parser(lints)
        .action(ArgAction::Append)
}

/// The option `--only NAME`, any number of times.
fn only_option<'a>(alloc: Global) -> Arg<'a>
    ensures rule { rule_of result ≡ only_rule }
    ensures local { result.global ≡ false }
{
    let help =
        "Only problems of this: user, defaults, layout, extensions, all, an extension, or a path";
    valued_option(alloc, "only", "NAME", help).action(ArgAction::Append)
}

/// The option `--level LEVEL`, where LEVEL is one of these names.
fn level_option<'a>(alloc: Global, levels: &'a [&'a str]) -> Arg<'a>
    ensures rule { rule_of result ≡ level_rule levels.entry }
    ensures local { result.global ≡ false }
{
    Arg::new(alloc, "level")
        .long("level")
        .value_name("LEVEL")
        .value_parser(levels)
        .help("Show problems that are this bad or worse [default: warning]")
}

/// The option `--format FORMAT`, where FORMAT is one of these names.
fn format_option<'a>(alloc: Global, formats: &'a [&'a str]) -> Arg<'a>
    ensures rule { rule_of result ≡ format_rule formats.entry }
    ensures local { result.global ≡ false }
{
    Arg::new(alloc, "format")
        .long("format")
        .value_name("FORMAT")
        .value_parser(formats)
        .help(
            "How problems are written: github and sarif for services, diff as what patch -p0 takes",
        )
}

/// A word that must be there.
fn word<'a>(alloc: Global, name: &'a str, value: &'a str, help: &'a str) -> Arg<'a>
    ensures rule { rule_of result ≡ word_rule name.entry.now }
    ensures local { result.global ≡ false }
{
    Arg::new(alloc, name)
        .value_name(value)
        .required(true)
        .help(help)
}

/// The directories of extensions, of which there must be one.
fn some_dirs<'a>(alloc: Global) -> Arg<'a>
    ensures rule { rule_of result ≡ some_dirs_rule }
    ensures local { result.global ≡ false }
{
    dirs_argument(alloc).required(true)
}

/// A command without arguments.
fn command<'a>(alloc: Global, name: &'a str, about: &'a str) -> Command<'a>
    ensures { IsCommand (new_app name.entry.now) result }
{
    Command::new(alloc, name).about(about)
}

/// A command with one more argument.
fn with<'a>(command: Command<'a>, argument: Arg<'a>) -> Result<Command<'a>, NoMemory>
    requires { argument.global ≡ false }
    ensures { IfOk result (λ made. (a : App) → (r : Rule) → IsCommand a command.entry
        → rule_of argument.entry ≡ r → IsCommand (with_rule a r) made) }
{
    command.arg(argument)
}

/// A command with the files of a load, and the form of its lines.
fn with_files<'a>(
    alloc: Global,
    command: Command<'a>,
    platforms: &'a [&'a str],
) -> Result<Command<'a>, NoMemory>
    ensures { IfOk result (λ made. (a : App) → IsCommand a command.entry
        → IsCommand (with_files a platforms.entry) made) }
{
    let command = with(
        command,
        file_option(
            alloc,
            "layout",
            "The layout of the scopes, as JSON with comments",
        ),
    )?;
    let command = with(
        command,
        file_option(
            alloc,
            "defaults",
            "The default rules, as JSON with comments",
        ),
    )?;
    let command = with(
        command,
        file_option(alloc, "user", "The user's rules, as JSON with comments"),
    )?;
    let command = with(command, platform_option(alloc, platforms))?;
    let command = with(command, json_option(alloc))?;
    with(command, dirs_argument(alloc))
}

/// The same behind the option of a script.
fn with_script<'a>(
    alloc: Global,
    command: Command<'a>,
    platforms: &'a [&'a str],
) -> Result<Command<'a>, NoMemory>
    ensures { IfOk result (λ made. (a : App) → IsCommand a command.entry
        → IsCommand (with_script a platforms.entry) made) }
{
    let script = file_option(
        alloc,
        "script",
        "A script that runs first; what it traces isn't written",
    );
    with_files(alloc, with(command, script)?, platforms)
}

/// `check`.
fn check<'a>(
    alloc: Global,
    platforms: &'a [&'a str],
    lints: &'a [&'a str],
    levels: &'a [&'a str],
    formats: &'a [&'a str],
) -> Result<Command<'a>, NoMemory>
    ensures { IfOk result (λ made.
        IsCommand (check_app platforms.entry lints.entry levels.entry formats.entry) made) }
{
    let command = command(
        alloc,
        "check",
        "Says what is wrong in files, with the line of each problem.",
    );
    let allow = lints_option(alloc, "allow", lints, "Don't look for this lint");
    let warn = lints_option(
        alloc,
        "warn",
        lints,
        "Look for this lint too, though it is off by default",
    );
    let commands = file_option(alloc, "commands", "Commands that are known, one a line");
    let command = with(
        with(command, only_option(alloc))?,
        level_option(alloc, levels),
    )?;
    let command = with(with(command, allow)?, warn)?;
    let command = with(with(command, commands)?, format_option(alloc, formats))?;
    with_files(alloc, command, platforms)
}

/// `explain`.
fn explain<'a>(alloc: Global, platforms: &'a [&'a str]) -> Result<Command<'a>, NoMemory>
    ensures { IfOk result (λ made. IsCommand (explain_app platforms.entry) made) }
{
    let command = command(alloc, "explain", "Says why a key press does what it does.");
    let key = word(
        alloc,
        "key",
        "KEY",
        "The keystrokes to press, as in a rule's \"key\"; the last one is explained",
    );
    with_script(alloc, with(command, key)?, platforms)
}

/// The option `--unbound`.
fn unbound_option<'a>(alloc: Global) -> Arg<'a>
    ensures rule { rule_of result ≡ unbound_rule }
    ensures local { result.global ≡ false }
{
    Arg::new(alloc, "unbound")
        .long("unbound")
        .action(ArgAction::SetTrue)
        .help("The commands of the palette that no rule starts, in place of rules")
}

/// `list`.
fn list<'a>(alloc: Global, platforms: &'a [&'a str]) -> Result<Command<'a>, NoMemory>
    ensures { IfOk result (λ made. IsCommand (list_app platforms.entry) made) }
{
    let command = command(
        alloc,
        "list",
        "Lists the rules in force, by their keystrokes.",
    );
    let key = valued_option(
        alloc,
        "key",
        "KEY",
        "Only rules whose keystrokes begin with these, as in a rule's \"key\"",
    );
    let id = valued_option(alloc, "command", "ID", "Only rules that start this command");
    let command = with(with(with(command, key)?, id)?, unbound_option(alloc))?;
    with_script(alloc, command, platforms)
}

/// `context`.
fn context<'a>(alloc: Global, platforms: &'a [&'a str]) -> Result<Command<'a>, NoMemory>
    ensures { IfOk result (λ made. IsCommand (context_app platforms.entry) made) }
{
    let command = command(
        alloc,
        "context",
        "Lists the context keys that the focus sees, with their values and scopes.",
    );
    with_script(alloc, command, platforms)
}

/// `palette`.
fn palette<'a>(alloc: Global, platforms: &'a [&'a str]) -> Result<Command<'a>, NoMemory>
    ensures { IfOk result (λ made. IsCommand (palette_app platforms.entry) made) }
{
    let command = command(
        alloc,
        "palette",
        "Says of each command whether the palette lists it for a query, and why not.",
    );
    let query = word(alloc, "query", "QUERY", "What is typed into the palette");
    let id = valued_option(
        alloc,
        "command",
        "ID",
        "Only this command, contributed or not",
    );
    with_script(alloc, with(with(command, query)?, id)?, platforms)
}

/// `log`.
fn log<'a>(alloc: Global, platforms: &'a [&'a str]) -> Result<Command<'a>, NoMemory>
    ensures { IfOk result (λ made. IsCommand (log_app platforms.entry) made) }
{
    let command = command(
        alloc,
        "log",
        "Says of each key press of a script what it does, and why.",
    );
    let script = word(
        alloc,
        "script",
        "SCRIPT",
        "The script; /dev/stdin is standard input",
    );
    with_files(alloc, with(command, script)?, platforms)
}

/// `handlers`.
fn handlers<'a>(alloc: Global) -> Result<Command<'a>, NoMemory>
    ensures { IfOk result (λ made. IsCommand handlers_app made) }
{
    let command = command(
        alloc,
        "handlers",
        "Says of each handler of some extensions whether it is accepted, and why not.",
    );
    with(with(command, json_option(alloc))?, some_dirs(alloc))
}

/// `assemble`.
fn assemble<'a>(alloc: Global) -> Result<Command<'a>, NoMemory>
    ensures { IfOk result (λ made. IsCommand assemble_app made) }
{
    let command = command(
        alloc,
        "assemble",
        "Writes the handlers.json of a text of handlers.",
    );
    let file = word(
        alloc,
        "file",
        "FILE",
        "The text, in the assembly language of handlers",
    );
    with(command, file)
}

/// `disassemble`.
fn disassemble<'a>(alloc: Global) -> Result<Command<'a>, NoMemory>
    ensures { IfOk result (λ made. IsCommand disassemble_app made) }
{
    let command = command(
        alloc,
        "disassemble",
        "Writes the text of the handlers of a handlers.json.",
    );
    let file = word(
        alloc,
        "file",
        "FILE|DIR",
        "The handlers.json, or the directory of an extension that has one",
    );
    with(command, file)
}

/// The command of the program without its subcommands. Help and error texts use the program's name, not the
/// first word.
fn bare<'a>(alloc: Global) -> Result<Command<'a>, NoMemory>
    ensures { IfOk result (λ made. IsCommand bare_app made) }
{
    Command::new(alloc, "keycheck")
        .about("Explains files of key rules, key presses and handlers.")
        .version(VERSION)
        .subcommand_required(true)
        .bin_name("keycheck")
}

/// A command with one more subcommand.
fn with_subcommand<'a>(
    command: Command<'a>,
    subcommand: Command<'a>,
) -> Result<Command<'a>, NoMemory>
    ensures { IfOk result (λ made. (a : App) → (b : App) → IsCommand a command.entry
        → IsCommand b subcommand.entry → IsCommand (with_subcommand a b.top) made) }
{
    command.subcommand(subcommand)
}

/// The command of the program, with the names of the platforms, of the lints, of the severities and of
/// the formats.
fn command_of<'a>(
    alloc: Global,
    platforms: &'a [&'a str],
    lints: &'a [&'a str],
    levels: &'a [&'a str],
    formats: &'a [&'a str],
) -> Result<Command<'a>, NoMemory>
    ensures { IfOk result (λ made.
        IsCommand (keycheck_app platforms.entry lints.entry levels.entry formats.entry) made) }
{
    let check = check(alloc, platforms, lints, levels, formats)?;
    let command = with_subcommand(bare(alloc)?, check)?;
    let command = with_subcommand(command, explain(alloc, platforms)?)?;
    let command = with_subcommand(command, list(alloc, platforms)?)?;
    let command = with_subcommand(command, context(alloc, platforms)?)?;
    let command = with_subcommand(command, palette(alloc, platforms)?)?;
    let command = with_subcommand(command, log(alloc, platforms)?)?;
    let command = with_subcommand(command, handlers(alloc)?)?;
    let command = with_subcommand(command, assemble(alloc)?)?;
    with_subcommand(command, disassemble(alloc)?)
}

/// Matches words against the command with these names. `clap` reports refused memory as an error of the kind
/// `OutOfMemory`.
fn matched_by<'a>(
    alloc: Global,
    platforms: &'a [&'a str],
    lints: &'a [&'a str],
    levels: &'a [&'a str],
    formats: &'a [&'a str],
    words: &'a [&'a str],
) -> Result<ArgMatches<'a>, Error>
    ensures { Matched (keycheck_app platforms.entry lints.entry levels.entry formats.entry)
        (map (λ w. w.now) words.now) result }
{
    command_of(alloc, platforms, lints, levels, formats)?.try_get_matches_from(words)
}

/// Matches the words of a command line, of which the first is the program's name. The contract gives them the
/// meaning that `clap` specifies for this command.
pub(crate) fn matched<'a>(alloc: Global, words: &'a [&'a str]) -> Result<ArgMatches<'a>, Error>
    ensures { IsMatched (map (λ w. w.now) words.now) result }
{
    matched_by(
        alloc,
        platform_names(),
        lint_names(),
        level_names(),
        format_names(),
        words,
    )
}

/// The error of a command line with a word that is no UTF-8 text.
pub(crate) fn not_text<'a>(alloc: Global) -> Result<Error, NoMemory>
    ensures { IfOk result (λ made. kind_of made ≡ ErrorKind.InvalidValue) }
{
    command_of(
        alloc,
        platform_names(),
        lint_names(),
        level_names(),
        format_names(),
    )?
    .error(
        ErrorKind::InvalidValue,
        "a word of the command line is no UTF-8 text",
    )
}
