//! Does what a command line asks for, over some files.
ghost use Rattle.std.specs.Prelude.{◌≡◌, ◌≤◌, ◌⊎◌};
ghost use Rattle.clap.specs.Words.{found_of, rows_of, subcommand_rows_of};
ghost use Rattle.kb_keycheck.specs.Ends.{Answers, AnswersBy, Checks, ChecksBy, DoesCommand, Handles};
ghost use Rattle.kb_keycheck.specs.Ends.{HandlersBy, Obeys};
ghost use Rattle.kb_keycheck.specs.Ends.{Translates, TranslatesGiven};

use crate::checking::check_files;
use crate::ending::{Stop, answer_status, check_status};
use crate::explaining::answer_question;
use crate::mistakes::Mistakes;
use crate::reason::{Reasons, unread_reason};
use crate::request::{
    Direction, Subcommand, Topic, form_asked, given_in, path_asked, question_in, subcommand_named,
    wishes_in,
};
use crate::translating::{translate, translation_status};
use clap::ArgMatches;
use kb_base::Text;
use kb_cli::{all_texts, text_given};
use kb_disk::FileSource;
use kb_handler_report::{check_extensions, status_of};
use kb_problems::key_sentence;
use std::alloc::Global;
use std::fmt::Display;
use std::io;
use std::io::{BufWriter, Write};

/// Does `check`, and returns how it ended.
#[tactic(auto, using(crate::proofs::DoesLemmas::checks))]
fn check<'a, F: FileSource, W: Write + Drop>(
    alloc: Global,
    matches: &ArgMatches<'a>,
    files: &F,
    out: &mut BufWriter<W>,
) -> Result<bool, Stop<'a>>
    ensures { ChecksBy (F.held files.now) (rows_of (found_of matches.now)) result }
{
    let given = given_in(alloc, matches)?;
    let wishes = wishes_in(alloc, matches)?;
    check_files(alloc, &given, &wishes, files, out)
}

/// Answers a question, and returns how that ended.
#[tactic(auto, using(crate::proofs::DoesLemmas::answers))]
fn answer<'a, F: FileSource, W: Write + Drop>(
    alloc: Global,
    topic: Topic,
    matches: &ArgMatches<'a>,
    files: &F,
    mistakes: &mut Mistakes,
    out: &mut BufWriter<W>,
) -> Result<(), Stop<'a>>
    ensures { AnswersBy (F.held files.now) topic (rows_of (found_of matches.now)) result }
{
    let given = given_in(alloc, matches)?;
    answer_question(
        alloc,
        &given,
        question_in(topic, matches),
        files,
        mistakes,
        out,
    )
}

/// Does `handlers`, and returns how it ended.
#[tactic(auto, using(crate::proofs::DoesLemmas::handles))]
fn check_handlers<F: FileSource, W: Write + Drop>(
    alloc: Global,
    matches: &ArgMatches<'_>,
    files: &F,
    out: &mut BufWriter<W>,
) -> Result<bool, kb_handler_report::Stop>
    ensures { HandlersBy (F.held files.now) (rows_of (found_of matches.now)) result }
{
    let dirs = all_texts(alloc, matches, "dir")?;
    let form = form_asked(matches);
    check_extensions(alloc, files, dirs.as_slice(), form, out)
}

/// What a check says that has no file.
const NO_FILE: &str =
    "no file is named: give --layout F, --defaults F, --user F, or directories of extensions";

/// Whether the matches of a command name no file of a load.
fn names_no_file(matches: &ArgMatches<'_>) -> bool {
    text_given(matches, "layout").is_none()
        && text_given(matches, "defaults").is_none()
        && text_given(matches, "user").is_none()
        && text_given(matches, "dir").is_none()
}

/// Does `check`, says why it stopped, if it did, and returns the exit status.
#[tactic(auto, using(crate::proofs::DoesLemmas::statuses))]
fn obey_check<R: Eprint, F: FileSource + Reasons, W: Write + Drop>(
    rt: &R,
    alloc: Global,
    matches: &ArgMatches<'_>,
    files: &F,
    out: &mut BufWriter<W>,
) -> u8
    ensures does { Checks (F.held files.now) (rows_of (found_of matches.now)) result }
    ensures table { result ≤ 4 }
{
    if names_no_file(matches) {
        let _ = rt.eprintln(NO_FILE);
    }
    let end = check(alloc, matches, files, out);
    say_stop(rt, alloc, files, &end);
    check_status(&end)
}

/// Answers a question, says what is wrong in the script and why it stopped, if it did, and returns the exit
/// status.
#[tactic(auto, using(crate::proofs::DoesLemmas::statuses))]
fn obey_question<R: Eprint, F: FileSource + Reasons, W: Write + Drop>(
    rt: &R,
    alloc: Global,
    topic: Topic,
    matches: &ArgMatches<'_>,
    files: &F,
    out: &mut BufWriter<W>,
) -> u8
    ensures does { Answers (F.held files.now) topic (rows_of (found_of matches.now)) result }
    ensures table { result ≤ 4 }
{
    let mut mistakes = Mistakes::none(alloc);
    let end = answer(alloc, topic, matches, files, &mut mistakes, out);
    say_mistakes(rt, &mistakes);
    if let Some(line) = keys_line(alloc, matches, &end) {
        let _ = rt.eprintln(line.as_str());
    } else {
        say_stop(rt, alloc, files, &end);
    }
    answer_status(&end)
}

/// Does `handlers`, says why it stopped, if it did, and returns the exit status.
#[tactic(auto, using(crate::proofs::DoesLemmas::statuses))]
fn obey_handlers<R: Eprint, F: FileSource, W: Write + Drop>(
    rt: &R,
    alloc: Global,
    matches: &ArgMatches<'_>,
    files: &F,
    out: &mut BufWriter<W>,
) -> u8
    ensures does { Handles (F.held files.now) (rows_of (found_of matches.now)) result }
    ensures table { result ≤ 4 }
{
    let end = check_handlers(alloc, matches, files, out);
    say_end(rt, &end);
    status_of(&end)
}

/// Does `assemble` or `disassemble`, and returns how it ended.
#[tactic(auto, using(crate::proofs::DoesLemmas::translates))]
fn translate_given<'a, F: FileSource, W: Write + Drop>(
    alloc: Global,
    direction: Direction,
    matches: &ArgMatches<'a>,
    files: &F,
    out: &mut BufWriter<W>,
) -> Result<Option<Text>, Stop<'a>>
    ensures { TranslatesGiven (F.held files.now) direction (rows_of (found_of matches.now)) result }
{
    translate(alloc, direction, path_asked(matches), files, out)
}

/// Does `assemble` or `disassemble`, says which faults the file has or why it stopped, if it did, and returns
/// the exit status.
#[tactic(auto, using(crate::proofs::DoesLemmas::statuses))]
fn obey_translation<R: Eprint, F: FileSource + Reasons, W: Write + Drop>(
    rt: &R,
    alloc: Global,
    direction: Direction,
    matches: &ArgMatches<'_>,
    files: &F,
    out: &mut BufWriter<W>,
) -> u8
    ensures does { Translates (F.held files.now) direction (rows_of (found_of matches.now)) result }
    ensures table { result ≤ 4 }
{
    let end = translate_given(alloc, direction, matches, files, out);
    say_faults(rt, &end);
    say_stop(rt, alloc, files, &end);
    translation_status(&end)
}

/// Does what a command asks for, and returns the exit status.
fn obey_command<R: Print + Eprint, F: FileSource + Reasons>(
    rt: &R,
    alloc: Global,
    command: Subcommand,
    matches: &ArgMatches<'_>,
    files: &F,
) -> u8
    ensures does { (result ≡ 4)
        ⊎ DoesCommand (F.held files.now) command (rows_of (found_of matches.now)) result }
    ensures table { result ≤ 4 }
{
    let Ok(mut out) = BufWriter::new(alloc, io::writer(rt)) else {
        let _ = rt.eprintln("stopped: out of memory");
        return 4;
    };
    match command {
        Subcommand::Check => obey_check(rt, alloc, matches, files, &mut out),
        Subcommand::Ask(topic) => obey_question(rt, alloc, topic, matches, files, &mut out),
        Subcommand::Handlers => obey_handlers(rt, alloc, matches, files, &mut out),
        Subcommand::Translate(direction) => {
            obey_translation(rt, alloc, direction, matches, files, &mut out)
        }
    }
}

/// Says which lines of a script can't be read and which of its events are refused.
fn say_mistakes<R: Eprint>(rt: &R, mistakes: &Mistakes) {
    for line in mistakes.text().lines() {
        let _ = rt.eprintln(format_args!("script: {line}"));
    }
}

/// The line that says why the keystrokes of a command line can't be read, with the key that may be meant, if
/// that is why a run stopped, and if there is memory for it.
fn keys_line<T>(
    alloc: Global,
    matches: &ArgMatches<'_>,
    end: &Result<T, Stop<'_>>,
) -> Option<String> {
    let Err(Stop::Keys(fault)) = end else {
        return None;
    };
    let kind = fault.kind();
    let text = text_given(matches, "key").unwrap_or("");
    let sentence = key_sentence(alloc, kind, text).ok()?;
    format!(in alloc; "the keystrokes can't be read, for {kind}: {sentence}").ok()
}

/// Why a run that stopped could not read a file, if that is why.
fn reason_of<F: Reasons>(files: &F, alloc: Global, stop: &Stop<'_>) -> &'static str {
    match stop {
        Stop::Run(kb_run::Stop::Unread(file)) => unread_reason(files, alloc, *file),
        _ => "",
    }
}

/// Says why a run stopped, if it did.
fn say_stop<R: Eprint, F: Reasons, T>(rt: &R, alloc: Global, files: &F, end: &Result<T, Stop<'_>>) {
    if let Err(stop) = end {
        let reason = reason_of(files, alloc, stop);
        let _ = rt.eprintln(format_args!("{stop}{reason}"));
    }
}

/// Says which faults a file has, if it has some.
fn say_faults<R: Eprint>(rt: &R, end: &Result<Option<Text>, Stop<'_>>) {
    if let Ok(Some(faults)) = end {
        let _ = rt.eprint(faults.as_str());
    }
}

/// Says why a check of handlers stopped, if it did.
fn say_end<R: Eprint, T, S: Display>(rt: &R, end: &Result<T, S>) {
    if let Err(stop) = end {
        let _ = rt.eprintln(stop);
    }
}

/// Does what the matches of a command line ask for, and returns the exit status. `clap` refuses a line
/// without a command.
#[tactic(auto, using(crate::proofs::DoesLemmas::obeys))]
pub(crate) fn obey<R: Print + Eprint, F: FileSource + Reasons>(
    rt: &R,
    alloc: Global,
    matches: &ArgMatches<'_>,
    files: &F,
) -> u8
    ensures does { Obeys (F.held files.now) (subcommand_rows_of matches.now) result }
    ensures table { result ≤ 4 }
{
    let Some(named) = matches.subcommand() else {
        return 2;
    };
    match subcommand_named(named.0) {
        Some(command) => obey_command(rt, alloc, command, named.1, files),
        None => 2,
    }
}
