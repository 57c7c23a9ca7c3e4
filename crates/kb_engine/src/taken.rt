//! What an event takes: the rule of a key press, or the entry of a choice. A host reads the command and its
//! arguments here, so that it can run commands of its own.
ghost use Rattle.std.specs.Prelude.{◌≡◌, [], ◌∷◌, ◌++◌, IfOk, OnErr, option_map};
ghost use Rattle.kb_engine.specs.Taken.{AreArguments, Completes, IsRule, TakesFound, TakesRule};
ghost use Rattle.kb_engine.specs.Taken.{bare, chosen, no_taken, prepared, prepared_line, taken_if};
ghost use Rattle.kb_engine.specs.declared.taken.TakenKind.TheVariants.{Nothing};
ghost use Rattle.kb_keys.specs.Chord.{chord_spelling};
ghost use Rattle.kb_script.specs.ScriptLine.{said_by};
ghost use Rattle.kb_session.specs.Inspect.{found_by};
ghost use Rattle.kb_session.specs.Palette.{entry_at};

use crate::outcome::Outcome;
use crate::plain::PlainCommand;
use kb_base::{NoMemory, Text};
use kb_keys::{Keystroke, write_strokes};
use kb_palette::Entry;
use kb_resolve::{Found, Resolved};
use kb_rules::{Json, Rule};
use kb_script::ScriptLine;
use kb_session::Session;
use kb_trace::Event;
use std::alloc::Global;

/// What an event did about commands.
#[derive(Clone, Copy, Debug, PartialEq, Eq)]
pub enum TakenKind {
    /// No command starts.
    Nothing,
    /// A key press opens a chord, or goes on with one.
    Chord,
    /// The command of a rule or of an entry starts. The empty command starts nothing.
    Started,
}

/// What an event takes.
#[derive(Debug, Drop)]
pub struct Taken {
    /// What the event did.
    pub kind: TakenKind,
    /// The keystrokes of a key press behind those of the open chord, in canonical form; empty for any other
    /// event.
    pub chord: Text,
    /// The identifier of the command that starts.
    pub command: Text,
    /// The arguments of the rule, as JSON without spaces; empty without arguments.
    pub arguments: Text,
    /// The file of the rule: `defaults`, `user`, or the identifier of an extension.
    pub source: Text,
    /// The place of the rule in its list: the number of elements above it.
    pub place: usize,
}

impl Taken {
    /// Nothing but these keystrokes.
    pub fn bare(alloc: Global, kind: TakenKind, chord: Text) -> Taken
        ensures { result ≡ bare kind chord }
    {
        Taken {
            kind,
            chord,
            command: Text::new(alloc),
            arguments: Text::new(alloc),
            source: Text::new(alloc),
            place: 0,
        }
    }
}

/// What an event takes of a session without its rule, before it is told: the keystrokes of a press, and the
/// command of a choice. Error: `NoMemory`.
pub(crate) fn prepared(
    alloc: Global,
    event: &Event,
    session: &Session<PlainCommand>,
) -> Result<Taken, NoMemory>
    ensures { IfOk result (λ taken. taken ≡ prepared event.now session.now.state) }
{
    match event {
        Event::Key(key) => prepared_key(alloc, *key, session),
        Event::Choose(number) => taken_by_choice(alloc, *number, session),
        _ => Ok(nothing_taken(alloc)),
    }
}

/// What a line of a script takes without its rule, before it is told. Error: `NoMemory`.
pub(crate) fn prepared_line(
    alloc: Global,
    said: &Option<ScriptLine<'_>>,
    session: &Session<PlainCommand>,
) -> Result<Taken, NoMemory>
    ensures { IfOk result (λ taken.
        taken ≡ prepared_line (option_map said_by said.now) session.now.state) }
{
    match said {
        Some(ScriptLine::Key(key)) => prepared_key(alloc, *key, session),
        Some(ScriptLine::Event(event)) => prepared(alloc, event, session),
        _ => Ok(nothing_taken(alloc)),
    }
}

/// What an event takes in all, behind it, by what it found. Error: `NoMemory`, where a rule was found.
pub(crate) fn completed(
    alloc: Global,
    found: Found,
    before: Taken,
    session: &Session<PlainCommand>,
) -> Result<Taken, NoMemory>
    ensures taken { IfOk result (Completes session.now.state found before) }
    ensures memory { OnErr result (IsRule found) }
{
    match found {
        Found::At(position) => match session.bindings().resolver().at(position) {
            Some(rule) => taken_by_rule(alloc, rule, before, session),
            None => Ok(before),
        },
        Found::More => Ok(Taken::bare(alloc, TakenKind::Chord, before.chord)),
        Found::Nothing => Ok(before),
    }
}

/// What an event takes that starts no command.
pub(crate) fn nothing_taken(alloc: Global) -> Taken
    ensures { result ≡ no_taken }
{
    Taken::bare(alloc, TakenKind::Nothing, Text::new(alloc))
}

/// What was taken behind an outcome: nothing, if nothing was done.
pub(crate) fn taken_behind(alloc: Global, outcome: Outcome, taken: Taken) -> Taken
    ensures { result ≡ taken_if outcome taken }
{
    match outcome {
        Outcome::Stopped | Outcome::NoMemory => nothing_taken(alloc),
        _ => taken,
    }
}

/// What a key press takes without its rule: the keystrokes. Error: `NoMemory`.
fn prepared_key(
    alloc: Global,
    key: Keystroke,
    session: &Session<PlainCommand>,
) -> Result<Taken, NoMemory>
    ensures { IfOk result (λ taken. taken
        ≡ bare Nothing (chord_spelling (session.now.state.pressed ++ key ∷ []))) }
{
    let chord = chord_text(alloc, session.pressed(), key)?;
    Ok(Taken::bare(alloc, TakenKind::Nothing, chord))
}

/// What the press takes that starts a rule's command, with its keystrokes. Error: `NoMemory`.
fn taken_by_rule(
    alloc: Global,
    rule: &Rule,
    before: Taken,
    session: &Session<PlainCommand>,
) -> Result<Taken, NoMemory>
    ensures { IfOk result (TakesRule session.now.state before.chord rule.now) }
{
    let command = Text::from_str(alloc, rule.command.as_str())?;
    let arguments = arguments_text(alloc, rule.args.as_ref())?;
    let source = Text::from_str(alloc, session.source(rule.origin))?;
    Ok(Taken {
        kind: TakenKind::Started,
        chord: before.chord,
        command,
        arguments,
        source,
        place: rule.place,
    })
}

/// What a press of a key would take. Nothing is pressed. Error: `NoMemory`.
pub(crate) fn looked_up(
    alloc: Global,
    key: &Keystroke,
    session: &Session<PlainCommand>,
) -> Result<Taken, NoMemory>
    ensures { IfOk result (TakesFound session.now.state
        (chord_spelling (session.now.state.pressed ++ key.now ∷ [])) (found_by key.now session.now.state)) }
{
    let before = prepared_key(alloc, *key, session)?;
    match session.look_up(*key)? {
        Resolved::Found(placed) => taken_by_rule(alloc, placed.rule, before, session),
        Resolved::More => Ok(Taken::bare(alloc, TakenKind::Chord, before.chord)),
        Resolved::Nothing => Ok(before),
    }
}

/// What a choice takes: the entry's command. Error: `NoMemory`.
fn taken_by_choice(
    alloc: Global,
    number: u32,
    session: &Session<PlainCommand>,
) -> Result<Taken, NoMemory>
    ensures { IfOk result (λ taken. taken ≡ chosen (entry_at number session.now.state.listed)) }
{
    match entry_at(session.listed(), number) {
        Some(entry) => {
            let command = entry.command.copied()?;
            let mut taken = Taken::bare(alloc, TakenKind::Started, Text::new(alloc));
            taken.command = command;
            Ok(taken)
        }
        None => Ok(nothing_taken(alloc)),
    }
}

/// The entry with a number, counted from 1, of a list of the palette, if there is one.
pub fn entry_at(listed: Option<&[Entry]>, number: u32) -> Option<&Entry>
    ensures { option_map (λ e. e.now) result ≡ entry_at number (option_map (λ l. l.now) listed.entry) }
{
    let entries = listed?;
    let place = number.checked_sub(1)?;
    entries.get(place as usize)
}

/// The canonical text of keystrokes with one more behind them. Error: `NoMemory`.
fn chord_text(alloc: Global, pressed: &[Keystroke], key: Keystroke) -> Result<Text, NoMemory>
    ensures { IfOk result (λ text. text ≡ chord_spelling (pressed.now ++ key ∷ [])) }
{
    let mut strokes = pressed.to_vec(alloc)?;
    strokes.push(key)?;
    let mut text = String::new(alloc);
    write_strokes(strokes.as_slice(), &mut text)?;
    Ok(Text::from_string(text))
}

/// The text of a rule's arguments, empty without them. Error: `NoMemory`.
fn arguments_text(alloc: Global, given: Option<&Json>) -> Result<Text, NoMemory>
    ensures { IfOk result (AreArguments (option_map (λ json. json.now) given.entry)) }
{
    match given {
        Some(json) => Ok(Text::from_string(json.as_value().to_string(alloc)?)),
        None => Ok(Text::new(alloc)),
    }
}
