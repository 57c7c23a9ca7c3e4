//! The lines of a script and their parser.
ghost use Rattle.std.specs.Prelude.{◌≡◌, ◌<◌, ◌∷◌, false, true, length, option_map, position};
ghost use Rattle.std.specs.Prelude.{IfOk, IfSome, IsSome, OnErr, MatchOption};
ghost use Rattle.std.specs.Char.{is_ascii_digit};
ghost use Rattle.std.specs.List.{list_any, list_all};
ghost use Rattle.std.specs.Str.{is_utf8};
ghost use Rattle.kb_core.specs.Native.{named};
ghost use Rattle.kb_keys.specs.Keystroke.{keystroke_of};
ghost use Rattle.kb_script.specs.Script as script;
ghost use Rattle.kb_script.specs.ScriptLine.{said_by, TakesAs};
ghost use Rattle.kb_trace.specs.declared.event.Event.TheVariants as event;

use kb_base::{Failure, NoMemory, Refusal, Text, is_blank_text};
use kb_context::ContextValue;
use kb_core::Native;
use kb_files::read_context_text;
use kb_keys::Keystroke;
use kb_registry::Ticket;
use kb_trace::Event;
use std::alloc::{AllocError, Global};
use std::str;

/// A parsed line of a script.
#[derive(Drop)]
pub enum ScriptLine<'a> {
    /// `key KEY`: a press of the key.
    Key(Keystroke),
    /// Another event: `focus SCOPE`, `palette [QUERY]`, `choose N`, `enable EXTENSION` or
    /// `disable EXTENSION`; or `Unread` for a line that doesn't parse.
    Event(Event),
    /// `set SCOPE KEY JSON`: sets a key in a scope.
    Set(&'a str, &'a str, ContextValue),
    /// `unset SCOPE KEY`: removes a key from a scope.
    Unset(&'a str, &'a str),
    /// `reload BYTES`: a reload of the user's rules from these bytes, which may be empty.
    Reload(&'a str),
    /// `register NATIVE`: registers the first closure for the native command on the shelf.
    Register(Native),
    /// `dispose N`: ends the registration with the ticket N, and puts its closure on the shelf.
    Dispose(Ticket),
    /// `update EXTENSION JSON`: gives the extension the handlers of these bytes, which may be empty.
    Update(&'a str, &'a str),
    /// `rule KEY COMMAND [TEXT]`, in the line with this number: adds a rule at the bottom of the user's
    /// rules, if the session takes such lines. Without a text it is empty.
    Rule(u64, Keystroke, &'a str, &'a str),
}

/// Parses one line. `None` for blank lines and comments: an empty line, or one that begins with `#`. A
/// line that doesn't parse is the event `Unread` with the line's number. `NoMemory` if the texts of an
/// event or the value of a key can't be allocated; a blank line or a comment allocates nothing.
pub fn read_line<'a>(
    alloc: Global,
    number: u64,
    line: &'a [u8],
) -> Result<Option<ScriptLine<'a>>, NoMemory>
    ensures said { IfOk result (λ said. option_map said_by said ≡ script.line_said number line.now) }
    ensures memory { OnErr result (IsSome (script.line_said number line.now)) }
{
    match line {
        [] | [b'#', ..] => Ok(None),
        _ => Ok(Some(read_text(alloc, number, line)?)),
    }
}

/// Splits bytes into the first line and the bytes after its line feed, if there is one. A carriage
/// return right before the line feed isn't part of the line.
#[tactic(auto, using(crate::proofs::LineLemmas::first_line, crate::proofs::LineLemmas::only_line))]
pub fn split_line(bytes: &[u8]) -> (&[u8], Option<&[u8]>)
    ensures lines { script.lines_of bytes.now
        ≡ result.0.now ∷ script.lines_behind (option_map (λ rest. rest.now) result.1) }
    ensures shorter { IfSome result.1 (λ rest. length rest.now < length bytes.now) }
{
    match find_line_feed(bytes) {
        Some(end) => (without_return(&bytes[..end]), Some(&bytes[end + 1..])),
        None => (bytes, None),
    }
}

fn find_line_feed(bytes: &[u8]) -> Option<usize>
    ensures { result ≡ position script.is_line_feed bytes.now }
{
    bytes.iter().position(|b| *b == b'\n')
}

fn without_return(line: &[u8]) -> &[u8]
    ensures { result.now ≡ script.without_return line.now }
{
    match line.last() {
        Some(b'\r') => &line[..line.len() - 1],
        _ => line,
    }
}

/// Parses a line that says something. Its text is read and split once.
fn read_text<'a>(alloc: Global, number: u64, line: &'a [u8]) -> Result<ScriptLine<'a>, NoMemory>
    ensures { IfOk result (λ said.
        said_by said ≡ script.or_unread number (script.text_said number line.now)) }
{
    let Some(text) = text_of(line) else {
        return Ok(ScriptLine::Event(Event::Unread(number)));
    };
    match split_word(text) {
        Some((word, rest)) => read_words(alloc, number, word, rest),
        None => match read_lone(alloc, text) {
            Some(said) => Ok(said),
            None => Ok(ScriptLine::Event(Event::Unread(number))),
        },
    }
}

/// The text of a line, or `None` if its bytes aren't UTF-8.
#[tactic(auto, using(crate::proofs::LineLemmas::is_text, crate::proofs::LineLemmas::is_no_text))]
fn text_of(line: &[u8]) -> Option<&str>
    ensures { MatchOption result (is_utf8 line.now ≡ false)
        (λ text. (text.now ≡ line.now) × (is_utf8 line.now ≡ true)) }
{
    match str::from_utf8(line) {
        Ok(text) => Some(text),
        Err(_) => None,
    }
}

/// Parses a line of several words. Most are presses, so these are told first.
fn read_words<'a>(
    alloc: Global,
    number: u64,
    word: &str,
    rest: &'a str,
) -> Result<ScriptLine<'a>, NoMemory>
    ensures { IfOk result (λ said.
        said_by said ≡ script.or_unread number (script.word_said number word.now rest.now)) }
{
    if word == "key" {
        return Ok(read_key(number, rest));
    }
    match read_word(alloc, number, word, rest)? {
        Some(said) => Ok(said),
        None => Ok(ScriptLine::Event(Event::Unread(number))),
    }
}

/// The press of a key, or a line that doesn't parse.
fn read_key<'a>(number: u64, key: &str) -> ScriptLine<'a>
    ensures { said_by result ≡ script.or_unread number (script.event_said (script.key_event key.now)) }
{
    match Keystroke::parse(key) {
        Ok(key) => ScriptLine::Key(key),
        Err(_) => ScriptLine::Event(Event::Unread(number)),
    }
}

/// Parses a line that isn't a press, by its first word.
fn read_word<'a>(
    alloc: Global,
    number: u64,
    word: &str,
    rest: &'a str,
) -> Result<Option<ScriptLine<'a>>, NoMemory>
    ensures { IfOk result (λ said. option_map said_by said ≡ script.other_said number word.now rest.now) }
{
    match word {
        "reload" => Ok(Some(ScriptLine::Reload(rest))),
        "register" => Ok(read_register(rest)),
        "dispose" => Ok(read_dispose(rest)),
        "update" => Ok(read_update(rest)),
        "rule" => Ok(read_rule(number, rest)),
        _ => read_event(alloc, word, rest),
    }
}

/// The line that an event is.
fn line_of<'a>(event: Option<Event>) -> Option<ScriptLine<'a>>
    ensures { option_map said_by result ≡ script.event_said event }
{
    match event {
        Some(event) => Some(ScriptLine::Event(event)),
        None => None,
    }
}

/// Parses another event than a press, by the first word of its line.
fn read_event<'a>(
    alloc: Global,
    word: &str,
    rest: &'a str,
) -> Result<Option<ScriptLine<'a>>, NoMemory>
    ensures { IfOk result (λ said.
        option_map said_by said ≡ script.event_said (script.event_told word.now rest.now)) }
{
    match word {
        "focus" => Ok(line_of(read_focus(alloc, rest)?)),
        "set" => read_set(alloc, rest),
        "unset" => Ok(read_unset(rest)),
        "enable" => Ok(line_of(read_enable(alloc, rest)?)),
        "disable" => Ok(line_of(read_disable(alloc, rest)?)),
        "palette" => Ok(line_of(Some(Event::Palette(Text::from_str(alloc, rest)?)))),
        "choose" => Ok(line_of(read_choice(rest))),
        _ => Ok(None),
    }
}

/// Splits a text at its first space, or `None` if it has none.
fn split_word(text: &str) -> Option<(&str, &str)>
    ensures { option_map (λ parts. (parts.0.now, parts.1.now)) result ≡ script.split_word text.now }
{
    text.split_once(' ')
}

fn read_lone(alloc: Global, word: &str) -> Option<ScriptLine<'_>>
    ensures { option_map said_by result ≡ script.lone_said word.now }
{
    match word {
        "reload" => Some(ScriptLine::Reload("")),
        "palette" => Some(ScriptLine::Event(Event::Palette(Text::new(alloc)))),
        _ => None,
    }
}

fn read_register(name: &str) -> Option<ScriptLine<'_>>
    ensures { option_map said_by result ≡ script.registration name.now }
{
    match Native::named(name) {
        Some(native) => Some(ScriptLine::Register(native)),
        None => None,
    }
}

fn read_dispose(digits: &str) -> Option<ScriptLine<'_>>
    ensures { option_map said_by result ≡ script.disposal digits.now }
{
    match read_number(digits) {
        Some(number) => Some(ScriptLine::Dispose(Ticket(number))),
        None => None,
    }
}

fn read_update(rest: &str) -> Option<ScriptLine<'_>>
    ensures { option_map said_by result ≡ script.update rest.now (script.split_word rest.now) }
{
    match split_word(rest) {
        Some((id, json)) => update_of(id, json),
        None => update_of(rest, ""),
    }
}

fn update_of<'a>(id: &'a str, json: &'a str) -> Option<ScriptLine<'a>>
    ensures { option_map said_by result ≡ script.update_of id.now json.now }
{
    if is_word(id) {
        Some(ScriptLine::Update(id, json))
    } else {
        None
    }
}

/// The rule of a line: a key, a command, and a text if a space follows the command.
fn read_rule(number: u64, rest: &str) -> Option<ScriptLine<'_>>
    ensures { option_map said_by result ≡ script.rule_said number (script.split_word rest.now) }
{
    let (key, rest) = split_word(rest)?;
    keyed_rule(number, key, rest)
}

/// The rule of a line on the key with this text.
fn keyed_rule<'a>(number: u64, key: &str, rest: &'a str) -> Option<ScriptLine<'a>>
    ensures { option_map said_by result ≡ script.keyed_rule number (keystroke_of key.now) rest.now }
{
    match Keystroke::parse(key) {
        Ok(key) => rule_behind(number, key, rest),
        Err(_) => None,
    }
}

/// The rule of a line on this key, by what stands behind the key.
fn rule_behind<'a>(number: u64, key: Keystroke, rest: &'a str) -> Option<ScriptLine<'a>>
    ensures { option_map said_by result
        ≡ script.rule_behind number key rest.now (script.split_word rest.now) }
{
    match split_word(rest) {
        Some((command, text)) => rule_with(number, key, command, text),
        None => rule_with(number, key, rest, ""),
    }
}

fn rule_with<'a>(
    number: u64,
    key: Keystroke,
    command: &'a str,
    text: &'a str,
) -> Option<ScriptLine<'a>>
    ensures { option_map said_by result ≡ script.rule_with number key command.now text.now }
{
    if is_word(command) {
        Some(ScriptLine::Rule(number, key, command, text))
    } else {
        None
    }
}

/// The number that a text of decimal digits denotes, or `None` if it has no digits, other characters,
/// or is too large. The digits are checked first, since `parse` accepts a sign too.
#[tactic(auto, using(crate::proofs::LineLemmas::numbers))]
fn read_number(digits: &str) -> Option<u64>
    ensures { result ≡ script.number_of digits.now }
{
    if !is_digits(digits) {
        return None;
    }
    digits.parse::<u64>().ok()
}

fn is_digits(text: &str) -> bool
    ensures { result ≡ list_all is_ascii_digit text.now }
{
    text.as_bytes().iter().all(|byte| is_digit(*byte))
}

fn is_digit(byte: u8) -> bool
    ensures { result ≡ is_ascii_digit byte }
{
    byte.is_ascii_digit()
}

/// The choice of an entry, or `None` if the number isn't one below 2^32.
fn read_choice(digits: &str) -> Option<Event>
    ensures { result ≡ script.choice digits.now }
{
    let number = read_number(digits)?;
    match u32::try_from(number) {
        Ok(number) => Some(Event::Choose(number)),
        Err(_) => None,
    }
}

/// Whether a text is a word: not empty and without spaces.
fn is_word(text: &str) -> bool
    ensures { result ≡ script.is_word text.now }
{
    !text.is_empty() && !has_space(text)
}

fn has_space(text: &str) -> bool
    ensures { result ≡ list_any script.is_space text.now }
{
    text.as_bytes().iter().any(|byte| is_space(*byte))
}

fn is_space(byte: u8) -> bool
    ensures { result ≡ script.is_space byte }
{
    byte == b' '
}

fn read_focus(alloc: Global, scope: &str) -> Result<Option<Event>, NoMemory>
    ensures { IfOk result (λ event. event ≡ script.focus_event scope.now) }
{
    if !is_word(scope) {
        return Ok(None);
    }
    Ok(Some(Event::Focus(Text::from_str(alloc, scope)?)))
}

fn read_enable(alloc: Global, id: &str) -> Result<Option<Event>, NoMemory>
    ensures { IfOk result (λ event. event ≡ script.enable_event id.now) }
{
    if !is_word(id) {
        return Ok(None);
    }
    Ok(Some(Event::Enable(Text::from_str(alloc, id)?)))
}

fn read_disable(alloc: Global, id: &str) -> Result<Option<Event>, NoMemory>
    ensures { IfOk result (λ event. event ≡ script.disable_event id.now) }
{
    if !is_word(id) {
        return Ok(None);
    }
    Ok(Some(Event::Disable(Text::from_str(alloc, id)?)))
}

fn read_unset<'a>(rest: &'a str) -> Option<ScriptLine<'a>>
    ensures { option_map said_by result
        ≡ script.event_said (script.unset_event (script.split_word rest.now)) }
{
    let (scope, key) = split_word(rest)?;
    if !is_word(scope) || !is_word(key) {
        return None;
    }
    Some(ScriptLine::Unset(scope, key))
}

fn read_set<'a>(alloc: Global, rest: &'a str) -> Result<Option<ScriptLine<'a>>, NoMemory>
    ensures { IfOk result (λ said.
        option_map said_by said ≡ script.event_said (script.set_event (script.split_word rest.now))) }
{
    let Some((scope, rest)) = split_word(rest) else {
        return Ok(None);
    };
    let Some((key, json)) = split_word(rest) else {
        return Ok(None);
    };
    read_assignment(alloc, scope, key, json)
}

fn read_assignment<'a>(
    alloc: Global,
    scope: &'a str,
    key: &'a str,
    json: &str,
) -> Result<Option<ScriptLine<'a>>, NoMemory>
    ensures { IfOk result (λ said.
        option_map said_by said ≡ script.event_said (script.assignment scope.now key.now json.now)) }
{
    if !is_word(scope) || !is_word(key) || is_blank_text(json) {
        return Ok(None);
    }
    let value = value_read(read_context_text(alloc, json))?;
    Ok(assigned(scope, key, value))
}

/// The value that was read, `None` for a text that isn't a context value, or refused memory.
fn value_read(
    read: Result<ContextValue, Failure<Refusal>>,
) -> Result<Option<ContextValue>, NoMemory>
    ensures { TakesAs read result }
{
    match read {
        Ok(value) => Ok(Some(value)),
        Err(Failure::Fault(_)) => Ok(None),
        Err(Failure::NoMemory) => Err(AllocError),
    }
}

/// The line that sets a key to a value, or `None` if there is no value.
fn assigned<'a>(scope: &'a str, key: &'a str, value: Option<ContextValue>) -> Option<ScriptLine<'a>>
    ensures { option_map said_by result
        ≡ script.event_said (option_map (event.SetKey scope.now key.now) value) }
{
    match value {
        Some(value) => Some(ScriptLine::Set(scope, key, value)),
        None => None,
    }
}
