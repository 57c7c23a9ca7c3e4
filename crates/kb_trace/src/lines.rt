//! The lines of a trace. Each function writes its line into the text of `Lines::begin_line`, which reuses
//! memory, and adds it to the trace. Error: `NoMemory`; the trace is then unchanged.
ghost use Rattle.std.specs.Prelude.{◌≡◌, [], ◌∷◌, ◌++◌, IfOk, OnOk, OnErr, string_bytes, codes, decimal};
ghost use Rattle.std.specs.List.{list_all};
ghost use Rattle.kb_trace.specs.Lines as line;
ghost use Rattle.kb_trace.specs.Lines.{has_itself};

use json::Writer;
use kb_base::{FaultKind, NoMemory, Refusal};
use kb_core::Buffer;
use kb_keys::{Keystroke, write_strokes};
use kb_stream::Lines;

/// The length in bytes up to which a look at each byte costs less than the writer of JSON, which passes over
/// many bytes at once.
const SHORT: usize = 32;

/// `key KEYS`, the beginning of the line for a key press: the keystrokes pressed so far, and the new one.
#[tactic(auto, using(crate::proofs::LineTexts::key_texts))]
pub fn key_text(
    lines: &mut Lines,
    pressed: &[Keystroke],
    key: Keystroke,
) -> Result<String, NoMemory>
    ensures text { IfOk result (λ made. string_bytes made ≡ line.key_text pressed.now key) }
    ensures same { lines.new ≡ lines.old }
{
    let mut text = lines.begin_line();
    text.push_str("key ")?;
    if pressed.is_empty() {
        key.write_to(&mut text)?;
        return Ok(text);
    }
    write_strokes(pressed, &mut text)?;
    text.push(' ')?;
    key.write_to(&mut text)?;
    Ok(text)
}

/// Adds the line that consists of `text` and `end`.
pub fn ended(lines: &mut Lines, text: String, end: &str) -> Result<(), NoMemory>
    ensures ok { OnOk result (lines.new ≡ lines.old ++ (string_bytes text ++ end.now) ∷ []) }
    ensures err { OnErr result (lines.new ≡ lines.old) }
{
    let mut text = text;
    text.push_str(end)?;
    lines.push(text)
}

/// Adds the line `key KEYS: start COMMAND`, where `text` is `key KEYS`.
pub fn start_line(lines: &mut Lines, text: String, command: &str) -> Result<(), NoMemory>
    ensures ok { OnOk result (lines.new ≡ lines.old ++ line.start_line (string_bytes text) command.now ∷ []) }
    ensures err { OnErr result (lines.new ≡ lines.old) }
{
    let mut text = text;
    text.push_str(": start ")?;
    text.push_str(command)?;
    lines.push(text)
}

/// `left KEYS`: an event leaves a pending chord.
pub fn left_line(lines: &mut Lines, pressed: &[Keystroke]) -> Result<(), NoMemory>
    ensures ok { OnOk result (lines.new ≡ lines.old ++ line.left_line pressed.now ∷ []) }
    ensures err { OnErr result (lines.new ≡ lines.old) }
{
    let mut text = lines.begin_line();
    text.push_str("left ")?;
    write_strokes(pressed, &mut text)?;
    lines.push(text)
}

/// `focus SCOPE`: a scope got the focus.
pub fn focus_line(lines: &mut Lines, scope: &str) -> Result<(), NoMemory>
    ensures ok { OnOk result (lines.new ≡ lines.old ++ line.focus_line scope.now ∷ []) }
    ensures err { OnErr result (lines.new ≡ lines.old) }
{
    let mut text = lines.begin_line();
    write!(text, "focus {scope}")?;
    lines.push(text)
}

/// `set SCOPE KEY`: a context key got a value.
pub fn set_line(lines: &mut Lines, scope: &str, key: &str) -> Result<(), NoMemory>
    ensures ok { OnOk result (lines.new ≡ lines.old ++ line.set_line scope.now key.now ∷ []) }
    ensures err { OnErr result (lines.new ≡ lines.old) }
{
    let mut text = lines.begin_line();
    write!(text, "set {scope} {key}")?;
    lines.push(text)
}

/// `unset SCOPE KEY`: a context key was removed.
pub fn unset_line(lines: &mut Lines, scope: &str, key: &str) -> Result<(), NoMemory>
    ensures ok { OnOk result (lines.new ≡ lines.old ++ line.unset_line scope.now key.now ∷ []) }
    ensures err { OnErr result (lines.new ≡ lines.old) }
{
    let mut text = lines.begin_line();
    write!(text, "unset {scope} {key}")?;
    lines.push(text)
}

/// `reloaded`: the user's rules were read again.
pub fn reloaded_line(lines: &mut Lines) -> Result<(), NoMemory>
    ensures ok { OnOk result (lines.new ≡ lines.old ++ line.reloaded_line ∷ []) }
    ensures err { OnErr result (lines.new ≡ lines.old) }
{
    let mut text = lines.begin_line();
    text.push_str("reloaded")?;
    lines.push(text)
}

/// `rule KEY`: a rule on this key was added at the bottom of the user's rules.
pub fn rule_line(lines: &mut Lines, key: Keystroke) -> Result<(), NoMemory>
    ensures ok { OnOk result (lines.new ≡ lines.old ++ line.rule_line key ∷ []) }
    ensures err { OnErr result (lines.new ≡ lines.old) }
{
    let mut text = lines.begin_line();
    text.push_str("rule ")?;
    key.write_to(&mut text)?;
    lines.push(text)
}

/// `palette COUNT`: the palette lists so many entries.
pub fn palette_line(lines: &mut Lines, count: usize) -> Result<(), NoMemory>
    ensures ok { OnOk result (lines.new ≡ lines.old ++ line.palette_line count ∷ []) }
    ensures err { OnErr result (lines.new ≡ lines.old) }
{
    let mut text = lines.begin_line();
    write!(text, "palette {count}")?;
    lines.push(text)
}

/// `NUMBER. LABEL [COMMAND]`: an entry of the palette.
pub fn entry_line(
    lines: &mut Lines,
    number: usize,
    label: &str,
    command: &str,
) -> Result<(), NoMemory>
    ensures ok { OnOk result (lines.new ≡ lines.old ++ line.entry_line number label.now command.now ∷ []) }
    ensures err { OnErr result (lines.new ≡ lines.old) }
{
    let mut text = lines.begin_line();
    write!(text, "{number}. {label} [{command}]")?;
    lines.push(text)
}

/// `choose NUMBER`, the beginning of the line for a choice.
pub fn choose_text(lines: &mut Lines, number: u32) -> Result<String, NoMemory>
    ensures text { IfOk result (λ made. string_bytes made ≡ line.choose_text number) }
    ensures same { lines.new ≡ lines.old }
{
    let mut text = lines.begin_line();
    write!(text, "choose {number}")?;
    Ok(text)
}

/// `enabled EXTENSION`: an extension is enabled.
pub fn enabled_line(lines: &mut Lines, id: &str) -> Result<(), NoMemory>
    ensures ok { OnOk result (lines.new ≡ lines.old ++ line.enabled_line id.now ∷ []) }
    ensures err { OnErr result (lines.new ≡ lines.old) }
{
    worded(lines, "enabled ", id)
}

/// `disabled EXTENSION`: an extension is disabled.
pub fn disabled_line(lines: &mut Lines, id: &str) -> Result<(), NoMemory>
    ensures ok { OnOk result (lines.new ≡ lines.old ++ line.disabled_line id.now ∷ []) }
    ensures err { OnErr result (lines.new ≡ lines.old) }
{
    worded(lines, "disabled ", id)
}

/// `updated EXTENSION`: an extension got other handlers.
pub fn updated_line(lines: &mut Lines, id: &str) -> Result<(), NoMemory>
    ensures ok { OnOk result (lines.new ≡ lines.old ++ line.updated_line id.now ∷ []) }
    ensures err { OnErr result (lines.new ≡ lines.old) }
{
    worded(lines, "updated ", id)
}

/// `registered COMMAND TICKET`: a closure was registered.
pub fn registered_line(lines: &mut Lines, command: &str, ticket: u64) -> Result<(), NoMemory>
    ensures ok { OnOk result (lines.new ≡ lines.old ++ line.registered_line command.now ticket ∷ []) }
    ensures err { OnErr result (lines.new ≡ lines.old) }
{
    ticketed(lines, "registered ", command, ticket)
}

/// `disposed COMMAND TICKET`: a closure was disposed.
pub fn disposed_line(lines: &mut Lines, command: &str, ticket: u64) -> Result<(), NoMemory>
    ensures ok { OnOk result (lines.new ≡ lines.old ++ line.disposed_line command.now ticket ∷ []) }
    ensures err { OnErr result (lines.new ≡ lines.old) }
{
    ticketed(lines, "disposed ", command, ticket)
}

/// Adds a line of words, a name and the number of a ticket.
fn ticketed(lines: &mut Lines, words: &str, name: &str, ticket: u64) -> Result<(), NoMemory>
    ensures ok { OnOk result
        (lines.new ≡ lines.old ++ (words.now ++ (name.now ++ (codes " " ++ decimal ticket))) ∷ []) }
    ensures err { OnErr result (lines.new ≡ lines.old) }
{
    let mut text = lines.begin_line();
    text.push_str(words)?;
    write!(text, "{name} {ticket}")?;
    lines.push(text)
}

/// `run COMMAND`: an element of `runCommands` starts.
pub fn run_line(lines: &mut Lines, command: &str) -> Result<(), NoMemory>
    ensures ok { OnOk result (lines.new ≡ lines.old ++ line.run_line command.now ∷ []) }
    ensures err { OnErr result (lines.new ≡ lines.old) }
{
    worded(lines, "run ", command)
}

/// `refused NUMBER NAME`, or `refused NUMBER NAME DETAIL` if the refusal has a detail.
pub fn refused_line(lines: &mut Lines, refusal: &Refusal) -> Result<(), NoMemory>
    ensures ok { OnOk result (lines.new ≡ lines.old ++ line.refused_line refusal.now ∷ []) }
    ensures err { OnErr result (lines.new ≡ lines.old) }
{
    let text = refused_text(lines.begin_line(), refusal)?;
    lines.push(text)
}

/// Appends the words of a refusal to a text. Error: `NoMemory`.
fn refused_text(text: String, refusal: &Refusal) -> Result<String, NoMemory>
    ensures { IfOk result (λ made. string_bytes made ≡ string_bytes text ++ line.refused_line refusal.now) }
{
    let mut text = text;
    let fault = refusal.kind;
    match &refusal.detail {
        Some(detail) => {
            let detail = detail.as_str();
            write!(text, "refused {fault} {detail}")?;
            Ok(text)
        }
        None => {
            write!(text, "refused {fault}")?;
            Ok(text)
        }
    }
}

/// `not found COMMAND`: the command does not exist.
pub fn not_found_line(lines: &mut Lines, command: &str) -> Result<(), NoMemory>
    ensures ok { OnOk result (lines.new ≡ lines.old ++ line.not_found_line command.now ∷ []) }
    ensures err { OnErr result (lines.new ≡ lines.old) }
{
    worded(lines, "not found ", command)
}

/// `bad arguments COMMAND`: the arguments do not fit the command.
pub fn bad_arguments_line(lines: &mut Lines, command: &str) -> Result<(), NoMemory>
    ensures ok { OnOk result (lines.new ≡ lines.old ++ line.bad_arguments_line command.now ∷ []) }
    ensures err { OnErr result (lines.new ≡ lines.old) }
{
    worded(lines, "bad arguments ", command)
}

/// Adds a line of words and a name.
fn worded(lines: &mut Lines, words: &str, name: &str) -> Result<(), NoMemory>
    ensures ok { OnOk result (lines.new ≡ lines.old ++ (words.now ++ name.now) ∷ []) }
    ensures err { OnErr result (lines.new ≡ lines.old) }
{
    let mut text = lines.begin_line();
    text.push_str(words)?;
    text.push_str(name)?;
    lines.push(text)
}

/// `unread line NUMBER`: a line of a script cannot be parsed.
pub fn unread_line(lines: &mut Lines, number: u64) -> Result<(), NoMemory>
    ensures ok { OnOk result (lines.new ≡ lines.old ++ line.unread_line number ∷ []) }
    ensures err { OnErr result (lines.new ≡ lines.old) }
{
    let mut text = lines.begin_line();
    write!(text, "unread line {number}")?;
    lines.push(text)
}

/// `trap NUMBER NAME COMMAND PLACE`: a handler trapped at the instruction with the index PLACE.
pub fn trap_line(
    lines: &mut Lines,
    fault: FaultKind,
    command: &str,
    place: usize,
) -> Result<(), NoMemory>
    ensures ok { OnOk result (lines.new ≡ lines.old ++ line.trap_line fault command.now place ∷ []) }
    ensures err { OnErr result (lines.new ≡ lines.old) }
{
    let mut text = lines.begin_line();
    write!(text, "trap {fault} {command} {place}")?;
    lines.push(text)
}

/// `done BEFORE AFTER`: a command ran. BEFORE and AFTER are the texts before and after the caret, as JSON
/// strings.
pub fn done_line(lines: &mut Lines, buffer: &Buffer) -> Result<(), NoMemory>
    ensures ok { OnOk result (lines.new ≡ lines.old ++ line.done_line buffer.now ∷ []) }
    ensures err { OnErr result (lines.new ≡ lines.old) }
{
    let text = done_text(lines.begin_line(), buffer)?;
    lines.push(text)
}

/// Appends the words of a `done` line to a text. Error: `NoMemory`.
fn done_text(text: String, buffer: &Buffer) -> Result<String, NoMemory>
    ensures { IfOk result (λ made. string_bytes made ≡ string_bytes text ++ line.done_line buffer.now) }
{
    let mut text = text;
    text.push_str("done ")?;
    let mut text = with_json(text, buffer.before.as_str())?;
    text.push_str(" ")?;
    with_json(text, buffer.after.as_str())
}

/// Appends a text as a JSON string. Error: `NoMemory`.
#[tactic(auto, using(crate::proofs::LineTexts::plain_string))]
fn with_json(text: String, value: &str) -> Result<String, NoMemory>
    ensures { IfOk result (λ made. string_bytes made ≡ string_bytes text ++ line.json_string value.now) }
{
    if value.len() <= SHORT && is_plain(value.as_bytes()) {
        return quoted(text, value);
    }
    escaped(text, value)
}

/// Whether JSON escapes no byte of a text.
fn is_plain(text: &[u8]) -> bool
    ensures { result ≡ list_all has_itself text.now }
{
    let mut plain = true;
    for byte in text {
        plain = plain && is_plain_byte(*byte);
    }
    plain
}

/// Whether JSON has a byte as it is.
fn is_plain_byte(byte: u8) -> bool
    ensures { result ≡ has_itself byte }
{
    byte >= 32 && byte != b'"' && byte != b'\\'
}

/// Appends a text between quotes.
fn quoted(text: String, value: &str) -> Result<String, NoMemory>
    ensures { IfOk result (λ made.
        string_bytes made ≡ string_bytes text ++ (34 ∷ (value.now ++ 34 ∷ []))) }
{
    let mut text = text;
    text.push('"')?;
    text.push_str(value)?;
    text.push('"')?;
    Ok(text)
}

/// Appends a text as a JSON string with its escapes. It uses `json::Writer`, with which `serde_json` prints,
/// since `serde_json` itself would need a value and a text of its own. Error: `NoMemory`.
#[tactic(auto, using(crate::proofs::LineTexts::print_string))]
fn escaped(text: String, value: &str) -> Result<String, NoMemory>
    ensures { IfOk result (λ made. string_bytes made ≡ string_bytes text ++ line.json_string value.now) }
{
    let mut writer = Writer::new(text.into_bytes());
    writer.string(value)?;
    Ok(String::from_utf8(writer.into_inner()).unwrap())
}
