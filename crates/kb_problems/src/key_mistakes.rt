//! What is wrong with the text of keystrokes.
use crate::near::is_near;
use kb_base::{FaultKind, NoMemory};
use kb_keys::{Chord, Keystroke};
use std::alloc::Global;

/// Long names of keys and modifiers, also those that people write otherwise, which are easily misspelled.
const NAMES: [&str; 25] = [
    "ctrl",
    "shift",
    "alt",
    "meta",
    "enter",
    "escape",
    "tab",
    "space",
    "backspace",
    "delete",
    "insert",
    "home",
    "end",
    "pageup",
    "pagedown",
    "left",
    "right",
    "up",
    "down",
    "capslock",
    "pausebreak",
    "cmd",
    "win",
    "return",
    "option",
];

/// The key name that people mean by another one.
fn alias_of(name: &str) -> Option<&'static str> {
    match name {
        "esc" => Some("escape"),
        "return" | "cr" => Some("enter"),
        "del" => Some("delete"),
        "ins" => Some("insert"),
        "bs" | "back" => Some("backspace"),
        "spacebar" => Some("space"),
        "pgup" | "page_up" | "prior" => Some("pageup"),
        "pgdn" | "pgdown" | "page_down" | "next" => Some("pagedown"),
        "arrowleft" | "leftarrow" => Some("left"),
        "arrowright" | "rightarrow" => Some("right"),
        "arrowup" | "uparrow" => Some("up"),
        "arrowdown" | "downarrow" => Some("down"),
        "pause" | "break" => Some("pausebreak"),
        "caps" => Some("capslock"),
        "minus" | "hyphen" | "dash" => Some("-"),
        "plus" | "equal" | "equals" => Some("="),
        "comma" => Some(","),
        "period" | "dot" => Some("."),
        "slash" => Some("/"),
        "backslash" => Some("\\"),
        "semicolon" => Some(";"),
        "quote" => Some("'"),
        "backquote" | "backtick" | "grave" => Some("`"),
        "option" | "opt" => Some("alt"),
        "control" | "ctl" | "strg" | "mod" | "ctrlcmd" | "cmdorctrl" => Some("ctrl"),
        "umschalt" | "maj" => Some("shift"),
        "command" | "super" | "windows" => Some("meta"),
        "entf" | "suppr" => Some("delete"),
        "einfg" => Some("insert"),
        "pos1" => Some("home"),
        "ende" | "fin" => Some("end"),
        _ => None,
    }
}

/// The keystroke that types a sign on a US keyboard, for a sign that is no key there.
fn shifted(sign: &str) -> Option<&'static str> {
    match sign {
        "!" => Some("shift+1"),
        "@" => Some("shift+2"),
        "#" => Some("shift+3"),
        "$" => Some("shift+4"),
        "%" => Some("shift+5"),
        "^" => Some("shift+6"),
        "&" => Some("shift+7"),
        "*" => Some("shift+8"),
        "(" => Some("shift+9"),
        ")" => Some("shift+0"),
        "_" => Some("shift+-"),
        "{" => Some("shift+["),
        "}" => Some("shift+]"),
        "|" => Some("shift+\\"),
        ":" => Some("shift+;"),
        "\"" => Some("shift+'"),
        "<" => Some("shift+,"),
        ">" => Some("shift+."),
        "?" => Some("shift+/"),
        "~" => Some("shift+`"),
        _ => None,
    }
}

/// The name that is meant where one edit makes a known one of it.
fn near_name(name: &str) -> Option<&'static str> {
    for known in NAMES.as_slice() {
        if is_near(name, *known) {
            return Some(alias_of(*known).unwrap_or(*known));
        }
    }
    None
}

/// The name that is meant by another one, if one is known.
fn meant_by(alloc: Global, name: &str) -> Result<Option<&'static str>, NoMemory> {
    let mut lower = String::from_str(alloc, name)?;
    lower.make_ascii_lowercase();
    if let Some(name) = alias_of(lower.as_str()) {
        return Ok(Some(name));
    }
    Ok(near_name(lower.as_str()))
}

/// The first keystroke of a text that can't be read.
fn first_unread(text: &str) -> Option<&str> {
    for stroke in text.split(' ') {
        if !stroke.is_empty() && Keystroke::parse(stroke).is_err() {
            return Some(stroke);
        }
    }
    None
}

/// The first word of a keystroke that is no modifier; between two signs, or behind the last, it is empty.
fn unknown_word(stroke: &str) -> &str {
    for part in stroke.split('+') {
        if let Some(word) = unknown_part(part) {
            return word;
        }
    }
    stroke
}

/// The first word of a part of a keystroke that is no modifier.
fn unknown_part(part: &str) -> Option<&str> {
    for word in part.split('-') {
        if !is_modifier(word) {
            return Some(word);
        }
    }
    None
}

/// Whether a word is a modifier.
fn is_modifier(word: &str) -> bool {
    for name in ["ctrl", "shift", "alt", "meta", "cmd", "win"].as_slice() {
        if word.eq_ignore_ascii_case(*name) {
            return true;
        }
    }
    false
}

/// A sentence on a text of keystrokes that has a fault. It names the key that may be meant.
///
/// Error: `NoMemory`.
pub fn key_sentence(alloc: Global, kind: FaultKind, text: &str) -> Result<String, NoMemory> {
    match kind {
        FaultKind::TooManySteps => format!(in alloc;
            "more than four keystrokes; a chord has at most four"
        ),
        FaultKind::EmptyKey => format!(in alloc;
            "no key stands behind the modifiers, or there are only spaces"
        ),
        _ => unknown_sentence(alloc, text),
    }
}

/// A text without the spaces round its signs, if it has such spaces and can be read without them.
fn without_spaces(alloc: Global, text: &str) -> Result<Option<String>, NoMemory> {
    let mut made = String::new(alloc);
    let mut is_joined = true;
    let mut has_space = false;
    for part in text.split(' ') {
        if part.is_empty() {
            continue;
        }
        let goes_on = is_joined || part.starts_with('+');
        if !goes_on {
            made.push(' ')?;
        }
        has_space = has_space || (goes_on && !made.is_empty());
        made.push_str(part)?;
        is_joined = part.ends_with('+');
    }
    if has_space && Chord::parse(alloc, made.as_str()).is_ok() {
        return Ok(Some(made));
    }
    Ok(None)
}

/// Whether a word is a scan code, as `[KeyA]`.
fn is_scan_code(word: &str) -> bool {
    word.len() > 2 && word.starts_with('[') && word.ends_with(']')
}

/// A sentence on a word that names no key.
fn word_sentence(alloc: Global, word: &str) -> Result<String, NoMemory> {
    if is_scan_code(word) {
        return format!(in alloc;
            "`{word}` is a scan code, which isn't supported; write the key that it is on your keyboard"
        );
    }
    if let Some(keys) = shifted(word) {
        return format!(in alloc; "there is no key `{word}`; on a US keyboard it is `{keys}`");
    }
    if let Some(key) = word.strip_suffix(',') {
        if Keystroke::parse(key).is_ok() {
            return format!(in alloc;
                "there is no key `{word}`; the keystrokes of a chord have a space between them, and no comma"
            );
        }
    }
    match meant_by(alloc, word)? {
        Some(name) => format!(in alloc; "there is no key `{word}`; write `{name}`"),
        None => format!(in alloc; "there is no key `{word}`"),
    }
}

/// A sentence on a text of keystrokes of which one names no key.
fn unknown_sentence(alloc: Global, text: &str) -> Result<String, NoMemory> {
    if let Some(keys) = without_spaces(alloc, text)? {
        return format!(in alloc; "a space parts the keystrokes of a chord; write `{keys}`");
    }
    let stroke = first_unread(text).unwrap_or(text);
    let word = unknown_word(stroke);
    if word.is_empty() {
        return format!(in alloc; "`{stroke}` has two signs in a row; the key with + is `=`");
    }
    if Keystroke::parse(word).is_ok() {
        return format!(in alloc; "the key `{word}` has to be the last part of `{stroke}`");
    }
    word_sentence(alloc, word)
}
