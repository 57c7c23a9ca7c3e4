//! Keyboards: key texts respelled for a layout, and events.
use kb_base::{NoMemory, Text};
use kb_golden_text::fault_text;
use kb_keyboard::{
    Held, KeyEvent, Layout, LayoutKey, Pressed, keystroke_of, respell, respell_file,
};
use kb_keys::Platform;
use std::alloc::Global;
use std::str;

/// The keys of a layout, each as `CODE=CHARACTER`.
fn keys_of(alloc: Global, words: &str) -> Result<Vec<LayoutKey>, NoMemory> {
    let mut keys = Vec::new(alloc);
    for word in words.split(' ') {
        if let Some((code, character)) = word.split_once('=') {
            keys.push(LayoutKey {
                code: Text::from_str(alloc, code)?,
                character: Text::from_str(alloc, character)?,
            })?;
        }
    }
    Ok(keys)
}

/// A key text, respelled for the layout with these keys, or the fault of the layout.
pub(crate) fn respelled(alloc: Global, words: &str, text: &str) -> Result<String, NoMemory> {
    match Layout::new(keys_of(alloc, words)?) {
        Ok(layout) => Ok(respell(alloc, text, &layout)?.into_string()),
        Err(wrong) => fault_text(alloc, wrong.kind()),
    }
}

fn file_text(alloc: Global, layout: &Layout, file: &str) -> Result<String, NoMemory> {
    let made = respell_file(alloc, file.as_bytes(), layout)?;
    match str::from_utf8(made.bytes.as_slice()) {
        Ok(text) => String::from_str(alloc, text),
        Err(_) => String::from_str(alloc, "no text"),
    }
}

/// A file whose key texts are respelled for the layout with these keys, or the fault of the layout.
pub(crate) fn respelled_file(alloc: Global, words: &str, file: &str) -> Result<String, NoMemory> {
    match Layout::new(keys_of(alloc, words)?) {
        Ok(layout) => file_text(alloc, &layout, file),
        Err(wrong) => fault_text(alloc, wrong.kind()),
    }
}

fn is_held(held: &str, name: &str) -> bool {
    for word in held.split(' ') {
        if word == name {
            return true;
        }
    }
    false
}

fn held_in(words: &str) -> Held {
    Held {
        ctrl: is_held(words, "ctrl"),
        shift: is_held(words, "shift"),
        alt: is_held(words, "alt"),
        meta: is_held(words, "meta"),
        alt_graph: is_held(words, "altgr"),
    }
}

fn platform_in(name: &str) -> Platform {
    match Platform::named(name) {
        Some(platform) => platform,
        None => Platform::Linux,
    }
}

/// The keystroke of an event, `CODE ; KEY ; MODIFIER ..`.
pub(crate) fn pressed(alloc: Global, platform: &str, text: &str) -> Result<String, NoMemory> {
    let (code, rest) = text.split_once(" ; ").unwrap_or((text, ""));
    let (key, words) = rest.split_once(" ; ").unwrap_or((rest, ""));
    let event = KeyEvent {
        code,
        key,
        held: held_in(words),
    };
    match keystroke_of(event, platform_in(platform)) {
        Pressed::Silent => String::from_str(alloc, "silent"),
        Pressed::Nameless => String::from_str(alloc, "nameless"),
        Pressed::Named(keystroke) => keystroke.text(alloc),
    }
}
