//! The files of a session, from the lines of its block. `layout TEXT`, `defaults TEXT` and `user TEXT` are
//! lines of files, `extension TEXT` is a manifest, and `handlers TEXT` is a line of the file of handlers of
//! the extension above it. `platform NAME` is the platform, `linux` without such a line. Several lines of
//! one file are joined by line feeds; one line may have several manifests, separated by ` ;; `.
//! `natives NAME ..` and `shelf NAME ..` name the closures that the load and the scripts are given; without
//! such a line there is one for each native.
use crate::host::{Command, Cost, all_commands, commands_named};
use kb_base::NoMemory;
use kb_files::ExtensionFiles;
use kb_golden_text::unescape;
use kb_keys::Platform;
use std::alloc::Global;
use std::str;

/// The files of a session; `None` without a line.
#[derive(Drop)]
pub(crate) struct Files {
    pub(crate) layout: Option<Vec<u8>>,
    pub(crate) defaults: Option<Vec<u8>>,
    pub(crate) user: Option<Vec<u8>>,
    pub(crate) extensions: Option<Vec<u8>>,
    pub(crate) platform: Platform,
}

// The bytes of a file as a slice; `None` without a file.
pub(crate) fn lent(bytes: &Option<Vec<u8>>) -> Option<&[u8]> {
    match bytes {
        Some(bytes) => Some(bytes.as_slice()),
        None => None,
    }
}

// The text of a line of this file; `None` for other lines.
fn text_of<'a>(line: &'a str, file: &str) -> Option<&'a str> {
    let (word, text) = line.split_once(' ').unwrap_or((line, ""));
    if word == file { Some(text) } else { None }
}

/// Whether a line belongs to the files, and not to the script.
pub(crate) fn is_of_file(line: &str) -> bool {
    let (word, _) = line.split_once(' ').unwrap_or((line, ""));
    match word {
        "layout" | "defaults" | "user" | "extension" | "handlers" | "platform" => true,
        "natives" | "shelf" => true,
        _ => false,
    }
}

// Appends the lines of a file, with `between` between them. False where there is none.
fn add_lines_of(
    lines: &str,
    file: &str,
    between: &str,
    text: &mut String,
) -> Result<bool, NoMemory> {
    let mut is_found = false;
    for line in lines.lines() {
        if let Some(more) = text_of(line, file) {
            if is_found {
                text.push_str(between)?;
            }
            text.push_str(more)?;
            is_found = true;
        }
    }
    Ok(is_found)
}

// A file; `None` without a line.
fn file_in(
    alloc: Global,
    lines: &str,
    file: &str,
    between: &str,
) -> Result<Option<Vec<u8>>, NoMemory> {
    let mut text = String::new(alloc);
    if add_lines_of(lines, file, between, &mut text)? {
        Ok(Some(unescape(alloc, &[], text.as_str())?))
    } else {
        Ok(None)
    }
}

// The text of the first line of a kind.
fn first_text<'a>(lines: &'a str, kind: &str) -> Option<&'a str> {
    for line in lines.lines() {
        if let Some(text) = text_of(line, kind) {
            return Some(text);
        }
    }
    None
}

// The platform of the session.
fn platform_in(lines: &str) -> Platform {
    match first_text(lines, "platform") {
        Some(name) => Platform::named(name).unwrap_or(Platform::Linux),
        None => Platform::Linux,
    }
}

/// The host's closures for the load (`natives`) or for scripts (`shelf`).
pub(crate) fn commands_in(
    alloc: Global,
    lines: &str,
    kind: &str,
    cost: Cost,
) -> Result<Vec<Command>, NoMemory> {
    match first_text(lines, kind) {
        Some(words) => commands_named(alloc, words, cost),
        None => all_commands(alloc, cost),
    }
}

/// The files of a session, but for those of handlers.
pub(crate) fn files_in(alloc: Global, lines: &str) -> Result<Files, NoMemory> {
    Ok(Files {
        layout: file_in(alloc, lines, "layout", "\n")?,
        defaults: file_in(alloc, lines, "defaults", "\n")?,
        user: file_in(alloc, lines, "user", "\n")?,
        extensions: file_in(alloc, lines, "extension", " ;; ")?,
        platform: platform_in(lines),
    })
}

// Appends the lines of the file of handlers of the extension with this number. False where there is none.
fn add_handlers_of(lines: &str, number: usize, text: &mut String) -> Result<bool, NoMemory> {
    let mut is_found = false;
    let mut extensions = 0usize;
    for line in lines.lines() {
        if let Some(manifests) = text_of(line, "extension") {
            extensions = extensions.saturating_add(manifests.split(" ;; ").count());
        }
        if let Some(more) = text_of(line, "handlers")
            && extensions == number.saturating_add(1)
        {
            text.push_str(more)?;
            text.push('\n')?;
            is_found = true;
        }
    }
    Ok(is_found)
}

// The file of handlers of the extension with this number; `None` without a line.
fn handlers_in(alloc: Global, lines: &str, number: usize) -> Result<Option<Vec<u8>>, NoMemory> {
    let mut text = String::new(alloc);
    if add_handlers_of(lines, number, &mut text)? {
        Ok(Some(unescape(alloc, &[], text.as_str())?))
    } else {
        Ok(None)
    }
}

/// The files of handlers of the first `count` extensions.
pub(crate) fn all_handlers(
    alloc: Global,
    lines: &str,
    count: usize,
) -> Result<Vec<Option<Vec<u8>>>, NoMemory> {
    let mut all = Vec::new(alloc);
    for number in 0..count {
        all.push(handlers_in(alloc, lines, number)?)
            .map_err(NoMemory::from)?;
    }
    Ok(all)
}

/// The manifests in the text of the `extension` lines.
pub(crate) fn manifests_in(alloc: Global, extensions: &[u8]) -> Result<Vec<&[u8]>, NoMemory> {
    let mut manifests = Vec::new(alloc);
    for manifest in str::from_utf8(extensions).unwrap_or("").split(" ;; ") {
        if !manifest.is_empty() {
            manifests.push(manifest.as_bytes()).map_err(NoMemory::from)?;
        }
    }
    Ok(manifests)
}

/// The manifest of each extension with its file of handlers.
pub(crate) fn extensions_of<'a>(
    alloc: Global,
    manifests: &[&'a [u8]],
    handlers: &'a [Option<Vec<u8>>],
) -> Result<Vec<ExtensionFiles<'a>>, NoMemory> {
    let mut extensions = Vec::new(alloc);
    for (number, package) in manifests.iter().enumerate() {
        let files = ExtensionFiles {
            package,
            handlers: handlers.get(number).and_then(lent),
        };
        extensions.push(files).map_err(NoMemory::from)?;
    }
    Ok(extensions)
}
