//! Why a `handlers.json` can't be read, as `keycheck check` says it.
use crate::carets::write_source;
use kb_base::{NoMemory, Refusal, Text};
use kb_files::{LoadFault, LoadFile};
use kb_keys::Platform;
use kb_places::{Walker, without_mark};
use kb_problems::{Problem, refused};
use kb_source_files::{ExtensionSource, SourceFile, SourceFiles};
use std::alloc::Global;

/// The bytes of a line up to its end.
fn line_of(bytes: &[u8]) -> &[u8] {
    for (index, byte) in bytes.iter().enumerate() {
        if *byte == b'\n' || *byte == b'\r' {
            return bytes.get(..index).unwrap_or(&[]);
        }
    }
    bytes
}

/// The problem of a file of handlers with these bytes.
fn problem_of(alloc: Global, bytes: &[u8], refusal: Refusal) -> Result<Problem, NoMemory> {
    let handlers = SourceFile { path: "", bytes };
    let package = SourceFile {
        path: "",
        bytes: &[],
    };
    let extensions = [ExtensionSource {
        package,
        handlers: Some(handlers),
    }];
    let files = SourceFiles {
        layout: None,
        defaults: None,
        user: None,
        platform: Platform::Linux,
        extensions: extensions.as_slice(),
    };
    let file = LoadFile::Handlers(0);
    refused(alloc, &files, LoadFault { file, refusal })
}

/// Lines on why the file at a path is refused: the sentence with its place, the line of the file, and a
/// caret. Error: `NoMemory`.
pub(crate) fn refused_text(
    alloc: Global,
    path: &str,
    bytes: &[u8],
    refusal: Refusal,
) -> Result<Text, NoMemory> {
    let kind = refusal.kind;
    let problem = problem_of(alloc, bytes, refusal)?;
    let sentence = problem.sentence.as_str();
    let bytes = without_mark(bytes);
    let mut text = String::new(alloc);
    match problem.span {
        Some(span) => {
            let mut walker = Walker::new(bytes);
            let position = walker.position(span.begin);
            let (line, column) = (position.line, position.column);
            write!(text, "{path}:{line}:{column}: {kind}: {sentence}\n")?;
            let begin = walker.line_begin(span.begin);
            let shown = line_of(bytes.get(begin..).unwrap_or(&[]));
            let at = span.begin.saturating_sub(begin);
            write_source(shown, at, at, &mut text)?;
        }
        None => write!(text, "{path}: {kind}: {sentence}\n")?,
    }
    Ok(Text::from_string(text))
}
