//! The file whose problems are written.
ghost use Rattle.std.specs.Prelude.{◌≡◌, [], option_map};
ghost use Rattle.std.specs.Option.{option_map_or};
ghost use Rattle.kb_check_report.specs.Page.{IsPage, position_in, position_of_part};
ghost use Rattle.kb_jsonc.specs.Reader.{without_mark as text_behind_mark};

use kb_files::LoadFile;
use kb_places::{Position, Span, Walker, without_mark};
use kb_problems::Problem;
use kb_source_files::{SourceFile, SourceFiles};

/// The path of a file, or the word that the load has for it.
pub(crate) fn path_of<'a>(file: Option<SourceFile<'a>>, name: LoadFile) -> &'a str {
    match file {
        Some(file) => file.path,
        None => match name {
            LoadFile::Extensions => "extensions",
            _ => "files",
        },
    }
}

/// The file whose problems are written.
#[derive(Drop)]
pub(crate) struct Page<'a> {
    pub(crate) name: LoadFile,
    pub(crate) path: &'a str,
    pub(crate) bytes: &'a [u8],
    pub(crate) walker: Walker<'a>,
}

/// The page of a file.
pub(crate) fn page_of<'a>(files: &SourceFiles<'a>, name: LoadFile) -> Page<'a>
    ensures named { result.name ≡ name }
    ensures page { IsPage files.now result }
{
    let file = files.file_of(name);
    let bytes = bytes_of(file);
    Page {
        name,
        path: path_of(file, name),
        bytes,
        walker: Walker::new(bytes),
    }
}

/// The bytes of a file behind its byte order mark, none without a file.
pub(crate) fn bytes_of<'a>(file: Option<SourceFile<'a>>) -> &'a [u8]
    ensures { result.now ≡ option_map_or (λ file. text_behind_mark file.bytes.now) file.entry [] }
{
    match file {
        Some(file) => without_mark(file.bytes),
        None => &[],
    }
}

/// The line and the column of a part of the file of a page.
fn position_on(page: &mut Page<'_>, span: Option<Span>) -> Option<Position>
    requires { page.old.walker.text.now ≡ page.old.bytes.now }
    ensures position { result ≡ option_map (position_of_part page.old.bytes.now) span }
    ensures name { page.new.name ≡ page.old.name }
    ensures bytes { page.new.bytes.now ≡ page.old.bytes.now }
    ensures text { page.new.walker.text.now ≡ page.old.walker.text.now }
{
    match span {
        Some(span) => Some(page.walker.position(span.begin)),
        None => None,
    }
}

/// Turns to the page of the file that a problem is in.
pub(crate) fn turn_to<'a>(files: &SourceFiles<'a>, name: LoadFile, page: &mut Page<'a>)
    requires { IsPage files.now page.old }
    ensures named { page.new.name ≡ name }
    ensures page { IsPage files.now page.new }
{
    if page.name != name {
        *page = page_of(files, name);
    }
}

/// The line and the column of a problem in its file, whose page is then the last.
pub(crate) fn position_in<'a>(
    files: &SourceFiles<'a>,
    problem: &Problem,
    page: &mut Page<'a>,
) -> Option<Position>
    requires { IsPage files.now page.old }
    ensures position { result ≡ position_in files.now problem.now }
    ensures page { IsPage files.now page.new }
{
    turn_to(files, problem.file, page);
    position_on(page, problem.span)
}
