//! `assemble` and `disassemble`: a text of handlers, and a `handlers.json`.
ghost use Rattle.std.specs.Prelude.{◌≡◌, IfErr, IfOk};
ghost use Rattle.kb_keycheck.specs.Ends.{translation_status};
ghost use Rattle.kb_keycheck.specs.Translating.{EndsTranslating, FailsAt, FailsAtEither, HasBytes, HasEither};
ghost use Rattle.kb_keycheck.specs.Translating.{HasOpened, IsMade, StopsTranslating};

use crate::ending::{Stop, stop_status};
use crate::request::Direction;
use kb_assembly_report::{Translation, assemble_file, disassemble_file};
use kb_base::{Failure, Seq, Text};
use kb_disk::{CannotRead, DirFile, FILE_LIMIT, FileSource, file_named, handlers_in};
use kb_files::SourceFile;
use kb_stream::{ReadFault, read_within, write_whole};
use std::alloc::Global;
use std::io::{BufWriter, Write};

/// The bytes of the file at a path, or `None` if it opens and a read fails, as that of a directory does.
///
/// Errors: the file does not open, or is too long, or refused memory.
fn opened<'m, F: FileSource>(
    alloc: Global,
    path: &'m str,
    files: &F,
) -> Result<Option<Vec<u8>>, Failure<CannotRead<'m>>>
    ensures read { IfOk result (HasOpened (F.held files.now path.now) (λ bytes. bytes.items)) }
    ensures failed { IfErr result (FailsAt (F.held files.now path.now) path.entry) }
{
    let Some(mut file) = file_named(files, Some(path))? else {
        return Ok(None);
    };
    match read_within(alloc, &mut file, FILE_LIMIT) {
        Ok(bytes) => Ok(Some(bytes)),
        Err(Failure::NoMemory) => Err(Failure::NoMemory),
        Err(Failure::Fault(ReadFault::TooLong)) => Err(Failure::Fault(CannotRead::File(path))),
        Err(Failure::Fault(ReadFault::Failed)) => Ok(None),
    }
}

/// The file at a path.
///
/// Errors: the file can't be read, or refused memory.
fn text_at<'m, F: FileSource>(
    alloc: Global,
    path: &'m str,
    files: &F,
) -> Result<SourceFile, Failure<CannotRead<'m>>>
    ensures read { IfOk result (λ file. HasBytes (F.held files.now path.now) file.bytes) }
    ensures failed { IfErr result (FailsAt (F.held files.now path.now) path.entry) }
{
    match opened(alloc, path, files)? {
        Some(bytes) => Ok(SourceFile {
            path: Text::from_str(alloc, path)?,
            bytes: Seq::from_vec(bytes),
        }),
        None => Err(Failure::Fault(CannotRead::File(path))),
    }
}

/// The file at a path, or the `handlers.json` in the directory there.
///
/// Errors: neither can be read, or refused memory.
fn handlers_at<'m, F: FileSource>(
    alloc: Global,
    path: &'m str,
    files: &F,
) -> Result<SourceFile, Failure<CannotRead<'m>>>
    ensures read { IfOk result (λ file. HasEither (F.held files.now) path.now file.bytes) }
    ensures failed { IfErr result (FailsAtEither (F.held files.now) path.entry) }
{
    match opened(alloc, path, files)? {
        Some(bytes) => Ok(SourceFile {
            path: Text::from_str(alloc, path)?,
            bytes: Seq::from_vec(bytes),
        }),
        None => match handlers_in(files, alloc, path)? {
            Some(file) => Ok(file),
            None => Err(Failure::Fault(CannotRead::InDirectory(path, DirFile::Handlers))),
        },
    }
}

/// What the text at a path is assembled to.
#[tactic(auto, using(crate::proofs::TranslatingLemmas::translating))]
fn assembled<'m, F: FileSource>(
    alloc: Global,
    path: &'m str,
    files: &F,
) -> Result<Translation, Stop<'m>>
    ensures made { IfOk result (IsMade Direction.Assemble (F.held files.now) path.now) }
    ensures stopped { IfErr result (StopsTranslating Direction.Assemble (F.held files.now) path.entry) }
{
    let file = text_at(alloc, path, files)?;
    Ok(assemble_file(alloc, path, file.bytes.as_slice())?)
}

/// What the `handlers.json` at a path, or in the directory there, is disassembled to.
#[tactic(auto, using(crate::proofs::TranslatingLemmas::translating))]
fn disassembled<'m, F: FileSource>(
    alloc: Global,
    path: &'m str,
    files: &F,
) -> Result<Translation, Stop<'m>>
    ensures made { IfOk result (IsMade Direction.Disassemble (F.held files.now) path.now) }
    ensures stopped { IfErr result (StopsTranslating Direction.Disassemble (F.held files.now) path.entry) }
{
    let file = handlers_at(alloc, path, files)?;
    let (path, bytes) = (file.path.as_str(), file.bytes.as_slice());
    Ok(disassemble_file(alloc, path, bytes)?)
}

/// What the file at a path is translated to.
fn result_of<'m, F: FileSource>(
    alloc: Global,
    direction: Direction,
    path: &'m str,
    files: &F,
) -> Result<Translation, Stop<'m>>
    ensures made { IfOk result (IsMade direction (F.held files.now) path.now) }
    ensures stopped { IfErr result (StopsTranslating direction (F.held files.now) path.entry) }
{
    match direction {
        Direction::Assemble => assembled(alloc, path, files),
        Direction::Disassemble => disassembled(alloc, path, files),
    }
}

/// Writes bytes, and flushes the buffer. Error: `NotWritten`.
fn say_bytes<'m, W: Write + Drop>(bytes: &[u8], out: &mut BufWriter<W>) -> Result<(), Stop<'m>>
    ensures { IfErr result (λ stop. stop ≡ Stop.NotWritten) }
{
    match write_whole(out, bytes) {
        Ok(()) => match out.flush() {
            Ok(()) => Ok(()),
            Err(_) => Err(Stop::NotWritten),
        },
        Err(_) => Err(Stop::NotWritten),
    }
}

/// Translates the file at a path, writes the other file, and flushes the buffer. Returns the faults of the
/// file, if it has some; nothing is written then.
///
/// Errors: the file can't be read; a write failed; or refused memory.
#[tactic(auto, using(crate::proofs::TranslatingLemmas::translating))]
pub(crate) fn translate<'m, F: FileSource, W: Write + Drop>(
    alloc: Global,
    direction: Direction,
    path: &'m str,
    files: &F,
    out: &mut BufWriter<W>,
) -> Result<Option<Text>, Stop<'m>>
    ensures { EndsTranslating direction (F.held files.now) path.entry result }
{
    match result_of(alloc, direction, path, files)? {
        Translation::File(bytes) => {
            say_bytes(bytes.as_slice(), out)?;
            Ok(None)
        }
        Translation::Faults(text) => Ok(Some(text)),
    }
}

/// The exit status of a translation (our decision): 0 if the other file was written, 1 if the file has
/// faults, and that of the stop if it stopped.
pub(crate) fn translation_status(end: &Result<Option<Text>, Stop<'_>>) -> u8
    ensures { result ≡ translation_status end.now }
{
    match end {
        Ok(None) => 0,
        Ok(Some(_)) => 1,
        Err(stop) => stop_status(stop),
    }
}
