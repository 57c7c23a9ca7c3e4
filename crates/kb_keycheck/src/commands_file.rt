//! The file that lists known commands.
ghost use Rattle.std.specs.Prelude.{IfErr, IfOk, Ok};
ghost use Rattle.kb_disk.specs.Files.{FailsReading, HasRead};
ghost use Rattle.kb_disk.specs.LoadFiles.{FailsAt, HasRules};

use kb_base::Failure;
use kb_disk::{CannotRead, FILE_LIMIT, FileSource, file_named};
use kb_stream::read_within;
use std::alloc::Global;

/// All bytes of the file at a path.
#[tactic(auto, using(crate::proofs::EndLemmas::reading_commands))]
fn bytes_at<'a, F: FileSource>(
    alloc: Global,
    path: &'a str,
    files: &F,
) -> Result<Vec<u8>, Failure<CannotRead<'a>>>
    ensures ok { IfOk result (λ bytes.
        HasRead (F.held files.now path.entry.now) (λ got. got) (Ok bytes.items)) }
    ensures err { IfErr result (FailsReading (F.held files.now path.entry.now) path.entry) }
{
    match file_named(files, Some(path))? {
        Some(mut file) => match read_within(alloc, &mut file, FILE_LIMIT) {
            Ok(bytes) => Ok(bytes),
            Err(failure) => Err(failure.map_fault(|_| CannotRead::File(path))),
        },
        None => Ok(Vec::new(alloc)),
    }
}

/// All bytes of the file that an option names, none if it names no file.
pub(crate) fn commands_named<'a, F: FileSource>(
    alloc: Global,
    path: Option<&'a str>,
    files: &F,
) -> Result<Vec<u8>, Failure<CannotRead<'a>>>
    ensures ok { IfOk result (λ bytes. HasRules (F.held files.now) path.entry bytes.items) }
    ensures err { IfErr result (FailsAt (F.held files.now) path.entry) }
{
    match path {
        Some(path) => bytes_at(alloc, path, files),
        None => Ok(Vec::new(alloc)),
    }
}
