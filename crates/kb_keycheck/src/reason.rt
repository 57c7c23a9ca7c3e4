//! Why a file can't be read, as far as that is known when it is asked for again.
use kb_disk::{CannotRead, FILE_LIMIT, SystemFiles};
use std::alloc::Global;
use std::fs;
use std::fs::OpenFile;
use std::io::ErrorKind;
use std::rt::Files;

/// Files that say why one of them can't be read.
pub trait Reasons {
    /// Why the file at a path can't be read, behind a colon, or nothing if that isn't known.
    fn reason(&self, path: &str) -> &'static str;
}

impl<R: Files> Reasons for SystemFiles<'_, R> {
    fn reason(&self, path: &str) -> &'static str {
        match fs::open(self.rt, path) {
            Ok(file) => opened_reason(&file),
            Err(error) => match error.kind() {
                ErrorKind::NotFound => ": there is no such file",
                ErrorKind::PermissionDenied => ": permission is denied",
                ErrorKind::NotADirectory => ": a part of the path is no directory",
                _ => "",
            },
        }
    }
}

/// Why a file that opens can't be read.
fn opened_reason<F: OpenFile>(file: &F) -> &'static str {
    match file.metadata() {
        Ok(found) => {
            if found.is_dir() {
                ": it is a directory"
            } else if found.len() > FILE_LIMIT as u64 {
                ": it has more than 16,777,216 bytes"
            } else {
                ""
            }
        }
        Err(_) => "",
    }
}

/// Why one of some files can't be read, behind a colon, or nothing if that isn't known.
pub(crate) fn unread_reason<F: Reasons>(
    files: &F,
    alloc: Global,
    file: CannotRead<'_>,
) -> &'static str {
    match format!(in alloc; "{file}") {
        Ok(path) => files.reason(path.as_str()),
        Err(_) => "",
    }
}
