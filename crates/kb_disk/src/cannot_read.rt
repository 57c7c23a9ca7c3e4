//! Which file could not be read.
ghost use Rattle.std.specs.Prelude.{◌≡◌};

use std::fmt;

/// A file of an extension's directory. The names are VS Code's for the manifest, and our decision for the
/// handlers.
#[derive(Clone, Copy, Debug, PartialEq, Eq)]
pub enum DirFile {
    /// The manifest, `package.json`.
    Package,
    /// The handlers, `handlers.json`.
    Handlers,
}

impl DirFile {
    ghost use Rattle.kb_disk.specs.CannotRead.{file_name};

    /// The file's name in its directory.
    pub fn name(self) -> &'static str
        ensures { result.now ≡ file_name self }
    {
        match self {
            DirFile::Package => "package.json",
            DirFile::Handlers => "handlers.json",
        }
    }
}

/// The file that could not be opened or read, or that is longer than `FILE_LIMIT` bytes.
#[derive(Clone, Copy, Debug, PartialEq, Eq)]
pub enum CannotRead<'a> {
    /// The file at this path, which is as the caller gave it.
    File(&'a str),
    /// A file of an extension's directory: the directory's path, as the caller gave it, and which file.
    InDirectory(&'a str, DirFile),
}

/// Shows the path of the file.
impl fmt::Display for CannotRead<'_> {
    ghost use Rattle.std.specs.Prelude.{Some};
    ghost use Rattle.kb_disk.specs.CannotRead.{path_of};

    ghost output = { λ unread. Some (path_of unread) };

    fn fmt<W: fmt::Write>(&self, f: &mut fmt::Formatter<W>) -> fmt::Result {
        match self {
            CannotRead::File(path) => f.write_str(path),
            CannotRead::InDirectory(dir, file) => {
                let name = file.name();
                write!(f, "{dir}/{name}")
            }
        }
    }
}
