//! Whose problems are shown: those of which files.
ghost use Rattle.std.specs.Prelude.{◌≡◌, false, length, map, option_map, slice_get};
ghost use Rattle.std.specs.List.{list_any};
ghost use Rattle.std.specs.Option.{option_map_or};
ghost use Rattle.kb_base.specs.ExtensionId.{same_id};
ghost use Rattle.kb_source_files.specs.SourceFiles.{file_of};
ghost use Rattle.kb_check_report.specs.Whose.{file_word, id_of, is_asked, is_at, is_of_extension, is_of_one};
ghost use Rattle.kb_check_report.specs.Whose.{is_there, is_unknown, names, usual_word};

use kb_base::{NoMemory, Text, same_id};
use kb_files::LoadFile;
use kb_source_files::SourceFiles;
use std::alloc::Global;

/// The word for a file.
fn file_word(file: LoadFile) -> &'static str
    ensures { result.now ≡ file_word file }
{
    match file {
        LoadFile::Layout => "layout",
        LoadFile::Defaults => "defaults",
        LoadFile::User => "user",
        LoadFile::Package(_) | LoadFile::Handlers(_) | LoadFile::Extensions => "extensions",
        LoadFile::Natives => "natives",
    }
}

/// The word for the files that are asked for if none is named.
fn usual_word(files: &SourceFiles<'_>) -> &'static str
    ensures { result.now ≡ usual_word files.now }
{
    if files.user.is_some() {
        "user"
    } else if files.extensions.first().is_some() {
        "extensions"
    } else if files.defaults.is_some() {
        "defaults"
    } else {
        "layout"
    }
}

/// Whether a path is this one, or in this folder.
fn is_at(name: &[u8], path: &[u8]) -> bool
    ensures { result ≡ is_at name.now path.now }
{
    path.starts_with(name)
        && (name.ends_with(&[b'/']) || matches!(path.get(name.len()), None | Some(b'/')))
}

/// The identifier of the extension that a file is of.
fn id_of<'i>(ids: &'i [Text], file: LoadFile) -> Option<&'i Text>
    ensures { option_map (λ id. id.now) result ≡ id_of ids.now file }
{
    match file {
        LoadFile::Package(number) | LoadFile::Handlers(number) => ids.get(number),
        _ => None,
    }
}

/// Whether a file is of the extension with an identifier.
fn has_id(ids: &[Text], file: LoadFile, name: &str) -> bool
    ensures { result ≡ option_map_or (λ id. same_id id name.now) (id_of ids.now file) false }
{
    match id_of(ids, file) {
        Some(id) => same_id(id.as_str(), name),
        None => false,
    }
}

/// Whether a file has a path, or is in the folder of a path.
fn has_path(files: &SourceFiles<'_>, file: LoadFile, name: &str) -> bool
    ensures { result ≡ option_map_or (λ file. is_at name.now file.path.now) (file_of files.now file) false }
{
    match files.file_of(file) {
        Some(file) => is_at(name.as_bytes(), file.path.as_bytes()),
        None => false,
    }
}

/// Whether a file has a name.
fn names(files: &SourceFiles<'_>, ids: &[Text], file: LoadFile, name: &str) -> bool
    ensures { result ≡ names files.now ids.now file name.now }
{
    name == "all"
        || name == file_word(file)
        || has_id(ids, file, name)
        || has_path(files, file, name)
}

/// Whether a file has one of these names.
fn has_name(files: &SourceFiles<'_>, ids: &[Text], file: LoadFile, all: &[&str]) -> bool
    ensures { result ≡ list_any (names files.now ids.now file) (map (λ name. name.now) all.now) }
{
    for name in all {
        if names(files, ids, file, *name) {
            return true;
        }
    }
    false
}

/// Whether a file is asked for, by these names.
pub(crate) fn is_asked(files: &SourceFiles<'_>, ids: &[Text], only: &[&str], file: LoadFile) -> bool
    ensures { result ≡ is_asked files.now ids.now (map (λ name. name.now) only.now) file }
{
    match only {
        [] => usual_word(files) == file_word(file),
        [_, ..] => has_name(files, ids, file, only),
    }
}

/// Whether there is such a file, and it has a name.
fn is_there(files: &SourceFiles<'_>, ids: &[Text], name: &str, file: LoadFile) -> bool
    ensures { result ≡ is_there files.now ids.now name.now file }
{
    files.file_of(file).is_some() && names(files, ids, file, name)
}

/// Whether a file of the extension with a number has a name.
fn is_of_one(files: &SourceFiles<'_>, ids: &[Text], name: &str, number: usize) -> bool
    ensures { result ≡ is_of_one files.now ids.now name.now number }
{
    is_there(files, ids, name, LoadFile::Package(number))
        || is_there(files, ids, name, LoadFile::Handlers(number))
}

/// Whether a file of an extension has a name.
#[tactic(auto, using(crate::proofs::WhoseLemmas::whose))]
fn is_of_extension(files: &SourceFiles<'_>, ids: &[Text], name: &str) -> bool
    ensures { result ≡ is_of_extension files.now ids.now name.now (length files.now.extensions.now) }
{
    let mut left = files.extensions.len();
    while left > 0 {
        left -= 1;
        if is_of_one(files, ids, name, left) {
            return true;
        }
    }
    false
}

/// Whether a name is of no file.
fn is_unknown(files: &SourceFiles<'_>, ids: &[Text], name: &str) -> bool
    ensures { result ≡ is_unknown files.now ids.now name.now }
{
    let is_known = name == "all"
        || is_there(files, ids, name, LoadFile::Layout)
        || is_there(files, ids, name, LoadFile::Defaults)
        || is_there(files, ids, name, LoadFile::User)
        || is_of_extension(files, ids, name);
    !is_known
}

/// Whether one of some names is of no file.
pub(crate) fn is_any_unknown(files: &SourceFiles<'_>, ids: &[Text], all: &[&str]) -> bool
    ensures { result ≡ list_any (is_unknown files.now ids.now) (map (λ name. name.now) all.now) }
{
    for name in all {
        if is_unknown(files, ids, *name) {
            return true;
        }
    }
    false
}

/// Those of some names that are of no file.
pub(crate) fn unknown_names<'n>(
    alloc: Global,
    files: &SourceFiles<'_>,
    ids: &[Text],
    all: &[&'n str],
) -> Result<Vec<&'n str>, NoMemory> {
    let mut unknown = Vec::new(alloc);
    for name in all {
        if is_unknown(files, ids, *name) {
            unknown.push(*name)?;
        }
    }
    Ok(unknown)
}
