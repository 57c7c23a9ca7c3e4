//! The files of a load, opened again for places in them.
ghost use Rattle.std.specs.Prelude.{◌≡◌, IfOk, IfSome, Some, map};
ghost use Rattle.serde_json.specs.View.{view};
ghost use Rattle.kb_files.specs.declared.fault.LoadFile.TheVariants as file;
ghost use Rattle.kb_places.specs.Place.{step_data};
ghost use Rattle.kb_source_files.specs.SourceFiles.{file_of};
ghost use Rattle.kb_source_files.specs.declared.source_files.SourceFiles.{SourceFiles};
ghost use Rattle.kb_problems.specs.Opened.{AreOpened, ArePackages, IsOpened};
ghost use Rattle.kb_problems.specs.Placed.{IsEntryAt, entry_at, list_in, steps_in};
ghost use Rattle.kb_problems.specs.Starts.{file_in};

use crate::entries::{entries_at, path_to, span_at, span_of_member, steps_to};
use kb_base::{NoMemory, Origin, Part};
use kb_files::LoadFile;
use kb_places::{LineTable, Source, Span, Step, open, value_at};
use kb_source_files::{ExtensionSource, SourceFile, SourceFiles};
use serde_json::Value;
use std::alloc::Global;

/// A file of rules, or a `package.json`, with its entries.
#[derive(Drop)]
pub struct Opened<'a> {
    /// Which file it is.
    pub file: LoadFile,
    /// The file as it was read.
    pub source: Source<'a>,
    lines: LineTable,
    commands: Vec<Span>,
    keybindings: Vec<Span>,
    palette: Vec<Span>,
}

/// The file that entries of an origin are in.
pub(crate) fn file_of(origin: Origin) -> LoadFile
    ensures { result ≡ file_in origin }
{
    match origin {
        Origin::Defaults => LoadFile::Defaults,
        Origin::Extension(number) => LoadFile::Package(number as usize),
        Origin::User => LoadFile::User,
    }
}

/// Where the entries of one part of a `package.json` are.
fn entries_in(alloc: Global, source: &Source<'_>, part: Part) -> Result<Vec<Span>, NoMemory> {
    let span = span_at(alloc, source, steps_to(part))?;
    entries_at(alloc, source, span)
}

/// Opens a file of a name, if it can be read.
fn open_file<'a>(
    alloc: Global,
    name: LoadFile,
    file: SourceFile<'a>,
) -> Result<Option<Opened<'a>>, NoMemory>
    ensures { IfOk result (λ opened. IfSome opened (IsOpened name (Some file.entry))) }
{
    let Ok(source) = open(alloc, file.bytes)? else {
        return Ok(None);
    };
    match name {
        LoadFile::Package(_) => Ok(Some(Opened {
            file: name,
            commands: entries_in(alloc, &source, Part::Commands)?,
            keybindings: entries_in(alloc, &source, Part::Keybindings)?,
            palette: entries_in(alloc, &source, Part::Palette)?,
            lines: LineTable::new(alloc, source.bytes())?,
            source,
        })),
        _ => Ok(Some(Opened {
            file: name,
            commands: Vec::new(alloc),
            keybindings: entries_at(alloc, &source, Some(source.whole()))?,
            palette: Vec::new(alloc),
            lines: LineTable::new(alloc, source.bytes())?,
            source,
        })),
    }
}

impl<'a> Opened<'a> {
    /// Where the entries of a part are, in the order of the file.
    pub fn entries(&self, part: Part) -> &[Span] {
        match part {
            Part::Commands => self.commands.as_slice(),
            Part::Keybindings => self.keybindings.as_slice(),
            Part::Palette => self.palette.as_slice(),
        }
    }

    /// The line of a rule.
    pub(crate) fn rule_line(&self, place: usize) -> Option<usize> {
        let span = self.keybindings.get(place)?;
        Some(self.lines.line(span.begin))
    }

    /// The members that lead to a part.
    fn steps_to(&self, part: Part) -> &'static [&'static str]
        ensures { map (λ name. name.now) result.now ≡ list_in self.now.file part }
    {
        match self.file {
            LoadFile::Package(_) => steps_to(part),
            _ => &[],
        }
    }

    /// The path to an entry.
    fn path_to(
        &self,
        alloc: Global,
        part: Part,
        place: usize,
    ) -> Result<Vec<Step<'static>>, NoMemory>
        ensures { IfOk result (λ path. map step_data path.items
            ≡ steps_in (list_in self.now.file part) (view self.now.source.value) place) }
    {
        path_to(alloc, self.source.value(), self.steps_to(part), place)
    }

    /// The value of an entry. Error: `NoMemory`.
    #[tactic(auto, using(crate::proofs::PlacedLemmas::entry_read))]
    pub fn value(&self, alloc: Global, part: Part, place: usize) -> Result<Option<&Value>, NoMemory>
        ensures { IfOk result (λ found. IfSome found (λ entry.
            entry_at (list_in self.now.file part) place (view self.now.source.value)
            ≡ Some (view entry.now))) }
    {
        let path = self.path_to(alloc, part, place)?;
        Ok(value_at(self.source.value(), path.as_slice()))
    }

    /// Where an entry is.
    #[tactic(auto, using(crate::proofs::PlacedLemmas::entry_stands))]
    pub(crate) fn entry(
        &self,
        alloc: Global,
        part: Part,
        place: usize,
    ) -> Result<Option<Span>, NoMemory>
        ensures { IfOk result (λ found. IfSome found
            (IsEntryAt self.now.source (list_in self.now.file part) place)) }
    {
        let Some(span) = self.entries(part).get(place) else {
            return Ok(None);
        };
        let path = self.path_to(alloc, part, place)?;
        self.source.place(alloc, path.as_slice(), *span)
    }

    /// Where the value of a member of an entry is, or the entry where it has no such member. Error:
    /// `NoMemory`.
    #[tactic(auto, using(crate::proofs::PlacedLemmas::member_stands))]
    pub fn member(
        &self,
        alloc: Global,
        part: Part,
        place: usize,
        name: &str,
    ) -> Result<Option<Span>, NoMemory>
        ensures { IfOk result (λ found. IfSome found
            (IsEntryAt self.now.source (list_in self.now.file part) place)) }
    {
        let Some(entry) = self.entries(part).get(place) else {
            return Ok(None);
        };
        let Some(span) = span_of_member(alloc, &self.source, *entry, name)? else {
            return self.entry(alloc, part, place);
        };
        let mut path = self.path_to(alloc, part, place)?;
        path.push(Step::Member(name))?;
        self.source.place(alloc, path.as_slice(), span)
    }
}

/// All files with entries, opened.
#[derive(Drop)]
pub struct OpenedFiles<'a> {
    /// The files with their paths.
    pub sources: SourceFiles<'a>,
    defaults: Option<Opened<'a>>,
    user: Option<Opened<'a>>,
    packages: Vec<Option<Opened<'a>>>,
}

/// Opens a file of a name that may be absent.
fn open_optional<'a>(
    alloc: Global,
    name: LoadFile,
    file: Option<SourceFile<'a>>,
) -> Result<Option<Opened<'a>>, NoMemory>
    ensures { IfOk result (λ opened. IfSome opened (IsOpened name file.entry)) }
{
    match file {
        Some(file) => open_file(alloc, name, file),
        None => Ok(None),
    }
}

/// Opens the manifests of all extensions.
fn open_packages<'a>(
    alloc: Global,
    extensions: &[ExtensionSource<'a>],
) -> Result<Vec<Option<Opened<'a>>>, NoMemory>
    ensures { IfOk result (λ packages. ArePackages extensions.now packages.items) }
{
    let mut packages = Vec::new(alloc);
    for (number, extension) in extensions.iter().enumerate() {
        let opened = open_file(alloc, LoadFile::Package(number), extension.package)?;
        packages.push(opened)?;
    }
    Ok(packages)
}

/// Opens all files with entries. Error: `NoMemory`.
pub fn open_all<'a>(alloc: Global, files: &SourceFiles<'a>) -> Result<OpenedFiles<'a>, NoMemory>
    ensures { IfOk result (AreOpened files.now) }
{
    Ok(OpenedFiles {
        sources: *files,
        defaults: open_optional(alloc, LoadFile::Defaults, files.defaults)?,
        user: open_optional(alloc, LoadFile::User, files.user)?,
        packages: open_packages(alloc, files.extensions)?,
    })
}

impl<'a> OpenedFiles<'a> {
    /// The file that entries of an origin are in.
    pub fn of(&self, origin: Origin) -> Option<&Opened<'a>>
        ensures { (files : SourceFiles) → AreOpened files self.now → IfSome result (λ opened.
            IsOpened (file_in origin) (file_of files (file_in origin)) opened.now) }
    {
        match origin {
            Origin::Defaults => self.defaults.as_ref(),
            Origin::Extension(number) => match self.packages.get(number as usize) {
                Some(Some(opened)) => Some(opened),
                _ => None,
            },
            Origin::User => self.user.as_ref(),
        }
    }
}
