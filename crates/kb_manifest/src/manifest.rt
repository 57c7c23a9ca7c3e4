//! The manifest of an extension, read from JSON.
ghost use Rattle.std.specs.Prelude.{◌≡◌, ◌++◌, [], Some, IfOk, OnOk, option_map, codes};
ghost use Rattle.std.specs.Result.{result_err};
ghost use Rattle.serde_json.specs.Find.{get_member};
ghost use Rattle.serde_json.specs.View.{view, items_view, members_view};
ghost use Rattle.kb_base.specs.Failure.{IsFaultAnd};
ghost use Rattle.kb_base.specs.Reading.{or_fault};
ghost use Rattle.kb_jsonc.specs.declared.file_fault.FileFault.TheVariants.{WrongShape};
ghost use Rattle.kb_jsonc.specs.declared.mismatch.Expected.TheVariants.{Word};
ghost use Rattle.kb_jsonc.specs.Mismatch.{GivesOr, fault_at};
ghost use Rattle.kb_manifest.specs.Manifest.{publisher_of, id_of, seen_head, head_in, head_of};
ghost use Rattle.kb_manifest.specs.Manifest.{dependencies_of};
ghost use Rattle.kb_manifest.specs.Manifest.{seen_package, told_by, contributed, package_of, IsRead};
ghost use Rattle.kb_manifest.specs.Manifest.{outline_of, IsRightIn, IsRightBy};

use crate::command::read_commands;
use crate::command_table::CommandTable;
use crate::notes::Notes;
use crate::palette_item::{PaletteItem, read_items};
use crate::points::{Points, read_points};
use kb_base::{ExtensionId, Failure, NoMemory, Origin, Seq, Text};
use kb_jsonc::{
    Expected, FileFault, Mismatch, Place, elements_in, lacks, members_in, take_member, texts_at,
    word_in,
};
use serde_json::{Map, Value};
use std::alloc::{AllocError, Global};

/// What an extension's `package.json` contributes, as far as this engine reads it.
#[derive(Drop)]
pub struct Manifest {
    /// The extension's identifier, `publisher.name` (VS Code's documentation), as the file spells
    /// it. Without a publisher it begins with `undefined_publisher` (our decision).
    pub id: ExtensionId,
    /// The identifiers of the extensions that it depends on, in the order of the file.
    pub dependencies: Seq<ExtensionId>,
    /// The commands that it contributes, each identifier once.
    pub commands: CommandTable,
    /// The items of the palette's menu.
    pub palette: Seq<PaletteItem>,
    /// What is reported of the entries of its commands.
    pub command_notes: Notes,
    /// What is reported of the items of the palette.
    pub palette_notes: Notes,
}

/// What a `package.json` holds.
#[derive(Drop)]
pub struct Package {
    /// The manifest, without its key rules.
    pub manifest: Manifest,
    /// The entries of its key rules, as in the file: `read_list` of `kb_rules` reads them for a platform.
    pub keybindings: Vec<Value>,
}

/// A manifest before its entries are read.
#[derive(Drop)]
struct Head {
    id: ExtensionId,
    dependencies: Seq<ExtensionId>,
    points: Points,
}

impl Package {
    /// The package that a JSON value is, with the origin that its notes get. `name` has to be there. Other
    /// members that this engine doesn't know are ignored, as VS Code does.
    ///
    /// A lone object in place of a list is read as a list of one (our decision). An entry of
    /// `commands` needs `command` and `title`, and may have `category` and `enablement`; of several
    /// with one identifier the first counts, whole. An entry of `menus.commandPalette` needs
    /// `command` and may have `when`. An entry that is no object (41), lacks a member (40) or has
    /// one that is no text (41) is dropped, and has a warning of its first fault in this order. A
    /// clause there that can't be read (30 to 33) has a warning, and counts as `false`; one with a
    /// pattern that `regex` rejects has the warning 34, once. The notes list these patterns.
    ///
    /// Errors: `MissingMember` (40) where an object lacks `name`, with or without other faults. Then
    /// `WrongShape` (41) where the value, `contributes` or `menus` is no object, `name` or
    /// `publisher` no text or empty, `extensionDependencies` no list of texts, or `commands`,
    /// `keybindings` or `menus.commandPalette` neither a list nor an object: `null` is there, and
    /// is none of these; or `NoMemory`.
    #[tactic(auto, unfolding(crate::specs::Manifest::outline_of))]
    pub fn read(alloc: Global, value: Value, origin: Origin) -> Result<Package, Failure<FileFault>>
        ensures read { IsRead origin (λ told. package_of origin told (view value)) result }

        // A pattern is listed as unread only if the grammar of `regex` rejects it or it nests too deep. One
        // that isn't listed is read by that grammar.
        ensures right { IfOk result (λ contents.
            IsRightBy (told_by origin contents.manifest) (outline_of (view value))) }
    {
        match read_outline(alloc, value) {
            Ok(head) => Ok(contribute(alloc, head, origin)?),
            Err(failure) => Err(failure.map_fault(Mismatch::fault)),
        }
    }

    /// The first place where a value isn't what a manifest has there, or `None` where `read` gives its
    /// package. Its fault is that of `read`. Error: `NoMemory`.
    pub fn mismatch(
        alloc: Global,
        value: Value,
    ) -> Result<Option<Mismatch<'static, Expected>>, NoMemory>
        ensures { IfOk result (λ found. option_map fault_at found ≡ result_err (outline_of (view value))) }
    {
        match read_outline(alloc, value) {
            Ok(_head) => Ok(None),
            Err(failure) => found_in(failure),
        }
    }
}

/// The mismatch for which a manifest wasn't read. Error: `NoMemory`, if that is why.
fn found_in(
    failure: Failure<Mismatch<'static, Expected>>,
) -> Result<Option<Mismatch<'static, Expected>>, NoMemory>
    ensures { IfOk result (λ found. IsFaultAnd failure.entry (λ m. found ≡ Some m)) }
{
    match failure {
        Failure::Fault(found) => Ok(Some(found)),
        Failure::NoMemory => Err(AllocError),
    }
}

/// A member of a manifest where a text that isn't empty was expected.
fn word_at(member: &'static str) -> Mismatch<'static, Expected>
    ensures { result.expected ≡ Word }
{
    Mismatch {
        place: Place::in_file(member),
        expected: Expected::Word,
    }
}

/// The publisher of an extension.
fn read_publisher(
    alloc: Global,
    publisher: Option<Value>,
) -> Result<Text, Failure<Mismatch<'static, Expected>>>
    ensures { GivesOr fault_at (λ text. text) result
        (or_fault WrongShape (publisher_of (option_map view publisher))) }
{
    match publisher {
        Some(publisher) => Ok(word_in(publisher).ok_or(word_at("publisher"))?),
        None => Ok(Text::from_str(alloc, "undefined_publisher")?),
    }
}

/// Adds a dot and a name.
fn push_name(id: &mut Text, name: &str) -> Result<(), NoMemory>
    ensures { OnOk result (id.new ≡ (id.old ++ codes ".") ++ name.now) }
{
    id.push_str(".")?;
    id.push_str(name)
}

/// The identifier of an extension.
#[tactic(auto, unfolding(crate::specs::Manifest::id_of))]
fn read_id(
    alloc: Global,
    name: Option<Value>,
    publisher: Option<Value>,
) -> Result<ExtensionId, Failure<Mismatch<'static, Expected>>>
    ensures { GivesOr fault_at (λ id. id) result
        (or_fault WrongShape (id_of (option_map view name) (option_map view publisher))) }
{
    let name = name.and_then(word_in).ok_or(word_at("name"))?;
    let mut id = read_publisher(alloc, publisher)?;
    push_name(&mut id, name.as_str())?;
    Ok(ExtensionId::new(id))
}

/// The identifiers that these texts are. Error: `NoMemory`.
fn ids_of(alloc: Global, texts: Seq<Text>) -> Result<Seq<ExtensionId>, NoMemory>
    ensures { IfOk result (λ ids. ids ≡ texts) }
{
    let mut ids = Seq::new(alloc);
    for text in texts.into_vec() {
        ids.push(ExtensionId::new(text))?;
    }
    Ok(ids)
}

/// The identifiers of the extensions that one depends on, taken out of its members, none where theirs is
/// absent. The contributions stay.
#[tactic(auto, unfolding(crate::specs::Manifest::dependencies_of))]
fn read_dependencies(
    alloc: Global,
    members: &mut Map<String, Value>,
) -> Result<Seq<ExtensionId>, Failure<Mismatch<'static, Expected>>>
    ensures ids { GivesOr fault_at (λ ids. ids) result (or_fault WrongShape (dependencies_of
        (get_member (codes "extensionDependencies") (members_view members.old.entries)))) }
    ensures contributes { get_member (codes "contributes") (members_view members.new.entries)
        ≡ get_member (codes "contributes") (members_view members.old.entries) }
{
    match take_member(members, "extensionDependencies") {
        Some(dependencies) => {
            let place = Place::in_file("extensionDependencies");
            let elements = elements_in(dependencies).ok_or(Mismatch {
                place,
                expected: Expected::List,
            })?;
            let texts = texts_at(alloc, elements, place)?;
            Ok(ids_of(alloc, texts)?)
        }
        None => Ok(Seq::new(alloc)),
    }
}

/// A manifest before its entries are read. Errors: the first mismatch, that of an absent name before any
/// other; or `NoMemory`.
#[tactic(auto, unfolding(crate::specs::Manifest::outline_of))]
fn read_outline(alloc: Global, value: Value) -> Result<Head, Failure<Mismatch<'static, Expected>>>
    ensures { GivesOr fault_at seen_head result (outline_of (view value)) }
{
    if lacks(&value, "name") {
        return Err(Failure::Fault(Mismatch {
            place: Place::in_file("name"),
            expected: Expected::Present,
        }));
    }
    read_head(alloc, value)
}

/// A manifest before its entries are read, if a name isn't absent.
#[tactic(auto, unfolding(crate::specs::Manifest::head_of))]
fn read_head(alloc: Global, value: Value) -> Result<Head, Failure<Mismatch<'static, Expected>>>
    ensures { GivesOr fault_at seen_head result (or_fault WrongShape (head_of (view value))) }
{
    let mut members = members_in(value).ok_or(Mismatch {
        place: Place::in_file(""),
        expected: Expected::Object,
    })?;
    head_in(alloc, &mut members)
}

/// A manifest before its entries are read, taken out of its members.
fn head_in(
    alloc: Global,
    members: &mut Map<String, Value>,
) -> Result<Head, Failure<Mismatch<'static, Expected>>>
    ensures { GivesOr fault_at seen_head result
        (or_fault WrongShape (head_in (members_view members.old.entries))) }
{
    let name = take_member(members, "name");
    let id = read_id(alloc, name, take_member(members, "publisher"))?;
    let dependencies = read_dependencies(alloc, members)?;
    let points = read_points(alloc, take_member(members, "contributes"))?;
    Ok(Head {
        id,
        dependencies,
        points,
    })
}

/// The package whose entries these are.
fn contribute(alloc: Global, head: Head, origin: Origin) -> Result<Package, NoMemory>
    ensures read { IfOk result (λ contents.
        contributed origin (told_by origin contents.manifest) (seen_head head) ≡ seen_package contents) }
    ensures right { IfOk result (λ contents.
        IsRightIn (told_by origin contents.manifest) (seen_head head)) }
{
    let Head {
        id,
        dependencies,
        points,
    } = head;
    let commands = read_commands(alloc, points.commands, origin)?;
    let palette = read_items(alloc, points.palette, origin)?;
    Ok(Package {
        manifest: joined(id, dependencies, commands, palette),
        keybindings: points.keybindings,
    })
}

/// The manifest of these parts, of which commands and palette come with their notes.
fn joined(
    id: ExtensionId,
    dependencies: Seq<ExtensionId>,
    commands: (CommandTable, Notes),
    palette: (Seq<PaletteItem>, Notes),
) -> Manifest
    ensures { result ≡ record {
      id = id;
      dependencies = dependencies;
      commands = commands.0;
      palette = palette.0;
      command_notes = commands.1;
      palette_notes = palette.1;
    } }
{
    let (commands, command_notes) = commands;
    let (palette, palette_notes) = palette;
    Manifest {
        id,
        dependencies,
        commands,
        palette,
        command_notes,
        palette_notes,
    }
}
