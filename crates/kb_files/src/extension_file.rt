//! An extension, read from the bytes of its `package.json`.
ghost use Rattle.std.specs.Prelude.{◌≡◌, IfOk, Some};
ghost use Rattle.serde_json.specs.View.{items_view};
ghost use Rattle.kb_base.specs.declared.note.Origin.TheVariants as origin;
ghost use Rattle.kb_jsonc.specs.Parts.{listed};
ghost use Rattle.kb_manifest.specs.Manifest.{seen_package, told_by, IsRead, IsRightBy};
ghost use Rattle.kb_rules.specs.RuleList as rules;
ghost use Rattle.kb_files.specs.Extension.{outline_in, package_in, unread_in, extension_of, extension_in};
ghost use Rattle.kb_files.specs.Extension.{IsRightlyMarked};
ghost use Rattle.kb_files.specs.Marked.{GivesByMarks};

use crate::failures::shape_failure;
use crate::value::read_value;
use kb_base::{Failure, NoMemory, Refusal};
use kb_keys::Platform;
use kb_manifest::{Manifest, Package};
use kb_rules::{Origin, RuleList, read_list};
use serde_json::Value;
use std::alloc::Global;

/// What an extension contributes, and whether it is enabled.
#[derive(Drop)]
pub struct Extension {
    /// Its number in load order, from 0.
    pub number: u32,
    /// Whether it is enabled. A load enables all extensions (our decision).
    pub enabled: bool,
    /// Its manifest, without its key rules.
    pub manifest: Manifest,
    /// Its key rules and removals.
    pub rules: RuleList,
}

/// The extension of a `package.json`, enabled, with its number in load order: JSON with comments whose value
/// is a package (`Package::read` gives the format), with its key rules for a platform (`read_list` gives
/// theirs).
///
/// Errors: the first fault of the file: those of its text (1 to 4), then an object without `name` (40), then
/// another shape (41). A blank text reads as the empty list, and so is refused with 41. Or `NoMemory`.
#[tactic(auto, unfolding(crate::specs::Extension::extension_in))]
pub fn read_extension(
    alloc: Global,
    bytes: &[u8],
    number: u32,
    platform: Platform,
) -> Result<Extension, Failure<Refusal>>
    ensures read { GivesByMarks unread_in (λ unread. extension_in unread number platform bytes.now) result }

    // A pattern is listed as unread only if the grammar of `regex` rejects it or it nests too deep. One that
    // isn't listed is read by that grammar.
    ensures right { IfOk result (IsRightlyMarked bytes.now) }
{
    let contents = read_package(alloc, bytes, Origin::Extension(number))?;
    let extension = extend(alloc, contents, number, platform)?;
    Ok(extension)
}

/// The package that the bytes of a file hold.
fn read_package(alloc: Global, bytes: &[u8], origin: Origin) -> Result<Package, Failure<Refusal>>
    ensures read { IsRead origin (λ told. package_in origin told bytes.now) result }
    ensures right { IfOk result (λ contents.
        IsRightBy (told_by origin contents.manifest) (outline_in bytes.now)) }
{
    let value = read_value(alloc, bytes)?;
    match Package::read(alloc, value, origin) {
        Ok(contents) => Ok(contents),
        Err(failure) => Err(shape_failure(failure)),
    }
}

/// The extension of a package.
fn extend(
    alloc: Global,
    contents: Package,
    number: u32,
    platform: Platform,
) -> Result<Extension, NoMemory>
    ensures read { IfOk result (λ extension.
        extension ≡ extension_of extension.rules.unread number platform (seen_package contents)) }
    ensures right { IfOk result (λ extension. rules.AreRightlyMarked extension.rules) }
{
    let Package {
        manifest,
        keybindings,
    } = contents;
    let rules = list_keybindings(alloc, keybindings, number, platform)?;
    Ok(Extension {
        number,
        enabled: true,
        manifest,
        rules,
    })
}

/// The rules and removals of a manifest's entries.
fn list_keybindings(
    alloc: Global,
    entries: Vec<Value>,
    number: u32,
    platform: Platform,
) -> Result<RuleList, NoMemory>
    ensures read { IfOk result (λ list. list ≡ rules.listed list.unread (origin.Extension number)
        (Some platform) (listed (items_view entries.items))) }
    ensures right { IfOk result rules.AreRightlyMarked }
{
    read_list(alloc, entries, Origin::Extension(number), Some(platform))
}
