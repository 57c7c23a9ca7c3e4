//! Dependencies among extensions that are enabled or disabled.
ghost use Rattle.std.specs.Prelude.{◌≡◌, option_map};
ghost use Rattle.kb_extension_code.specs.Dependencies as dependencies;

use kb_base::{ExtensionId, Text, same_id};
use kb_files::Extension;
use kb_verify::is_needed;

/// An extension that an identifier names.
#[derive(Clone, Copy)]
pub struct Named<'a> {
    /// Its place in load order, from 0.
    pub place: usize,
    /// The extension.
    pub extension: &'a Extension,
}

/// The extension with an identifier, or `None`. ASCII letter case is ignored (our decision).
pub fn extension_named<'a>(id: &str, extensions: &'a [Extension]) -> Option<Named<'a>>
    ensures { option_map dependencies.placed_by result ≡ dependencies.extension_named id.now extensions.now }
{
    for place in 0..extensions.len() {
        let extension = &extensions[place];
        if has_id(id, extension) {
            return Some(Named { place, extension });
        }
    }
    None
}

/// The first of these dependencies that isn't enabled, as its own manifest spells it.
pub(crate) fn missing_dependency<'e>(
    ids: &[ExtensionId],
    extensions: &'e [Extension],
) -> Option<&'e Text>
    ensures { option_map (λ id. id.now) result ≡ dependencies.missing_dependency ids.now extensions.now }
{
    for id in ids {
        let disabled = disabled_of(id.as_str(), extensions);
        if disabled.is_some() {
            return disabled;
        }
    }
    None
}

/// The identifier of the extension that an identifier names, as its manifest spells it, if it isn't enabled.
fn disabled_of<'e>(id: &str, extensions: &'e [Extension]) -> Option<&'e Text>
    ensures { option_map (λ id. id.now) result ≡ dependencies.disabled_of id.now extensions.now }
{
    match extensions
        .iter()
        .find(|extension| is_disabled(id, extension))
    {
        Some(extension) => Some(extension.manifest.id.text()),
        None => None,
    }
}

/// The identifier of the first enabled extension, in load order, that depends on an identifier.
pub(crate) fn dependent_on<'e>(id: &str, extensions: &'e [Extension]) -> Option<&'e Text>
    ensures { option_map (λ id. id.now) result ≡ dependencies.dependent_on id.now extensions.now }
{
    match extensions.iter().find(|extension| needs(id, extension)) {
        Some(extension) => Some(extension.manifest.id.text()),
        None => None,
    }
}

/// Whether this is the extension of an identifier.
fn has_id(id: &str, extension: &Extension) -> bool
    ensures { result ≡ dependencies.has_id id.now extension.now }
{
    same_id(id, extension.manifest.id.as_str())
}

/// Whether this is the extension of an identifier, and it isn't enabled.
fn is_disabled(id: &str, extension: &Extension) -> bool
    ensures { result ≡ dependencies.is_disabled id.now extension.now }
{
    !extension.enabled && same_id(extension.manifest.id.as_str(), id)
}

/// Whether an extension is enabled and depends on an identifier.
fn needs(id: &str, extension: &Extension) -> bool
    ensures { result ≡ dependencies.needs id.now extension.now }
{
    extension.enabled && is_needed(id, extension.manifest.dependencies.as_slice())
}
