//! The identifiers of extensions and their dependencies.
ghost use Rattle.std.specs.Prelude.{◌≡◌, [], map};
ghost use Rattle.kb_files.specs.Identifiers.{is_among, repeats, lacks, first_failing, fault_at};
ghost use Rattle.kb_files.specs.Identifiers.{identifier_fault};

use kb_base::{ExtensionId, FaultKind, same_id};

/// An extension, as far as its identifier and its dependencies matter.
pub trait Identified {
    ghost use Rattle.std.specs.Prelude.{◌≡◌};
    ghost use Rattle.kb_files.specs.Identifiers.{Names};

    ghost names: { Self → Names };

    /// The identifier of the extension.
    fn id(&self) -> &str
        ensures { result.now ≡ (names self.now).id };

    /// The identifiers of the extensions that it depends on.
    fn dependencies(&self) -> &[ExtensionId]
        ensures { result.now ≡ (names self.now).dependencies };
}

/// Why a load refuses an extension for its identifier or its dependencies.
#[derive(Clone, Copy, Debug, PartialEq, Eq)]
pub struct IdentifierFault {
    /// `DuplicateExtension` (91) where it repeats the identifier of an earlier extension, `MissingDependency`
    /// (90) where it depends on an extension that isn't before it.
    pub kind: FaultKind,
    /// The place of the extension in load order, from 0.
    pub place: usize,
}

/// The fault of the extensions' identifiers in load order, if there is one: the first extension that repeats
/// the identifier of an earlier one (91), and then the first that depends on an extension that isn't before
/// it (90). Identifiers are compared without the case of ASCII letters (our decision).
pub fn identifier_fault<E: Identified>(extensions: &[E]) -> Option<IdentifierFault>
    ensures { result ≡ identifier_fault (map E.names extensions.now) }
{
    if let Some(place) = first_repeating(extensions) {
        return Some(fault_at(FaultKind::DuplicateExtension, place));
    }
    match first_lacking(extensions) {
        Some(place) => Some(fault_at(FaultKind::MissingDependency, place)),
        None => None,
    }
}

/// The fault of the extension at a place.
fn fault_at(kind: FaultKind, place: usize) -> IdentifierFault
    ensures { result ≡ fault_at kind place }
{
    IdentifierFault { kind, place }
}

/// The place of the first extension that repeats the identifier of an earlier one.
fn first_repeating<E: Identified>(extensions: &[E]) -> Option<usize>
    ensures { result ≡ first_failing repeats [] (map E.names extensions.now) }
{
    for (number, extension) in extensions.iter().enumerate() {
        if is_among(extension.id(), &extensions[..number]) {
            return Some(number);
        }
    }
    None
}

/// The place of the first extension that depends on one that isn't among the earlier ones.
fn first_lacking<E: Identified>(extensions: &[E]) -> Option<usize>
    ensures { result ≡ first_failing lacks [] (map E.names extensions.now) }
{
    for (number, extension) in extensions.iter().enumerate() {
        if lacks(extension, &extensions[..number]) {
            return Some(number);
        }
    }
    None
}

/// Whether an extension depends on one that isn't among these.
fn lacks<E: Identified>(extension: &E, earlier: &[E]) -> bool
    ensures { result ≡ lacks (map E.names earlier.now) (E.names extension.now) }
{
    for id in extension.dependencies() {
        if !is_among(id.as_str(), earlier) {
            return true;
        }
    }
    false
}

/// Whether an identifier is that of one of these extensions.
fn is_among<E: Identified>(id: &str, others: &[E]) -> bool
    ensures { result ≡ is_among id.now (map E.names others.now) }
{
    for other in others {
        if same_id(id, other.id()) {
            return true;
        }
    }
    false
}
