//! Why an extension can't be enabled or disabled.
ghost use Rattle.std.specs.Prelude.{◌≡◌, IfOk, option_map};
ghost use Rattle.kb_base.specs.declared.fault.FaultKind.TheVariants.{CalleeNotLive};
ghost use Rattle.kb_registry.specs.Missing.{native_missing};
ghost use Rattle.kb_extension_code.specs.Switching.{disable_refusal, enable_refusal};
ghost use Rattle.kb_extension_code.specs.Switching.{refusal_of, refused_with};

use crate::dependencies::{dependent_on, missing_dependency};
use kb_base::{FaultKind, NoMemory, Refusal, Text};
use kb_files::Extension;
use kb_registry::{HostCommand, Registry};

/// The reason why an extension can't be enabled or disabled.
#[derive(Clone, Copy)]
pub struct Obstacle<'a> {
    /// The fault: `NeedsDependency` (93) if a dependency isn't enabled, `CalleeNotLive` (74) if a native
    /// command that the verified code calls has no registered closure, `NeededBy` (94) if an enabled
    /// extension depends on this one.
    pub kind: FaultKind,
    /// The identifier of the extension, or the name of the native command.
    pub name: &'a Text,
}

impl Obstacle<'_> {
    /// The refusal for this reason, with a copy of the name. Error: `NoMemory`.
    pub fn refusal(self) -> Result<Refusal, NoMemory>
        ensures { IfOk result (λ refusal. refusal ≡ refusal_of self.entry) }
    {
        Ok(Refusal {
            kind: self.kind,
            detail: Some(self.name.copied()?),
        })
    }
}

/// The reason why one of the extensions can't be enabled, or `None` if it can be. 93 with its first
/// dependency that isn't enabled, as that one's manifest spells it; else 74 with the first native command
/// without a registered closure that its verified code calls, in file order and order of place. What is
/// enabled already can be enabled.
pub fn enable_obstacle<'a, C: HostCommand>(
    extension: &Extension,
    extensions: &'a [Extension],
    registry: &'a Registry<C>,
) -> Option<Obstacle<'a>>
    ensures { option_map refusal_of result ≡ enable_refusal extension.now extensions.now registry.now }
{
    if extension.enabled {
        return None;
    }
    match missing_dependency(extension.manifest.dependencies.as_slice(), extensions) {
        Some(name) => Some(Obstacle {
            kind: FaultKind::NeedsDependency,
            name,
        }),
        None => native_obstacle(extension.number, registry),
    }
}

/// 74 with the first native command without a registered closure that the verified code of an extension
/// calls.
fn native_obstacle<C: HostCommand>(number: u32, registry: &Registry<C>) -> Option<Obstacle<'_>>
    ensures { option_map refusal_of result
        ≡ option_map (refused_with CalleeNotLive) (native_missing number registry.now) }
{
    match registry.missing_native(number) {
        Some(name) => Some(Obstacle {
            kind: FaultKind::CalleeNotLive,
            name,
        }),
        None => None,
    }
}

/// The reason why one of the extensions can't be disabled, or `None` if it can be: 94 with the first enabled
/// extension, in load order, that depends on it. What is disabled already can be disabled.
pub fn disable_obstacle<'a>(
    extension: &Extension,
    extensions: &'a [Extension],
) -> Option<Obstacle<'a>>
    ensures { option_map refusal_of result ≡ disable_refusal extension.now extensions.now }
{
    if !extension.enabled {
        return None;
    }
    match dependent_on(extension.manifest.id.as_str(), extensions) {
        Some(name) => Some(Obstacle {
            kind: FaultKind::NeededBy,
            name,
        }),
        None => None,
    }
}
