//! Resolved call targets.
ghost use Rattle.std.specs.Prelude.{◌≡◌};

use kb_core::Native;

/// Where a live handler was when a name was resolved: the extension's number in load order, and the index
/// of the handler in the extension's code. This is a hint: a handler found there is used only if it has
/// the right name.
#[derive(Clone, Copy, Debug)]
pub struct Spot {
    pub extension: u32,
    pub place: usize,
}

/// The resolved target of a name: a native command, if the name is one's, or else a handler, perhaps at a
/// spot.
#[derive(Clone, Copy, Debug)]
pub struct Target {
    pub native: Option<Native>,
    pub spot: Option<Spot>,
}

impl Target {
    /// The target of a name that names this native command, or no native command for `None`. No handler
    /// has been looked up.
    pub fn of(native: Option<Native>) -> Target
        ensures { result.native ≡ native }
    {
        Target { native, spot: None }
    }
}
