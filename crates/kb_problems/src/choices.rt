//! Which lints are looked for, which commands are known, and which problems are shown.
ghost use Rattle.std.specs.Prelude.{◌≡◌, map};
ghost use Rattle.kb_problems.specs.Choices.{is_among, wants};

use crate::cause::Lint;
use crate::severity::Severity;

/// What a check looks for, and what it shows.
#[derive(Clone, Copy)]
pub struct Choices<'a> {
    /// The names of lints that are silenced.
    pub allowed: &'a [&'a str],
    /// The names of lints that are asked for, though they are off by default.
    pub asked: &'a [&'a str],
    /// Commands that are known besides, one a line.
    pub commands: &'a [u8],
    /// Names of the files whose problems are shown. Without one the check chooses.
    pub only: &'a [&'a str],
    /// Problems of this severity and of worse ones are shown.
    pub level: Severity,
}

/// Whether a name is one of these.
fn has_name(names: &[&str], name: &str) -> bool
    ensures { result ≡ is_among name.now (map (λ one. one.now) names.now) }
{
    for one in names {
        if *one == name {
            return true;
        }
    }
    false
}

impl<'a> Choices<'a> {
    /// Whether a lint is looked for: it isn't silenced, and it is asked for if it is off by default.
    pub fn wants(&self, lint: Lint) -> bool
        ensures { result ≡ wants self.now lint }
    {
        !has_name(self.allowed, lint.name())
            && (!lint.is_off() || has_name(self.asked, lint.name()))
    }
}
