//! What is reported of the entries of a manifest.
ghost use Rattle.std.specs.Prelude.{◌≡◌, [], ◌++◌, OnOk};
ghost use Rattle.kb_manifest.specs.Notes.{no_notes, with_warning, with_unread};

use kb_base::{EntryPattern, FaultKind, NoMemory, Origin, Part, Seq, UnreadPattern, Warning};
use std::alloc::Global;

/// What is reported of the entries of a part of a manifest, in their order.
#[derive(Debug, Drop)]
pub struct Notes {
    /// At most one warning for each entry.
    pub warnings: Seq<Warning>,
    /// The unsupported patterns, also those of an entry that an earlier one with the same identifier
    /// replaces.
    pub unread: Seq<EntryPattern>,
}

impl Notes {
    /// No notes.
    pub(crate) fn new(alloc: Global) -> Notes
        ensures { result ≡ no_notes }
    {
        Notes {
            warnings: Seq::new(alloc),
            unread: Seq::new(alloc),
        }
    }

    /// Adds the warning of an entry, if it has one.
    fn warn(
        &mut self,
        origin: Origin,
        part: Part,
        place: usize,
        fault: Option<FaultKind>,
    ) -> Result<(), NoMemory>
        ensures { OnOk result (self.new ≡ with_warning origin part place fault self.old) }
    {
        match fault {
            Some(kind) => self.warnings.push(Warning {
                origin,
                part,
                kind,
                place,
            }),
            None => Ok(()),
        }
    }

    /// Adds the warning and the unsupported patterns of an entry.
    pub(crate) fn add(
        &mut self,
        origin: Origin,
        part: Part,
        place: usize,
        fault: Option<FaultKind>,
        patterns: Seq<UnreadPattern>,
    ) -> Result<(), NoMemory>
        ensures { OnOk result (self.new
            ≡ with_unread origin part place patterns (with_warning origin part place fault self.old)) }
    {
        self.warn(origin, part, place, fault)?;
        self.mark(origin, part, place, patterns)
    }

    /// Adds the unsupported patterns of an entry.
    fn mark(
        &mut self,
        origin: Origin,
        part: Part,
        place: usize,
        patterns: Seq<UnreadPattern>,
    ) -> Result<(), NoMemory>
        ensures { OnOk result (self.new ≡ with_unread origin part place patterns self.old) }
    {
        for one in patterns.into_vec() {
            self.unread.push(EntryPattern {
                origin,
                part,
                place,
                unread: one,
            })?;
        }
        Ok(())
    }
}
