//! Where a value of a file isn't what was expected.
use crate::file_fault::FileFault;
use kb_base::Failure;

/// A place in the value of a file: one step after the other, from the outside in. A step that is absent, or
/// whose name is empty, isn't taken.
#[derive(Clone, Copy, Debug, PartialEq, Eq)]
pub struct Place<'v> {
    /// The member of the file that holds what the other steps lead to.
    pub list: &'static str,
    /// The element of that list.
    pub entry: Option<usize>,
    /// A member of the entry, or of the file if nothing holds it.
    pub member: &'static str,
    /// The element of that member.
    pub item: Option<usize>,
    /// A member of the item, or of the member.
    pub inner: Option<&'v str>,
}

impl<'v> Place<'v> {
    ghost use Rattle.std.specs.Prelude.{◌≡◌, [], None, Some};
    ghost use Rattle.kb_jsonc.specs.Mismatch.{path_of};

    /// A member of a file, or all of the file for the empty name.
    pub fn in_file(member: &'static str) -> Place<'v>
        ensures { path_of result
            ≡ record { list = []; entry = None; member = member.now; item = None; inner = None } }
    {
        Place {
            list: "",
            entry: None,
            member,
            item: None,
            inner: None,
        }
    }

    /// A member of an entry of the list that a file has as a member, or all of the entry for the empty name.
    pub fn in_entry(list: &'static str, entry: usize, member: &'static str) -> Place<'v>
        ensures { path_of result ≡ record {
          list = list.now;
          entry = Some entry;
          member = member.now;
          item = None;
          inner = None;
        } }
    {
        Place {
            list,
            entry: Some(entry),
            member,
            item: None,
            inner: None,
        }
    }

    /// An item of the member that this place is.
    pub fn item(self, item: usize) -> Place<'v>
        ensures { path_of result ≡ record {
          list = (path_of self.entry).list;
          entry = (path_of self.entry).entry;
          member = (path_of self.entry).member;
          item = Some item;
          inner = (path_of self.entry).inner;
        } }
    {
        Place {
            item: Some(item),
            ..self
        }
    }

    /// A member of the item or the member that this place is.
    pub fn inner(self, name: &'v str) -> Place<'v>
        ensures { path_of result ≡ record {
          list = (path_of self.entry).list;
          entry = (path_of self.entry).entry;
          member = (path_of self.entry).member;
          item = (path_of self.entry).item;
          inner = Some name.now;
        } }
    {
        Place {
            inner: Some(name),
            ..self
        }
    }
}

/// What was expected of the value at a place.
#[derive(Clone, Copy, Debug, PartialEq, Eq)]
pub enum Expected {
    /// That it is there.
    Present,
    /// An object.
    Object,
    /// A list.
    List,
    /// A list, or one object in its place.
    Entries,
    /// A text.
    Text,
    /// A text that isn't empty.
    Word,
    /// A whole number.
    Whole,
    /// One of the few values that the member can have.
    Known,
    /// A text that no earlier one is.
    New,
    /// True, false, a whole number, a text, a list of texts or an object.
    KeyValue,
}

impl Expected {
    ghost use Rattle.std.specs.Prelude.{◌≡◌};
    ghost use Rattle.kb_jsonc.specs.Mismatch.{fault_of};

    /// The fault of a file where this is expected and isn't so.
    pub fn fault(self) -> FileFault
        ensures { result ≡ fault_of self }
    {
        match self {
            Expected::Present => FileFault::MissingMember,
            _ => FileFault::WrongShape,
        }
    }
}

/// A place where a value isn't what was expected. The expectation is one of `Expected`, or of the format.
#[derive(Clone, Copy, Debug, PartialEq, Eq)]
pub struct Mismatch<'v, E> {
    /// Where it is. Where a member is absent, this is the place that it should have.
    pub place: Place<'v>,
    /// What was expected there.
    pub expected: E,
}

impl<'v> Mismatch<'v, Expected> {
    ghost use Rattle.std.specs.Prelude.{◌≡◌};
    ghost use Rattle.kb_jsonc.specs.Mismatch.{fault_at};

    /// The fault of the file that has this mismatch.
    pub fn fault(self) -> FileFault
        ensures { result ≡ fault_at self.entry }
    {
        self.expected.fault()
    }
}

impl<'v, E> From<Mismatch<'v, E>> for Failure<Mismatch<'v, E>> {
    ghost use Rattle.std.specs.Prelude.{◌≡◌};
    ghost use Rattle.kb_base.specs.declared.failure.Failure.TheVariants.{Fault};

    ghost from_gives = { λ mismatch failure. failure ≡ Fault mismatch };

    fn from(mismatch: Mismatch<'v, E>) -> Failure<Mismatch<'v, E>> {
        Failure::Fault(mismatch)
    }
}
