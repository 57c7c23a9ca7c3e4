//! Paths into a JSON value.
ghost use Rattle.std.specs.Prelude.{◌≡◌, option_map};
ghost use Rattle.serde_json.specs.View.{view};
ghost use Rattle.kb_places.specs.Place.{behind, at_path};

use serde_json::Value;

/// A step into a JSON value.
#[derive(Clone, Copy, Debug, PartialEq, Eq)]
pub enum Step<'a> {
    /// The member of a name.
    Member(&'a str),
    /// The item at a place, counted from 0.
    Item(usize),
}

/// The value at the end of a step.
fn value_behind<'v>(value: &'v Value, step: &Step<'_>) -> Option<&'v Value>
    ensures { option_map (λ v. view v.now) result ≡ behind step.now (view value.now) }
{
    match step {
        Step::Member(name) => value.get(*name),
        Step::Item(place) => value.get(*place),
    }
}

/// The value at a path.
pub fn value_at<'v>(value: &'v Value, path: &[Step<'_>]) -> Option<&'v Value>
    ensures { option_map (λ v. view v.now) result ≡ at_path path.now (view value.now) }
{
    let mut found = value;
    for step in path {
        match value_behind(found, step) {
            Some(inner) => found = inner,
            None => return None,
        }
    }
    Some(found)
}
