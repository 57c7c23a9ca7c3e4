//! The scopes of an engine, read from the bytes of a layout file.
ghost use Rattle.std.specs.Prelude.{◌≡◌, Ok, IfOk, option_map};
ghost use Rattle.kb_base.specs.Failure.{Gives};
ghost use Rattle.kb_files.specs.Layout.{layout_in, layout_scopes, scopes_in, scopes_for};
ghost use Rattle.kb_files.specs.Layout.{window_layout, window_scopes};

use crate::failures::{scope_failure, shape_failure};
use crate::value::read_value;
use kb_base::{Failure, NoMemory, Refusal, Seq, Text, TextMap};
use kb_context::{Layout, LayoutScope, Scopes};
use kb_layout::read_layout;
use std::alloc::Global;

/// The scopes of a layout file: JSON with comments whose value is a layout (`read_layout` says its
/// format). Without a file there is one scope, `window`, without keys (our decision).
///
/// Errors: the first fault of the file, in this order: those of its text (1 to 4), a missing member
/// (40), another shape (41), scopes that are no tree or a focus that is none of them (21), too many
/// keys (22); or `NoMemory`.
pub fn read_scopes(alloc: Global, layout: Option<&[u8]>) -> Result<Scopes, Failure<Refusal>>
    ensures { Gives (λ scopes. scopes) result (layout_scopes (option_map (λ bytes. bytes.now) layout.entry)) }
{
    match layout {
        Some(bytes) => scopes_of_file(alloc, bytes),
        None => window(alloc),
    }
}

/// The scopes that the bytes of a layout file hold.
fn scopes_of_file(alloc: Global, bytes: &[u8]) -> Result<Scopes, Failure<Refusal>>
    ensures { Gives (λ scopes. scopes) result (scopes_in bytes.now) }
{
    let layout = read_layout_file(alloc, bytes)?;
    make_scopes(alloc, layout)
}

/// The layout that the bytes of a file hold.
fn read_layout_file(alloc: Global, bytes: &[u8]) -> Result<Layout, Failure<Refusal>>
    ensures { Gives (λ layout. layout) result (layout_in bytes.now) }
{
    let value = read_value(alloc, bytes)?;
    read_layout(alloc, value).map_err(shape_failure)
}

/// The scopes of a layout.
fn make_scopes(alloc: Global, layout: Layout) -> Result<Scopes, Failure<Refusal>>
    ensures { Gives (λ scopes. scopes) result (scopes_for layout) }
{
    Scopes::new(alloc, layout).map_err(scope_failure)
}

/// The one scope `window`. Its layout has no fault, so that only memory can be refused.
fn window(alloc: Global) -> Result<Scopes, Failure<Refusal>>
    ensures { Gives (λ scopes. scopes) result (Ok window_scopes) }
{
    let layout = window_layout(alloc)?;
    make_scopes(alloc, layout)
}

/// The layout of one scope, `window`, without keys.
fn window_layout(alloc: Global) -> Result<Layout, NoMemory>
    ensures { IfOk result (λ layout. layout ≡ window_layout) }
{
    let mut scopes = Seq::new(alloc);
    scopes.push(LayoutScope {
        name: Text::from_str(alloc, "window")?,
        parent: None,
        keys: TextMap::new(alloc),
    })?;
    let focus = Text::from_str(alloc, "window")?;
    Ok(Layout { scopes, focus })
}
