//! Lines, as text or as JSON.
ghost use Rattle.std.specs.Prelude.{◌∷◌, ◌++◌, [], OnErr, OnOk, string_bytes};
ghost use Rattle.std.specs.Io.KnownBytes.{Appends};
ghost use Rattle.serde_json.specs.View.{view};
ghost use Rattle.kb_report.specs.Output.{IsJson, WritesLine};
ghost use Rattle.kb_stream.specs.Writing.{AppendsPart};

use kb_base::NoMemory;
use kb_stream::write_whole;
use serde_json::Value;
use std::alloc::Global;
use std::io::Write;

/// How lines are written.
#[derive(Clone, Copy, Debug, PartialEq, Eq)]
pub enum Form {
    /// As sentences for people.
    Text,
    /// As JSON, one object a line.
    Json,
}

/// Why a report stopped before its end.
#[derive(Clone, Copy, Debug, PartialEq, Eq)]
pub enum Stop {
    /// Memory was refused.
    NoMemory,
    /// A write failed.
    NotWritten,
}

impl From<NoMemory> for Stop {
    ghost use Rattle.std.specs.Prelude.{◌≡◌};
    ghost use Rattle.kb_report.specs.declared.output.Stop.TheVariants as stop;

    ghost from_gives = { λ _ made. made ≡ stop.NoMemory };

    fn from(_refused: NoMemory) -> Self {
        Stop::NoMemory
    }
}

/// Writes a text.
///
/// Error: `NotWritten`; the writer has a part of the text then.
pub fn say<W: Write>(text: &str, out: &mut W) -> Result<(), Stop>
    ensures ok { OnOk result (Appends (W.contents out.old) (W.contents out.new) text.now) }
    ensures err { OnErr result (AppendsPart (W.contents out.old) (W.contents out.new) text.now) }
{
    match write_whole(out, text.as_bytes()) {
        Ok(()) => Ok(()),
        Err(_) => Err(Stop::NotWritten),
    }
}

/// Writes a text and a line feed.
///
/// Errors: `NotWritten`, or `NoMemory`; the writer has a part of them then.
pub fn say_text<W: Write>(text: String, out: &mut W) -> Result<(), Stop>
    ensures ok { OnOk result
        (Appends (W.contents out.old) (W.contents out.new) (string_bytes text ++ 10 ∷ [])) }
    ensures err { OnErr result
        (AppendsPart (W.contents out.old) (W.contents out.new) (string_bytes text ++ 10 ∷ [])) }
{
    let mut text = text;
    text.push('\n')?;
    say(text.as_str(), out)
}

/// Writes an object as a line.
///
/// Errors: `NotWritten`, or `NoMemory`; the writer has a part of the line then.
#[tactic(auto, unfolding(crate::specs::Output::IsJson))]
pub fn say_object<W: Write>(alloc: Global, object: Value, out: &mut W) -> Result<(), Stop>
    ensures { OnOk result (WritesLine (IsJson (view object)) (W.contents out.old) (W.contents out.new)) }
{
    say_text(object.to_string(alloc)?, out)?;
    Ok(())
}
