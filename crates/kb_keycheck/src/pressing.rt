//! `explain`: what each keystroke does, said before it is pressed.
ghost use Rattle.std.specs.Prelude.{◌≡◌, ◌++◌, ◌∷◌, [], IfErr, IfOk, OnOk};
ghost use Rattle.kb_explain_report.specs.Said.{SaysTrace};
ghost use Rattle.kb_keycheck.specs.Ends.{IsBehindLoad};
ghost use Rattle.kb_keycheck.specs.Pressing.{SaysStroke, SaysStrokes, SaysWhy, pressed};
ghost use Rattle.kb_keys.specs.declared.keystroke.Keystroke.{Keystroke};
ghost use Rattle.kb_session.specs.Session.{took};
ghost use Rattle.kb_session.specs.State.{happens};

use crate::ending::Stop;
use kb_base::NoMemory;
use kb_engine::PlainCommand;
use kb_explain_report::{Named, RulePlaces, Situation, say_press, say_trace};
use kb_keys::Keystroke;
use kb_report::Form;
use kb_session::Session;
use kb_source_files::SourceFiles;
use kb_trace::Event;
use std::alloc::{AllocError, Global};
use std::io::Write;

/// The keystrokes of the open chord with one more.
fn strokes_with(
    alloc: Global,
    pressed: &[Keystroke],
    stroke: Keystroke,
) -> Result<Vec<Keystroke>, NoMemory>
    ensures { IfOk result (λ made. made.items ≡ pressed.now ++ stroke ∷ []) }
{
    let mut strokes = Vec::from_slice(alloc, pressed)?;
    strokes.push(stroke).map_err(NoMemory::from)?;
    Ok(strokes)
}

/// Writes what a press does that completes these keystrokes, and why.
#[tactic(auto, using(crate::proofs::EndLemmas::said_behind))]
fn explain_strokes<'s, 'a, W: Write>(
    alloc: Global,
    session: &'s Session<PlainCommand>,
    files: &'s SourceFiles<'s>,
    places: &'s RulePlaces,
    strokes: &'s [Keystroke],
    is_last: bool,
    form: Form,
    out: &mut W,
) -> Result<(), Stop<'a>>
    ensures said { OnOk result ((stroke : Keystroke)
        → strokes.now ≡ session.now.state.pressed ++ stroke ∷ []
        → SaysWhy form is_last stroke session.now.state (W.contents out.old) (W.contents out.new)) }
    ensures stopped { IfErr result IsBehindLoad }
{
    let situation = Situation {
        strokes,
        scopes: session.core().scopes(),
        named: Named {
            bindings: session.bindings(),
            files,
            places,
        },
    };
    Ok(say_press(alloc, &situation, is_last, form, out)?)
}

/// Writes what a press of a key does, and why.
pub(crate) fn explain_press<'a, W: Write>(
    alloc: Global,
    session: &Session<PlainCommand>,
    files: &SourceFiles<'_>,
    places: &RulePlaces,
    stroke: Keystroke,
    is_last: bool,
    form: Form,
    out: &mut W,
) -> Result<(), Stop<'a>>
    ensures said { OnOk result
        (SaysWhy form is_last stroke session.now.state (W.contents out.old) (W.contents out.new)) }
    ensures stopped { IfErr result IsBehindLoad }
{
    let strokes = strokes_with(alloc, session.pressed(), stroke)?;
    let strokes = strokes.as_slice();
    explain_strokes(
        alloc, session, &*files, &*places, strokes, is_last, form, out,
    )
}

/// Presses a key. A session whose handlers are verified stops only for refused memory.
fn press(session: &mut Session<PlainCommand>, stroke: Keystroke) -> Result<(), NoMemory>
    ensures { OnOk result (session.new ≡ took (happens (Event.Key stroke)) session.old) }
{
    match session.handle(Event::Key(stroke)) {
        Ok(_) => Ok(()),
        Err(_) => Err(AllocError),
    }
}

/// Presses a key, and writes what the trace gains.
#[tactic(auto, using(crate::proofs::EndLemmas::said_behind))]
fn press_said<'a, W: Write>(
    alloc: Global,
    session: &mut Session<PlainCommand>,
    stroke: Keystroke,
    form: Form,
    out: &mut W,
) -> Result<(), Stop<'a>>
    ensures said { OnOk result (SaysTrace form (pressed stroke session.old.state).lines
        (W.contents out.old) (W.contents out.new)) }
    ensures state { OnOk result (session.new.state ≡ (pressed stroke session.old.state).state) }
    ensures stopped { IfErr result IsBehindLoad }
{
    session.truncate_trace(0);
    press(session, stroke)?;
    Ok(say_trace(alloc, session.trace(), form, out)?)
}

/// Writes what a press of a key does, presses it, and writes what the trace gains.
fn explain_stroke<'a, W: Write>(
    alloc: Global,
    session: &mut Session<PlainCommand>,
    files: &SourceFiles<'_>,
    places: &RulePlaces,
    stroke: &Keystroke,
    is_last: bool,
    form: Form,
    out: &mut W,
) -> Result<(), Stop<'a>>
    ensures said { OnOk result (SaysStroke form is_last stroke.now session.old.state
        (W.contents out.old) (W.contents out.new)) }
    ensures state { OnOk result (session.new.state ≡ (pressed stroke.now session.old.state).state) }
    ensures stopped { IfErr result IsBehindLoad }
{
    explain_press(alloc, session, files, places, *stroke, is_last, form, out)?;
    press_said(alloc, session, *stroke, form, out)
}

/// Writes of each of these keystrokes in turn what it does, presses it, and writes what the trace gains. It
/// writes why, too, but of a keystroke that only opens or keeps a chord only if it is the last.
///
/// Errors: refused memory, or a write that failed.
pub(crate) fn explain<'a, W: Write>(
    alloc: Global,
    session: &mut Session<PlainCommand>,
    files: &SourceFiles<'_>,
    strokes: &[Keystroke],
    form: Form,
    out: &mut W,
) -> Result<(), Stop<'a>>
    ensures said { OnOk result (SaysStrokes form strokes.now session.old.state
        (W.contents out.old) (W.contents out.new)) }
    ensures stopped { IfErr result IsBehindLoad }
{
    let places = RulePlaces::of(alloc, files)?;
    let mut left = strokes;
    while let [stroke, rest @ ..] = left {
        explain_stroke(
            alloc,
            session,
            files,
            &places,
            stroke,
            rest.is_empty(),
            form,
            out,
        )?;
        left = rest;
    }
    Ok(())
}
