//! The lines that a press adds to the trace, said.
ghost use Rattle.std.specs.Prelude.{◌≡◌, IfOk, OnOk};
ghost use Rattle.serde_json.specs.View.{view};
ghost use Rattle.kb_explain_report.specs.Said.{IsTraceLine, SaysTrace, WritesEach, texts_json};

use kb_base::NoMemory;
use kb_report::{Form, Stop, say_object, say_text};
use kb_stream::Lines;
use serde_json::{Value, json};
use std::alloc::Global;
use std::io::Write;

/// Lines as JSON.
fn lines_json(alloc: Global, lines: &Lines) -> Result<Value, NoMemory>
    ensures { IfOk result (λ made. view made ≡ texts_json lines.now) }
{
    let mut list = Vec::new(alloc);
    for place in 0..lines.len() {
        let line = lines.get(place).unwrap();
        list.push(Value::try_from_str(alloc, line)?)?;
    }
    Ok(Value::Array(list))
}

/// Writes each of these lines behind `trace: `.
fn say_lines<W: Write>(alloc: Global, lines: &Lines, out: &mut W) -> Result<(), Stop>
    ensures { OnOk result (WritesEach IsTraceLine lines.now (W.contents out.old) (W.contents out.new)) }
{
    for place in 0..lines.len() {
        let line = lines.get(place).unwrap();
        say_text(format!(in alloc; "trace: {line}")?, out)?;
    }
    Ok(())
}

/// Writes lines of the trace: each behind `trace: `, or all as one JSON object.
///
/// Errors: refused memory, or a write that failed.
pub fn say_trace<W: Write>(
    alloc: Global,
    lines: &Lines,
    form: Form,
    out: &mut W,
) -> Result<(), Stop>
    ensures { OnOk result (SaysTrace form lines.now (W.contents out.old) (W.contents out.new)) }
{
    match form {
        Form::Text => {
            say_lines(alloc, lines, out)?;
            Ok(())
        }
        Form::Json => {
            let list = lines_json(alloc, lines)?;
            say_object(alloc, json!(in alloc; {"trace": list})?, out)?;
            Ok(())
        }
    }
}
