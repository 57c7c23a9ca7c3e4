//! The trace line of a call. It is written into the text of `Lines::begin_line`, so it needs no buffer
//! of its own. On refused memory the lines stay unchanged.
ghost use Rattle.std.specs.Prelude.{◌≡◌, [], ◌∷◌, ◌++◌, IfOk, OnOk, OnErr, map, string_bytes};
ghost use Rattle.kb_vm.specs.CallLine as line;
ghost use Rattle.kb_vm.specs.Operand.{arg_of};

use crate::given::Given;
use crate::operands::Operand;
use json::Writer;
use kb_base::NoMemory;
use kb_stream::Lines;

/// Adds the line `call COMMAND ARGUMENTS` for a command that is called. The arguments are a JSON list
/// without spaces.
pub(crate) fn call_line(lines: &mut Lines, name: &str, given: &Given<'_>) -> Result<(), NoMemory>
    ensures ok { OnOk result (lines.new ≡ lines.old ++ line.call_line name.now given.now ∷ []) }
    ensures err { OnErr result (lines.new ≡ lines.old) }
{
    let text = call_text(lines.begin_line(), name, given)?;
    lines.push(text)
}

/// Appends the words of a call to a text.
fn call_text(text: String, name: &str, given: &Given<'_>) -> Result<String, NoMemory>
    ensures { IfOk result (λ made. string_bytes made
        ≡ string_bytes text ++ line.call_line name.now given.now) }
{
    let mut text = text;
    text.push_str("call ")?;
    text.push_str(name)?;
    text.push_str(" ")?;
    with_list(text, given.as_slice())
}

/// Appends values to a text, as a JSON list.
#[tactic(auto, unfolding(crate::specs::CallLine::list_text))]
fn with_list(text: String, given: &[Operand<'_>]) -> Result<String, NoMemory>
    ensures { IfOk result (λ made. string_bytes made
        ≡ string_bytes text ++ line.list_text (map arg_of given.now)) }
{
    let mut writer = Writer::new(text.into_bytes());
    write_list(&mut writer, given)?;
    Ok(String::from_utf8(writer.into_inner()).unwrap())
}

/// Writes values as a JSON list.
fn write_list(writer: &mut Writer, given: &[Operand<'_>]) -> Result<(), NoMemory>
    ensures tokens { OnOk result (writer.new.tokens
        ≡ writer.old.tokens ++ line.list_tokens (map arg_of given.now)) }
    ensures before { writer.new.before ≡ writer.old.before }
{
    writer.begin_array()?;
    for value in given {
        write_value(writer, *value)?;
    }
    writer.end_array()
}

/// Writes a value.
fn write_value(writer: &mut Writer, value: Operand<'_>) -> Result<(), NoMemory>
    ensures tokens { OnOk result (writer.new.tokens
        ≡ writer.old.tokens ++ line.token_of (arg_of value.entry) ∷ []) }
    ensures before { writer.new.before ≡ writer.old.before }
{
    match value {
        Operand::Text(text) => writer.string(text),
        Operand::Number(number) => writer.i64(number),
        Operand::Truth(truth) => writer.boolean(truth),
    }
}
