//! A `handlers.json` for people and programs: one handler a block, one member a line.
ghost use Rattle.std.specs.Prelude.{◌≡◌, ◌++◌, OnOk, IfOk, codes, decimal, string_bytes};
ghost use Rattle.std.specs.List.{list_any};
ghost use Rattle.kb_assembly_report.specs.Json.{closing, code_member, comma, command_member, declared_json};
ghost use Rattle.kb_assembly_report.specs.Json.{file_json, gap, handler_json, handlers_json, has_blocks};
ghost use Rattle.kb_assembly_report.specs.Json.{head_json, is_of_block, joined, json_string, lines_member};
ghost use Rattle.kb_assembly_report.specs.Json.{list_json, list_member, number_member, opening, param_json};
ghost use Rattle.kb_assembly_report.specs.Json.{version_of, written_json};

use crate::entry::Entry;
use kb_assembly::kind_name;
use kb_base::{NoMemory, Seq, Text};
use kb_code::{Instr, encode};
use kb_core::Param;
use serde_json::Value;
use std::alloc::Global;

/// Adds a text as JSON.
fn push_text(alloc: Global, shown: &str, text: &mut String) -> Result<(), NoMemory>
    ensures { OnOk result (string_bytes text.new ≡ string_bytes text.old ++ json_string shown.now) }
{
    let value = Value::String(String::from_str(alloc, shown)?);
    let json = value.to_string(alloc)?;
    text.push_str(json.as_str())
}

/// Adds a number.
fn push_number(alloc: Global, number: usize, text: &mut String) -> Result<(), NoMemory>
    ensures { OnOk result (string_bytes text.new ≡ string_bytes text.old ++ decimal number) }
{
    let digits = format!(in alloc; "{number}")?;
    text.push_str(digits.as_str())
}

/// Adds a comma before further texts.
fn push_comma(rest: &[Text], text: &mut String) -> Result<(), NoMemory>
    ensures { OnOk result (string_bytes text.new ≡ string_bytes text.old ++ comma rest.now) }
{
    match rest {
        [] => Ok(()),
        _ => text.push_str(", "),
    }
}

/// Adds texts as JSON.
fn push_texts(alloc: Global, shown: &[Text], text: &mut String) -> Result<(), NoMemory>
    ensures { OnOk result
        (string_bytes text.new ≡ string_bytes text.old ++ joined json_string shown.now) }
{
    let mut left = shown;
    while let [one, rest @ ..] = left {
        push_text(alloc, one.as_str(), text)?;
        push_comma(rest, text)?;
        left = rest;
    }
    Ok(())
}

/// Adds a comma before further parameters.
fn push_param_comma(rest: &[Param], text: &mut String) -> Result<(), NoMemory>
    ensures { OnOk result (string_bytes text.new ≡ string_bytes text.old ++ comma rest.now) }
{
    match rest {
        [] => Ok(()),
        _ => text.push_str(", "),
    }
}

/// Adds a parameter as JSON.
#[tactic(auto, unfolding(crate::specs::Json::param_json))]
fn push_param(alloc: Global, param: &Param, text: &mut String) -> Result<(), NoMemory>
    ensures { OnOk result (string_bytes text.new ≡ string_bytes text.old ++ param_json param.now) }
{
    text.push_str("{ \"name\": ")?;
    push_text(alloc, param.name.as_str(), text)?;
    text.push_str(", \"kind\": ")?;
    push_text(alloc, kind_name(param.kind), text)?;
    text.push_str(" }")?;
    Ok(())
}

/// Adds parameters as JSON.
fn push_params(alloc: Global, params: &[Param], text: &mut String) -> Result<(), NoMemory>
    ensures { OnOk result
        (string_bytes text.new ≡ string_bytes text.old ++ joined param_json params.now) }
{
    let mut left = params;
    while let [one, rest @ ..] = left {
        push_param(alloc, one, text)?;
        push_param_comma(rest, text)?;
        left = rest;
    }
    Ok(())
}

/// Adds a comma before further numbers.
fn push_line_comma(rest: &[usize], text: &mut String) -> Result<(), NoMemory>
    ensures { OnOk result (string_bytes text.new ≡ string_bytes text.old ++ comma rest.now) }
{
    match rest {
        [] => Ok(()),
        _ => text.push_str(", "),
    }
}

/// Adds the numbers of lines.
fn push_lines(alloc: Global, lines: &[usize], text: &mut String) -> Result<(), NoMemory>
    ensures { OnOk result (string_bytes text.new ≡ string_bytes text.old ++ joined decimal lines.now) }
{
    let mut left = lines;
    while let [one, rest @ ..] = left {
        push_number(alloc, *one, text)?;
        push_line_comma(rest, text)?;
        left = rest;
    }
    Ok(())
}

/// Adds the name of a member.
fn push_name(name: &str, text: &mut String) -> Result<(), NoMemory>
    ensures { OnOk result
        (string_bytes text.new
        ≡ string_bytes text.old ++ (codes "            \"" ++ (name.now ++ codes "\": "))) }
{
    text.push_str("            \"")?;
    text.push_str(name)?;
    text.push_str("\": ")
}

/// Adds the command.
#[tactic(auto, unfolding(crate::specs::Json::command_member))]
fn push_command(alloc: Global, command: &str, text: &mut String) -> Result<(), NoMemory>
    ensures { OnOk result (string_bytes text.new ≡ string_bytes text.old ++ command_member command.now) }
{
    push_name("command", text)?;
    push_text(alloc, command, text)?;
    text.push_str(",\n")
}

/// Adds a member with a number.
#[tactic(auto, unfolding(crate::specs::Json::number_member))]
fn push_limit(alloc: Global, name: &str, number: u32, text: &mut String) -> Result<(), NoMemory>
    ensures { OnOk result
        (string_bytes text.new ≡ string_bytes text.old ++ number_member name.now number) }
{
    push_name(name, text)?;
    push_number(alloc, number as usize, text)?;
    text.push_str(",\n")
}

/// Adds the parameters, if there are any.
#[tactic(auto, unfolding(crate::specs::Json::list_member))]
fn push_params_member(alloc: Global, params: &[Param], text: &mut String) -> Result<(), NoMemory>
    ensures { OnOk result (string_bytes text.new
        ≡ string_bytes text.old ++ list_member (codes "params") param_json params.now) }
{
    match params {
        [] => Ok(()),
        _ => {
            push_name("params", text)?;
            text.push_str("[")?;
            push_params(alloc, params, text)?;
            text.push_str("],\n")
        }
    }
}

/// Adds a table of texts, if it isn't empty.
#[tactic(auto, unfolding(crate::specs::Json::list_member))]
fn push_table(alloc: Global, name: &str, texts: &[Text], text: &mut String) -> Result<(), NoMemory>
    ensures { OnOk result (string_bytes text.new
        ≡ string_bytes text.old ++ list_member name.now json_string texts.now) }
{
    match texts {
        [] => Ok(()),
        _ => {
            push_name(name, text)?;
            text.push_str("[")?;
            push_texts(alloc, texts, text)?;
            text.push_str("],\n")
        }
    }
}

/// Adds the code in hexadecimal digits.
#[tactic(auto, unfolding(crate::specs::Json::code_member))]
fn push_code(alloc: Global, code: &[Instr], text: &mut String) -> Result<(), NoMemory>
    ensures { OnOk result (string_bytes text.new ≡ string_bytes text.old ++ code_member code.now) }
{
    let bytes = encode(alloc, code)?;
    let digits = hex::encode(alloc, bytes.as_slice())?;
    push_name("code", text)?;
    text.push_str("\"")?;
    text.push_str(digits.as_str())?;
    text.push_str("\",\n")
}

/// Adds the member with the lines of the instructions.
#[tactic(auto, unfolding(crate::specs::Json::lines_member))]
fn push_lines_member(alloc: Global, lines: &[usize], text: &mut String) -> Result<(), NoMemory>
    ensures { OnOk result (string_bytes text.new ≡ string_bytes text.old ++ lines_member lines.now) }
{
    push_name("lines", text)?;
    text.push_str("[")?;
    push_lines(alloc, lines, text)?;
    text.push_str("]\n")
}

/// Adds the first members of a handler: what it declares.
#[tactic(auto, unfolding(crate::specs::Json::declared_json))]
fn push_declared(alloc: Global, entry: &Entry<'_>, text: &mut String) -> Result<(), NoMemory>
    ensures { OnOk result (string_bytes text.new ≡ string_bytes text.old ++ declared_json entry.now) }
{
    push_command(alloc, entry.draft.command.as_str(), text)?;
    push_params_member(alloc, entry.draft.params.as_slice(), text)?;
    push_limit(alloc, "budget", entry.budget, text)?;
    push_limit(alloc, "depth", entry.depth, text)?;
    Ok(())
}

/// Adds the other members of a handler.
#[tactic(auto, unfolding(crate::specs::Json::written_json))]
fn push_written(alloc: Global, entry: &Entry<'_>, text: &mut String) -> Result<(), NoMemory>
    ensures { OnOk result (string_bytes text.new ≡ string_bytes text.old ++ written_json entry.now) }
{
    push_table(alloc, "texts", entry.draft.texts.as_slice(), text)?;
    push_table(alloc, "calls", entry.draft.calls.as_slice(), text)?;
    push_code(alloc, entry.draft.code.as_slice(), text)?;
    push_lines_member(alloc, entry.lines.as_slice(), text)?;
    Ok(())
}

/// Adds a handler.
#[tactic(auto, unfolding(crate::specs::Json::handler_json))]
fn push_handler(alloc: Global, entry: &Entry<'_>, text: &mut String) -> Result<(), NoMemory>
    ensures { OnOk result (string_bytes text.new ≡ string_bytes text.old ++ handler_json entry.now) }
{
    text.push_str("        {\n")?;
    push_declared(alloc, entry, text)?;
    push_written(alloc, entry, text)?;
    text.push_str("        }")?;
    Ok(())
}

/// Adds the end of a line before further handlers.
fn push_gap(rest: &[Entry<'_>], text: &mut String) -> Result<(), NoMemory>
    ensures { OnOk result (string_bytes text.new ≡ string_bytes text.old ++ gap rest.now) }
{
    match rest {
        [] => Ok(()),
        _ => text.push_str(",\n"),
    }
}

/// Adds handlers.
fn push_handlers(alloc: Global, entries: &[Entry<'_>], text: &mut String) -> Result<(), NoMemory>
    ensures { OnOk result (string_bytes text.new ≡ string_bytes text.old ++ handlers_json entries.now) }
{
    let mut left = entries;
    while let [one, rest @ ..] = left {
        push_handler(alloc, one, text)?;
        push_gap(rest, text)?;
        left = rest;
    }
    Ok(())
}

/// Whether an instruction opens or ends a block.
fn is_of_block(instr: Instr) -> bool
    ensures { result ≡ is_of_block instr }
{
    match instr {
        Instr::Repeat(_) | Instr::End => true,
        _ => false,
    }
}

/// Whether the code of a handler has a block.
fn has_blocks(entry: &Entry<'_>) -> bool
    ensures { result ≡ has_blocks entry.now }
{
    let code = entry.draft.code.as_slice();
    let mut has = false;
    for instr in code {
        has = has || is_of_block(*instr);
    }
    has
}

/// The version of a file: 2 if a handler has a block.
fn version_of(entries: &[Entry<'_>]) -> usize
    ensures { result ≡ version_of entries.now }
{
    let mut has = false;
    for entry in entries {
        has = has || has_blocks(entry);
    }
    if has { 2 } else { 1 }
}

/// Adds the end of a line before handlers, and another behind them with blanks.
fn push_opening(entries: &[Entry<'_>], text: &mut String) -> Result<(), NoMemory>
    ensures { OnOk result (string_bytes text.new ≡ string_bytes text.old ++ opening entries.now) }
{
    match entries {
        [] => Ok(()),
        _ => text.push_str("\n"),
    }
}

/// Adds the end of a line behind handlers, and four blanks.
fn push_closing(entries: &[Entry<'_>], text: &mut String) -> Result<(), NoMemory>
    ensures { OnOk result (string_bytes text.new ≡ string_bytes text.old ++ closing entries.now) }
{
    match entries {
        [] => Ok(()),
        _ => text.push_str("\n    "),
    }
}

/// Adds the version of a file, and what stands before its handlers.
#[tactic(auto, unfolding(crate::specs::Json::head_json))]
fn push_head(alloc: Global, entries: &[Entry<'_>], text: &mut String) -> Result<(), NoMemory>
    ensures { OnOk result (string_bytes text.new ≡ string_bytes text.old ++ head_json entries.now) }
{
    text.push_str("{\n    \"version\": ")?;
    push_number(alloc, version_of(entries), text)?;
    text.push_str(",\n    \"handlers\": [")?;
    Ok(())
}

/// Adds the list of handlers, and what stands behind it.
#[tactic(auto, unfolding(crate::specs::Json::list_json))]
fn push_list(alloc: Global, entries: &[Entry<'_>], text: &mut String) -> Result<(), NoMemory>
    ensures { OnOk result (string_bytes text.new ≡ string_bytes text.old ++ list_json entries.now) }
{
    push_opening(entries, text)?;
    push_handlers(alloc, entries, text)?;
    push_closing(entries, text)?;
    text.push_str("]\n}\n")?;
    Ok(())
}

/// Adds the file of handlers to a text.
fn push_file(alloc: Global, entries: &[Entry<'_>], text: &mut String) -> Result<(), NoMemory>
    ensures { OnOk result (string_bytes text.new ≡ string_bytes text.old ++ file_json entries.now) }
{
    push_head(alloc, entries, text)?;
    push_list(alloc, entries, text)?;
    Ok(())
}

/// The text of a `handlers.json` of handlers. Error: `NoMemory`.
pub(crate) fn file_text(alloc: Global, entries: &[Entry<'_>]) -> Result<Seq<u8>, NoMemory>
    ensures { IfOk result (λ text. text ≡ file_json entries.now) }
{
    let mut text = String::new(alloc);
    push_file(alloc, entries, &mut text)?;
    Ok(Seq::from_vec(text.into_bytes()))
}
