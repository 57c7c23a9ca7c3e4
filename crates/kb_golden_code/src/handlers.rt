//! Files of handlers (`handlers.json`) and bytecode: what is read from them.
use crate::signatures::signature_text;
use hex::encode as in_digits;
use kb_base::{Failure, NoMemory, Seq, Text};
use kb_code::{Code, CodeFault, Handler, Instr, Version, decode, encode};
use kb_core::Signature;
use kb_golden_text::fault_text;
use kb_handler_file::{HandlerFile, HandlersFault};
use kb_jsonc::read;
use std::alloc::{AllocError, Global};

// Longer lists of handlers, texts or calls are given by their length alone.
const LIST_LIMIT: usize = 4;

// Longer code is given by the number of its instructions alone.
const CODE_LIMIT: usize = 16;

fn add_texts(output: &mut String, kind: &str, texts: &[Text]) -> Result<(), NoMemory> {
    if texts.is_empty() {
        return Ok(());
    }
    let count = texts.len();
    if count > LIST_LIMIT {
        return write!(output, ", {count} {kind}");
    }
    write!(output, ", {kind}")?;
    for text in texts {
        let text = text.as_str();
        write!(output, " \"{text}\"")?;
    }
    Ok(())
}

// The encoded bytes of code, in hexadecimal digits.
fn digits_of(alloc: Global, code: &[Instr]) -> Result<String, NoMemory> {
    let bytes = encode(alloc, code)?;
    in_digits(alloc, bytes.as_slice())
}

fn add_code(alloc: Global, output: &mut String, code: &[Instr]) -> Result<(), NoMemory> {
    if code.is_empty() {
        return Ok(());
    }
    let count = code.len();
    if count > CODE_LIMIT {
        return write!(output, ", {count} instructions");
    }
    let digits = digits_of(alloc, code)?;
    let digits = digits.as_str();
    write!(output, ", code {digits}")
}

fn add_handler(alloc: Global, output: &mut String, handler: &Handler) -> Result<(), NoMemory> {
    let name = handler.command().as_str();
    let declared = signature_text(alloc, handler.signature())?;
    let declared = declared.as_str();
    write!(output, "\"{name}\" {declared}")?;
    add_texts(output, "texts", handler.texts())?;
    add_texts(output, "calls", handler.calls())?;
    add_code(alloc, output, handler.code().instrs())
}

fn add_all(alloc: Global, output: &mut String, handlers: &[Handler]) -> Result<(), NoMemory> {
    for handler in handlers {
        if !output.is_empty() {
            output.push_str("; ")?;
        }
        add_handler(alloc, output, handler)?;
    }
    Ok(())
}

// Each handler; of more than `LIST_LIMIT` handlers their number and the last one.
fn handlers_text(alloc: Global, handlers: &[Handler]) -> Result<String, NoMemory> {
    let count = handlers.len();
    let mut output = String::new(alloc);
    match handlers.last() {
        None => output.push_str("no handlers")?,
        Some(last) if count > LIST_LIMIT => {
            write!(output, "{count} handlers; ")?;
            add_handler(alloc, &mut output, last)?;
        }
        Some(_) => add_all(alloc, &mut output, handlers)?,
    }
    Ok(output)
}

fn refused(alloc: Global, failure: Failure<HandlersFault>) -> Result<String, NoMemory> {
    match failure {
        Failure::Fault(wrong) => fault_text(alloc, wrong.kind()),
        Failure::NoMemory => Err(AllocError),
    }
}

/// The handlers of a file in order, or its first fault.
pub(crate) fn handlers(alloc: Global, bytes: &[u8]) -> Result<String, NoMemory> {
    let Ok(value) = read(alloc, bytes) else {
        return String::from_str(alloc, "no JSON");
    };
    match HandlerFile::read(alloc, value) {
        Ok(handlers) => handlers_text(alloc, handlers.as_slice()),
        Err(failure) => refused(alloc, failure),
    }
}

fn code_fault(alloc: Global, failure: Failure<CodeFault>) -> Result<String, NoMemory> {
    let wrong = match failure {
        Failure::Fault(wrong) => wrong,
        Failure::NoMemory => return Err(AllocError),
    };
    let mut output = fault_text(alloc, wrong.kind())?;
    match wrong {
        CodeFault::BadLength => {}
        CodeFault::BadOpcode(place) => write!(output, " at {place}")?,
        CodeFault::BadOperand(place) => write!(output, " at {place}")?,
        CodeFault::BadBlock(place) => write!(output, " at {place}")?,
    }
    Ok(output)
}

fn add_instrs(output: &mut String, code: &[Instr]) -> Result<(), NoMemory> {
    for instr in code {
        write!(output, "{instr:?} ")?;
    }
    Ok(())
}

fn add_decoded(alloc: Global, output: &mut String, code: &[Instr]) -> Result<(), NoMemory> {
    add_instrs(output, code)?;
    let digits = digits_of(alloc, code)?;
    let digits = digits.as_str();
    write!(output, "= {digits}")
}

// Each instruction, and the bytes that encode them.
fn decoded_text(alloc: Global, code: &[Instr]) -> Result<String, NoMemory> {
    if code.is_empty() {
        return String::from_str(alloc, "no instructions");
    }
    let mut output = String::new(alloc);
    add_decoded(alloc, &mut output, code)?;
    Ok(output)
}

// The code of these bytes: its instructions, and then its blocks.
fn code_of(alloc: Global, bytes: &[u8], version: Version) -> Result<Code, Failure<CodeFault>> {
    let instrs = decode(alloc, bytes, version)?;
    Code::new(alloc, instrs, version)
}

/// The instructions of a version that hexadecimal digits encode, and the bytes that encode these again, or
/// the first fault.
pub(crate) fn code(alloc: Global, text: &str, version: Version) -> Result<String, NoMemory> {
    let Ok(bytes) = hex::decode(alloc, text) else {
        return String::from_str(alloc, "no digits");
    };
    match code_of(alloc, bytes.as_slice(), version) {
        Ok(code) => decoded_text(alloc, code.instrs()),
        Err(failure) => code_fault(alloc, failure),
    }
}

// A handler of this code, with `calls` names in its list of calls.
fn handler_of(alloc: Global, calls: usize, code: Code) -> Result<Handler, NoMemory> {
    let mut names = Seq::new(alloc);
    for _ in 0..calls {
        names.push(Text::from_str(alloc, "type")?)?;
    }
    let command = Text::from_str(alloc, "x")?;
    let signature = Signature::new(Seq::new(alloc), 1, 1);
    Ok(Handler::new(command, signature, Seq::new(alloc), names, code))
}

fn add_indices(output: &mut String, indices: &[u16]) -> Result<(), NoMemory> {
    for index in indices {
        if !output.is_empty() {
            output.push(' ')?;
        }
        write!(output, "{index}")?;
    }
    Ok(())
}

fn callees_text(alloc: Global, handler: &Handler) -> Result<String, NoMemory> {
    let callees = handler.callees(alloc)?;
    if callees.as_slice().is_empty() {
        return String::from_str(alloc, "none");
    }
    let mut output = String::new(alloc);
    add_indices(&mut output, callees.as_slice())?;
    Ok(output)
}

/// The indices of the calls that code in hexadecimal digits can reach, where its handler names `calls`
/// commands.
pub(crate) fn callees(alloc: Global, calls: &str, text: &str) -> Result<String, NoMemory> {
    let Ok(bytes) = hex::decode(alloc, text) else {
        return String::from_str(alloc, "no digits");
    };
    let calls = calls.parse::<usize>().unwrap_or(0);
    match code_of(alloc, bytes.as_slice(), Version::Two) {
        Ok(code) => callees_text(alloc, &handler_of(alloc, calls, code)?),
        Err(failure) => code_fault(alloc, failure),
    }
}
