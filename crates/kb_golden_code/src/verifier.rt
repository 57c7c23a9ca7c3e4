//! What the verifier answers for a handler.
use kb_base::{Failure, NoMemory, Seq};
use kb_code::Handler;
use kb_core::NATIVES;
use kb_handler_file::HandlerFile;
use kb_jsonc::read;
use kb_verify::{Callable, Step, Verified, VerifyFault, callable_of, verify};
use std::alloc::{AllocError, Global};

// Longer paths are given by the number of their steps alone.
const PATH_LIMIT: usize = 4;

/// The handlers of a file; none where the file isn't accepted.
pub fn handlers_in(alloc: Global, bytes: &[u8]) -> Seq<Handler> {
    match read(alloc, bytes) {
        Ok(value) => HandlerFile::read(alloc, value).unwrap_or(Seq::new(alloc)),
        Err(_) => Seq::new(alloc),
    }
}

/// The commands that may be called: the natives, and then these handlers.
pub fn callable_with(alloc: Global, handlers: &[Handler]) -> Result<Callable, NoMemory> {
    callable_of(alloc, NATIVES.as_slice(), &[], &[], handlers)
}

// At most 8 blocks are nested.
const NEST_LIMIT: usize = 8;

fn add_path(output: &mut String, path: &[Step], nested: usize) -> Result<(), NoMemory> {
    let count = path.len();
    if count > PATH_LIMIT {
        return write!(output, " {count} steps");
    }
    for step in path {
        match step {
            Step::Choice(false) => output.push_str(" falls")?,
            Step::Choice(true) => output.push_str(" jumps")?,
            Step::Turns(turn) => {
                output.push_str(" turns(")?;
                if nested < NEST_LIMIT {
                    add_path(output, turn.as_slice(), nested + 1)?;
                }
                output.push_str(" )")?;
            }
        }
    }
    Ok(())
}

fn refused_by(alloc: Global, fault: &VerifyFault) -> Result<String, NoMemory> {
    let kind = fault.kind();
    let place = fault.place();
    let mut output = format!(in alloc; "{kind} {place}")?;
    if let VerifyFault::OverBudget(path) = fault {
        add_path(&mut output, path.as_slice(), 0)?;
    }
    Ok(output)
}

fn refused(alloc: Global, failure: &Failure<VerifyFault>) -> Result<String, NoMemory> {
    match failure {
        Failure::NoMemory => Err(AllocError),
        Failure::Fault(fault) => refused_by(alloc, fault),
    }
}

fn add_callees(output: &mut String, verified: &Verified) -> Result<(), NoMemory> {
    let calls = verified.handler().calls();
    for callee in verified.callees() {
        if let Some(name) = calls.get(usize::from(callee.index)) {
            let name = name.as_str();
            write!(output, " {name}")?;
        }
    }
    Ok(())
}

fn accepted(alloc: Global, verified: &Verified) -> Result<String, NoMemory> {
    let mut output = String::from_str(alloc, "accepted")?;
    add_callees(&mut output, verified)?;
    Ok(output)
}

fn verify_by(alloc: Global, handler: Handler, callable: &Callable) -> Result<String, NoMemory> {
    match verify(alloc, handler, callable) {
        Ok(verified) => {
            let output = accepted(alloc, &verified);
            drop(verified);
            output
        }
        Err((handler, failure)) => {
            drop(handler);
            let output = refused(alloc, &failure);
            drop(failure);
            output
        }
    }
}

/// `accepted` and the callees of the first handler of a file, or its fault with the place.
pub(crate) fn verify_first(alloc: Global, bytes: &[u8]) -> Result<String, NoMemory> {
    let handlers = handlers_in(alloc, bytes);
    let callable = callable_with(alloc, handlers.as_slice())?;
    match handlers.into_vec().into_iter().next() {
        Some(handler) => verify_by(alloc, handler, &callable),
        None => String::from_str(alloc, "no handler"),
    }
}
