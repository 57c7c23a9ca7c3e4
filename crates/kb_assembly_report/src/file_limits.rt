//! What a `handlers.json` can't hold of handlers that a text has.
use crate::found::{Faults, Found};
use crate::sources::Source;
use kb_assembly::Draft;
use kb_base::{FaultKind, NoMemory, Text};
use std::alloc::Global;
use std::collections::HashMap;

/// The most handlers of a file.
const HANDLERS: usize = 1_000;

/// The most parameters of a handler.
const PARAMS: usize = 8;

/// The most texts, and the most calls, of a handler.
const TEXTS: usize = 1_000;

/// The most instructions of a handler.
const INSTRS: usize = 10_000;

/// The largest budget, and the largest depth.
const BUDGET: u32 = 1_000_000_000;

const DEPTH: u32 = 64;

/// Names that were seen.
type Seen = HashMap<String, ()>;

/// Whether a name is new. It is noted then.
fn is_new(alloc: Global, seen: &mut Seen, name: &Text) -> Result<bool, NoMemory> {
    if seen.contains_key(name.as_str()) {
        return Ok(false);
    }
    seen.insert(String::from_str(alloc, name.as_str())?, ())?;
    Ok(true)
}

/// Adds a fault of a limit.
fn add_large(
    alloc: Global,
    line: usize,
    word: usize,
    sentence: &str,
    faults: &mut Faults,
) -> Result<(), NoMemory> {
    faults.add(Found::said(alloc, line, word, FaultKind::TooLarge, sentence)?)
}

/// Adds the faults of a handler's parameters.
fn add_params(
    alloc: Global,
    draft: &Draft,
    source: &Source,
    faults: &mut Faults,
) -> Result<(), NoMemory> {
    let mut seen = HashMap::new(alloc);
    for (place, param) in draft.params.as_slice().iter().enumerate() {
        let line = source.param_at(place);
        let is_new = is_new(alloc, &mut seen, &param.name)?;
        let sentence = if param.name.as_str().is_empty() {
            "a parameter has a name that isn't empty"
        } else if !is_new {
            "an earlier parameter of this handler has this name"
        } else {
            ""
        };
        if !sentence.is_empty() {
            faults.add(Found::said(alloc, line, 1, FaultKind::WrongShape, sentence)?)?;
        }
    }
    if draft.params.len() > PARAMS {
        let line = source.param_at(PARAMS);
        add_large(alloc, line, 1, "a handler has at most 8 parameters", faults)?;
    }
    Ok(())
}

/// Whether a limit, if it is there, is from 1 to the largest one.
fn is_within(limit: Option<u32>, most: u32) -> bool {
    match limit {
        Some(number) => 1 <= number && number <= most,
        None => true,
    }
}

/// Adds the faults of a handler's budget and depth.
fn add_limits(
    alloc: Global,
    draft: &Draft,
    source: &Source,
    faults: &mut Faults,
) -> Result<(), NoMemory> {
    if !is_within(draft.budget, BUDGET) {
        add_large(
            alloc,
            source.budget,
            1,
            "a budget is a number from 1 to 1,000,000,000",
            faults,
        )?;
    }
    if !is_within(draft.depth, DEPTH) {
        add_large(
            alloc,
            source.depth,
            1,
            "a depth is a number from 1 to 64",
            faults,
        )?;
    }
    Ok(())
}

/// Adds the faults of the sizes of a handler's tables and code.
fn add_sizes(
    alloc: Global,
    draft: &Draft,
    source: &Source,
    faults: &mut Faults,
) -> Result<(), NoMemory> {
    if draft.texts.len() > TEXTS {
        add_large(
            alloc,
            source.first,
            1,
            "a handler has at most 1,000 texts",
            faults,
        )?;
    }
    if draft.calls.len() > TEXTS {
        add_large(
            alloc,
            source.first,
            1,
            "a handler calls at most 1,000 commands",
            faults,
        )?;
    }
    if draft.code.len() > INSTRS {
        let line = source.line_at(INSTRS);
        add_large(
            alloc,
            line,
            0,
            "a handler has at most 10,000 instructions",
            faults,
        )?;
    }
    Ok(())
}

/// Adds the faults of the command of a handler.
fn add_command(
    alloc: Global,
    draft: &Draft,
    line: usize,
    seen: &mut Seen,
    faults: &mut Faults,
) -> Result<(), NoMemory> {
    if draft.command.as_str().is_empty() {
        return faults.add(Found::said(
            alloc,
            line,
            1,
            FaultKind::WrongShape,
            "a command has a name that isn't empty",
        )?);
    }
    if !is_new(alloc, seen, &draft.command)? {
        return faults.add(Found::said(
            alloc,
            line,
            1,
            FaultKind::DuplicateHandler,
            "an earlier handler has this command",
        )?);
    }
    Ok(())
}

/// What no `handlers.json` can hold of these handlers, by its lines. Error: `NoMemory`.
pub(crate) fn limit_faults(
    alloc: Global,
    drafts: &[Draft],
    sources: &[Source],
) -> Result<Faults, NoMemory> {
    let mut faults = Faults::none(alloc);
    let mut seen = HashMap::new(alloc);
    for (index, (draft, source)) in drafts.iter().zip(sources.iter()).enumerate() {
        if index == HANDLERS {
            let line = source.first;
            add_large(
                alloc,
                line,
                0,
                "a file has at most 1,000 handlers",
                &mut faults,
            )?;
        }
        add_command(alloc, draft, source.first, &mut seen, &mut faults)?;
        add_params(alloc, draft, source, &mut faults)?;
        add_limits(alloc, draft, source, &mut faults)?;
        add_sizes(alloc, draft, source, &mut faults)?;
    }
    faults.sort()?;
    Ok(faults)
}
