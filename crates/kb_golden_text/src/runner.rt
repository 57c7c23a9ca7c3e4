//! Runs the cases of one golden file and writes the file again with their actual outputs.
//!
//! Blank lines separate blocks. The first line of a block is its heading, `KIND: SUBJECT`. In most kinds
//! each further line is a case, `INPUT => OUTPUT`; a `BlockRunner` may know kinds whose blocks have another
//! form. A line that begins with `#` is a comment, as is a block that begins with one.
use crate::escapes::{escape, unescape};
use std::alloc::{AllocError, Global};

/// Runs the blocks of one golden file, in order.
pub trait BlockRunner {
    /// A runner that has run no block yet.
    fn new() -> Self;

    /// Runs a block of this kind, and appends its lines with the actual outputs to `actual`.
    fn run_block(
        &mut self,
        alloc: Global,
        kind: &str,
        lines: &str,
        actual: &mut String,
    ) -> Result<(), AllocError>;
}

/// Runs cases of one line each.
pub trait CaseRunner {
    /// The actual output for the input of a case in a block of this kind.
    fn run_case(&mut self, alloc: Global, kind: &str, input: &[u8]) -> Result<String, AllocError>;
}

fn run_line<A: CaseRunner>(
    alloc: Global,
    runner: &mut A,
    kind: &str,
    line: &str,
    actual: &mut String,
) -> Result<(), AllocError> {
    let (input, _) = line.rsplit_once(" => ").unwrap_or((line, ""));
    let bytes = unescape(alloc, &[], input)?;
    let output = runner.run_case(alloc, kind, bytes.as_slice())?;
    let output = escape(alloc, output.as_str())?;
    let output = output.as_str();
    write!(actual, "{input} => {output}\n")
}

/// Runs a block of cases of one line each, and appends its lines with the actual outputs to `actual`.
pub fn run_cases<A: CaseRunner>(
    alloc: Global,
    runner: &mut A,
    kind: &str,
    lines: &str,
    actual: &mut String,
) -> Result<(), AllocError> {
    for line in lines.lines() {
        if line.starts_with('#') {
            write!(actual, "{line}\n")?;
        } else {
            run_line(alloc, runner, kind, line, actual)?;
        }
    }
    Ok(())
}

fn run_one_block<T: BlockRunner>(
    alloc: Global,
    runner: &mut T,
    block: &str,
    actual: &mut String,
) -> Result<(), AllocError> {
    let (heading, lines) = block.split_once('\n').unwrap_or((block, ""));
    let (kind, _) = heading.split_once(':').unwrap_or((heading, ""));
    write!(actual, "{heading}\n")?;
    runner.run_block(alloc, kind, lines, actual)
}

fn run_blocks<T: BlockRunner>(
    alloc: Global,
    runner: &mut T,
    file: &str,
    actual: &mut String,
) -> Result<(), AllocError> {
    for block in file.split("\n\n") {
        if !actual.is_empty() {
            actual.push('\n')?;
        }
        run_one_block(alloc, runner, block, actual)?;
    }
    Ok(())
}

/// The text of a golden file with the actual outputs in place of the expected ones.
pub fn actual_file<T: BlockRunner + Drop>(alloc: Global, file: &str) -> Result<String, AllocError> {
    let mut actual = String::new(alloc);
    run_blocks(alloc, &mut T::new(), file, &mut actual)?;
    Ok(actual)
}
