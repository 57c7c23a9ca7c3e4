//! Random tests of the verifier and the machine. Handlers are generated from a seed, verified under several
//! budgets, and started where they are accepted. The same seed always generates the same handlers.
#![tactic(auto)]

mod blocks;
mod choices;
mod counts;
mod finding;
mod handler_files;
mod live;
mod names;
mod paths;
mod phrases;
mod plan;
mod random;
mod starts;
mod steps;
mod trial;
mod trials;
mod verdict;

use kb_base::NoMemory;
use std::alloc::Global;
use std::str;

/// The output of a case of kind `random` or `random 2`, whose input is a seed and a number of files: the
/// counts, or the first thing that is wrong. Code of version 2 has blocks.
pub fn run_case(alloc: Global, kind: &str, input: &[u8]) -> Result<String, NoMemory> {
    let version = if kind == "random 2" { 2 } else { 1 };
    let text = str::from_utf8(input).unwrap_or("");
    let (seed, files) = text.split_once(' ').unwrap_or((text, ""));
    let seed = seed.parse::<u64>().unwrap_or(0);
    let files = files.parse::<u32>().unwrap_or(0);
    trials::try_seed(alloc, version, seed, files)
}
