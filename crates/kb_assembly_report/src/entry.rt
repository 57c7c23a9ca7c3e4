//! A handler with all that a `handlers.json` says of it.
use kb_assembly::Draft;
use kb_base::Seq;

/// A handler with its budget and its depth, and the number of the line of each of its instructions, from 1.
#[derive(Drop)]
pub struct Entry<'d> {
    pub draft: &'d Draft,
    pub budget: u32,
    pub depth: u32,
    pub lines: Seq<usize>,
}
