//! Places in files of JSON with comments: where an entry, a member or a fault is, with its line and its
//! column.
//!
//! The bytes of a file are scanned for where values begin and end ([`items`], [`members`]). What a scan finds
//! is a guess: [`Source::place`] reads the bytes there again, and only answers a place from which the value
//! at the path is read.
#![tactic(auto)]

mod children;
mod fault_place;
mod line_table;
mod opening;
mod path;
mod position;
mod same;
mod scan;
mod source;
mod span;

pub use children::{Member, items, last_member, members};
pub use fault_place::Misread;
pub use line_table::LineTable;
pub use opening::{open, without_mark};
pub use path::{Step, value_at};
pub use position::{Position, Walker};
pub use source::Source;
pub use span::{Span, part_of};
