//! When clauses: conditions on context keys, parsed from texts into trees and evaluated in scopes.
#![tactic(auto)]

mod atom;
mod characters;
pub mod clause;
pub mod fault;
mod flat;
mod jump;
pub mod leaf;
mod number;
pub mod operator;
mod parser;
mod piece;
mod probe;
pub mod shared;
mod token;
mod tokenizer;
pub mod tree;
pub mod unread;
mod value;
mod words;

pub use clause::Clause;
pub use fault::WhenFault;
pub use leaf::Leaf;
pub use operator::Operator;
pub use shared::SharedClause;
pub use tree::Tree;
