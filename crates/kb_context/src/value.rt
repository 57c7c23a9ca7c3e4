//! Values of context keys.
use kb_base::{Seq, Text};

/// The value of a context key. VS Code's documentation of when clause contexts has booleans, numbers,
/// texts, lists and objects. Our decision: numbers are signed 64-bit integers, a list holds texts, and an
/// object keeps only the names of its members, since `in` tests only these.
#[derive(Debug, Drop)]
pub enum ContextValue {
    /// `true` or `false`.
    Truth(bool),
    /// An integer.
    Number(i64),
    /// A text.
    Text(Text),
    /// A list of texts, in order.
    Texts(Seq<Text>),
    /// The names of an object's members, in order.
    Names(Seq<Text>),
}
