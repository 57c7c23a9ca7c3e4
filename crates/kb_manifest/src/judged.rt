//! The result of reading one entry of a manifest.
use kb_base::{FaultKind, Seq, UnreadPattern};

/// What is kept of an entry, the fault of its warning, and the unread patterns of its clause. A dropped
/// entry has a fault and no patterns.
#[derive(Drop)]
pub(crate) struct Judged<T> {
    pub(crate) kept: Option<T>,
    pub(crate) fault: Option<FaultKind>,
    pub(crate) unread: Seq<UnreadPattern>,
}
