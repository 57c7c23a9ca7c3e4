//! Faults of frames.
use thiserror::Error;

/// Why bytes of a stream are no message. The reader goes on behind them.
#[derive(Clone, Copy, Debug, PartialEq, Eq, Error)]
pub enum FrameFault {
    /// A header has no `Content-Length`.
    #[error("a header has no Content-Length")]
    NoLength,
    /// What stands behind the last `Content-Length` of a header is no number.
    #[error("the Content-Length of a header is no number")]
    WrongLength,
    /// The body has more than 16,777,216 bytes. Our decision.
    #[error("a message has more than 16777216 bytes")]
    TooLong,
    /// No blank line begins in 8,192 bytes. Our decision.
    #[error("a header has more than 8192 bytes")]
    LongHeader,
}
