//! Why a decoder that was kept as numbers is refused.

use thiserror::Error;

/// Why [`StreamDecoder::resume`](crate::StreamDecoder::resume) refuses.
#[derive(Clone, Copy, Debug, PartialEq, Eq, Error)]
pub enum ResumeError {
    /// The gaps of a stream each have a place, end by place 2^36, and begin at or after the end of the one
    /// before.
    #[error("gaps that are empty, out of order or past 2^36 bits")]
    BadGaps,
    /// No decoder by these rules knows this of a stream.
    #[error("a state that no decoder of a stream has")]
    UnlawfulState,
    /// The system refused memory.
    #[error("out of memory")]
    OutOfMemory,
}
