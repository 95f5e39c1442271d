//! Why a call over a source fails.

ghost use Rattle.std.specs.Prelude.{Some, ◌≡◌};
ghost use Rattle.ubi_scan.specs.ErrorTexts.{stream_error_text};
ghost use Rattle.ubi_scan.specs.declared.errors.StreamError.{StreamError};

use std::alloc::AllocError;
use std::error::Error;
use std::fmt;
use ubi_media::Refusal;

/// Why a call over a source fails. A count is how many bytes the call wrote before, 0 if it has no writer.
#[derive(Clone, Copy, Debug, PartialEq, Eq)]
pub enum StreamError {
    /// The image is refused.
    Refused(Refusal),
    /// A read failed: the eraseblock, and the count.
    Read(u32, u64),
    /// A write failed: the count.
    Write(u64),
    /// Memory ran out.
    Memory,
}

impl fmt::Display for StreamError {
    ghost output = { λ error. Some (stream_error_text error) };

    fn fmt<W: fmt::Write>(&self, f: &mut fmt::Formatter<W>) -> fmt::Result {
        match self {
            StreamError::Refused(cause) => write!(f, "{cause}"),
            StreamError::Read(p, written) => write!(f, "a read failed block={p} written={written}"),
            StreamError::Write(written) => write!(f, "a write failed written={written}"),
            StreamError::Memory => f.write_str("out of memory"),
        }
    }
}

impl Error for StreamError {}

impl From<AllocError> for StreamError {
    ghost from_gives = { λ _ e. e ≡ StreamError.Memory };

    fn from(_: AllocError) -> StreamError {
        StreamError::Memory
    }
}

impl From<Refusal> for StreamError {
    ghost from_gives = { λ r e. e ≡ StreamError.Refused r };

    fn from(refusal: Refusal) -> StreamError {
        StreamError::Refused(refusal)
    }
}
