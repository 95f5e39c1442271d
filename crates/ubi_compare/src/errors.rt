//! Why two images aren't compared.

ghost use Rattle.std.specs.Prelude.{◌≡◌, Some};
ghost use Rattle.ubi_compare.specs.ErrorTexts.{compare_error_text, compare_fault_text};
ghost use Rattle.ubi_compare.specs.declared.errors.CompareFault.{CompareFault};

use std::alloc::AllocError;
use std::error::Error;
use std::fmt;
use ubi_media::Refusal;
use ubi_scan::StreamError;

/// Why two images aren't compared.
#[derive(Clone, Copy, Debug, PartialEq, Eq)]
pub enum CompareError {
    /// The first is refused, for this cause.
    Left(Refusal),
    /// Only the second is refused, for this cause.
    Right(Refusal),
    /// Memory ran out.
    Memory,
}

impl fmt::Display for CompareError {
    ghost output = { λ error. Some (compare_error_text error) };

    fn fmt<W: fmt::Write>(&self, f: &mut fmt::Formatter<W>) -> fmt::Result {
        match self {
            CompareError::Left(cause) => write!(f, "left {cause}"),
            CompareError::Right(cause) => write!(f, "right {cause}"),
            CompareError::Memory => f.write_str("out of memory"),
        }
    }
}

impl Error for CompareError {}

/// Why two sources aren't compared.
#[derive(Clone, Copy, Debug, PartialEq, Eq)]
pub enum CompareFault {
    /// The first is refused, a read of it failed, or memory ran out while it was surveyed.
    Left(StreamError),
    /// Only the second is refused, a read of it failed, or memory ran out while it was surveyed.
    Right(StreamError),
    /// Memory ran out after both were surveyed.
    Memory,
}

impl fmt::Display for CompareFault {
    ghost output = { λ fault. Some (compare_fault_text fault) };

    fn fmt<W: fmt::Write>(&self, f: &mut fmt::Formatter<W>) -> fmt::Result {
        match self {
            CompareFault::Left(error) => write!(f, "left {error}"),
            CompareFault::Right(error) => write!(f, "right {error}"),
            CompareFault::Memory => f.write_str("out of memory"),
        }
    }
}

impl Error for CompareFault {}

impl From<AllocError> for CompareFault {
    ghost from_gives = { λ _ e. e ≡ CompareFault.Memory };

    fn from(_: AllocError) -> CompareFault {
        CompareFault::Memory
    }
}
