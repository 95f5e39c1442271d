//! What a command answers, and what keeps it from answering.

ghost use Rattle.std.specs.Prelude.{◌≡◌, [], Err, IfErr, MatchResult, Ok};
ghost use Rattle.ubi_files.specs.Answer.{Gives, says};
ghost use Rattle.ubi_files.specs.declared.outcome.ToolError.TheVariants.{Memory};
ghost use Rattle.ubi_files.specs.declared.outcome.SidesError.{SidesError};

use std::alloc::{AllocError, AllocFailed, Global};
use thiserror::Error;

/// The exit status of a command that did its work.
pub const DONE: u8 = 0;

/// The exit status if an image is refused, images differ, a file fails, or memory ran out.
pub const FAILED: u8 = 1;

/// The exit status if the words are wrong or ask for help, or if a geometry breaks a limit.
pub const WRONG_WORDS: u8 = 2;

/// What a command answers.
#[derive(Drop)]
pub struct Outcome {
    /// What is printed, in whole lines.
    pub text: Vec<u8>,
    /// The status that the program ends with.
    pub status: u8,
    /// The bytes of the output file, if one is to be written.
    pub file: Option<Vec<u8>>,
}

impl Outcome {
    /// Some text, and no file.
    pub fn saying(text: Vec<u8>, status: u8) -> Outcome
        ensures { Gives result (says text.items status) }
    {
        Outcome {
            text,
            status,
            file: None,
        }
    }
}

/// A fault of the machine, which keeps a command from answering.
#[derive(Clone, Copy, Debug, PartialEq, Eq, Error)]
pub enum ToolError {
    /// A read failed.
    #[error("a read failed")]
    Read,
    /// A write failed.
    #[error("a write failed")]
    Write,
    /// Memory ran out.
    #[error("out of memory")]
    Memory,
}

impl From<AllocError> for ToolError {
    ghost from_gives = { λ _ e. e ≡ Memory };

    fn from(_: AllocError) -> ToolError {
        ToolError::Memory
    }
}

impl<T: Drop> From<AllocFailed<T>> for ToolError {
    ghost from_gives = { λ _ e. e ≡ Memory };

    fn from(_: AllocFailed<T>) -> ToolError {
        ToolError::Memory
    }
}

/// A fault of the machine, which keeps two images from being compared.
#[derive(Clone, Copy, Debug, PartialEq, Eq, Error)]
pub enum SidesError {
    /// A read of the left image failed.
    #[error("a read of the left image failed")]
    Left,
    /// A read of the right image failed.
    #[error("a read of the right image failed")]
    Right,
    /// Memory ran out.
    #[error("out of memory")]
    Memory,
}

impl From<AllocError> for SidesError {
    ghost from_gives = { λ _ e. e ≡ SidesError.Memory };

    fn from(_: AllocError) -> SidesError {
        SidesError::Memory
    }
}

/// What is answered for work over bytes in memory, whose reads don't fail.
///
/// # Errors
///
/// Memory ran out.
pub fn in_memory(work: Result<Outcome, ToolError>) -> Result<Outcome, AllocError>
    requires { IfErr work (λ e. e ≡ Memory) }
    ensures { MatchResult result (λ o. work ≡ Ok o) (λ _. work ≡ Err Memory) }
{
    match work {
        Ok(outcome) => Ok(outcome),
        Err(ToolError::Memory) => Err(AllocError),
        Err(ToolError::Read | ToolError::Write) => unreachable!(),
    }
}

/// Nothing to print, for wrong words.
pub fn nothing(alloc: Global) -> Outcome
    ensures { Gives result (says [] 2) }
{
    Outcome::saying(Vec::new(alloc), WRONG_WORDS)
}
