//! Answers, put into the caller's memory.

ghost use Rattle.std.specs.Prelude.{◌≡◌, IfOk, length};
ghost use Rattle.ubi_calls.specs.Calls.{put_into};
ghost use Rattle.ubi_calls.specs.inner.Handing.{HandsOver, Leaves};
ghost use Rattle.ubi_files.specs.Answer.{Gives, says};
ghost use Rattle.ubi_files.specs.Lines.{geometry_line};

use std::alloc::{AllocError, Global};
use ubi_files::{Outcome, WRONG_WORDS, geometry_line};
use ubi_media::GeometryError;

/// The status of a call for which memory ran out.
pub const NO_MEMORY: u32 = 3;

/// Puts as many bytes of a text into a buffer as it has room for.
fn put(text: &[u8], out: &mut [u8])
    ensures { out.new ≡ put_into text.now out.old }
{
    let count = text.len().min(out.len());
    out[..count].copy_from_slice(&text[..count]);
}

/// What is answered if numbers break a limit.
///
/// # Errors
///
/// Memory ran out.
pub fn limit_outcome(alloc: Global, limit: GeometryError) -> Result<Outcome, AllocError>
    ensures { IfOk result (λ o. Gives o (says (geometry_line limit) 2)) }
{
    Ok(Outcome::saying(geometry_line(alloc, limit)?, WRONG_WORDS))
}

/// Puts bytes into a buffer, and says how many there are.
pub fn put_all(bytes: &[u8], out: &mut [u8], len: &mut usize)
    ensures bytes { out.new ≡ put_into bytes.now out.old }
    ensures len { len.new ≡ length bytes.now }
{
    put(bytes, out);
    *len = bytes.len();
}

/// Puts bytes into a buffer, and says how many there are; returns the status.
pub fn hand(bytes: &[u8], status: u8, out: &mut [u8], len: &mut usize) -> u32
    ensures { Leaves bytes.now status out.old out.new len.new result }
{
    put_all(bytes, out, len);
    u32::from(status)
}

/// Hands over what a command prints; returns the status.
pub fn hand_outcome(answer: Result<Outcome, AllocError>, out: &mut [u8], len: &mut usize) -> u32
    ensures { HandsOver answer out.old out.new len.new result }
{
    match answer {
        Ok(outcome) => hand(outcome.text.as_slice(), outcome.status, out, len),
        Err(_) => {
            *len = 0;
            NO_MEMORY
        }
    }
}
