//! The commands over files: what the words ask for is read, done and written.

ghost use Rattle.clap.specs.Values.{kind_of};
ghost use Rattle.std.specs.Prelude.{◌≡◌, ◌↔◌, [], IfOk, IfSome, IsErr, None, OnErr, map, string_bytes};
ghost use Rattle.ubi_files.specs.Answer.{Gives, says};
ghost use Rattle.ubi_files.specs.Disk.{AllStay};
ghost use Rattle.ubi_commands.specs.Commands.{IsAllElse, IsAnswer, IsAnswerTo};

use crate::command_line::tool_command;
use crate::requests::{Request, request_of, run_request, why_unasked};
use clap::Error;
use clap::error::ErrorKind;
use std::alloc::{AllocError, Global};
use ubi_files::{Disk, Outcome, nothing};

/// Runs the command that the words name, over files. The first word is the program's name. If standard error is a
/// terminal, the progress of long work is shown there.
///
/// If the words are wrong or ask for help, the message is printed to standard error, and the answer has no text and
/// the status 2. A geometry is refused before a file is read, and an image before a file is written.
///
/// # Errors
///
/// Memory ran out; then no output file was opened.
pub fn run_words<D: Disk + Eprint>(
    disk: &mut D,
    alloc: Global,
    words: &[String],
    is_watched: bool,
) -> Result<Outcome, AllocError>
    ensures answer { IfOk result (IsAnswer (map (λ word. string_bytes word) words.now) (D.files disk.old) (D.files disk.new)) }
    ensures memory { OnErr result (AllStay (D.files disk.old) (D.files disk.new)) }
{
    let matches = match tool_command(alloc)?.try_get_matches_from(words) {
        Ok(matches) => matches,
        Err(error) => return wrong_words(disk, alloc, &error),
    };
    let reason = why_unasked(&matches);
    run_asked(disk, alloc, request_of(&matches), reason, is_watched)
}

/// Runs what the words ask for. If they ask for nothing, the reason is printed to standard error.
fn run_asked<D: Disk + Eprint>(
    disk: &mut D,
    alloc: Global,
    request: Option<Request<'_>>,
    reason: &str,
    is_watched: bool,
) -> Result<Outcome, AllocError>
    ensures none { request.entry ≡ None → IfOk result (λ o. Gives o (says [] 2) × AllStay (D.files disk.old) (D.files disk.new)) }
    ensures some { IfSome request.entry (λ r. IfOk result (λ o. IsAnswerTo (D.files disk.old) (D.files disk.new) r o × IsAllElse r (D.files disk.old) (D.files disk.new))) }
    ensures memory { OnErr result (AllStay (D.files disk.old) (D.files disk.new)) }
{
    match request {
        Some(request) => run_request(disk, alloc, request, is_watched),
        None => {
            let _ = disk.eprint(reason);
            Ok(nothing(alloc))
        }
    }
}

/// Prints to standard error what is wrong with the words.
///
/// # Errors
///
/// Memory ran out while they were read; there is no other error.
fn wrong_words<R: Eprint>(rt: &R, alloc: Global, error: &Error) -> Result<Outcome, AllocError>
    ensures answer { IfOk result (λ o. Gives o (says [] 2)) }
    ensures memory { kind_of error.now ≡ ErrorKind.OutOfMemory ↔ IsErr result }
{
    if error.kind() == ErrorKind::OutOfMemory {
        return Err(AllocError);
    }
    let _ = rt.eprint(error);
    Ok(nothing(alloc))
}
