//! The command `ubi_tool`: it reads its words and files, runs one command and prints the answer.
//!
//! This crate only reaches the terminal. The command itself is `ubi_commands::run_words`, over files.
#![tactic(auto)]

ghost use Rattle.std.specs.IoError.{error_kind};
ghost use Rattle.std.specs.Prelude.{◌≡◌, ◌≢◌, Err, alloc_error};
ghost use Rattle.ubi_commands.specs.Printed.{IsReported};

mod input;

use self::input::put_input;
use std::alloc::AllocError;
use std::io::{ErrorKind, IsTerminal, Write};
use std::process::ExitCode;
use std::rt::Env;
use std::{env, io};
use ubi_commands::{report, report_aside, run_words, writes_output};
use ubi_files::{Host, WRONG_WORDS};

fn main(rt: HostRuntime) -> ExitCode {
    let mut output = io::writer(&rt);
    let status = match words_of(&rt) {
        Ok(words) => {
            let is_watched = rt.stderr().is_terminal();
            let mut disk = Host::new(&rt);
            let answer = run_words(&mut disk, rt.alloc(), words.as_slice(), is_watched);
            if writes_output(words.as_slice()) {
                report_aside(&rt, &answer)
            } else {
                report(&rt, &mut output, &answer)
            }
        }
        Err(error) => unread_words(&rt, &mut output, &error),
    };
    ExitCode::from(status)
}

/// The words that the program was called with, its own name first, with the path of standard input in place of `-`.
fn words_of<R: Env + AllocGlobal>(rt: &R) -> io::Result<Vec<String>> {
    let mut words = Vec::new(rt.alloc());
    for word in env::args(rt)? {
        words.push(word)?;
    }
    put_input(rt.alloc(), words.as_mut_slice())?;
    Ok(words)
}

/// The exit status if the words can't be read: memory ran out, which is printed, or they aren't text.
fn unread_words<R: Eprint, W: Write>(rt: &R, writer: &mut W, error: &io::Error) -> u8
    ensures memory { error_kind error.now ≡ ErrorKind.OutOfMemory → result ≡ 1 }
    ensures told { error_kind error.now ≡ ErrorKind.OutOfMemory → IsReported (W.contents writer.old) (W.contents writer.new) (Err alloc_error) result }
    ensures words { error_kind error.now ≢ ErrorKind.OutOfMemory → result ≡ 2 }
{
    if error.kind() == ErrorKind::OutOfMemory {
        return report(rt, writer, &Err(AllocError));
    }
    let _ = rt.eprintln("error: the words aren't text");
    WRONG_WORDS
}
