//! Printing what a command answered.

ghost use Rattle.std.specs.Io.KnownBytes.{Appends};
ghost use Rattle.std.specs.Prelude.{◌≡◌, ℕ, ◌<◌, IfOk, OnErr, OnOk, length, map, string_bytes, take};
ghost use Rattle.std.specs.Result.{result_unwrap_or};
ghost use Rattle.ubi_commands.specs.Printed.{IsReported, any_names_output, are_of_unpack, begins_with_stream, names_output, printed_text, status_of, writes_output};

use std::alloc::AllocError;
use std::io::Write;
use std::str;
use ubi_files::{FAILED, Outcome, STREAM};
use ubi_volume::write_all;

/// An error: the text wasn't printed whole.
#[derive(Clone, Copy, Debug, PartialEq, Eq)]
struct Unprinted;

/// The option for the file that is written.
const OUT: &str = "--out";

/// The option for the file of a plan's pages.
const PAGES: &str = "--pages";

/// The options, each with the word for standard output.
const OUT_STREAM: &str = "--out=-";

const PAGES_STREAM: &str = "--pages=-";

/// The command that writes a folder.
const UNPACK: &str = "unpack";

/// What is printed if memory ran out.
const OUT_OF_MEMORY: &[u8] = b"out of memory\n";

/// What is printed for an answer, and its exit status.
fn told(answer: &Result<Outcome, AllocError>) -> (&[u8], u8)
    ensures text { result.0.now ≡ printed_text answer.now }
    ensures status { result.1 ≡ status_of answer.now }
{
    match answer {
        Ok(outcome) => (outcome.text.as_slice(), outcome.status),
        Err(AllocError) => (OUT_OF_MEMORY, FAILED),
    }
}

/// Prints what a command answered, or that memory ran out, and returns the exit status.
///
/// # Errors
///
/// A write failed: the writer received only a part of the text.
fn print<W: Write>(writer: &mut W, answer: &Result<Outcome, AllocError>) -> Result<u8, Unprinted>
    ensures status { IfOk result (λ s. s ≡ status_of answer.now) }
    ensures text { OnOk result (Appends (W.contents writer.old) (W.contents writer.new) (printed_text answer.now)) }
    ensures part { OnErr result ((n : ℕ) × (n < length (printed_text answer.now))
        × Appends (W.contents writer.old) (W.contents writer.new) (take n (printed_text answer.now))) }
{
    let (text, status) = told(answer);
    match write_all(writer, text) {
        Ok(()) => Ok(status),
        Err(_) => Err(Unprinted),
    }
}

/// The exit status. If the text wasn't printed whole, one line on standard error says so.
fn ended<R: Eprint>(rt: &R, printed: Result<u8, Unprinted>) -> u8
    ensures { result ≡ result_unwrap_or printed 1 }
{
    match printed {
        Ok(status) => status,
        Err(Unprinted) => {
            let _ = rt.eprintln("error: cannot write to standard output");
            FAILED
        }
    }
}

/// Prints what a command answered, and returns the exit status: that of the answer, or 1 if it couldn't be printed whole.
pub fn report<R: Eprint, W: Write>(
    rt: &R,
    writer: &mut W,
    answer: &Result<Outcome, AllocError>,
) -> u8
    ensures { IsReported (W.contents writer.old) (W.contents writer.new) answer.now result }
{
    ended(rt, print(writer, answer))
}

/// Prints what a command answered to standard error, where standard output is a file that it writes, and returns the exit status of the
/// answer.
pub fn report_aside<R: Eprint>(rt: &R, answer: &Result<Outcome, AllocError>) -> u8
    ensures { result ≡ status_of answer.now }
{
    let (text, status) = told(answer);
    let _ = match str::from_utf8(text) {
        Ok(lines) => rt.eprint(lines),
        // What is printed is text.
        Err(_) => rt.eprint(text.escape_ascii()),
    };
    status
}

/// Whether the first of some words is the one for standard output.
fn begins_with_stream(words: &[String]) -> bool
    ensures { result ≡ begins_with_stream (map (λ word. string_bytes word) words.now) }
{
    !words.is_empty() && words[0].as_str() == STREAM
}

/// Whether a word, with those behind it, names standard output for a file that is written.
fn names_output(word: &str, behind: &[String]) -> bool
    ensures { result ≡ names_output word.now (map (λ word. string_bytes word) behind.now) }
{
    let is_one = word == OUT_STREAM || word == PAGES_STREAM;
    is_one || ((word == OUT || word == PAGES) && begins_with_stream(behind))
}

/// Whether words, the program's name first, are of `unpack`.
fn are_of_unpack(words: &[String]) -> bool
    ensures { result ≡ are_of_unpack (map (λ word. string_bytes word) words.now) }
{
    words.len() > 1 && words[1].as_str() == UNPACK
}

/// Whether one of some words names standard output for a file that is written.
fn any_names_output(words: &[String]) -> bool
    ensures { result ≡ any_names_output (map (λ word. string_bytes word) words.now) }
{
    let mut rest = words;
    'words: while !rest.is_empty() {
        if names_output(rest[0].as_str(), &rest[1..]) {
            return true;
        }
        rest = &rest[1..];
    }
    false
}

/// Whether words, the program's name first, name standard output for a file that is written. `unpack` writes a folder.
pub fn writes_output(words: &[String]) -> bool
    ensures { result ≡ writes_output (map (λ word. string_bytes word) words.now) }
{
    !are_of_unpack(words) && any_names_output(words)
}
