//! Printing over terminals that fail.

use super::fake::{Broken, FakeFiles, Left};
use std::alloc::{AllocError, Global};
use std::io;
use std::process::Abort;
use std::test::Fail;
use ubi_commands::report;
use ubi_files::Outcome;

/// Asserts with which status a report ends where standard output takes so many bytes, and what is shown where.
fn assert_reports(
    rt: &impl Abort,
    alloc: Global,
    answer: &Result<Outcome, AllocError>,
    room: usize,
    (text, error, status): (&str, &str, u8),
) {
    let left = Left::new(alloc);
    let terminal = FakeFiles::of(&[], Broken::Write(room), &left);
    let ended = report(&terminal, &mut io::writer(&terminal), answer);
    let (printed, shown) = (left.written.into_inner(), left.shown.into_inner());
    let is_shown = printed.as_slice() == text.as_bytes() && shown.as_str() == error;
    assert!(*rt; is_shown && ended == status, "in {room} bytes");
}

/// What is shown where standard output doesn't take the whole text.
const CANNOT_WRITE: &str = "error: cannot write to standard output\n";

/// A text and its status, the room that standard output has, and what is shown there and on standard error with which
/// status.
static DONE: [(&str, u8, usize, (&str, &str, u8)); 4] = [
    ("bytes 385\n", 0, 10, ("bytes 385\n", "", 0)),
    ("bytes 385\n", 0, 9, ("bytes 385", CANNOT_WRITE, 1)),
    ("bytes 385\n", 0, 0, ("", CANNOT_WRITE, 1)),
    ("", 2, 0, ("", "", 2)),
];

/// The same where memory ran out.
static OUT_OF_MEMORY: [(usize, (&str, &str, u8)); 2] = [
    (99, ("out of memory\n", "", 1)),
    (3, ("out", CANNOT_WRITE, 1)),
];

#[test]
fn ends_with_the_status_of_what_was_printed(rt: HostRuntime) -> Result<(), Fail> {
    let alloc = rt.alloc();
    for (text, status, room, want) in DONE {
        let text = Vec::from_slice(alloc, text.as_bytes())?;
        assert_reports(&rt, alloc, &Ok(Outcome::saying(text, status)), room, want);
    }
    for (room, want) in OUT_OF_MEMORY {
        assert_reports(&rt, alloc, &Err(AllocError), room, want);
    }
    Ok(())
}
