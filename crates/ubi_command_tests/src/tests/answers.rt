//! What commands answer, over bytes and over files, compared with what they are to answer.

use super::fake::{Broken, FakeFiles, Left};
use super::opened::opens_right;
use std::alloc::{AllocError, Global};
use std::fs::Files;
use std::os::unix::fs::FileExt;
use std::process::Abort;
use std::test::Fail;
use ubi_commands::run_words;
use ubi_files::{Disk, Host, Outcome};

/// Whether a command answered a text and an exit status.
pub fn is_answer(outcome: &Outcome, (text, status): (&str, u8)) -> bool {
    outcome.text.as_slice() == text.as_bytes() && outcome.status == status
}

/// Runs the words of a line over a disk, with the program's name before them. Somebody may watch.
pub fn run_on<D: Disk + Eprint>(
    disk: &mut D,
    alloc: Global,
    line: &str,
    is_watched: bool,
) -> Result<Outcome, AllocError> {
    let mut words = Vec::new(alloc);
    words.push(String::from_str(alloc, "ubi_tool")?)?;
    for word in line.split_whitespace() {
        words.push(String::from_str(alloc, word)?)?;
    }
    run_words(disk, alloc, words.as_slice(), is_watched)
}

/// Runs the words of a line over files, with the program's name before them.
pub fn run_line<R: Files + Eprint>(
    files: &R,
    alloc: Global,
    line: &str,
) -> Result<Outcome, AllocError>
where
    R::File: FileExt,
{
    run_on(&mut Host::new(files), alloc, line, false)
}

/// Asserts what the words of a line answer over files. Where they name no geometry, it is that of small eraseblocks.
pub fn assert_line<R: Files + Eprint + Abort>(
    rt: &R,
    alloc: Global,
    line: &str,
    answer: (&str, u8),
) -> Result<(), Fail>
where
    R::File: FileExt,
{
    let outcome = run_line(rt, alloc, with_sizes(alloc, line, SMALL_SIZES)?.as_str())?;
    assert!(*rt; is_answer(&outcome, answer), "of {line}");
    Ok(())
}

/// The words of the geometry of small eraseblocks.
pub const SMALL_SIZES: &str = "--peb 512 --page 64 --pebs 32";

/// The words of a line, and those of a geometry, where they name none and the command takes one.
pub fn with_sizes(alloc: Global, line: &str, sizes: &str) -> Result<String, AllocError> {
    if line.contains("--peb ") || line.starts_with("geometry ") {
        return String::from_str(alloc, line);
    }
    format!(in alloc; "{line} {sizes}")
}

/// What a line answers, as [`assert_line`] runs it, over files that fail as they are told to, and of which each but
/// `new.bin` holds an image; and the bytes that are written.
pub fn run_over(
    alloc: Global,
    files: (&[u8], &[u8]),
    broken: Broken,
    line: &str,
) -> Result<(Outcome, Vec<u8>), Fail> {
    run_own(
        alloc,
        files,
        broken,
        with_sizes(alloc, line, SMALL_SIZES)?.as_str(),
    )
}

/// The same of a line as it is: where it names no geometry, that is found.
pub fn run_own(
    alloc: Global,
    (image, new): (&[u8], &[u8]),
    broken: Broken,
    line: &str,
) -> Result<(Outcome, Vec<u8>), Fail> {
    let left = Left::new(alloc);
    let files = FakeFiles {
        image,
        new,
        broken,
        left: &left,
    };
    let outcome = run_line(&files, alloc, line)?;
    let (written, opened) = (left.written.into_inner(), left.opened.into_inner());
    if opens_right(line, &outcome, written.is_empty(), opened.as_str()) {
        Ok((outcome, written))
    } else {
        Err("opens other files".into())
    }
}

/// Whether two runs answered and wrote the same.
pub fn are_one(answer: &(Outcome, Vec<u8>), other: &(Outcome, Vec<u8>)) -> bool {
    answer.0.text == other.0.text && answer.0.status == other.0.status && answer.1 == other.1
}

/// Asserts what a line of small eraseblocks answers and writes.
pub fn assert_over(
    rt: &impl Abort,
    alloc: Global,
    files: (&[u8], &[u8]),
    broken: Broken,
    line: &str,
    answer: (&str, u8),
    output: &[u8],
) -> Result<(), Fail> {
    let (outcome, written) = run_over(alloc, files, broken, line)?;
    let is = is_answer(&outcome, answer) && written.as_slice() == output;
    assert!(*rt; is, "of {line}, {broken:?}");
    Ok(())
}
