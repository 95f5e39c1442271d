//! What is shown of long work.

use super::answers::run_on;
use super::fake::{Broken, FakeFiles, Left};
use std::alloc::Global;
use std::fmt::Display;
use std::io;
use std::io::Write;
use std::test::Fail;
use ubi_files::{Host, ProgressWriter};

/// A writer that takes all bytes and keeps none, beside a terminal.
#[derive(Drop)]
struct Sink<'a, E> {
    terminal: &'a E,
}

impl<E> Write for Sink<'_, E> {
    ghost use Rattle.std.specs.Prelude.{None};

    ghost contents = { λ _. None };

    fn write(&mut self, buf: &[u8]) -> io::Result<usize> {
        Ok(buf.len())
    }

    fn flush(&mut self) -> io::Result<()> {
        Ok(())
    }
}

impl<E: Eprint> Eprint for Sink<'_, E> {
    fn eprint<D: Display + Drop>(&self, value: D) -> io::Result<()> {
        self.terminal.eprint(value)
    }

    fn eprintln<D: Display + Drop>(&self, value: D) -> io::Result<()> {
        self.terminal.eprintln(value)
    }
}

/// What is shown of work on so many bytes, of which 100 are written and then parts of a size, so many times.
fn told(
    alloc: Global,
    (most, is_watched): (u64, bool),
    (size, times): (usize, usize),
) -> Result<String, Fail> {
    let left = Left::new(alloc);
    let files = FakeFiles::of(&[], Broken::Nothing, &left);
    let part = vec![in alloc; 0xFFu8; size]?;
    let mut writer = ProgressWriter::new(Sink { terminal: &files }, most, is_watched);
    writer.write_all(&[0xFF; 100])?;
    for _ in 0..times {
        writer.write_all(part.as_slice())?;
    }
    writer.clear();
    Ok(left.shown.into_inner())
}

/// How long the work may be, whether progress is shown, the parts, and what is shown of it in the end. A hundredth of 256 MiB
/// is 2,684,354 bytes; of 8 GiB it is 85,899,345: 4200 MiB are 51 of them.
static TOLD: [((u64, bool), (usize, usize), &str); 4] = [
    (
        (1 << 28, true),
        (2_684_355, 2),
        "\r1 % of the image\r2 % of the image\r\x1b[K",
    ),
    (((1 << 28) - 1, true), (2_684_355, 2), ""),
    ((1 << 30, false), (2_684_355, 2), ""),
    (
        (1 << 33, true),
        (1 << 20, 4200),
        "\r51 % of the image\r\x1b[K",
    ),
];

#[test]
fn tells_each_hundredth_of_long_work_and_takes_it_away(rt: HostRuntime) -> Result<(), Fail> {
    for (work, parts, text) in &TOLD {
        let told = told(rt.alloc(), *work, *parts)?;
        let is_whole = told.as_str() == *text || text.starts_with("\r51 ");
        assert!(rt; is_whole && told.as_str().ends_with(*text), "{told}");
    }
    Ok(())
}

/// The two eraseblocks of the normal image are 4 of 256 MiB, and are written by 1 MiB at a time.
#[test]
fn tells_of_a_long_image(rt: HostRuntime) -> Result<(), Fail> {
    let left = Left::new(rt.alloc());
    let files = FakeFiles::of(&[0xFF], Broken::Blank(1 << 28), &left);
    let line = "normalise a --out b --peb=2097152 --page=64";
    let outcome = run_on(&mut Host::new(&files), rt.alloc(), line, true)?;
    assert_eq!(rt; outcome.text.as_slice(), b"blocks 2\n".as_slice());
    let shown = left.shown.into_inner();
    assert!(rt; shown.as_str() == "\r1 % of the image\r\x1b[K", "{shown}");
    Ok(())
}
