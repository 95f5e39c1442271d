//! Many eraseblocks that are listed as bad; and the files of plans: which ones are opened, and what is told of writes that fail.

use super::answers::{are_one, assert_over, is_answer, run_over};
use super::contents::Contents;
use super::fake::Broken;
use std::alloc::Global;
use std::test::Fail;
use ubi_probe::pebs::TORN;

/// Five torn eraseblocks.
const FIVE_TORN: Contents = Contents::Pebs(&[TORN; 5], &[]);

/// A list of as many numbers, from 0 on.
fn long_list(alloc: Global, count: u32) -> Result<String, Fail> {
    let mut list = String::from_str(alloc, "0")?;
    for number in 1..count {
        list.push_str(format!(in alloc; ",{number}")?.as_str())?;
    }
    Ok(list)
}

#[test]
fn takes_a_hundred_thousand_numbers(rt: HostRuntime) -> Result<(), Fail> {
    let alloc = rt.alloc();
    let image = FIVE_TORN.bytes(alloc)?;
    let list = long_list(alloc, 100_000)?;
    let line = format!(in alloc; "check a.img --bad {list}")?;
    let answer = (
        "blocks 5\nblank 5\nfree 0\ntable 0\nused 0\nstale 0\norphan 0\ndropped 0\ncorrupt 0\ngarbage 0\n\
            top sqnum 0\nimage seq 0\nmean counter 0\naccepted\n",
        0,
    );
    let files: (&[u8], &[u8]) = (image.as_slice(), &[]);
    assert_over(
        &rt,
        alloc,
        files,
        Broken::Nothing,
        line.as_str(),
        answer,
        &[],
    )
}

/// The words of a change of logical eraseblock 1.
const CHANGE: &str = "change a.img --id 0 --lnum 1 --from new.bin";

/// Paths of the files of a plan, what is answered, and how many bytes are written. An output that may be a file that was read,
/// or written, isn't opened.
static ONE_FILE: [(&str, &str, usize); 7] = [
    ("--out new.bin", "cannot write new.bin\n", 0),
    ("--out new.bin --pages b", "cannot write new.bin\n", 0),
    ("--out b.img --pages b.img", "cannot write b.img\n", 3584),
    ("--out b.img --pages a.img", "cannot write a.img\n", 3584),
    (
        "--out b.img --pages new.bin",
        "cannot write new.bin\n",
        3584,
    ),
    (
        "--out b.img --pages untold.img",
        "cannot write untold.img\n",
        3584,
    ),
    ("--out untold.img", "cannot write untold.img\n", 0),
];

#[test]
fn writes_no_file_that_was_read(rt: HostRuntime) -> Result<(), Fail> {
    let alloc = rt.alloc();
    let image = Contents::Spares.bytes(alloc)?;
    let files: (&[u8], &[u8]) = (image.as_slice(), &[0x61; 64]);
    for (paths, text, count) in &ONE_FILE {
        let line = format!(in alloc;
            "change a.img --id 0 --lnum 1 --from new.bin {paths} --stop 0"
        )?;
        let (outcome, written) = run_over(alloc, files, Broken::Nothing, line.as_str())?;
        let is = is_answer(&outcome, (text, 1)) && written.len() == *count;
        assert!(rt; is, "of {line}");
    }
    Ok(())
}

/// Writes that fail once so many bytes are written: of the image, of its last byte, and of the pages.
static FULL: [(usize, &str); 5] = [
    (0, "cannot write b.img\n"),
    (3583, "cannot write b.img\n"),
    (3584, "cannot write b\n"),
    (3584 + 100, "cannot write b\n"),
    (3584 + 191, "cannot write b\n"),
];

#[test]
fn tells_of_pages_that_cannot_be_written(rt: HostRuntime) -> Result<(), Fail> {
    let alloc = rt.alloc();
    let image = Contents::Spares.bytes(alloc)?;
    let files: (&[u8], &[u8]) = (image.as_slice(), &[0x61; 64]);
    let line = format!(in alloc; "{CHANGE} --out b.img --pages b")?;
    let whole = run_over(alloc, files, Broken::Nothing, line.as_str())?;
    let in_parts = run_over(alloc, files, Broken::Short(7), line.as_str())?;
    assert!(rt; are_one(&whole, &in_parts) && whole.1.len() == 3584 + 192);
    for (room, text) in FULL {
        let (outcome, written) = run_over(alloc, files, Broken::Write(room), line.as_str())?;
        let is = is_answer(&outcome, (text, 1)) && written.len() == room;
        assert!(rt; is, "with room for {room} bytes");
    }
    Ok(())
}
