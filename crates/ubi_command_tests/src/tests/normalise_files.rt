//! The command `normalise` over sources and writers that fail, and over files that are linked or cut short.

use super::answers::assert_line;
use super::contents::Contents;
use std::alloc::Global;
use std::fs;
use std::io::ErrorKind;
use std::os::unix::fs::symlink;
use std::test::Fail;
use ubi_compose::normalise_to;
use ubi_files::ToolError;
use ubi_probe::pebs::small;
use ubi_probe::{Failure, ProbeSource, ProbeWriter};
use ubi_scan::{BlockSource, FileSource, MemorySource, StreamError};
use ubi_writing::run_normalise;

/// The reads of the image of `root`, counted from 1, each with its eraseblock and the number of bytes that are written
/// before it.
static READS: [(u64, u32, usize); 9] = [
    // The headers.
    (1, 0, 0),
    (2, 1, 0),
    (3, 2, 0),
    (4, 3, 0),
    (5, 4, 0),
    // The first copy of the table.
    (6, 0, 0),
    // The data of the three logical eraseblocks, each of which is written before the next is read.
    (7, 2, 1024),
    (8, 3, 1536),
    (9, 4, 2048),
];

/// Whether work over a source is answered and written so.
fn is_run<S: BlockSource>(
    alloc: Global,
    source: &mut S,
    want: Result<&[u8], ToolError>,
    written: &[u8],
) -> Result<bool, Fail> {
    let mut writer = ProbeWriter::new(alloc, 4096, 4096, Failure::Nothing)?;
    let is_answer = match (run_normalise(alloc, &small()?, source, &mut writer), want) {
        (Ok(outcome), Ok(line)) => outcome.text.as_slice() == line,
        (Err(error), Err(other)) => error == other,
        _ => false,
    };
    Ok(is_answer && writer.taken() == written)
}

/// Whether a read that fails is reported with its eraseblock and the bytes that were written, and these are the first ones.
fn is_told(alloc: Global, image: &[u8], at: u64, p: u32, written: &[u8]) -> Result<bool, Fail> {
    let geometry = small()?;
    let mut source = ProbeSource::new(alloc, &geometry, image, at)?;
    let mut writer = ProbeWriter::new(alloc, 4096, 4096, Failure::Nothing)?;
    let answer = normalise_to(alloc, &geometry, &mut source, &mut writer);
    let count = written.len() as u64;
    Ok(answer == Err(StreamError::Read(p, count)) && writer.taken() == written)
}

#[test]
fn tells_of_a_read_that_fails(rt: HostRuntime) -> Result<(), Fail> {
    let alloc = rt.alloc();
    let (image, want) = (
        Contents::Root.bytes(alloc)?,
        Contents::NormalRoot.bytes(alloc)?,
    );
    for (at, p, count) in READS {
        let written = want.as_slice().get(..count).ok_or("short")?;
        let mut source = ProbeSource::new(alloc, &small()?, image.as_slice(), at)?;
        let is = is_run(alloc, &mut source, Err(ToolError::Read), written)?;
        assert!(rt;
            is && is_told(alloc, image.as_slice(), at, p, written)?,
            "read {at}"
        );
    }
    let mut source = ProbeSource::new(alloc, &small()?, image.as_slice(), 10)?;
    assert!(rt; is_run(alloc, &mut source, Ok(b"blocks 5\n"), want.as_slice())?);
    Ok(())
}

/// Whether a writer that takes so many bytes at once and fails once it has so many is reported with their number, and
/// has the first ones; or all, if it has room for them.
fn is_cut(
    alloc: Global,
    (image, want): (&[u8], &[u8]),
    room: usize,
    (failure, most): (Failure, usize),
) -> Result<bool, Fail> {
    let (mut source, mut again) = (MemorySource::new(image), MemorySource::new(image));
    let mut writer = ProbeWriter::new(alloc, room, most, failure)?;
    let mut other = ProbeWriter::new(alloc, room, most, failure)?;
    let answer = normalise_to(alloc, &small()?, &mut source, &mut writer);
    let run = run_normalise(alloc, &small()?, &mut again, &mut other);
    let is_told = if room < want.len() {
        answer == Err(StreamError::Write(room as u64)) && run.err() == Some(ToolError::Write)
    } else {
        answer == Ok(room as u64) && run.is_ok()
    };
    let is_same = writer.taken() == other.taken();
    Ok(is_told && is_same && want.get(..room) == Some(writer.taken()))
}

/// How many bytes a writer takes, at least and at most, how it then fails, and how many it takes at once.
type Cut = (usize, usize, Failure, usize);

/// An image, its normal image, and how writers of that fail.
static CUTS: [(Contents, Contents, &[Cut]); 2] = [
    (
        Contents::Root,
        Contents::NormalRoot,
        &[
            (0, 0, Failure::Nothing, 100),
            (1, 1, Failure::Error(ErrorKind::Interrupted), 100),
            (512, 512, Failure::Nothing, 100),
            (1600, 1600, Failure::Error(ErrorKind::Interrupted), 100),
            (2559, 2559, Failure::Error(ErrorKind::Other), 100),
        ],
    ),
    (
        Contents::Blank,
        Contents::NormalNothing,
        &[
            (0, 1023, Failure::Nothing, 100),
            (1024, 1024, Failure::Nothing, 1),
        ],
    ),
];

#[test]
fn tells_of_a_write_that_fails(rt: HostRuntime) -> Result<(), Fail> {
    let alloc = rt.alloc();
    for (image, want, cuts) in &CUTS {
        let (image, want) = (image.bytes(alloc)?, want.bytes(alloc)?);
        for (least, most, failure, at_once) in *cuts {
            for room in *least..most.saturating_add(1) {
                let over = (image.as_slice(), want.as_slice());
                let is = is_cut(alloc, over, room, (*failure, *at_once))?;
                assert!(rt; is, "after {room} bytes");
            }
        }
    }
    Ok(())
}

#[test]
fn tells_of_a_file_that_is_cut_short(rt: HostRuntime) -> Result<(), Fail> {
    let alloc = rt.alloc();
    let (image, want) = (
        Contents::Root.bytes(alloc)?,
        Contents::NormalRoot.bytes(alloc)?,
    );
    fs::write(&rt, "cut.img", image.as_slice())?;
    let mut source = FileSource::open(&rt, "cut.img")?;
    assert!(rt; is_run(alloc, &mut source, Ok(b"blocks 5\n"), want.as_slice())?);
    fs::write(&rt, "cut.img", [0xFF; 1024].as_slice())?;
    assert!(rt; is_run(alloc, &mut source, Err(ToolError::Read), &[])?);
    fs::remove_file(&rt, "cut.img")?;
    Ok(())
}

/// Outputs that are the image itself, by its path, by another one and by links; and the path that then holds the normal image. The other
/// name of a file that has two keeps what it held.
static ONTO: [(&str, &str, &str); 4] = [
    ("onto_itself.img", "onto_itself.img", "linked.img"),
    ("./onto_itself.img", "onto_itself.img", "linked.img"),
    ("linked.img", "linked.img", "onto_itself.img"),
    ("pointing.img", "onto_itself.img", "linked.img"),
];

#[test]
fn normalises_a_file_onto_itself(rt: HostRuntime) -> Result<(), Fail> {
    let image = Contents::Root.bytes(rt.alloc())?;
    let want = Contents::NormalRoot.bytes(rt.alloc())?;
    for (out, new, old) in ONTO {
        fs::write(&rt, "onto_itself.img", image.as_slice())?;
        fs::hard_link(&rt, "onto_itself.img", "linked.img")?;
        symlink(&rt, "onto_itself.img", "pointing.img")?;
        let line = format!(in rt.alloc(); "normalise onto_itself.img --out {out}")?;
        assert_line(&rt, rt.alloc(), line.as_str(), ("blocks 5\n", 0))?;
        let is = fs::read(&rt, new)? == want && fs::read(&rt, old)? == image;
        assert!(rt; is, "to {out}");
        for path in ["onto_itself.img", "linked.img", "pointing.img"] {
            fs::remove_file(&rt, path)?;
        }
    }
    Ok(())
}
