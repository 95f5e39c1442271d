//! The command `extract` into writers that fail.

use super::contents::Contents;
use std::alloc::Global;
use std::io::ErrorKind;
use std::test::Fail;
use ubi_files::ToolError;
use ubi_probe::pebs::small;
use ubi_probe::{Failure, ProbeWriter};
use ubi_writing::{VolumeKey, run_extract};

/// Whether a writer that fails once it has so many bytes is reported, and receives as many of the first bytes.
fn is_cut(
    alloc: Global,
    (image, text): (&[u8], &[u8]),
    room: usize,
    failure: Failure,
) -> Result<bool, Fail> {
    let mut writer = ProbeWriter::new(alloc, room, 100, failure)?;
    let answer = run_extract(alloc, &small()?, image, VolumeKey::Id(0), &mut writer);
    Ok(answer.err() == Some(ToolError::Write) && text.get(..room) == Some(writer.taken()))
}

/// How many bytes of what `root` reads a writer takes, and how it then fails.
static CUTS: [(usize, Failure); 6] = [
    (0, Failure::Nothing),
    (1, Failure::Error(ErrorKind::Interrupted)),
    (383, Failure::Nothing),
    (384, Failure::Error(ErrorKind::Interrupted)),
    (500, Failure::Nothing),
    (7679, Failure::Error(ErrorKind::Interrupted)),
];

#[test]
fn tells_of_a_writer_that_fails(rt: HostRuntime) -> Result<(), Fail> {
    let (image, text) = (
        Contents::Root.bytes(rt.alloc())?,
        Contents::RootText.bytes(rt.alloc())?,
    );
    for (room, failure) in CUTS {
        let is_cut = is_cut(
            rt.alloc(),
            (image.as_slice(), text.as_slice()),
            room,
            failure,
        )?;
        assert!(rt; is_cut, "after {room} bytes");
    }
    Ok(())
}
