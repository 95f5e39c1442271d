//! Building images of sources.

use super::images::{Image, composed};
use std::alloc::Global;
use std::test::Fail;
use ubi_compose::{BuildError, Recipe, RecipeError, build_to};
use ubi_laid::Part;
use ubi_media::{Geometry, VolKind, VolName, VolumeRecord};
use ubi_probe::pebs::small;
use ubi_probe::texts::bytes_of;
use ubi_probe::{Failure, ProbeSource, ProbeWriter};
use ubi_scan::MemorySource;
use ubi_volume::MeaningCause;

/// A volume: its number, its kind, how many eraseblocks are reserved, its alignment and its name; and its bytes, by the
/// place at which they begin and by how many they are.
type Row = (u32, VolKind, u32, u32, &'static str, u64, u64);

/// A part that breaks no rule but those that its numbers break.
fn part_of((id, kind, reserved, alignment, name, start, len): &Row) -> Result<Part, Fail> {
    let entry = VolumeRecord {
        reserved: *reserved,
        alignment: *alignment,
        kind: *kind,
        marker: false,
        name: VolName::new(name.as_bytes()).ok_or("no name")?,
        flags: 0,
    };
    Ok(Part {
        id: *id,
        entry,
        start: *start,
        len: *len,
    })
}

/// The recipe of some volumes.
fn recipe_of(
    alloc: Global,
    geometry: &Geometry,
    image_seq: u32,
    rows: &[Row],
) -> Result<Result<Recipe, RecipeError>, Fail> {
    let mut parts = Vec::new(alloc);
    for row in rows {
        parts.push(part_of(row)?)?;
    }
    Ok(Recipe::new(alloc, geometry, image_seq, parts))
}

/// Whether volumes of some bytes are built to an image.
fn is_built(
    alloc: Global,
    geometry: &Geometry,
    (image_seq, rows, spares): (u32, &[Row], u32),
    bytes: &[u8],
    want: &[u8],
) -> Result<bool, Fail> {
    let Ok(recipe) = recipe_of(alloc, geometry, image_seq, rows)? else {
        return Ok(false);
    };
    let mut source = MemorySource::new(bytes);
    let mut writer = ProbeWriter::new(alloc, want.len() + 1, 4096, Failure::Nothing)?;
    let answer = build_to(alloc, &recipe, spares, &mut source, &mut writer);
    Ok(answer == Ok(want.len() as u64) && writer.taken() == want)
}

/// Volumes, the bytes of the source, which each stand so many times, and the image that is built of them.
struct Case {
    image_seq: u32,
    rows: &'static [Row],
    bytes: &'static [(&'static [u8], usize)],
    want: Image,
}

static CASES: [Case; 5] = [
    Case {
        image_seq: 0,
        rows: &[],
        bytes: &[],
        want: Image::NormalTable,
    },
    Case {
        image_seq: 0x1234_5678,
        rows: &[(0, VolKind::Dynamic, 20, 1, "root", 5, 1152)],
        bytes: &[
            (b"front", 1),
            (b"A", 384),
            (b"B", 384),
            (b"C", 384),
            (b"!", 1),
        ],
        want: Image::NormalRoot,
    },
    // The 0xFF after the last piece is one more eraseblock that isn't written.
    Case {
        image_seq: 0x1234_5678,
        rows: &[(0, VolKind::Dynamic, 20, 1, "root", 0, 1500)],
        bytes: &[(b"A", 384), (b"B", 384), (b"C", 384), (b"\xFF", 348)],
        want: Image::NormalRoot,
    },
    Case {
        image_seq: 0,
        rows: &[(0, VolKind::Static, 3, 1, "boot", 1, 2)],
        bytes: &[(b"-ab-", 1)],
        want: Image::NormalText,
    },
    Case {
        image_seq: 0,
        rows: &[(0, VolKind::Static, 3, 1, "boot", 0, 385)],
        bytes: &[(b"A", 384), (b"\xFF", 1)],
        want: Image::NormalPieces,
    },
];

/// Two volumes by falling number, the first of which uses 256 of the 384 bytes of a logical eraseblock; and the same as
/// a text.
static ROWS: [Row; 2] = [
    (1, VolKind::Dynamic, 3, 256, "map", 0, 258),
    (0, VolKind::Static, 2, 1, "boot", 258, 3),
];

static BYTES: [(&[u8], usize); 2] = [(b"\xFF", 256), (b"abxyz", 1)];

const TEXT: &[u8] =
    b"volume 0 static 2 1 00 boot\nbytes 0 78797a\nvolume 1 dynamic 3 256 00 map\nleb 1 1 6162\n";

#[test]
fn builds_images_by_hand_and_what_a_text_composes_to(rt: HostRuntime) -> Result<(), Fail> {
    let alloc = rt.alloc();
    for (index, case) in CASES.iter().enumerate() {
        let (bytes, want) = (bytes_of(alloc, case.bytes)?, case.want.bytes(alloc)?);
        let built = (case.image_seq, case.rows, 0);
        let is = is_built(alloc, &small()?, built, bytes.as_slice(), want.as_slice())?;
        assert!(rt; is, "case {index}");
    }
    let (bytes, want) = (
        bytes_of(alloc, &BYTES)?,
        composed(alloc, &small()?, TEXT, 7, 2)?,
    );
    let built = (7, ROWS.as_slice(), 2);
    assert!(rt; is_built(alloc, &small()?, built, bytes.as_slice(), want.as_slice())?);
    Ok(())
}

/// What is answered of these volumes and two spare eraseblocks where the read `at` fails, or a write after `room` bytes,
/// once it is seen that the writer received as much of the image as is reported.
fn fault_at(
    alloc: Global,
    bytes: &[u8],
    want: &[u8],
    at: u64,
    room: usize,
) -> Result<Result<u64, BuildError>, Fail> {
    let Ok(recipe) = recipe_of(alloc, &small()?, 7, &ROWS)? else {
        return Err("no recipe".into());
    };
    let mut source = ProbeSource::new(alloc, &small()?, bytes, at)?;
    let mut writer = ProbeWriter::new(alloc, room, 100, Failure::Nothing)?;
    let answer = build_to(alloc, &recipe, 2, &mut source, &mut writer);
    let told = match answer {
        Ok(count) | Err(BuildError::Read(_, count) | BuildError::Write(count)) => count as usize,
        Err(_) => 0,
    };
    if want.get(..told) == Some(writer.taken()) {
        Ok(answer)
    } else {
        Err("another count".into())
    }
}

/// What is answered where one of the reads fails: the first is for the static volume.
static READS: [Result<u64, BuildError>; 4] = [
    Err(BuildError::Read(0, 1024)),
    Err(BuildError::Read(1, 1536)),
    Err(BuildError::Read(1, 1536)),
    Ok(3072),
];

#[test]
fn tells_what_failed_and_how_much_was_written(rt: HostRuntime) -> Result<(), Fail> {
    let alloc = rt.alloc();
    let (bytes, want) = (
        bytes_of(alloc, &BYTES)?,
        composed(alloc, &small()?, TEXT, 7, 2)?,
    );
    let (bytes, want) = (bytes.as_slice(), want.as_slice());
    for (index, answer) in READS.iter().enumerate() {
        let is = fault_at(alloc, bytes, want, index as u64 + 1, 4096)? == *answer;
        assert!(rt; is, "read {index}");
    }
    for room in 0..want.len() {
        let is = fault_at(alloc, bytes, want, 0, room)? == Err(BuildError::Write(room as u64));
        assert!(rt; is, "after {room} bytes");
    }
    Ok(())
}

/// Volumes that have no meaning together, and why.
static REFUSED: [(&[Row], MeaningCause); 3] = [
    (
        &[
            (0, VolKind::Static, 2, 1, "a", 0, 769),
            (2, VolKind::Static, 2, 1, "b", 0, 0),
        ],
        MeaningCause::IdRange(1),
    ),
    (
        &[
            (0, VolKind::Static, 2, 1, "a", 0, 768),
            (1, VolKind::Dynamic, 2, 256, "b", 0, 513),
        ],
        MeaningCause::ContentRange(1),
    ),
    (
        &[
            (0, VolKind::Static, 15, 1, "a", 0, 0),
            (1, VolKind::Static, 16, 1, "b", 0, 9999),
        ],
        MeaningCause::NoSpace,
    ),
];

/// What is answered where nothing is written: how many bytes of the source there are, how many spare eraseblocks, and the
/// answer. The volumes have 3 pieces.
static UNBEGUN: [(usize, u32, Option<BuildError>); 4] = [
    (261, 27, None),
    (261, 28, Some(BuildError::TooMany)),
    (260, 27, Some(BuildError::Beyond(0))),
    (257, 27, Some(BuildError::Beyond(1))),
];

#[test]
fn tells_why_nothing_is_built(rt: HostRuntime) -> Result<(), Fail> {
    let alloc = rt.alloc();
    for (rows, cause) in &REFUSED {
        let recipe = recipe_of(alloc, &small()?, 7, *rows)?;
        assert!(rt; recipe.err() == Some(RecipeError::Refused(*cause)));
    }
    let bytes = bytes_of(alloc, &BYTES)?;
    for (size, spares, want) in &UNBEGUN {
        let Ok(recipe) = recipe_of(alloc, &small()?, 7, &ROWS)? else {
            return Err("no recipe".into());
        };
        let mut source = MemorySource::new(bytes.as_slice().get(..*size).unwrap_or(&[]));
        let mut image = Vec::new(alloc);
        let answer = build_to(alloc, &recipe, *spares, &mut source, &mut image);
        assert!(rt; answer.err() == *want && image.is_empty() == want.is_some());
    }
    Ok(())
}
