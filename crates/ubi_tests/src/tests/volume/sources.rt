//! Attaching sources: what is found without the contents, what is read for it, and what fails.

use super::images::{BASE, NEWER_0};
use crate::tests::probes::{Reads, has_reads};
use std::alloc::Global;
use std::fs;
use std::fs::Files;
use std::os::unix::fs::FileExt;
use std::test::Fail;
use ubi_media::{Refusal, VidHeader};
use ubi_probe::ProbeSource;
use ubi_probe::headers::STATIC_1;
use ubi_probe::pebs::{
    A, B, Data, FIRST, FIRST_BOOT, FIRST_MARKED, NAMED, Peb, SECOND, SECOND_BOOT, SECOND_MARKED,
    STATIC_A, TEXT_0, TEXT_1, Vid, small, small_image,
};
use ubi_scan::{FileSource, MemorySource, StreamError, scan_from};
use ubi_table::choose_from;
use ubi_volume::{PlaceContent, Places, attach_places};

/// What a volume reads. `None` if the table has no such volume.
fn content(places: &Places, id: u32) -> Option<PlaceContent> {
    match places.table().get(id) {
        Some(_) => Some(places.content(id)),
        None => None,
    }
}

/// A newer copy of the second logical eraseblock of the text.
const NEWER_1: Peb = Peb(
    NAMED,
    Vid::Of(VidHeader {
        copy_flag: true,
        sqnum: 2,
        ..STATIC_1
    }),
    Data::Fill(b'b', 384),
);

/// A logical eraseblock beyond those that its volume reserves. It doesn't count.
const BEYOND: Peb = Peb(NAMED, Vid::Leb(0, 20, 0), Data::Fill(b'D', 384));

/// A text in two logical eraseblocks.
const TEXT: PlaceContent = PlaceContent::Static {
    lebs: 2,
    bytes: 385,
};

/// A volume, a number, and the first logical eraseblock of it from that number on, with where it is.
type Next = (u32, u32, Option<(u32, u32)>);

/// Whether the logical eraseblocks that are wanted are next.
fn has_next(places: &Places, want: &[Next]) -> bool {
    let mut has = true;
    for next in want {
        has = has && places.next_place(next.0, next.1) == next.2;
    }
    has
}

/// An image, what its volume reads, where the first two logical eraseblocks are, and what is read to find that.
type Case = (
    &'static [Peb],
    PlaceContent,
    &'static [Next],
    &'static [Reads],
);

/// Of a dynamic volume the headers are read once, for the scan, and the data of one copy of the table alone. The most
/// reads come where a candidate of a static volume is checked as a copy and then as a piece of the text.
static ATTACHED: [Case; 8] = [
    (
        &BASE,
        PlaceContent::Dynamic,
        &[(0, 0, Some((0, 2))), (0, 1, Some((1, 3)))],
        &[(0, 2, 1), (1, 1, 0), (2, 1, 0), (3, 1, 0), (4, 1, 0)],
    ),
    (
        &[FIRST_BOOT, SECOND_BOOT, NEWER_0, TEXT_0, TEXT_1, NEWER_1],
        TEXT,
        &[(0, 0, Some((0, 2))), (0, 1, Some((1, 5)))],
        &[
            (0, 2, 1),
            (1, 1, 0),
            (2, 6, 2),
            (3, 1, 0),
            (4, 2, 0),
            (5, 4, 2),
        ],
    ),
    (
        &[FIRST, SECOND, A, B, BEYOND],
        PlaceContent::Dynamic,
        &[
            (0, 0, Some((0, 2))),
            (0, 1, Some((1, 3))),
            (0, 2, None),
            (1, 0, None),
        ],
        &[],
    ),
    (
        &[FIRST_MARKED, SECOND_MARKED],
        PlaceContent::Updating,
        &[],
        &[],
    ),
    (
        &[FIRST_BOOT, SECOND_BOOT],
        PlaceContent::Static { lebs: 0, bytes: 0 },
        &[],
        &[],
    ),
    (&[FIRST_BOOT, SECOND_BOOT, TEXT_0, TEXT_1], TEXT, &[], &[]),
    (
        &[FIRST_BOOT, SECOND_BOOT, TEXT_0],
        PlaceContent::Damaged,
        &[],
        &[],
    ),
    (
        &[FIRST_BOOT, SECOND_BOOT, TEXT_1],
        PlaceContent::Damaged,
        &[],
        &[],
    ),
];

/// Whether volume 0 of an image is as it should be, there is no volume 1, and so much is read to find it.
fn is_attached(alloc: Global, (pebs, reads_as, next, reads): &Case) -> Result<bool, Fail> {
    let bytes = small_image(alloc, pebs)?;
    let mut source = ProbeSource::new(alloc, &small()?, bytes.as_slice(), 0)?;
    let places = attach_places(alloc, &small()?, &mut source)?;
    Ok(
        content(&places, 0) == Some(*reads_as)
            && content(&places, 1).is_none()
            && has_next(&places, next)
            && has_reads(&source, reads),
    )
}

/// Whether a source is scanned, its table chosen, and it is attached.
fn is_found(alloc: Global, bytes: &[u8]) -> Result<bool, Fail> {
    let geometry = small()?;
    let mut source = MemorySource::new(bytes);
    let found = scan_from(alloc, &geometry, &mut source)?;
    let table = choose_from(alloc, &geometry, &mut source, &found)?;
    let is_root = match table.get(0) {
        Some(volume) => volume.reserved == 20,
        None => false,
    };
    let is_attached = attach_places(alloc, &geometry, &mut source).is_ok();
    Ok(found.winner(0, 2) == Some(4) && is_root && is_attached)
}

#[test]
fn finds_what_volumes_read_and_where(rt: HostRuntime) -> Result<(), Fail> {
    for (index, case) in ATTACHED.iter().enumerate() {
        assert!(rt; is_attached(rt.alloc(), case)?, "case {index}");
    }
    let bytes = small_image(rt.alloc(), &BASE)?;
    assert!(rt; is_found(rt.alloc(), bytes.as_slice())?);
    Ok(())
}

/// Why bytes aren't attached, where a read of them fails.
fn error_of(alloc: Global, bytes: &[u8], at: u64) -> Result<Option<StreamError>, Fail> {
    let mut source = ProbeSource::new(alloc, &small()?, bytes, at)?;
    Ok(attach_places(alloc, &small()?, &mut source).err())
}

/// The first piece of two.
const HALF: [Peb; 3] = [FIRST_BOOT, SECOND_BOOT, TEXT_0];

/// A logical eraseblock of a static volume in a dynamic one.
const UNLIKE: [Peb; 3] = [FIRST, SECOND, STATIC_A];

/// Some eraseblocks, which read of them fails, and why they aren't attached then. Each read of the first image fails in
/// turn, up to one more than there are.
static FAILING: [(&[Peb], u64, Option<StreamError>); 10] = [
    // The scan.
    (&HALF, 1, Some(StreamError::Read(0, 0))),
    (&HALF, 2, Some(StreamError::Read(1, 0))),
    (&HALF, 3, Some(StreamError::Read(2, 0))),
    // The table.
    (&HALF, 4, Some(StreamError::Read(0, 0))),
    // The text: in how many logical eraseblocks it lies, and the piece in the first of them.
    (&HALF, 5, Some(StreamError::Read(2, 0))),
    (&HALF, 6, Some(StreamError::Read(2, 0))),
    (&HALF, 7, Some(StreamError::Read(2, 0))),
    (&HALF, 8, None),
    // Sources that are refused as their bytes are.
    (&UNLIKE, 0, Some(StreamError::Refused(Refusal::Mismatch(2)))),
    (&[TEXT_0], 0, Some(StreamError::Refused(Refusal::NoTable))),
];

#[test]
fn tells_why_a_source_is_not_attached(rt: HostRuntime) -> Result<(), Fail> {
    for (index, (pebs, at, want)) in FAILING.iter().enumerate() {
        let bytes = small_image(rt.alloc(), pebs)?;
        assert!(rt;
            error_of(rt.alloc(), bytes.as_slice(), *at)? == *want,
            "case {index}"
        );
    }
    let length = Some(StreamError::Refused(Refusal::Length));
    assert!(rt; error_of(rt.alloc(), &[0xFF; 511], 1)? == length);
    Ok(())
}

/// Whether a file is attached as its bytes are, and fails once its bytes are missing.
fn is_attached_as<R: Files>(rt: &R, alloc: Global, bytes: &[u8]) -> Result<bool, Fail>
where
    R::File: FileExt,
{
    fs::write(rt, "attached.img", bytes)?;
    let mut file = FileSource::open(rt, "attached.img")?;
    let places = attach_places(alloc, &small()?, &mut file)?;
    fs::write(rt, "attached.img", bytes.get(..1024).unwrap_or(&[]))?;
    let error = attach_places(alloc, &small()?, &mut file).err();
    Ok(content(&places, 0) == Some(TEXT) && error == Some(StreamError::Read(2, 0)))
}

#[test]
fn attaches_a_file(rt: HostRuntime) -> Result<(), Fail> {
    let bytes = small_image(rt.alloc(), &[FIRST_BOOT, SECOND_BOOT, TEXT_0, TEXT_1])?;
    assert!(rt; is_attached_as(&rt, rt.alloc(), bytes.as_slice())?);
    fs::remove_file(&rt, "attached.img")?;
    Ok(())
}
