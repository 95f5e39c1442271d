//! Plans of edits beyond numbers at which one could be cut.

use super::super::images::{assert_done, attached};
use super::super::places::place_of;
use super::edits::{Asked, Given, edits_of};
use super::plans::{FIRST_3, SECOND_3};
use std::alloc::{AllocError, Global};
use std::io;
use std::process::Abort;
use std::test::Fail;
use ubi_change::{Avoided, Edit, EditFault, Step, UpdateError, UpdateRefusal, plan_update_from};
use ubi_media::{Geometry, is_blank};
use ubi_probe::pebs::{FREE, Peb, image_of, small};
use ubi_probe::records::{BOOT, BOOT_OF_2, ROOT, SMALL_ROOT, Slot};
use ubi_scan::{FileSource, MemorySource, PlacedFile};
use ubi_volume::{Attached, read_volume};

/// Contents of any size, whose bytes follow from their places.
#[derive(Drop)]
struct Ruled;

/// The byte at a place.
fn byte_at(place: u64) -> u8 {
    let mut sum = 0u8;
    for byte in place.to_be_bytes() {
        sum ^= byte;
    }
    sum
}

impl PlacedFile for Ruled {
    ghost use Rattle.std.specs.Prelude.{None};

    ghost bytes = { λ _. None };

    fn read_from(&self, at: u64, out: &mut [u8]) -> io::Result<usize> {
        for (index, byte) in out.iter_mut().enumerate() {
            *byte = byte_at(at.saturating_add(index as u64));
        }
        Ok(out.len())
    }
}

/// How many bytes there are.
const SIZE: u64 = 1 << 62;

/// So many of them from a place on.
fn bytes_from(alloc: Global, start: u64, len: usize) -> Result<Vec<u8>, AllocError> {
    let mut bytes = Vec::from_elem(alloc, 0u8, len)?;
    for (index, byte) in bytes.as_mut_slice().iter_mut().enumerate() {
        *byte = byte_at(start.saturating_add(index as u64));
    }
    Ok(bytes)
}

/// The groups of steps of edits of an image, whose new volumes have these contents, or why there are none.
fn planned(
    alloc: Global,
    geometry: &Geometry,
    image: &[u8],
    edits: &[Edit],
) -> Result<Vec<Vec<Step>>, UpdateError> {
    let (avoided, mut source) = (Avoided::nothing(), MemorySource::new(image));
    let mut contents = FileSource::of(Ruled, SIZE);
    let plan = plan_update_from(alloc, geometry, &mut source, &avoided, &mut contents, edits)?;
    let mut groups = Vec::new(alloc);
    for k in 0..plan.group_count() {
        let mut contents = FileSource::of(Ruled, SIZE);
        let mut buffer = Vec::from_elem(alloc, 0u8, geometry.peb_size() as usize)?;
        let Ok(steps) = plan.group(alloc, geometry, k, &mut contents, buffer.as_mut_slice()) else {
            return Err(UpdateError::Contents(k));
        };
        match groups.push(steps) {
            Ok(()) => {}
            Err(full) => return Err(AllocError::from(full).into()),
        }
    }
    Ok(groups)
}

/// Asserts that volume 1 of an image reads the contents from a place on, as many as are given, and 0xFF after them.
fn assert_reads(
    rt: &impl Abort,
    alloc: Global,
    geometry: &Geometry,
    image: &[u8],
    (start, len): (u64, usize),
) -> Result<(), Fail> {
    let here = attached(alloc, geometry, image)?;
    let Ok(text) = read_volume(alloc, here.meaning(), 1) else {
        return Err("not read".into());
    };
    let want = bytes_from(alloc, start, len)?;
    let (front, behind) = text
        .as_slice()
        .split_at_checked(len)
        .ok_or("too few bytes")?;
    assert!(*rt; front == want.as_slice() && is_blank(behind));
    Ok(())
}

/// Does the steps of a group. Gives the greatest sequence number then, and whether the image means what it did.
fn done(
    rt: &impl Abort,
    alloc: Global,
    geometry: &Geometry,
    image: &mut [u8],
    steps: &[Step],
    old: &Attached,
) -> Result<(u64, bool), Fail> {
    for step in steps {
        assert_done(rt, geometry, image, step);
    }
    let here = attached(alloc, geometry, image)?;
    Ok((here.top_sqnum(), here.meaning() == old.meaning()))
}

/// Does the steps of groups, and asserts that the image means what it did until the last but one is done, and that each takes the
/// next sequence number.
fn assert_groups(
    rt: &impl Abort,
    alloc: Global,
    geometry: &Geometry,
    image: &mut [u8],
    groups: &[Vec<Step>],
) -> Result<(), Fail> {
    let old = attached(alloc, geometry, image)?;
    let (mut left, mut sqnum) = (groups.len(), old.top_sqnum());
    for steps in groups {
        (left, sqnum) = (left.saturating_sub(1), sqnum.saturating_add(1));
        let (top, is_old) = done(rt, alloc, geometry, image, steps.as_slice(), &old)?;
        assert!(*rt; top == sqnum && is_old == (left >= 2));
    }
    Ok(())
}

/// Asserts that an edit writes volume 1, of the contents from a place on.
fn assert_writes(
    rt: &impl Abort,
    alloc: Global,
    geometry: &Geometry,
    image: &mut [u8],
    asked: Asked,
    part: (u64, usize),
) -> Result<(), Fail> {
    let edits = edits_of(alloc, &[asked])?;
    let Ok(groups) = planned(alloc, geometry, image, edits.as_slice()) else {
        return Err("no plan".into());
    };
    assert_groups(rt, alloc, geometry, image, groups.as_slice())?;
    assert_reads(rt, alloc, geometry, image, part)
}

/// The copies of a table with a volume of three eraseblocks, and free eraseblocks.
const FEW: [Peb; 9] = [FIRST_3, SECOND_3, FREE, FREE, FREE, FREE, FREE, FREE, FREE];

/// Where contents begin: before and behind 2^32, behind 2^48, and 400 bytes before their end.
static PLACES: [u64; 4] = [
    0xFFFF_FF9C,
    0x1_0000_0064,
    0x1_0000_0000_0007,
    0x3FFF_FFFF_FFFF_FE70,
];

#[test]
fn reads_contents_far_in_their_source(rt: HostRuntime) -> Result<(), Fail> {
    let (alloc, geometry) = (rt.alloc(), small()?);
    for start in &PLACES {
        let mut image = image_of(alloc, &geometry, &FEW)?;
        let asked = Asked::Create(Given(BOOT_OF_2, *start, 400));
        let part = (*start, 400);
        assert_writes(&rt, alloc, &geometry, image.as_mut_slice(), asked, part)?;
    }
    Ok(())
}

/// More than 256 free eraseblocks.
const MANY_FREE: [Peb; 306] = [FREE; 306];

/// Volumes of 300 eraseblocks.
static MANY: [Slot; 2] = [
    Slot {
        reserved: 300,
        ..ROOT
    },
    Slot {
        reserved: 300,
        ..BOOT
    },
];

#[test]
fn writes_300_logical_eraseblocks(rt: HostRuntime) -> Result<(), Fail> {
    let (alloc, geometry) = (rt.alloc(), Geometry::new(512, 64, 64, 128, 1024)?);
    for slot in &MANY {
        let mut image = image_of(alloc, &geometry, &[FIRST_3, SECOND_3])?;
        let free = image_of(alloc, &geometry, &MANY_FREE)?;
        image.extend_from_slice(free.as_slice())?;
        let asked = Asked::Replace(0, Given(*slot, 7, 114_821));
        let part = (7, 114_821);
        assert_writes(&rt, alloc, &geometry, image.as_mut_slice(), asked, part)?;
    }
    Ok(())
}

/// Eraseblocks of 65,600 pages of 64 bytes, of which a volume takes all but a few: its steps program one after the other.
#[test]
fn programs_65540_pages(rt: HostRuntime) -> Result<(), Fail> {
    let (alloc, geometry) = (rt.alloc(), Geometry::new(4_198_400, 64, 64, 128, 32)?);
    let pebs = [FIRST_3, SECOND_3, FREE, FREE, FREE];
    let image = image_of(alloc, &geometry, &pebs)?;
    let edits = edits_of(alloc, &[Asked::Replace(0, Given(SMALL_ROOT, 0, 4_194_560))])?;
    let Ok(groups) = planned(alloc, &geometry, image.as_slice(), edits.as_slice()) else {
        return Err("no plan".into());
    };
    let Some(steps) = groups.first() else {
        return Err("no group".into());
    };
    assert_eq!(rt; steps.len(), 65_541);
    for (step, page) in steps.iter().zip(1..) {
        assert!(rt; place_of(step) == (2, page));
    }
    Ok(())
}

/// A volume that holds 2^32 + 128 bytes.
const HUGE: Slot = Slot {
    reserved: 11_184_811,
    ..ROOT
};

/// How many bytes are written to it, and why they aren't.
static SIZES: [(u64, UpdateRefusal); 4] = [
    (128, UpdateRefusal::NoSpace(11_184_815, 9)),
    (0x1_0000_0080, UpdateRefusal::NoSpace(11_184_815, 9)),
    (0x1_0000_0081, UpdateRefusal::Edit(0, EditFault::TooLarge)),
    (0x2_0000_0080, UpdateRefusal::Edit(0, EditFault::TooLarge)),
];

#[test]
fn judges_what_has_more_bytes_than_32_bits_count(rt: HostRuntime) -> Result<(), Fail> {
    let (alloc, geometry) = (rt.alloc(), small()?);
    let image = image_of(alloc, &geometry, &FEW)?;
    for (len, want) in &SIZES {
        let edits = edits_of(alloc, &[Asked::Replace(0, Given(HUGE, 5, *len))])?;
        let error = planned(alloc, &geometry, image.as_slice(), edits.as_slice()).err();
        assert!(rt; error == Some(UpdateError::Refused(*want)), "{len} bytes");
    }
    Ok(())
}
