//! Sources that fail, or end too early, while edits are planned.

use super::edits::{Asked, Given, edits_of};
use std::alloc::Global;
use std::test::Fail;
use ubi_change::{Avoided, ContentsError, UpdateError, plan_update_from};
use ubi_probe::ProbeSource;
use ubi_probe::pebs::{FIRST_BOOT, FREE, Peb, SECOND_BOOT, TEXT_0, TEXT_1, small, small_image};
use ubi_probe::records::{BOOT_OF_2, DATA};
use ubi_scan::MemorySource;

/// A static volume of two pieces, and five free eraseblocks, of which four are taken.
static PEBS: [Peb; 9] = [
    FIRST_BOOT,
    SECOND_BOOT,
    TEXT_0,
    TEXT_1,
    FREE,
    FREE,
    FREE,
    FREE,
    FREE,
];

/// What is written.
const CONTENTS: &[u8] = &[0x61; 800];

/// The volume gets another size, and is replaced by one of two logical eraseblocks.
static ASKED: [Asked; 2] = [
    Asked::Resize(0, 2),
    Asked::Replace(0, Given(BOOT_OF_2, 0, 768)),
];

/// Why edits have no plan where a read of the image fails, or one of the contents, and 0 says that none does.
fn error_at(
    alloc: Global,
    asked: &[Asked],
    (at, contents_at): (u64, u64),
) -> Result<Option<UpdateError>, Fail> {
    let geometry = small()?;
    let image = small_image(alloc, &PEBS)?;
    let mut source = ProbeSource::new(alloc, &geometry, image.as_slice(), at)?;
    let mut contents = ProbeSource::new(alloc, &geometry, CONTENTS, contents_at)?;
    let (avoided, edits) = (Avoided::nothing(), edits_of(alloc, asked)?);
    let plan = plan_update_from(
        alloc,
        &geometry,
        &mut source,
        &avoided,
        &mut contents,
        edits.as_slice(),
    );
    Ok(plan.err())
}

/// The eraseblock that is named where each read of the image fails in turn, up to one more than there are.
static READS: [Option<u32>; 28] = [
    // The headers.
    Some(0),
    Some(1),
    Some(2),
    Some(3),
    Some(4),
    Some(5),
    Some(6),
    Some(7),
    Some(8),
    // The table.
    Some(0),
    // Whether the volume that gets another size is whole: in how many logical eraseblocks its text lies, and each of them.
    Some(2),
    Some(2),
    Some(2),
    Some(3),
    Some(3),
    // Both copies of the table, and the erase-counter headers of what holds them.
    Some(0),
    Some(1),
    Some(0),
    Some(1),
    // The erase-counter header of each eraseblock that is taken, and whether it is clean.
    Some(4),
    Some(4),
    Some(5),
    Some(5),
    Some(6),
    Some(6),
    Some(7),
    Some(7),
    None,
];

/// Contents that can't be read: those of volume 1, two logical eraseblocks.
static CONTENT_READS: [Option<UpdateError>; 3] = [
    Some(UpdateError::Contents(0)),
    Some(UpdateError::Contents(0)),
    None,
];

#[test]
fn names_the_read_that_fails(rt: HostRuntime) -> Result<(), Fail> {
    for (index, p) in READS.iter().enumerate() {
        let error = error_at(rt.alloc(), &ASKED, (index as u64 + 1, 0))?;
        assert!(rt; error == p.map(UpdateError::Read), "read {index}");
    }
    for (index, want) in CONTENT_READS.iter().enumerate() {
        let error = error_at(rt.alloc(), &ASKED, (0, index as u64 + 1))?;
        assert!(rt; error == *want, "contents {index}");
    }
    Ok(())
}

/// What the groups of the plan are answered where each read of the contents fails.
fn group_errors(alloc: Global) -> Result<Vec<Option<ContentsError>>, Fail> {
    let geometry = small()?;
    let image = small_image(alloc, &PEBS)?;
    let mut source = MemorySource::new(image.as_slice());
    let mut contents = ProbeSource::new(alloc, &geometry, CONTENTS, 0)?;
    let (avoided, edits) = (Avoided::nothing(), edits_of(alloc, &ASKED)?);
    let edits = edits.as_slice();
    let planned = plan_update_from(
        alloc,
        &geometry,
        &mut source,
        &avoided,
        &mut contents,
        edits,
    );
    let Ok(plan) = planned else {
        return Err("no plan".into());
    };
    let mut errors = Vec::new(alloc);
    for k in 0..plan.group_count() {
        let mut broken = ProbeSource::new(alloc, &geometry, CONTENTS, 1)?;
        let mut buffer = Vec::from_elem(alloc, 0u8, geometry.peb_size() as usize)?;
        let steps = plan.group(alloc, &geometry, k, &mut broken, buffer.as_mut_slice());
        errors.push(steps.err())?;
    }
    Ok(errors)
}

/// The groups of two pieces of volume 1 read them, and those of the copies of the table read nothing.
static GROUPS: [Option<ContentsError>; 4] = [
    Some(ContentsError::Read(1)),
    Some(ContentsError::Read(1)),
    None,
    None,
];

#[test]
fn names_the_volume_whose_contents_fail(rt: HostRuntime) -> Result<(), Fail> {
    let errors = group_errors(rt.alloc())?;
    assert!(rt; errors.as_slice() == GROUPS.as_slice());
    Ok(())
}

/// Where the bytes of a volume begin, how many they are, and whether 800 bytes end before them.
static PARTS: [(u64, u64, bool); 10] = [
    (0, 800, false),
    (0, 801, true),
    (799, 1, false),
    (799, 2, true),
    (800, 0, false),
    (800, 1, true),
    (801, 0, true),
    (u64::MAX, 1, true),
    (1, u64::MAX, true),
    (u64::MAX, u64::MAX, true),
];

/// The contents are judged before anything is read, and before the other edits are.
#[test]
fn contents_end_too_early(rt: HostRuntime) -> Result<(), Fail> {
    for (start, len, is_beyond) in &PARTS {
        let asked = [Asked::Remove(7), Asked::Create(Given(DATA, *start, *len))];
        let error = error_at(rt.alloc(), &asked, (1, 1))?;
        let want = if *is_beyond {
            UpdateError::Beyond(1)
        } else {
            UpdateError::Read(0)
        };
        assert!(rt; error == Some(want), "{len} bytes at {start}");
    }
    Ok(())
}
