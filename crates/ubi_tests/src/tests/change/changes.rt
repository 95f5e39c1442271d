//! Changes of a logical eraseblock: of one that has a winner, and of one that has none, also in eraseblocks as chips have them.

use super::images::{
    LARGE, LARGE_SHARED, SMALL, Sizes, assert_means, assert_walk, attached, planned,
};
use super::places::Written;
use super::update::edits::{Holds, Row, Runs, meaning_of};
use std::alloc::Global;
use std::process::Abort;
use std::test::Fail;
use ubi_change::Step;
use ubi_media::Geometry;
use ubi_probe::pebs::{A, B, C, FIRST, FREE, Peb, SECOND, image_of};
use ubi_probe::records::ROOT;

/// A change of a logical eraseblock of volume 0: how its steps write eraseblocks, how many of them come before the new meaning, and
/// what the volume reads then.
struct Change {
    sizes: Sizes,
    lnum: u32,
    new: &'static [u8],
    writes: &'static [Written],
    turn: usize,
    after: &'static [Row],
}

/// Three logical eraseblocks, and two free eraseblocks.
static PEBS: [Peb; 7] = [FIRST, SECOND, A, B, C, FREE, FREE];

/// What the logical eraseblocks 0 and 2 read.
const TEXT_A: Runs = &[(b"A", 384)];

const TEXT_C: Runs = &[(b"C", 384)];

/// A copy of a page, which takes the place of what eraseblock 3 holds.
const COPY: Written = Written {
    target: 5,
    is_prepared: false,
    pages: (1, 2),
    given_up: Some(3),
};

/// What is written in a page of a chip.
const PAGE: &[u8] = &[0x61; 2048];

/// What a volume reads whose logical eraseblock 1 has such a page.
const WITH_PAGE: &[Row] = &[(
    0,
    ROOT,
    Holds::Lebs(&[(0, TEXT_A), (1, &[(PAGE, 1)]), (2, TEXT_C)]),
)];

static CHANGES: [Change; 4] = [
    Change {
        sizes: SMALL,
        lnum: 1,
        new: &[0x61; 64],
        writes: &[COPY],
        turn: 2,
        after: &[(
            0,
            ROOT,
            Holds::Lebs(&[(0, TEXT_A), (1, &[(b"a", 64)]), (2, TEXT_C)]),
        )],
    },
    // A logical eraseblock that has no winner gets a blank one first.
    Change {
        sizes: SMALL,
        lnum: 7,
        new: &[0x61; 64],
        writes: &[
            Written {
                pages: (1, 1),
                given_up: None,
                ..COPY
            },
            Written {
                target: 6,
                given_up: Some(5),
                ..COPY
            },
        ],
        turn: 3,
        after: &[(
            0,
            ROOT,
            Holds::Lebs(&[
                (0, TEXT_A),
                (1, &[(b"B", 384)]),
                (2, TEXT_C),
                (7, &[(b"a", 64)]),
            ]),
        )],
    },
    Change {
        sizes: LARGE,
        lnum: 1,
        new: PAGE,
        writes: &[COPY],
        turn: 2,
        after: WITH_PAGE,
    },
    Change {
        sizes: LARGE_SHARED,
        lnum: 1,
        new: PAGE,
        writes: &[Written {
            pages: (0, 1),
            ..COPY
        }],
        turn: 2,
        after: WITH_PAGE,
    },
];

/// Asserts where the steps of a change are, and that each cut means the old, or the new.
fn assert_turns(
    rt: &impl Abort,
    alloc: Global,
    geometry: &Geometry,
    image: &mut [u8],
    walk: (&[Step], &[(u32, u32)]),
    change: &Change,
) -> Result<(), Fail> {
    let old = attached(alloc, geometry, image)?;
    let new = meaning_of(alloc, geometry, old.image_seq(), change.after)?;
    let meanings = (old.meaning(), &new, change.turn);
    assert_walk(rt, alloc, geometry, image, walk, meanings)?;
    assert_means(rt, alloc, geometry, image, &new)
}

/// Asserts it of a change that is planned.
fn assert_change(rt: &impl Abort, alloc: Global, change: &Change) -> Result<(), Fail> {
    let geometry = change.sizes.geometry()?;
    let mut image = image_of(alloc, &geometry, &PEBS)?;
    let place = (0, change.lnum);
    let Ok(steps) = planned(alloc, &geometry, image.as_slice(), place, change.new) else {
        return Err("no plan".into());
    };
    let mut places = Vec::new(alloc);
    for written in change.writes {
        written.put_places(&mut places)?;
    }
    let walk = (steps.as_slice(), places.as_slice());
    assert_turns(rt, alloc, &geometry, image.as_mut_slice(), walk, change)
}

#[test]
fn changes_logical_eraseblocks(rt: HostRuntime) -> Result<(), Fail> {
    for change in &CHANGES {
        assert_change(&rt, rt.alloc(), change)?;
    }
    Ok(())
}
