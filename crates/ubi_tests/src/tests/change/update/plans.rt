//! Where the steps of plans of edits are, and what each cut means.

use super::super::images::{
    LARGE, LARGE_SHARED, SMALL, Sizes, assert_means, assert_walk, attached,
};
use super::super::places::Written;
use super::edits::{Asked, Given, Holds, Row, Runs, meaning_of, planned_anywhere};
use std::alloc::Global;
use std::process::Abort;
use std::test::Fail;
use ubi_change::Step;
use ubi_media::Geometry;
use ubi_probe::pebs::{
    A, B, BOOT_0, BOOT_1, C, Data, FIRST, FIRST_BOOT, FIRST_DATA, FREE, NAMED, Peb, SECOND,
    SECOND_BOOT, SECOND_DATA, Vid, image_of,
};
use ubi_probe::records::{BOOT, DATA, ROOT, SMALL_ROOT, Slot};
use ubi_probe::texts::bytes_of;
use ubi_volume::Meaning;

/// Edits of an image: how each group of steps of their plan writes an eraseblock, how many steps come before the new meaning,
/// and the volumes that it has.
#[derive(Clone, Copy)]
struct Case {
    sizes: Sizes,
    pebs: &'static [Peb],
    contents: Runs,
    edits: &'static [Asked],
    groups: &'static [Written],
    turn: usize,
    after: &'static [Row],
}

/// A logical eraseblock of six pages, on a clean eraseblock. It is never erased.
const LAID: Written = Written {
    target: 4,
    is_prepared: false,
    pages: (1, 7),
    given_up: None,
};

/// Copy 0 of a table of 344 bytes, and copy 1.
const FIRST_COPY: Written = Written {
    given_up: Some(0),
    ..LAID
};

const SECOND_COPY: Written = Written {
    given_up: Some(1),
    ..LAID
};

/// The copies of a table with a volume of three eraseblocks.
pub const FIRST_3: Peb = Peb(NAMED, Vid::Table(0, 0), Data::Table(&[SMALL_ROOT]));

pub const SECOND_3: Peb = Peb(NAMED, Vid::Table(1, 0), Data::Table(&[SMALL_ROOT]));

/// A static volume is replaced by one of two pieces, the second of which ends within its second page.
const STATIC: Case = Case {
    sizes: SMALL,
    pebs: &[
        FIRST_BOOT,
        SECOND_BOOT,
        BOOT_0,
        BOOT_1,
        FREE,
        FREE,
        FREE,
        FREE,
    ],
    contents: &[(b"-", 3), (b"a", 384), (b"b", 100), (b"-", 5)],
    edits: &[Asked::Replace(0, Given(BOOT, 3, 484))],
    groups: &[
        LAID,
        Written {
            target: 5,
            pages: (1, 3),
            ..LAID
        },
        Written {
            target: 6,
            ..FIRST_COPY
        },
        Written {
            target: 7,
            ..SECOND_COPY
        },
    ],
    turn: 17,
    after: &[(1, BOOT, Holds::Text(&[(b"a", 384), (b"b", 100)]))],
};

/// A dynamic volume is replaced by one whose logical eraseblock 1 is blank, as are the end of 2, and that of the last page.
const DYNAMIC: Case = Case {
    sizes: SMALL,
    pebs: &[FIRST, SECOND, A, B, C, FREE, FREE, FREE, FREE, FREE],
    contents: &[
        (b"a", 384),
        (b"\xFF", 448),
        (b"c", 64),
        (b"\xFF", 256),
        (b"d", 100),
    ],
    edits: &[Asked::Replace(0, Given(ROOT, 0, 1252))],
    groups: &[
        Written { target: 5, ..LAID },
        Written {
            target: 6,
            pages: (1, 3),
            ..LAID
        },
        Written {
            target: 7,
            pages: (1, 3),
            ..LAID
        },
        Written {
            target: 8,
            ..FIRST_COPY
        },
        Written {
            target: 9,
            ..SECOND_COPY
        },
    ],
    turn: 20,
    after: &[(
        1,
        ROOT,
        Holds::Lebs(&[
            (0, &[(b"a", 384)]),
            (2, &[(b"\xFF", 64), (b"c", 64)]),
            (3, &[(b"d", 100)]),
        ]),
    )],
};

/// A dynamic volume is replaced by one in which nothing is written.
const EMPTY: Case = Case {
    contents: &[],
    edits: &[Asked::Replace(0, Given(ROOT, 0, 0))],
    groups: &[
        Written {
            target: 5,
            ..FIRST_COPY
        },
        Written {
            target: 6,
            ..SECOND_COPY
        },
    ],
    turn: 7,
    after: &[(1, ROOT, Holds::Lebs(&[]))],
    ..DYNAMIC
};

/// What the three logical eraseblocks of images read.
const ABC: Holds = Holds::Lebs(&[
    (0, &[(b"A", 384)]),
    (1, &[(b"B", 384)]),
    (2, &[(b"C", 384)]),
]);

/// A volume is created beside one of three eraseblocks, in as many eraseblocks as both of them and UBI need.
const CREATED: Case = Case {
    sizes: SMALL,
    pebs: &[FIRST_3, SECOND_3, A, B, C, FREE, FREE, FREE],
    contents: &[(b"x", 384)],
    edits: &[Asked::Create(Given(DATA, 0, 384))],
    groups: &[
        Written { target: 5, ..LAID },
        Written {
            target: 6,
            ..FIRST_COPY
        },
        Written {
            target: 7,
            ..SECOND_COPY
        },
    ],
    turn: 14,
    after: &[
        (0, SMALL_ROOT, ABC),
        (1, DATA, Holds::Lebs(&[(0, &[(b"x", 384)])])),
    ],
};

/// The records of two volumes once they have each other's name.
const ROOT_AS_DATA: Slot = Slot {
    name: b"data",
    ..ROOT
};

const DATA_AS_ROOT: Slot = Slot {
    name: b"root",
    ..DATA
};

/// Two volumes exchange their names.
const EXCHANGED: Case = Case {
    pebs: &[FIRST_DATA, SECOND_DATA, A, B, C, FREE, FREE],
    edits: &[Asked::Rename(0, b"data"), Asked::Rename(1, b"root")],
    after: &[(0, ROOT_AS_DATA, ABC), (1, DATA_AS_ROOT, Holds::Lebs(&[]))],
    ..EMPTY
};

/// A page of 2,048 bytes.
const PAGE_A: &[u8] = &[0x61; 2048];

const PAGE_C: &[u8] = &[0x63; 2048];

const BLANK_PAGE: &[u8] = &[0xFF; 2048];

/// Volumes that are written, get other names and sizes, or are removed.
static SMALL_CASES: [Case; 7] = [
    STATIC,
    DYNAMIC,
    EMPTY,
    CREATED,
    EXCHANGED,
    Case {
        edits: &[Asked::Remove(0)],
        after: &[],
        ..EMPTY
    },
    // A volume gets as few eraseblocks as have members.
    Case {
        edits: &[Asked::Resize(0, 3)],
        after: &[(0, SMALL_ROOT, ABC)],
        ..EMPTY
    },
];

/// Plans at the sizes of chips: a dynamic volume whose logical eraseblock 1 is blank, and the end of 0, with a page for each header;
/// and a static one of two pieces in its place, with both headers in page 0. A table has 22,016 bytes.
static LARGE_CASES: [Case; 2] = [
    Case {
        sizes: LARGE,
        contents: &[(PAGE_A, 3), (BLANK_PAGE, 121), (PAGE_C, 1), (b"d", 100)],
        edits: &[Asked::Replace(0, Given(ROOT, 0, 256_100))],
        groups: &[
            Written {
                target: 5,
                pages: (1, 4),
                ..LAID
            },
            Written {
                target: 6,
                pages: (1, 3),
                ..LAID
            },
            Written {
                target: 7,
                pages: (1, 12),
                ..FIRST_COPY
            },
            Written {
                target: 8,
                pages: (1, 12),
                ..SECOND_COPY
            },
        ],
        turn: 19,
        after: &[(
            1,
            ROOT,
            Holds::Lebs(&[(0, &[(PAGE_A, 3)]), (2, &[(PAGE_C, 1), (b"d", 100)])]),
        )],
        ..DYNAMIC
    },
    Case {
        sizes: LARGE_SHARED,
        contents: &[(PAGE_A, 3), (BLANK_PAGE, 60), (b"d", 100)],
        edits: &[Asked::Replace(0, Given(BOOT, 0, 129_124))],
        groups: &[
            Written {
                target: 5,
                pages: (0, 3),
                ..LAID
            },
            Written {
                target: 6,
                pages: (0, 1),
                ..LAID
            },
            Written {
                target: 7,
                pages: (0, 11),
                ..FIRST_COPY
            },
            Written {
                target: 8,
                pages: (0, 11),
                ..SECOND_COPY
            },
        ],
        turn: 18,
        after: &[(
            1,
            BOOT,
            Holds::Text(&[(PAGE_A, 3), (BLANK_PAGE, 60), (b"d", 100)]),
        )],
        ..DYNAMIC
    },
];

/// Asserts where the steps of a group are, and that each cut means the old, or the new.
fn assert_group(
    rt: &impl Abort,
    alloc: Global,
    geometry: &Geometry,
    image: &mut [u8],
    (steps, written): (&[Step], &Written),
    meanings: (&Meaning, &Meaning, usize),
) -> Result<(), Fail> {
    let mut places = Vec::new(alloc);
    written.put_places(&mut places)?;
    let walk = (steps, places.as_slice());
    assert_walk(rt, alloc, geometry, image, walk, meanings)
}

/// Asserts it of groups.
fn assert_each(
    rt: &impl Abort,
    alloc: Global,
    geometry: &Geometry,
    image: &mut [u8],
    (groups, writes): (&[Vec<Step>], &[Written]),
    (old, new, turn): (&Meaning, &Meaning, usize),
) -> Result<(), Fail> {
    let mut left = turn;
    for (steps, written) in groups.iter().zip(writes) {
        let group = (steps.as_slice(), written);
        assert_group(rt, alloc, geometry, image, group, (old, new, left))?;
        left = left.saturating_sub(steps.len());
    }
    Ok(())
}

/// Asserts it of the groups of a plan, and what the image means in the end.
fn assert_groups(
    rt: &impl Abort,
    alloc: Global,
    geometry: &Geometry,
    image: &mut [u8],
    groups: &[Vec<Step>],
    case: &Case,
) -> Result<(), Fail> {
    let old = attached(alloc, geometry, image)?;
    let new = meaning_of(alloc, geometry, old.image_seq(), case.after)?;
    let meanings = (old.meaning(), &new, case.turn);
    assert_each(rt, alloc, geometry, image, (groups, case.groups), meanings)?;
    assert_means(rt, alloc, geometry, image, &new)
}

/// Asserts it of a plan of edits.
fn assert_update(rt: &impl Abort, alloc: Global, case: &Case) -> Result<(), Fail> {
    let geometry = case.sizes.geometry()?;
    let mut image = image_of(alloc, &geometry, case.pebs)?;
    let contents = bytes_of(alloc, case.contents)?;
    let (bytes, contents) = (image.as_slice(), contents.as_slice());
    let Ok(groups) = planned_anywhere(alloc, &geometry, bytes, contents, case.edits)? else {
        return Err("no plan".into());
    };
    assert!(*rt; groups.len() == case.groups.len());
    let groups = groups.as_slice();
    assert_groups(rt, alloc, &geometry, image.as_mut_slice(), groups, case)
}

/// Asserts it of the plans of some edits.
fn assert_updates(rt: &impl Abort, alloc: Global, cases: &[Case]) -> Result<(), Fail> {
    for case in cases {
        assert_update(rt, alloc, case)?;
    }
    Ok(())
}

#[test]
fn updates_volumes(rt: HostRuntime) -> Result<(), Fail> {
    assert_updates(&rt, rt.alloc(), &SMALL_CASES)
}

#[test]
fn updates_volumes_of_chips(rt: HostRuntime) -> Result<(), Fail> {
    assert_updates(&rt, rt.alloc(), &LARGE_CASES)
}
