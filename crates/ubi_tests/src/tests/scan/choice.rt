//! What a scan says of eraseblocks, and which member wins a logical eraseblock.

use super::images::Said::{Beaten, Blank, Dropped, Winner};
use super::images::{Case, OLD, RIGHT, Said, WRONG_4, WRONG_6, WRONG_9, found, holds};
use std::alloc::Global;
use std::test::Fail;
use ubi_media::{LAYOUT_VOLUME, VidHeader};
use ubi_probe::headers;
use ubi_probe::pebs::{ERASED, Ec, NAMED, NEW, NO_DATA, Peb, TORN, Vid};
use ubi_scan::Scan;

/// The two copies of a volume table, and logical eraseblocks 0 to 2 of volume 0.
const TABLE_0: Peb = Peb(NAMED, Vid::Table(0, 0), NO_DATA);

const TABLE_1: Peb = Peb(NAMED, Vid::Table(1, 0), NO_DATA);

const LEB_0: Peb = Peb(NAMED, Vid::Leb(0, 0, 0), NO_DATA);

const LEB_1: Peb = Peb(NAMED, Vid::Leb(0, 1, 0), NO_DATA);

const LEB_2: Peb = Peb(NAMED, Vid::Leb(0, 2, 0), NO_DATA);

/// Logical eraseblock 1 without its counter, and once it is erased.
const TORN_1: Peb = Peb(Ec::Corrupt, Vid::Leb(0, 1, 0), NO_DATA);

const ERASED_1: Peb = Peb(Ec::Blank, Vid::Leb(0, 1, 0), NO_DATA);

/// One of an internal volume.
const DROPPED_0: Peb = Peb(NAMED, Vid::Internal(1, 0), NO_DATA);

static SMALL: [Case; 5] = [
    Case {
        what: "a small image, and logical eraseblocks that it hasn't",
        pebs: &[TABLE_0, TABLE_1, LEB_0, LEB_1, LEB_2, DROPPED_0],
        states: &[Winner, Winner, Winner, Winner, Winner, Dropped],
        winners: &[
            (LAYOUT_VOLUME, 0, Some(0)),
            (LAYOUT_VOLUME, 1, Some(1)),
            (LAYOUT_VOLUME, 2, None),
            (0, 0, Some(2)),
            (0, 1, Some(3)),
            (0, 2, Some(4)),
            (0, 3, None),
            (1, 0, None),
            (0x7FFF_F000, 0, None),
        ],
        numbers: (0, 0x1234_5678, 0),
    },
    Case {
        what: "a member without its counter",
        pebs: &[TABLE_0, TABLE_1, LEB_0, TORN_1, LEB_2],
        states: &[Winner, Winner, Winner, Winner, Winner],
        winners: &[(0, 0, Some(2)), (0, 1, Some(3)), (0, 2, Some(4))],
        numbers: (0, 0x1234_5678, 0),
    },
    Case {
        what: "a member that is erased",
        pebs: &[TABLE_0, TABLE_1, LEB_0, ERASED_1, LEB_2],
        states: &[Winner, Winner, Winner, Blank, Winner],
        winners: &[(0, 0, Some(2)), (0, 1, None), (0, 2, Some(4))],
        numbers: (0, 0x1234_5678, 0),
    },
    Case {
        what: "a member without its counter, alone",
        pebs: &[TORN_1],
        states: &[Winner],
        winners: &[(0, 1, Some(0))],
        numbers: (0, 0, 0),
    },
    Case {
        what: "a member that is erased, alone",
        pebs: &[ERASED_1],
        states: &[Blank],
        winners: &[(0, 1, None)],
        numbers: (0, 0, 0),
    },
];

/// An eraseblock of each state, and of some states that come in two ways two.
const EACH: [Peb; 10] = [
    ERASED,
    Peb(Ec::Of(7, 0), Vid::Blank, NO_DATA),
    Peb(Ec::Of(7, 0), Vid::Corrupt, NO_DATA),
    Peb(Ec::Corrupt, Vid::Blank, NO_DATA),
    TORN,
    Peb(NEW, Vid::Internal(1, 12), NO_DATA),
    Peb(Ec::Blank, Vid::Internal(1, 12), NO_DATA),
    Peb(NEW, Vid::Of(TABLE_OF_1), NO_DATA),
    Peb(NEW, Vid::Leb(0, 0, 4), NO_DATA),
    Peb(NEW, Vid::Leb(0, 0, 8), NO_DATA),
];

/// The header of a copy of the table with compatibility 1.
const TABLE_OF_1: VidHeader = VidHeader {
    compat: 1,
    sqnum: 3,
    ..headers::TABLE_0
};

/// An eraseblock whose numbers are the largest that there are, and one with these numbers that holds nothing.
const LARGEST: Peb = Peb(
    Ec::Of(0x7FFF_FFFF, u32::MAX),
    Vid::Leb(0, 0, u64::MAX),
    NO_DATA,
);

const LARGEST_FREE: Peb = Peb(Ec::Of(0x7FFF_FFFF, u32::MAX), Vid::Blank, NO_DATA);

/// What each of them is.
const EACH_SAID: [Said; 10] = [
    Said::Blank,
    Said::Free,
    Said::Garbage,
    Said::Corrupt,
    Said::Corrupt,
    Said::Dropped,
    Said::Blank,
    Said::Winner,
    Said::Beaten,
    Said::Winner,
];

/// What a scan says of eraseblocks, and the numbers that it gives.
static STATES: [Case; 3] = [
    Case {
        what: "eraseblocks of each state, two of six that can be read with counter 7",
        pebs: &EACH,
        states: &EACH_SAID,
        winners: &[(0x7FFF_EFFF, 0, Some(7)), (0x7FFF_F000, 0, None)],
        numbers: (12, 0, 2),
    },
    Case {
        what: "the largest numbers",
        pebs: &[ERASED, LARGEST, LARGEST_FREE, LARGEST_FREE],
        states: &[Said::Blank, Said::Winner, Said::Free, Said::Free],
        winners: &[(0, 0, Some(1))],
        numbers: (u64::MAX, 0xFFFF_FFFF, 0x7FFF_FFFF),
    },
    Case {
        what: "no numbers",
        pebs: &[ERASED],
        states: &[Said::Blank],
        winners: &[(0, 0, None)],
        numbers: (0, 0, 0),
    },
];

#[test]
fn says_what_eraseblocks_are_and_which_wins(rt: HostRuntime) -> Result<(), Fail> {
    for case in SMALL.iter().chain(&STATES) {
        assert!(rt; holds(rt.alloc(), case)?, "{}", case.what);
    }
    Ok(())
}

/// Members of logical eraseblock 0, the state of each, which of them wins, and the greatest sequence number.
type Members = (&'static [Peb], &'static [Said], u32, u64);

static MEMBERS: [Members; 17] = [
    // An old member, a newer copy and a bad one that is newer still, in any order.
    (&[OLD, RIGHT, WRONG_9], &[Beaten, Winner, Beaten], 1, 9),
    (&[OLD, WRONG_9, RIGHT], &[Beaten, Beaten, Winner], 2, 9),
    (&[RIGHT, OLD, WRONG_9], &[Winner, Beaten, Beaten], 0, 9),
    (&[RIGHT, WRONG_9, OLD], &[Winner, Beaten, Beaten], 0, 9),
    (&[WRONG_9, OLD, RIGHT], &[Beaten, Beaten, Winner], 2, 9),
    (&[WRONG_9, RIGHT, OLD], &[Beaten, Winner, Beaten], 1, 9),
    // Bad members alone: the oldest wins.
    (&[WRONG_4, WRONG_6], &[Winner, Beaten], 0, 6),
    (&[WRONG_6, WRONG_4], &[Beaten, Winner], 1, 6),
    (
        &[WRONG_6, WRONG_4, WRONG_9],
        &[Beaten, Winner, Beaten],
        1,
        9,
    ),
    (&[WRONG_9], &[Winner], 0, 9),
    // Copies that meet another member.
    (&[WRONG_9, OLD], &[Beaten, Winner], 1, 9),
    (&[OLD, WRONG_9], &[Winner, Beaten], 0, 9),
    (&[RIGHT, OLD], &[Winner, Beaten], 0, 7),
    (&[RIGHT, WRONG_4], &[Winner, Beaten], 0, 7),
    (&[WRONG_4, RIGHT], &[Beaten, Winner], 1, 7),
    (&[WRONG_6, WRONG_9, OLD], &[Beaten, Beaten, Winner], 2, 9),
    (&[WRONG_9, RIGHT, WRONG_6], &[Beaten, Winner, Beaten], 1, 9),
];

/// Whether of some members the right one wins.
fn is_won(alloc: Global, (pebs, states, p, top): &Members) -> Result<bool, Fail> {
    let won = found(alloc, pebs)?;
    let case = Case {
        what: "",
        pebs,
        states,
        winners: &[],
        numbers: (*top, 0, 0),
    };
    Ok(won.winner(0, 0) == Some(*p) && won.winner(0, 1).is_none() && holds(alloc, &case)?)
}

/// The newest good member wins, in any order, and else the oldest of bad ones. A copy is checked once it meets another
/// member.
#[test]
fn the_newest_good_member_wins(rt: HostRuntime) -> Result<(), Fail> {
    for (index, members) in MEMBERS.iter().enumerate() {
        assert!(rt; is_won(rt.alloc(), members)?, "case {index}");
    }
    Ok(())
}

/// A volume and a number, and the next logical eraseblock of it from that number on, with its winner.
type Next = (u32, u32, Option<(u32, u32)>);

/// Whether the logical eraseblocks that are wanted are next.
fn has_next(found: &Scan, want: &[Next]) -> bool {
    let mut has = true;
    for next in want {
        has = has && found.next_winner(next.0, next.1) == next.2;
    }
    has
}

/// Logical eraseblocks 5 and 2 of volume 1, 9 of volume 0, and 0 of volume 2.
static VOLUMES: [Peb; 5] = [
    Peb(NEW, Vid::Leb(1, 5, 0), NO_DATA),
    Peb(NEW, Vid::Leb(1, 2, 0), NO_DATA),
    Peb(NEW, Vid::Leb(0, 9, 0), NO_DATA),
    Peb(NEW, Vid::Leb(2, 0, 0), NO_DATA),
    ERASED,
];

static NEXT: [Next; 8] = [
    (1, 0, Some((2, 1))),
    (1, 2, Some((2, 1))),
    (1, 3, Some((5, 0))),
    (1, 6, None),
    (1, u32::MAX, None),
    (0, 0, Some((9, 2))),
    (2, 1, None),
    (3, 0, None),
];

#[test]
fn finds_the_next_winner_of_a_volume(rt: HostRuntime) -> Result<(), Fail> {
    let alloc = rt.alloc();
    let volumes = found(alloc, &VOLUMES)?;
    assert!(rt; has_next(&volumes, &NEXT));
    let torn = found(alloc, &[TABLE_0, TABLE_1, LEB_0, TORN_1, LEB_2])?;
    assert!(rt; has_next(&torn, &[(0, 1, Some((1, 3)))]));
    let erased = found(alloc, &[TABLE_0, TABLE_1, LEB_0, ERASED_1, LEB_2])?;
    assert!(rt; has_next(&erased, &[(0, 1, Some((2, 4)))]));
    Ok(())
}
