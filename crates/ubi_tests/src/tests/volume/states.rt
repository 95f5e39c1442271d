//! What an attach says of each eraseblock.

use super::images::{
    BAD_GOOD_OLD, BAD_OLD_GOOD, GOOD_BAD_OLD, GOOD_OLD_BAD, OLD_BAD_GOOD, OLD_GOOD_BAD,
    STATIC_BEYOND, attached,
};
use std::alloc::Global;
use std::test::Fail;
use ubi_probe::headers::CHECK_OF_61;
use ubi_probe::pebs::{
    A, B, C, Data, ERASED, Ec, FIRST, FIRST_BOOT, FREE, GARBAGE, NAMED, NO_DATA, Peb, RIGHT,
    SECOND, SECOND_BOOT, TORN, Vid,
};
use ubi_probe::records::ROOT;
use ubi_volume::BlockState::{Blank, Corrupt, Dropped, Free, Garbage, Orphan, Stale, Table, Used};
use ubi_volume::{Attached, BlockState};

/// Some eraseblocks, and the state of each.
type Case = (&'static [Peb], &'static [BlockState]);

/// The state of an eraseblock, where there is one.
fn state_of(attached: &Attached, p: u32) -> Option<BlockState> {
    if (p as usize) < attached.states().len() {
        Some(attached.state(p))
    } else {
        None
    }
}

/// Whether each eraseblock has the state that is wanted, and there are no others.
fn has_states(alloc: Global, (pebs, want): &Case) -> Result<bool, Fail> {
    let attached = attached(alloc, pebs)?;
    let mut has = attached.states() == *want;
    for p in 0..33u32 {
        has = has && state_of(&attached, p) == want.get(p as usize).copied();
    }
    Ok(has)
}

/// Logical eraseblocks of another internal volume: one that is dropped, the same after a blank erase-counter header, and one of
/// zeros.
const OF_OTHERS: Peb = Peb(NAMED, Vid::Internal(1, 12), Data::Fill(b'A', 384));

const FORGOTTEN: Peb = Peb(Ec::Blank, Vid::Internal(1, 12), NO_DATA);

const ZEROS_OF_OTHERS: Peb = Peb(NAMED, Vid::Internal(1, 12), Data::Fill(0, 384));

/// The last logical eraseblock that `root` reserves, and the one after it.
const LAST: Peb = Peb(NAMED, Vid::Leb(0, 19, 0), Data::Fill(b'A', 384));

const BEYOND_LAST: Peb = Peb(NAMED, Vid::Leb(0, 20, 0), Data::Fill(b'A', 384));

/// Members of volumes 1 and 127, which have no record.
const STRANGER: Peb = Peb(NAMED, Vid::Leb(1, 0, 0), Data::Fill(b'A', 384));

const STRANGER_127: Peb = Peb(NAMED, Vid::Leb(127, 0, 0), Data::Fill(b'A', 384));

/// The last of eight logical eraseblocks of a static volume that reserves fewer.
const LAST_OF_8: Peb = Peb(
    NAMED,
    Vid::Static(7, 8, 384, CHECK_OF_61),
    Data::Fill(b'a', 384),
);

/// An image in which some eraseblocks are beaten by others.
const BEATEN: [Peb; 9] = [
    FIRST,
    SECOND,
    A,
    B,
    C,
    RIGHT,
    BEYOND_LAST,
    Peb(NAMED, Vid::Leb(0, 20, 1), Data::Fill(b'A', 384)),
    Peb(NAMED, Vid::Table(0, 3), Data::Table(&[ROOT])),
];

/// The state of each.
const STATES_OF_BEATEN: [BlockState; 9] = [
    Stale, Table, Stale, Used, Used, Used, Orphan, Orphan, Table,
];

/// An eraseblock of each sort after the two copies of a table: by its headers, and then by the member that it is.
static CASES: [Case; 21] = [
    (&[FIRST, SECOND, ERASED], &[Table, Table, Blank]),
    (
        &[FIRST, SECOND, Peb(Ec::Blank, Vid::Corrupt, NO_DATA)],
        &[Table, Table, Blank],
    ),
    (&[FIRST, SECOND, FREE], &[Table, Table, Free]),
    (&[FIRST, SECOND, GARBAGE], &[Table, Table, Garbage]),
    (
        &[FIRST, SECOND, Peb(Ec::Corrupt, Vid::Blank, NO_DATA)],
        &[Table, Table, Corrupt],
    ),
    (&[FIRST, SECOND, TORN], &[Table, Table, Corrupt]),
    (&[FIRST, SECOND, OF_OTHERS], &[Table, Table, Dropped]),
    (&[FIRST, SECOND, FORGOTTEN], &[Table, Table, Blank]),
    (&[FIRST, SECOND, LAST], &[Table, Table, Used]),
    (&[FIRST, SECOND, BEYOND_LAST], &[Table, Table, Orphan]),
    (&[FIRST, SECOND, STATIC_BEYOND], &[Table, Table, Orphan]),
    (&[FIRST, SECOND, STRANGER], &[Table, Table, Orphan]),
    (&[FIRST, SECOND, STRANGER_127], &[Table, Table, Orphan]),
    // Members that are beaten, copies in any order, and a static winner beyond what its volume reserves.
    (&BEATEN, &STATES_OF_BEATEN),
    (&OLD_GOOD_BAD, &[Table, Table, Stale, Used, Stale]),
    (&OLD_BAD_GOOD, &[Table, Table, Stale, Stale, Used]),
    (&GOOD_OLD_BAD, &[Table, Table, Used, Stale, Stale]),
    (&GOOD_BAD_OLD, &[Table, Table, Used, Stale, Stale]),
    (&BAD_OLD_GOOD, &[Table, Table, Stale, Stale, Used]),
    (&BAD_GOOD_OLD, &[Table, Table, Stale, Used, Stale]),
    (&[FIRST_BOOT, SECOND_BOOT, LAST_OF_8], &[Table, Table, Used]),
];

#[test]
fn tells_the_state_of_each_eraseblock(rt: HostRuntime) -> Result<(), Fail> {
    for (index, case) in CASES.iter().enumerate() {
        assert!(rt; has_states(rt.alloc(), case)?, "case {index}");
    }
    // The sequence numbers of dropped eraseblocks count.
    let attached = attached(rt.alloc(), &[FIRST, SECOND, A, B, C, ZEROS_OF_OTHERS])?;
    assert!(rt; attached.top_sqnum() == 12 && attached.winner(0x7FFF_F000, 0).is_none());
    Ok(())
}
