//! Which table an image has, or why it has none.

use super::images::Row::{Erased, First, Forgotten, Free, Member, Newer, Second, Torn};
use super::images::{Case, holds, image, larger};
use std::test::Fail;
use ubi_media::{RecFault, Refusal};
use ubi_probe::pebs::small;
use ubi_probe::records::{
    A, ALIGNMENT_0, B, BEHIND, C, EMPTY, FLIPPED, FULL, GROWING, KIND_3, MOST_A, MOST_B, OVERFULL,
    ROOT,
};
use ubi_scan::Blocks;

static CASES: [Case; 47] = [
    // Images without copies of a table. Erased ones have no volumes.
    (&[Erased, Erased, Erased], Ok(&[])),
    (&[Free], Err(Refusal::NoTable)),
    (&[Torn], Err(Refusal::NoTable)),
    (&[Erased, Free], Err(Refusal::NoTable)),
    (&[Forgotten(0, &[ROOT]), Free], Err(Refusal::NoTable)),
    (&[Erased, Member(0)], Err(Refusal::NoTable)),
    (&[Forgotten(0, &[ROOT])], Ok(&[])),
    // Copy 0 decides, whatever copy 1 holds, and wherever it is.
    (&[First(&[ROOT]), Second(&[ROOT])], Ok(&[(0, ROOT)])),
    (&[Second(&[ROOT]), First(&[ROOT])], Ok(&[(0, ROOT)])),
    (
        &[First(&[ROOT]), Second(&[GROWING, ROOT])],
        Ok(&[(0, ROOT)]),
    ),
    (
        &[Second(&[GROWING, ROOT]), First(&[ROOT])],
        Ok(&[(0, ROOT)]),
    ),
    (&[First(&[ROOT]), Second(&[FLIPPED])], Ok(&[(0, ROOT)])),
    (&[Second(&[FLIPPED]), First(&[ROOT])], Ok(&[(0, ROOT)])),
    (&[First(&[ROOT]), Second(&[KIND_3])], Ok(&[(0, ROOT)])),
    (&[Second(&[KIND_3]), First(&[ROOT])], Ok(&[(0, ROOT)])),
    (&[First(&[ROOT]), Second(&[ROOT, ROOT])], Ok(&[(0, ROOT)])),
    (&[Second(&[ROOT, ROOT]), First(&[ROOT])], Ok(&[(0, ROOT)])),
    (&[First(&[ROOT])], Ok(&[(0, ROOT)])),
    // Copy 0 is corrupt or absent, and copy 1 decides.
    (
        &[First(&[FLIPPED]), Second(&[GROWING, ROOT])],
        Ok(&[(0, GROWING), (1, ROOT)]),
    ),
    (
        &[First(&[ROOT, FLIPPED]), Second(&[GROWING, ROOT])],
        Ok(&[(0, GROWING), (1, ROOT)]),
    ),
    (
        &[First(&[FLIPPED, ALIGNMENT_0]), Second(&[GROWING, ROOT])],
        Ok(&[(0, GROWING), (1, ROOT)]),
    ),
    (
        &[First(&[FLIPPED, ROOT]), Second(&[GROWING, ROOT])],
        Ok(&[(0, GROWING), (1, ROOT)]),
    ),
    (&[Second(&[GROWING, ROOT])], Ok(&[(0, GROWING), (1, ROOT)])),
    // Copies among logical eraseblocks of a volume, and one that is beaten.
    (
        &[First(&[ROOT]), Second(&[ROOT]), Member(0), Member(1)],
        Ok(&[(0, ROOT)]),
    ),
    (
        &[Member(1), Member(0), Second(&[ROOT]), First(&[ROOT])],
        Ok(&[(0, ROOT)]),
    ),
    (&[Second(&[ROOT]), Member(0), Member(1)], Ok(&[(0, ROOT)])),
    (&[Member(0), First(&[ROOT]), Member(1)], Ok(&[(0, ROOT)])),
    (
        &[First(&[FLIPPED]), Second(&[ROOT]), Member(0), Member(1)],
        Ok(&[(0, ROOT)]),
    ),
    // The winner of a copy.
    (&[Newer(0, &[GROWING]), First(&[ROOT])], Ok(&[(0, GROWING)])),
    // No copy that can be read, the first record at fault, a name that comes again, and no room.
    (&[First(&[FLIPPED])], Err(Refusal::BothCorrupt)),
    (&[Second(&[FLIPPED])], Err(Refusal::BothCorrupt)),
    (
        &[First(&[FLIPPED]), Second(&[EMPTY, FLIPPED])],
        Err(Refusal::BothCorrupt),
    ),
    (
        &[First(&[ALIGNMENT_0]), Second(&[ROOT])],
        Err(Refusal::Record(0, 0, RecFault::Alignment)),
    ),
    (
        &[First(&[FLIPPED, ALIGNMENT_0]), Second(&[ALIGNMENT_0])],
        Err(Refusal::Record(1, 0, RecFault::Alignment)),
    ),
    (
        &[First(&[ALIGNMENT_0, FLIPPED]), Second(&[ROOT])],
        Err(Refusal::Record(0, 0, RecFault::Alignment)),
    ),
    (
        &[
            First(&[FLIPPED, ALIGNMENT_0]),
            Second(&[ALIGNMENT_0, FLIPPED]),
        ],
        Err(Refusal::Record(1, 0, RecFault::Alignment)),
    ),
    (
        &[First(&[ALIGNMENT_0, KIND_3]), Second(&[ROOT])],
        Err(Refusal::Record(0, 0, RecFault::Alignment)),
    ),
    (
        &[
            First(&[FLIPPED, ALIGNMENT_0]),
            Second(&[ALIGNMENT_0, KIND_3]),
        ],
        Err(Refusal::Record(1, 0, RecFault::Alignment)),
    ),
    (
        &[First(&[EMPTY, KIND_3]), Second(&[ROOT])],
        Err(Refusal::Record(0, 1, RecFault::Kind)),
    ),
    (
        &[First(&[FLIPPED, ALIGNMENT_0]), Second(&[EMPTY, KIND_3])],
        Err(Refusal::Record(1, 1, RecFault::Kind)),
    ),
    (
        &[First(&[ROOT, KIND_3]), Second(&[ROOT])],
        Err(Refusal::Record(0, 1, RecFault::Kind)),
    ),
    (
        &[First(&[FLIPPED, ALIGNMENT_0]), Second(&[ROOT, KIND_3])],
        Err(Refusal::Record(1, 1, RecFault::Kind)),
    ),
    (
        &[First(&[ROOT, ROOT]), Second(&[ROOT])],
        Err(Refusal::SameName(0, 0, 1)),
    ),
    (
        &[First(&[ROOT, BEHIND]), Second(&[ROOT])],
        Err(Refusal::SameName(0, 0, 1)),
    ),
    (
        &[First(&[BEHIND, ROOT]), Second(&[ROOT])],
        Err(Refusal::SameName(0, 0, 1)),
    ),
    (&[First(&[FULL]), Second(&[FULL])], Ok(&[(0, FULL)])),
    (
        &[First(&[OVERFULL]), Second(&[OVERFULL])],
        Err(Refusal::NoSpace),
    ),
];

/// Tables of four records: names that come again, and no room.
static LARGER: [Case; 10] = [
    (
        &[Second(&[A, B, C]), First(&[A, B, B, A])],
        Err(Refusal::SameName(1, 0, 3)),
    ),
    (
        &[Second(&[A, B, C]), First(&[A, B, C, B])],
        Err(Refusal::SameName(1, 1, 3)),
    ),
    (
        &[Second(&[A, B, C]), First(&[EMPTY, A, EMPTY, A])],
        Err(Refusal::SameName(1, 1, 3)),
    ),
    (
        &[Second(&[A, B, C]), First(&[C, A, A, A])],
        Err(Refusal::SameName(1, 1, 2)),
    ),
    (
        &[First(&[EMPTY, A, EMPTY, FULL]), Second(&[A, B, C])],
        Err(Refusal::NoSpace),
    ),
    (
        &[First(&[MOST_A]), Second(&[A, B, C])],
        Err(Refusal::NoSpace),
    ),
    (
        &[First(&[MOST_A, MOST_B]), Second(&[A, B, C])],
        Err(Refusal::NoSpace),
    ),
    (
        &[First(&[MOST_A, MOST_B, C]), Second(&[A, B, C])],
        Err(Refusal::NoSpace),
    ),
    (
        &[First(&[OVERFULL, ROOT]), Second(&[A, B, C])],
        Err(Refusal::SameName(0, 0, 1)),
    ),
    (
        &[First(&[OVERFULL, KIND_3]), Second(&[A, B, C])],
        Err(Refusal::Record(0, 1, RecFault::Kind)),
    ),
];

#[test]
fn takes_the_table_or_names_why_there_is_none(rt: HostRuntime) -> Result<(), Fail> {
    for (index, case) in CASES.iter().enumerate() {
        assert!(rt; holds(rt.alloc(), &small()?, case)?, "case {index}");
    }
    for (index, case) in LARGER.iter().enumerate() {
        assert!(rt; holds(rt.alloc(), &larger()?, case)?, "larger {index}");
    }
    Ok(())
}

#[test]
fn lends_the_records_of_a_copy(rt: HostRuntime) -> Result<(), Fail> {
    let geometry = small()?;
    let pebs = [Erased, First(&[ROOT, GROWING])];
    let bytes = image(rt.alloc(), &geometry, &pebs)?;
    let blocks = Blocks::new(&geometry, bytes.as_slice())?;
    assert!(rt; blocks.count() > 1);
    assert!(rt; geometry.slots() > 1);
    assert!(rt; *blocks.rec(0, 1) == [0xFF; 172]);
    assert!(rt; *blocks.rec(1, 0) == ROOT.bytes());
    assert!(rt; *blocks.rec(1, 1) == GROWING.bytes());
    Ok(())
}
