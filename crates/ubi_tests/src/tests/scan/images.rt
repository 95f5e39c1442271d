//! What a scan says of eraseblocks.

use std::alloc::Global;
use std::test::Fail;
use ubi_probe::headers::{CHECK_OF_37, WRONG_CHECK_OF_39};
use ubi_probe::pebs::{Data, NEW, Peb, Vid, small, small_image};
use ubi_scan::{Blocks, MemberHeader, Scan, ScanState, scan};

/// A member of logical eraseblock 0 in no image that is no copy.
pub const OLD: Peb = Peb(NEW, Vid::Leb(0, 0, 5), Data::Fill(b'5', 384));
/// A newer copy with the CRC of its data.
pub const RIGHT: Peb = Peb(NEW, Vid::Copy(0, 64, CHECK_OF_37, 7), Data::Fill(b'7', 64));
/// Copies with another CRC, by their sequence number.
pub const WRONG_4: Peb = Peb(
    NEW,
    Vid::Copy(0, 64, WRONG_CHECK_OF_39, 4),
    Data::Fill(b'9', 64),
);
/// The second.
pub const WRONG_6: Peb = Peb(
    NEW,
    Vid::Copy(0, 64, WRONG_CHECK_OF_39, 6),
    Data::Fill(b'9', 64),
);
/// The third.
pub const WRONG_9: Peb = Peb(
    NEW,
    Vid::Copy(0, 64, WRONG_CHECK_OF_39, 9),
    Data::Fill(b'9', 64),
);

/// What a scan of some eraseblocks finds.
pub fn found(alloc: Global, pebs: &[Peb]) -> Result<Scan, Fail> {
    let bytes = small_image(alloc, pebs)?;
    let blocks = Blocks::new(&small()?, bytes.as_slice())?;
    Ok(scan(alloc, &blocks)?)
}

/// What a scan says of an eraseblock, but what it keeps of the header of a member.
#[derive(Clone, Copy)]
pub enum Said {
    Blank,
    Free,
    Garbage,
    Corrupt,
    Dropped,
    Winner,
    Beaten,
}

/// What it says in whole of an eraseblock with such a header.
fn state_of(said: Said, vid: &Vid) -> Option<ScanState> {
    match (said, vid.header()) {
        (Said::Blank, _) => Some(ScanState::Blank),
        (Said::Free, _) => Some(ScanState::Free),
        (Said::Garbage, _) => Some(ScanState::Garbage),
        (Said::Corrupt, _) => Some(ScanState::Corrupt),
        (Said::Dropped, _) => Some(ScanState::Dropped),
        (Said::Winner, Some(header)) => Some(ScanState::Winner(MemberHeader {
            leb: (header.vol_id, header.lnum),
            kind: header.kind,
            data_pad: header.data_pad,
        })),
        (Said::Beaten, Some(header)) => Some(ScanState::Beaten((header.vol_id, header.lnum))),
        _ => None,
    }
}

/// Some eraseblocks, and what a scan says of them.
#[derive(Drop)]
pub struct Case {
    pub what: &'static str,
    pub pebs: &'static [Peb],
    /// What each of them is.
    pub states: &'static [Said],
    /// What wins some logical eraseblocks.
    pub winners: &'static [Won],
    /// The greatest sequence number, the number of the image, and the mean of the counters.
    pub numbers: (u64, u32, u32),
}

/// A logical eraseblock, by its volume and its number, and what wins it.
pub type Won = (u32, u32, Option<u32>);

/// Whether some logical eraseblocks have the winners that are wanted.
fn has_winners(found: &Scan, want: &[Won]) -> bool {
    let mut has = true;
    for won in want {
        has = has && found.winner(won.0, won.1) == won.2;
    }
    has
}

/// Whether a scan says of a case what is wanted.
pub fn holds(alloc: Global, case: &Case) -> Result<bool, Fail> {
    let bytes = small_image(alloc, case.pebs)?;
    let blocks = Blocks::new(&small()?, bytes.as_slice())?;
    let found = scan(alloc, &blocks)?;
    let numbers = (found.top_sqnum(), found.image_seq(), found.mean_ec());
    let mut has = numbers == case.numbers && has_winners(&found, case.winners);
    has = has && case.states.len() == blocks.count() as usize;
    for p in 0..blocks.count() {
        let want = match (case.states.get(p as usize), case.pebs.get(p as usize)) {
            (Some(said), Some(Peb(_, vid, _))) => state_of(*said, vid),
            _ => None,
        };
        has = has && want == Some(found.state(p));
    }
    Ok(has)
}
