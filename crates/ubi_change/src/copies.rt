//! The two copies of the volume table, and the eraseblocks that hold them.

ghost use Rattle.std.specs.Prelude.{◌≡◌, IfErr, IfOk, false, length, true};
ghost use Rattle.ubi_change.specs.inner.Renaming.{AreHoldersOf};
ghost use Rattle.ubi_change.specs.RenameRefused.{BothGood};
ghost use Rattle.ubi_scan.specs.Source.{Narrows, WhereHeld, blocks_in, blocks_of};
ghost use Rattle.ubi_scan.specs.Stream.{IsScanOf, NamesBlock, after};
ghost use Rattle.ubi_table.specs.declared.copy.CopyRead.TheVariants as copy;
ghost use Rattle.ubi_table.specs.Records.{Records};
ghost use Rattle.ubi_table.specs.Stream.{IsCopyReadError};
ghost use Rattle.ubi_volume.specs.Survey.{IsSurveyOf};

use crate::avoided::Avoided;
use crate::ground::winner_site;
use crate::sites::Site;
use std::alloc::Global;
use ubi_media::{Geometry, LAYOUT_VOLUME};
use ubi_scan::{BlockSource, Scan, StreamError};
use ubi_table::{CopyRead, read_copy_from};
use ubi_volume::Surveyed;

/// The eraseblocks that hold the copies of the volume table.
#[derive(Clone, Copy)]
pub struct Holders {
    /// The eraseblock that holds copy 0.
    pub first: Site,
    /// The eraseblock that holds copy 1.
    pub second: Site,
}

/// Whether two copies are good, with equal tables.
fn are_same(first: &CopyRead, second: &CopyRead) -> bool
    ensures good { result ≡ true → (t : Records) × (u : Records) × (first.now ≡ copy.Good t) × (second.now ≡ copy.Good u) × (t.of ≡ u.of) }
    ensures bad { result ≡ false → (t : Records) → first.now ≡ copy.Good t → second.now ≡ copy.Good t → ⊥ }
{
    match (first, second) {
        (CopyRead::Good(first), CopyRead::Good(second)) => first.entries() == second.entries(),
        _ => false,
    }
}

/// Whether both copies of the table of an image are good, with equal tables. The buffer has the size of an eraseblock, here
/// and below.
///
/// # Errors
///
/// `Read` if the read failed, with the count 0. `Memory` if memory ran out.
fn are_both_good<S: BlockSource>(
    alloc: Global,
    geometry: &Geometry,
    source: &mut S,
    scan: &Scan,
    buffer: &mut [u8],
) -> Result<bool, StreamError>
    requires scan { IsScanOf geometry.now (S.known source.old) (S.agrees source.old) scan.now }
    requires room { length buffer.old ≡ geometry.now.peb_size }
    ensures known { S.known source.new ≡ after (S.known source.old) result }
    ensures narrows { Narrows (S.agrees source.old) (S.agrees source.new) }
    ensures good { IfOk result (λ b. b ≡ true → WhereHeld (S.agrees source.new) (λ bytes. (t : Records) × BothGood geometry.now (blocks_of geometry.now bytes) t)) }
    ensures bad { IfOk result (λ b. b ≡ false → WhereHeld (S.agrees source.new) (λ bytes. (t : Records) → BothGood geometry.now (blocks_of geometry.now bytes) t → ⊥)) }
    ensures failed { IfErr result (IsCopyReadError (blocks_in geometry.now (S.known source.old))) }
    ensures named { IfErr result (NamesBlock geometry.now (S.failed_at source.new)) }
{
    prove!(geometry.data_offset() <= geometry.peb_size());
    let leb = &mut buffer[..geometry.leb_size() as usize];
    let first = read_copy_from(alloc, geometry, source, scan, 0, leb)?;
    let second = read_copy_from(alloc, geometry, source, scan, 1, leb)?;
    Ok(are_same(&first, &second))
}

/// The eraseblocks that hold the copies of the volume table. `None` if the copies aren't both good with equal tables.
///
/// # Errors
///
/// `Read` if a read failed, with the count 0. `Memory` if memory ran out.
pub fn holders_of<S: BlockSource>(
    alloc: Global,
    geometry: &Geometry,
    source: &mut S,
    surveyed: &Surveyed,
    avoided: &Avoided,
    buffer: &mut [u8],
) -> Result<Option<Holders>, StreamError>
    requires survey { IsSurveyOf geometry.now (S.known source.old) (S.agrees source.old) surveyed.now }
    requires room { length buffer.old ≡ geometry.now.peb_size }
    ensures known { S.known source.new ≡ after (S.known source.old) result }
    ensures narrows { Narrows (S.agrees source.old) (S.agrees source.new) }
    ensures holders { IfOk result (AreHoldersOf geometry.now (S.known source.old) (S.agrees source.new) avoided.now surveyed.now) }
    ensures failed { IfErr result (IsCopyReadError (blocks_in geometry.now (S.known source.old))) }
    ensures named { IfErr result (NamesBlock geometry.now (S.failed_at source.new)) }
{
    if !are_both_good(alloc, geometry, source, surveyed.scan(), buffer)? {
        return Ok(None);
    }
    // A copy that no eraseblock holds isn't good.
    let Some(first) = winner_site(
        geometry,
        source,
        surveyed,
        avoided,
        LAYOUT_VOLUME,
        0,
        buffer,
    )?
    else {
        return Ok(None);
    };
    let Some(second) = winner_site(
        geometry,
        source,
        surveyed,
        avoided,
        LAYOUT_VOLUME,
        1,
        buffer,
    )?
    else {
        return Ok(None);
    };
    Ok(Some(Holders { first, second }))
}
