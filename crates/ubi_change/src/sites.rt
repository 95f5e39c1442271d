//! The eraseblocks that a plan works on, and what it has to know of each.

ghost use Rattle.std.specs.Prelude.{◌≡◌, ◌&&◌, ◌<◌, ◌≤◌, IfErr, IfOk, IfSome, Some, drop, length, slice_get};
ghost use Rattle.ubi_change.specs.inner.Making.{AreSites, IsSitesRefusal};
ghost use Rattle.ubi_change.specs.inner.Sites.{IsSiteOf};
ghost use Rattle.ubi_change.specs.Takeable.{is_free};
ghost use Rattle.ubi_media.specs.Fields.{is_blank};
ghost use Rattle.ubi_scan.specs.Image.{block};
ghost use Rattle.ubi_scan.specs.Numbers.{valid_ec};
ghost use Rattle.ubi_scan.specs.Source.{Narrows, WhereHeld, blocks_in, blocks_of};
ghost use Rattle.ubi_scan.specs.Stream.{IsReadFault, NamesBlock, after};

use crate::basis::Basis;
use crate::errors::ChangeRefusal;
use ubi_media::{EcHeader, EcRead, Geometry, read_ec};
use ubi_scan::{BlockSource, StreamError, read_part};
use ubi_volume::{BlockState, is_blank_part};

/// The size of an erase-counter header in bytes.
const HEADER_SIZE: usize = 64;

/// What a plan has to know of an eraseblock.
#[derive(Clone, Copy)]
pub struct Site {
    /// Its number.
    pub pnum: u32,
    /// The bytes of its erase-counter header, as they stand.
    pub ec_area: [u8; HEADER_SIZE],
    /// That header, `None` if it is blank or corrupt.
    pub ec: Option<EcHeader>,
    /// Whether it needs no erase before it is written: it is free, and blank except for its erase-counter header.
    pub is_clean: bool,
}

/// The header that was read, `None` if it is blank or corrupt.
fn valid_ec(read: EcRead) -> Option<EcHeader>
    ensures { result ≡ valid_ec read }
{
    match read {
        EcRead::Valid(header) => Some(header),
        EcRead::Blank | EcRead::Corrupt | EcRead::Fault(_) => None,
    }
}

/// Whether an eraseblock in this state is free.
fn is_free(state: BlockState) -> bool
    ensures { result ≡ is_free state }
{
    matches!(state, BlockState::Free)
}

/// Whether an eraseblock is free, and blank except for its erase-counter header. The buffer has the size of an eraseblock,
/// here and below.
fn is_clean<S: BlockSource>(
    geometry: &Geometry,
    source: &mut S,
    p: u32,
    state: BlockState,
    buffer: &mut [u8],
) -> Result<bool, StreamError>
    requires inside { p < blocks_in geometry.now (S.known source.old) }
    requires room { length buffer.old ≡ geometry.now.peb_size }
    ensures known { S.known source.new ≡ after (S.known source.old) result }
    ensures narrows { Narrows (S.agrees source.old) (S.agrees source.new) }
    ensures clean { IfOk result (λ clean. WhereHeld (S.agrees source.new) (λ bytes. clean ≡ (is_free state && is_blank (drop 64 (block (blocks_of geometry.now bytes) p))))) }
    ensures failed { IfErr result (IsReadFault (blocks_in geometry.now (S.known source.old))) }
    ensures names { IfErr result (λ e. e ≡ StreamError.Read p 0) }
    ensures named { IfErr result (NamesBlock geometry.now (S.failed_at source.new)) }
{
    if !is_free(state) {
        return Ok(false);
    }
    prove!(geometry.peb_size() >= 64);
    is_blank_part(
        source,
        geometry,
        p,
        HEADER_SIZE as u32,
        &mut buffer[HEADER_SIZE..],
    )
}

/// Reads what a plan has to know of an eraseblock in this state.
///
/// # Errors
///
/// `Read` if a read failed, with the count 0.
pub fn read_site<S: BlockSource>(
    geometry: &Geometry,
    source: &mut S,
    p: u32,
    state: BlockState,
    buffer: &mut [u8],
) -> Result<Site, StreamError>
    requires inside { p < blocks_in geometry.now (S.known source.old) }
    requires room { length buffer.old ≡ geometry.now.peb_size }
    ensures known { S.known source.new ≡ after (S.known source.old) result }
    ensures narrows { Narrows (S.agrees source.old) (S.agrees source.new) }
    ensures site { IfOk result (IsSiteOf geometry.now (S.known source.old) (S.agrees source.new) p state) }
    ensures failed { IfErr result (IsReadFault (blocks_in geometry.now (S.known source.old))) }
    ensures names { IfErr result (λ e. e ≡ StreamError.Read p 0) }
    ensures named { IfErr result (NamesBlock geometry.now (S.failed_at source.new)) }
{
    let mut ec_area = [0; HEADER_SIZE];
    prove!(geometry.peb_size() >= 64);
    read_part(source, geometry, p, 0, &mut ec_area)?;
    let ec = valid_ec(read_ec(geometry, &ec_area));
    let is_clean = is_clean(geometry, source, p, state, buffer)?;
    Ok(Site {
        pnum: p,
        ec_area,
        ec,
        is_clean,
    })
}

/// The eraseblocks that the plan of a change works on.
#[derive(Clone, Copy)]
pub enum Sites {
    /// The logical eraseblock has a winner.
    Mapped {
        /// The eraseblock that gets the copy.
        copy: Site,
        /// The winner.
        old: Site,
    },
    /// The logical eraseblock has no winner.
    Unmapped {
        /// The eraseblock that gets a blank one first.
        first: Site,
        /// The eraseblock that gets the copy.
        copy: Site,
    },
}

/// The eraseblocks that the plan of a change works on: the winner of the logical eraseblock, if it has one, and the first
/// that may be taken.
///
/// # Errors
///
/// `Exhausted`, and else `NoFree`.
pub fn sites_of(basis: &Basis, winner: Option<Site>, taken: &[Site]) -> Result<Sites, ChangeRefusal>
    ensures sites { IfOk result (AreSites basis.now winner taken.now) }
    ensures refused { IfErr result (IsSitesRefusal basis.now winner taken.now) }
{
    let needed = if winner.is_some() { 1 } else { 2 };
    if basis.top_sqnum() > u64::MAX - needed {
        return Err(ChangeRefusal::Exhausted);
    }
    match (winner, taken.first(), taken.get(1)) {
        (Some(old), Some(copy), _) => Ok(Sites::Mapped { copy: *copy, old }),
        (None, Some(first), Some(copy)) => Ok(Sites::Unmapped {
            first: *first,
            copy: *copy,
        }),
        _ => Err(ChangeRefusal::NoFree),
    }
}
