//! Which eraseblocks a plan takes.

ghost use Rattle.std.specs.Prelude.{◌≡◌, ◌<◌, ◌≤◌, ◌++◌, IfErr, IfOk, IfSome, OnOk, if◌then◌else◌, length, take};
ghost use Rattle.ubi_change.specs.Avoided.{states_avoiding};
ghost use Rattle.ubi_change.specs.Sites.{FitsIn, is_sole_on, stays_on};
ghost use Rattle.ubi_change.specs.inner.Taking.{AreTaken, TakeableIs, with_next};
ghost use Rattle.ubi_change.specs.Takeable.{is_unused, is_worn};
ghost use Rattle.ubi_scan.specs.Source.{Narrows, WhereHeld, blocks_in, blocks_of};
ghost use Rattle.ubi_scan.specs.Stream.{IsReadFailure, IsReadFault, NamesBlock, after};
ghost use Rattle.ubi_volume.specs.Survey.{IsSurveyOf};

use crate::avoided::Avoided;
use crate::basis::Basis;
use crate::sites::{Site, read_site};
use std::alloc::{AllocError, Global};
use ubi_media::{EcHeader, Geometry};
use ubi_scan::{BlockSource, StreamError};
use ubi_volume::{BlockState, Surveyed};

/// The greatest erase counter.
const LARGEST_COUNTER: u32 = 0x7FFF_FFFF;

/// Adds an eraseblock to some, if they are fewer than `most`.
fn push_within(sites: &mut Vec<Site>, most: usize, site: Site) -> Result<(), AllocError>
    ensures { OnOk result (sites.new.items ≡ with_next most sites.old.items site) }
{
    if sites.len() < most {
        sites.push(site)?;
    }
    Ok(())
}

/// The first of the eraseblocks of both kinds that may be taken.
#[derive(Drop)]
struct Parted {
    /// Those that are clean.
    clean: Vec<Site>,
    /// Those that aren't.
    other: Vec<Site>,
}

impl Parted {
    /// Adds an eraseblock that may be taken, if there are fewer than `most` of its kind.
    fn add(&mut self, most: usize, site: Site) -> Result<(), AllocError>
        ensures clean { OnOk result (self.new.clean.items ≡ (if site.is_clean then with_next most self.old.clean.items site else self.old.clean.items)) }
        ensures other { OnOk result (self.new.other.items ≡ (if site.is_clean then self.old.other.items else with_next most self.old.other.items site)) }
    {
        if site.is_clean {
            push_within(&mut self.clean, most, site)
        } else {
            push_within(&mut self.other, most, site)
        }
    }

    /// The first `most` of all: the clean ones first.
    fn all(self, most: usize) -> Result<Vec<Site>, AllocError>
        requires { length self.clean.items ≤ most }
        ensures { IfOk result (λ sites. sites.items ≡ take most (self.clean.items ++ self.other.items)) }
    {
        let Parted { clean, other } = self;
        let mut sites = clean;
        let more = other.len().min(most - sites.len());
        sites.extend_from_slice(&other.as_slice()[..more])?;
        Ok(sites)
    }
}

/// Whether nothing is lost with an eraseblock in this state.
fn is_unused(state: BlockState) -> bool
    ensures { result ≡ is_unused state }
{
    match state {
        BlockState::Free
        | BlockState::Blank
        | BlockState::Stale
        | BlockState::Orphan
        | BlockState::Dropped
        | BlockState::Garbage => true,
        BlockState::Corrupt | BlockState::Table | BlockState::Used => false,
    }
}

/// Whether an erase-counter header can't count another erase.
fn is_worn(header: Option<EcHeader>) -> bool
    ensures { result ≡ is_worn header }
{
    match header {
        Some(header) => header.counter == LARGEST_COUNTER,
        None => false,
    }
}

/// Whether an eraseblock is the only one that names the image.
fn is_sole_carrier(basis: &Basis, site: &Site) -> bool
    ensures { result ≡ is_sole_on basis.now site.now }
{
    match site.ec {
        Some(header) => header.image_seq != 0 && basis.carriers() == 1,
        None => false,
    }
}

/// Whether an eraseblock that then has this erase-counter header is never erased: it can't count another erase, or it is
/// the only one that names the image.
pub fn stays(basis: &Basis, site: &Site, ec: Option<EcHeader>) -> bool
    ensures { result ≡ stays_on basis.now site.now ec }
{
    is_worn(ec) || is_sole_carrier(basis, site)
}

/// An eraseblock that may be taken: nothing is lost with it, it isn't avoided, and it can be erased. `None` if it may not. The
/// buffer has the size of an eraseblock, here and below.
fn takeable_site<S: BlockSource>(
    geometry: &Geometry,
    source: &mut S,
    surveyed: &Surveyed,
    avoided: &Avoided,
    p: u32,
    buffer: &mut [u8],
) -> Result<Option<Site>, StreamError>
    requires survey { IsSurveyOf geometry.now (S.known source.old) (S.agrees source.old) surveyed.now }
    requires inside { p < blocks_in geometry.now (S.known source.old) }
    requires room { length buffer.old ≡ geometry.now.peb_size }
    ensures known { S.known source.new ≡ after (S.known source.old) result }
    ensures narrows { Narrows (S.agrees source.old) (S.agrees source.new) }
    ensures fits { IfOk result (λ site. IfSome site (FitsIn (blocks_in geometry.now (S.known source.old)))) }
    ensures takeable { IfOk result (λ site. WhereHeld (S.agrees source.new) (λ bytes. TakeableIs geometry.now (blocks_of geometry.now bytes) (states_avoiding avoided.now surveyed.now.states) p site)) }
    ensures failed { IfErr result (IsReadFault (blocks_in geometry.now (S.known source.old))) }
    ensures named { IfErr result (NamesBlock geometry.now (S.failed_at source.new)) }
{
    let state = avoided.state(surveyed, p);
    if !is_unused(state) {
        return Ok(None);
    }
    let site = read_site(geometry, source, p, state, buffer)?;
    if stays(&avoided.basis(surveyed.scan()), &site, site.ec) {
        Ok(None)
    } else {
        Ok(Some(site))
    }
}

/// The first `most` of the eraseblocks that may be taken: the clean ones first, and each kind in ascending order. They are read
/// until so many clean ones are found.
///
/// # Errors
///
/// `Read` if a read failed, with the count 0. `Memory` if memory ran out.
pub fn first_takeable<S: BlockSource>(
    alloc: Global,
    geometry: &Geometry,
    source: &mut S,
    surveyed: &Surveyed,
    avoided: &Avoided,
    most: usize,
    buffer: &mut [u8],
) -> Result<Vec<Site>, StreamError>
    requires survey { IsSurveyOf geometry.now (S.known source.old) (S.agrees source.old) surveyed.now }
    requires room { length buffer.old ≡ geometry.now.peb_size }
    ensures known { S.known source.new ≡ after (S.known source.old) result }
    ensures narrows { Narrows (S.agrees source.old) (S.agrees source.new) }
    ensures taken { IfOk result (λ sites. AreTaken geometry.now (S.known source.old) (S.agrees source.new) (states_avoiding avoided.now surveyed.now.states) most sites.items) }
    ensures failed { IfErr result (IsReadFailure (blocks_in geometry.now (S.known source.old))) }
    ensures named { IfErr result (NamesBlock geometry.now (S.failed_at source.new)) }
{
    let mut parted = Parted {
        clean: Vec::new(alloc),
        other: Vec::new(alloc),
    };
    let count = surveyed.states().len();
    prove!(count <= geometry.pebs() as usize);
    for p in 0..count as u32 {
        if parted.clean.len() == most {
            return Ok(parted.all(most)?);
        }
        if let Some(site) = takeable_site(geometry, source, surveyed, avoided, p, buffer)? {
            parted.add(most, site)?;
        }
    }
    Ok(parted.all(most)?)
}
