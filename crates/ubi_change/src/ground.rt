//! What plans read of a source.

ghost use Rattle.std.specs.Prelude.{◌≡◌, IfErr, IfOk, length};
ghost use Rattle.std.specs.FinMap as finite;
ghost use Rattle.ubi_change.specs.inner.Sites.{IsSiteAt};
ghost use Rattle.ubi_change.specs.inner.Taking.{IsGroundOf};
ghost use Rattle.ubi_change.specs.Avoided.{states_avoiding};
ghost use Rattle.ubi_scan.specs.Source.{Narrows, blocks_in};
ghost use Rattle.ubi_scan.specs.Stream.{IsReadFault, NamesBlock, after};
ghost use Rattle.ubi_volume.specs.Places.{ArePlacesError};
ghost use Rattle.ubi_volume.specs.Survey.{IsSurveyOf};

use crate::avoided::Avoided;
use crate::sites::{Site, read_site};
use crate::takeable::first_takeable;
use std::alloc::Global;
use ubi_media::Geometry;
use ubi_scan::{BlockSource, StreamError};
use ubi_volume::{Surveyed, survey_from};

/// An image that is surveyed, and the eraseblocks that a plan may take.
#[derive(Drop)]
pub struct Ground {
    /// What is known of the image.
    pub surveyed: Surveyed,
    /// The first eraseblocks that may be taken.
    pub taken: Vec<Site>,
}

/// Surveys the image of a source, and finds the first `most` eraseblocks that a plan may take. The buffer has the size of an eraseblock,
/// here and below.
///
/// # Errors
///
/// As [`survey_from`].
pub fn ground_of<S: BlockSource>(
    alloc: Global,
    geometry: &Geometry,
    source: &mut S,
    avoided: &Avoided,
    most: usize,
    buffer: &mut [u8],
) -> Result<Ground, StreamError>
    requires { length buffer.old ≡ geometry.now.peb_size }
    ensures known { S.known source.new ≡ after (S.known source.old) result }
    ensures narrows { Narrows (S.agrees source.old) (S.agrees source.new) }
    ensures ground { IfOk result (IsGroundOf geometry.now (S.known source.old) (S.agrees source.new) avoided.now most) }
    ensures refused { IfErr result (ArePlacesError geometry.now (S.known source.old) (S.agrees source.new)) }
    ensures named { IfErr result (NamesBlock geometry.now (S.failed_at source.new)) }
{
    let surveyed = survey_from(alloc, geometry, source)?;
    let taken = first_takeable(alloc, geometry, source, &surveyed, avoided, most, buffer)?;
    Ok(Ground { surveyed, taken })
}

/// The eraseblock that wins a logical eraseblock, if it has a winner.
///
/// # Errors
///
/// `Read` if a read failed, with the count 0.
pub fn winner_site<S: BlockSource>(
    geometry: &Geometry,
    source: &mut S,
    surveyed: &Surveyed,
    avoided: &Avoided,
    id: u32,
    lnum: u32,
    buffer: &mut [u8],
) -> Result<Option<Site>, StreamError>
    requires survey { IsSurveyOf geometry.now (S.known source.old) (S.agrees source.old) surveyed.now }
    requires room { length buffer.old ≡ geometry.now.peb_size }
    ensures known { S.known source.new ≡ after (S.known source.old) result }
    ensures narrows { Narrows (S.agrees source.old) (S.agrees source.new) }
    ensures site { IfOk result (IsSiteAt geometry.now (S.known source.old) (S.agrees source.new) (states_avoiding avoided.now surveyed.now.states) (finite.get surveyed.now.scan.winners (id, lnum))) }
    ensures failed { IfErr result (IsReadFault (blocks_in geometry.now (S.known source.old))) }
    ensures named { IfErr result (NamesBlock geometry.now (S.failed_at source.new)) }
{
    match surveyed.winner(id, lnum) {
        Some(p) => Ok(Some(read_site(geometry, source, p, avoided.state(surveyed, p), buffer)?)),
        None => Ok(None),
    }
}
