//! What a plan of edits has to know of an image.

ghost use Rattle.std.specs.Prelude.{◌≡◌, IfErr, IfOk, length};
ghost use Rattle.ubi_change.specs.inner.Known.{AreWholes, IsKnown, IsWholeRead, is_whole_case};
ghost use Rattle.ubi_scan.specs.Image.{image_of};
ghost use Rattle.ubi_scan.specs.Source.{Narrows, WhereHeld, blocks_in};
ghost use Rattle.ubi_scan.specs.Stream.{IsReadFailure, IsReadFault, NamesBlock, after};
ghost use Rattle.ubi_volume.specs.Places.{ArePlacesError};
ghost use Rattle.ubi_volume.specs.Survey.{IsSurveyOf};

use crate::avoided::Avoided;
use crate::copies::{Holders, holders_of};
use crate::edit::Edit;
use std::alloc::{AllocError, Global};
use ubi_media::Geometry;
use ubi_scan::{BlockSource, StreamError};
use ubi_volume::{PlaceContent, Surveyed, case_from, survey_from};

/// What a plan of edits has to know of an image.
#[derive(Drop)]
pub struct Known {
    /// The image.
    pub surveyed: Surveyed,
    /// Of each edit, whether the volume that it gives another size is neither updating nor damaged.
    pub wholes: Vec<bool>,
    /// The eraseblocks that hold the copies of the volume table, if both are good.
    pub holders: Option<Holders>,
}

/// Whether what a volume reads is neither updating nor damaged.
fn is_whole(case: PlaceContent) -> bool
    ensures { result ≡ is_whole_case case }
{
    match case {
        PlaceContent::Updating | PlaceContent::Damaged => false,
        PlaceContent::Static { .. } | PlaceContent::Dynamic => true,
    }
}

/// Whether the volume that an edit gives another size is neither updating nor damaged; it is, if there is none. The buffer has the size
/// of an eraseblock, here and below.
///
/// # Errors
///
/// `Read` if a read failed.
fn reads_whole<S: BlockSource>(
    geometry: &Geometry,
    source: &mut S,
    surveyed: &Surveyed,
    edit: &Edit,
    buffer: &mut [u8],
) -> Result<bool, StreamError>
    requires survey { IsSurveyOf geometry.now (S.known source.old) (S.agrees source.old) surveyed.now }
    requires room { length buffer.old ≡ geometry.now.peb_size }
    ensures known { S.known source.new ≡ after (S.known source.old) result }
    ensures narrows { Narrows (S.agrees source.old) (S.agrees source.new) }
    ensures whole { IfOk result (λ whole. WhereHeld (S.agrees source.new) (λ bytes. IsWholeRead (image_of geometry.now bytes) surveyed.now edit.now whole)) }
    ensures failed { IfErr result (IsReadFault (blocks_in geometry.now (S.known source.old))) }
    ensures named { IfErr result (NamesBlock geometry.now (S.failed_at source.new)) }
{
    let Edit::Resize(id, _) = edit else {
        return Ok(true);
    };
    let Some(entry) = surveyed.table().get(*id) else {
        return Ok(true);
    };
    let case = case_from(geometry, source, surveyed, *id, entry, buffer)?;
    Ok(is_whole(case))
}

/// Of each edit, whether the volume that it gives another size is neither updating nor damaged.
///
/// # Errors
///
/// `Read` if a read failed. `Memory` if memory ran out.
fn wholes_from<S: BlockSource>(
    alloc: Global,
    geometry: &Geometry,
    source: &mut S,
    surveyed: &Surveyed,
    edits: &[Edit],
    buffer: &mut [u8],
) -> Result<Vec<bool>, StreamError>
    requires survey { IsSurveyOf geometry.now (S.known source.old) (S.agrees source.old) surveyed.now }
    requires room { length buffer.old ≡ geometry.now.peb_size }
    ensures known { S.known source.new ≡ after (S.known source.old) result }
    ensures narrows { Narrows (S.agrees source.old) (S.agrees source.new) }
    ensures count { IfOk result (λ wholes. length wholes.items ≡ length edits.now) }
    ensures wholes { IfOk result (λ wholes. WhereHeld (S.agrees source.new) (λ bytes. AreWholes (image_of geometry.now bytes) surveyed.now edits.now wholes.items)) }
    ensures failed { IfErr result (IsReadFailure (blocks_in geometry.now (S.known source.old))) }
    ensures named { IfErr result (NamesBlock geometry.now (S.failed_at source.new)) }
{
    let mut wholes = Vec::new(alloc);
    for i in 0..edits.len() {
        let whole = reads_whole(geometry, source, surveyed, &edits[i], buffer)?;
        match wholes.push(whole) {
            Ok(()) => {}
            Err(full) => return Err(AllocError::from(full).into()),
        }
    }
    Ok(wholes)
}

/// Reads what a plan of edits has to know of an image.
///
/// # Errors
///
/// As [`ubi_volume::survey_from`].
pub fn known_from<S: BlockSource>(
    alloc: Global,
    geometry: &Geometry,
    source: &mut S,
    avoided: &Avoided,
    edits: &[Edit],
    buffer: &mut [u8],
) -> Result<Known, StreamError>
    requires { length buffer.old ≡ geometry.now.peb_size }
    ensures known { S.known source.new ≡ after (S.known source.old) result }
    ensures narrows { Narrows (S.agrees source.old) (S.agrees source.new) }
    ensures read { IfOk result (IsKnown geometry.now (S.known source.old) (S.agrees source.new) avoided.now edits.now) }
    ensures refused { IfErr result (ArePlacesError geometry.now (S.known source.old) (S.agrees source.new)) }
    ensures named { IfErr result (NamesBlock geometry.now (S.failed_at source.new)) }
{
    let surveyed = survey_from(alloc, geometry, source)?;
    let wholes = wholes_from(alloc, geometry, source, &surveyed, edits, buffer)?;
    let holders = holders_of(alloc, geometry, source, &surveyed, avoided, buffer)?;
    Ok(Known {
        surveyed,
        wholes,
        holders,
    })
}
