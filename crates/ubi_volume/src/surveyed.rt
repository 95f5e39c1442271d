//! A survey of an image, which copies no contents: it compares winners with their records, and finds the states of the eraseblocks.

ghost use Rattle.std.specs.FinMap as finite;
ghost use Rattle.std.specs.Prelude.{◌≡◌, ◌<◌, IfErr, IfOk, Some, length, slice_get, ◌↔◌, ℕ, IsTrue, List, OnOk, None};
ghost use Rattle.ubi_media.specs.Geometry.{Sizes};
ghost use Rattle.ubi_media.specs.Record.{rec_fault};
ghost use Rattle.ubi_scan.specs.Image.{image_of};
ghost use Rattle.ubi_scan.specs.Scan as scanned;
ghost use Rattle.ubi_scan.specs.Scan.{IsScan};
ghost use Rattle.ubi_scan.specs.Source.{Narrows};
ghost use Rattle.ubi_scan.specs.Stream.{NamesBlock, after};
ghost use Rattle.ubi_volume.specs.Accepts.{IsAttachError, IsMismatched, IsVolumeFault, NoMismatch, IsWithin};
ghost use Rattle.ubi_volume.specs.Attached.{AreBlockStates, IsOutside, BlockStateIs};
ghost use Rattle.ubi_volume.specs.Places.{ArePlacesError};
ghost use Rattle.ubi_volume.specs.Survey.{IsSurvey, IsSurveyOf};
ghost use Rattle.ubi_volume.specs.inner.Headers.{WinnerHeaderIs, winner_header, Disagrees, IsOther};
ghost use Rattle.ubi_volume.specs.inner.Surveying.{MemberStateIs, AreChecked};

use crate::attached::BlockState;
use std::alloc::{AllocError, Global};
use std::marker::Model;
use ubi_media::{
    AttachError, Geometry, LAYOUT_VOLUME, MOST_VOLUMES, Refusal, VolKind, VolumeRecord,
};
use ubi_scan::{
    BlockSource, Leb, MemberHeader, MemorySource, Scan, ScanState, StreamError, scan_from,
};
use ubi_table::{Table, choose_from};

/// What is known of an image, except what its volumes read.
#[derive(Drop)]
pub struct Surveyed {
    pub(crate) scan: Scan,
    pub(crate) table: Table,
    pub(crate) states: Vec<BlockState>,
}

impl Model for Surveyed {
    ghost use Rattle.ubi_volume.specs.Survey.{Seen, seen_code};

    ghost Value = { Seen };

    ghost coded = { seen_code };

    ghost view = { λ v. record { records = v.table; scan = v.scan; states = v.states.items } };
}

impl Surveyed {
    /// The volume table.
    pub fn table(&self) -> &Table
        ensures { result.now ≡ self.now.records }
    {
        &self.table
    }

    /// What the scan found.
    pub fn scan(&self) -> &Scan
        ensures { result.now ≡ self.now.scan }
    {
        &self.scan
    }

    /// The state of each eraseblock, in ascending order.
    pub fn states(&self) -> &[BlockState]
        ensures { result.now ≡ self.now.states }
    {
        self.states.as_slice()
    }

    /// The state of an eraseblock.
    pub fn state(&self, p: u32) -> BlockState
        requires { p < length self.now.states }
        ensures { slice_get self.now.states p ≡ Some result }
    {
        self.states[p as usize]
    }

    /// The eraseblock that wins a logical eraseblock of a volume, `None` if that has no member.
    pub fn winner(&self, vol: u32, lnum: u32) -> Option<u32>
        ensures { result ≡ finite.get self.now.scan.winners (vol, lnum) }
    {
        self.scan.winner(vol, lnum)
    }

    /// The greatest sequence number of a member or a dropped eraseblock, 0 if there is none.
    pub fn top_sqnum(&self) -> u64
        ensures { result ≡ self.now.scan.top_sqnum }
    {
        self.scan.top_sqnum()
    }

    /// The image sequence number: the first one that isn't zero, 0 if there is none.
    pub fn image_seq(&self) -> u32
        ensures { result ≡ self.now.scan.image_seq }
    {
        self.scan.image_seq()
    }

    /// The number of carriers: the eraseblocks whose erase-counter header can be read and has an image sequence number
    /// that isn't zero.
    pub fn carriers(&self) -> u32
        ensures { result ≡ self.now.scan.carriers }
    {
        self.scan.carriers()
    }

    /// The mean of the erase counters that can be read, rounded down, 0 if there are none.
    pub fn mean_ec(&self) -> u32
        ensures { result ≡ self.now.scan.mean_ec }
    {
        self.scan.mean_ec()
    }
}

/// Surveys the image of a source: finds its table and the state of each of its eraseblocks, without what its volumes read.
///
/// # Errors
///
/// As [`crate::attach_places`].
pub fn survey_from<S: BlockSource>(
    alloc: Global,
    geometry: &Geometry,
    source: &mut S,
) -> Result<Surveyed, StreamError>
    ensures known { S.known source.new ≡ after (S.known source.old) result }
    ensures narrows { Narrows (S.agrees source.old) (S.agrees source.new) }
    ensures survey { IfOk result (IsSurveyOf geometry.now (S.known source.old) (S.agrees source.new)) }
    ensures refused { IfErr result (ArePlacesError geometry.now (S.known source.old) (S.agrees source.new)) }
    ensures named { IfErr result (NamesBlock geometry.now (S.failed_at source.new)) }
{
    let Checked { scan, table, count } = checked_from(alloc, geometry, source)?;
    let states = states_of(alloc, &scan, &table, count)?;
    Ok(Surveyed {
        scan,
        table,
        states,
    })
}

/// Surveys an image: finds its table and the state of each of its eraseblocks, without what its volumes read.
///
/// # Errors
///
/// As [`crate::attach`].
pub fn survey(alloc: Global, geometry: &Geometry, image: &[u8]) -> Result<Surveyed, AttachError>
    ensures survey { IfOk result (IsSurvey (image_of geometry.now image.now)) }
    ensures refused { IfErr result (IsAttachError (image_of geometry.now image.now)) }
{
    match survey_from(alloc, geometry, &mut MemorySource::new(image)) {
        Ok(survey) => Ok(survey),
        Err(StreamError::Refused(cause)) => Err(AttachError::Refused(cause)),
        Err(StreamError::Memory) => Err(AttachError::Memory),
        // No read fails, and nothing is written.
        Err(StreamError::Read(..) | StreamError::Write(_)) => unreachable!(),
    }
}

/// Whether a logical eraseblock is of a user's volume that has no record, or beyond what its dynamic volume reserves.
fn is_outside(table: &Table, vol: u32, lnum: u32) -> bool
    ensures { IsTrue result ↔ IsOutside table.now (vol, lnum) }
{
    if vol >= MOST_VOLUMES {
        return false;
    }
    match table.get(vol) {
        None => true,
        Some(record) => record.kind == VolKind::Dynamic && record.reserved <= lnum,
    }
}

/// The state of a member of a logical eraseblock, by whether it wins.
fn member_state(table: &Table, leb: Leb, wins: bool) -> BlockState
    ensures { MemberStateIs table.now leb wins result }
{
    let (vol, lnum) = leb;
    if is_outside(table, vol, lnum) {
        return BlockState::Orphan;
    }
    if !wins {
        return BlockState::Stale;
    }
    if vol == LAYOUT_VOLUME {
        BlockState::Table
    } else {
        BlockState::Used
    }
}

/// The state of an eraseblock, by what a scan says of it.
fn state_of(table: &Table, state: ScanState) -> BlockState
    ensures { (s : Sizes) (bs : List (List ℕ)) (p : ℕ) → scanned.StateIs s bs p state → BlockStateIs s bs table.now p result }
{
    match state {
        ScanState::Blank => BlockState::Blank,
        ScanState::Free => BlockState::Free,
        ScanState::Garbage => BlockState::Garbage,
        ScanState::Corrupt => BlockState::Corrupt,
        ScanState::Dropped => BlockState::Dropped,
        ScanState::Winner(header) => member_state(table, header.leb, true),
        ScanState::Beaten(leb) => member_state(table, leb, false),
    }
}

/// The state of each of the `count` eraseblocks of a scan. None of them is read.
///
/// # Errors
///
/// Memory ran out.
pub fn states_of(
    alloc: Global,
    scan: &Scan,
    table: &Table,
    count: u32,
) -> Result<Vec<BlockState>, AllocError>
    requires { count ≡ length scan.now.states }
    ensures count { IfOk result (λ states. length states.items ≡ count) }
    ensures states { IfOk result (λ states. (s : Sizes) (bs : List (List ℕ)) → IsScan s bs scan.now → AreBlockStates s bs table.now states.items) }
{
    let mut states = Vec::new(alloc);
    for p in 0..count {
        states.reserve(1)?;
        states.push_reserved(state_of(table, scan.state(p)));
    }
    Ok(states)
}

/// What a scan keeps of the header of a winner.
fn header_in(state: ScanState) -> Option<MemberHeader>
    ensures { result ≡ winner_header state }
{
    match state {
        ScanState::Winner(header) => Some(header),
        _ => None,
    }
}

/// What a scan keeps of the header of an eraseblock that wins its logical eraseblock. `None` if it wins none.
fn winner_header(scan: &Scan, p: u32) -> Option<MemberHeader>
    requires { p < length scan.now.states }
    ensures { (s : Sizes) (bs : List (List ℕ)) → IsScan s bs scan.now → WinnerHeaderIs s bs p result }
{
    header_in(scan.state(p))
}

/// Whether an eraseblock is a winner that counts for a volume without the update marker, and is unlike its record.
fn is_mismatched(geometry: &Geometry, scan: &Scan, table: &Table, p: u32) -> bool
    requires sizes { table.now.sizes ≡ geometry.now }
    requires inside { p < length scan.now.states }
    ensures { (bs : List (List ℕ)) → IsScan geometry.now bs scan.now → IsTrue result ↔ IsMismatched geometry.now bs table.now p }
{
    let Some(header) = winner_header(scan, p) else {
        return false;
    };
    match table.get(header.leb.0) {
        Some(entry) => disagrees(geometry, entry, &header),
        None => false,
    }
}

/// Looks for a winner that is unlike the record of its volume. The scan is of `count` eraseblocks.
///
/// # Errors
///
/// `Mismatch` with the lowest one.
fn check_winners(geometry: &Geometry, scan: &Scan, table: &Table, count: u32) -> Result<(), Refusal>
    requires sizes { table.now.sizes ≡ geometry.now }
    requires count { count ≡ length scan.now.states }
    ensures alike { OnOk result ((bs : List (List ℕ)) → IsScan geometry.now bs scan.now → NoMismatch geometry.now bs table.now) }
    ensures refused { IfErr result (λ c. (bs : List (List ℕ)) → IsScan geometry.now bs scan.now → IsVolumeFault geometry.now bs table.now c) }
{
    for p in 0..count {
        if is_mismatched(geometry, scan, table, p) {
            return Err(Refusal::Mismatch(p));
        }
    }
    Ok(())
}

/// What is known of a source before its volumes are looked at.
#[derive(Drop)]
pub struct Checked {
    /// What the scan found.
    pub scan: Scan,
    /// The volume table.
    pub table: Table,
    /// The number of eraseblocks.
    pub count: u32,
}

/// Scans a source, chooses its volume table, and looks for a winner that is unlike the record of its volume.
///
/// # Errors
///
/// As [`crate::attach_places`].
pub fn checked_from<S: BlockSource>(
    alloc: Global,
    geometry: &Geometry,
    source: &mut S,
) -> Result<Checked, StreamError>
    ensures known { S.known source.new ≡ after (S.known source.old) result }
    ensures narrows { Narrows (S.agrees source.old) (S.agrees source.new) }
    ensures checked { IfOk result (λ c. AreChecked geometry.now (S.known source.old) (S.agrees source.new) c.scan c.table) }
    ensures count { IfOk result (λ c. c.count ≡ length c.scan.states) }
    ensures refused { IfErr result (ArePlacesError geometry.now (S.known source.old) (S.agrees source.new)) }
    ensures named { IfErr result (NamesBlock geometry.now (S.failed_at source.new)) }
{
    let scan = scan_from(alloc, geometry, source)?;
    let table = choose_from(alloc, geometry, source, &scan)?;
    // A meaning's number has the width that a header gives it.
    prove!(scan.image_seq() <= u32::MAX);
    let count = (source.len() / u64::from(geometry.peb_size())) as u32;
    check_winners(geometry, &scan, &table, count)?;
    Ok(Checked { scan, table, count })
}

/// Whether a logical eraseblock is within its volume. Each one of a static volume is.
pub fn is_within(entry: &VolumeRecord, lnum: u32) -> bool
    ensures { IsTrue result ↔ IsWithin entry.now lnum }
{
    match entry.kind {
        VolKind::Static => true,
        VolKind::Dynamic => lnum < entry.reserved,
    }
}

/// Whether the kind or the padding of a header isn't that of a record.
fn is_unlike(geometry: &Geometry, entry: &VolumeRecord, header: &MemberHeader) -> bool
    requires { rec_fault geometry.now entry.now ≡ None }
    ensures { IsTrue result ↔ IsOther geometry.now entry.now header.now }
{
    header.kind != entry.kind || header.data_pad != entry.data_pad(geometry)
}

/// Whether the header of a winner counts for a volume without the update marker, and is unlike its record.
fn disagrees(geometry: &Geometry, entry: &VolumeRecord, header: &MemberHeader) -> bool
    requires { rec_fault geometry.now entry.now ≡ None }
    ensures { IsTrue result ↔ Disagrees geometry.now entry.now header.now }
{
    !entry.marker && is_within(entry, header.leb.1) && is_unlike(geometry, entry, header)
}
