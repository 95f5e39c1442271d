//! What is asked of the volumes of an image by their names, and the edits that stand for it.

ghost use Rattle.std.specs.Prelude.{◌≡◌, ◌++◌, ◌∷◌, [], IfErr, IfOk, None, OnOk, Some, fold};
ghost use Rattle.ubi_media.specs.Record.{rec_fault};
ghost use Rattle.std.specs.List.{list_any};
ghost use Rattle.ubi_writing.specs.Asks.{edit_for, edit_of, edits_for, keeps_name, lebs_for, name_in, name_of, named_after, named_by, record_after, record_after_all, removes, value_in, with_written, written_edit};
ghost use Rattle.ubi_writing.specs.declared.asks.Unasked.{Unasked};
ghost use Rattle.ubi_writing.specs.inner.Asking.{IsUnasked};

use crate::byte_numbers::bytes_within;
use std::alloc::{AllocError, Global};
use ubi_change::{Edit, NewVolume};
use ubi_compose::shown_name;
use ubi_media::{Geometry, VolName, VolumeRecord};
use ubi_table::Table;
use ubi_volume::Bytes;

/// The last place in a file that a word can give, which has 63 bits.
const MOST_BYTES: u64 = 0x7FFF_FFFF_FFFF_FFFF;

/// What a word asks of a volume. The word is `NAME=VALUE`, or `NAME` for a removal, where the volume is named by the name that it has in
/// the image, in the form in which names are printed.
#[derive(Clone, Copy)]
pub enum Ask<'a> {
    /// It gets another name: the value, in the same form.
    Rename(&'a str),
    /// It gets another size: the value is the number of bytes that it has to hold.
    Resize(&'a str),
    /// It is removed.
    Remove(&'a str),
    /// It gets other contents: the place in the source of contents at which they begin, and how many bytes they are. The value is the
    /// path of their file.
    Contents(&'a str, u64, u64),
}

/// All that is asked of volumes: what is asked by words, and then volumes that are written, each in the place of the one that has its name
/// after the edits before, or beside the others.
#[derive(Clone, Copy)]
pub struct Edits<'a> {
    /// What is asked by words.
    pub asks: &'a [Ask<'a>],
    /// The volumes that are written.
    pub volumes: &'a [NewVolume],
    /// The paths of the files of contents, in the order of the volumes that are written. They name a file that can't be read.
    pub paths: &'a [&'a str],
}

impl<'a> Ask<'a> {
    /// The name of the volume.
    pub fn name(&self) -> &'a str
        ensures { result.now ≡ name_of self.now }
    {
        match self {
            Ask::Rename(word) | Ask::Resize(word) | Ask::Contents(word, _, _) => parts_of(word).0,
            Ask::Remove(word) => word,
        }
    }
}

/// What stands before the first `=` of a word, and what stands behind it. A word without one is all name.
pub fn parts_of(word: &str) -> (&str, &str)
    ensures name { result.0.now ≡ name_in word.now }
    ensures value { result.1.now ≡ value_in word.now }
{
    match word.split_once('=') {
        Some(parts) => parts,
        None => (word, ""),
    }
}

/// The number of the volume that a word names.
pub fn named_by(table: &Table, word: &str) -> Option<u32>
    ensures { result ≡ named_by table.now word.now }
{
    table.number_named(&shown_name(word.as_bytes())?)
}

/// How many logical eraseblocks hold so many bytes of a volume; no more than a number of 32 bits says.
fn lebs_for(geometry: &Geometry, entry: &VolumeRecord, bytes: u64) -> u32
    requires { rec_fault geometry.now entry.now ≡ None }
    ensures { result ≡ lebs_for geometry.now entry.now bytes }
{
    let lebs = bytes.div_ceil(u64::from(entry.usable(geometry)));
    lebs.min(u64::from(u32::MAX)) as u32
}

/// A record after an edit, if that is one of the volume with a number.
fn record_after(entry: VolumeRecord, id: u32, edit: &Edit) -> VolumeRecord
    ensures { result ≡ record_after id entry edit.now }
{
    match edit {
        Edit::Rename(other, name) if *other == id => match VolName::new(name.as_slice()) {
            Some(name) => VolumeRecord { name, ..entry },
            None => entry,
        },
        Edit::Resize(other, reserved) if *other == id => VolumeRecord {
            reserved: *reserved,
            ..entry
        },
        _ => entry,
    }
}

/// A record after edits.
fn record_after_all(entry: VolumeRecord, id: u32, edits: &[Edit]) -> VolumeRecord
    ensures { result ≡ record_after_all id entry edits.now }
{
    let mut entry = entry;
    for edit in edits {
        entry = record_after(entry, id, edit);
    }
    entry
}

/// The edit that is asked for of the volume with a number and a record, by the edits before it. `None` if the value of the word isn't
/// a name, or a number of bytes.
///
/// # Errors
///
/// Memory ran out.
fn edit_of(
    alloc: Global,
    geometry: &Geometry,
    before: &[Edit],
    id: u32,
    entry: &VolumeRecord,
    ask: &Ask<'_>,
) -> Result<Option<Edit>, AllocError>
    requires { rec_fault geometry.now entry.now ≡ None }
    ensures { IfOk result (λ edit. edit ≡ edit_of geometry.now before.now id entry.now ask.now) }
{
    match ask {
        Ask::Rename(word) => match shown_name(parts_of(word).1.as_bytes()) {
            Some(name) => {
                let bytes = Vec::from_slice(alloc, name.as_bytes())?;
                Ok(Some(Edit::Rename(id, Bytes::new(bytes))))
            }
            None => Ok(None),
        },
        Ask::Resize(word) => match bytes_within(MOST_BYTES, parts_of(word).1.as_bytes()) {
            Some(bytes) => Ok(Some(Edit::Resize(id, lebs_for(geometry, entry, bytes)))),
            None => Ok(None),
        },
        Ask::Remove(_) => Ok(Some(Edit::Remove(id))),
        Ask::Contents(_, start, len) => {
            let volume = NewVolume {
                entry: record_after_all(*entry, id, before),
                start: *start,
                len: *len,
            };
            Ok(Some(Edit::Replace(id, volume)))
        }
    }
}

/// The edit that is asked for, by the edits before it. `None` if the name is that of no volume, or the value isn't
/// what it has to be.
///
/// # Errors
///
/// Memory ran out.
fn edit_for(
    alloc: Global,
    table: &Table,
    before: &[Edit],
    ask: &Ask<'_>,
) -> Result<Option<Edit>, AllocError>
    ensures { IfOk result (λ edit. edit ≡ edit_for table.now before.now ask.now) }
{
    let Some(id) = named_by(table, ask.name()) else {
        return Ok(None);
    };
    let Some(entry) = table.get(id) else {
        return Ok(None);
    };
    edit_of(alloc, &table.geometry(), before, id, entry, ask)
}

/// Why what is asked can't be edited.
#[derive(Clone, Copy)]
pub enum Unasked {
    /// This one, counted from 0, stands for no edit: its name is that of no volume, or its value isn't what it has to be.
    NoEdit(usize),
    /// Memory ran out.
    Memory,
}

impl From<AllocError> for Unasked {
    ghost from_gives = { λ _ e. e ≡ Unasked.Memory };

    fn from(_: AllocError) -> Unasked {
        Unasked::Memory
    }
}

/// Adds an edit.
fn put_edit(edits: &mut Vec<Edit>, edit: Edit) -> Result<(), AllocError>
    ensures { OnOk result (edits.new.items ≡ edits.old.items ++ (edit ∷ [])) }
{
    edits.push(edit)?;
    Ok(())
}

/// The edits that are asked for, in the same order.
///
/// # Errors
///
/// The first that stands for no edit; or memory ran out.
pub fn edits_for(alloc: Global, table: &Table, asks: &[Ask<'_>]) -> Result<Vec<Edit>, Unasked>
    ensures edits { IfOk result (λ edits. edits_for table.now asks.now ≡ Some edits.items) }
    ensures refused { IfErr result (IsUnasked table.now asks.now) }
{
    let mut edits = Vec::new(alloc);
    for i in 0..asks.len() {
        match edit_for(alloc, table, edits.as_slice(), &asks[i])? {
            Some(edit) => put_edit(&mut edits, edit)?,
            None => return Err(Unasked::NoEdit(i)),
        }
    }
    Ok(edits)
}

/// Whether an edit removes a volume.
fn removes(id: u32, edit: &Edit) -> bool
    ensures { result ≡ removes id edit.now }
{
    match edit {
        Edit::Remove(other) => *other == id,
        Edit::Rename(..) | Edit::Resize(..) | Edit::Replace(..) | Edit::Create(_) => false,
    }
}

/// Whether edits remove a volume.
fn are_removing(id: u32, edits: &[Edit]) -> bool
    ensures { result ≡ list_any (removes id) edits.now }
{
    edits.iter().any(|edit| removes(id, edit))
}

/// Whether a volume has a name after edits which don't remove it.
fn keeps_name(entry: &(u32, VolumeRecord), edits: &[Edit], name: &VolName) -> bool
    ensures { result ≡ keeps_name edits.now name.now entry.now }
{
    let after = record_after_all(entry.1, entry.0, edits);
    !are_removing(entry.0, edits) && after.name.as_bytes() == name.as_bytes()
}

/// The volume that has a name after edits which don't remove it.
fn named_after(table: &Table, edits: &[Edit], name: &VolName) -> Option<u32>
    ensures { result ≡ named_after table.now edits.now name.now }
{
    let entry = table
        .entries()
        .iter()
        .find(|entry| keeps_name(entry, edits, name))?;
    Some(entry.0)
}

/// The edit that writes a volume: it replaces the one that has its name after the edits before, or is new.
fn written_edit(table: &Table, before: &[Edit], volume: &NewVolume) -> Edit
    ensures { result ≡ written_edit volume.now (named_after table.now before.now volume.now.entry.name) }
{
    match named_after(table, before, &volume.entry.name) {
        Some(id) => Edit::Replace(id, *volume),
        None => Edit::Create(*volume),
    }
}

/// Adds the edits that write volumes.
///
/// # Errors
///
/// Memory ran out.
pub fn add_written(
    table: &Table,
    edits: &mut Vec<Edit>,
    volumes: &[NewVolume],
) -> Result<(), AllocError>
    ensures { OnOk result (edits.new.items ≡ fold (with_written table.now) edits.old.items volumes.now) }
{
    for volume in volumes {
        let edit = written_edit(table, edits.as_slice(), volume);
        put_edit(edits, edit)?;
    }
    Ok(())
}
