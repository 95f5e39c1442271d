//! The volumes of an image, as JSON.

ghost use Rattle.std.specs.Prelude.{◌≡◌, All, IfOk, None, OnOk, map};
ghost use Rattle.serde_json.specs.View.{members_view, view};
ghost use Rattle.ubi_media.specs.Record.{rec_fault};
ghost use Rattle.ubi_json.specs.Line.{IsLineOf};
ghost use Rattle.ubi_json.specs.List.{listed_data, record_members, sizes_data, volume_data, with_amount};
ghost use Rattle.ubi_json.specs.Words.{kind_word};

use crate::line::line_of;
use crate::told::numbers_object;
use serde_json::{Map, Value, json, put};
use std::alloc::{AllocError, Global};
use ubi_media::{Geometry, VolKind, VolumeRecord};
use ubi_volume::Amount;
use ubi_words::shown_text;

/// What is listed of a volume.
#[derive(Clone, Copy)]
pub struct ListedVolume {
    /// Its number.
    pub id: u32,
    /// Its record.
    pub entry: VolumeRecord,
    /// How much it reads, or why it can't be read.
    pub amount: Amount,
}

/// The word for the kind of a volume.
pub fn kind_word(kind: VolKind) -> &'static str
    ensures { result.now ≡ kind_word kind }
{
    match kind {
        VolKind::Dynamic => "dynamic",
        VolKind::Static => "static",
    }
}

/// The sizes of a device.
///
/// # Errors
///
/// Memory ran out.
pub fn sizes_value(alloc: Global, geometry: &Geometry) -> Result<Value, AllocError>
    ensures { IfOk result (λ v. view v ≡ sizes_data geometry.now) }
{
    let numbers = [
        ("data", u64::from(geometry.data_offset())),
        ("leb", u64::from(geometry.leb_size())),
        ("page", u64::from(geometry.page())),
        ("peb", u64::from(geometry.peb_size())),
        ("pebs", u64::from(geometry.pebs())),
        ("slots", u64::from(geometry.slots())),
        ("vid", u64::from(geometry.vid_offset())),
    ];
    numbers_object(alloc, &numbers)
}

/// The members that say a record and its number.
fn record_members(
    alloc: Global,
    geometry: &Geometry,
    id: u32,
    entry: &VolumeRecord,
) -> Result<Map<String, Value>, AllocError>
    requires { rec_fault geometry.now entry.now ≡ None }
    ensures { IfOk result (λ m. members_view m.entries ≡ record_members geometry.now id entry.now) }
{
    let name = shown_text(alloc, entry.name.as_bytes())?;
    let kind = Value::try_from_str(alloc, kind_word(entry.kind))?;
    let mut members = Map::new(alloc);
    put(
        &mut members,
        alloc,
        "usable",
        Value::from(entry.usable(geometry)),
    )?;
    put(&mut members, alloc, "reserved", Value::from(entry.reserved))?;
    put(&mut members, alloc, "name", Value::from(name))?;
    put(&mut members, alloc, "kind", kind)?;
    put(&mut members, alloc, "id", Value::from(id))?;
    put(&mut members, alloc, "flags", Value::from(entry.flags))?;
    put(
        &mut members,
        alloc,
        "alignment",
        Value::from(entry.alignment),
    )?;
    Ok(members)
}

/// Adds how much a volume reads, or why it can't be read.
fn put_amount(
    alloc: Global,
    members: &mut Map<String, Value>,
    amount: Amount,
) -> Result<(), AllocError>
    ensures { OnOk result (members_view members.new.entries ≡ with_amount amount (members_view members.old.entries)) }
{
    match amount {
        Amount::Updating => {
            let word = Value::try_from_str(alloc, "updating")?;
            put(members, alloc, "state", word)
        }
        Amount::Damaged => {
            let word = Value::try_from_str(alloc, "damaged")?;
            put(members, alloc, "state", word)
        }
        Amount::Bytes(bytes) => put(members, alloc, "bytes", Value::from(bytes)),
        Amount::Lebs(count) => put(members, alloc, "lebs", Value::from(count)),
    }
}

/// A volume as it is listed.
fn volume_value(
    alloc: Global,
    geometry: &Geometry,
    volume: &ListedVolume,
) -> Result<Value, AllocError>
    requires { rec_fault geometry.now volume.now.entry ≡ None }
    ensures { IfOk result (λ v. view v ≡ volume_data geometry.now volume.now) }
{
    let mut members = record_members(alloc, geometry, volume.id, &volume.entry)?;
    put_amount(alloc, &mut members, volume.amount)?;
    Ok(Value::Object(members))
}

/// Volumes as they are listed.
fn volume_values(
    alloc: Global,
    geometry: &Geometry,
    volumes: &[ListedVolume],
) -> Result<Vec<Value>, AllocError>
    requires { All (λ v. rec_fault geometry.now v.entry ≡ None) volumes.now }
    ensures { IfOk result (λ values. map view values.items ≡ map (volume_data geometry.now) volumes.now) }
{
    let mut values = Vec::new(alloc);
    for volume in volumes {
        values.push(volume_value(alloc, geometry, volume)?)?;
    }
    Ok(values)
}

/// The sizes of a device, and its volumes as they are listed.
///
/// # Errors
///
/// Memory ran out.
pub fn listed_value(
    alloc: Global,
    geometry: &Geometry,
    volumes: &[ListedVolume],
) -> Result<Value, AllocError>
    requires { All (λ v. rec_fault geometry.now v.entry ≡ None) volumes.now }
    ensures { IfOk result (λ v. view v ≡ listed_data geometry.now volumes.now) }
{
    let sizes = sizes_value(alloc, geometry)?;
    let listed = volume_values(alloc, geometry, volumes)?;
    json!(in alloc; {"geometry": sizes, "volumes": listed})
}

/// The line of the sizes of a device, and of its volumes as they are listed.
///
/// # Errors
///
/// Memory ran out.
pub fn list_line(
    alloc: Global,
    geometry: &Geometry,
    volumes: &[ListedVolume],
) -> Result<Vec<u8>, AllocError>
    requires { All (λ v. rec_fault geometry.now v.entry ≡ None) volumes.now }
    ensures { IfOk result (λ line. IsLineOf (listed_data geometry.now volumes.now) line.items) }
{
    let value = listed_value(alloc, geometry, volumes)?;
    line_of(alloc, &value)
}
