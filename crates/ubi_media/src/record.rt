//! The records of the volume table (`ubi-media.h`, `struct ubi_vtbl_record`).

ghost use Rattle.std.specs.Prelude.{◌≡◌, ◌==◌, ◌≤◌, ◌++◌, Some, None, true, IfSome, option_copied, position, replicate, take};
ghost use Rattle.std.specs.Option.{ForSome};
ghost use Rattle.ubi_media.specs.Name.{is_name};
ghost use Rattle.ubi_media.specs.ErrorTexts.{rec_fault_name};
ghost use Rattle.ubi_media.specs.Record.{RecIs, breaks, data_pad, empty_record, ends_at, fields_from, first_fault, judged, rec_bytes, rec_fault, rec_fields, rec_front, rec_reading, record_of, slot_reading, usable};
ghost use Rattle.ubi_media.specs.Widths.{IsNumberFault};

use crate::bytes::{put, put_u16, put_u32};
use crate::check::{is_sealed, seal};
use crate::geometry::Geometry;
use crate::name::{LONGEST_NAME, VolName, padded};
use crate::vid::{DYNAMIC, NEGATIVE, STATIC, VolKind};
use byteorder::{BigEndian, ByteOrder};
use std::error::Error;
use std::fmt;

/// The size of a record in bytes (`UBI_VTBL_RECORD_SIZE`).
pub const RECORD_SIZE: usize = 172;

/// The offset of the CRC in a record.
const CHECK: usize = 168;

/// The CRC of the empty record: that of 168 zeros.
const EMPTY_CHECK: u32 = 0xF116_C36B;

/// The rule that a record with the right CRC breaks; if it breaks several, the first in this order.
#[derive(Clone, Copy, Debug, PartialEq, Eq)]
pub enum RecFault {
    /// No eraseblock is reserved, but it isn't the empty record.
    NotEmpty,
    /// A number that has to be below 2^31 isn't.
    Negative,
    /// The alignment is 0 or above the bytes of a logical eraseblock.
    Alignment,
    /// The alignment is neither 1 nor a multiple of the page.
    AlignmentPage,
    /// The padding of a logical eraseblock isn't what its alignment leaves over.
    DataPad,
    /// The type is neither dynamic nor static.
    Kind,
    /// The update marker is neither 0 nor 1.
    Marker,
    /// The length of the name is above 127.
    NameTooLong,
    /// The name begins with a zero byte.
    NameBlank,
    /// The length of the name isn't the offset of its first zero byte.
    NameLength,
}

impl RecFault {
    /// The name of the fault.
    pub fn name(self) -> &'static str
        ensures { result.now ≡ rec_fault_name self }
    {
        match self {
            RecFault::NotEmpty => "NotEmpty",
            RecFault::Negative => "Negative",
            RecFault::Alignment => "Alignment",
            RecFault::AlignmentPage => "AlignmentPage",
            RecFault::DataPad => "DataPad",
            RecFault::Kind => "Kind",
            RecFault::Marker => "Marker",
            RecFault::NameTooLong => "NameTooLong",
            RecFault::NameBlank => "NameBlank",
            RecFault::NameLength => "NameLength",
        }
    }
}

impl fmt::Display for RecFault {
    ghost output = { λ fault. Some (rec_fault_name fault) };

    fn fmt<W: fmt::Write>(&self, f: &mut fmt::Formatter<W>) -> fmt::Result {
        f.write_str(self.name())
    }
}

impl Error for RecFault {}

/// What a record of the volume table says of its volume.
#[derive(Clone, Copy, Debug, PartialEq, Eq)]
pub struct VolumeRecord {
    /// How many eraseblocks are reserved for the volume, at least 1.
    pub reserved: u32,
    /// The volume uses a multiple of this many bytes of each logical eraseblock: 1, or a multiple of the page.
    pub alignment: u32,
    /// The kind of the volume.
    pub kind: VolKind,
    /// Whether an update of the volume began and didn't end.
    pub marker: bool,
    /// The name of the volume.
    pub name: VolName,
    /// The flags of the volume: 0x01 says that it grows to the size of the device, 0x02 that its CRC isn't checked.
    /// Other bits are kept as they are.
    pub flags: u8,
}

/// What 172 bytes are as a record of the volume table.
#[derive(Clone, Copy, Debug, PartialEq, Eq)]
pub enum RecRead {
    /// Zeros and their CRC: the slot has no volume.
    Empty,
    /// With a wrong CRC.
    BadCrc,
    /// With the right CRC and not empty; the rule that it breaks first.
    Fault(RecFault),
    /// With the right CRC, not empty, and without a fault.
    Valid(VolumeRecord),
}

/// The fields, as they stand in the bytes.
#[derive(Clone, Copy)]
struct RecFields {
    reserved: u32,
    alignment: u32,
    data_pad: u32,
    kind: u8,
    marker: u8,
    name_len: u16,
    name: [u8; 128],
    flags: u8,
}

#[tactic(auto, unfolding(crate::specs::Record::rec_fields))]
fn fields_of(bytes: &[u8; RECORD_SIZE]) -> RecFields
    ensures { result ≡ rec_fields bytes.now }
{
    let mut name = [0u8; 128];
    name.copy_from_slice(&bytes[16..144]);
    RecFields {
        reserved: BigEndian::read_u32(&bytes[0..4]),
        alignment: BigEndian::read_u32(&bytes[4..8]),
        data_pad: BigEndian::read_u32(&bytes[8..12]),
        kind: bytes[12],
        marker: bytes[13],
        name_len: BigEndian::read_u16(&bytes[14..16]),
        name,
        flags: bytes[144],
    }
}

/// The offset of the first zero byte.
fn first_zero(name: &[u8]) -> Option<usize>
    ensures { result ≡ position (λ byte. byte == 0) name.now }
{
    name.iter().position(|byte| *byte == 0)
}

/// Whether the first zero byte of a name's bytes stands at a place.
fn ends_at(name: &[u8; 128], at: u16) -> bool
    ensures { result ≡ ends_at name.now at }
{
    match first_zero(name) {
        Some(place) => place == usize::from(at),
        None => false,
    }
}

/// The faults, in the order in which their rules are tried.
const FAULTS: [RecFault; 10] = [
    RecFault::NotEmpty,
    RecFault::Negative,
    RecFault::Alignment,
    RecFault::AlignmentPage,
    RecFault::DataPad,
    RecFault::Kind,
    RecFault::Marker,
    RecFault::NameTooLong,
    RecFault::NameBlank,
    RecFault::NameLength,
];

/// Whether the fields break the rule of a fault.
#[tactic(auto, unfolding(crate::specs::Record::breaks))]
fn breaks(geometry: &Geometry, fields: &RecFields, fault: RecFault) -> bool
    ensures { result ≡ breaks geometry.now fields.now fault }
{
    let f = *fields;
    let leb_size = geometry.leb_size();
    match fault {
        RecFault::NotEmpty => f.reserved == 0,
        RecFault::Negative => {
            f.reserved >= NEGATIVE || f.alignment >= NEGATIVE || f.data_pad >= NEGATIVE
        }
        RecFault::Alignment => f.alignment == 0 || f.alignment > leb_size,
        RecFault::AlignmentPage => f.alignment != 1 && f.alignment % geometry.page() != 0,
        RecFault::DataPad => f.alignment != 0 && f.data_pad != leb_size % f.alignment,
        RecFault::Kind => f.kind != DYNAMIC && f.kind != STATIC,
        RecFault::Marker => f.marker > 1,
        RecFault::NameTooLong => usize::from(f.name_len) > LONGEST_NAME,
        RecFault::NameBlank => f.name[0] == 0,
        RecFault::NameLength => !ends_at(&f.name, f.name_len),
    }
}

/// The fault of the first rule that the fields break.
#[tactic(auto, unfolding(crate::specs::Record::first_fault))]
fn fault_of(geometry: &Geometry, fields: &RecFields) -> Option<RecFault>
    ensures { result ≡ first_fault geometry.now fields.now }
{
    FAULTS
        .iter()
        .copied()
        .find(|fault| breaks(geometry, fields, *fault))
}

#[tactic(auto, unfolding(crate::specs::Record::record_of))]
fn record_of(f: &RecFields) -> VolumeRecord
    requires room { f.now.name_len ≤ 127 }
    requires name { is_name (take f.now.name_len f.now.name) ≡ true }
    ensures { result ≡ record_of f.now }
{
    VolumeRecord {
        reserved: f.reserved,
        alignment: f.alignment,
        kind: VolKind::of(f.kind),
        marker: f.marker != 0,
        name: VolName::new(&f.name[..usize::from(f.name_len)]).unwrap(),
        flags: f.flags,
    }
}

/// What the fields of a sealed record are, if it isn't the empty one.
#[tactic(auto, unfolding(crate::specs::Record::judged))]
fn judged(geometry: &Geometry, fields: &RecFields) -> RecRead
    ensures { result ≡ judged geometry.now fields.now }
{
    match fault_of(geometry, fields) {
        Some(fault) => RecRead::Fault(fault),
        None => RecRead::Valid(record_of(fields)),
    }
}

/// The empty record.
fn empty_record() -> [u8; RECORD_SIZE]
    ensures { result ≡ empty_record }
{
    let mut bytes = [0u8; RECORD_SIZE];
    put_u32(&mut bytes, CHECK, EMPTY_CHECK);
    bytes
}

/// What 172 bytes are as a record of the volume table. The bytes after the zero that ends the name aren't looked at,
/// and neither is the padding, except in the empty record.
///
/// A record that is Valid breaks no rule: [`rec_fault`] of it is `None`.
pub fn read_rec(geometry: &Geometry, bytes: &[u8; RECORD_SIZE]) -> RecRead
    ensures is { RecIs geometry.now bytes.now result }
    ensures value { result ≡ rec_reading geometry.now bytes.now }
    ensures sound { (r : VolumeRecord) → result ≡ RecRead.Valid r → rec_fault geometry.now r ≡ None }
{
    if !is_sealed(bytes, CHECK) {
        return RecRead::BadCrc;
    }
    if *bytes == empty_record() {
        return RecRead::Empty;
    }
    judged(geometry, &fields_of(bytes))
}

#[tactic(auto, unfolding(crate::specs::Record::fields_from))]
fn fields_from(geometry: &Geometry, volume: &VolumeRecord) -> RecFields
    ensures value { result ≡ fields_from geometry.now volume.now }
    ensures name { is_name volume.now.name ≡ true }
{
    let VolumeRecord {
        reserved,
        alignment,
        kind,
        marker,
        flags,
        ..
    } = *volume;
    let name = volume.name.as_bytes();
    RecFields {
        reserved,
        alignment,
        data_pad: geometry.leb_size().checked_rem(alignment).unwrap_or(0),
        kind: kind.number(),
        marker: u8::from(marker),
        name_len: name.len() as u16,
        name: padded(name),
        flags,
    }
}

/// The fault of the first rule that a record breaks. `None`, or a rule of the reserved eraseblocks or of the
/// alignment, since no value can break the others.
pub fn rec_fault(geometry: &Geometry, volume: &VolumeRecord) -> Option<RecFault>
    ensures value { result ≡ rec_fault geometry.now volume.now }
    ensures number { IfSome result IsNumberFault }
{
    fault_of(geometry, &fields_from(geometry, volume))
}

impl VolumeRecord {
    /// How many bytes the volume leaves free at the end of each logical eraseblock, for its alignment.
    ///
    /// The record has to break no rule: [`rec_fault`] is `None`.
    pub fn data_pad(&self, geometry: &Geometry) -> u32
        requires { rec_fault geometry.now self.now ≡ None }
        ensures { result ≡ data_pad geometry.now self.now }
    {
        geometry.leb_size() % self.alignment
    }

    /// How many bytes of a logical eraseblock the volume uses: a multiple of its alignment, above 0.
    ///
    /// The record has to break no rule: [`rec_fault`] is `None`.
    pub fn usable(&self, geometry: &Geometry) -> u32
        requires { rec_fault geometry.now self.now ≡ None }
        ensures value { result ≡ usable geometry.now self.now }
        ensures some { 1 ≤ result }
    {
        geometry.leb_size() - self.data_pad(geometry)
    }
}

/// The bytes of a record, with zeros in place of its CRC.
fn front_of(geometry: &Geometry, volume: &VolumeRecord) -> [u8; RECORD_SIZE]
    requires { rec_fault geometry.now volume.now ≡ None }
    ensures { result ≡ rec_front geometry.now volume.now ++ replicate 4 0 }
{
    let fields = fields_from(geometry, volume);
    let mut bytes = [0u8; RECORD_SIZE];
    bytes[12] = fields.kind;
    bytes[13] = fields.marker;
    bytes[144] = fields.flags;
    put_u32(&mut bytes, 0, fields.reserved);
    put_u32(&mut bytes, 4, fields.alignment);
    put_u32(&mut bytes, 8, fields.data_pad);
    put_u16(&mut bytes, 14, fields.name_len);
    put(&mut bytes, 16, &fields.name);
    bytes
}

/// The bytes of a slot of the volume table: of its record, with zeros after its name, zero padding and the right
/// CRC; or of the empty record. They read back as what they were made from.
///
/// The record has to break no rule: [`rec_fault`] is `None`.
pub fn write_rec(geometry: &Geometry, volume: Option<&VolumeRecord>) -> [u8; RECORD_SIZE]
    requires { ForSome (option_copied volume) (λ r. rec_fault geometry.now r ≡ None) }
    ensures bytes { result ≡ rec_bytes geometry.now (option_copied volume.entry) }
    ensures read_back { RecIs geometry.now result (slot_reading (option_copied volume.entry)) }
{
    match volume {
        None => empty_record(),
        Some(volume) => {
            let mut bytes = front_of(geometry, volume);
            seal(&mut bytes, CHECK);
            bytes
        }
    }
}
