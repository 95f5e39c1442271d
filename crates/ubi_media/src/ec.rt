//! The erase-counter header, which stands at the start of each eraseblock (`ubi-media.h`, `struct ubi_ec_hdr`).

ghost use Rattle.std.specs.Prelude.{◌≡◌, ◌^◌, ◌<◌, ◌++◌, replicate, Some};
ghost use Rattle.ubi_media.specs.ErrorTexts.{ec_fault_name};
ghost use Rattle.ubi_media.specs.Ec.{EcIs, breaks, ec_bytes, ec_fields, ec_front, ec_reading, ec_start, first_fault, judged, offsets_of, sizes_naming, start_by};
ghost use Rattle.ubi_media.specs.Geometry.{IsGeometry};

use crate::bytes::{put_u32, put_u64};
use crate::check::seal;
use crate::geometry::Geometry;
use crate::header::{CHECK, Form, form_of};
use byteorder::{BigEndian, ByteOrder};
use std::error::Error;
use std::fmt;

/// The bytes `UBI#`, with which an erase-counter header begins (`UBI_EC_HDR_MAGIC`).
pub const EC_MAGIC: u32 = 0x5542_4923;

/// The version of the format.
const VERSION: u8 = 1;

/// The largest erase counter (`UBI_MAX_ERASECOUNTER`).
const LARGEST_COUNTER: u64 = 0x7FFF_FFFF;

/// The rule that a header with the right magic and CRC breaks; if it breaks several, the first in this order.
#[derive(Clone, Copy, Debug, PartialEq, Eq)]
pub enum EcFault {
    /// The version isn't 1.
    Version,
    /// The offsets of the volume-identifier header and of the data aren't both the geometry's.
    Offsets,
    /// The erase counter is above 0x7FFFFFFF.
    Counter,
}

impl EcFault {
    /// The name of the fault.
    pub fn name(self) -> &'static str
        ensures { result.now ≡ ec_fault_name self }
    {
        match self {
            EcFault::Version => "Version",
            EcFault::Offsets => "Offsets",
            EcFault::Counter => "Counter",
        }
    }
}

impl fmt::Display for EcFault {
    ghost output = { λ fault. Some (ec_fault_name fault) };

    fn fmt<W: fmt::Write>(&self, f: &mut fmt::Formatter<W>) -> fmt::Result {
        f.write_str(self.name())
    }
}

impl Error for EcFault {}

/// What an erase-counter header says of its eraseblock.
#[derive(Clone, Copy, Debug, PartialEq, Eq)]
pub struct EcHeader {
    /// How often the eraseblock was erased, at most 0x7FFFFFFF.
    pub counter: u32,
    /// The number that the eraseblocks of one image share, or 0.
    pub image_seq: u32,
}

/// What 64 bytes are as an erase-counter header.
#[derive(Clone, Copy, Debug, PartialEq, Eq)]
pub enum EcRead {
    /// 0xFF throughout: the eraseblock is erased and has no header.
    Blank,
    /// Not blank; without the magic, or with it and a wrong CRC.
    Corrupt,
    /// With the magic and the right CRC; the rule that it breaks first.
    Fault(EcFault),
    /// With the magic and the right CRC, and without a fault.
    Valid(EcHeader),
}

/// The offsets of the volume-identifier header and of the data in an eraseblock.
#[derive(Clone, Copy, Debug, PartialEq, Eq)]
pub struct EcOffsets {
    /// The byte of an eraseblock at which its volume-identifier header begins.
    pub vid_offset: u32,
    /// The byte of an eraseblock at which its data begin.
    pub data_offset: u32,
}

/// What 64 bytes are as an erase-counter header if no geometry is known.
#[derive(Clone, Copy, Debug, PartialEq, Eq)]
pub enum EcStart {
    /// 0xFF throughout.
    Blank,
    /// A header that is Valid for the geometries with the offsets that it names.
    Header(EcOffsets),
    /// Anything else.
    Other,
}

/// The fields after the magic, as they stand in the bytes.
#[derive(Clone, Copy)]
struct EcFields {
    version: u8,
    counter: u64,
    vid_offset: u32,
    data_offset: u32,
    image_seq: u32,
}

#[tactic(auto, unfolding(crate::specs::Ec::ec_fields))]
fn fields_of(bytes: &[u8; 64]) -> EcFields
    ensures { result ≡ ec_fields bytes.now }
{
    EcFields {
        version: bytes[4],
        counter: BigEndian::read_u64(&bytes[8..16]),
        vid_offset: BigEndian::read_u32(&bytes[16..20]),
        data_offset: BigEndian::read_u32(&bytes[20..24]),
        image_seq: BigEndian::read_u32(&bytes[24..28]),
    }
}

/// The faults, in the order in which their rules are tried.
const FAULTS: [EcFault; 3] = [EcFault::Version, EcFault::Offsets, EcFault::Counter];

/// Whether the fields break the rule of a fault.
#[tactic(auto, unfolding(crate::specs::Ec::breaks))]
fn breaks(geometry: &Geometry, fields: &EcFields, fault: EcFault) -> bool
    ensures { result ≡ breaks geometry.now fields.now fault }
{
    match fault {
        EcFault::Version => fields.version != VERSION,
        EcFault::Offsets => {
            fields.vid_offset != geometry.vid_offset()
                || fields.data_offset != geometry.data_offset()
        }
        EcFault::Counter => fields.counter > LARGEST_COUNTER,
    }
}

/// The fault of the first rule that the fields break.
#[tactic(auto, unfolding(crate::specs::Ec::first_fault))]
fn fault_of(geometry: &Geometry, fields: &EcFields) -> Option<EcFault>
    ensures { result ≡ first_fault geometry.now fields.now }
{
    FAULTS
        .iter()
        .copied()
        .find(|fault| breaks(geometry, fields, *fault))
}

/// What the fields of a sealed header are.
#[tactic(auto, using(crate::proofs::Readings::counter_within), unfolding(crate::specs::Ec::judged))]
fn judged(geometry: &Geometry, fields: &EcFields) -> EcRead
    ensures { result ≡ judged geometry.now fields.now }
{
    match fault_of(geometry, fields) {
        Some(fault) => EcRead::Fault(fault),
        None => EcRead::Valid(EcHeader {
            counter: fields.counter as u32,
            image_seq: fields.image_seq,
        }),
    }
}

/// What the first 64 bytes of an eraseblock are as its erase-counter header. The padding isn't looked at.
pub fn read_ec(geometry: &Geometry, bytes: &[u8; 64]) -> EcRead
    ensures is { EcIs geometry.now bytes.now result }
    ensures value { result ≡ ec_reading geometry.now bytes.now }
{
    match form_of(EC_MAGIC, bytes) {
        Form::Blank => EcRead::Blank,
        Form::Corrupt => EcRead::Corrupt,
        Form::Sealed => judged(geometry, &fields_of(bytes)),
    }
}

/// What a sealed header is if no geometry is known.
#[tactic(auto, using(crate::proofs::Starts::own_fault), unfolding(crate::specs::Ec::judged))]
fn start_of(fields: &EcFields) -> EcStart
    ensures { result ≡ start_by (offsets_of fields.now) (judged (sizes_naming (offsets_of fields.now)) fields.now) }
{
    if fields.version != VERSION || fields.counter > LARGEST_COUNTER {
        return EcStart::Other;
    }
    EcStart::Header(EcOffsets {
        vid_offset: fields.vid_offset,
        data_offset: fields.data_offset,
    })
}

/// What 64 bytes are as the erase-counter header of an eraseblock whose geometry isn't known: what they are under the
/// offsets that they name.
#[tactic(auto, unfolding(crate::specs::Ec::ec_reading, crate::specs::Ec::ec_start))]
pub fn read_start(bytes: &[u8; 64]) -> EcStart
    ensures { result ≡ ec_start bytes.now }
{
    match form_of(EC_MAGIC, bytes) {
        Form::Blank => EcStart::Blank,
        Form::Corrupt => EcStart::Other,
        Form::Sealed => start_of(&fields_of(bytes)),
    }
}

/// The bytes of a header, with zeros in place of its CRC.
fn front_of(geometry: &Geometry, counter: u32, image_seq: u32) -> [u8; 64]
    ensures bytes { result ≡ ec_front geometry.now (record { counter = counter; image_seq = image_seq }) ++ replicate 4 0 }
    ensures limits { IsGeometry geometry.now }
{
    let mut bytes = [0u8; 64];
    bytes[4] = VERSION;
    put_u32(&mut bytes, 0, EC_MAGIC);
    put_u64(&mut bytes, 8, u64::from(counter));
    put_u32(&mut bytes, 16, geometry.vid_offset());
    put_u32(&mut bytes, 20, geometry.data_offset());
    put_u32(&mut bytes, 24, image_seq);
    bytes
}

/// The bytes of a header: version 1, the geometry's two offsets, zero padding and the right CRC.
///
/// They read back as the header if its counter is at most 0x7FFFFFFF.
pub fn write_ec(geometry: &Geometry, header: &EcHeader) -> [u8; 64]
    ensures bytes { result ≡ ec_bytes geometry.now header.now }
    ensures read_back { header.now.counter < 2 ^ 31 → EcIs geometry.now result (EcRead.Valid header.now) }
{
    let EcHeader { counter, image_seq } = *header;
    let mut bytes = front_of(geometry, counter, image_seq);
    seal(&mut bytes, CHECK);
    bytes
}
