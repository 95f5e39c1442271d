//! The volume-identifier header, which says to which logical eraseblock an eraseblock belongs (`ubi-media.h`,
//! `struct ubi_vid_hdr`).

ghost use Rattle.std.specs.Prelude.{◌≡◌, ◌++◌, None, replicate, Some};
ghost use Rattle.ubi_media.specs.Geometry.{Sizes};
ghost use Rattle.ubi_media.specs.ErrorTexts.{vid_fault_name};
ghost use Rattle.ubi_media.specs.Vid.{VidIs, breaks, fields_from, first_fault, header_of, judged, kind_number, kind_of, plain, vid_bytes, vid_fault, vid_fields, vid_front, vid_reading};

use crate::bytes::{put_u32, put_u64};
use crate::check::seal;
use crate::geometry::Geometry;
use crate::header::{CHECK, Form, form_of};
use byteorder::{BigEndian, ByteOrder};
use std::error::Error;
use std::fmt;

/// The bytes `UBI!`, with which a volume-identifier header begins (`UBI_VID_HDR_MAGIC`).
pub const VID_MAGIC: u32 = 0x5542_4921;

/// The version of the format.
const VERSION: u8 = 1;

/// The number of the layout volume, which holds the volume table (`UBI_LAYOUT_VOLUME_ID`). Internal volumes have this
/// number and higher ones.
pub const LAYOUT_VOLUME: u32 = 0x7FFF_EFFF;

/// What a system that doesn't know an internal volume has to do: reject the image (`UBI_COMPAT_REJECT`). The layout
/// volume says this.
pub const REJECT: u8 = 5;

/// Users' volumes have the numbers below this one (`UBI_MAX_VOLUMES`).
pub const MOST_VOLUMES: u32 = 128;

/// The least 32-bit number that is negative when it is read as signed.
pub const NEGATIVE: u32 = 0x8000_0000;

/// The number of the type of a dynamic volume (`UBI_VID_DYNAMIC`).
pub const DYNAMIC: u8 = 1;

/// The number of the type of a static volume (`UBI_VID_STATIC`).
pub const STATIC: u8 = 2;

/// The rule that a header with the right magic and CRC breaks; if it breaks several, the first in this order.
#[derive(Clone, Copy, Debug, PartialEq, Eq)]
pub enum VidFault {
    /// The copy flag is neither 0 nor 1.
    CopyFlag,
    /// The volume, the logical eraseblock, the data's size, the used eraseblocks or the padding is 2^31 or more.
    Negative,
    /// The volume is neither a user's nor an internal one: 128 to 0x7FFFEFFE.
    VolumeId,
    /// The compatibility isn't 0 in a user's volume, or isn't 1, 2, 4 or 5 in an internal one.
    Compat,
    /// The type is neither dynamic nor static.
    Kind,
    /// The padding is half a logical eraseblock or more.
    Pad,
    /// The data are larger than a logical eraseblock; or, in a static volume, there are none, they reach into the
    /// padding, or they don't fill a logical eraseblock before the last.
    Size,
    /// A static volume has no used eraseblock, or a dynamic one has some.
    UsedEbs,
    /// The logical eraseblock isn't one of the used ones of its static volume.
    Lnum,
    /// In a dynamic volume the size and the CRC of the data are given without the copy flag, or the size isn't given
    /// with it.
    CopyFields,
}

impl VidFault {
    /// The name of the fault.
    pub fn name(self) -> &'static str
        ensures { result.now ≡ vid_fault_name self }
    {
        match self {
            VidFault::CopyFlag => "CopyFlag",
            VidFault::Negative => "Negative",
            VidFault::VolumeId => "VolumeId",
            VidFault::Compat => "Compat",
            VidFault::Kind => "Kind",
            VidFault::Pad => "Pad",
            VidFault::Size => "Size",
            VidFault::UsedEbs => "UsedEbs",
            VidFault::Lnum => "Lnum",
            VidFault::CopyFields => "CopyFields",
        }
    }
}

impl fmt::Display for VidFault {
    ghost output = { λ fault. Some (vid_fault_name fault) };

    fn fmt<W: fmt::Write>(&self, f: &mut fmt::Formatter<W>) -> fmt::Result {
        f.write_str(self.name())
    }
}

impl Error for VidFault {}

/// How a volume keeps its contents.
#[derive(Clone, Copy, Debug, PartialEq, Eq)]
pub enum VolKind {
    /// In logical eraseblocks, each of which is written by itself (`UBI_VID_DYNAMIC`).
    Dynamic,
    /// As a whole that is written at once, with CRCs (`UBI_VID_STATIC`).
    Static,
}

impl VolKind {
    /// The number of the kind.
    pub(crate) fn number(self) -> u8
        ensures { result ≡ kind_number self }
    {
        match self {
            VolKind::Dynamic => DYNAMIC,
            VolKind::Static => STATIC,
        }
    }

    /// The kind of a number: static of its number, dynamic of any other.
    pub(crate) fn of(number: u8) -> VolKind
        ensures { result ≡ kind_of number }
    {
        if number == STATIC {
            VolKind::Static
        } else {
            VolKind::Dynamic
        }
    }
}

/// What a volume-identifier header says of its eraseblock.
#[derive(Clone, Copy, Debug, PartialEq, Eq)]
pub struct VidHeader {
    /// The kind of the volume.
    pub kind: VolKind,
    /// Whether the data were copied here from another eraseblock, or changed in the copying.
    pub copy_flag: bool,
    /// What has to be done with an internal volume that isn't known: 1 delete, 2 read only, 4 preserve, 5 reject.
    /// A user's volume has 0.
    pub compat: u8,
    /// The number of the volume.
    pub vol_id: u32,
    /// The number of the logical eraseblock in its volume.
    pub lnum: u32,
    /// How many bytes of data `data_crc` covers. 0 in a dynamic volume without the copy flag.
    pub data_size: u32,
    /// How many logical eraseblocks a static volume uses. 0 in a dynamic one.
    pub used_ebs: u32,
    /// How many bytes the volume leaves free at the end of the logical eraseblock, for its alignment.
    pub data_pad: u32,
    /// The CRC of the first `data_size` bytes of the logical eraseblock. 0 in a dynamic volume without the copy flag.
    pub data_crc: u32,
    /// The sequence number: headers are numbered over the whole device, in the order in which they are written.
    pub sqnum: u64,
}

impl VidHeader {
    /// The header of a logical eraseblock that wasn't copied, of no data and with sequence number 0.
    pub fn plain(kind: VolKind, compat: u8, data_pad: u32, vol_id: u32, lnum: u32) -> VidHeader
        ensures { result ≡ plain kind compat data_pad vol_id lnum }
    {
        VidHeader {
            kind,
            copy_flag: false,
            compat,
            vol_id,
            lnum,
            data_size: 0,
            used_ebs: 0,
            data_pad,
            data_crc: 0,
            sqnum: 0,
        }
    }
}

/// What 64 bytes are as a volume-identifier header.
#[derive(Clone, Copy, Debug, PartialEq, Eq)]
pub enum VidRead {
    /// 0xFF throughout: the eraseblock belongs to no logical one.
    Blank,
    /// Not blank; without the magic, or with it and a wrong CRC.
    Corrupt,
    /// With the magic and the right CRC; the rule that it breaks first.
    Fault(VidFault),
    /// With the magic and the right CRC, and without a fault.
    Valid(VidHeader),
}

/// The fields after the magic, as they stand in the bytes.
#[derive(Clone, Copy)]
struct VidFields {
    kind: u8,
    copy_flag: u8,
    compat: u8,
    vol_id: u32,
    lnum: u32,
    data_size: u32,
    used_ebs: u32,
    data_pad: u32,
    data_crc: u32,
    sqnum: u64,
}

#[tactic(auto, unfolding(crate::specs::Vid::vid_fields))]
fn fields_of(bytes: &[u8; 64]) -> VidFields
    ensures { result ≡ vid_fields bytes.now }
{
    VidFields {
        kind: bytes[5],
        copy_flag: bytes[6],
        compat: bytes[7],
        vol_id: BigEndian::read_u32(&bytes[8..12]),
        lnum: BigEndian::read_u32(&bytes[12..16]),
        data_size: BigEndian::read_u32(&bytes[20..24]),
        used_ebs: BigEndian::read_u32(&bytes[24..28]),
        data_pad: BigEndian::read_u32(&bytes[28..32]),
        data_crc: BigEndian::read_u32(&bytes[32..36]),
        sqnum: BigEndian::read_u64(&bytes[40..48]),
    }
}

/// The faults, in the order in which their rules are tried.
const FAULTS: [VidFault; 10] = [
    VidFault::CopyFlag,
    VidFault::Negative,
    VidFault::VolumeId,
    VidFault::Compat,
    VidFault::Kind,
    VidFault::Pad,
    VidFault::Size,
    VidFault::UsedEbs,
    VidFault::Lnum,
    VidFault::CopyFields,
];

/// Whether the fields break the rule of a fault.
#[tactic(auto, unfolding(crate::specs::Vid::breaks))]
fn breaks(geometry: &Geometry, fields: &VidFields, fault: VidFault) -> bool
    ensures { result ≡ breaks geometry.now fields.now fault }
{
    let f = *fields;
    let is_static = f.kind == STATIC;
    match fault {
        VidFault::CopyFlag => f.copy_flag > 1,
        VidFault::Negative => {
            f.vol_id >= NEGATIVE
                || f.lnum >= NEGATIVE
                || f.data_size >= NEGATIVE
                || f.used_ebs >= NEGATIVE
                || f.data_pad >= NEGATIVE
        }
        VidFault::VolumeId => f.vol_id >= MOST_VOLUMES && f.vol_id < LAYOUT_VOLUME,
        VidFault::Compat if f.vol_id < MOST_VOLUMES => f.compat != 0,
        VidFault::Compat => !matches!(f.compat, 1 | 2 | 4 | 5),
        VidFault::Kind => f.kind != DYNAMIC && f.kind != STATIC,
        VidFault::Pad => f.data_pad >= geometry.leb_size() / 2,
        VidFault::Size => breaks_size(geometry, fields),
        VidFault::UsedEbs => is_static == (f.used_ebs == 0),
        VidFault::Lnum => is_static && f.lnum >= f.used_ebs,
        VidFault::CopyFields if is_static => false,
        VidFault::CopyFields if f.copy_flag == 0 => f.data_size != 0 || f.data_crc != 0,
        VidFault::CopyFields => f.data_size == 0,
    }
}

/// Whether the fields break the rule of the data's size.
#[tactic(auto, unfolding(crate::specs::Vid::breaks))]
fn breaks_size(geometry: &Geometry, fields: &VidFields) -> bool
    ensures { result ≡ breaks geometry.now fields.now VidFault.Size }
{
    let f = *fields;
    let leb_size = geometry.leb_size();
    let usable = leb_size.saturating_sub(f.data_pad);
    let is_before_last = f.used_ebs.saturating_sub(f.lnum) > 1;
    let is_wrong_static = f.data_size == 0
        || f.data_size > usable
        || is_before_last && f.data_size != usable;
    f.data_size > leb_size || f.kind == STATIC && is_wrong_static
}

/// The fault of the first rule that the fields break.
#[tactic(auto, unfolding(crate::specs::Vid::first_fault))]
fn fault_of(geometry: &Geometry, fields: &VidFields) -> Option<VidFault>
    ensures { result ≡ first_fault geometry.now fields.now }
{
    FAULTS
        .iter()
        .copied()
        .find(|fault| breaks(geometry, fields, *fault))
}

#[tactic(auto, unfolding(crate::specs::Vid::header_of))]
fn header_of(f: &VidFields) -> VidHeader
    ensures { result ≡ header_of f.now }
{
    VidHeader {
        kind: VolKind::of(f.kind),
        copy_flag: f.copy_flag != 0,
        compat: f.compat,
        vol_id: f.vol_id,
        lnum: f.lnum,
        data_size: f.data_size,
        used_ebs: f.used_ebs,
        data_pad: f.data_pad,
        data_crc: f.data_crc,
        sqnum: f.sqnum,
    }
}

/// What the fields of a sealed header are.
#[tactic(auto, unfolding(crate::specs::Vid::judged))]
fn judged(geometry: &Geometry, fields: &VidFields) -> VidRead
    ensures { result ≡ judged geometry.now fields.now }
{
    match fault_of(geometry, fields) {
        Some(fault) => VidRead::Fault(fault),
        None => VidRead::Valid(header_of(fields)),
    }
}

/// What the 64 bytes at the VID offset of an eraseblock are as its volume-identifier header. The version and the
/// padding aren't looked at.
pub fn read_vid(geometry: &Geometry, bytes: &[u8; 64]) -> VidRead
    ensures is { VidIs geometry.now bytes.now result }
    ensures value { result ≡ vid_reading geometry.now bytes.now }
{
    match form_of(VID_MAGIC, bytes) {
        Form::Blank => VidRead::Blank,
        Form::Corrupt => VidRead::Corrupt,
        Form::Sealed => judged(geometry, &fields_of(bytes)),
    }
}

#[tactic(auto, unfolding(crate::specs::Vid::fields_from))]
fn fields_from(header: &VidHeader) -> VidFields
    ensures { result ≡ fields_from header.now }
{
    VidFields {
        kind: header.kind.number(),
        copy_flag: u8::from(header.copy_flag),
        compat: header.compat,
        vol_id: header.vol_id,
        lnum: header.lnum,
        data_size: header.data_size,
        used_ebs: header.used_ebs,
        data_pad: header.data_pad,
        data_crc: header.data_crc,
        sqnum: header.sqnum,
    }
}

/// The bytes of a header, with zeros in place of its CRC.
fn front_of(fields: VidFields) -> [u8; 64]
    ensures { result ≡ vid_front fields ++ replicate 4 0 }
{
    let mut bytes = [0u8; 64];
    bytes[4] = VERSION;
    bytes[5] = fields.kind;
    bytes[6] = fields.copy_flag;
    bytes[7] = fields.compat;
    put_u32(&mut bytes, 0, VID_MAGIC);
    put_u32(&mut bytes, 8, fields.vol_id);
    put_u32(&mut bytes, 12, fields.lnum);
    put_u32(&mut bytes, 20, fields.data_size);
    put_u32(&mut bytes, 24, fields.used_ebs);
    put_u32(&mut bytes, 28, fields.data_pad);
    put_u32(&mut bytes, 32, fields.data_crc);
    put_u64(&mut bytes, 40, fields.sqnum);
    bytes
}

/// The bytes of a header: version 1, zero padding and the right CRC.
///
/// They read back as the header under a geometry whose rules it keeps.
pub fn write_vid(header: &VidHeader) -> [u8; 64]
    ensures bytes { result ≡ vid_bytes header.now }
    ensures read_back { (s : Sizes) → vid_fault s header.now ≡ None → VidIs s result (VidRead.Valid header.now) }
{
    let mut bytes = front_of(fields_from(header));
    seal(&mut bytes, CHECK);
    bytes
}
