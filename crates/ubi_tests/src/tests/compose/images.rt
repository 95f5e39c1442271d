//! Images that tests are made of. What is expected is the format's bytes, with CRCs that another program worked out.

use std::alloc::Global;
use std::test::Fail;
use ubi_compose::{compose, parse_spec};
use ubi_media::{Geometry, VidHeader, VolKind};
use ubi_probe::headers::{PIECE_0, PLAIN};
use ubi_probe::pebs::{
    BOOT_FIRST, BOOT_SECOND, COPY_0, COPY_1, Data, Ec, IMAGE, LEB_2, NORMAL_A, NORMAL_B,
    NORMAL_BOOT_0, NORMAL_BOOT_1, NORMAL_C, NORMAL_DAMAGED, NORMAL_FIRST, NORMAL_SECOND, Peb,
    ROOT_FIRST, ROOT_SECOND, Vid, small, small_image, unnumbered_of,
};
use ubi_probe::records::{ROOT, Slot};
use ubi_volume::Meaning;

/// An image of the small geometry.
#[derive(Clone, Copy)]
pub enum Image {
    /// So many bytes 0xFF.
    Blank(usize),
    /// The normal image of no volume.
    NormalTable,
    /// That of a dynamic volume `root` of 20 reserved eraseblocks, whose first three hold bytes 0x41, 0x42 and 0x43;
    /// the same in no image; with 21 reserved eraseblocks; without the last one; and with another byte at the end.
    NormalRoot,
    UnnamedRoot,
    WiderRoot,
    ShorterRoot,
    OtherRoot,
    /// Its eraseblocks in the opposite order; and with erase counters, sequence numbers and a logical eraseblock that
    /// is blank throughout.
    TurnedRoot,
    UsedRoot,
    /// The normal image of a static volume `boot` with the text `ab`; with a byte 0xFF more; and where it is damaged.
    NormalText,
    NormalLongerText,
    NormalDamaged,
    /// That of a text in two pieces; and an image of it with a copy of the first piece.
    NormalPieces,
    CopiedPieces,
}

impl Image {
    /// Its eraseblocks, and whether they name the image.
    fn pebs(&self) -> (&'static [Peb], bool) {
        match self {
            Image::Blank(_) => (&[], false),
            Image::NormalTable => (&NORMAL_TABLE, false),
            Image::NormalRoot => (&NORMAL_ROOT, true),
            Image::UnnamedRoot => (&NORMAL_ROOT, false),
            Image::WiderRoot => (&WIDER_ROOT, true),
            Image::ShorterRoot => (&SHORTER_ROOT, true),
            Image::OtherRoot => (&OTHER_ROOT, true),
            Image::TurnedRoot => (&TURNED_ROOT, true),
            Image::UsedRoot => (&USED_ROOT, true),
            Image::NormalText => (&NORMAL_TEXT, false),
            Image::NormalLongerText => (&NORMAL_LONGER_TEXT, false),
            Image::NormalDamaged => (&DAMAGED, false),
            Image::NormalPieces => (&NORMAL_PIECES, false),
            Image::CopiedPieces => (&COPIED_PIECES, false),
        }
    }

    /// Its bytes.
    pub fn bytes(&self, alloc: Global) -> Result<Vec<u8>, Fail> {
        match (*self, self.pebs()) {
            (Image::Blank(count), _) => Ok(Vec::from_elem(alloc, 0xFF, count)?),
            (_, (pebs, true)) => small_image(alloc, pebs),
            (_, (pebs, false)) => Ok(unnumbered_of(alloc, &small()?, pebs)?),
        }
    }
}

/// What a text composes to, with an image sequence number and spare eraseblocks.
pub fn composed(
    alloc: Global,
    geometry: &Geometry,
    text: &[u8],
    image_seq: u32,
    spares: u32,
) -> Result<Vec<u8>, Fail> {
    let Ok(volumes) = parse_spec(alloc, geometry, text) else {
        return Err("not read".into());
    };
    let Ok(meaning) = Meaning::new(geometry, image_seq, volumes) else {
        return Err("no meaning".into());
    };
    match compose(alloc, &meaning, spares) {
        Ok(image) => Ok(image),
        Err(_) => Err("not composed".into()),
    }
}

static NORMAL_TABLE: [Peb; 2] = [NORMAL_FIRST, NORMAL_SECOND];

static NORMAL_ROOT: [Peb; 5] = [ROOT_FIRST, ROOT_SECOND, NORMAL_A, NORMAL_B, NORMAL_C];

/// The volume `root` with 21 reserved eraseblocks.
const WIDER: Slot = Slot {
    reserved: 21,
    check: 0x60C7_2F21,
    ..ROOT
};

static WIDER_ROOT: [Peb; 5] = [
    Peb(Ec::Normal, COPY_0, Data::Table(&[WIDER])),
    Peb(Ec::Normal, COPY_1, Data::Table(&[WIDER])),
    NORMAL_A,
    NORMAL_B,
    NORMAL_C,
];

static SHORTER_ROOT: [Peb; 4] = [ROOT_FIRST, ROOT_SECOND, NORMAL_A, NORMAL_B];

/// With another byte at the end of the last one.
static OTHER_ROOT: [Peb; 5] = [
    ROOT_FIRST,
    ROOT_SECOND,
    NORMAL_A,
    NORMAL_B,
    Peb(Ec::Normal, LEB_2, Data::Runs(&[(b"C", 383), (b"D", 1)])),
];

static TURNED_ROOT: [Peb; 5] = [NORMAL_C, NORMAL_B, NORMAL_A, ROOT_SECOND, ROOT_FIRST];

/// With sequence numbers, and a logical eraseblock after them that is blank throughout.
static USED_ROOT: [Peb; 6] = [
    Peb(Ec::Of(10, IMAGE), Vid::Leb(0, 2, 0), Data::Fill(b'C', 384)),
    Peb(Ec::Of(11, IMAGE), Vid::Leb(0, 1, 7), Data::Fill(b'B', 384)),
    Peb(Ec::Of(12, IMAGE), Vid::Leb(0, 0, 14), Data::Fill(b'A', 384)),
    Peb(Ec::Of(13, IMAGE), Vid::Table(1, 21), Data::Table(&[ROOT])),
    Peb(Ec::Of(14, IMAGE), Vid::Table(0, 28), Data::Table(&[ROOT])),
    Peb(Ec::Of(15, IMAGE), Vid::Leb(0, 3, 35), Data::Runs(&[])),
];

/// The header of the one logical eraseblock of the static volume `boot` that holds the text `ab`, and where it has a byte 0xFF more.
const TEXT: VidHeader = VidHeader {
    kind: VolKind::Static,
    data_size: 2,
    used_ebs: 1,
    data_crc: 0x617C_B792,
    ..PLAIN
};

const LONGER_TEXT: VidHeader = VidHeader {
    data_size: 3,
    data_crc: 0x3362_6152,
    ..TEXT
};

static NORMAL_TEXT: [Peb; 3] = [
    BOOT_FIRST,
    BOOT_SECOND,
    Peb(
        Ec::Normal,
        Vid::Sealed(TEXT, 0x8A84_5C5B),
        Data::Runs(&[(b"ab", 1)]),
    ),
];

static NORMAL_LONGER_TEXT: [Peb; 3] = [
    BOOT_FIRST,
    BOOT_SECOND,
    Peb(
        Ec::Normal,
        Vid::Sealed(LONGER_TEXT, 0x4A04_8451),
        Data::Runs(&[(b"ab", 1)]),
    ),
];

static DAMAGED: [Peb; 3] = [BOOT_FIRST, BOOT_SECOND, NORMAL_DAMAGED];

static NORMAL_PIECES: [Peb; 4] = [BOOT_FIRST, BOOT_SECOND, NORMAL_BOOT_0, NORMAL_BOOT_1];

/// The header of a copy of the first piece.
const COPIED_PIECE: VidHeader = VidHeader {
    copy_flag: true,
    sqnum: 1,
    ..PIECE_0
};

static COPIED_PIECES: [Peb; 5] = [
    BOOT_FIRST,
    BOOT_SECOND,
    Peb(
        Ec::Normal,
        Vid::Sealed(COPIED_PIECE, 0x76E5_191F),
        Data::Fill(b'A', 384),
    ),
    NORMAL_BOOT_0,
    NORMAL_BOOT_1,
];
