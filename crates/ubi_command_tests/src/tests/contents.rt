//! What files hold: images, texts and others.

use std::alloc::Global;
use std::test::Fail;
use ubi_probe::header_bytes::OTHER_EC;
use ubi_probe::pebs::{
    A, B, BEYOND, BOOT_0, BOOT_1, C, DROPPED, Data, Ec, FIRST, FIRST_BOOT, FIRST_UPDATING, FREE,
    NAMED, NO_DATA, NORMAL_A, NORMAL_B, NORMAL_C, NORMAL_FIRST, NORMAL_SECOND, OLD, Peb,
    ROOT_FIRST, ROOT_SECOND, SECOND, SECOND_BOOT, SECOND_UPDATING, STATIC_BEYOND, Vid, WORN_A,
    WORN_B, WORN_C, WORN_FIRST, WORN_SECOND, small, small_image, unnumbered_of,
};
use ubi_probe::texts::{bytes_of, overwrite};

/// A copy without its CRC; logical eraseblock 1 without data; and logical eraseblock 3 in no image.
const UNCHECKED: Peb = Peb(NAMED, Vid::Copy(0, 64, 0, 9), Data::Fill(b'9', 64));

const EMPTY_B: Peb = Peb(NAMED, Vid::Leb(0, 1, 0), NO_DATA);

const UNNAMED_EMPTY_D: Peb = Peb(Ec::Unnamed, Vid::Leb(0, 3, 0), NO_DATA);

/// Pieces of a static volume without their CRC, by how many they say that there are.
const UNCHECKED_0: Peb = Peb(NAMED, Vid::Static(0, 5, 384, 0), Data::Fill(b'A', 384));

const UNCHECKED_1: Peb = Peb(NAMED, Vid::Static(1, 6, 384, 0), Data::Fill(b'A', 384));

const UNCHECKED_2: Peb = Peb(NAMED, Vid::Static(2, 5, 384, 0), Data::Fill(b'A', 384));

const UNCHECKED_3: Peb = Peb(NAMED, Vid::Static(3, 7, 384, 0), Data::Fill(b'A', 384));

const UNCHECKED_4: Peb = Peb(NAMED, Vid::Static(4, 5, 384, 0), Data::Fill(b'A', 384));

/// What a file holds.
#[derive(Clone, Copy)]
pub enum Contents {
    /// Bytes that each stand so many times.
    Runs(&'static [(&'static [u8], usize)]),
    /// Eraseblocks, and bytes that stand over theirs, each with their place.
    Pebs(&'static [Peb], &'static [(usize, &'static [u8])]),
    /// These eraseblocks where they name no image, and bytes that stand over theirs.
    Unnumbered(&'static [Peb], &'static [(usize, &'static [u8])]),
    /// Three blank eraseblocks, and bytes that are one too few for one.
    Blank,
    Odd,
    /// The volume `root` with 20 reserved eraseblocks, of which the first three hold bytes 0x41, 0x42 and 0x43, as
    /// `ubinize` writes it; and with two free eraseblocks after it.
    Root,
    Spares,
    /// The first with an eraseblock of another image, so that it is refused.
    Faulty,
    /// What that volume reads.
    RootText,
    /// That image in another order: reversed, with erase counters from 10 on, and after it a logical eraseblock that
    /// is blank throughout.
    Reversed,
    /// An image with an eraseblock of each state but a blank and a free one. It means the volume `root`, whose logical
    /// eraseblock 0 holds bytes 0x35.
    Mixed,
    /// A static volume while it is updated, whose eraseblocks don't agree on how many they are, and have no CRC.
    Updating,
    /// A static volume that has a record and no eraseblock: it reads nothing; and with two, so that it reads 384 bytes 0x41
    /// and a byte 0xFF.
    EmptyBoot,
    WholeBoot,
    /// The normal image of no volume.
    NormalNothing,
    /// That of the volume `root`, whose first three logical eraseblocks hold bytes 0x41, 0x42 and 0x43.
    NormalRoot,
}

/// Nothing.
pub const EMPTY: Contents = Contents::Runs(&[]);

impl Contents {
    /// What it is by its eraseblocks, or by its bytes.
    fn parts(&self) -> Contents {
        match *self {
            Contents::Blank => BLANK,
            Contents::Odd => ODD,
            Contents::Root => ROOT,
            Contents::Spares => SPARES,
            Contents::Faulty => FAULTY,
            Contents::RootText => ROOT_TEXT,
            Contents::Reversed => REVERSED,
            Contents::Mixed => MIXED,
            Contents::Updating => UPDATING,
            Contents::EmptyBoot => EMPTY_BOOT,
            Contents::WholeBoot => WHOLE_BOOT,
            Contents::NormalNothing => NORMAL_NOTHING,
            Contents::NormalRoot => NORMAL_ROOT,
            parts => parts,
        }
    }

    /// The bytes.
    pub fn bytes(&self, alloc: Global) -> Result<Vec<u8>, Fail> {
        let parts = self.parts();
        let mut bytes = parts.plain(alloc)?;
        put_over(bytes.as_mut_slice(), parts.over());
        Ok(bytes)
    }

    /// Those of its eraseblocks, or its own, before others are written over them.
    fn plain(&self, alloc: Global) -> Result<Vec<u8>, Fail> {
        Ok(match *self {
            Contents::Pebs(pebs, _) => small_image(alloc, pebs)?,
            Contents::Unnumbered(pebs, _) => unnumbered_of(alloc, &small()?, pebs)?,
            Contents::Runs(runs) => bytes_of(alloc, runs)?,
            _ => return Err("a name of a name".into()),
        })
    }

    /// What is written over them, each with its place.
    fn over(&self) -> &'static [(usize, &'static [u8])] {
        match *self {
            Contents::Pebs(_, over) | Contents::Unnumbered(_, over) => over,
            _ => &[],
        }
    }
}

/// Writes each of some bytes over others.
pub fn put_over(bytes: &mut [u8], over: &[(usize, &[u8])]) {
    for (at, new) in over {
        overwrite(bytes, *at, new);
    }
}

static BLANK: Contents = Contents::Runs(&[(b"\xFF", 1536)]);

static ODD: Contents = Contents::Runs(&[(b"\xFF", 511)]);

static ROOT: Contents = Contents::Pebs(&[FIRST, SECOND, A, B, C], &[]);

static SPARES: Contents = Contents::Pebs(&[FIRST, SECOND, A, B, C, FREE, FREE], &[]);

static FAULTY: Contents = Contents::Pebs(&[FIRST, SECOND, A, B, C], &[(3 * 512, &OTHER_EC)]);

static ROOT_TEXT: Contents = Contents::Runs(&[
    (b"A", 384),
    (b"B", 384),
    (b"C", 384),
    (b"\xFF", 6528),
]);

static REVERSED: Contents = Contents::Pebs(
    &[
        WORN_C,
        WORN_B,
        WORN_A,
        WORN_SECOND,
        WORN_FIRST,
        UNNAMED_EMPTY_D,
    ],
    &[],
);

static MIXED: Contents = Contents::Unnumbered(
    &[
        FIRST,
        SECOND,
        OLD,
        UNCHECKED,
        BEYOND,
        STATIC_BEYOND,
        EMPTY_B,
        DROPPED,
        FREE,
    ],
    &[(3136, b"u"), (4096, b"u")],
);

static UPDATING: Contents = Contents::Unnumbered(
    &[
        FIRST_UPDATING,
        SECOND_UPDATING,
        UNCHECKED_0,
        UNCHECKED_1,
        UNCHECKED_2,
        UNCHECKED_3,
        UNCHECKED_4,
    ],
    &[],
);

static EMPTY_BOOT: Contents = Contents::Unnumbered(&[FIRST_BOOT, SECOND_BOOT], &[]);

static WHOLE_BOOT: Contents = Contents::Unnumbered(&[FIRST_BOOT, SECOND_BOOT, BOOT_0, BOOT_1], &[]);

static NORMAL_NOTHING: Contents = Contents::Pebs(&[NORMAL_FIRST, NORMAL_SECOND], &[]);

static NORMAL_ROOT: Contents = Contents::Pebs(
    &[ROOT_FIRST, ROOT_SECOND, NORMAL_A, NORMAL_B, NORMAL_C],
    &[],
);
