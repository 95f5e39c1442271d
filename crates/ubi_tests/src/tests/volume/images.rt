//! Images of several layers' volumes, and what they mean.

use std::alloc::Global;
use std::process::Abort;
use std::test::Fail;
use ubi_media::{AttachError, GeometryError, VidHeader};
use ubi_probe::headers::{CHECK_OF_41, PADDED, STATIC_0};
use ubi_probe::pebs::{
    A, B, C, Data, FIRST, NAMED, OLD, Peb, RIGHT, SECOND, Vid, WRONG_9, small, small_image,
};
use ubi_probe::records::SMALL_ROOT;
use ubi_probe::texts::bytes_of;
use ubi_volume::{
    Attached, Content, Meaning, ReadError, attach, read_leb, read_volume, volume_len,
};

/// A dynamic volume, three of whose logical eraseblocks hold bytes 0x41, 0x42 and 0x43.
pub const BASE: [Peb; 5] = [FIRST, SECOND, A, B, C];

/// What its 20 logical eraseblocks read.
pub const BASE_TEXT: &[(&[u8], usize)] = &[(b"A", 384), (b"B", 384), (b"C", 384), (b"\xFF", 6528)];

/// A dynamic volume of three logical eraseblocks, the second of which has no place.
pub const HOLED: [Peb; 4] = [
    Peb(NAMED, Vid::Table(0, 0), Data::Table(&[SMALL_ROOT])),
    Peb(NAMED, Vid::Table(1, 0), Data::Table(&[SMALL_ROOT])),
    A,
    Peb(NAMED, Vid::Leb(0, 2, 0), Data::Fill(b'C', 64)),
];

/// A table, and of one logical eraseblock a member, a newer copy that is whole and one that is newer still and isn't, in any order.
pub const OLD_GOOD_BAD: [Peb; 5] = [FIRST, SECOND, OLD, RIGHT, WRONG_9];

pub const OLD_BAD_GOOD: [Peb; 5] = [FIRST, SECOND, OLD, WRONG_9, RIGHT];

pub const GOOD_OLD_BAD: [Peb; 5] = [FIRST, SECOND, RIGHT, OLD, WRONG_9];

pub const GOOD_BAD_OLD: [Peb; 5] = [FIRST, SECOND, RIGHT, WRONG_9, OLD];

pub const BAD_OLD_GOOD: [Peb; 5] = [FIRST, SECOND, WRONG_9, OLD, RIGHT];

pub const BAD_GOOD_OLD: [Peb; 5] = [FIRST, SECOND, WRONG_9, RIGHT, OLD];

/// Logical eraseblock 1, where it leaves 128 bytes free.
pub const PAD: Peb = Peb(
    NAMED,
    Vid::Of(VidHeader { lnum: 1, ..PADDED }),
    Data::Fill(b'B', 256),
);

/// A logical eraseblock of a static volume beyond what a dynamic one reserves.
pub const STATIC_BEYOND: Peb = Peb(
    NAMED,
    Vid::Static(20, 21, 384, CHECK_OF_41),
    Data::Fill(b'A', 384),
);

/// A newer copy of the first logical eraseblock of the text.
pub const NEWER_0: Peb = Peb(
    NAMED,
    Vid::Of(VidHeader {
        copy_flag: true,
        sqnum: 1,
        ..STATIC_0
    }),
    Data::Fill(b'a', 384),
);

/// What an attach of some bytes answers. It has no contract, so that a proof of a caller is spared that of `attach`.
pub fn attach_bytes(
    alloc: Global,
    image: &[u8],
) -> Result<Result<Attached, AttachError>, GeometryError> {
    Ok(attach(alloc, &small()?, image))
}

/// Some eraseblocks, attached.
pub fn attached(alloc: Global, pebs: &[Peb]) -> Result<Attached, Fail> {
    let bytes = small_image(alloc, pebs)?;
    Ok(attach_bytes(alloc, bytes.as_slice())??)
}

/// What a volume reads, or why it isn't read. It has no contract, as `attach_bytes`.
pub fn text_of(alloc: Global, meaning: &Meaning, id: u32) -> Result<Vec<u8>, ReadError> {
    read_volume(alloc, meaning, id)
}

/// What a read into 400 bytes 0xAA answers, and what they are then.
fn read(
    meaning: &Meaning,
    id: u32,
    lnum: u32,
) -> Result<(Result<usize, ReadError>, [u8; 400]), Fail> {
    let mut out = [0xAA; 400];
    if meaning.geometry().leb_size() > 400 {
        return Err("a logical eraseblock has more bytes".into());
    }
    let answer = read_leb(meaning, id, lnum, &mut out);
    Ok((answer, out))
}

/// What a read answers that gives `size` bytes, the first `count` of them `byte`, and the others 0xFF.
fn reading(byte: u8, count: usize, size: usize) -> (Result<usize, ReadError>, [u8; 400]) {
    let mut out = [0xAA; 400];
    out[..size.min(400)].fill(0xFF);
    out[..count.min(400)].fill(byte);
    (Ok(size), out)
}

/// What a logical eraseblock reads.
#[derive(Clone, Copy)]
pub enum Leb {
    /// So many bytes: a byte and how often it stands there, 0xFF after them, and how many there are in all.
    Reads(u8, usize, usize),
    /// It isn't read, and why.
    Not(ReadError),
}

/// What a volume reads as a whole.
#[derive(Clone, Copy)]
pub enum Text {
    /// Bytes, each so many times.
    Reads(&'static [(&'static [u8], usize)]),
    /// It isn't read, and why.
    Not(ReadError),
}

/// Images that mean the same, and what they mean.
#[derive(Clone, Copy)]
pub struct Case {
    /// What each image is, and its eraseblocks.
    pub images: &'static [(&'static str, &'static [Peb])],
    /// The greatest sequence number.
    pub top: u64,
    /// The name of volume 0, where there is one. There are no other volumes.
    pub name: Option<&'static [u8]>,
    /// What some logical eraseblocks read, each by its volume and its number.
    pub lebs: &'static [(u32, u32, Leb)],
    /// What some volumes read.
    pub texts: &'static [(u32, Text)],
    /// What is kept of volume 0.
    pub kept: Kept,
}

/// What a meaning keeps of a volume.
#[derive(Clone, Copy)]
pub enum Kept {
    /// It isn't looked at.
    Any,
    /// Which of its first four logical eraseblocks.
    Lebs([bool; 4]),
    /// That it is damaged.
    Damaged,
}

/// Whether some logical eraseblocks read what is wanted.
fn has_lebs(meaning: &Meaning, want: &[(u32, u32, Leb)]) -> Result<bool, Fail> {
    let mut has = true;
    for (id, lnum, leb) in want {
        let want = match leb {
            Leb::Reads(byte, count, size) => reading(*byte, *count, *size),
            Leb::Not(cause) => (Err(*cause), [0xAA; 400]),
        };
        has = has && read(meaning, *id, *lnum)? == want;
    }
    Ok(has)
}

/// Whether a volume reads what is wanted, and has as many bytes.
fn has_text(alloc: Global, meaning: &Meaning, id: u32, want: &Text) -> Result<bool, Fail> {
    let (text, len) = (text_of(alloc, meaning, id), volume_len(meaning, id));
    match (text, want) {
        (Ok(text), Text::Reads(runs)) => {
            let bytes = bytes_of(alloc, runs)?;
            Ok(text == bytes && len == Ok(bytes.len() as u64))
        }
        (Err(error), Text::Not(cause)) => Ok(error == *cause && len == Err(*cause)),
        _ => Ok(false),
    }
}

/// Whether some volumes read what is wanted.
fn has_texts(alloc: Global, meaning: &Meaning, want: &[(u32, Text)]) -> Result<bool, Fail> {
    let mut has = true;
    for (id, text) in want {
        has = has && has_text(alloc, meaning, *id, text)?;
    }
    Ok(has)
}

/// Whether what is wanted is kept of volume 0.
fn has_kept(meaning: &Meaning, want: &Kept) -> bool {
    let Some(volume) = meaning.get(0) else {
        return matches!(want, Kept::Any);
    };
    match (want, &volume.content) {
        (Kept::Any, _) | (Kept::Damaged, Content::Damaged) => true,
        (Kept::Lebs(want), Content::Dynamic(lebs)) => {
            let mut has = true;
            for (lnum, is_kept) in (0..).zip(want) {
                has = has && lebs.get(lnum).is_some() == *is_kept;
            }
            has
        }
        _ => false,
    }
}

/// Whether a meaning has volume 0 with a name alone, or no volume.
fn has_name(meaning: &Meaning, name: Option<&[u8]>) -> bool {
    match (meaning.volumes().first(), name) {
        (Some((id, volume)), Some(name)) => {
            meaning.volumes().len() == 1 && *id == 0 && volume.entry.name.as_bytes() == name
        }
        (None, None) => true,
        _ => false,
    }
}

/// Whether eraseblocks mean what is wanted.
fn holds(alloc: Global, pebs: &[Peb], case: &Case) -> Result<bool, Fail> {
    let attached = attached(alloc, pebs)?;
    let meaning = attached.meaning();
    Ok(
        attached.top_sqnum() == case.top
            && has_name(meaning, case.name)
            && has_lebs(meaning, case.lebs)?
            && has_texts(alloc, meaning, case.texts)?
            && has_kept(meaning, &case.kept),
    )
}

/// Asserts what the images of each case mean.
pub fn assert_meanings(rt: &impl Abort, alloc: Global, cases: &[Case]) -> Result<(), Fail> {
    for case in cases {
        for (what, pebs) in case.images {
            assert!(*rt; holds(alloc, pebs, case)?, "{what}");
        }
    }
    Ok(())
}
