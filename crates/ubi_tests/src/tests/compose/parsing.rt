//! Reading the composer's text.

use super::images::{Image, composed};
use std::alloc::Global;
use std::test::Fail;
use ubi_compose::{SpecCause, SpecError, parse_spec};
use ubi_media::{RecFault, VolKind, VolName, VolumeRecord};
use ubi_probe::pebs::small;
use ubi_probe::texts::{ROOT_TEXT, bytes_of};
use ubi_volume::{Bytes, Content, Lebs, Volume};

/// The number and the cause of the first line of a text at fault.
fn cause(alloc: Global, text: &[u8]) -> Result<Option<(u32, SpecCause)>, Fail> {
    match parse_spec(alloc, &small()?, text) {
        Ok(_) => Ok(None),
        Err(SpecError::Refused { line, cause }) => Ok(Some((line, cause))),
        Err(SpecError::Memory) => Err("out of memory".into()),
    }
}

/// A record of 3 reserved eraseblocks.
fn record(kind: VolKind, name: &[u8]) -> Result<VolumeRecord, Fail> {
    Ok(VolumeRecord {
        reserved: 3,
        alignment: 1,
        kind,
        marker: false,
        name: VolName::new(name).ok_or("no name")?,
        flags: 0,
    })
}

/// A text, and the number and the cause of its first line at fault, if one is.
static CAUSES: [(&[u8], Option<(u32, SpecCause)>); 20] = [
    (b"", None),
    (b"\n", None),
    (
        b"# a\n\nvolume 0 dynamic 20 1 00 root\nleb 0 1",
        Some((4, SpecCause::Word)),
    ),
    (
        b"volume 0 dynamic 20 1 00 root\nleb 0  1 61",
        Some((2, SpecCause::Word)),
    ),
    (
        b"volume 0 dynamic 20 1 00 root\r\n",
        Some((1, SpecCause::Word)),
    ),
    (
        b"volume 0 dynamic 20 1 00 root a b c d",
        Some((1, SpecCause::Word)),
    ),
    (b" # a", Some((1, SpecCause::Word))),
    (
        b"volume 0 dynamic 020 1 00 root",
        Some((1, SpecCause::Number)),
    ),
    (b"volume 4294967295 dynamic 20 1 00 root", None),
    (
        b"volume 4294967296 dynamic 20 1 00 root",
        Some((1, SpecCause::Number)),
    ),
    (b"volume 0 dynamic 20 1 0 root", Some((1, SpecCause::Hex))),
    (
        b"volume 0 dynamic 20 1 00 root\nleb 0 1 6",
        Some((2, SpecCause::Hex)),
    ),
    (
        b"volume 0 dynamic 20 1 00 a\\x00",
        Some((1, SpecCause::Name)),
    ),
    // What the lines above forbid.
    (
        b"volume 0 dynamic 20 1 00 root\nvolume 0 dynamic 20 1 00 root",
        Some((2, SpecCause::Order)),
    ),
    (
        b"volume 0 dynamic 20 1 00 root\nbytes 0 61",
        Some((2, SpecCause::Order)),
    ),
    (
        b"volume 0 dynamic 20 1 00 root\nleb 1 0 61",
        Some((2, SpecCause::Order)),
    ),
    (
        b"volume 0 dynamic 20 1 00 root\nleb 0 1 61\nupdating 0\n",
        Some((3, SpecCause::Order)),
    ),
    (
        b"volume 0 dynamic 0 1 00 root",
        Some((1, SpecCause::Record(RecFault::NotEmpty))),
    ),
    (
        b"volume 0 dynamic 20 65 00 root",
        Some((1, SpecCause::Record(RecFault::AlignmentPage))),
    ),
    (
        b"volume 0 dynamic 20 1 00 root\nleb 0 1 61\nleb 0 1 61\n",
        Some((3, SpecCause::Twice)),
    ),
];

/// The same of texts that are bytes, each so many times.
static LONG: [(&[(&[u8], usize)], Option<(u32, SpecCause)>); 2] = [
    (
        &[
            (b"volume 0 dynamic 20 1 00 root\nleb 0 0 ", 1),
            (b"61", 384),
        ],
        None,
    ),
    (
        &[
            (b"volume 0 dynamic 20 1 00 root\nleb 0 0 ", 1),
            (b"61", 384),
            (b"\nleb 0 1 ", 1),
            (b"61", 385),
        ],
        Some((3, SpecCause::Long)),
    ),
];

#[test]
fn tells_the_first_line_at_fault(rt: HostRuntime) -> Result<(), Fail> {
    let alloc = rt.alloc();
    for (index, (text, want)) in CAUSES.iter().enumerate() {
        assert!(rt; cause(alloc, text)? == *want, "case {index}");
    }
    for (text, want) in &LONG {
        let text = bytes_of(alloc, text)?;
        assert!(rt; cause(alloc, text.as_slice())? == *want);
    }
    Ok(())
}

/// A text that gives a volume of each content.
const FOUR: &[u8] = b"volume 7 static 3 1 00 text\nvolume 2 dynamic 3 1 00 map\n\
    volume 3 dynamic 3 1 00 half\nvolume 0 static 3 1 00 torn\n\
    bytes 7 61\nleb 2 1 6Aff\nupdating 3\nbytes 7 6263\ndamaged 0\n";

/// What its second volume holds: logical eraseblock 1, filled up with 0xFF.
fn one_leb(alloc: Global) -> Result<Content, Fail> {
    let mut leb = Vec::new(alloc);
    leb.push(0x6A)?;
    leb.resize(384, 0xFF)?;
    let mut lebs = Lebs::new(alloc);
    lebs.insert(1, Bytes::new(leb))?;
    Ok(Content::Dynamic(lebs))
}

/// The volumes of the text.
fn four(alloc: Global) -> Result<[(u32, Volume); 4], Fail> {
    let mut half = record(VolKind::Dynamic, b"half")?;
    half.marker = true;
    Ok([
        (
            7,
            Volume {
                entry: record(VolKind::Static, b"text")?,
                content: Content::Static(Bytes::new(Vec::from_slice(alloc, b"abc")?)),
            },
        ),
        (
            2,
            Volume {
                entry: record(VolKind::Dynamic, b"map")?,
                content: one_leb(alloc)?,
            },
        ),
        (
            3,
            Volume {
                entry: half,
                content: Content::Updating,
            },
        ),
        (
            0,
            Volume {
                entry: record(VolKind::Static, b"torn")?,
                content: Content::Damaged,
            },
        ),
    ])
}

#[test]
fn gives_the_volumes_of_a_text(rt: HostRuntime) -> Result<(), Fail> {
    let want = four(rt.alloc())?;
    let Ok(volumes) = parse_spec(rt.alloc(), &small()?, FOUR) else {
        return Err("not read".into());
    };
    assert!(rt; volumes.as_slice() == want.as_slice());
    Ok(())
}

/// A text, as bytes that each stand so many times, an image sequence number, and the image that it composes to.
static COMPOSED: [(&[(&[u8], usize)], u32, Image); 2] = [
    (ROOT_TEXT, 0x1234_5678, Image::NormalRoot),
    (
        &[(b"volume 0 static 3 1 00 boot\ndamaged 0", 1)],
        0,
        Image::NormalDamaged,
    ),
];

#[test]
fn composes_texts(rt: HostRuntime) -> Result<(), Fail> {
    for (text, image_seq, want) in &COMPOSED {
        let text = bytes_of(rt.alloc(), text)?;
        let image = composed(rt.alloc(), &small()?, text.as_slice(), *image_seq, 0)?;
        assert!(rt; image == want.bytes(rt.alloc())?);
    }
    Ok(())
}
