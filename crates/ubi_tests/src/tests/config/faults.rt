//! The first fault of a config.

use std::alloc::{AllocError, Global};
use std::test::Fail;
use ubi_config::{ConfigCause, ConfigError, Key, parse_config};
use ubi_probe::texts::bytes_of;

/// The number and the cause of the first fault of a text.
fn fault(alloc: Global, text: &[u8]) -> Result<Option<(u32, ConfigCause)>, Fail> {
    match parse_config(alloc, text) {
        Ok(_) => Ok(None),
        Err(ConfigError::Refused { line, cause }) => Ok(Some((line, cause))),
        Err(ConfigError::Memory) => Err("out of memory".into()),
    }
}

/// A text, and the number and the cause of its first fault, if it has one.
static FAULTS: [(&[u8], Option<(u32, ConfigCause)>); 56] = [
    // A line by itself.
    (b"[v]\n# a\\\nmode=ubi", Some((2, ConfigCause::Line))),
    (b"[v]\n# a\0\nmode=ubi", Some((2, ConfigCause::Line))),
    (b"[v]\nimage=a\\\r\n", Some((2, ConfigCause::Line))),
    (b"[v", Some((1, ConfigCause::Form))),
    (b"\n[ ]", Some((2, ConfigCause::Form))),
    (b"[v] # a", Some((1, ConfigCause::Form))),
    (b"[v]]", Some((1, ConfigCause::Form))),
    (b"[v:w]", Some((1, ConfigCause::Form))),
    (b"[v]\nmode ubi", Some((2, ConfigCause::Form))),
    (b"[v]\nmod=ubi", Some((2, ConfigCause::Key))),
    (b"[v]\n=ubi", Some((2, ConfigCause::Key))),
    (b"[v]\nmode=", Some((2, ConfigCause::Value))),
    (b"[v]\nmode= # ubi", Some((2, ConfigCause::Value))),
    (b"[v]\nmode=\"\"", Some((2, ConfigCause::Value))),
    (b"[v]\nmode=\"ubi", Some((2, ConfigCause::Value))),
    (b"[v]\nmode=\"ubi'", Some((2, ConfigCause::Value))),
    (b"[v]\nmode='ubi' a", Some((2, ConfigCause::Value))),
    (b"[v]\nmode='ubi '", Some((2, ConfigCause::Value))),
    (b"[v]\nmode=UBI", Some((2, ConfigCause::Unfit))),
    (b"[v]\nvol_type=Static", Some((2, ConfigCause::Unfit))),
    (b"[v]\nvol_flags=01", Some((2, ConfigCause::Unfit))),
    (b"[v]\nvol_flags=skip_check", Some((2, ConfigCause::Unfit))),
    (
        b"[v]\nvol_flags=autoresize,skip-check",
        Some((2, ConfigCause::Unfit)),
    ),
    (b"[v]\nvol_id=010", Some((2, ConfigCause::Unfit))),
    (b"[v]\nvol_id=+1", Some((2, ConfigCause::Unfit))),
    (b"[v]\nvol_id=4294967296", Some((2, ConfigCause::Unfit))),
    (b"[v]\nvol_alignment=0x1", Some((2, ConfigCause::Unfit))),
    (b"[v]\nvol_size=0", Some((2, ConfigCause::Unfit))),
    (b"[v]\nvol_size=KiB", Some((2, ConfigCause::Unfit))),
    (b"[v]\nvol_size=1kiB", Some((2, ConfigCause::Unfit))),
    (b"[v]\nvol_size=1\x0BKiB", Some((2, ConfigCause::Unfit))),
    (
        b"[v]\nvol_size=8589934592 GiB",
        Some((2, ConfigCause::Unfit)),
    ),
    // A line by those above it.
    (b"mode=ubi\n[v]", Some((1, ConfigCause::NoSection))),
    (b"[v]\n[w]\n[ V ]", Some((3, ConfigCause::Again))),
    (b"[v]\nmode=ubi\nMODE = ubi", Some((3, ConfigCause::Again))),
    (
        b"[v]\nvol_id=7\n[w]\nvol_id=7",
        Some((4, ConfigCause::SameId)),
    ),
    (
        b"[v]\nvol_name=a\n[w]\nvol_name='a'",
        Some((4, ConfigCause::SameName)),
    ),
    (
        b"[v]\nvol_flags=autoresize\n[w]\nvol_flags=autoresize",
        Some((4, ConfigCause::Autoresize)),
    ),
    (
        b"[v]\nvol_flags=autoresize\nvol_flags=skip-check",
        Some((3, ConfigCause::Again)),
    ),
    (
        b"[v]\nvol_flags=skip-check\n[w]\nvol_flags=skip-check",
        Some((1, ConfigCause::Missing(Key::Mode))),
    ),
    // The first line decides, and a line before any section.
    (
        b"[v]\nmode=ubi\nmode=a\nmode=b",
        Some((3, ConfigCause::Unfit)),
    ),
    (b"[v]\n[w]\nfoo=1\n[v]", Some((3, ConfigCause::Key))),
    (
        b"[v]\n\nvol_id=1\nvol_id=1\n[v]",
        Some((4, ConfigCause::Again)),
    ),
    // What a section lacks.
    (b"\n[v]\n[w]\n", Some((2, ConfigCause::Missing(Key::Mode)))),
    (b"\n[v]\nmode=ubi", Some((2, ConfigCause::Missing(Key::Id)))),
    (
        b"[v]\nmode=ubi\nvol_id=1",
        Some((1, ConfigCause::Missing(Key::Name))),
    ),
    (
        b"[v]\nmode=ubi\nvol_id=1\nvol_name=a",
        Some((1, ConfigCause::Missing(Key::Image))),
    ),
    (
        b"[v]\nmode=ubi\nvol_id=1\nvol_name=a\nvol_type=static\nvol_size=9",
        Some((1, ConfigCause::Missing(Key::Image))),
    ),
    (
        b"[v]\nmode=ubi\nvol_id=1\nvol_name=a\nvol_size=9\n[w]",
        Some((6, ConfigCause::Missing(Key::Mode))),
    ),
    // A dynamic volume has no CRC to skip.
    (
        b"\n[v]\nvol_flags=skip-check\nmode=ubi\nvol_id=1\nvol_name=a\nimage=a",
        Some((2, ConfigCause::SkipCheck)),
    ),
    (
        b"[v]\nvol_flags=skip-check\nmode=ubi\nvol_id=1\nvol_name=a",
        Some((1, ConfigCause::Missing(Key::Image))),
    ),
    // What is read: also a text without a section.
    (b"", None),
    (b"# a\n\n", None),
    (b"[v]\nmode=ubi\nvol_id=1\nvol_name=a\nvol_size=9", None),
    (
        b"[v]\nmode=ubi\nvol_id=4294967295\nvol_name=a\nimage=a",
        None,
    ),
    (
        b"[v]\nmode=ubi\nvol_id=0\nvol_name=a\nvol_alignment=0\nvol_size=9223372036854775807",
        None,
    ),
];

/// The same of texts that are bytes, each so many times: the longest lines and names of sections.
static LONG: [(&[(&[u8], usize)], Option<(u32, ConfigCause)>); 4] = [
    (&[(b"#", 1022)], None),
    (&[(b"\n", 1), (b" ", 1023)], Some((2, ConfigCause::Line))),
    (
        &[(b"[", 1), (b"v", 128), (b"]\n", 1)],
        Some((1, ConfigCause::Missing(Key::Mode))),
    ),
    (
        &[(b"[", 1), (b"v", 129), (b"]", 1)],
        Some((1, ConfigCause::Form)),
    ),
];

/// The headings of so many sections, each named by two letters.
fn headings(alloc: Global, count: usize) -> Result<Vec<u8>, AllocError> {
    let mut text = Vec::new(alloc);
    for place in 0..count {
        let letters = [b'a' + (place / 16 % 16) as u8, b'a' + (place % 16) as u8];
        text.extend_from_slice(b"[")?;
        text.extend_from_slice(&letters)?;
        text.extend_from_slice(b"]\n")?;
    }
    Ok(text)
}

/// How many sections there are, and the first fault.
static MANY: [(usize, (u32, ConfigCause)); 2] = [
    (128, (1, ConfigCause::Missing(Key::Mode))),
    (129, (129, ConfigCause::TooMany)),
];

#[test]
fn tells_the_first_fault(rt: HostRuntime) -> Result<(), Fail> {
    for (index, (text, want)) in FAULTS.iter().enumerate() {
        assert!(rt; fault(rt.alloc(), text)? == *want, "case {index}");
    }
    for (index, (runs, want)) in LONG.iter().enumerate() {
        let text = bytes_of(rt.alloc(), runs)?;
        assert!(rt;
            fault(rt.alloc(), text.as_slice())? == *want,
            "long {index}"
        );
    }
    for (count, want) in &MANY {
        let text = headings(rt.alloc(), *count)?;
        assert!(rt;
            fault(rt.alloc(), text.as_slice())? == Some(*want),
            "{count} sections"
        );
    }
    Ok(())
}
