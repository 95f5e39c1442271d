//! The sections of a config.

use std::test::Fail;
use ubi_config::{ConfigError, Section, Text, parse_config};
use ubi_media::{VolKind, VolName};

/// What a section is wanted to be.
struct Wanted {
    line: u32,
    id: u32,
    name: &'static [u8],
    kind: VolKind,
    alignment: u32,
    flags: u8,
    size: Option<u64>,
    image: Option<&'static [u8]>,
}

/// Whether a section names the image that is wanted.
fn is_image(path: &Option<Text>, want: Option<&[u8]>) -> bool {
    match (path, want) {
        (Some(path), Some(want)) => path.as_bytes() == want,
        (None, None) => true,
        _ => false,
    }
}

/// Whether a section is as wanted.
fn is_wanted(section: &Section, want: &Wanted) -> bool {
    section.line == want.line
        && section.id == want.id
        && Some(section.name) == VolName::new(want.name)
        && section.kind == want.kind
        && section.alignment == want.alignment
        && section.flags == want.flags
        && section.size == want.size
        && is_image(&section.image, want.image)
}

/// The example of ubinize's manual.
const MANUAL: &[u8] =
    b"[jffs2-volume]\nmode=ubi\nimage=../jffs2.img\nvol_id=1\nvol_size=30MiB\nvol_type=dynamic\n\
    vol_name=jffs2_volume\nvol_flags=autoresize\nvol_alignment=1\n";

/// A text with quotes, remarks, blanks and letters of both cases.
const MIXED: &[u8] = b"# a remark\r\n\r\n [ Boot ] \r\n\tMode = ubi ; a volume\r\nVOL_ID\t=\t7\r\n\
    vol_name = \"a;b 'c'\" # quoted\r\nimage = a=b\"c\" d # plain\r\nvol_type = 'static'\r\nvol_flags = \"skip-check\"\r\n\
    [w]\nvol_alignment=2048\nvol_size= 16 \t KiB\nvol_name=w\nvol_id=0\nmode='ubi'";

/// A text, and the sections that it gives.
static SECTIONS: [(&[u8], &[Wanted]); 2] = [
    (
        MANUAL,
        &[Wanted {
            line: 1,
            id: 1,
            name: b"jffs2_volume",
            kind: VolKind::Dynamic,
            alignment: 1,
            flags: 1,
            size: Some(31_457_280),
            image: Some(b"../jffs2.img"),
        }],
    ),
    (
        MIXED,
        &[
            Wanted {
                line: 3,
                id: 7,
                name: b"a;b 'c'",
                kind: VolKind::Static,
                alignment: 1,
                flags: 2,
                size: None,
                image: Some(b"a=b\"c\" d"),
            },
            Wanted {
                line: 10,
                id: 0,
                name: b"w",
                kind: VolKind::Dynamic,
                alignment: 2048,
                flags: 0,
                size: Some(16_384),
                image: None,
            },
        ],
    ),
];

/// The script check/second/refuse.sh refuses each growth of memory in turn, and looks for the line that is printed
/// here.
#[test]
fn gives_the_sections_or_runs_out_of_memory(rt: HostRuntime) -> Result<(), Fail> {
    for (index, (text, want)) in SECTIONS.iter().enumerate() {
        let sections = match parse_config(rt.alloc(), text) {
            Ok(sections) => sections,
            Err(ConfigError::Memory) => {
                println!(rt; "out of memory")?;
                return Ok(());
            }
            Err(ConfigError::Refused { .. }) => return Err("refused".into()),
        };
        assert!(rt; sections.len() == want.len(), "case {index}");
        for (is, want) in sections.iter().zip(want.iter()) {
            assert!(rt; is_wanted(is, want), "case {index}");
        }
    }
    Ok(())
}
