//! The shown form of a name.

use std::test::Fail;
use ubi_compose::shown_name;
use ubi_media::VolName;
use ubi_probe::texts::bytes_of;

/// A word, and the name of which it is the shown form, if it is one: bytes that each stand so many times.
static SHOWN: [(&[(&[u8], usize)], &[(&[u8], usize)]); 18] = [
    (&[(b"root", 1)], &[(b"root", 1)]),
    (&[(b"a\\x41\\x4Bb", 1)], &[(b"aAKb", 1)]),
    (&[(b"\\xfF\\x5c\\x20", 1)], &[(b"\xFF\\ ", 1)]),
    (&[(b"!~", 1)], &[(b"!~", 1)]),
    (&[(b"", 1)], &[]),
    (&[(b"a b", 1)], &[]),
    (&[(b"a\x7F", 1)], &[]),
    (&[(b"a\\x00", 1)], &[]),
    (&[(b"a\\X41", 1)], &[]),
    (&[(b"a\\", 1)], &[]),
    (&[(b"a\\x4", 1)], &[]),
    (&[(b"a\\x4g", 1)], &[]),
    (&[(b"a\\\\x41", 1)], &[]),
    // A name has 127 bytes at most.
    (&[(b"a", 127)], &[(b"a", 127)]),
    (&[(b"a", 128)], &[]),
    (&[(b"a", 126), (b"\\x61", 1)], &[(b"a", 127)]),
    (&[(b"\\x61", 1), (b"a", 122), (b"\\x61", 1)], &[(b"a", 124)]),
    (&[(b"a", 127), (b"\\x61", 1)], &[]),
];

/// No bytes stand for no name.
#[test]
fn reads_names_as_they_are_shown(rt: HostRuntime) -> Result<(), Fail> {
    for (index, (word, name)) in SHOWN.iter().enumerate() {
        let (word, name) = (bytes_of(rt.alloc(), word)?, bytes_of(rt.alloc(), name)?);
        let shown = shown_name(word.as_slice());
        assert!(rt; shown == VolName::new(name.as_slice()), "case {index}");
        assert!(rt; shown.is_none() == name.is_empty(), "case {index}");
    }
    Ok(())
}
