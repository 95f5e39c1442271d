//! Names of volumes.

use ubi_media::VolName;

/// Bytes, and whether they are a name.
static NAMES: [(&[u8], bool); 9] = [
    (b"a", true),
    (b"root", true),
    (b"\xff \x01", true),
    (&[b'a'; 127], true),
    (b"", false),
    (b"\0", false),
    (b"\0root", false),
    (b"root\0", false),
    (&[b'a'; 128], false),
];

#[test]
fn takes_names_alone(rt: HostRuntime) {
    for (bytes, is_name) in &NAMES {
        let is = match VolName::new(bytes) {
            Some(name) => *is_name && name.as_bytes() == *bytes,
            None => !is_name,
        };
        assert!(rt; is, "of {bytes:?}");
    }
}
