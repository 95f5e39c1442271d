//! Reads at places that fail once.

use super::answers::assert_over;
use super::fake::Broken;
use std::io::ErrorKind;
use std::test::Fail;

/// What `check` answers of eight blank eraseblocks.
const BLANK: &str =
    "blocks 8\nblank 8\nfree 0\ntable 0\nused 0\nstale 0\norphan 0\ndropped 0\ncorrupt 0\ngarbage 0\n\
    top sqnum 0\nimage seq 0\nmean counter 0\naccepted\n";

/// The sizes of eight eraseblocks, which one read beyond so many bytes fails of, and what is answered. What can't be read ahead, as
/// of small eraseblocks, is read alone. No read of what is needed is tried again: of eraseblocks that lie further apart nothing is
/// read ahead.
static ONCE: [(usize, ErrorKind, usize, (&str, u8)); 5] = [
    (512, ErrorKind::Interrupted, 0, (BLANK, 0)),
    (512, ErrorKind::Other, 1024, (BLANK, 0)),
    (8192, ErrorKind::Other, 0, (BLANK, 0)),
    (8192, ErrorKind::Other, 20_000, ("cannot read a\n", 1)),
    (8192, ErrorKind::Interrupted, 20_000, ("cannot read a\n", 1)),
];

#[test]
fn reads_alone_what_cannot_be_read_ahead(rt: HostRuntime) -> Result<(), Fail> {
    let alloc = rt.alloc();
    for (size, kind, after, answer) in ONCE {
        let image = vec![in alloc; 0xFFu8; size.saturating_mul(8)]?;
        let line = format!(in alloc; "check a --peb {size} --page 64")?;
        let files: (&[u8], &[u8]) = (image.as_slice(), &[]);
        let broken = Broken::PlacesOnce(kind, after);
        assert_over(&rt, alloc, files, broken, line.as_str(), answer, &[])?;
    }
    Ok(())
}
