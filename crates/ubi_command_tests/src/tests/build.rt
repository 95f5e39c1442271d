//! The command `build` over files that hold a config and the contents of a volume, and over files that fail.

use super::answers::{assert_over, is_answer, run_over};
use super::contents::Contents;
use super::fake::Broken;
use std::io::ErrorKind;
use std::test::Fail;

/// The config of the volume `root`, whose contents are those of `new.bin`.
pub const CONFIG: &[u8] =
    b"# root\n[root]\nmode=ubi\nvol_id=0\nvol_name=root\nvol_size = 7680\nimage=new.bin\n";

/// What `new.bin` holds.
pub const CONTENT: Contents = Contents::Runs(&[(b"A", 384), (b"B", 384), (b"C", 384)]);

/// The line that builds the image of that volume.
const LINE: &str = "build a.ini --seq 305419896 --out b.img";

/// What is answered of files that can't be read or written.
const UNREAD: (&str, u8) = ("cannot read a.ini\n", 1);

const UNREAD_CONTENT: (&str, u8) = ("cannot read new.bin\n", 1);

const UNWRITTEN: (&str, u8) = ("cannot write b.img\n", 1);

const BUILT: (&str, u8) = ("blocks 5\n", 0);

/// Ways in which files fail, with the answer, and how many bytes of the image are written. Each eraseblock is written once its
/// content was read.
static WAYS: [(Broken, (&str, u8), usize); 14] = [
    (Broken::Nothing, BUILT, 2560),
    (Broken::Short(100), BUILT, 2560),
    (Broken::OpenRead, UNREAD, 0),
    (Broken::Whole, UNREAD, 0),
    (Broken::Read(ErrorKind::Other, 30), UNREAD, 0),
    (Broken::Places, UNREAD_CONTENT, 0),
    (Broken::Read(ErrorKind::Other, 100), UNREAD_CONTENT, 1024),
    (Broken::Read(ErrorKind::Other, 400), UNREAD_CONTENT, 1536),
    // Where reading ahead fails, what was asked for is read alone.
    (Broken::PlacesOnce(ErrorKind::Other, 400), BUILT, 2560),
    // The file was 512 bytes longer.
    (Broken::Cut, UNREAD_CONTENT, 2560),
    (Broken::OpenWrite, UNWRITTEN, 0),
    (Broken::Write(0), UNWRITTEN, 0),
    (Broken::Write(700), UNWRITTEN, 700),
    (Broken::WriteOnce(1600), UNWRITTEN, 1600),
];

/// Configs of two volumes, of which one's file is `new.bin`, and how many bytes are written until a read of that fails. The other
/// file holds what the config does.
static TWO: [(&[u8], usize); 4] = [
    (
        b"[a]\nmode=ubi\nvol_id=0\nvol_name=a\nimage=a\n[b]\nmode=ubi\nvol_id=1\nvol_name=b\nimage=new.bin\n",
        1536,
    ),
    (
        b"[a]\nmode=ubi\nvol_id=0\nvol_name=a\nimage=new.bin\n[b]\nmode=ubi\nvol_id=1\nvol_name=b\nimage=a\n",
        1024,
    ),
    (
        b"[a]\nmode=ubi\nvol_id=1\nvol_name=a\nimage=new.bin\n[b]\nmode=ubi\nvol_id=0\nvol_name=b\nimage=a\n",
        1536,
    ),
    (
        b"[a]\nmode=ubi\nvol_id=1\nvol_name=a\nimage=a\n[b]\nmode=ubi\nvol_id=0\nvol_name=b\nimage=new.bin\n",
        1024,
    ),
];

#[test]
fn tells_which_of_two_files_fails(rt: HostRuntime) -> Result<(), Fail> {
    let alloc = rt.alloc();
    let content = CONTENT.bytes(alloc)?;
    for (config, count) in &TWO {
        let files = (*config, content.as_slice());
        let broken = Broken::Read(ErrorKind::Other, 120);
        let (outcome, written) = run_over(alloc, files, broken, LINE)?;
        assert!(rt; is_answer(&outcome, UNREAD_CONTENT) && written.len() == *count);
    }
    Ok(())
}

#[test]
fn tells_of_files_that_fail(rt: HostRuntime) -> Result<(), Fail> {
    let alloc = rt.alloc();
    let (content, image) = (CONTENT.bytes(alloc)?, Contents::NormalRoot.bytes(alloc)?);
    for (broken, answer, count) in &WAYS {
        let written = image.as_slice().get(..*count).ok_or("short")?;
        let files = (CONFIG, content.as_slice());
        assert_over(&rt, alloc, files, *broken, LINE, *answer, written)?;
    }
    Ok(())
}
