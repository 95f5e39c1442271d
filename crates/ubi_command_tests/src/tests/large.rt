//! A file beyond 4 GiB.

use super::answers::assert_line;
use super::shown::BLANK_SHOWN;
use std::fs;
use std::fs::{File, OpenFile};
use std::os::unix::fs::FileExt;
use std::test::Fail;
use ubi_probe::chips::PAGE_EC;

/// What is shown of an eraseblock that begins beyond 4 GiB, and why its image is refused, once it is read to its end:
/// what isn't written in it reads zero, which is no header.
static FAR: [(&str, &str, u8); 4] = [
    (
        "show far.img --block 2400 --peb 2097152 --page 2048",
        "ec valid 55424923010000000000000000000000000008000000100012345678\
            0000000000000000000000000000000000000000000000000000000000000000f0ef3182\n\
            vid corrupt 0000000000000000000000000000000000000000000000000000000000000000\
            0000000000000000000000000000000000000000000000000000000000000000\n",
        0,
    ),
    // What is listed there is blank, and what is listed beside it isn't.
    (
        "show far.img --block 2400 --bad 2399,2400 --peb 2097152 --page 2048",
        BLANK_SHOWN,
        0,
    ),
    (
        "show far.img --block 2400 --bad 352,2399,2401-4294967295 --peb 2097152 --page 2048",
        "ec valid 55424923010000000000000000000000000008000000100012345678\
            0000000000000000000000000000000000000000000000000000000000000000f0ef3182\n\
            vid corrupt 0000000000000000000000000000000000000000000000000000000000000000\
            0000000000000000000000000000000000000000000000000000000000000000\n",
        0,
    ),
    (
        "check far.img --peb 2097152 --page 2048",
        "refused T1 NoTable\n",
        1,
    ),
];

#[test]
fn reads_beyond_4_gib(rt: HostRuntime) -> Result<(), Fail> {
    let alloc = rt.alloc();
    let file = File::create(&rt, "far.img")?;
    file.set_len(2401 * 2_097_152)?;
    file.write_all_at(&PAGE_EC, 2400 * 2_097_152)?;
    for (line, text, status) in &FAR {
        assert_line(&rt, alloc, line, (text, *status))?;
    }
    fs::remove_file(&rt, "far.img")?;
    Ok(())
}
