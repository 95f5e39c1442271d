//! Printed lines and objects that no image of a test can bring about: great numbers, paths with any bytes.

use std::alloc::AllocError;
use std::process::Abort;
use std::test::Fail;
use ubi_compare::Difference;
use ubi_detect::{Detected, Span};
use ubi_files::{FilePart, refusal_line};
use ubi_json::{differences_line, error_line, geometry_line};
use ubi_media::Refusal;
use ubi_probe::pebs::small;
use ubi_writing::blocks_line;

/// Asserts that a line was made, and is another.
fn assert_made(rt: &impl Abort, made: Result<Vec<u8>, AllocError>, line: &str) {
    let is = match made {
        Ok(text) => text.as_slice() == line.as_bytes(),
        Err(AllocError) => false,
    };
    assert!(*rt; is, "{line}");
}

/// What begins at the last byte that a number can give.
const LAST: FilePart = FilePart {
    start: u64::MAX,
    length: None,
};

/// What can't be read, and the object: a path that has a quote, the end of a line and a letter of two bytes; bytes that are no text;
/// and nothing.
static ERRORS: [(&[u8], &str); 3] = [
    (
        b"cannot read a\"b\nc\xC3\xA9\n",
        "{\"error\":\"cannot read a\\\"b\\nc\u{e9}\"}\n",
    ),
    (b"a\xFF\n", "{\"error\":\"a\u{fffd}\"}\n"),
    (b"", "{\"error\":\"\"}\n"),
];

#[test]
fn prints_great_numbers_and_any_path(rt: HostRuntime) -> Result<(), Fail> {
    let alloc = rt.alloc();
    let refused = refusal_line(alloc, Refusal::Mismatch(u32::MAX));
    assert_made(&rt, refused, "refused V1 Mismatch block=4294967295\n");
    assert_made(&rt, blocks_line(alloc, 1_048_576), "blocks 1048576\n");
    let told = "{\"refused\":{\"block\":4294967295,\"cause\":\"Mismatch\",\"code\":\"V1\"}}\n";
    let object = ubi_json::refusal_line(alloc, Refusal::Mismatch(u32::MAX));
    assert_made(&rt, object, told);
    let differences = [
        Difference::Bytes {
            id: 127,
            left: u64::MAX,
            right: 0,
        },
        Difference::Lebs {
            id: u32::MAX,
            first: 0,
            last: u32::MAX,
        },
    ];
    let told = "{\"differences\":[\
        {\"id\":127,\"left\":18446744073709551615,\"right\":0,\"what\":\"bytes\"},\
        {\"first\":0,\"id\":4294967295,\"last\":4294967295,\"what\":\"lebs\"}],\"same\":false}\n";
    assert_made(&rt, differences_line(alloc, &differences), told);
    let detected = Detected {
        geometry: small()?,
        oob: 64,
        start: 1,
        length: 2,
    };
    let spans = [
        Span {
            start: 0,
            length: 7,
        },
        Span {
            start: 1,
            length: 1 << 33,
        },
    ];
    let told =
        "{\"geometries\":[{\"data\":128,\"length\":2,\"oob\":64,\"page\":64,\"peb\":512,\"start\":\"18446744073709551616\",\"vid\":64}],\
        \"images\":[{\"length\":7,\"start\":18446744073709551615},{\"length\":8589934592,\"start\":\"18446744073709551616\"}]}\n";
    assert_made(&rt, geometry_line(alloc, LAST, &[detected], &spans), told);
    for (printed, told) in ERRORS {
        assert_made(&rt, error_line(alloc, printed), told);
    }
    Ok(())
}
