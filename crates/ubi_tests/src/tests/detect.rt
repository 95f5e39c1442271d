//! Geometries that are detected, and why none is.

mod vast;

use super::scan::dumps::{Row, What, bytes_of, header, put, table_vid};
use std::alloc::Global;
use std::test::Fail;
use ubi_detect::{DetectError, Detected, Images, Undetected, detect_from};
use ubi_media::{EcOffsets, Geometry};
use ubi_probe::ProbeSource;
use ubi_scan::MemorySource;

/// The image that is found in a file.
#[derive(Clone, Copy)]
struct Image {
    /// The bytes of an eraseblock, without out-of-band bytes.
    peb: u32,
    /// Where its volume-identifier header and its data stand.
    offsets: (u32, u32),
    /// The pages that its headers fit.
    pages: &'static [u32],
    /// The out-of-band bytes of a page.
    oob: u32,
    /// Where it begins, and how many bytes it has.
    part: (u64, u64),
}

/// What is found in a file.
#[derive(Clone, Copy)]
enum Told {
    /// An image of eraseblocks of 1,024 bytes, whose headers fit pages of 64 and of 128 bytes: where it begins, and how many bytes
    /// it has.
    Small(u64, u64),
    /// Another image.
    Image(Image),
    /// None, and why.
    Nothing(Undetected),
}

impl Told {
    /// The image.
    fn image(&self) -> Option<Image> {
        match *self {
            Told::Small(start, length) => Some(Image {
                peb: 1024,
                offsets: (64, 128),
                pages: &[64, 128],
                oob: 0,
                part: (start, length),
            }),
            Told::Image(image) => Some(image),
            Told::Nothing(_) => None,
        }
    }
}

/// A file of so many bytes with these rows, and what is found in it.
struct Case {
    len: usize,
    rows: &'static [Row],
    told: Told,
}

/// A file in which several images lie.
struct Several {
    case: Case,
    /// Where each begins, and how many bytes it has.
    spans: &'static [(u64, u64)],
    /// Whether one of them isn't on the grid of the image that is found, or names other offsets.
    are_apart: bool,
}

/// Whether a geometry is that of an image with pages of a size, for a device of any number of eraseblocks.
fn is_image(found: &Detected, want: &Image, page: u32) -> bool {
    let geometry = &found.geometry;
    geometry.peb_size() == want.peb
        && geometry.page() == page
        && (geometry.vid_offset(), geometry.data_offset()) == want.offsets
        && geometry.pebs() == 1_048_576
        && found.oob == want.oob
        && (found.start, found.length) == want.part
}

/// Whether the images of a file lie here.
fn are_images(images: &Images, spans: &[(u64, u64)], are_apart: bool) -> bool {
    let mut are = images.spans.len() == spans.len() && images.are_apart == are_apart;
    for (span, want) in images.spans.iter().zip(spans) {
        are = are && (span.start, span.length) == *want;
    }
    are
}

/// Whether just this is found in a file: a geometry of an image for each page, in order, and these images.
fn is_told(
    alloc: Global,
    case: &Case,
    spans: &[(u64, u64)],
    are_apart: bool,
) -> Result<bool, Fail> {
    let Case { len, rows, told } = case;
    let bytes = bytes_of(alloc, *len, rows)?;
    let mut source = MemorySource::new(bytes.as_slice());
    match (detect_from(alloc, &mut source), told, told.image()) {
        (Ok(found), _, Some(image)) => {
            let mut is = found.geometries.len() == image.pages.len();
            for (detected, page) in found.geometries.iter().zip(image.pages) {
                is = is && is_image(detected, &image, *page);
            }
            Ok(is && are_images(&found.images, spans, are_apart))
        }
        (Err(error), Told::Nothing(cause), _) => Ok(error == DetectError::Undetected(*cause)),
        _ => Ok(false),
    }
}

/// Files that are an image of eraseblocks of 1,024 bytes, or hold one. The last record of the table stands at 816.
static SMALL: [Case; 10] = [
    // Each eraseblock has a header, and the first two hold the volume table.
    Case {
        len: 4096,
        rows: &[
            (0, 1024, 4, What::Header(64, 128)),
            (0, 1024, 2, What::Copies(64, 128, 860)),
        ],
        told: Told::Small(0, 4096),
    },
    // The first eraseblock is blank; the second, after the last one of the table.
    Case {
        len: 4096,
        rows: &[
            (1024, 1024, 3, What::Header(64, 128)),
            (1024 + 64, 1, 1, What::Table(1)),
            (2048 + 64, 1, 1, What::Table(0)),
            (1024 + 128, 1024, 2, What::Fill(0, 860)),
        ],
        told: Told::Small(0, 4096),
    },
    // One in the middle and two at the end are.
    Case {
        len: 7 * 1024,
        rows: &[
            (0, 1024, 2, What::Header(64, 128)),
            (3 * 1024, 1024, 2, What::Header(64, 128)),
            (0, 1024, 2, What::Copies(64, 128, 860)),
        ],
        told: Told::Small(0, 7 * 1024),
    },
    // A bad eraseblock is all zeros. After the last header it is a part of the image all the same.
    Case {
        len: 6 * 1024,
        rows: &[
            (0, 1, 1, What::Fill(0, 6 * 1024)),
            (0, 1024, 2, What::Header(64, 128)),
            (3 * 1024, 1024, 2, What::Header(64, 128)),
            (64, 1, 1, What::Table(0)),
            (1024 + 64, 1, 1, What::Table(1)),
            (1024 - 16, 1024, 2, What::Fill(0xFF, 16)),
        ],
        told: Told::Small(0, 6 * 1024),
    },
    // Headers of 255 other numbers lie before it, so that there are 256.
    Case {
        len: 16_384 + 4096,
        rows: &[
            (0, 64, 255, What::Counted(64, 128)),
            (16_384, 1024, 4, What::Header(64, 128)),
            (16_384, 1024, 2, What::Copies(64, 128, 860)),
        ],
        told: Told::Small(0, 16_384 + 4096),
    },
    // A boot loader lies before it, of one eraseblock and a half.
    Case {
        len: 1536 + 4096,
        rows: &[
            (0, 1, 1, What::Fill(5, 1536)),
            (1536, 1024, 4, What::Header(64, 128)),
            (1536, 1024, 2, What::Copies(64, 128, 860)),
        ],
        told: Told::Small(512, 1024 + 4096),
    },
    // Other bytes lie after it, two eraseblocks and some more.
    Case {
        len: 4096 + 3000,
        rows: &[
            (0, 1024, 4, What::Header(64, 128)),
            (0, 1024, 2, What::Copies(64, 128, 860)),
            (4096, 1, 1, What::Fill(5, 3000)),
        ],
        told: Told::Small(0, 4096 + 2048),
    },
    // No table, but three headers, and in the first eraseblock data up to beyond its half.
    Case {
        len: 3 * 1024,
        rows: &[
            (0, 1024, 3, What::Header(64, 128)),
            (64, 1024, 3, What::Vid),
            (128, 1, 1, What::Fill(1, 472)),
        ],
        told: Told::Small(0, 3 * 1024),
    },
    // Some headers name no image sequence number, also the first one.
    Case {
        len: 4096,
        rows: &[
            (0, 2048, 2, What::Numbered(64, 128, 0)),
            (1024, 2048, 2, What::Header(64, 128)),
            (0, 1024, 2, What::Copies(64, 128, 860)),
        ],
        told: Told::Small(0, 4096),
    },
    // None names one.
    Case {
        len: 4096,
        rows: &[
            (0, 1024, 4, What::Numbered(64, 128, 0)),
            (0, 1024, 2, What::Copies(64, 128, 860)),
        ],
        told: Told::Small(0, 4096),
    },
];

/// Files in which several images lie.
static SEVERAL: [Several; 5] = [
    // Of two that are equally large, on one grid, the first one is found.
    Several {
        case: Case {
            len: 4096,
            rows: &[
                (0, 1024, 2, What::Numbered(64, 128, 8)),
                (2048, 1024, 2, What::Header(64, 128)),
                (0, 1024, 2, What::Copies(64, 128, 860)),
                (2048, 1024, 2, What::Copies(64, 128, 860)),
            ],
            told: Told::Small(0, 4096),
        },
        spans: &[(0, 2048), (2048, 2048)],
        are_apart: false,
    },
    // Of others the larger one.
    Several {
        case: Case {
            len: 5 * 1024,
            rows: &[
                (0, 1024, 2, What::Numbered(64, 128, 8)),
                (2048, 1024, 3, What::Header(64, 128)),
                (0, 1024, 2, What::Copies(64, 128, 860)),
                (2048, 1024, 2, What::Copies(64, 128, 860)),
            ],
            told: Told::Small(0, 5 * 1024),
        },
        spans: &[(0, 2048), (2048, 3072)],
        are_apart: false,
    },
    // The second one is half an eraseblock off the grid of the first.
    Several {
        case: Case {
            len: 3 * 1024 + 512 + 2048,
            rows: &[
                (0, 1024, 3, What::Numbered(64, 128, 8)),
                (3 * 1024 + 512, 1024, 2, What::Header(64, 128)),
                (0, 1024, 2, What::Copies(64, 128, 860)),
                (3 * 1024 + 512, 1024, 2, What::Copies(64, 128, 860)),
            ],
            told: Told::Small(0, 5 * 1024),
        },
        spans: &[(0, 3072), (3 * 1024 + 512, 2048)],
        are_apart: true,
    },
    // It names other offsets.
    Several {
        case: Case {
            len: 5 * 1024,
            rows: &[
                (0, 1024, 3, What::Header(64, 128)),
                (3 * 1024, 1024, 2, What::Header(128, 256)),
                (0, 1024, 2, What::Copies(64, 128, 860)),
                (3 * 1024, 1024, 2, What::Copies(128, 256, 732)),
            ],
            told: Told::Small(0, 5 * 1024),
        },
        spans: &[(0, 3072), (3 * 1024, 2048)],
        are_apart: true,
    },
    // It lies in an eraseblock of the first that is no member of a LEB.
    Several {
        case: Case {
            len: 4 * 16_384,
            rows: &[
                (0, 16_384, 4, What::Header(512, 1024)),
                (2 * 16_384, 16_384, 2, What::Copies(512, 1024, 15_344)),
                (16_384 + 1024, 1024, 15, What::Header(64, 128)),
            ],
            told: LARGE,
        },
        spans: &[(0, 65_536), (16_384 + 1024, 15 * 1024)],
        are_apart: true,
    },
];

/// An image of four eraseblocks of 16,384 bytes, whose headers fit pages of 512 and of 1,024 bytes.
const LARGE: Told = Told::Image(Image {
    peb: 16_384,
    offsets: (512, 1024),
    pages: &[512, 1024],
    oob: 0,
    part: (0, 65_536),
});

/// Files that are an image of others.
static OTHERS: [Case; 5] = [
    // The data of the third eraseblock, which is a member of a LEB, hold an image of smaller ones; and those of the second.
    Case {
        len: 4 * 16_384,
        rows: &[
            (0, 16_384, 4, What::Header(512, 1024)),
            (0, 16_384, 2, What::Copies(512, 1024, 15_344)),
            (2 * 16_384 + 512, 1, 1, What::Member),
            (2 * 16_384 + 1024, 1024, 15, What::Header(64, 128)),
        ],
        told: LARGE,
    },
    Case {
        len: 4 * 16_384,
        rows: &[
            (0, 16_384, 4, What::Header(512, 1024)),
            (2 * 16_384, 16_384, 2, What::Copies(512, 1024, 15_344)),
            (16_384 + 512, 1, 1, What::Member),
            (16_384 + 1024, 1024, 15, What::Header(64, 128)),
        ],
        told: LARGE,
    },
    // Pages of 256 bytes with 8 out-of-band bytes: the identifier stands at 264, and the table's last record at 3892.
    Case {
        len: 4 * 4224,
        rows: &[
            (0, 4224, 4, What::Header(256, 512)),
            (0, 4224, 2, What::Copies(264, 528, 3500)),
        ],
        told: Told::Image(Image {
            peb: 4096,
            offsets: (256, 512),
            pages: &[256],
            oob: 8,
            part: (0, 16_896),
        }),
    },
    // Eraseblocks of 131,072 bytes: the identifier at 2048 fits pages of 2048 and of 4096 bytes, and the table ends at 26,112.
    Case {
        len: 4 * 131_072,
        rows: &[
            (0, 131_072, 4, What::Header(2048, 4096)),
            (0, 131_072, 2, What::Copies(2048, 4096, 22_016)),
        ],
        told: Told::Image(Image {
            peb: 131_072,
            offsets: (2048, 4096),
            pages: &[2048, 4096],
            oob: 0,
            part: (0, 524_288),
        }),
    },
    // With 64 out-of-band bytes after each page of 2048, the identifier stands at 2112, and the table's last record at 26,708. A
    // page of other bytes lies before them.
    Case {
        len: 2112 + 3 * 135_168,
        rows: &[
            (0, 1, 1, What::Fill(5, 2112)),
            (2112, 135_168, 3, What::Header(2048, 4096)),
            (2112, 135_168, 2, What::Copies(2112, 4224, 23_000)),
        ],
        told: Told::Image(Image {
            peb: 131_072,
            offsets: (2048, 4096),
            pages: &[2048],
            oob: 64,
            part: (2112, 405_504),
        }),
    },
];

/// Files of which nothing is detected.
static UNDETECTED: [Case; 19] = [
    Case {
        len: 0,
        rows: &[],
        told: Told::Nothing(Undetected::NoHeader),
    },
    Case {
        len: 8192,
        rows: &[],
        told: Told::Nothing(Undetected::NoHeader),
    },
    // It stands beside the multiples of 64, or the file ends in it.
    Case {
        len: 8192,
        rows: &[(32, 1, 1, What::Header(64, 128))],
        told: Told::Nothing(Undetected::NoHeader),
    },
    Case {
        len: 512 + 63,
        rows: &[(512, 1, 1, What::Header(64, 128))],
        told: Told::Nothing(Undetected::NoHeader),
    },
    // A single header says no size, also not that of the file.
    Case {
        len: 131_072,
        rows: &[(0, 1, 1, What::Header(2048, 4096))],
        told: Told::Nothing(Undetected::NoSize),
    },
    // Neither do two of other images.
    Case {
        len: 2048,
        rows: &[
            (0, 1, 1, What::Header(64, 128)),
            (1024, 1, 1, What::Numbered(64, 128, 8)),
        ],
        told: Told::Nothing(Undetected::NoSize),
    },
    Case {
        len: 2048,
        rows: &[
            (0, 1, 1, What::Header(64, 128)),
            (1024, 1, 1, What::Header(64, 256)),
        ],
        told: Told::Nothing(Undetected::NoSize),
    },
    // Two headers, and no table.
    Case {
        len: 2048,
        rows: &[
            (0, 1024, 2, What::Header(64, 128)),
            (64, 1024, 2, What::Vid),
            (128, 1, 1, What::Fill(1, 472)),
        ],
        told: Told::Nothing(Undetected::NoSize),
    },
    // Three, but nothing where the second half of an eraseblock would begin; or something after blank bytes.
    Case {
        len: 3 * 1024,
        rows: &[
            (0, 1024, 3, What::Header(64, 128)),
            (64, 1024, 3, What::Vid),
            (128, 1, 1, What::Fill(1, 300)),
        ],
        told: Told::Nothing(Undetected::NoSize),
    },
    Case {
        len: 3 * 1024,
        rows: &[
            (0, 1024, 3, What::Header(64, 128)),
            (64, 1024, 3, What::Vid),
            (128, 1, 1, What::Fill(1, 472)),
            (1024 + 512, 1, 1, What::Fill(1, 64)),
        ],
        told: Told::Nothing(Undetected::NoSize),
    },
    // No eraseblock ends blank.
    Case {
        len: 4096,
        rows: &[
            (0, 1, 1, What::Fill(0, 4096)),
            (0, 1024, 4, What::Header(64, 128)),
            (64, 1, 1, What::Table(0)),
            (1024 + 64, 1, 1, What::Table(1)),
        ],
        told: Told::Nothing(Undetected::NoSize),
    },
    // No more than half of the eraseblocks have a header: three of six.
    Case {
        len: 6 * 1024,
        rows: &[
            (0, 1024, 2, What::Header(64, 128)),
            (5 * 1024, 1, 1, What::Header(64, 128)),
            (0, 1024, 2, What::Copies(64, 128, 860)),
        ],
        told: Told::Nothing(Undetected::NoSize),
    },
    // A header lies off the grid of the others: of all of them the size is 512.
    Case {
        len: 4096 + 1024,
        rows: &[
            (0, 1024, 4, What::Header(64, 128)),
            (0, 1024, 2, What::Copies(64, 128, 860)),
            (4096 + 512, 1, 1, What::Header(64, 128)),
        ],
        told: Told::Nothing(Undetected::NoSize),
    },
    // A header lies in the middle of one of eight eraseblocks: of all of them the size is 512, and each second eraseblock but one has
    // none. What they hold goes on everywhere.
    Case {
        len: 8 * 1024,
        rows: &[
            (0, 1, 1, What::Fill(1, 8 * 1024)),
            (0, 1024, 8, What::Header(64, 128)),
            (2048 + 512, 1, 1, What::Header(64, 128)),
            (512 - 16, 1, 1, What::Fill(0xFF, 16)),
        ],
        told: Told::Nothing(Undetected::NoSize),
    },
    // Headers name 257 numbers.
    Case {
        len: 16_384 + 4096,
        rows: &[
            (0, 64, 256, What::Counted(64, 128)),
            (16_384, 1024, 4, What::Header(64, 128)),
            (16_384, 1024, 2, What::Copies(64, 128, 860)),
        ],
        told: Told::Nothing(Undetected::NoSize),
    },
    // The file is cut off.
    Case {
        len: 3 * 1024 + 512,
        rows: &[
            (0, 1024, 4, What::Header(64, 128)),
            (0, 1024, 2, What::Copies(64, 128, 860)),
        ],
        told: Told::Nothing(Undetected::Length(1024, 512)),
    },
    Case {
        len: 4 * 131_072 - 1,
        rows: &[(0, 131_072, 4, What::Header(2048, 4096))],
        told: Told::Nothing(Undetected::Length(131_072, 131_071)),
    },
    // Pages of 256 bytes with 8 out-of-band bytes, and no identifier. The parts of a half and of a third begin with data.
    Case {
        len: 4 * 4224,
        rows: &[
            (0, 4224, 4, What::Header(256, 512)),
            (528, 1, 1, What::Fill(1, 2500)),
        ],
        told: Told::Nothing(Undetected::OutOfBand(4224)),
    },
    Case {
        len: 3 * 6144,
        rows: &[(0, 6144, 3, What::Header(64, 4096))],
        told: Told::Nothing(Undetected::Page(
            6144,
            EcOffsets {
                vid_offset: 64,
                data_offset: 4096,
            },
        )),
    },
];

#[test]
fn detects_images_or_tells_why_there_is_none(rt: HostRuntime) -> Result<(), Fail> {
    for cases in [SMALL.as_slice(), OTHERS.as_slice(), UNDETECTED.as_slice()] {
        for (index, case) in cases.iter().enumerate() {
            assert!(rt;
                is_told(rt.alloc(), case, &[], false)?,
                "case {index} of {}",
                cases.len()
            );
        }
    }
    for (index, several) in SEVERAL.iter().enumerate() {
        assert!(rt;
            is_told(rt.alloc(), &several.case, several.spans, several.are_apart)?,
            "several {index}"
        );
    }
    Ok(())
}

/// Why of eraseblocks of 1,024 bytes none is detected whose read `at` fails, if none is. The first one lies at `first`.
fn error_of(alloc: Global, first: usize, at: u64) -> Result<Option<DetectError>, Fail> {
    let rows = [
        (first, 1024, 150, What::Header(64, 128)),
        (first, 1024, 2, What::Copies(64, 128, 860)),
    ];
    let bytes = bytes_of(alloc, 200 * 1024, &rows)?;
    let geometry = Geometry::new(1024, 64, 64, 128, 256)?;
    let mut source = ProbeSource::new(alloc, &geometry, bytes.as_slice(), at)?;
    Ok(detect_from(alloc, &mut source).err())
}

/// The reads of a file that begins with a header, by number, and where they begin: those of the first header, of the places up to the
/// second one and of those up to where a third would be, and of where eraseblocks begin, up to the first that is blank; then all of
/// it, the end of the first eraseblock, and its header again.
static READS: [(u64, u64); 13] = [
    (1, 0),
    (2, 64),
    (3, 128),
    (17, 1024),
    (18, 1024 + 64),
    (32, 2048 - 64),
    (33, 1024),
    (34, 2048),
    (182, 150 * 1024),
    (183, 0),
    (184, 65_536),
    (187, 1024 - 16),
    (188, 0),
];

/// Those of one whose first eraseblock is blank: the first 64 bytes, and all of it.
static READS_BEHIND: [(u64, u64); 5] = [(1, 0), (2, 0), (3, 65_536), (4, 131_072), (5, 196_608)];

#[test]
fn tells_the_place_of_the_read_that_failed(rt: HostRuntime) -> Result<(), Fail> {
    for (first, reads) in [(0, READS.as_slice()), (1024, READS_BEHIND.as_slice())] {
        for (number, place) in reads {
            let error = error_of(rt.alloc(), first, *number)?;
            assert!(rt;
                error == Some(DetectError::Read(*place)),
                "read {number}, {first}"
            );
        }
        let error = error_of(rt.alloc(), first, 1_000_000)?;
        assert!(rt; error == None, "no read, {first}");
    }
    Ok(())
}

/// Of 4 MiB of headers of other numbers the first 64 KiB alone are read: the read after them, which would fail, isn't tried.
#[test]
fn stops_at_too_many_numbers(rt: HostRuntime) -> Result<(), Fail> {
    let rows = [(64, 64, 65_535, What::Counted(64, 128))];
    let bytes = bytes_of(rt.alloc(), 0x0040_0000, &rows)?;
    let geometry = Geometry::new(1024, 64, 64, 128, 4096)?;
    let mut source = ProbeSource::new(rt.alloc(), &geometry, bytes.as_slice(), 3)?;
    let error = detect_from(rt.alloc(), &mut source).err();
    assert!(rt; error == Some(DetectError::Undetected(Undetected::NoSize)));
    Ok(())
}

/// The size that is detected of a file, in bytes, or that memory ran out.
fn size_of(alloc: Global, bytes: &[u8]) -> Result<u32, DetectError> {
    let found = detect_from(alloc, &mut MemorySource::new(bytes))?;
    Ok(match found.geometries.get(0) {
        Some(detected) => detected.geometry.peb_size(),
        None => 0,
    })
}

/// The script check/second/refuse.sh refuses each growth of memory in turn, and looks for the line that is printed here.
#[test]
fn detects_or_runs_out_of_memory(rt: HostRuntime) -> Result<(), Fail> {
    let mut bytes = [0xFF; 16_384];
    for block in 1..8 {
        put(&mut bytes, 2048 * block, &header(64, 128)?);
    }
    for copy in 0..2 {
        let at = 2048 * (usize::from(copy) + 1);
        put(&mut bytes, at + 64, &table_vid(copy));
        put(&mut bytes, at + 128, &[0; 1900]);
    }
    let blank = size_of(rt.alloc(), &bytes);
    put(&mut bytes, 0, &header(64, 128)?);
    let plain = size_of(rt.alloc(), &bytes);
    for size in [blank, plain] {
        match size {
            Ok(size) => assert!(rt; size == 2048),
            Err(error) => {
                assert!(rt; error == DetectError::Memory);
                println!(rt; "out of memory")?;
            }
        }
    }
    Ok(())
}
