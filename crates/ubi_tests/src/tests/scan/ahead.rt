//! How often a file is read below a source over it.

use std::alloc::Global;
use std::cell::Cell;
use std::io;
use std::process::Abort;
use std::test::Fail;
use ubi_scan::{BlockSource, FileSource, PlacedFile};

/// Bytes that are read at places. It counts its reads, and how many bytes they ask for.
#[derive(Drop)]
struct CountedFile<'a> {
    bytes: &'a [u8],
    reads: &'a Cell<usize>,
    asked: &'a Cell<usize>,
}

impl PlacedFile for CountedFile<'_> {
    ghost use Rattle.std.specs.Prelude.{Some};

    ghost bytes = { λ told. Some told.bytes.now };

    fn read_from(&self, at: u64, out: &mut [u8]) -> io::Result<usize> {
        self.reads.set(self.reads.get().saturating_add(1));
        self.asked.set(self.asked.get().saturating_add(out.len()));
        let start = (at as usize).min(self.bytes.len());
        let count = out.len().min(self.bytes.len() - start);
        out[..count].copy_from_slice(&self.bytes[start..start + count]);
        Ok(count)
    }
}

/// The size of the file.
const SIZE: u64 = 1 << 20;

/// Reads from a source, in order.
struct Way {
    /// Where the first begins.
    first: u64,
    /// How much further on the next one begins, and whether that is back. The bits of a read's number that count: all, or the last
    /// alone, so that reads go to and fro.
    step: u64,
    is_back: bool,
    bits: u64,
    /// How many bytes each asks for, and how many there are.
    len: usize,
    count: u64,
    /// How often the file is read, and how many bytes that asks for.
    reads: usize,
    asked: usize,
}

/// The first headers of 2048 eraseblocks of 512 bytes.
const EACH_512: Way = Way {
    first: 0,
    step: 512,
    is_back: false,
    bits: u64::MAX,
    len: 64,
    count: 2048,
    reads: 64,
    asked: 1 << 20,
};

/// Small reads that follow each other by less than 4096 bytes are answered from 16 KiB that are read at once; all others are
/// read alone.
static WAYS: [Way; 11] = [
    // The first headers, and each eraseblock's two.
    EACH_512,
    Way {
        step: 64,
        count: 16_384,
        ..EACH_512
    },
    // Of eraseblocks of 4 KiB.
    Way {
        step: 4096,
        count: 256,
        ..EACH_512
    },
    // Of 8 KiB: only the first lies close to the place where nothing was read yet.
    Way {
        step: 8192,
        count: 128,
        reads: 128,
        asked: 16_384 + 127 * 64,
        ..EACH_512
    },
    // The gap is 4095 bytes, and 4096.
    Way {
        step: 4159,
        count: 4,
        reads: 1,
        asked: 16_384,
        ..EACH_512
    },
    Way {
        step: 4160,
        count: 4,
        reads: 4,
        asked: 16_384 + 3 * 64,
        ..EACH_512
    },
    // Reads of 4096 bytes are small, and longer ones aren't.
    Way {
        step: 4096,
        len: 4096,
        count: 256,
        ..EACH_512
    },
    Way {
        step: 4097,
        len: 4097,
        count: 255,
        reads: 255,
        asked: 255 * 4097,
        ..EACH_512
    },
    // Backward.
    Way {
        first: SIZE - 512,
        is_back: true,
        reads: 2048,
        asked: 2048 * 64,
        ..EACH_512
    },
    // One place, which is answered once from what was read ahead.
    Way {
        step: 0,
        count: 10,
        reads: 10,
        asked: 16_384 + 9 * 64,
        ..EACH_512
    },
    // To and fro: neither place is answered twice so.
    Way {
        step: 1000,
        bits: 1,
        count: 4,
        reads: 3,
        asked: 16_384 + 2 * 64,
        ..EACH_512
    },
];

/// The place of a read.
fn place(way: &Way, k: u64) -> u64 {
    let far = way.step.saturating_mul(k & way.bits);
    if way.is_back {
        way.first.saturating_sub(far)
    } else {
        way.first.saturating_add(far)
    }
}

/// Asserts that a read gives the bytes of its place.
fn assert_read(
    rt: &impl Abort,
    source: &mut FileSource<CountedFile<'_>>,
    bytes: &[u8],
    at: u64,
    room: &mut [u8],
) -> Result<(), Fail> {
    let is_within = at <= source.len() && room.len() as u64 <= source.len() - at;
    assert!(*rt; is_within, "at {at}");
    source.read(at, room)?;
    let rest = bytes.get(at as usize..).ok_or("too far")?;
    assert!(*rt; rest.starts_with(room), "at {at}");
    Ok(())
}

/// Asserts how often a file is read in one way, and that each read gives its bytes.
fn assert_way(rt: &impl Abort, alloc: Global, bytes: &[u8], way: &Way) -> Result<(), Fail> {
    let (reads, asked) = (Cell::new(0), Cell::new(0));
    let file = CountedFile {
        bytes,
        reads: &reads,
        asked: &asked,
    };
    let mut source = FileSource::of(file, bytes.len() as u64);
    let mut room = vec![in alloc; 0u8; way.len]?;
    for k in 0..way.count {
        assert_read(rt, &mut source, bytes, place(way, k), room.as_mut_slice())?;
    }
    assert!(*rt;
        reads.get() == way.reads && asked.get() == way.asked,
        "{} reads of {} bytes by {}: {} of {}",
        way.count,
        way.len,
        way.step,
        reads.get(),
        asked.get()
    );
    Ok(())
}

#[test]
fn reads_a_file_no_more_often_than_it_has_to(rt: HostRuntime) -> Result<(), Fail> {
    let alloc = rt.alloc();
    let mut bytes = Vec::new(alloc);
    for k in 0..SIZE as u32 {
        bytes.push((k.wrapping_mul(2_654_435_761) >> 24) as u8)?;
    }
    for way in &WAYS {
        assert_way(&rt, alloc, bytes.as_slice(), way)?;
    }
    Ok(())
}
