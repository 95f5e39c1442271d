//! The bytes of an output file that gets them all at once, when the work is done.

ghost use Rattle.std.specs.Io.KnownBytes.{WriteAppends};
ghost use Rattle.std.specs.Io.{WritesAtMost};
ghost use Rattle.std.specs.Prelude.{◌≡◌, []};
ghost use Rattle.ubi_files.specs.Disk.{full_of};

use crate::late_file::Target;
use std::alloc::Global;
use std::io;
use std::io::Write;
use std::marker::PhantomData;

/// A writer that keeps all bytes. Its contents are those that a file would have which was opened anew.
#[derive(Drop)]
pub struct HeldFile<K: Target> {
    bytes: Vec<u8>,
    of: PhantomData<K>,
}

impl<K: Target> HeldFile<K> {
    /// Nothing yet.
    pub fn new(alloc: Global) -> HeldFile<K>
        ensures { result.bytes.items ≡ [] }
    {
        HeldFile {
            bytes: Vec::new(alloc),
            of: PhantomData,
        }
    }

    /// The bytes that it keeps.
    pub fn bytes(&self) -> &[u8]
        ensures { result.now ≡ self.now.bytes.items }
    {
        self.bytes.as_slice()
    }
}

impl<K: Target> Write for HeldFile<K> {
    ghost contents = { λ held. full_of K.files held.bytes.items };

    fn write(&mut self, buf: &[u8]) -> io::Result<usize> {
        self.bytes.extend_from_slice(buf)?;
        Ok(buf.len())
    }

    fn flush(&mut self) -> io::Result<()> {
        Ok(())
    }
}
