//! Files by their paths, as the commands see them.

ghost use Rattle.std.specs.Prelude.{◌≡◌, ◌≢◌, ℕ, Bool, IfErr, IfOk, IfSome, List, None, OnErr, OnOk, false, true};
ghost use Rattle.ubi_files.specs.Disk.{Files, Holds, IsKept, OthersStay, full_of, fresh};

use crate::file_row::SizedFile;
use crate::outcome::ToolError;
use std::alloc::Global;
use std::io;
use std::io::{Read, Write};
use ubi_scan::PlacedFile;

/// A file that is read from its beginning to its end.
#[derive(Drop)]
pub struct WholeFile<F> {
    /// The reader of its bytes.
    pub reader: F,
    /// How many bytes it is expected to have.
    pub expected: u64,
}

/// A file that was opened anew, and its path.
#[derive(Drop)]
pub struct OutputFile<'a, F> {
    path: &'a str,
    /// The writer of its bytes.
    pub writer: F,
}

impl<'a, F> OutputFile<'a, F> {
    /// The file at a path that `writer` writes.
    pub fn new(path: &'a str, writer: F) -> OutputFile<'a, F>
        ensures path { result.path.now ≡ path.now }
        ensures writer { result.writer ≡ writer }
    {
        OutputFile { path, writer }
    }

    /// Its path.
    pub fn path(&self) -> &'a str
        ensures { result.now ≡ self.now.path.now }
    {
        self.path
    }
}

/// Files by their paths. [`Host`](crate::host::Host) has those of the system, of which nothing is known.
pub trait Disk {
    /// A file that is read at places.
    type Placed: PlacedFile + Drop;

    /// A file that is read from its beginning to its end.
    type Reader: Read + Drop;

    /// A file that is written anew.
    type Output: Write + Drop;

    // What is known of the files.
    ghost files: { Self → Files };

    // Whether it is known what files receive doesn't change.
    ghost same_telling: { (a b : Self) → (files a).tells ≡ (files b).tells };

    // At which paths it is known that there is a file which can be opened.
    ghost opens: { Self → List ℕ → Bool };

    /// The file at a path, to be read at places; or `None` if it can't be read so.
    fn placed_at(&self, path: &str) -> Option<SizedFile<Self::Placed>>
        ensures named { IfSome result (λ f. Self.Placed.bytes f.file ≡ (files self.now).holds path.now) }
        ensures none { result ≡ None → opens self.now path.now ≡ false };

    /// The file at a path, to be read at places while the file at `out` is written; or `None` if it can't be read so, or if
    /// both may be one file.
    fn placed_beside(&self, path: &str, out: &str) -> Option<SizedFile<Self::Placed>>
        ensures named { IfSome result (λ f. Self.Placed.bytes f.file ≡ (files self.now).holds path.now) }
        ensures apart { IfSome result (λ _. path.now ≢ out.now) }
        ensures none { path.now ≢ out.now → result ≡ None → opens self.now path.now ≡ false };

    /// Says on standard error why the file at a path isn't read at places while the file at `out` is written.
    fn tell_unplaced(&self, path: &str, out: &str);

    /// Whether what is written to the second path may be written into the file at the first.
    fn may_be_one(&self, path: &str, other: &str) -> bool
        ensures { path.now ≡ other.now → result ≡ true };

    /// Whether there is a device at a path whose bad eraseblocks may read as anything.
    fn is_flash(&self, path: &str) -> bool
        ensures { result ≡ true → (files self.now).holds path.now ≡ None };

    /// Opens the file at a path, to be read from its beginning to its end.
    ///
    /// # Errors
    ///
    /// `Read` if it can't be opened, or if it has no end.
    fn whole(&self, path: &str) -> Result<WholeFile<Self::Reader>, ToolError>
        ensures named { IfOk result (λ f. IfSome ((files self.now).holds path.now) (λ all. Self.Reader.remaining f.reader ≡ Some all)) }
        ensures err { IfErr result (λ e. e ≡ ToolError.Read) }
        ensures none { OnErr result (opens self.now path.now ≡ false) };

    /// Opens the file at a path anew: what it held is lost, and nothing is known of it until [`keep`](Self::keep) closes it.
    ///
    /// # Errors
    ///
    /// It can't be opened, and holds what it held.
    fn create<'p>(&mut self, path: &'p str) -> io::Result<OutputFile<'p, Self::Output>>
        ensures path { IfOk result (λ f. f.path.now ≡ path.now) }
        ensures fresh { IfOk result (λ f. Self.Output.contents f.writer ≡ fresh (files self.old)) }
        ensures others { OthersStay (files self.old) (files self.new) path.now }
        ensures unopened { OnErr result (files self.new ≡ files self.old) };

    /// Makes the file at a path, if there is none yet. Nothing is known of it until [`keep`](Self::keep) closes it.
    ///
    /// # Errors
    ///
    /// There is something at the path, or it can't be made. The path holds what it held.
    fn create_new<'p>(&mut self, path: &'p str) -> io::Result<OutputFile<'p, Self::Output>>
        ensures path { IfOk result (λ f. f.path.now ≡ path.now) }
        ensures fresh { IfOk result (λ f. Self.Output.contents f.writer ≡ fresh (files self.old)) }
        ensures others { OthersStay (files self.old) (files self.new) path.now }
        ensures unopened { OnErr result (files self.new ≡ files self.old) };

    /// Gives the ordinary file at a path other bytes, all at once: it holds all of them, or what it held.
    ///
    /// # Errors
    ///
    /// There is no ordinary file at the path, none can be made beside it, a write failed, or memory ran out. The path holds what it
    /// held.
    fn replace(&mut self, alloc: Global, path: &str, bytes: &[u8]) -> io::Result<()>
        ensures received { OnOk result (Holds (files self.new) path.now (full_of (files self.old) bytes.now)) }
        ensures others { OthersStay (files self.old) (files self.new) path.now }
        ensures kept { OnErr result (files self.new ≡ files self.old) };

    /// Makes the folder at a path, or finds that there is one without files.
    ///
    /// # Errors
    ///
    /// There is something else at the path, or it can't be made.
    fn make_folder(&self, path: &str) -> io::Result<()>;

    /// Closes a file that was opened anew.
    fn keep(&mut self, file: OutputFile<'_, Self::Output>)
        ensures { IsKept (files self.old) (files self.new) file.entry.path.now (Self.Output.contents file.entry.writer) };
}
