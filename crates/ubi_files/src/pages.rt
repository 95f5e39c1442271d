//! Files with out-of-band bytes after each page, and their pages without them.

ghost use Rattle.std.specs.Io.{ReadsAtMost};
ghost use Rattle.std.specs.Option.{ForSome};
ghost use Rattle.std.specs.Prelude.{◌≡◌, ◌≢◌, ◌+◌, ◌/◌, ◌%◌, ◌<◌, ◌≤◌, IfOk, List, length, option_map, take, ℕ};
ghost use Rattle.ubi_scan.specs.Placed.{StandsAt};
ghost use Rattle.ubi_files.specs.Views.{pages_from, pages_of};

use crate::file_row::SizedFile;
use std::io;
use ubi_scan::PlacedFile;

/// Moves together the bytes that are in pages, each of which is followed by `oob` out-of-band bytes, and says how many they are.
/// The first byte is at a place of the first page.
pub fn close_gaps(bytes: &mut [u8], place: usize, page: u32, oob: u32) -> usize
    requires { place < page }
    ensures within { result ≤ length bytes.new }
    ensures pages { take result bytes.new ≡ pages_from place page oob bytes.old }
{
    let (page, oob) = (page as usize, oob as usize);
    let mut kept = bytes.len().min(page - place);
    let mut from = page - place + oob;
    'pages: while from < bytes.len() {
        let end = bytes.len().min(from + page);
        bytes.copy_within(from..end, kept);
        kept += end - from;
        from = from + page + oob;
    }
    kept
}

/// Keeps only those bytes that are in pages. The first byte is that of a page.
pub fn keep_pages(bytes: &mut Vec<u8>, page: u32, oob: u32)
    requires { 0 < page }
    ensures { bytes.new.items ≡ pages_of page oob bytes.old.items }
{
    if oob == 0 {
        return;
    }
    let kept = close_gaps(bytes.as_mut_slice(), 0, page, oob);
    bytes.truncate(kept);
}

/// How many raw bytes are read through a buffer at most. So a read of headers is one read of the file.
const SMALL: usize = 8192;

/// A file that is read at places, with out-of-band bytes after each page; its pages are read as a file.
#[derive(Drop)]
pub struct Pages<F: PlacedFile> {
    file: SizedFile<F>,
    /// The size of a page in bytes.
    page: u32,
    /// How many bytes follow it.
    oob: u32,
    ghost some: { 0 < page },
}

/// How many of `len` bytes are in pages.
fn pages_len(len: u64, page: u32, oob: u32) -> u64
    requires some { 0 < page }
    requires whole { oob ≢ 0 → len % (page + oob) ≡ 0 }
    ensures pages { (bytes : List ℕ) → length bytes ≡ len → length (pages_of page oob bytes) ≡ result }
    ensures few { result ≤ len }
{
    if oob == 0 {
        return len;
    }
    let page = u64::from(page);
    len / (page + u64::from(oob)) * page
}

impl<F: PlacedFile> Pages<F> {
    /// The pages of a file, each of `page` bytes and followed by `oob` bytes. If `oob` isn't 0, no bytes may be left over.
    pub fn of(file: SizedFile<F>, page: u32, oob: u32) -> SizedFile<Pages<F>>
        requires some { 0 < page }
        requires whole { oob ≢ 0 → file.len % (page + oob) ≡ 0 }
        ensures file { result.file.file ≡ file }
        ensures page { result.file.page ≡ page }
        ensures oob { result.file.oob ≡ oob }
        ensures few { result.len ≤ file.len }
    {
        let len = pages_len(file.len(), page, oob);
        SizedFile::new(Pages { file, page, oob }, len)
    }

    /// Reads `len` raw bytes through a buffer, from the byte `at` of the pages on, and gives as much of their pages as `out` has room for.
    fn read_small(&self, at: u64, len: usize, out: &mut [u8]) -> io::Result<usize>
        requires few { len ≤ SMALL }
        requires inside { at / self.now.page < self.now.file.len / (self.now.page + self.now.oob) }
        ensures bound { ReadsAtMost result out.new }
        ensures read { IfOk result (λ n. ForSome (option_map (pages_of self.now.page self.now.oob) (F.bytes self.now.file.file)) (λ all. StandsAt all at (take n out.new))) }
    {
        let page = u64::from(self.page);
        let unit = page + u64::from(self.oob);
        let place = at % page;
        let mut buffer = [0u8; SMALL];
        let file = self.file.file();
        prove!(at / page < self.file.len() / unit);
        let count = file.read_from(at / page * unit + place, &mut buffer[..len])?;
        let kept = close_gaps(&mut buffer[..count], place as usize, self.page, self.oob);
        let kept = kept.min(out.len());
        out[..kept].copy_from_slice(&buffer[..kept]);
        Ok(kept)
    }
}

impl<F: PlacedFile> PlacedFile for Pages<F> {
    ghost bytes = { λ seen. option_map (pages_of seen.page seen.oob) (F.bytes seen.file.file) };

    fn read_from(&self, at: u64, out: &mut [u8]) -> io::Result<usize> {
        let file = self.file.file();
        if self.oob == 0 {
            return file.read_from(at, out);
        }
        let page = u64::from(self.page);
        let unit = page + u64::from(self.oob);
        // No page is read that lacks bytes.
        if at / page >= self.file.len() / unit {
            return Ok(0);
        }
        let place = at % page;
        let gaps = ((place + out.len() as u64) / page).saturating_mul(u64::from(self.oob));
        let len = gaps.saturating_add(out.len() as u64);
        if len <= SMALL as u64 {
            return self.read_small(at, len as usize, out);
        }
        let count = file.read_from(at / page * unit + place, out)?;
        Ok(close_gaps(&mut out[..count], place as usize, self.page, self.oob))
    }
}
