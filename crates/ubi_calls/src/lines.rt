//! The calls that answer with printed lines.

ghost use Rattle.std.specs.Prelude.{◌≡◌, IfOk};
ghost use Rattle.ubi_scan.specs.Image.{image_of};
ghost use Rattle.ubi_files.specs.Views.{whole_file};
ghost use Rattle.ubi_reading.specs.Check.{Checks};
ghost use Rattle.ubi_reading.specs.Comparisons.{Compares};
ghost use Rattle.ubi_reading.specs.Geometry.{Detects};
ghost use Rattle.ubi_reading.specs.List.{Lists};
ghost use Rattle.ubi_reading.specs.Map.{Maps};
ghost use Rattle.ubi_reading.specs.Show.{Shows};
ghost use Rattle.ubi_reading.specs.declared.comparison.Comparison.TheVariants as comparison;
ghost use Rattle.ubi_reading.specs.declared.format.Format.TheVariants as format;
ghost use Rattle.ubi_calls.specs.Calls.{Fills, Under, printed};
ghost use Rattle.ubi_calls.specs.inner.Asking.{answers};

use crate::answer::{hand_outcome, limit_outcome};
use crate::numbers::{DeviceSizes, geometry_of};
use std::alloc::{AllocError, Global};
use ubi_files::{Outcome, SidesError};
use ubi_media::Geometry;
use ubi_reading::{Comparison, Format, run_check, run_geometry, run_list, run_map, run_show};
use ubi_scan::MemorySource;

/// A question about images of one geometry.
#[derive(Clone, Copy)]
enum Question<'a> {
    /// The states of the eraseblocks of an image.
    Check(&'a [u8]),
    /// Its volumes.
    List(&'a [u8]),
    /// The headers of one of its eraseblocks.
    Show(&'a [u8], u32),
    /// A letter for each of its eraseblocks.
    Map(&'a [u8]),
    /// The comparison of two images.
    Compare(Comparison, &'a [u8], &'a [u8]),
}

/// What a comparison answers for two images.
///
/// # Errors
///
/// Memory ran out.
fn compare(
    alloc: Global,
    geometry: &Geometry,
    how: Comparison,
    left: &[u8],
    right: &[u8],
) -> Result<Outcome, AllocError>
    ensures { IfOk result (Compares how (image_of geometry.now left.now) (image_of geometry.now right.now)) }
{
    let mut here = MemorySource::new(left);
    let mut there = MemorySource::new(right);
    match how.answer(alloc, geometry, &mut here, &mut there) {
        Ok(outcome) => Ok(outcome),
        Err(SidesError::Memory) => Err(AllocError),
        // Reading memory doesn't fail.
        Err(SidesError::Left | SidesError::Right) => unreachable!(),
    }
}

impl Question<'_> {
    /// The answer.
    ///
    /// # Errors
    ///
    /// Memory ran out.
    fn answer(self, alloc: Global, geometry: &Geometry) -> Result<Outcome, AllocError>
        ensures { IfOk result (answers self.entry geometry.now) }
    {
        match self {
            Question::Check(image) => run_check(alloc, geometry, image),
            Question::List(image) => run_list(alloc, geometry, image),
            Question::Show(image, block) => run_show(alloc, geometry, image, block),
            Question::Map(image) => run_map(alloc, geometry, image),
            Question::Compare(how, left, right) => compare(alloc, geometry, how, left, right),
        }
    }

    /// The answer under numbers.
    ///
    /// # Errors
    ///
    /// Memory ran out.
    fn answer_under(self, alloc: Global, sizes: &DeviceSizes) -> Result<Outcome, AllocError>
        ensures { IfOk result (λ o. Under sizes.now (λ s. printed (answers self.entry s)) o.text.items o.status) }
    {
        match geometry_of(sizes) {
            Ok(geometry) => self.answer(alloc, &geometry),
            Err(limit) => limit_outcome(alloc, limit),
        }
    }

    /// Hands over the answer under numbers; returns the status.
    fn tell(self, alloc: Global, sizes: &DeviceSizes, out: &mut [u8], len: &mut usize) -> u32
        ensures { Fills (Under sizes.now (λ s. printed (answers self.entry s))) out.old out.new len.new result }
    {
        hand_outcome(self.answer_under(alloc, sizes), out, len)
    }
}

/// The geometries that the headers of a dump give, as `geometry` prints them.
pub fn geometry(alloc: Global, image: &[u8], out: &mut [u8], len: &mut usize) -> u32
    ensures { Fills (printed (Detects format.Text whole_file image.now)) out.old out.new len.new result }
{
    hand_outcome(run_geometry(alloc, image), out, len)
}

/// The states of the eraseblocks of an image, as `check` prints them.
pub fn check(
    alloc: Global,
    sizes: &DeviceSizes,
    image: &[u8],
    out: &mut [u8],
    len: &mut usize,
) -> u32
    ensures { Fills (Under sizes.now (λ s. printed (Checks format.Text (image_of s image.now)))) out.old out.new len.new result }
{
    Question::Check(image).tell(alloc, sizes, out, len)
}

/// The volumes of an image, as `list` prints them.
pub fn list(
    alloc: Global,
    sizes: &DeviceSizes,
    image: &[u8],
    out: &mut [u8],
    len: &mut usize,
) -> u32
    ensures { Fills (Under sizes.now (λ s. printed (Lists format.Text (image_of s image.now)))) out.old out.new len.new result }
{
    Question::List(image).tell(alloc, sizes, out, len)
}

/// The headers of an eraseblock of an image, as `show` prints them.
pub fn show(
    alloc: Global,
    sizes: &DeviceSizes,
    image: &[u8],
    block: u32,
    out: &mut [u8],
    len: &mut usize,
) -> u32
    ensures { Fills (Under sizes.now (λ s. printed (Shows (image_of s image.now) block))) out.old out.new len.new result }
{
    Question::Show(image, block).tell(alloc, sizes, out, len)
}

/// A letter for each eraseblock of an image, as `map` prints them.
pub fn map(alloc: Global, sizes: &DeviceSizes, image: &[u8], out: &mut [u8], len: &mut usize) -> u32
    ensures { Fills (Under sizes.now (λ s. printed (Maps (image_of s image.now)))) out.old out.new len.new result }
{
    Question::Map(image).tell(alloc, sizes, out, len)
}

/// Whether two images have the same contents, as `same` prints it.
pub fn same(
    alloc: Global,
    sizes: &DeviceSizes,
    left: &[u8],
    right: &[u8],
    out: &mut [u8],
    len: &mut usize,
) -> u32
    ensures { Fills (Under sizes.now (λ s. printed (Compares (comparison.Same format.Text) (image_of s left.now) (image_of s right.now)))) out.old out.new len.new result }
{
    Question::Compare(Comparison::Same(Format::Text), left, right).tell(alloc, sizes, out, len)
}

/// Where two images differ, as `diff` prints it.
pub fn diff(
    alloc: Global,
    sizes: &DeviceSizes,
    left: &[u8],
    right: &[u8],
    out: &mut [u8],
    len: &mut usize,
) -> u32
    ensures { Fills (Under sizes.now (λ s. printed (Compares (comparison.Diff format.Text) (image_of s left.now) (image_of s right.now)))) out.old out.new len.new result }
{
    Question::Compare(Comparison::Diff(Format::Text), left, right).tell(alloc, sizes, out, len)
}
