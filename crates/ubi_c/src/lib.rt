//! The calls of `ubi_calls`, for C. `c/include/ubi.h` declares them.
#![tactic(auto)]

ghost use Rattle.ubi_scan.specs.Image.{image_of};
ghost use Rattle.ubi_files.specs.Views.{whole_file};
ghost use Rattle.ubi_reading.specs.Check.{Checks};
ghost use Rattle.ubi_reading.specs.Comparisons.{Compares};
ghost use Rattle.ubi_reading.specs.Geometry.{Detects};
ghost use Rattle.ubi_reading.specs.List.{Lists};
ghost use Rattle.ubi_reading.specs.Map.{Maps};
ghost use Rattle.ubi_reading.specs.Show.{Shows};
ghost use Rattle.ubi_reading.specs.declared.comparison.Comparison.TheVariants as comparison;
ghost use Rattle.ubi_reading.specs.declared.format.Format.TheVariants as format;
ghost use Rattle.ubi_calls.specs.Calls.{Fills, FillsBoth, Streams, Under, printed};
ghost use Rattle.ubi_calls.specs.Contents.{Normal, ReadsContents};
ghost use Rattle.ubi_calls.specs.Edits.{PlansChange, PlansRename, PlansUpdate, image_without, spared};

use std::alloc::Global;
use ubi_calls::DeviceSizes;

/// The geometries that the headers of a dump give, as `geometry` prints them.
#[unsafe(no_mangle)]
pub extern "C" fn ubi_geometry(alloc: Global, image: &[u8], out: &mut [u8], len: &mut usize) -> u32
    ensures { Fills (printed (Detects format.Text whole_file image.now)) out.old out.new len.new result }
{
    ubi_calls::geometry(alloc, image, out, len)
}

/// The states of the eraseblocks of an image, as `check` prints them.
#[unsafe(no_mangle)]
pub extern "C" fn ubi_check(
    alloc: Global,
    sizes: &DeviceSizes,
    image: &[u8],
    out: &mut [u8],
    len: &mut usize,
) -> u32
    ensures { Fills (Under sizes.now (λ s. printed (Checks format.Text (image_of s image.now)))) out.old out.new len.new result }
{
    ubi_calls::check(alloc, sizes, image, out, len)
}

/// The volumes of an image, as `list` prints them.
#[unsafe(no_mangle)]
pub extern "C" fn ubi_list(
    alloc: Global,
    sizes: &DeviceSizes,
    image: &[u8],
    out: &mut [u8],
    len: &mut usize,
) -> u32
    ensures { Fills (Under sizes.now (λ s. printed (Lists format.Text (image_of s image.now)))) out.old out.new len.new result }
{
    ubi_calls::list(alloc, sizes, image, out, len)
}

/// The headers of an eraseblock of an image, as `show` prints them.
#[unsafe(no_mangle)]
pub extern "C" fn ubi_show(
    alloc: Global,
    sizes: &DeviceSizes,
    image: &[u8],
    block: u32,
    out: &mut [u8],
    len: &mut usize,
) -> u32
    ensures { Fills (Under sizes.now (λ s. printed (Shows (image_of s image.now) block))) out.old out.new len.new result }
{
    ubi_calls::show(alloc, sizes, image, block, out, len)
}

/// A letter for each eraseblock of an image, as `map` prints them.
#[unsafe(no_mangle)]
pub extern "C" fn ubi_map(
    alloc: Global,
    sizes: &DeviceSizes,
    image: &[u8],
    out: &mut [u8],
    len: &mut usize,
) -> u32
    ensures { Fills (Under sizes.now (λ s. printed (Maps (image_of s image.now)))) out.old out.new len.new result }
{
    ubi_calls::map(alloc, sizes, image, out, len)
}

/// The contents of the volume with this number, or the line of the refusal, as `extract` prints it.
#[unsafe(no_mangle)]
pub extern "C" fn ubi_read(
    alloc: Global,
    sizes: &DeviceSizes,
    image: &[u8],
    id: u32,
    out: &mut [u8],
    len: &mut usize,
) -> u32
    ensures { Streams (Under sizes.now (λ s. ReadsContents (image_of s image.now) id)) out.old out.new len.new result }
{
    ubi_calls::read(alloc, sizes, image, id, out, len)
}

/// The normal image, or the line of the refusal, as `normalise` prints it.
#[unsafe(no_mangle)]
pub extern "C" fn ubi_normalise(
    alloc: Global,
    sizes: &DeviceSizes,
    image: &[u8],
    out: &mut [u8],
    len: &mut usize,
) -> u32
    ensures { Streams (Under sizes.now (λ s. Normal (image_of s image.now))) out.old out.new len.new result }
{
    ubi_calls::normalise(alloc, sizes, image, out, len)
}

/// Whether two images have the same contents, as `same` prints it.
#[unsafe(no_mangle)]
pub extern "C" fn ubi_same(
    alloc: Global,
    sizes: &DeviceSizes,
    left: &[u8],
    right: &[u8],
    out: &mut [u8],
    len: &mut usize,
) -> u32
    ensures { Fills (Under sizes.now (λ s. printed (Compares (comparison.Same format.Text) (image_of s left.now) (image_of s right.now)))) out.old out.new len.new result }
{
    ubi_calls::same(alloc, sizes, left, right, out, len)
}

/// Where two images differ, as `diff` prints it.
#[unsafe(no_mangle)]
pub extern "C" fn ubi_diff(
    alloc: Global,
    sizes: &DeviceSizes,
    left: &[u8],
    right: &[u8],
    out: &mut [u8],
    len: &mut usize,
) -> u32
    ensures { Fills (Under sizes.now (λ s. printed (Compares (comparison.Diff format.Text) (image_of s left.now) (image_of s right.now)))) out.old out.new len.new result }
{
    ubi_calls::diff(alloc, sizes, left, right, out, len)
}

/// The plan of a change of a logical eraseblock on a chip with these bad eraseblocks: its lines, as `change` prints them, and the pages
/// that its steps program. `keep_blank` is `--blank keep`.
#[unsafe(no_mangle)]
pub extern "C" fn ubi_change(
    alloc: Global,
    sizes: &DeviceSizes,
    image: &[u8],
    bad: &[u32],
    keep_blank: bool,
    id: u32,
    lnum: u32,
    new: &[u8],
    out: &mut [u8],
    len: &mut usize,
    pages: &mut [u8],
    pages_len: &mut usize,
) -> u32
    ensures { FillsBoth (λ programmed. Under sizes.now (λ s. PlansChange (image_without s bad.now image.now) (spared s bad.now keep_blank image.now) id lnum new.now programmed)) out.old out.new len.new pages.old pages.new pages_len.new result }
{
    ubi_calls::change(
        alloc, sizes, image, bad, keep_blank, id, lnum, new, out, len, pages, pages_len,
    )
}

/// The plan of a rename of a volume, likewise.
#[unsafe(no_mangle)]
pub extern "C" fn ubi_rename(
    alloc: Global,
    sizes: &DeviceSizes,
    image: &[u8],
    bad: &[u32],
    keep_blank: bool,
    id: u32,
    name: &[u8],
    out: &mut [u8],
    len: &mut usize,
    pages: &mut [u8],
    pages_len: &mut usize,
) -> u32
    ensures { FillsBoth (λ programmed. Under sizes.now (λ s. PlansRename (image_without s bad.now image.now) (spared s bad.now keep_blank image.now) id name.now programmed)) out.old out.new len.new pages.old pages.new pages_len.new result }
{
    ubi_calls::rename(
        alloc, sizes, image, bad, keep_blank, id, name, out, len, pages, pages_len,
    )
}

/// The plan of edits of whole volumes in one commit, likewise: those for which the lines of a text ask, and the contents that they write,
/// one after the other.
#[unsafe(no_mangle)]
pub extern "C" fn ubi_update(
    alloc: Global,
    sizes: &DeviceSizes,
    image: &[u8],
    bad: &[u32],
    keep_blank: bool,
    edits: &[u8],
    contents: &[u8],
    out: &mut [u8],
    len: &mut usize,
    pages: &mut [u8],
    pages_len: &mut usize,
) -> u32
    ensures { FillsBoth (λ programmed. Under sizes.now (λ s. PlansUpdate (image_without s bad.now image.now) (spared s bad.now keep_blank image.now) edits.now contents.now programmed)) out.old out.new len.new pages.old pages.new pages_len.new result }
{
    ubi_calls::update(
        alloc, sizes, image, bad, keep_blank, edits, contents, out, len, pages, pages_len,
    )
}
