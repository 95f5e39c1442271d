//! The eraseblocks that a word lists as bad.

ghost use Rattle.std.specs.List.{list_all, slice_split};
ghost use Rattle.std.specs.Prelude.{◌≡◌, ◌==◌, ◌∷◌, [], IfOk, filter_map, is_some, map};
ghost use Rattle.std.specs.Str.Parse.{without_leading_plus};
ghost use Rattle.ubi_files.specs.BadBlocks.{bad_marks, block_number, is_block_list, marks_by_number, one_block, range_between, range_of, ranges_of, with_ranges};

use std::alloc::{AllocError, Global};
use ubi_words::{cut, decimal_of};

/// Eraseblocks by their numbers: the first, the last, and all between them.
#[derive(Clone, Copy)]
pub struct BlockRange {
    /// The number of the first.
    pub first: u32,
    /// The number of the last, which isn't less.
    pub last: u32,
}

/// Bytes without a leading plus.
pub fn without_plus(word: &[u8]) -> &[u8]
    ensures { result.now ≡ without_leading_plus word.now }
{
    if !word.is_empty() && word[0] == b'+' {
        &word[1..]
    } else {
        word
    }
}

/// The number that decimal digits stand for, where a plus may stand first. `None` if a word isn't one, or is above 4294967295.
fn block_number(word: &[u8]) -> Option<u32>
    ensures { result ≡ block_number word.now }
{
    let digits = without_plus(word);
    if digits.is_empty() {
        return None;
    }
    decimal_of(digits)
}

/// The range from one number to another. `None` if the other is less.
fn range_between(first: u32, last: u32) -> Option<BlockRange>
    ensures { result ≡ range_between first last }
{
    if first <= last {
        Some(BlockRange { first, last })
    } else {
        None
    }
}

/// The eraseblocks that an item of a list names: one number, or two with a hyphen between them.
fn range_of(item: &[u8]) -> Option<BlockRange>
    ensures { result ≡ range_of item.now }
{
    let (first, more) = cut(item, b'-');
    let Some(rest) = more else {
        let number = block_number(first)?;
        return range_between(number, number);
    };
    let (last, behind) = cut(rest, b'-');
    if behind.is_some() {
        return None;
    }
    range_between(block_number(first)?, block_number(last)?)
}

/// Whether a word is a list of eraseblocks: items separated by single commas, or an empty word.
pub fn is_block_list(word: &[u8]) -> bool
    ensures { result ≡ is_block_list word.now }
{
    word.is_empty() || are_ranges(word)
}

/// Whether each item is a number or a range.
fn are_ranges(items: &[u8]) -> bool
    ensures { result ≡ list_all (λ item. is_some (range_of item)) (slice_split (λ b. b == 44) items.now) }
{
    let mut rest = items;
    'items: loop {
        let (item, more) = cut(rest, b',');
        if range_of(item).is_none() {
            return false;
        }
        let Some(behind) = more else {
            return true;
        };
        rest = behind;
    }
}

/// Marks the eraseblocks of a range, as far as they have marks.
fn mark_range(marks: &mut [bool], range: BlockRange)
    ensures { marks.new ≡ with_ranges marks.old (range ∷ []) }
{
    let start = range.first as usize;
    let end = marks.len().min(range.last as usize + 1);
    if start < end {
        marks[start..end].fill(true);
    }
}

/// Marks the eraseblocks that an item names, if it names some.
fn mark_item(marks: &mut [bool], item: &[u8])
    ensures { marks.new ≡ with_ranges marks.old (filter_map range_of (item.now ∷ [])) }
{
    if let Some(range) = range_of(item) {
        mark_range(marks, range);
    }
}

/// Marks the eraseblocks that items name.
fn mark_items(marks: &mut [bool], items: &[u8])
    ensures { marks.new ≡ with_ranges marks.old (filter_map range_of (slice_split (λ b. b == 44) items.now)) }
{
    let mut rest = items;
    'items: loop {
        let (item, more) = cut(rest, b',');
        mark_item(marks, item);
        let Some(behind) = more else {
            return;
        };
        rest = behind;
    }
}

/// Marks the eraseblocks that a word lists.
fn mark_list(marks: &mut [bool], word: &[u8])
    ensures { marks.new ≡ with_ranges marks.old (ranges_of word.now) }
{
    if !word.is_empty() {
        mark_items(marks, word);
    }
}

/// Whether a word lists each of `pebs` eraseblocks.
///
/// # Errors
///
/// Memory ran out.
pub fn bad_marks(alloc: Global, pebs: u32, word: &[u8]) -> Result<Vec<bool>, AllocError>
    ensures { IfOk result (λ marks. marks.items ≡ bad_marks pebs word.now) }
{
    let mut marks = Vec::from_elem(alloc, false, pebs as usize)?;
    mark_list(marks.as_mut_slice(), word);
    Ok(marks)
}

/// Marks the eraseblocks with these numbers, as far as they have marks.
fn mark_numbers(marks: &mut [bool], numbers: &[u32])
    ensures { marks.new ≡ with_ranges marks.old (map one_block numbers.now) }
{
    for i in 0..numbers.len() {
        let first = numbers[i];
        mark_range(marks, BlockRange { first, last: first });
    }
}

/// Whether each of `pebs` eraseblocks has one of these numbers. If there are no numbers, there are no marks.
///
/// # Errors
///
/// Memory ran out.
pub fn marks_by_number(alloc: Global, pebs: u32, numbers: &[u32]) -> Result<Vec<bool>, AllocError>
    ensures { IfOk result (λ marks. marks.items ≡ marks_by_number pebs numbers.now) }
{
    if numbers.is_empty() {
        return Ok(Vec::new(alloc));
    }
    let mut marks = Vec::from_elem(alloc, false, pebs as usize)?;
    mark_numbers(marks.as_mut_slice(), numbers);
    Ok(marks)
}
