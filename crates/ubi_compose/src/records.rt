//! The bytes of the volume table of a meaning, and of volumes to build.

ghost use Rattle.std.specs.FinMap as finite;
ghost use Rattle.std.specs.Option.{ForSome, option_copied};
ghost use Rattle.std.specs.Prelude.{◌≡◌, IfOk, None, option_map};
ghost use Rattle.ubi_media.specs.Record.{rec_fault};
ghost use Rattle.ubi_table.specs.Records.{table_bytes};
ghost use Rattle.ubi_volume.specs.Meant.{records_of};
ghost use Rattle.ubi_compose.specs.inner.Building.{part_at, table_of};

use crate::built_image::Recipe;
use std::alloc::{AllocError, Global};
use ubi_media::{RECORD_SIZE, VolumeRecord, write_rec};
use ubi_volume::Meaning;

/// The record of a volume, `None` if there is none.
fn entry_of(meaning: &Meaning, id: u32) -> Option<&VolumeRecord>
    ensures entry { option_copied result ≡ finite.get (records_of meaning.now).of id }
    ensures sound { ForSome (option_copied result) (λ r. rec_fault meaning.now.sizes r ≡ None) }
{
    meaning.get(id).map(|volume| &volume.entry)
}

/// The bytes of the volume table of a meaning.
pub fn table_text(alloc: Global, meaning: &Meaning) -> Result<Vec<u8>, AllocError>
    ensures { IfOk result (λ text. text.items ≡ table_bytes (records_of meaning.now)) }
{
    let geometry = meaning.geometry();
    let mut text = Vec::with_capacity(alloc, geometry.slots() as usize * RECORD_SIZE)?;
    for slot in 0..geometry.slots() {
        text.extend_from_slice(&write_rec(&geometry, entry_of(meaning, slot)))?;
    }
    Ok(text)
}

/// The record of a volume to build, `None` if there is none.
fn built_entry(recipe: &Recipe, id: u32) -> Option<&VolumeRecord>
    ensures entry { option_copied result ≡ option_map (λ p. p.entry) (part_at recipe.now id) }
    ensures sound { ForSome (option_copied result) (λ r. rec_fault recipe.now.sizes r ≡ None) }
{
    recipe.part(id).map(|part| &part.entry)
}

/// The bytes of the volume table of volumes to build.
pub fn recipe_text(alloc: Global, recipe: &Recipe) -> Result<Vec<u8>, AllocError>
    ensures { IfOk result (λ text. text.items ≡ table_of recipe.now) }
{
    let geometry = recipe.geometry();
    let mut text = Vec::with_capacity(alloc, geometry.slots() as usize * RECORD_SIZE)?;
    for slot in 0..geometry.slots() {
        text.extend_from_slice(&write_rec(&geometry, built_entry(recipe, slot)))?;
    }
    Ok(text)
}
