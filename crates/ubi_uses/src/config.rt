//! A caller of `ubi_config`.

ghost use Rattle.std.specs.Prelude.{◌≡◌, IfErr, IfOk, length};
ghost use Rattle.ubi_config.specs.Config.{IsFault, first_config_fault, sections_of};

use std::alloc::Global;
use ubi_config::{ConfigError, parse_config};

/// How many volumes a config describes, or its first fault.
pub fn volume_count(alloc: Global, text: &[u8]) -> Result<usize, ConfigError>
    ensures count { IfOk result (λ count. count ≡ length (sections_of text.now)) }
    ensures refused { IfErr result (IsFault (first_config_fault text.now)) }
{
    let sections = parse_config(alloc, text)?;
    Ok(sections.as_slice().len())
}
