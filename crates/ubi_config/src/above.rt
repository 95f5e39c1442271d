//! What is wrong with a line by those above it.

ghost use Rattle.std.specs.Bool.{then_some};
ghost use Rattle.std.specs.List.{list_any};
ghost use Rattle.std.specs.Prelude.{◌≡◌, count_by};
ghost use Rattle.ubi_config.specs.Above.{gives_id, gives_name, heading_cause, is_autoresize, is_heading, is_titled, later_cause, own, sets, setting_cause, shared_cause};

use crate::errors::ConfigCause;
use crate::key::Key;
use crate::line::Line;

/// How many sections a config has at most.
const MOST_SECTIONS: usize = 128;

/// Whether a line above in the same section sets the key.
fn is_set(above: &[Line], key: Key) -> bool
    ensures { result ≡ list_any (sets key) (own above.now) }
{
    above
        .iter()
        .rev()
        .take_while(|line| line.is_setting())
        .any(|line| line.sets(key))
}

/// Whether a line above begins the section of a name.
fn has_title(above: &[Line], name: &[u8]) -> bool
    ensures { result ≡ list_any (is_titled name.now) above.now }
{
    above.iter().any(|line| line.is_titled(name))
}

/// How many sections the lines above begin.
fn section_count(above: &[Line]) -> usize
    ensures { result ≡ count_by is_heading above.now }
{
    above.iter().filter(|line| line.is_heading()).count()
}

/// Whether a line above begins a section.
fn has_heading(above: &[Line]) -> bool
    ensures { result ≡ list_any is_heading above.now }
{
    above.iter().any(|line| line.is_heading())
}

/// Whether a line above gives this number of a volume.
fn has_id(above: &[Line], id: u32) -> bool
    ensures { result ≡ list_any (gives_id id) above.now }
{
    above.iter().any(|line| line.gives_id(id))
}

/// Whether a line above gives this name of a volume.
fn has_name(above: &[Line], name: &[u8]) -> bool
    ensures { result ≡ list_any (gives_name name.now) above.now }
{
    above.iter().any(|line| line.gives_name(name))
}

/// Whether a line above lets its volume grow.
fn has_autoresize(above: &[Line]) -> bool
    ensures { result ≡ list_any is_autoresize above.now }
{
    above.iter().any(|line| line.is_autoresize())
}

/// A cause, if it holds.
fn cause_if(holds: bool, cause: ConfigCause) -> Option<ConfigCause>
    ensures { result ≡ then_some holds cause }
{
    if holds { Some(cause) } else { None }
}

/// What is wrong with a line that begins a section, by the lines above it.
#[tactic(auto, unfolding(crate::specs::Above::heading_cause))]
fn heading_cause(above: &[Line], name: &[u8]) -> Option<ConfigCause>
    ensures { result ≡ heading_cause above.now name.now }
{
    if has_title(above, name) {
        return Some(ConfigCause::Again);
    }
    if section_count(above) >= MOST_SECTIONS {
        return Some(ConfigCause::TooMany);
    }
    None
}

/// What is wrong with a line that sets a key, by the lines above it in all sections.
fn shared_cause(above: &[Line], line: &Line) -> Option<ConfigCause>
    ensures { result ≡ shared_cause above.now line.now }
{
    match line {
        Line::Id(id) => cause_if(has_id(above, *id), ConfigCause::SameId),
        Line::Name(name) => cause_if(has_name(above, name.as_bytes()), ConfigCause::SameName),
        Line::Autoresize => cause_if(has_autoresize(above), ConfigCause::Autoresize),
        _ => None,
    }
}

/// What is wrong with a line that sets a key, by the lines above it: in its section, or else in all.
#[tactic(auto, unfolding(crate::specs::Above::setting_cause))]
fn setting_cause(above: &[Line], key: Key, line: &Line) -> Option<ConfigCause>
    ensures { result ≡ setting_cause above.now key line.now }
{
    if !has_heading(above) {
        return Some(ConfigCause::NoSection);
    }
    if is_set(above, key) {
        return Some(ConfigCause::Again);
    }
    shared_cause(above, line)
}

/// What is wrong with a line by those above it.
#[tactic(auto, unfolding(crate::specs::Above::later_cause))]
pub(crate) fn later_cause(above: &[Line], line: &Line) -> Option<ConfigCause>
    ensures { result ≡ later_cause above.now line.now }
{
    if let Line::Heading(_, name) = line {
        return heading_cause(above, name.as_bytes());
    }
    setting_cause(above, line.key()?, line)
}
