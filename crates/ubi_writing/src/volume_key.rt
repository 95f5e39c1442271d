//! Which volume the words name.

ghost use Rattle.std.specs.Prelude.{◌≡◌};
ghost use Rattle.ubi_writing.specs.Key.{number_in};

use ubi_compose::shown_name;
use ubi_table::Table;

/// A volume of an image: by its number, or by its name.
#[derive(Clone, Copy)]
pub enum VolumeKey<'a> {
    /// The volume with a number.
    Id(u32),
    /// The volume with a name, in the form in which names are printed.
    Name(&'a str),
}

impl VolumeKey<'_> {
    /// The number of the volume. `None` if it is given by its name, and no volume of the table has that name.
    pub fn number_in(&self, table: &Table) -> Option<u32>
        ensures { result ≡ number_in table.now self.now }
    {
        match self {
            VolumeKey::Id(id) => Some(*id),
            VolumeKey::Name(word) => table.number_named(&shown_name(word.as_bytes())?),
        }
    }
}
