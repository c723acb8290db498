// The kind of a message by its name.
ghost use Rattle.std.specs.Prelude.{◌≡◌};
ghost use Rattle.table.specs.Table.{kind_of};

use crate::data::entries;

/// The number of the message of that name, or 0.
pub fn kind_named(name: &[u8]) -> u8
    ensures { result ≡ kind_of name.now }
{
    match entries().iter().position(|entry| entry.name == name) {
        Some(i) => i as u8 + 1,
        None => 0,
    }
}
