use dm_messages::{Kind, Shown};
use name_field::Name;

/// An entry for a list: a diagnostic message that ended and can be read.
#[derive(Drop)]
pub struct NewEntry {
    /// Whose it is: the owner of its source address when it began.
    pub name: Name,
    /// Of which kind it is.
    pub kind: Kind,
    /// The address from which it came, 0 to 255.
    pub source: u8,
    /// What it shows.
    pub shown: Shown,
}
