use bus_model::Who;
use dm_messages::{Kind, MessageRead};

/// An entry for a list: a diagnostic message that ended, of which its lamps at least can be read.
#[derive(Drop)]
pub struct SentEntry {
    /// Whose it is: the owner of its source address when it began, or where that had none, the address itself.
    pub who: Who,
    /// Of which kind it is.
    pub kind: Kind,
    /// The address from which it came, 0 to 255.
    pub source: u8,
    /// The address that it went to, 255 for all.
    pub to: u8,
    /// What was read of it.
    pub read: MessageRead,
}
