use crate::change::Displaced;
use crate::who::Who;
use can_frame::Pgn;
use dm_messages::{Kind, ReadError};
use name_field::Name;

/// What one reading changes of what a listener shows: one who hears all messages on a bus, and takes no part.
#[derive(Clone, Copy, PartialEq, Eq)]
pub enum Overheard {
    /// Nothing.
    Nothing,
    /// The NAME has this address, 0 to 253, and had not before (SAE J1939-81).
    Claimed {
        name: Name,
        address: u8,
        /// The other NAME that claimed it last, if one did.
        displaced: Option<Displaced>,
    },
    /// The NAME has no address: it cannot claim one (SAE J1939-81).
    GaveUp {
        name: Name,
    },
    /// The NAME acknowledged (SAE J1939-21): 0 positive, 1 negative, 2 access denied, 3 cannot respond now.
    Acknowledged {
        name: Name,
        control: u8,
        pgn: Pgn,
        /// The address that it came from.
        source: u8,
        /// The address that it names as the one that asked.
        requester: u8,
        /// The address that the acknowledgment went to, 255 for all.
        to: u8,
        /// Whether its last acknowledgment was of the same group with the same control, to whomever.
        again: bool,
    },
    /// A message from this address is the newest entry of its list (SAE J1939-73).
    Listed {
        who: Who,
        kind: Kind,
        source: u8,
        /// The address that it went to, 255 for all.
        to: u8,
    },
    /// The same of a message that is not as the standard has it, as far as it can be read: its lamps, and each readable code.
    ListedInPart {
        who: Who,
        kind: Kind,
        source: u8,
        /// The address that it went to, 255 for all.
        to: u8,
    },
    /// A message from this address could not be read: not even its lamps are whole.
    Unreadable {
        who: Who,
        kind: Kind,
        source: u8,
        /// The address that it went to, 255 for all.
        to: u8,
        /// What is wrong with it, which is never `OutOfMemory`.
        why: ReadError,
    },
    /// A diagnostic message to all was announced in packets from this address, which nobody has claimed in what was read.
    Unowned {
        kind: Kind,
        source: u8,
    },
    /// So many frames were missed: no address has an owner until NAMEs claim again.
    Missed {
        count: u32,
    },
}
