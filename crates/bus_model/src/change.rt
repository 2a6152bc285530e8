use can_frame::Pgn;
use dm_messages::Kind;
use name_field::Name;

/// A NAME whose address another one claimed.
#[derive(Clone, Copy, PartialEq, Eq)]
pub struct Displaced {
    /// The NAME.
    pub name: Name,
    /// Whether that was its address until now, so that it has none any more. Else it had claimed another one since, or given up.
    pub lost: bool,
}

/// What one reading changes of what a station shows.
#[derive(Clone, Copy, PartialEq, Eq)]
pub enum Change {
    /// Nothing.
    Nothing,
    /// The NAME has this address, 0 to 253, and had not before (SAE J1939-81).
    Claimed {
        name: Name,
        address: u8,
        /// The other NAME that claimed it last, if one did.
        displaced: Option<Displaced>,
    },
    /// The NAME has no address: it cannot claim one (SAE J1939-81).
    GaveUp {
        name: Name,
    },
    /// The NAME acknowledged to the station (SAE J1939-21): 0 positive, 1 negative, 2 access denied, 3 cannot respond now.
    Acknowledged {
        name: Name,
        control: u8,
        pgn: Pgn,
        /// Whether its last acknowledgment was the same.
        again: bool,
    },
    /// A message of the NAME from this address is the newest entry of its list (SAE J1939-73).
    Listed {
        name: Name,
        kind: Kind,
        source: u8,
    },
    /// A message of the NAME from this address could not be read.
    Unreadable {
        name: Name,
        kind: Kind,
        source: u8,
    },
    /// A diagnostic message to all began at this address, which nobody has claimed in what was read.
    Unowned {
        kind: Kind,
        source: u8,
    },
    /// So many frames were missed: no address has an owner until NAMEs claim again.
    Missed {
        count: u32,
    },
}
