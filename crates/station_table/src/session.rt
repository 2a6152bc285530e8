use dm_messages::Kind;

/// A session with the station of which packets are missing.
#[derive(Clone, Copy)]
pub struct Session {
    /// Of which kind its message is.
    pub kind: Kind,
    /// How many packets it has, 2 to 255.
    pub packets: u8,
    /// How many were joined.
    pub taken: u8,
    /// How many one grant gives at most, at least one.
    pub at_once: u8,
}
