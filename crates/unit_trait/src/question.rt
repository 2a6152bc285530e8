/// Which trouble codes are to be cleared.
#[derive(Clone, Copy, PartialEq, Eq)]
pub enum Clear {
    /// The active ones, and with them the pending ones (SAE J1939-73, DM11).
    Active,
    /// The previously active ones (DM3).
    Previous,
}

/// What the bus may ask of a unit; the unit agrees to it or not.
#[derive(Clone, Copy, PartialEq, Eq)]
pub enum Question {
    /// To clear trouble codes.
    Clear(Clear),
    /// To hold this address, 0 to 253 (SAE J1939-81, commanded address).
    Hold(u8),
}
