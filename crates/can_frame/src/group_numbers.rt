//! The numbers of the parameter groups (SAE J1939-21, -73, -81). Definitions cite them, and `Pgn` has a constant for each.

/// Acknowledgment.
pub const ACKNOWLEDGMENT: u32 = 59392;

/// Request.
pub const REQUEST: u32 = 59904;

/// Transport protocol, data transfer (TP.DT).
pub const DATA_TRANSFER: u32 = 60160;

/// Transport protocol, connection management (TP.CM).
pub const CONNECTION_MANAGEMENT: u32 = 60416;

/// Address claimed, and cannot claim.
pub const ADDRESS_CLAIMED: u32 = 60928;

/// Active trouble codes (DM1).
pub const DM1: u32 = 65226;

/// Previously active trouble codes (DM2).
pub const DM2: u32 = 65227;

/// Clear the previously active trouble codes (DM3).
pub const DM3: u32 = 65228;

/// Pending trouble codes (DM6).
pub const DM6: u32 = 65231;

/// Clear the active trouble codes (DM11).
pub const DM11: u32 = 65235;

/// Commanded address.
pub const COMMANDED_ADDRESS: u32 = 65240;
