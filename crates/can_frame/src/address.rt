/// The greatest address that a unit can hold (SAE J1939-81).
pub const GREATEST_ADDRESS: u8 = 253;

/// How many addresses a unit can hold: 0 to the greatest one.
pub const HOLDABLE_ADDRESSES: usize = 254;

/// The null address, from which a unit says that it cannot claim one (SAE J1939-81).
pub const NULL_ADDRESS: u8 = 254;

/// The global address: the destination of what goes to all (SAE J1939-21).
pub const GLOBAL_ADDRESS: u8 = 255;
