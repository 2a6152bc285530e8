use name_field::Name;
use station_table::Ask;

/// What a station is told to send.
#[derive(Clone, Copy, PartialEq, Eq)]
pub enum Order {
    /// A request to the address that is known of this NAME.
    Ask { name: Name, ask: Ask },
    /// A request to all.
    AskAll { ask: Ask },
    /// The command to hold another address.
    Command { name: Name, address: u8 },
}
