//! Packets of a message that are put together again.

use transport::{Assembly, Payload, Took};

/// Takes a packet, and gives the payload where that was the last one; nothing where it was another, or out of order.
pub fn whole_with(assembly: Assembly, part: &[u8]) -> Option<Payload> {
    let mut assembly = assembly;
    match assembly.take(part) {
        Took::Whole => Some(assembly.finish()),
        Took::More | Took::Broken => None,
    }
}
