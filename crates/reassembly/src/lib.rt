//! Messages longer than a frame, joined from the packets that were read of each source address (SAE J1939-21, section 5.10).
//!
//! `Partials` takes what was read, in its order: that a message was announced, each packet, and what ends a message before its
//! time. It says what each packet is to the message half read from its address, and gives the payload of one that is whole.
//! Who sends, what a message is about and what is answered is the caller's: a tag that the caller chooses stays with each
//! message.
#![tactic(auto)]

mod laws;
mod paces;
mod pacing;
mod pairs;
mod partial;
mod partials;
mod table;

pub use laws::{each_frame_has_its_last_moment, the_next_packet_is_read};
pub use paces::{Fate, PairedPaces, announces};
pub use pacing::{Awaited, Grant, Pace, Silence, Step};
pub use pairs::PairedPartials;
pub use partial::Partial;
pub use partials::Partials;
pub use table::AddressTable;
