//! A listener: one who hears the messages between any two addresses of a bus, and takes no part (SAE J1939-21, -73 and -81).
//!
//! Nobody answers for it, so it sees for itself where a message ends before its last packet: at another announcement between the
//! same two addresses, at an abort by either, at a claim of the source under another NAME, at a gap, at a packet that is not the
//! next.
#![tactic(auto)]

mod broken;
mod ended;
mod entry;
mod laws;
mod listener;
mod lists;
mod newest;
mod paced;
mod sending;
mod unit_key;

pub use broken::{BrokenBy, BrokenMessage, BrokenMessages, was_whole};
pub use bus_model::{Displaced, Overheard, Who};
pub use entry::SentEntry;
pub use laws::{
    entries_of_sent_lists_were_sent, sent_lists_are_exact, sent_lists_are_what_was_overheard,
    whole_entries_are_what_was_overheard,
};
pub use listener::Listener;
pub use lists::SentLists;
pub use newest::{KeptEntry, NewestSent};
pub use paced::PacedListener;
pub use reassembly::{Fate, Silence};
pub use sending::Sending;
pub use unit_key::UnitKey;
