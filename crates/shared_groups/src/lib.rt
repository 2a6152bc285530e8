//! Groups that a program shares with a station at one address: what of them is for the program, which messages come of it joined,
//! what is answered, and what goes of a message that the program sends (SAE J1939-21).
//!
//! It has no bus and no clock. It is handed what the bus says and the address that the station holds, keeps what is half joined and
//! what is sent, and hands out the frames that the station's caller writes from there, at the time that it tells.
#![tactic(auto)]

mod error;
mod hearing;
mod joining;
mod laws;
mod message;
mod outgoing;
mod sending;
mod shared;
mod waiting;

pub use error::SharedError;
pub use joining::Tag;
pub use laws::{a_packet_goes_again_twice, a_part_goes_where_it_may, what_is_granted_may_go};
pub use message::SharedMessage;
pub use outgoing::Sent;
pub use sending::MOST_BYTES_SENT;
pub use shared::{SharedGroups, is_sharable};
pub use waiting::{MOST_WAITING, Waiting};
