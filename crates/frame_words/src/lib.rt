//! `decode`: what one line of a log says, in words, or a message that was joined from packets. No line is read with another in
//! mind.
#![tactic(auto)]

mod aborted;
mod audience;
mod group;
mod held;
mod line;
mod message;
mod names;

pub use aborted::AbortWords;
pub use audience::Audience;
pub use group::{AddressWords, ControlWords, GroupWords, UnreadWords};
pub use line::{write_joined_words, write_line_words};
pub use message::{code_list_name, write_message, write_payload};
pub use names::data_group_name;
