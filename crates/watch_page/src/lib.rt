//! What a log told, as a page of HTML: how it stands, each unit, a lane for each in time, and each change.
//!
//! The page has no script and asks for nothing from a network. Text from outside goes through the one escape of `safe_text`. It is
//! also XML.
#![tactic(auto)]

mod axis;
mod bar_label;
mod bars;
mod changes;
mod chips;
mod ever_cell;
mod identifications;
mod labels;
mod lanes;
mod message_words;
mod moment;
mod page;
mod pieces;
mod silence;
mod since;
mod standing;
mod style;
mod table;
mod unit_list;
mod values;
mod view;
mod words;

pub use page::write_page;
pub use safe_text::PageFault;
pub use standing::Standing;
pub use unit_list::{Listed, MOST_LISTED, ORDERS, Presence};
pub use view::View;
