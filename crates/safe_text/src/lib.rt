//! Text from outside, made harmless for a terminal and for a page of HTML; and short text that is put together on the stack.
//!
//! A page is written piece by piece: markup of the program's own, numbers, and text from outside. That goes through one escape. In
//! what it writes no sign of markup stands but an `&` that begins an entity, and no control character; so such a text is text wherever
//! the page has it, also in an attribute, and for a reader of XML too.
//!
//! A page keeps the first fault that stops it, and takes nothing after that. Whoever writes one asks once, at its end.
#![tactic(auto)]

mod escape;
mod fault;
mod page;
mod seen;
mod text_buffer;

pub use escape::write_text;
pub use fault::PageFault;
pub use page::Page;
pub use seen::{Seen, SeenCharacter, SeenForm, SeenWriter, is_hidden, nothing_hidden_is_shown};
pub use text_buffer::{ROOM, TextBuffer};
