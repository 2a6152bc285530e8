//! `decode`: the lines of a log, each in words or as a JSON object, with a shop's own texts for its codes; and messages joined from
//! packets, behind the line of their last one.
#![tactic(auto)]

mod halves;
mod joined;
mod joining;
mod object_writer;
mod objects;
mod run;
mod value_objects;

pub use run::{DecodeForm, DecodeOptions, decode};
pub use shop_texts::{SheetFault, Texts};
