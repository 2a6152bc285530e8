//! The answer to a command of a script, and its line; apart from `script_run` for proof time alone.
#![tactic(auto)]

mod answer;
mod refusal;

pub use answer::{End, LineAnswer, Unwritten, put_answer};
pub use refusal::Refusal;
