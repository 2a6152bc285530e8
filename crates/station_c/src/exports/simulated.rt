//! A simulated unit in a handle: the functions that C calls.

mod faults;
mod frames;
mod messages;
mod open;
