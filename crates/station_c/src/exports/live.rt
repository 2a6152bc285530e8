//! A live station in a handle: one that says when what is written, and carries out orders. Each function takes a handle that it may find
//! empty.

mod frames;
mod lists;
mod named;
mod open;
mod orders;
mod saving;
mod sending;
mod shared;
mod units;
