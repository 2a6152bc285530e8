use crate::frame::Frame;

/// What a listener gets from the bus.
#[derive(Clone, Copy, Debug, PartialEq, Eq)]
pub enum Reading {
    /// The next frame.
    Frame(Frame),
    /// This many frames were missed.
    Gap(u32),
    /// There is no frame that was not read or missed.
    Empty,
}
