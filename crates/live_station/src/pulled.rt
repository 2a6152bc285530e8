use crate::verdict::Verdict;
use bus_model::Change;
use can_frame::Frame;

/// What came of a frame, or of frames that were missed.
#[derive(Clone, Copy)]
pub struct Told {
    /// What it changed of what the station knows (`bus_model`). A message that ended is in the lists.
    pub change: Change,
    /// The verdict of the open order, which it ended.
    pub verdict: Option<Verdict>,
    /// Whether it is from the station's own address, and somebody else wrote it.
    pub stranger: bool,
}

/// What goes at a time.
#[derive(Clone, Copy)]
pub enum Pulled {
    /// Nothing more.
    Nothing,
    /// A frame, which is written, as far as the station knows: there is no way back.
    Frame {
        frame: Frame,
        /// Whether the open order wrote it.
        of_order: bool,
    },
    /// The verdict of the open order, which ended.
    Verdict(Verdict),
}
