use can_frame::Frame;

/// How what a unit writes is not what its rules owe.
#[derive(Clone, Copy)]
pub enum Deviation {
    /// A frame does not go.
    Drop,
    /// It goes so many milliseconds later.
    Delay(u32),
    /// It goes twice.
    Twice,
    /// A packet of a message (SAE J1939-21, data transfer) has the number behind its own.
    Number,
    /// A frame lacks its last byte.
    Short,
    /// A DM1 in one frame is padded with zeros, where SAE J1939-73 wants FF.
    Zeros,
    /// The code of a DM1 in one frame has an older conversion method (SAE J1939-73): its bit 1 is set.
    Old,
    /// This frame goes again and again, from the unit's address, so many milliseconds apart.
    Babble { frame: Frame, period: u32 },
    /// A claim of this address goes, which the unit need not hold, so many milliseconds apart.
    Steal { address: u8, period: u32 },
}

/// A fault that a unit has on purpose.
#[derive(Clone, Copy)]
pub struct FailLine {
    pub deviation: Deviation,
    /// From when on, in milliseconds: from the first moment at which it may do anything.
    pub after: u32,
    /// How often, and for how many milliseconds; neither ends it where it is none.
    pub count: Option<u32>,
    pub time: Option<u32>,
    /// The group of the frames that it is for; those of all where it is none.
    pub group: Option<u32>,
    /// How many of 100 such frames it changes, as numbers from a seed choose them.
    pub share: u8,
    pub seed: u32,
}
