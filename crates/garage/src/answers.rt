use bus_ledger::Carried;
use can_frame::Frame;

/// What a unit heard.
#[derive(Clone, Copy, PartialEq, Eq)]
pub enum HeardOne {
    /// It has heard the whole wire.
    Nothing,
    /// This frame.
    Frame(Frame),
}

/// What came of beginning a DM1.
#[derive(Clone, Copy, Debug, PartialEq, Eq)]
pub enum Begin {
    /// It has begun.
    Begun,
    /// A session of a DM1 is open, so none has begun.
    Held,
}

/// What came of rounds.
#[derive(Clone, Copy, Debug, PartialEq, Eq)]
pub struct Rounds {
    /// How many frames were carried.
    pub carried: u32,
    /// Why no more, where it was fewer than asked for: no frame waits, or none of a unit that has heard all.
    pub end: Option<Carried>,
}
