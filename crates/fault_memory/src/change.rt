use trouble_code::Lamps;

/// A change of a fault memory.
#[derive(Clone, Copy, PartialEq, Eq)]
pub enum FaultChange {
    /// A fault is there: its code becomes active.
    Set { spn: u32, fmi: u8 },
    /// A fault has gone: its active code becomes a previously active one.
    Heal { spn: u32, fmi: u8 },
    /// A fault was seen and is not confirmed yet: a new code becomes pending.
    Pend { spn: u32, fmi: u8 },
    /// A pending fault was not seen again: its code goes away.
    Unpend { spn: u32, fmi: u8 },
    /// All lamps and flash codes are replaced.
    Lamp { lamps: Lamps },
}
