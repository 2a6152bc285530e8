use name_field::Name;

/// A unit of a log.
#[derive(Clone, Copy, PartialEq, Eq, PartialOrd, Ord)]
pub struct DrawnUnit {
    /// The place of its bus among those that are read, from 0.
    pub bus: u16,
    pub sender: Sender,
}

impl DrawnUnit {
    /// The unit of a NAME on a bus.
    pub fn named(bus: u16, name: Name) -> DrawnUnit {
        DrawnUnit {
            bus,
            sender: Sender::Named(name.number()),
        }
    }
}

/// Who sends on a bus.
#[derive(Clone, Copy, PartialEq, Eq, PartialOrd, Ord)]
pub enum Sender {
    /// The unit whose NAME has this number.
    Named(u64),
    /// Whoever sends from an address that nobody was seen to claim, between two gaps of missed frames.
    Unclaimed {
        /// 0 to 255.
        address: u8,
        /// How many gaps were before.
        gaps: u64,
    },
}
