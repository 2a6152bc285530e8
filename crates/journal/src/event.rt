use crate::order::Order;
use can_frame::{Frame, Reading};
use fault_memory::FaultMemory;
use name_field::Name;
use node_core::Answer;

/// One event of the system, as contracts see it. What a unit chose is recorded with it. `Journal` keeps it in a note.
#[derive(Drop)]
pub enum Event {
    /// A unit of this NAME got this seat, the next one, and claims this address.
    Join {
        seat: u32,
        name: Name,
        address: u8,
    },
    /// A unit heard its next frame with this memory. What the frame put to it, it answered so.
    Hear {
        seat: u32,
        memory: FaultMemory,
        answer: Answer,
    },
    /// A unit began a DM1 of this memory.
    Begin {
        seat: u32,
        memory: FaultMemory,
    },
    /// A turn of a unit was over.
    Turned {
        seat: u32,
    },
    /// The first frame of this seat's queue was carried.
    Carry {
        seat: u32,
    },
    /// The station with this number took this reading.
    Read {
        station: u32,
        reading: Reading,
    },
    /// The station with this number queued what it was told to send.
    Ordered {
        station: u32,
        order: Order,
    },
    /// A unit left.
    Leave {
        seat: u32,
    },
    /// A frame that no seat sent was put on the wire from outside.
    Inject {
        frame: Frame,
    },
}
