use crate::order::Order;
use can_frame::{Frame, Reading};
use name_field::Name;
use node_core::Answer;

/// An event as the journal is told of it. The fault memory that a hear or a begin tells stands beside it (`specs/Notes.antt`).
#[derive(Clone, Copy)]
pub(crate) enum Note {
    /// A unit of this NAME got this seat, and claims this address.
    Join { seat: u32, name: Name, address: u8 },
    /// A unit heard its next frame, and answered so.
    Hear { seat: u32, answer: Answer },
    /// A unit began a DM1.
    Begin { seat: u32 },
    /// A turn of a unit was over.
    Turned { seat: u32 },
    /// The first frame of a seat's queue was carried.
    Carry { seat: u32 },
    /// The station with this number took this reading.
    Read { station: u32, reading: Reading },
    /// The station with this number queued what it was told to send.
    Ordered { station: u32, order: Order },
    /// A unit left.
    Leave { seat: u32 },
    /// A frame was put on the wire from outside.
    Inject { frame: Frame },
}
