ghost use Rattle.std.specs.Prelude.{◌≡◌};
ghost use Rattle.bus_ledger.specs.Changes.{is_in_session};

use can_frame::Frame;
use name_field::Name;

/// Which part of which message a frame is. It travels beside the frame, not in it.
#[derive(Clone, Copy, PartialEq, Eq)]
pub struct Tag {
    /// The message's number among all messages begun, from 0.
    pub message: u32,
    /// Part 0 is the message's first frame; part j, from 1 on, is its j-th data packet.
    pub part: u16,
    /// Whether the message goes to one address, in a session.
    pub session: bool,
}

/// A station as the bus knows it.
#[derive(Clone, Copy, PartialEq, Eq)]
pub struct StationSeat {
    /// Its NAME.
    pub name: Name,
    /// How many unread frames its window has room for, 1 to 4,096.
    pub window: u32,
}

/// A frame that waits in a queue.
#[derive(Clone, Copy, PartialEq, Eq)]
pub struct QueuedFrame {
    pub frame: Frame,
    pub tag: Option<Tag>,
}

impl QueuedFrame {
    /// Whether it is part of a session.
    pub fn is_in_session(&self) -> bool
        ensures { result ≡ is_in_session self.now }
    {
        match self.tag {
            Some(tag) => tag.session,
            None => false,
        }
    }
}

/// A frame on the wire, and the seat that it came from: none where it was put there from outside.
///
/// The bus keeps the frame alone: its seat and its tag are known to proofs alone.
#[derive(Clone, Copy, PartialEq, Eq)]
pub struct CarriedFrame {
    pub seat: Option<u32>,
    pub frame: Frame,
    pub tag: Option<Tag>,
}

/// Which frames of a queue are withdrawn.
#[derive(Clone, Copy, PartialEq, Eq)]
pub enum Which {
    /// Those that are tagged as part of a session.
    Session,
    /// All of them.
    All,
}

/// What a carry did.
#[derive(Clone, Copy, Debug, PartialEq, Eq)]
pub enum Carried {
    /// This frame went from the seat's queue to the wire.
    Frame { seat: u32, frame: Frame },
    /// No queue has a frame.
    Idle,
    /// Queues have frames, and no seat among them has heard the whole wire.
    Waiting,
}

/// What became of the frames that a seat queued: queued is always the sum of the other three.
#[derive(Clone, Copy, Debug, PartialEq, Eq)]
pub struct Counts {
    pub queued: u32,
    pub carried: u32,
    pub withdrawn: u32,
    pub waiting: u32,
}
