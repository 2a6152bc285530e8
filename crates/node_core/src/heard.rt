ghost use Rattle.std.specs.Prelude.{◌≡◌, true};

use crate::out::Outs;
use can_frame::Frame;
use dm_messages::Kind;

/// What a unit withdraws from its queue before it puts anything in.
#[derive(Clone, Copy, Debug, PartialEq, Eq)]
pub enum Withdraw {
    /// Nothing.
    Keep,
    /// The frames of the session that has ended.
    Session,
    /// All frames.
    All,
}

/// A message that a unit begins.
///
/// Its payload encodes the view of the unit's fault memory in that very call.
#[derive(Clone, Copy)]
pub struct Begun {
    /// DM1, DM2 or DM6.
    pub kind: Kind,
    /// The address that the unit holds, 0 to 253.
    pub source: u8,
    /// 255 for one frame to all and for a broadcast, else the requester's address, 0 to 253.
    pub dest: u8,
}

/// What a unit answered to what a frame put to it.
///
/// It may be asked to clear codes, or to hold a commanded address.
#[derive(Clone, Copy, Debug, PartialEq, Eq)]
pub enum Answer {
    /// Nothing was put to it.
    NotAsked,
    /// It cleared, or obeys.
    Agreed,
    /// It did not clear, or does not obey.
    Declined,
}

/// What a unit does on hearing a frame: first it withdraws, then it queues.
#[derive(Drop)]
pub struct Heard {
    /// What it withdraws.
    pub withdraw: Withdraw,
    /// What it queues after that, in order.
    pub put: Outs,
    /// The message that begins with this, if one does.
    pub begun: Option<Begun>,
    /// What the unit answered to what was put to it.
    pub answer: Answer,
}

impl Heard {
    ghost use Rattle.node_core.specs.Deed.{heard_of, Nothing, Replies};

    /// Nothing is done.
    pub(crate) fn nothing() -> Heard
        ensures { result ≡ heard_of Answer.NotAsked Nothing }
    {
        Heard {
            withdraw: Withdraw::Keep,
            put: Outs::new(),
            begun: None,
            answer: Answer::NotAsked,
        }
    }

    /// One frame is queued.
    pub(crate) fn replies(frame: Frame) -> Heard
        ensures { result ≡ heard_of Answer.NotAsked (Replies frame) }
    {
        Heard {
            withdraw: Withdraw::Keep,
            put: Outs::plain(frame),
            begun: None,
            answer: Answer::NotAsked,
        }
    }
}

/// What came of beginning a message.
#[derive(Drop)]
pub enum Started {
    /// A session of that kind is open: nothing was begun.
    Held,
    /// The message has begun, and these are its frames.
    Begun { begun: Begun, put: Outs },
}
