ghost use Rattle.std.specs.Prelude.{◌<◌, length};

use crate::answer_line::AnswerLine;
use crate::send_line::SendLine;

/// A group that a unit sends to all again and again, in packets.
#[derive(Drop)]
pub struct LongLine {
    /// The group and what it says, 9 to 1,785 bytes.
    pub line: AnswerLine,
    /// How long it is from one message to the next, 10 to 60,000 ms.
    pub period: u32,
    pub ghost several: { 8 < length line.bytes.items },
}

/// A group that a unit sends to all again and again.
#[derive(Drop)]
pub enum CyclicLine {
    /// In one frame.
    One(SendLine),
    /// In packets.
    Long(LongLine),
}
