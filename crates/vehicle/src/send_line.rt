ghost use Rattle.std.specs.Prelude.{length};
ghost use Rattle.vehicle.specs.Apart.{HasRoomFor};
ghost use Rattle.vehicle.specs.Sending.{FitsFrame};

use crate::field_bits::FieldBits;
use crate::moving_field::MovingField;

/// The greatest number of a group that is sent, 2^17 - 1 (SAE J1939-21: with the data page, without the extended one).
pub(crate) const GREATEST_PGN: u32 = 131_071;

/// The lowest priority.
pub(crate) const LOWEST_PRIORITY: u32 = 7;

/// A group that a unit sends to all again and again, in one frame.
#[derive(Drop)]
pub struct SendLine {
    /// The group: one that goes to all (SAE J1939-21, PDU2), and none of the protocol's or of diagnostics.
    pub pgn: u32,
    /// Its priority, 0 (highest) to 7.
    pub priority: u8,
    /// How long it is from one frame to the next, 10 to 60,000 ms.
    pub period: u32,
    /// What it says, 1 to 8 bytes, but for the bits that move.
    pub bytes: Vec<u8>,
    /// The fields that move. No two have a bit together.
    pub fields: Vec<MovingField>,
    /// Where each frame bears its checksum, if it does: at no bit of a field.
    pub checksum: Option<FieldBits>,
    pub ghost fits: { FitsFrame pgn priority bytes.items },
    pub ghost room: { HasRoomFor fields.items checksum (length bytes.items) },
}
