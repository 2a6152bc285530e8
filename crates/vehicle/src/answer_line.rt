ghost use Rattle.std.specs.Prelude.{length};
ghost use Rattle.vehicle.specs.Sending.{FitsAnswer};

/// The most bytes of a group (SAE J1939-21, transport protocol): 255 packets of seven.
pub(crate) const MOST_BYTES: usize = 1785;

/// A group that a unit sends where it is asked for it: in one frame to all, or in packets.
#[derive(Drop)]
pub struct AnswerLine {
    /// The group: one that goes to all (SAE J1939-21, PDU2), and none of the protocol's or of diagnostics.
    pub pgn: u32,
    /// The priority of its one frame, 0 (highest) to 7; packets have 7.
    pub priority: u8,
    /// What it says, 1 to 1,785 bytes.
    pub bytes: Vec<u8>,
    pub ghost fits: { FitsAnswer pgn priority bytes.items },
}
