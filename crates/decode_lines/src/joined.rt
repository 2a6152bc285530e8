use can_frame::Pgn;
use std::marker::Model;

/// A message of which all packets came.
#[derive(Drop)]
pub struct Joined {
    pub source: u8,
    /// 255 of a message for all.
    pub dest: u8,
    pub pgn: Pgn,
    /// Its 9 to 1,785 bytes.
    pub bytes: Vec<u8>,
}

impl Model for Joined {
    ghost use Rattle.decode_lines.specs.Halves.{JoinedValue};

    ghost Value = { JoinedValue };

    ghost view = { λ j. record { source = j.source; dest = j.dest; pgn = j.pgn; bytes = j.bytes.items } };
}
