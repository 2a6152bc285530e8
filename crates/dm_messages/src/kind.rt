ghost use Rattle.std.specs.Prelude.{◌≡◌, ◌<◌, ◌≤◌, ◌^◌};
ghost use Rattle.can_frame.specs.Fields.{pdu_format_of_pgn};
ghost use Rattle.dm_messages.specs.View.{pgn_of_kind};

use can_frame::Pgn;

/// The kind of a diagnostic message (SAE J1939-73).
#[derive(Clone, Copy, Debug, PartialEq, Eq)]
pub enum Kind {
    /// The lamps with the active codes.
    Dm1,
    /// The lamps with the previously active codes.
    Dm2,
    /// The lamps with the pending codes.
    Dm6,
}

impl Kind {
    /// The parameter group, 65226 for DM1, 65227 for DM2 and 65231 for DM6: one that goes to all.
    pub fn pgn(self) -> Pgn
        ensures value { result ≡ pgn_of_kind self }
        ensures fits { result < 2 ^ 18 }
        ensures to_all { 240 ≤ pdu_format_of_pgn result }
    {
        match self {
            Kind::Dm1 => Pgn::DM1,
            Kind::Dm2 => Pgn::DM2,
            Kind::Dm6 => Pgn::DM6,
        }
    }
}
