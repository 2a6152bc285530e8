ghost use Rattle.std.specs.Prelude.{◌≡◌, ℕ, ◌^◌, ◌<◌, ◌≤◌, ◌↔◌, ◌∷◌, [], IfOk, IsErr, slice_index};
ghost use Rattle.can_frame.specs.Fields.{pgn_bytes, pgn_of_bytes};

use crate::group_numbers;
use std::marker::Model;
use thiserror::Error;

/// A number of 2^24 or more is no parameter group number: refusal 28.
#[derive(Clone, Copy, Debug, PartialEq, Eq, Error)]
#[error("PgnTooLarge")]
pub struct PgnTooLarge;

impl PgnTooLarge {
    /// The refusal's number, 28.
    pub fn number(self) -> u8
        ensures { result ≡ 28 }
    {
        28
    }
}

/// A parameter group number, 0 to 2^24 - 1, as three bytes carry it (SAE J1939-21).
///
/// One that stands in an identifier is below 2^18.
#[derive(Clone, Copy, Debug, PartialEq, Eq, PartialOrd, Ord, Hash)]
pub struct Pgn {
    number: u32,
}

impl Model for Pgn {
    ghost use Rattle.std.specs.Prelude.{ℕ, ◌<◌, ◌^◌};

    ghost Value = { ℕ };

    ghost view = { λ p. p.number };

    ghost invariant = { λ p. p.number < 2 ^ 24 };

    ghost inverse = { λ n. record { number = n } };
}

impl Pgn {
    /// Acknowledgment.
    pub const ACKNOWLEDGMENT: Pgn = Pgn {
        number: group_numbers::ACKNOWLEDGMENT,
    };
    /// Request.
    pub const REQUEST: Pgn = Pgn {
        number: group_numbers::REQUEST,
    };
    /// Transport protocol, data transfer (TP.DT).
    pub const DATA_TRANSFER: Pgn = Pgn {
        number: group_numbers::DATA_TRANSFER,
    };
    /// Transport protocol, connection management (TP.CM).
    pub const CONNECTION_MANAGEMENT: Pgn = Pgn {
        number: group_numbers::CONNECTION_MANAGEMENT,
    };
    /// Address claimed, and cannot claim.
    pub const ADDRESS_CLAIMED: Pgn = Pgn {
        number: group_numbers::ADDRESS_CLAIMED,
    };
    /// Active trouble codes (DM1).
    pub const DM1: Pgn = Pgn {
        number: group_numbers::DM1,
    };
    /// Previously active trouble codes (DM2).
    pub const DM2: Pgn = Pgn {
        number: group_numbers::DM2,
    };
    /// Clear the previously active trouble codes (DM3).
    pub const DM3: Pgn = Pgn {
        number: group_numbers::DM3,
    };
    /// Pending trouble codes (DM6).
    pub const DM6: Pgn = Pgn {
        number: group_numbers::DM6,
    };
    /// Clear the active trouble codes (DM11).
    pub const DM11: Pgn = Pgn {
        number: group_numbers::DM11,
    };
    /// Commanded address.
    pub const COMMANDED_ADDRESS: Pgn = Pgn {
        number: group_numbers::COMMANDED_ADDRESS,
    };

    /// The parameter group of this number; refused where it is 2^24 or more.
    pub fn new(number: u32) -> Result<Pgn, PgnTooLarge>
        ensures ok { IfOk result (λ p. p ≡ number) }
        ensures too_large { IsErr result ↔ (2 ^ 24 ≤ number) }
    {
        if number >= 1 << 24 {
            return Err(PgnTooLarge);
        }
        Ok(Pgn { number })
    }

    /// The number, below 2^24.
    pub fn number(self) -> u32
        ensures value { result ≡ self }
        ensures bound { result < 2 ^ 24 }
    {
        self.number
    }

    /// The parameter group that three bytes carry, lowest byte first.
    pub fn from_bytes(bytes: [u8; 3]) -> Pgn
        ensures value { result ≡ pgn_of_bytes (slice_index bytes 0) (slice_index bytes 1) (slice_index bytes 2) }
        ensures back { pgn_bytes result ≡ bytes }
    {
        let [low, middle, high] = bytes;
        Pgn {
            number: u32::from_le_bytes([low, middle, high, 0]),
        }
    }

    /// The three bytes that carry it, lowest byte first.
    pub fn to_bytes(self) -> [u8; 3]
        ensures { result ≡ pgn_bytes self }
    {
        let [low, middle, high, _] = self.number.to_le_bytes();
        [low, middle, high]
    }

    /// The parameter group of a number known to fit an identifier.
    pub(crate) fn from_low_bits(number: u32) -> Pgn
        requires { number < 2 ^ 24 }
        ensures { result ≡ number }
    {
        Pgn { number }
    }
}
