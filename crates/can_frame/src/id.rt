ghost use Rattle.std.specs.Prelude.{◌≡◌, ℕ, ◌+◌, ◌*◌, ◌/◌, ◌%◌, ◌^◌, ◌<◌, ◌≤◌, ◌↔◌, IfOk, IsErr, IsNone, Some, None};
ghost use Rattle.can_frame.specs.Fields.{priority_of, pdu_format_of, pdu_specific_of, source_of, pgn_of, destination_of, pdu_format_of_pgn, pdu1_number, pdu2_number};

use crate::pgn::Pgn;
use std::marker::Model;
use thiserror::Error;

/// A number of 2^29 or more is no identifier: refusal 1.
#[derive(Clone, Copy, Debug, PartialEq, Eq, Error)]
#[error("IdTooLarge")]
pub struct IdTooLarge;

impl IdTooLarge {
    /// The refusal's number, 1.
    pub fn number(self) -> u8
        ensures { result ≡ 1 }
    {
        1
    }
}

/// A 29-bit identifier (SAE J1939-21, protocol data unit).
///
/// From the top: priority (3 bits), extended data page, data page, PDU format (8), PDU specific (8), source address (8).
#[derive(Clone, Copy, Debug, PartialEq, Eq, PartialOrd, Ord, Hash)]
pub struct Id {
    number: u32,
}

impl Model for Id {
    ghost use Rattle.std.specs.Prelude.{ℕ, ◌<◌, ◌^◌};

    ghost Value = { ℕ };

    ghost view = { λ i. i.number };

    ghost invariant = { λ i. i.number < 2 ^ 29 };

    ghost inverse = { λ n. record { number = n } };
}

impl Id {
    /// The identifier of this number; refused where it is 2^29 or more.
    pub fn new(number: u32) -> Result<Id, IdTooLarge>
        ensures ok { IfOk result (λ i. i ≡ number) }
        ensures too_large { IsErr result ↔ (2 ^ 29 ≤ number) }
    {
        if number >= 1 << 29 {
            return Err(IdTooLarge);
        }
        Ok(Id { number })
    }

    /// The identifier of a group that goes to one address (PDU1: PDU format 0 to 239, low byte of the group 0).
    ///
    /// The priority is 0 to 7, the group below 2^18.
    #[tactic(auto, using(crate::proofs::FieldLemmas::or_low))]
    pub fn pdu1(priority: u8, pgn: Pgn, dest: u8, source: u8) -> Id
        requires priority_fits { priority < 8 }
        requires pgn_fits { pgn < 2 ^ 18 }
        requires to_one { pdu_format_of_pgn pgn < 240 }
        requires low_byte_zero { pgn % 256 ≡ 0 }
        ensures number { result ≡ pdu1_number priority pgn dest source }
        ensures priority { priority_of result ≡ priority }
        ensures pgn { pgn_of result ≡ pgn }
        ensures dest { destination_of result ≡ Some dest }
        ensures source { source_of result ≡ source }
        ensures only { (n : ℕ) → priority_of n ≡ priority → pgn_of n ≡ pgn → destination_of n ≡ Some dest → source_of n ≡ source
            → n ≡ result }
    {
        Id {
            number: joined(priority, pgn.number() | u32::from(dest), source),
        }
    }

    /// The identifier of a group that goes to all (PDU2: PDU format 240 to 255).
    ///
    /// The priority is 0 to 7, the group below 2^18.
    pub fn pdu2(priority: u8, pgn: Pgn, source: u8) -> Id
        requires priority_fits { priority < 8 }
        requires pgn_fits { pgn < 2 ^ 18 }
        requires to_all { 240 ≤ pdu_format_of_pgn pgn }
        ensures number { result ≡ pdu2_number priority pgn source }
        ensures priority { priority_of result ≡ priority }
        ensures pgn { pgn_of result ≡ pgn }
        ensures dest { destination_of result ≡ None }
        ensures source { source_of result ≡ source }
        ensures only { (n : ℕ) → priority_of n ≡ priority → pgn_of n ≡ pgn → destination_of n ≡ None → source_of n ≡ source
            → n ≡ result }
    {
        Id {
            number: joined(priority, pgn.number(), source),
        }
    }

    /// The number, below 2^29.
    pub fn number(self) -> u32
        ensures value { result ≡ self }
        ensures bound { result < 2 ^ 29 }
    {
        self.number
    }

    /// The priority, 0 (highest) to 7.
    pub fn priority(self) -> u8
        ensures { result ≡ priority_of self }
    {
        (self.number >> 26) as u8
    }

    /// The parameter group number, below 2^18; its low byte is 0 where the group goes to one address.
    pub fn pgn(self) -> Pgn
        ensures value { result ≡ pgn_of self }
        ensures bound { result < 2 ^ 18 }
    {
        let group = (self.number >> 16 & 0x3FF) << 8;
        let number = if self.pdu_format() < 240 {
            group
        } else {
            group | u32::from(self.pdu_specific())
        };
        Pgn::from_low_bits(number)
    }

    /// The destination address of a group that goes to one address (PDU1); none where it goes to all (PDU2).
    pub fn dest(self) -> Option<u8>
        ensures value { result ≡ destination_of self }
        ensures to_all { IsNone result ↔ (240 ≤ pdu_format_of self) }
    {
        if self.pdu_format() < 240 {
            Some(self.pdu_specific())
        } else {
            None
        }
    }

    /// The source address.
    pub fn source(self) -> u8
        ensures { result ≡ source_of self }
    {
        (self.number & 0xFF) as u8
    }

    fn pdu_format(self) -> u8
        ensures { result ≡ pdu_format_of self }
    {
        (self.number >> 16 & 0xFF) as u8
    }

    fn pdu_specific(self) -> u8
        ensures { result ≡ pdu_specific_of self }
    {
        (self.number >> 8 & 0xFF) as u8
    }
}

#[tactic(auto, using(crate::proofs::FieldLemmas::joined_bits))]
fn joined(priority: u8, middle: u32, source: u8) -> u32
    requires priority_fits { priority < 8 }
    requires middle_fits { middle < 2 ^ 18 }
    ensures { result ≡ pdu2_number priority middle source }
{
    u32::from(priority) << 26 | middle << 8 | u32::from(source)
}
