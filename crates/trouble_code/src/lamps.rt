ghost use Rattle.std.specs.Prelude.{◌≡◌, ◌<◌};
ghost use Rattle.trouble_code.specs.LampBytes.{two_bits_of};

use std::marker::Model;

/// One of the four lamps (SAE J1939-73).
#[derive(Clone, Copy, PartialEq, Eq)]
pub enum LampName {
    /// The malfunction indicator lamp, bits 8 and 7.
    Malfunction,
    /// The red stop lamp, bits 6 and 5.
    RedStop,
    /// The amber warning lamp, bits 4 and 3.
    Amber,
    /// The protect lamp, bits 2 and 1.
    Protect,
}

/// The states of the four lamps and how each flashes: the first two bytes of DM1, DM2 and DM6 (SAE J1939-73).
///
/// Every pair of bytes is lawful. Each of the eight states is a number from 0 to 3.
#[derive(Clone, Copy, Debug, PartialEq, Eq)]
pub struct Lamps {
    lamps: u8,
    flashes: u8,
}

impl Model for Lamps {
    ghost use Rattle.trouble_code.specs.LampBytes.{LampsValue, lamps_value};

    ghost Value = { LampsValue };

    ghost view = { λ l. lamps_value l.lamps l.flashes };

    ghost inverse = { λ v. record { lamps = v.lamps; flashes = v.flashes } };
}

impl Lamps {
    ghost use Rattle.trouble_code.specs.LampBytes.{lamps_value, lamps_bytes, lamps_off, IsLamps};

    /// The lamps with these two bytes: the lamps' states, and how they flash.
    pub fn from_bytes(lamps: u8, flashes: u8) -> Lamps
        ensures { result ≡ lamps_value lamps flashes }
    {
        Lamps { lamps, flashes }
    }

    /// The two bytes in the order in which they are sent.
    pub fn to_bytes(self) -> [u8; 2]
        ensures value { result ≡ lamps_bytes self }
        ensures bytes { IsLamps self }
    {
        [self.lamps, self.flashes]
    }

    /// Every lamp off, and no flash code given: the bytes 00 FF.
    pub fn off() -> Lamps
        ensures { result ≡ lamps_off }
    {
        Lamps {
            lamps: 0x00,
            flashes: 0xFF,
        }
    }

    /// The state of one lamp, from 0 to 3: 0 is off, 1 is on.
    pub fn lamp(self, name: LampName) -> u8
        ensures value { result ≡ two_bits_of name self.lamps }
        ensures range { result < 4 }
    {
        two_bits(name, self.lamps)
    }

    /// How one lamp flashes, from 0 to 3.
    pub fn flash(self, name: LampName) -> u8
        ensures value { result ≡ two_bits_of name self.flashes }
        ensures range { result < 4 }
    {
        two_bits(name, self.flashes)
    }
}

/// The two bits of one lamp in a byte.
fn two_bits(name: LampName, byte: u8) -> u8
    ensures value { result ≡ two_bits_of name byte }
    ensures range { result < 4 }
{
    match name {
        LampName::Malfunction => byte >> 6,
        LampName::RedStop => byte >> 4 & 0x03,
        LampName::Amber => byte >> 2 & 0x03,
        LampName::Protect => byte & 0x03,
    }
}
