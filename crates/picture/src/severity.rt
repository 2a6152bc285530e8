ghost use Rattle.std.specs.Prelude.{◌≡◌, max};
ghost use Rattle.picture.specs.Severities.{may_show, of_lamp, rank, worst_shown};

use trouble_code::{LampName, Lamps};

/// How bad it is what a unit tells: the worst lamp that is on, else whether there are codes, else whether all of it could be read.
#[derive(Clone, Copy, Debug, PartialEq, Eq)]
pub enum Severity {
    /// No lamp is on, and there is no code.
    Fine,
    /// No lamp is on, and a part of the message could not be read: no code that can be.
    Partly,
    /// There are codes, and no lamp is on.
    Codes,
    /// The protect lamp is on.
    Protect,
    /// The malfunction indicator lamp is on.
    Malfunction,
    /// The amber warning lamp is on.
    Amber,
    /// The red stop lamp is on.
    Red,
}

/// The state of a lamp that is on (SAE J1939-73).
const ON: u8 = 1;

impl Severity {
    /// How bad it is what lamps and so many readable codes tell, of a message that was read in part or whole.
    pub fn of(lamps: Lamps, codes: usize, partly: bool) -> Severity
        ensures { rank result ≡ worst_shown (may_show lamps codes partly) }
    {
        if lamps.lamp(LampName::RedStop) == ON {
            Severity::Red
        } else if lamps.lamp(LampName::Amber) == ON {
            Severity::Amber
        } else if lamps.lamp(LampName::Malfunction) == ON {
            Severity::Malfunction
        } else if lamps.lamp(LampName::Protect) == ON {
            Severity::Protect
        } else if codes > 0 {
            Severity::Codes
        } else if partly {
            Severity::Partly
        } else {
            Severity::Fine
        }
    }

    /// How bad it is that a lamp is on.
    pub fn of_lamp(name: LampName) -> Severity
        ensures { result ≡ of_lamp name }
    {
        match name {
            LampName::Protect => Severity::Protect,
            LampName::Malfunction => Severity::Malfunction,
            LampName::Amber => Severity::Amber,
            LampName::RedStop => Severity::Red,
        }
    }

    /// Its place from the least bad on, from 0.
    pub fn rank(self) -> u8
        ensures { result ≡ rank self }
    {
        match self {
            Severity::Fine => 0,
            Severity::Partly => 1,
            Severity::Codes => 2,
            Severity::Protect => 3,
            Severity::Malfunction => 4,
            Severity::Amber => 5,
            Severity::Red => 6,
        }
    }

    /// The worse of two.
    pub fn worse(self, other: Severity) -> Severity
        ensures { rank result ≡ max (rank self) (rank other) }
    {
        if self.rank() < other.rank() {
            other
        } else {
            self
        }
    }
}
