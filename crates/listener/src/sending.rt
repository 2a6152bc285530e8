ghost use Rattle.std.specs.Prelude.{◌≡◌};

use bus_model::Who;
use dm_messages::Kind;
use std::marker::Model;

/// Whose a message is, and of which kind.
#[derive(Clone, Copy)]
pub struct Sending {
    who: Who,
    kind: Kind,
}

impl Model for Sending {
    ghost use Rattle.bus_model.specs.Overheard as overheard;

    ghost Value = { overheard.Sending };

    ghost view = { λ s. record { who = s.who; kind = s.kind } };

    ghost inverse = { λ s. record { who = s.who; kind = s.kind } };
}

impl Sending {
    /// A message of this unit and kind.
    pub fn new(who: Who, kind: Kind) -> Sending
        ensures { result ≡ record { who = who; kind = kind } }
    {
        Sending { who, kind }
    }

    /// Whose it is.
    pub fn who(self) -> Who
        ensures { result ≡ self.who }
    {
        self.who
    }

    /// Of which kind it is.
    pub fn kind(self) -> Kind
        ensures { result ≡ self.kind }
    {
        self.kind
    }
}
