ghost use Rattle.std.specs.Prelude.{◌≡◌};

use crate::row::AckSeen;
use std::marker::Model;

/// What is kept under a NAME.
#[derive(Drop)]
pub struct Kept {
    claimed: Option<u8>,
    ack: Option<AckSeen>,
}

impl Model for Kept {
    ghost use Rattle.entry_lists.specs.KeptValue.{KeptValue};

    ghost Value = { KeptValue };

    ghost view = { λ k. record { claimed = k.claimed; ack = k.ack } };
}

impl Kept {
    ghost use Rattle.entry_lists.specs.KeptValue.{nothing_kept, with_claimed, with_ack};

    /// Nothing yet.
    pub fn new() -> Kept
        ensures { result ≡ nothing_kept }
    {
        Kept {
            claimed: None,
            ack: None,
        }
    }

    /// The address last claimed; none after a cannot claim.
    pub fn claimed(&self) -> Option<u8>
        ensures { result ≡ self.now.claimed }
    {
        self.claimed
    }

    /// The last acknowledgment.
    pub fn ack(&self) -> Option<AckSeen>
        ensures { result ≡ self.now.ack }
    {
        self.ack
    }

    /// The NAME claims this address, or none.
    pub fn claim(&mut self, address: Option<u8>)
        ensures { self.new ≡ with_claimed address self.old }
    {
        self.claimed = address;
    }

    /// The NAME acknowledges.
    pub fn acknowledge(&mut self, ack: AckSeen)
        ensures { self.new ≡ with_ack ack self.old }
    {
        self.ack = Some(ack);
    }
}
