ghost use Rattle.std.specs.Prelude.{◌≡◌, ◌≤◌};
ghost use Rattle.transport.specs.Sending.{packets_granted, packets_left};

use can_frame::Pgn;
use dm_messages::Kind;
use transport::Sending;

/// An open session: its kind, and what is still to be sent.
#[derive(Drop)]
pub struct OpenSession {
    /// DM1, DM2 or DM6.
    pub kind: Kind,
    /// The payload with which it began, its destination, and how many of its packets were queued.
    pub sending: Sending,
}

impl OpenSession {
    ghost use Rattle.node_core.specs.Reaction.{is_with};

    /// Whether it goes to this address, about this group.
    pub fn is_with(&self, source: u8, pgn: Pgn) -> bool
        ensures { result ≡ is_with self.now source pgn }
    {
        self.sending.dest() == source && self.sending.pgn() == pgn
    }

    /// How many packets a clear to send lets go.
    ///
    /// The lesser of the grant and the rest if it names the first packet not yet queued, else none.
    pub fn granted(&self, granted: u8, next: u8) -> u8
        ensures count { result ≡ packets_granted self.now.sending granted next }
        ensures left { result ≤ packets_left self.now.sending }
    {
        self.sending.granted(granted, next)
    }
}
