ghost use Rattle.std.specs.Prelude.{◌≡◌, ℕ, ◌+◌, ◌≤◌, ◌<◌, ◌↔◌, length, IsTrue};
ghost use Rattle.transport.specs.Pieces.{packet_count};

use crate::payload::Payload;
use crate::pieces::packets;
use can_frame::Pgn;
use std::marker::Model;

/// A session at its sender: a payload of 9 to 1,785 bytes, and how many of its packets were queued.
#[derive(Drop)]
pub struct Sending {
    payload: Payload,
    dest: u8,
    pgn: Pgn,
    queued: u8,
}

impl Model for Sending {
    ghost use Rattle.std.specs.Prelude.{◌≤◌, length};
    ghost use Rattle.transport.specs.Pieces.{packet_count};
    ghost use Rattle.transport.specs.Sending.{SendingValue};

    ghost Value = { SendingValue };

    ghost view = { λ s. record { payload = s.payload; dest = s.dest; pgn = s.pgn; queued = s.queued } };

    ghost invariant = { λ s. (9 ≤ length s.payload) × (length s.payload ≤ 1785) × (s.queued ≤ packet_count (length s.payload)) };
}

impl Sending {
    ghost use Rattle.transport.specs.Sending.{SendingValue, new_sending, packets_granted, after_queueing};

    /// A session of this payload, of 9 to 1,785 bytes, of which nothing was queued yet.
    pub fn start(payload: Payload, dest: u8, pgn: Pgn) -> Sending
        requires least { 9 ≤ length payload }
        requires most { length payload ≤ 1785 }
        ensures { result ≡ new_sending payload dest pgn }
    {
        Sending {
            payload,
            dest,
            pgn,
            queued: 0,
        }
    }

    /// The number of packets to queue at a clear to send, from the first one not yet queued on; they count as queued.
    ///
    /// It is the lesser of the grant and the rest where `next` is the first packet not yet queued. A grant of 0 holds the
    /// session open; any other clear to send is not honoured: 0, and nothing changes.
    pub fn grant(&mut self, granted: u8, next: u8) -> u8
        ensures count { result ≡ packets_granted self.old granted next }
        ensures after { self.new ≡ after_queueing self.old result }
        ensures within { self.old.queued + result ≤ packet_count (length self.old.payload) }
    {
        let count = self.granted(granted, next);
        self.queued += count;
        count
    }

    /// What `grant` would answer to a clear to send; it changes nothing.
    pub fn granted(&self, granted: u8, next: u8) -> u8
        ensures count { result ≡ packets_granted self.now granted next }
        ensures within { self.now.queued + result ≤ packet_count (length self.now.payload) }
    {
        let left = self.packets() - self.queued;
        if u16::from(next) != self.next_unsent() {
            return 0;
        }
        granted.min(left)
    }

    /// The number of the first packet not yet queued: 256 where all of 255 are queued.
    pub fn next_unsent(&self) -> u16
        ensures { result ≡ self.now.queued + 1 }
    {
        u16::from(self.queued) + 1
    }

    /// Whether every packet was queued.
    pub fn all_sent(&self) -> bool
        ensures { IsTrue result ↔ (self.now.queued ≡ packet_count (length self.now.payload)) }
    {
        self.queued == self.packets()
    }

    /// The payload, 9 to 1,785 bytes.
    pub fn payload(&self) -> &[u8]
        ensures value { result.now ≡ self.now.payload }
        ensures least { 9 ≤ length result.now }
        ensures most { length result.now ≤ 1785 }
    {
        self.payload.as_slice()
    }

    /// The address that the session goes to.
    pub fn dest(&self) -> u8
        ensures { result ≡ self.now.dest }
    {
        self.dest
    }

    /// The group of the payload.
    pub fn pgn(&self) -> Pgn
        ensures { result ≡ self.now.pgn }
    {
        self.pgn
    }

    fn packets(&self) -> u8
        ensures { result ≡ packet_count (length self.now.payload) }
    {
        packets(self.payload.len() as u16)
    }
}
