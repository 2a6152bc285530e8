ghost use Rattle.std.specs.Prelude.{◌≡◌, ◌+◌, ◌-◌, ◌≤◌, length, drop, map, slice_get};
ghost use Rattle.std.specs.Option.{option_map};
ghost use Rattle.transport.specs.Messages.{parts_from, last_part, frames_of_message};
ghost use Rattle.transport.specs.Pieces.{packet_count};
ghost use Rattle.transport.specs.Runs.{frame_in, part_in, run_of};

use crate::message::{control_id, long_message_part, packet_id};
use crate::payload::Payload;
use can_frame::{Frame, Id, Pgn};
use std::marker::Model;

/// Some parts of a message of 9 to 1,785 bytes, one after another (SAE J1939-21, transport protocol): part 0 is the
/// announcement, part j the packet of number j. It holds the payload, and a frame is made when it is looked at or taken.
#[derive(Drop)]
pub struct Run {
    payload: Payload,
    pgn: Pgn,
    source: u8,
    dest: u8,
    next: u16,
    end: u8,
}

impl Model for Run {
    ghost use Rattle.std.specs.Prelude.{List, ◌+◌, ◌≤◌, length};
    ghost use Rattle.transport.specs.Pieces.{packet_count};
    ghost use Rattle.transport.specs.Runs.{NumberedFrame, run_of};

    ghost Value = { List NumberedFrame };

    ghost view = { λ r. run_of r.payload r.pgn r.source r.dest r.next r.end };

    ghost invariant = { λ r. (9 ≤ length r.payload) × (length r.payload ≤ 1785) × (r.end ≤ packet_count (length r.payload)) × (r.next ≤ r.end + 1) };
}

impl Run {
    /// The parts of this payload's message from part `first` to part `end`, both included. Part 0 is the broadcast
    /// announcement where `dest` is 255, else the request to send with no limit.
    #[tactic(auto, using(crate::proofs::Runs::frames_of_run, crate::proofs::Runs::whole_run))]
    pub fn new(payload: Payload, pgn: Pgn, source: u8, dest: u8, first: u8, end: u8) -> Run
        requires least { 9 ≤ length payload }
        requires most { length payload ≤ 1785 }
        requires order { first ≤ end }
        requires within { end ≤ packet_count (length payload) }
        ensures run { result ≡ run_of payload pgn source dest first end }
        ensures frames { map frame_in result ≡ parts_from payload pgn source dest first (end + 1 - first) }
        ensures whole { first ≡ 0 → end ≡ last_part payload → map frame_in result ≡ frames_of_message payload pgn source dest }
    {
        Run {
            payload,
            pgn,
            source,
            dest,
            next: u16::from(first),
            end,
        }
    }

    /// The first frame that is left; it stays. Takes no memory.
    #[inline(always)]
    #[tactic(auto, using(crate::proofs::Runs::first_of_run, crate::proofs::Runs::empty_run))]
    pub fn peek(&self) -> Option<Frame>
        ensures { result ≡ option_map frame_in (slice_get self.now 0) }
    {
        if self.next > u16::from(self.end) {
            return None;
        }
        Some(long_message_part(
            self.payload.as_slice(),
            self.pgn,
            self.source,
            self.dest,
            self.next as u8,
        ))
    }

    /// The identifier of the first frame that is left, which is not made for it.
    #[tactic(auto, using(crate::proofs::Runs::announcement_first, crate::proofs::Runs::packet_first, crate::proofs::Runs::empty_run))]
    pub fn id(&self) -> Option<Id>
        ensures { result ≡ option_map (λ n. n.frame.id) (slice_get self.now 0) }
    {
        if self.next > u16::from(self.end) {
            return None;
        }
        if self.next == 0 {
            Some(control_id(self.source, self.dest))
        } else {
            Some(packet_id(self.source, self.dest))
        }
    }

    /// Which part of the message the first frame that is left is, 0 to 255.
    #[tactic(auto, using(crate::proofs::Runs::first_of_run, crate::proofs::Runs::empty_run))]
    pub fn part(&self) -> Option<u16>
        ensures { result ≡ option_map part_in (slice_get self.now 0) }
    {
        if self.next > u16::from(self.end) {
            return None;
        }
        Some(self.next)
    }

    /// Takes the first frame that is left. Takes no memory.
    #[tactic(auto, using(crate::proofs::Runs::rest_of_run, crate::proofs::Runs::empty_run))]
    pub fn next_frame(&mut self) -> Option<Frame>
        ensures frame { result ≡ option_map frame_in (slice_get self.old 0) }
        ensures rest { self.new ≡ drop 1 self.old }
    {
        let frame = self.peek()?;
        self.next += 1;
        Some(frame)
    }

    /// How many frames are left, 0 to 256.
    #[tactic(auto, using(crate::proofs::Runs::length_of_run))]
    pub fn left(&self) -> u16
        ensures { result ≡ length self.now }
    {
        u16::from(self.end) + 1 - self.next
    }
}
