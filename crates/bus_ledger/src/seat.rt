ghost use Rattle.std.specs.Prelude.{◌≡◌, ℕ, ◌+◌, ◌-◌, ◌<◌, ◌≤◌, ◌^◌, length, nat_lt, slice_get, None, Some, MatchOption, OnOk, IfOk, IfErr};
ghost use Rattle.bus_ledger.specs.Changes.{newcomer, hearing, queueing, queueing_all, run_frames, withdrawing, leaving, sending};
ghost use Rattle.std.specs.Bool.{MatchBool};
ghost use Rattle.bus_ledger.specs.Carrying.{offered};
ghost use Rattle.bus_ledger.specs.Ledger.{counts_of};
ghost use Rattle.bus_ledger.specs.Offers.{OffersBelow, OffersNoneBelow};
ghost use Rattle.bus_ledger.specs.Places.{IsFront, frames_at};

use crate::error::BusError;
use crate::queued::{NO_FRONT, Queued, count_frames, front_before, front_of, keep, take_first};
use crate::traffic::{Counts, QueuedFrame, Which};
use name_field::Name;
use std::alloc::Global;
use std::collections::VecDeque;
use std::marker::Model;
use transport::Run;

/// A place on the bus.
#[derive(Drop)]
pub(crate) struct Seat {
    name: Name,
    live: bool,
    heard: u32,
    queued: u32,
    carried: u32,
    withdrawn: u32,
    // the number of the identifier of the queue's first frame
    front: u32,
    queue: VecDeque<Queued>,
}

impl Model for Seat {
    ghost use Rattle.std.specs.Prelude.{◌≡◌, ◌+◌, ◌-◌, ◌<◌, ◌^◌, length};
    ghost use Rattle.std.specs.List.{All};
    ghost use Rattle.std.specs.VecDeque.{deque_capacity, deque_len};
    ghost use Rattle.bus_ledger.specs.BusValue.{SeatBook};
    ghost use Rattle.bus_ledger.specs.Places.{IsFilled, IsFront, frames_in};

    ghost Value = { SeatBook };

    ghost view = { λ s. record {
      seat = record { name = s.name; live = s.live; heard = s.heard; queue = frames_in s.queue.items; queued = s.queued; carried = s.carried; withdrawn = s.withdrawn };
      spare = deque_capacity s.queue - deque_len s.queue;
    } };

    ghost invariant = { λ s. (s.queued ≡ s.carried + s.withdrawn + length (frames_in s.queue.items)) × (s.queued < 2 ^ 32) × All IsFilled s.queue.items × IsFront s.front (frames_in s.queue.items) };
}

impl Seat {
    /// A seat that has heard this much of the wire, with room for one frame.
    pub(crate) fn new(alloc: Global, name: Name, heard: u32) -> Result<Seat, BusError>
        ensures ok { IfOk result (λ s. (s.seat ≡ newcomer name heard) × (1 ≤ s.spare)) }
        ensures err { IfErr result (λ e. e ≡ BusError.OutOfMemory) }
    {
        let queue = VecDeque::with_capacity(alloc, 1)?;
        Ok(Seat {
            name,
            live: true,
            heard,
            queued: 0,
            carried: 0,
            withdrawn: 0,
            front: NO_FRONT,
            queue,
        })
    }

    pub(crate) fn name(&self) -> Name
        ensures { result ≡ self.now.seat.name }
    {
        self.name
    }

    pub(crate) fn is_live(&self) -> bool
        ensures { result ≡ self.now.seat.live }
    {
        self.live
    }

    /// How many frames of the wire it has heard.
    #[inline]
    pub(crate) fn heard(&self) -> u32
        ensures { result ≡ self.now.seat.heard }
    {
        self.heard
    }

    pub(crate) fn is_waiting(&self) -> bool
        ensures { result ≡ nat_lt 0 (length self.now.seat.queue) }
    {
        self.front != NO_FRONT
    }

    /// The first of its queue, once it has heard the whole wire.
    pub(crate) fn offered(&self, wire_len: u32) -> Option<QueuedFrame>
        ensures { result ≡ offered wire_len self.now.seat }
    {
        self.offering(wire_len)?.first()
    }

    /// Whether it offers a frame whose identifier's number is lower than this one.
    pub(crate) fn offers_below(&self, lowest: u32, wire_len: u32) -> bool
        ensures { MatchBool result (OffersBelow lowest (offered wire_len self.now.seat))
            (OffersNoneBelow lowest (offered wire_len self.now.seat)) }
    {
        self.front < lowest && self.heard == wire_len && self.live
    }

    /// The number of the identifier of its queue's first frame.
    pub(crate) fn front(&self) -> u32
        ensures { IsFront result self.now.seat.queue }
    {
        self.front
    }

    /// The place of its queue whose first frame it offers, once it has heard the whole wire.
    fn offering(&self, wire_len: u32) -> Option<&Queued>
        ensures { MatchOption result (offered wire_len self.now.seat ≡ None)
            (λ p. offered wire_len self.now.seat ≡ slice_get (frames_at p.now) 0) }
    {
        if self.live && self.heard == wire_len {
            let first = self.queue.front()?;
            Some(first)
        } else {
            None
        }
    }

    pub(crate) fn counts(&self) -> Counts
        ensures { result ≡ counts_of self.now.seat }
    {
        Counts {
            queued: self.queued,
            carried: self.carried,
            withdrawn: self.withdrawn,
            waiting: self.queued - self.carried - self.withdrawn,
        }
    }

    /// So many frames more count as heard.
    pub(crate) fn hear(&mut self, frames: u32)
        requires { self.old.seat.heard + frames < 2 ^ 32 }
        ensures seat { self.new.seat ≡ hearing frames self.old.seat }
        ensures spare { self.new.spare ≡ self.old.spare }
    {
        self.heard += frames;
    }

    /// Makes the spare at least `count`.
    #[inline(always)]
    pub(crate) fn reserve(&mut self, count: usize) -> Result<(), BusError>
        ensures seat { self.new.seat ≡ self.old.seat }
        ensures grows { self.old.spare ≤ self.new.spare }
        ensures ok { OnOk result (count ≤ self.new.spare) }
        ensures err { IfErr result (λ e. (e ≡ BusError.OutOfMemory) × (self.old.spare < count)) }
    {
        if count <= self.queue.capacity() - self.queue.len() {
            return Ok(());
        }
        self.take_room(count)
    }

    /// Takes the memory that makes the spare at least `count`.
    #[inline(never)]
    fn take_room(&mut self, count: usize) -> Result<(), BusError>
        ensures seat { self.new.seat ≡ self.old.seat }
        ensures grows { self.old.spare ≤ self.new.spare }
        ensures ok { OnOk result (count ≤ self.new.spare) }
        ensures err { IfErr result (λ e. (e ≡ BusError.OutOfMemory) × (self.old.spare < count)) }
    {
        self.queue.reserve(count)?;
        Ok(())
    }

    /// Puts a frame at the end of the queue, which has room for it.
    pub(crate) fn put_reserved(&mut self, queued: QueuedFrame)
        requires spare { 0 < self.old.spare }
        requires few { self.old.seat.queued + 1 < 2 ^ 32 }
        ensures seat { self.new.seat ≡ queueing queued self.old.seat }
        ensures spare { self.old.spare ≤ self.new.spare + 1 }
    {
        let place = Queued::One(queued);
        self.front = front_before(self.front, &place);
        self.queue.push_back_reserved(place);
        self.queued += 1;
    }

    /// Puts the frames of a run at the end of the queue, which has room for it, in one place; none where the run has none left.
    pub(crate) fn put_run_reserved(&mut self, run: Run, message: u32, session: bool)
        requires spare { 0 < self.old.spare }
        requires few { self.old.seat.queued + length run < 2 ^ 32 }
        ensures seat { self.new.seat ≡ queueing_all (run_frames message session run) self.old.seat }
        ensures spare { self.old.spare ≤ self.new.spare + 1 }
    {
        let count = u32::from(run.left());
        if count == 0 {
            return;
        }
        let place = Queued::Many {
            run,
            message,
            session,
        };
        self.front = front_before(self.front, &place);
        self.queue.push_back_reserved(place);
        self.queued += count;
    }

    /// Withdraws frames of the queue, and says how many.
    #[tactic(auto, using(crate::proofs::Queues::kept_fewer))]
    pub(crate) fn withdraw(&mut self, which: Which) -> u32
        ensures seat { self.new.seat ≡ withdrawing which self.old.seat }
        ensures spare { self.old.spare ≤ self.new.spare }
        ensures count { result + length self.new.seat.queue ≡ length self.old.seat.queue }
    {
        let before = self.queued - self.carried - self.withdrawn;
        keep(&mut self.queue, which);
        self.front = front_of(&self.queue);
        let count = before - count_frames(&self.queue);
        self.withdrawn += count;
        count
    }

    /// The seat is given up, and its queue withdrawn; says how many frames.
    pub(crate) fn leave(&mut self) -> u32
        ensures seat { self.new.seat ≡ leaving self.old.seat }
        ensures count { result ≡ length self.old.seat.queue }
    {
        let count = self.withdraw(Which::All);
        self.queue.shrink_to_fit();
        self.live = false;
        count
    }

    /// The first of the queue is carried, and given.
    pub(crate) fn send(&mut self) -> QueuedFrame
        requires waits { 0 < length self.old.seat.queue }
        requires few { self.old.seat.heard + 1 < 2 ^ 32 }
        ensures first { slice_get self.old.seat.queue 0 ≡ Some result }
        ensures seat { self.new.seat ≡ sending self.old.seat }
        ensures spare { self.old.spare ≤ self.new.spare }
    {
        let Some(sent) = take_first(&mut self.queue) else {
            unreachable!()
        };
        self.front = front_of(&self.queue);
        self.carried += 1;
        self.heard += 1;
        sent
    }
}
