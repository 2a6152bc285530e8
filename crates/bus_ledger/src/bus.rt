ghost use Rattle.std.specs.Prelude.{◌≡◌, not, ◌==◌};
ghost use Rattle.std.specs.List.{filter};

use crate::error::BusError;
use crate::offers::is_name_among;
use crate::receive_window::ReceiveWindow;
use crate::seat::Seat;
use crate::traffic::Counts;
use crate::wire::Wire;
use can_frame::Frame;
use name_field::Name;
use std::marker::Model;

mod carrying;
mod opening;
mod queueing;
mod readings;

/// The largest window of unread frames.
pub const MOST_UNREAD: u32 = 4096;

/// How many stations a bus has at most.
pub const MOST_STATIONS: usize = 8;

/// How many units may be live beside the stations.
const MOST_UNITS: usize = 64;

/// The wire with all that was carried, the seats with their queues, and each station's window of unread frames.
#[derive(Drop)]
pub struct Bus {
    wire: Wire,
    seats: Vec<Seat>,
    // the numbers of the live seats, in order
    live: Vec<u32>,
    // for each station the unread frames of the other seats, as far as its window holds them
    receive_windows: Vec<ReceiveWindow>,
}

impl Model for Bus {
    ghost use Rattle.bus_ledger.specs.BusValue.{BusValue};

    ghost Value = { BusValue };

    ghost use Rattle.bus_ledger.specs.Inside.{bus_value_of, IsKept};

    ghost view = { bus_value_of };

    ghost invariant = { IsKept };
}

impl Bus {
    ghost use Rattle.std.specs.Prelude.{◌≡◌, ◌<◌, ◌≤◌, ◌≢◌, ◌+◌, ◌⊎◌, ◌↔◌, ◌^◌, ◌∷◌, [], ℕ, false, length, slice_get, Some, None, IfSome, IfOk, IfErr, OnErr, OnOk, Ok};
    ghost use Rattle.std.specs.List.{count_by};
    ghost use Rattle.std.specs.Option.{option_map, SomeIff};
    ghost use Rattle.std.specs.Result.{result_err};
    ghost use Rattle.bus_ledger.specs.BusValue.{IsUnit, KeepsSpares, seat_at, spare_at};
    ghost use Rattle.bus_ledger.specs.Changes.{kept, left, new_traffic, with_newcomer};
    ghost use Rattle.bus_ledger.specs.Ledger.{IsSound, counts_of, is_from};
    ghost use Rattle.bus_ledger.specs.Newcomers.{join_refusal};

    /// Gives the next seat to a unit of this NAME, and answers its number. All that was carried so far counts as heard.
    /// Its queue has room for one frame.
    ///
    /// Refused, in this order, where a live seat has the NAME, where 64 units are live, and where there is no memory.
    pub fn join(&mut self, name: Name) -> Result<u32, BusError>
        requires { length self.old.traffic.seats + 1 < 2 ^ 32 }
        ensures ok { IfOk result (λ k. (k ≡ length self.old.traffic.seats) × (join_refusal name self.old.traffic ≡ None)
            × (self.new.traffic ≡ with_newcomer name self.old.traffic)) }
        ensures err { IfErr result (λ e. (join_refusal name self.old.traffic ≡ Some e)
            ⊎ ((join_refusal name self.old.traffic ≡ None) × (e ≡ BusError.OutOfMemory))) }
        ensures same { OnErr result (self.new.traffic ≡ self.old.traffic) }
        ensures spares { KeepsSpares self.old self.new }
        ensures room { IfOk result (λ k. 1 ≤ spare_at self.new k) }
    {
        self.may_join(name)?;
        self.seats.reserve(1)?;
        self.live.reserve(1)?;
        let number = self.seats.len() as u32;
        let heard = self.wire.len() as u32;
        let alloc = *self.seats.allocator();
        let seat = Seat::new(alloc, name, heard)?;
        self.seats.push_reserved(seat);
        self.live.push_reserved(number);
        Ok(number)
    }

    /// What `join` would answer for this NAME, want of memory aside.
    pub fn may_join(&self, name: Name) -> Result<(), BusError>
        ensures refusal { result_err result ≡ join_refusal name self.now.traffic }
        ensures sound { IsSound self.now.traffic }
    {
        if is_name_among(self.seats.as_slice(), self.live.as_slice(), name) {
            return Err(BusError::NameInUse);
        }
        if self.live.len() >= self.receive_windows.len() + MOST_UNITS {
            return Err(BusError::TooManySeats);
        }
        Ok(())
    }

    /// The NAME of the unit on a live seat; nothing for a station's seat, and for one that was never given or is gone.
    pub fn unit_name(&self, seat: u32) -> Option<Name>
        ensures { SomeIff result (IsUnit self.now.traffic seat) (seat_at self.now.traffic seat).name }
    {
        let place = self.seats.get(seat as usize)?;
        if (seat as usize) < self.receive_windows.len() || !place.is_live() {
            return None;
        }
        Some(place.name())
    }

    /// The seat is given up. Its queued frames are withdrawn; answers how many. Its counts stay readable.
    pub fn leave(&mut self, seat: u32) -> u32
        requires { IsUnit self.old.traffic seat }
        ensures traffic { self.new.traffic ≡ left seat self.old.traffic }
        ensures sound { IsSound self.old.traffic }
        ensures count { result ≡ length (seat_at self.old.traffic seat).queue }
        ensures spares { (k : ℕ) → k ≢ seat → spare_at self.old k ≤ spare_at self.new k }
    {
        forget(&mut self.live, seat);
        let place = &mut self.seats[seat as usize];
        place.leave()
    }

    /// What became of the frames that a seat queued; nothing where the seat was never given.
    ///
    /// Each frame queued was carried, was withdrawn or waits. Those carried stand on the wire, those that wait in the
    /// seat's queue, and none waits once the seat is gone.
    pub fn counts(&self, seat: u32) -> Option<Counts>
        ensures counts { result ≡ option_map counts_of (slice_get self.now.traffic.seats seat) }
        ensures balanced { IfSome result (λ c. c.queued ≡ c.carried + c.withdrawn + c.waiting) }
        ensures carried { IfSome result (λ c. c.carried ≡ count_by (is_from seat) self.now.traffic.wire) }
        ensures waiting { IfSome result (λ c. c.waiting ≡ length (seat_at self.now.traffic seat).queue) }
        ensures gone { (seat_at self.now.traffic seat).live ≡ false → IfSome result (λ c. c.waiting ≡ 0) }
    {
        let place = self.seats.get(seat as usize)?;
        Some(place.counts())
    }

    /// How many stations there are, 1 to 8: they have the seats below this number.
    #[inline]
    pub fn stations(&self) -> u32
        ensures count { result ≡ length self.now.traffic.windows }
        ensures sound { IsSound self.now.traffic }
    {
        self.receive_windows.len() as u32
    }

    /// How many frames were carried.
    pub fn wire_len(&self) -> u32
        ensures len { result ≡ length self.now.traffic.wire }
        ensures sound { IsSound self.now.traffic }
    {
        self.wire.len() as u32
    }

    /// The i-th frame carried, counted from 0.
    pub fn wire_frame(&self, i: u32) -> Option<Frame>
        ensures { result ≡ option_map (λ c. c.frame) (slice_get self.now.traffic.wire i) }
    {
        self.wire.get(i as usize)
    }
}

/// Takes a number out of those that are live.
fn forget(live: &mut Vec<u32>, seat: u32)
    ensures { live.new.items ≡ filter (λ n. not (n == seat)) live.old.items }
{
    live.retain(|number| *number != seat);
}
