ghost use Rattle.std.specs.Prelude.{◌≡◌, ◌≢◌, ◌<◌, ◌≤◌, ◌-◌, Some, length, slice_get};
ghost use Rattle.std.specs.Bool.{MatchBool};
ghost use Rattle.std.specs.List.{All};
ghost use Rattle.std.specs.Option.{option_map};
ghost use Rattle.bus_ledger.specs.BusValue.{IsStation, IsUnit, KeepsSpares, seat_at};
ghost use Rattle.bus_ledger.specs.Changes.{heard_more};
ghost use Rattle.bus_ledger.specs.Ledger.{IsSound};
ghost use Rattle.bus_ledger.specs.Reception.{next_reading, not_yet_read, reading_taken};

use crate::bus::Bus;
use can_frame::{Frame, Reading};

impl Bus {
    /// The next frame that the seat has not heard, if there is one. It came from another seat.
    pub fn next_for(&self, seat: u32) -> Option<Frame>
        requires { IsUnit self.now.traffic seat }
        ensures frame { result ≡ option_map (λ c. c.frame) (slice_get self.now.traffic.wire (seat_at self.now.traffic seat).heard) }
        ensures sound { IsSound self.now.traffic }
    {
        let heard = self.seats[seat as usize].heard();
        self.wire.get(heard as usize)
    }

    /// How many frames of the wire the seat has not heard. Where it is one, `next_for` gives the wire's last frame.
    #[inline]
    pub fn unheard(&self, seat: u32) -> u32
        requires { IsUnit self.now.traffic seat }
        ensures count { result ≡ length self.now.traffic.wire - (seat_at self.now.traffic seat).heard }
        ensures within { (seat_at self.now.traffic seat).heard ≤ length self.now.traffic.wire }
        ensures sound { IsSound self.now.traffic }
    {
        self.wire.len() as u32 - self.seats[seat as usize].heard()
    }

    /// The frame that `next_for` gives counts as heard by the seat.
    pub fn mark_heard(&mut self, seat: u32)
        requires unit { IsUnit self.old.traffic seat }
        requires next { (seat_at self.old.traffic seat).heard < length self.old.traffic.wire }
        ensures traffic { self.new.traffic ≡ heard_more seat 1 self.old.traffic }
        ensures spares { KeepsSpares self.old self.new }
    {
        let place = &mut self.seats[seat as usize];
        place.hear(1);
    }

    /// The next reading of station 0, as `tap_peek_at` gives it.
    #[inline]
    pub fn tap_peek(&self) -> Reading
        ensures reading { result ≡ next_reading self.now.traffic 0 }
        ensures others { All (λ c. c.seat ≢ Some 0) (not_yet_read self.now.traffic 0) }
        ensures sound { IsSound self.now.traffic }
    {
        self.receive_windows[0].peek()
    }

    /// A station's next reading, which stays: a gap where more frames are unread than its window has room for, else the
    /// oldest unread frame, or that there is none. The station's own frames are no readings of it; those of another are.
    #[inline]
    pub fn tap_peek_at(&self, station: u32) -> Reading
        requires { IsStation self.now.traffic station }
        ensures reading { result ≡ next_reading self.now.traffic station }
        ensures others { All (λ c. c.seat ≢ Some station) (not_yet_read self.now.traffic station) }
        ensures sound { IsSound self.now.traffic }
    {
        self.receive_windows[station as usize].peek()
    }

    /// Whether a station has nothing to read.
    #[inline]
    pub fn is_tap_empty_at(&self, station: u32) -> bool
        requires { IsStation self.now.traffic station }
        ensures { MatchBool result (next_reading self.now.traffic station ≡ Reading.Empty)
            (next_reading self.now.traffic station ≢ Reading.Empty) }
    {
        self.receive_windows[station as usize].is_empty()
    }

    /// Passes over a station's next reading, which `tap_peek_at` gives, and over the frames of a gap. The readings of the
    /// other stations stay.
    pub fn tap_pass_at(&mut self, station: u32)
        requires { IsStation self.old.traffic station }
        ensures traffic { self.new.traffic ≡ reading_taken station (next_reading self.old.traffic station) self.old.traffic }
        ensures spares { KeepsSpares self.old self.new }
    {
        let receive_window = &mut self.receive_windows[station as usize];
        let passed = receive_window.pass();
        let place = &mut self.seats[station as usize];
        place.hear(passed);
    }

    /// Takes the next reading of station 0, as `tap_next_at` does.
    pub fn tap_next(&mut self) -> Reading
        ensures reading { result ≡ next_reading self.old.traffic 0 }
        ensures others { All (λ c. c.seat ≢ Some 0) (not_yet_read self.old.traffic 0) }
        ensures traffic { self.new.traffic ≡ reading_taken 0 result self.old.traffic }
        ensures spares { KeepsSpares self.old self.new }
    {
        let reading = self.tap_peek();
        self.tap_pass_at(0);
        reading
    }

    /// Takes a station's next reading. The frames of a gap are passed over.
    pub fn tap_next_at(&mut self, station: u32) -> Reading
        requires { IsStation self.old.traffic station }
        ensures reading { result ≡ next_reading self.old.traffic station }
        ensures others { All (λ c. c.seat ≢ Some station) (not_yet_read self.old.traffic station) }
        ensures traffic { self.new.traffic ≡ reading_taken station result self.old.traffic }
        ensures spares { KeepsSpares self.old self.new }
    {
        let reading = self.tap_peek_at(station);
        self.tap_pass_at(station);
        reading
    }
}
