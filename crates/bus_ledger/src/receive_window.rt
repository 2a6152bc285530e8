ghost use Rattle.std.specs.Prelude.{◌≡◌, ◌≢◌, ◌-◌, ◌<◌, ◌^◌, ℕ, [], length, IfOk};
ghost use Rattle.std.specs.Bool.{MatchBool};
ghost use Rattle.bus_ledger.specs.Reception.{passes};
ghost use Rattle.bus_ledger.specs.Window.{AllMayMiss, window, window_in, pushed, taken_in, reading_of, rest_of};

use can_frame::{Frame, Reading};
use circular_buffer::HeapCircularBuffer;
use std::alloc::{AllocError, Global};
use std::marker::Model;
use std::mem;

/// A station's window: a ring of the latest unread frames, and how many went out of it unread since the last reading.
#[derive(Drop)]
pub(crate) struct ReceiveWindow {
    ring: HeapCircularBuffer<Frame>,
    missed: u32,
}

impl Model for ReceiveWindow {
    ghost use Rattle.std.specs.Prelude.{◌≤◌, ◌<◌, length};
    ghost use Rattle.bus_ledger.specs.Window.{WindowValue};

    ghost Value = { WindowValue };

    ghost view = { λ t. record { size = t.ring.capacity; unread = t.ring.items; missed = t.missed } };

    // (a frame is missed only where the ring is full, and the gap is read before any frame of it)
    ghost invariant = { λ t. (0 < t.ring.capacity) × (length t.ring.items ≤ t.ring.capacity) × (0 < t.missed → 0 < length t.ring.items) };
}

impl ReceiveWindow {
    /// A window with room for so many frames, of which none has come yet. It takes all the memory that it will need.
    pub(crate) fn new(alloc: Global, size: u32) -> Result<ReceiveWindow, AllocError>
        requires { 0 < size }
        ensures { IfOk result (λ t. t ≡ window size [] 0) }
    {
        Ok(ReceiveWindow {
            ring: HeapCircularBuffer::with_capacity(alloc, size as usize)?,
            missed: 0,
        })
    }

    /// A frame comes in, and where the ring is full the oldest one goes out of it, and counts as missed.
    pub(crate) fn push(&mut self, frame: Frame)
        requires { self.old.missed < 2 ^ 32 - 1 }
        ensures { self.new ≡ pushed frame self.old }
    {
        if self.ring.push_back(frame).is_some() {
            self.missed += 1;
        }
    }

    /// The next reading, which stays: the gap that was missed, else the oldest frame, or that there is none.
    pub(crate) fn peek(&self) -> Reading
        ensures { result ≡ reading_of self.now }
    {
        if self.missed > 0 {
            return Reading::Gap(self.missed);
        }
        match self.ring.front() {
            Some(frame) => Reading::Frame(*frame),
            None => Reading::Empty,
        }
    }

    /// Whether there is no next reading.
    pub(crate) fn is_empty(&self) -> bool
        ensures { MatchBool result (reading_of self.now ≡ Reading.Empty) (reading_of self.now ≢ Reading.Empty) }
    {
        self.ring.is_empty()
    }

    /// Passes over the next reading, and says how many frames it was of. After a gap nothing counts as missed.
    pub(crate) fn pass(&mut self) -> u32
        ensures count { result ≡ passes (reading_of self.old) }
        ensures rest { self.new ≡ rest_of self.old }
    {
        let missed = mem::take(&mut self.missed);
        if missed > 0 {
            return missed;
        }
        // (an only frame is taken from the back, so that the next one comes to the same place of memory)
        let passed = if self.ring.len() == 1 {
            self.ring.pop_back()
        } else {
            self.ring.pop_front()
        };
        match passed {
            Some(_) => 1,
            None => 0,
        }
    }
}

/// A frame was carried from a seat. It comes in at each station; but a station's own frame is no reading of it.
pub(crate) fn receive(receive_windows: &mut [ReceiveWindow], seat: u32, frame: Frame)
    requires few { length receive_windows.old < 2 ^ 32 }
    requires room { AllMayMiss receive_windows.old }
    ensures { (y : ℕ) → y < length receive_windows.old
        → window_in receive_windows.new y ≡ taken_in y seat frame (window_in receive_windows.old y) }
{
    for (station, receive_window) in receive_windows.iter_mut().enumerate() {
        if station as u32 != seat {
            receive_window.push(frame);
        }
    }
}

/// A frame was put on the wire from outside. It comes in at each station.
pub(crate) fn push(receive_windows: &mut [ReceiveWindow], frame: Frame)
    requires { AllMayMiss receive_windows.old }
    ensures { (y : ℕ) → y < length receive_windows.old
        → window_in receive_windows.new y ≡ pushed frame (window_in receive_windows.old y) }
{
    for receive_window in receive_windows.iter_mut() {
        receive_window.push(frame);
    }
}
