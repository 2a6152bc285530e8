ghost use Rattle.std.specs.Prelude.{◌≡◌, ◌≢◌, ◌<◌, ◌≤◌, ◌+◌, ◌^◌, ℕ, length, IfErr, OnOk};
ghost use Rattle.bus_ledger.specs.BusValue.{IsLive, KeepsSpares, seat_at, spare_at};
ghost use Rattle.bus_ledger.specs.Changes.{queued, queued_all, queued_frame, run_frames, withdrawn};
ghost use Rattle.bus_ledger.specs.Ledger.{IsSound};

use crate::bus::Bus;
use crate::error::BusError;
use crate::traffic::{QueuedFrame, Tag, Which};
use can_frame::Frame;
use transport::Run;

impl Bus {
    /// Makes room for `count` more frames in the seat's queue.
    ///
    /// Refused where there is no memory for them.
    #[inline(always)]
    pub fn reserve(&mut self, seat: u32, count: usize) -> Result<(), BusError>
        requires { IsLive self.old.traffic seat }
        ensures traffic { self.new.traffic ≡ self.old.traffic }
        ensures sound { IsSound self.old.traffic }
        ensures ok { OnOk result (count ≤ spare_at self.new seat) }
        ensures err { IfErr result (λ e. (e ≡ BusError.OutOfMemory) × (spare_at self.old seat < count)) }
        ensures spares { KeepsSpares self.old self.new }
    {
        let place = &mut self.seats[seat as usize];
        place.reserve(count)
    }

    /// Puts a frame at the end of the seat's queue, and takes the room for it. It cannot fail where the seat's spare is at
    /// least 1, and lowers the spare by at most 1.
    ///
    /// Refused where there is no memory; then nothing was queued.
    pub fn queue(&mut self, seat: u32, frame: Frame, tag: Option<Tag>) -> Result<(), BusError>
        requires live { IsLive self.old.traffic seat }
        requires few { (seat_at self.old.traffic seat).queued + 1 < 2 ^ 32 }
        ensures ok { OnOk result (self.new.traffic ≡ queued seat (queued_frame frame tag) self.old.traffic) }
        ensures err { IfErr result
            (λ e. (e ≡ BusError.OutOfMemory) × (spare_at self.old seat ≡ 0) × (self.new.traffic ≡ self.old.traffic)) }
        ensures spare { spare_at self.old seat ≤ spare_at self.new seat + 1 }
        ensures spares { (k : ℕ) → k ≢ seat → spare_at self.old k ≤ spare_at self.new k }
    {
        self.reserve(seat, 1)?;
        self.queue_reserved(seat, frame, tag);
        Ok(())
    }

    /// Puts a frame at the end of the seat's queue, which has room for it. Lowers the seat's spare by at most 1. Takes no
    /// memory.
    pub fn queue_reserved(&mut self, seat: u32, frame: Frame, tag: Option<Tag>)
        requires live { IsLive self.old.traffic seat }
        requires spare { 0 < spare_at self.old seat }
        requires few { (seat_at self.old.traffic seat).queued + 1 < 2 ^ 32 }
        ensures traffic { self.new.traffic ≡ queued seat (queued_frame frame tag) self.old.traffic }
        ensures spare { spare_at self.old seat ≤ spare_at self.new seat + 1 }
        ensures spares { (k : ℕ) → k ≢ seat → spare_at self.old k ≤ spare_at self.new k }
    {
        let place = &mut self.seats[seat as usize];
        place.put_reserved(QueuedFrame { frame, tag });
    }

    /// Puts the frames that are left of a run at the end of the seat's queue, in one place of it, which has room for it: parts
    /// of the message of this number, in a session or not. The queue is seen as with each frame queued by itself; a frame is
    /// made when it is looked at or carried. Lowers the seat's spare by at most 1. Takes no memory.
    pub fn queue_run_reserved(&mut self, seat: u32, run: Run, message: u32, session: bool)
        requires live { IsLive self.old.traffic seat }
        requires spare { 0 < spare_at self.old seat }
        requires few { (seat_at self.old.traffic seat).queued + length run < 2 ^ 32 }
        ensures traffic { self.new.traffic ≡ queued_all seat (run_frames message session run) self.old.traffic }
        ensures spare { spare_at self.old seat ≤ spare_at self.new seat + 1 }
        ensures spares { (k : ℕ) → k ≢ seat → spare_at self.old k ≤ spare_at self.new k }
    {
        let place = &mut self.seats[seat as usize];
        place.put_run_reserved(run, message, session);
    }

    /// Withdraws frames of the seat's queue, and answers how many: all of them, or those that are part of a session.
    pub fn withdraw(&mut self, seat: u32, which: Which) -> u32
        requires { IsLive self.old.traffic seat }
        ensures traffic { self.new.traffic ≡ withdrawn seat which self.old.traffic }
        ensures count { result + length (seat_at self.new.traffic seat).queue ≡ length (seat_at self.old.traffic seat).queue }
        ensures spares { KeepsSpares self.old self.new }
    {
        let place = &mut self.seats[seat as usize];
        place.withdraw(which)
    }
}
