ghost use Rattle.std.specs.Prelude.{◌≡◌, ◌<◌, ◌+◌, ◌^◌, ℕ, None, length, IfErr, IfOk, MatchOption, OnErr, OnOk};
ghost use Rattle.bus_ledger.specs.BusValue.{KeepsSpares};
ghost use Rattle.bus_ledger.specs.Carrying.{CanCarry, Carries, IsCarriedNext, IsChoice, offer};
ghost use Rattle.bus_ledger.specs.Changes.{injected};

use crate::bus::Bus;
use crate::error::BusError;
use crate::offers::{best_offer, best_seat, is_any_waiting};
use crate::receive_window;
use crate::traffic::{Carried, CarriedFrame, QueuedFrame};
use can_frame::Frame;

impl Bus {
    /// Carries one frame: the first frames of the seats that have heard the whole wire compete, and the lowest
    /// identifier wins, among equal ones the lowest seat. Nothing changes where the answer is `Idle` or `Waiting`.
    ///
    /// Refused where there is no memory and a frame could be carried; then nothing changed.
    pub fn carry(&mut self) -> Result<Carried, BusError>
        requires { length self.old.traffic.wire + 1 < 2 ^ 32 }
        ensures ok { IfOk result (λ a. Carries self.old.traffic a self.new.traffic) }
        ensures err { IfErr result (λ e. (e ≡ BusError.OutOfMemory) × (self.new.traffic ≡ self.old.traffic)) }
        ensures could { OnErr result (CanCarry self.old.traffic) }
        ensures spares { KeepsSpares self.old self.new }
    {
        let Some(seat) = self.next_seat() else {
            return Ok(self.without_sender());
        };
        self.wire.reserve()?;
        let place = &mut self.seats[seat as usize];
        let sent = place.send();
        receive_window::receive(self.receive_windows.as_mut_slice(), seat, sent.frame);
        let carried = CarriedFrame {
            seat: Some(seat),
            frame: sent.frame,
            tag: sent.tag,
        };
        self.wire.push_reserved(&carried);
        Ok(Carried::Frame {
            seat,
            frame: sent.frame,
        })
    }

    /// Puts a frame from outside at the end of the wire at once. Every seat hears it, each station reads it, and it counts as
    /// no seat's.
    ///
    /// Refused where there is no memory; then nothing changed.
    pub fn inject(&mut self, frame: Frame) -> Result<(), BusError>
        requires { length self.old.traffic.wire + 1 < 2 ^ 32 }
        ensures ok { OnOk result (self.new.traffic ≡ injected frame self.old.traffic) }
        ensures err { IfErr result (λ e. (e ≡ BusError.OutOfMemory) × (self.new.traffic ≡ self.old.traffic)) }
        ensures spares { self.new.spares ≡ self.old.spares }
    {
        self.wire.reserve()?;
        let stray = CarriedFrame {
            seat: None,
            frame,
            tag: None,
        };
        self.wire.push_reserved(&stray);
        receive_window::push(self.receive_windows.as_mut_slice(), frame);
        Ok(())
    }

    /// What `carry` would answer, want of memory aside.
    pub fn carry_peek(&self) -> Carried
        ensures { IsChoice self.now.traffic result }
    {
        match self.next_sender() {
            Some((seat, queued)) => Carried::Frame {
                seat,
                frame: queued.frame,
            },
            None => self.without_sender(),
        }
    }

    /// The seat that carries next. No frame is made for it.
    fn next_seat(&self) -> Option<u32>
        ensures { MatchOption result ((k : ℕ) → offer self.now.traffic k ≡ None)
            (λ k. (q : QueuedFrame) × IsCarriedNext self.now.traffic k q) }
    {
        let wire_len = self.wire.len() as u32;
        best_seat(self.seats.as_slice(), self.live.as_slice(), wire_len)
    }

    /// The seat that carries next, and its frame.
    fn next_sender(&self) -> Option<(u32, QueuedFrame)>
        ensures { MatchOption result ((k : ℕ) → offer self.now.traffic k ≡ None) (λ b. IsCarriedNext self.now.traffic b.0 b.1) }
    {
        let wire_len = self.wire.len() as u32;
        best_offer(self.seats.as_slice(), self.live.as_slice(), wire_len)
    }

    /// What a carry answers where no seat carries.
    fn without_sender(&self) -> Carried
        requires { (k : ℕ) → offer self.now.traffic k ≡ None }
        ensures choice { IsChoice self.now.traffic result }
        ensures stays { Carries self.now.traffic result self.now.traffic }
    {
        if is_any_waiting(self.seats.as_slice(), self.live.as_slice()) {
            Carried::Waiting
        } else {
            Carried::Idle
        }
    }
}
