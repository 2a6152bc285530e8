//! Whether somebody else sends from the address that a unit holds (SAE J1939-81, address violation).
ghost use Rattle.std.specs.Prelude.{◌≡◌, IfOk};
ghost use Rattle.can_frame.specs.FrameValue.{FrameValue};
ghost use Rattle.address_claim.specs.Claiming.{is_held};
ghost use Rattle.live_unit.specs.Echoes.{nothing_written, with_written};
ghost use Rattle.live_unit.specs.Violations.{Watches, WatchesOwn};
ghost use Rattle.live_unit.specs.Queue.{is_claim_frame};
ghost use Rattle.can_frame.specs.Fields.{source_of};

use crate::echo::Echo;
use can_frame::{Frame, Pgn};
use std::alloc::{AllocError, Global};
use std::marker::Model;

/// How long it is at least from a claim for an address violation to the next, in microseconds: five seconds (SAE J1939-81, from
/// memory).
pub const CLAIM_PERIOD: u64 = 5_000_000;

/// Who watches that nobody else sends from the address that a unit holds, as SAE J1939-81 wants it since 2011 (from memory). What
/// the unit writes comes back to it from the bus, and is told from another's by that.
#[derive(Drop)]
pub struct AddressWatch {
    echo: Echo,
    claim_from: u64,
}

impl Model for AddressWatch {
    ghost use Rattle.live_unit.specs.Violations.{AddressWatchValue};

    ghost Value = { AddressWatchValue };

    ghost view = { λ w. record { echo = w.echo; claim_from = w.claim_from } };
}

impl AddressWatch {
    /// The unit wrote nothing yet.
    pub fn new(alloc: Global) -> Result<AddressWatch, AllocError>
        ensures { IfOk result (λ w. w ≡ record { echo = nothing_written; claim_from = 0 }) }
    {
        Ok(AddressWatch {
            echo: Echo::new(alloc)?,
            claim_from: 0,
        })
    }

    /// The unit wrote a frame.
    pub fn write(&mut self, frame: Frame)
        ensures { self.new ≡ record self.old { echo = with_written frame self.old.echo } }
    {
        self.echo.write(frame);
    }

    /// A frame was heard by the unit, which holds this address. Answers whether the unit is to claim it again: where somebody else
    /// sent from it what is no claim, at most each five seconds. Nobody is accused before a frame of the unit's came back.
    pub fn hear(&mut self, frame: &Frame, held: Option<u8>, now: u64) -> bool
        ensures { Watches frame.now held now result self.old self.new }
    {
        if held != Some(frame.id().source()) {
            return false;
        }
        self.hear_own(frame, now)
    }

    /// A frame from the address held was heard.
    fn hear_own(&mut self, frame: &Frame, now: u64) -> bool
        ensures { WatchesOwn frame.now now result self.old self.new }
    {
        let stranger = self.echo.hear(frame);
        if !stranger || is_claim(frame) || self.claim_from > now {
            return false;
        }
        self.claim_from = now.saturating_add(CLAIM_PERIOD);
        true
    }
}

/// Whether a frame is a claim of an address, or says that none can be claimed.
fn is_claim(frame: &Frame) -> bool
    ensures { result ≡ is_claim_frame frame.now }
{
    frame.id().pgn() == Pgn::ADDRESS_CLAIMED
}
