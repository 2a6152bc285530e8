ghost use Rattle.std.specs.Prelude.{◌≡◌, ◌≤◌, ◌↔◌, length, IfOk, IfErr, IsErrOf, OnErr};
ghost use Rattle.bus_ledger.specs.BusValue.{IsUnit};
ghost use Rattle.journal.specs.Journal.{state_of, Adds, IsSeated};
ghost use Rattle.journal.specs.Promises.{KeepsLists};
ghost use Rattle.journal.specs.declared.event.Event.TheVariants.{Join, Leave};
ghost use Rattle.garage.specs.Calls.{HasNameInUse, HasNoRoomFor, HasTooMany};
ghost use Rattle.garage.specs.Refusals.{IsJoinRefusal};

use crate::error::GarageError;
use crate::garage::{Garage, Place};
use crate::queueing::queue_frames;
use crate::room::check_room;
use can_frame::GREATEST_ADDRESS;
use journal::Tally;
use name_field::Name;
use node_core::Node;
use std::alloc::Global;

impl Garage {
    /// Gives a unit of this NAME the next seat, and queues its claim.
    ///
    /// Refused, in this order, and then nothing changed:
    /// - `NameInUse` if a live seat has the NAME;
    /// - `TooManySeats` if 64 units are live;
    /// - `BookFull`;
    /// - `OutOfMemory`.
    #[tactic(auto, using(crate::proofs::Lists::lists_same, crate::proofs::Lists::lists_added))]
    pub(crate) fn join(&mut self, alloc: Global, name: Name, want: u8) -> Result<u32, GarageError>
        requires { want ≤ GREATEST_ADDRESS }
        ensures ok { IfOk result (λ k. (k ≡ length (state_of self.old).traffic.seats) × Adds self.old (Join k name want) self.new
            × IsSeated self.new k name 1) }
        ensures name_in_use { IsErrOf result GarageError.NameInUse ↔ HasNameInUse self.old name }
        ensures too_many { IsErrOf result GarageError.TooManySeats ↔ HasTooMany self.old name }
        ensures full { IsErrOf result GarageError.BookFull ↔ HasNoRoomFor self.old name }
        ensures only { IfErr result IsJoinRefusal }
        ensures err { OnErr result (self.new ≡ self.old) }
        ensures lists { KeepsLists self.old self.new }
    {
        self.bus.may_join(name)?;
        check_room(&self.journal, self.live + 2, self.limit)?;
        self.places.reserve(1)?;
        let node = Node::new(name, want);
        let claim = node.start();
        let seat = self.bus.join(name)?;
        queue_frames(&mut self.bus, seat, &[claim]);
        self.places.push_reserved(Place {
            node,
            session_message: 0,
            tally: Tally {
                joined: 1,
                turned: 0,
                left: 0,
                events: 1,
            },
        });
        self.live += 1;
        self.journal.note_join(seat, name, want);
        Ok(seat)
    }

    /// The unit on the seat leaves: its queued frames are withdrawn. Takes no memory.
    #[tactic(auto, using(crate::proofs::Lists::lists_same, crate::proofs::Lists::lists_added))]
    pub(crate) fn leave(&mut self, seat: u32)
        requires { IsUnit (state_of self.old).traffic seat }
        ensures adds { Adds self.old (Leave seat) self.new }
        ensures lists { KeepsLists self.old self.new }
    {
        let _ = self.bus.leave(seat);
        let place = &mut self.places[(seat - self.stations) as usize];
        place.tally.left += 1;
        place.tally.events += 1;
        self.live -= 1;
        self.journal.note_leave(seat);
    }
}
