ghost use Rattle.std.specs.Prelude.{◌≡◌, ◌⊎◌, ◌↔◌, IfErr, IsErrOf, OnErr, OnOk};
ghost use Rattle.journal.specs.Journal.{injected_of, Adds};
ghost use Rattle.journal.specs.Promises.{KeepsLists};
ghost use Rattle.journal.specs.declared.event.Event.TheVariants.{Inject};
ghost use Rattle.garage.specs.Calls.{IsNoMemoryOrFull};
ghost use Rattle.garage.specs.Room.{IsFull};

use crate::error::GarageError;
use crate::garage::Garage;
use crate::room::check_room;
use can_frame::Frame;

impl Garage {
    /// Puts a frame that no seat sent at the end of the wire at once.
    ///
    /// Every seat hears it, and the stations read it; no seat counts it as its own. From then on the lists are what the frames read
    /// say (`shown`, clause `heard`), and not known to be true.
    ///
    /// Refused: `BookFull`, then `OutOfMemory`. Then nothing changed.
    #[tactic(auto, using(crate::proofs::Lists::lists_same, crate::proofs::Lists::lists_added))]
    pub fn inject(&mut self, frame: Frame) -> Result<(), GarageError>
        ensures ok { OnOk result (Adds self.old (Inject frame) self.new) }
        ensures full { IsErrOf result GarageError.BookFull ↔ IsFull self.old }
        ensures only { IfErr result IsNoMemoryOrFull }
        ensures err { OnErr result (self.new ≡ self.old) }
        ensures lists { KeepsLists self.old self.new }
    {
        check_room(&self.journal, self.live + 1, self.limit)?;
        self.bus.inject(frame)?;
        self.injected += 1;
        self.journal.note_inject(frame);
        Ok(())
    }

    /// How many frames came from outside.
    ///
    /// If it is 0, all that is promised of what units sent holds.
    pub fn injected(&self) -> u32
        ensures { result ≡ injected_of self.now.journal }
    {
        self.injected
    }
}
