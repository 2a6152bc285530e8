//! Who takes part in a bus, as the threads and the playback of a run see it.
ghost use Rattle.std.specs.Prelude.{◌≡◌, ◌<◌, ℕ};
ghost use Rattle.live_lines.specs.Hearing.{FleetDoes};
ghost use Rattle.live_lines.specs.Playing.{BusCall as AnyCall, Echoes, Hears, Misses, Steps};

use crate::ear::HeardFrame;
use crate::fleet::Fleet;
use crate::orders::OrderReader;
use can_frame::Frame;
use log_lines::LinesEnd;
use std::alloc::{AllocError, Global};
use std::io::Write;

/// Who takes part in a bus. Times are in microseconds of a clock that does not go back. What is to be told of it goes to `notes`.
pub trait OnBus: Drop {
    /// What it comes to by a call at a time, as far as that is known.
    ghost does: { Self → AnyCall → ℕ → Self → Type 0 } = { λ _ _ _ _. Unit {0} };

    /// When it says at a time that it is to be asked again, as far as that is known.
    ghost looks: { Self → ℕ → ℕ → Type 0 } = { λ _ _ _. Unit {0} };

    /// Hears a frame of the bus.
    fn hear<N: Write>(&mut self, alloc: Global, heard: &HeardFrame, now: u64, notes: &mut N)
        requires { Unit {0} }
        ensures { does self.old (Hears heard.now) now self.new };

    /// Is told that so many frames of the bus were not read.
    fn miss<N: Write>(&mut self, alloc: Global, count: u32, now: u64, notes: &mut N)
        requires { Unit {0} }
        ensures { does self.old (Misses count) now self.new };

    /// Where the bus does not hand back what is written to it: a frame that `step` gave was written.
    fn echo<N: Write>(&mut self, alloc: Global, written: &HeardFrame, now: u64, notes: &mut N)
        requires { Unit {0} }
        ensures { does self.old (Echoes written.now) now self.new };

    /// The frame that goes at this time, if one does.
    fn step<N: Write>(&mut self, alloc: Global, now: u64, notes: &mut N) -> Option<Frame>
        requires { Unit {0} }
        ensures { does self.old (Steps result) now self.new };

    /// When to look again, at this time or later.
    fn next(&self, now: u64) -> u64
        ensures { looks self.now now result };

    /// Whether the run ends now, though there may be more lines.
    fn is_done(&self) -> bool;

    /// Takes the next line of what is asked of it, with its end.
    ///
    /// Refused: where memory is.
    fn order(
        &mut self,
        alloc: Global,
        line: &[u8],
        now: u64,
        notes: &mut Vec<u8>,
    ) -> Result<(), AllocError>
        requires { Unit {0} };

    /// Leaves the bus at this time: it hears nothing more, and writes nothing.
    fn close<N: Write>(&mut self, now: u64, notes: &mut N)
        requires { Unit {0} };

    /// How a run ended whose lines ended so. Tells what became of it.
    fn ended<E: Write>(&self, errors: &mut E, lines: LinesEnd) -> LinesEnd;

    /// Whether all that was asked of it was granted.
    fn is_content(&self) -> bool;
}

/// Units that take part in one bus, and who reads what is asked of them.
#[derive(Drop)]
pub struct Units {
    fleet: Fleet,
    orders: OrderReader,
}

impl Units {
    /// These, of which nothing was asked.
    pub fn new(fleet: Fleet) -> Units {
        Units {
            fleet,
            orders: OrderReader::new(),
        }
    }
}

/// They hear each other, pass over frames that were not read, and go on to the end of the lines.
impl OnBus for Units {
    ghost does = { λ u call now v. FleetDoes call u.fleet.members.items v.fleet.members.items };

    ghost looks = { λ u now again. now < u.fleet.idle_until → again ≡ u.fleet.idle_until };

    fn hear<N: Write>(&mut self, alloc: Global, heard: &HeardFrame, now: u64, notes: &mut N) {
        self.fleet.hear(alloc, &heard.frame, now, notes);
    }

    fn miss<N: Write>(&mut self, _alloc: Global, _count: u32, _now: u64, _notes: &mut N) {}

    fn echo<N: Write>(&mut self, alloc: Global, written: &HeardFrame, now: u64, notes: &mut N) {
        self.fleet.hear(alloc, &written.frame, now, notes);
    }

    fn step<N: Write>(&mut self, alloc: Global, now: u64, notes: &mut N) -> Option<Frame> {
        self.fleet.step(alloc, now, notes)
    }

    fn next(&self, now: u64) -> u64 {
        self.fleet.next(now)
    }

    fn is_done(&self) -> bool {
        false
    }

    fn order(
        &mut self,
        alloc: Global,
        line: &[u8],
        _now: u64,
        notes: &mut Vec<u8>,
    ) -> Result<(), AllocError> {
        let Some(answer) = self.orders.take(alloc, &mut self.fleet, line) else {
            return Ok(());
        };
        let line = format!(in alloc; "{answer}\n")?;
        notes.extend_from_slice(line.as_bytes())
    }

    fn close<N: Write>(&mut self, _now: u64, _notes: &mut N) {}

    fn ended<E: Write>(&self, errors: &mut E, lines: LinesEnd) -> LinesEnd {
        self.fleet.ended(errors, lines)
    }

    fn is_content(&self) -> bool {
        true
    }
}
