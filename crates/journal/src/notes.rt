ghost use Rattle.std.specs.Prelude.{◌≡◌, ◌+◌, ◌<◌, ◌^◌, ◌∷◌, [], length};
ghost use Rattle.fault_memory.specs.Memory.{MemoryValue};
ghost use Rattle.journal.specs.Notes.{event_of};
ghost use Rattle.journal.specs.declared.event.Event.TheVariants as event;

use crate::memory_then::MemoryThen;
use crate::note::Note;
use crate::order::Order;
use can_frame::{Frame, Reading};
use http_server::Log;
use name_field::Name;
use node_core::Answer;
use std::marker::Model;

/// The most events that a journal may hold.
pub const MOST_EVENTS: u32 = 1 << 24;

/// The journal: all events, which are known to proofs alone, and how many they are, which is real.
///
/// Contracts see the events themselves (`Event`), the newest first. Nothing but their count is kept when it runs, so it takes no
/// memory and refuses nothing. That the events are what happened is no clause of the journal: its owner's invariant ties them to what
/// there is.
#[derive(Drop)]
pub struct Journal {
    events: u32,
    // each event, the oldest first, and the fault memory that it tells: a list of which there is nothing at run time
    noted: Log<Note, MemoryThen>,
}

impl Model for Journal {
    ghost use Rattle.std.specs.Prelude.{◌≡◌, List, length};
    ghost use Rattle.journal.specs.Notes.{events_of};
    ghost use Rattle.journal.specs.declared.event.Event.{Event};

    ghost Value = { List Event };

    ghost view = { λ j. events_of j.noted.items };

    ghost invariant = { λ j. j.events ≡ length j.noted.items };
}

impl Journal {
    /// A journal without events.
    pub fn new() -> Journal
        ensures { result ≡ [] }
    {
        Journal {
            events: 0,
            noted: Log::new(),
        }
    }

    /// How many events there are.
    #[inline]
    pub fn len(&self) -> u32
        ensures { result ≡ length self.now }
    {
        self.events
    }

    /// Notes that a unit of this NAME got this seat and claims this address.
    pub fn note_join(&mut self, seat: u32, name: Name, address: u8)
        requires { length self.old + 1 < 2 ^ 32 }
        ensures { self.new ≡ event.Join seat name address ∷ self.old }
    {
        self.note(Note::Join {
            seat,
            name,
            address,
        });
    }

    /// Notes that a unit heard its next frame with this memory and answered so.
    #[inline]
    pub fn note_hear(&mut self, seat: u32, memory: &MemoryThen, answer: Answer)
        requires { length self.old + 1 < 2 ^ 32 }
        ensures { self.new ≡ event.Hear seat memory.now answer ∷ self.old }
    {
        self.note_with(Note::Hear { seat, answer }, memory);
    }

    /// Notes that a unit began a DM1 of this memory.
    pub fn note_begin(&mut self, seat: u32, memory: &MemoryThen)
        requires { length self.old + 1 < 2 ^ 32 }
        ensures { self.new ≡ event.Begin seat memory.now ∷ self.old }
    {
        self.note_with(Note::Begin { seat }, memory);
    }

    /// Notes that a turn of a unit is over.
    pub fn note_turned(&mut self, seat: u32)
        requires { length self.old + 1 < 2 ^ 32 }
        ensures { self.new ≡ event.Turned seat ∷ self.old }
    {
        self.note(Note::Turned { seat });
    }

    /// Notes that the first frame of this seat's queue was carried.
    #[inline]
    pub fn note_carry(&mut self, seat: u32)
        requires { length self.old + 1 < 2 ^ 32 }
        ensures { self.new ≡ event.Carry seat ∷ self.old }
    {
        self.note(Note::Carry { seat });
    }

    /// Notes that the station with this number took this reading.
    #[inline]
    pub fn note_read(&mut self, station: u32, reading: Reading)
        requires { length self.old + 1 < 2 ^ 32 }
        ensures { self.new ≡ event.Read station reading ∷ self.old }
    {
        self.note(Note::Read { station, reading });
    }

    /// Notes that the station with this number queued what it was told to send.
    pub fn note_order(&mut self, station: u32, order: Order)
        requires { length self.old + 1 < 2 ^ 32 }
        ensures { self.new ≡ event.Ordered station order ∷ self.old }
    {
        self.note(Note::Ordered { station, order });
    }

    /// Notes that a unit left.
    pub fn note_leave(&mut self, seat: u32)
        requires { length self.old + 1 < 2 ^ 32 }
        ensures { self.new ≡ event.Leave seat ∷ self.old }
    {
        self.note(Note::Leave { seat });
    }

    /// Notes that a frame was put on the wire from outside: no seat sent it.
    pub fn note_inject(&mut self, frame: Frame)
        requires { length self.old + 1 < 2 ^ 32 }
        ensures { self.new ≡ event.Inject frame ∷ self.old }
    {
        self.note(Note::Inject { frame });
    }

    /// Adds an event that tells no memory.
    #[inline(always)]
    fn note(&mut self, note: Note)
        requires { length self.old + 1 < 2 ^ 32 }
        ensures { (m : MemoryValue) × (self.new ≡ event_of note m ∷ self.old) }
    {
        self.note_with(note, &MemoryThen::new());
    }

    /// Adds an event that tells this memory, or none.
    #[inline(always)]
    fn note_with(&mut self, note: Note, memory: &MemoryThen)
        requires { length self.old + 1 < 2 ^ 32 }
        ensures { self.new ≡ event_of note memory.now ∷ self.old }
    {
        self.noted = self.noted.and(&note, memory);
        self.events += 1;
    }
}

const _: () = prove!(size_of::<Journal>() == 4);
