ghost use Rattle.std.specs.Prelude.{◌≡◌, ◌<◌, ◌≤◌, [], ◌∷◌, ◌++◌, List, length, nat_lt, not, IfOk, OnOk, OnErr};
ghost use Rattle.circular_buffer.specs.Buffer.{buffer, keep_last};
ghost use Rattle.picture.specs.Histories.{Remembers};
ghost use Rattle.picture.specs.declared.history.Happened.{Happened as AChange};

use crate::brief::Brief;
use crate::unit::DrawnUnit;
use circular_buffer::HeapCircularBuffer;
use dm_messages::Kind;
use std::alloc::{AllocError, Global};
use std::marker::Model;

/// What a line of a log changed.
#[derive(Clone, Copy)]
pub enum Occurrence {
    /// The unit holds this address, which another one lost by that, if one did.
    At {
        unit: DrawnUnit,
        address: u8,
        lost_by: Option<DrawnUnit>,
    },
    /// The unit holds no address.
    NoAddress {
        unit: DrawnUnit,
    },
    /// The unit tells something else than before.
    Message {
        unit: DrawnUnit,
        kind: Kind,
        brief: Brief,
    },
    /// So many frames of this bus were missed.
    Missed {
        bus: u16,
        count: u64,
    },
    /// A diagnostic message came from an address that nobody has claimed, and such are not shown.
    Unowned {
        bus: u16,
        source: u8,
    },
    /// The unit acknowledged a request of a parameter group.
    Acknowledged {
        unit: DrawnUnit,
        control: u8,
        pgn: u32,
    },
    /// A message of the unit could not be read.
    Unread {
        unit: DrawnUnit,
        kind: Kind,
    },
}

/// A change, and where and when it was told.
#[derive(Clone, Copy)]
pub struct Happened {
    pub line: u64,
    /// Microseconds, or the line of a log that has no times.
    pub moment: u64,
    pub told: Occurrence,
}

/// How many of the first changes are kept, at most.
pub const FIRST: usize = 500;

/// How many of the last changes are kept, at most, behind the first.
pub const LAST: usize = 500;

/// The first and the last changes, seen as these, and how many between them are left out.
#[derive(Drop)]
pub struct History {
    first: Vec<Happened>,
    last: HeapCircularBuffer<Happened>,
    left_out: u64,
}

impl Model for History {
    ghost use Rattle.std.specs.Prelude.{◌≡◌, ◌≤◌, length, vec_len};
    ghost use Rattle.picture.specs.Histories.{HistoryValue};
    ghost use Rattle.picture.specs.declared.history.TheConstants.{FIRST, LAST};

    ghost Value = { HistoryValue };

    ghost view = { λ h. record { first = h.first.items; last = h.last.items; left_out = h.left_out } };

    ghost invariant = { λ h. (vec_len h.first ≤ FIRST) × (h.last.capacity ≡ LAST) × (length h.last.items ≤ LAST) };
}

impl History {
    /// A history in which nothing has happened.
    ///
    /// # Errors
    /// Memory was refused.
    #[tactic(auto, using(crate::proofs::Remembering::nothing_happened))]
    pub fn new(alloc: Global) -> Result<History, AllocError>
        ensures { IfOk result (λ h. Remembers [] h) }
    {
        Ok(History {
            first: Vec::new(alloc),
            last: HeapCircularBuffer::with_capacity(alloc, LAST)?,
            left_out: 0,
        })
    }

    /// The first changes, oldest first.
    pub fn first(&self) -> &[Happened]
        ensures { result.now ≡ self.now.first }
    {
        self.first.as_slice()
    }

    /// How many changes behind those are left out.
    pub fn left_out(&self) -> u64
        ensures { result ≡ self.now.left_out }
    {
        self.left_out
    }

    /// The last changes, in two parts, oldest first.
    pub fn last(&self) -> (&[Happened], &[Happened])
        ensures { result.0.now ++ result.1.now ≡ self.now.last }
    {
        self.last.as_slices()
    }

    /// Takes a change that came after all others.
    ///
    /// # Errors
    /// Memory was refused; nothing is changed.
    pub fn add(&mut self, change: &Happened) -> Result<(), AllocError>
        ensures ok { OnOk result ((told : List AChange) → Remembers told self.old → Remembers (told ++ change.now ∷ []) self.new) }
        ensures err { OnErr result (self.new ≡ self.old) }
    {
        if self.first.len() < FIRST {
            return self.add_first(change);
        }
        self.add_last(change);
        Ok(())
    }

    #[tactic(auto, using(crate::proofs::Remembering::among_the_first))]
    fn add_first(&mut self, change: &Happened) -> Result<(), AllocError>
        requires { length self.old.first < FIRST }
        ensures ok { OnOk result ((told : List AChange) → Remembers told self.old → Remembers (told ++ change.now ∷ []) self.new) }
        ensures err { OnErr result (self.new ≡ self.old) }
    {
        put(&mut self.first, change)
    }

    #[tactic(auto, using(crate::proofs::Remembering::room_at_the_end, crate::proofs::Remembering::oldest_left_out))]
    fn add_last(&mut self, change: &Happened)
        requires { FIRST ≤ length self.old.first }
        ensures { (told : List AChange) → Remembers told self.old → Remembers (told ++ change.now ∷ []) self.new }
    {
        if is_one_lost(&mut self.last, change) {
            self.left_out = self.left_out.saturating_add(1);
        }
    }
}

/// Puts a change behind all others. Where memory is refused, nothing changes.
fn put(changes: &mut Vec<Happened>, change: &Happened) -> Result<(), AllocError>
    ensures ok { OnOk result (changes.new.items ≡ changes.old.items ++ change.now ∷ []) }
    ensures err { OnErr result (changes.new.items ≡ changes.old.items) }
{
    changes.push(*change)?;
    Ok(())
}

/// Puts a change behind all others. Tells whether the first of them goes for it, since there was no room.
#[tactic(auto, using(crate::proofs::Remembering::one_is_lost))]
fn is_one_lost(changes: &mut HeapCircularBuffer<Happened>, change: &Happened) -> bool
    ensures items { changes.new ≡ buffer (keep_last changes.old.capacity (changes.old.items ++ change.now ∷ []))
        changes.old.capacity }
    ensures lost { result ≡ not (nat_lt (length changes.old.items) changes.old.capacity) }
{
    changes.push_back(*change).is_some()
}
