ghost use Rattle.std.specs.Prelude.{◌≡◌, length, slice_get, OnOk, OnErr};
ghost use Rattle.std.specs.Option.{option_copied};
ghost use Rattle.entry_lists.specs.Newest.{with_newest};

use dm_messages::Kind;
use std::alloc::{AllocError, Global};
use std::collections::VecDeque;
use std::marker::Model;

/// The newest entries of a list, oldest first, and how many there were in all.
#[derive(Drop)]
pub struct NewestList<T> {
    entries: VecDeque<T>,
    count: u64,
}

impl<T> Model for NewestList<T> {
    ghost use Rattle.entry_lists.specs.Newest.{NewestValue};

    ghost Value = { NewestValue T };

    ghost view = { λ l. record { entries = l.entries.items; count = l.count } };
}

/// Puts an entry behind the newest, of which only so many stay. Where memory is refused, nothing changes.
fn push_newest<T: Drop>(entries: &mut VecDeque<T>, keep: u32, entry: T) -> Result<(), AllocError>
    ensures ok { OnOk result (entries.new.items ≡ with_newest keep entry entries.old.items) }
    ensures err { OnErr result (entries.new.items ≡ entries.old.items) }
{
    entries.push_back(entry)?;
    if entries.len() > keep as usize {
        entries.pop_front();
    }
    Ok(())
}

impl<T: Drop> NewestList<T> {
    ghost use Rattle.entry_lists.specs.Newest.{none_came, one_newer};

    /// None came.
    fn new(alloc: Global) -> NewestList<T>
        ensures { result ≡ none_came }
    {
        NewestList {
            entries: VecDeque::new(alloc),
            count: 0,
        }
    }

    /// One more, of which only so many stay. Where memory is refused, nothing changes.
    fn push(&mut self, keep: u32, entry: T) -> Result<(), AllocError>
        ensures ok { OnOk result (self.new ≡ one_newer keep entry self.old) }
        ensures err { OnErr result (self.new ≡ self.old) }
    {
        push_newest(&mut self.entries, keep, entry)?;
        self.count = self.count.saturating_add(1);
        Ok(())
    }

    /// How many there were, up to the greatest 64-bit number.
    pub fn count(&self) -> u64
        ensures { result ≡ self.now.count }
    {
        self.count
    }

    /// How many are kept.
    pub fn kept(&self) -> usize
        ensures { result ≡ length self.now.entries }
    {
        self.entries.len()
    }

    /// The one at this place of those that are kept, from 0, the oldest first.
    pub fn get(&self, place: usize) -> Option<&T>
        ensures { option_copied result ≡ slice_get self.now.entries place }
    {
        self.entries.get(place)
    }
}

/// What is kept of the list of each kind.
#[derive(Drop)]
pub struct NewestOfKinds<T> {
    dm1: NewestList<T>,
    dm2: NewestList<T>,
    dm6: NewestList<T>,
}

impl<T> Model for NewestOfKinds<T> {
    ghost use Rattle.entry_lists.specs.Newest.{NewestKinds};

    ghost Value = { NewestKinds T };

    ghost view = { λ k. record { dm1 = k.dm1; dm2 = k.dm2; dm6 = k.dm6 } };
}

impl<T: Drop> NewestOfKinds<T> {
    ghost use Rattle.entry_lists.specs.Newest.{newest_in, no_kinds, with_newer};

    /// None came.
    pub fn new(alloc: Global) -> NewestOfKinds<T>
        ensures { result ≡ no_kinds }
    {
        NewestOfKinds {
            dm1: NewestList::new(alloc),
            dm2: NewestList::new(alloc),
            dm6: NewestList::new(alloc),
        }
    }

    /// One more of a kind, of which only so many stay. Where memory is refused, nothing changes.
    pub fn push(&mut self, keep: u32, kind: Kind, entry: T) -> Result<(), AllocError>
        ensures ok { OnOk result (self.new ≡ with_newer keep kind entry self.old) }
        ensures err { OnErr result (self.new ≡ self.old) }
    {
        match kind {
            Kind::Dm1 => self.dm1.push(keep, entry),
            Kind::Dm2 => self.dm2.push(keep, entry),
            Kind::Dm6 => self.dm6.push(keep, entry),
        }
    }

    /// What is kept of the list of a kind.
    pub fn list(&self, kind: Kind) -> &NewestList<T>
        ensures { result.now ≡ newest_in self.now kind }
    {
        match kind {
            Kind::Dm1 => &self.dm1,
            Kind::Dm2 => &self.dm2,
            Kind::Dm6 => &self.dm6,
        }
    }
}
