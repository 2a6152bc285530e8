ghost use Rattle.std.specs.Prelude.{◌≡◌, [], length, slice_get, None, Some, cond, List, IfOk, OnOk, OnErr};
ghost use Rattle.std.specs.Map.{lookup};
ghost use Rattle.std.specs.Option.{option_copied};
ghost use Rattle.can_frame.specs.declared.reading.Reading.{Reading as AnyReading};
ghost use Rattle.listener.specs.ReadEntries.{entry_read_of};
ghost use Rattle.listener.specs.NewestSent.{HasNewestOf, KeepsOverheard, newest_sent_of, same_unit_key, units_listed, units_overheard, unit_of_key, with_unit};
ghost use Rattle.listener.specs.declared.unit_key.UnitKey.{UnitKey as AnyKey};

use crate::entry::SentEntry;
use crate::lists::SentLists;
use crate::unit_key::UnitKey;
use bus_model::Who;
use dm_messages::{Kind, MessageRead, Shown, Trouble};
use entry_lists::NewestOfKinds;
use std::alloc::{AllocError, Global};
use std::collections::BTreeMap;
use std::marker::Model;

/// An entry that is kept: where its message went, what it shows, and what of it is not read.
#[derive(Drop)]
pub struct KeptEntry {
    to: u8,
    shown: Shown,
    trouble: Option<Trouble>,
}

impl Model for KeptEntry {
    ghost use Rattle.listener.specs.ReadEntries.{EntryRead};

    ghost Value = { EntryRead };

    ghost view = { λ e. record { to = e.to; shown = e.shown; trouble = e.trouble } };
}

impl KeptEntry {
    /// What is kept of a message that went to this address. Of older layouts of a code none is read.
    fn of(alloc: Global, to: u8, read: MessageRead) -> Result<KeptEntry, AllocError>
        ensures { IfOk result (λ e. e ≡ entry_read_of to read) }
    {
        match read {
            MessageRead::Whole(shown) => Ok(KeptEntry {
                to,
                shown,
                trouble: None,
            }),
            MessageRead::InPart(part) => {
                let shown = part.shown(alloc, None)?;
                let trouble = Some(part.trouble(None));
                Ok(KeptEntry { to, shown, trouble })
            }
        }
    }

    /// The address that its message went to, 255 for all.
    pub fn to(&self) -> u8
        ensures { result ≡ self.now.to }
    {
        self.to
    }

    /// What its message shows: its lamps, and each code that can be read.
    pub fn shown(&self) -> &Shown
        ensures { result.now ≡ self.now.shown }
    {
        &self.shown
    }

    /// What of its message is not read, where it was read in part.
    pub fn trouble(&self) -> Option<Trouble>
        ensures { result ≡ self.now.trouble }
    {
        self.trouble
    }
}

/// The newest entries of each unit and kind, how many there were, and the units in the order of their first entries.
///
/// They are of messages that were read, whole or in part.
///
/// Who sends messages chooses whose they are. So a unit is found in a tree, whose depth the number of units bounds, and not by a
/// hash. What is kept is bounded by the units and by `keep`.
#[derive(Drop)]
pub struct NewestSent {
    keep: u32,
    order: Vec<UnitKey>,
    units: BTreeMap<UnitKey, NewestOfKinds<KeptEntry>>,
}

impl Model for NewestSent {
    ghost use Rattle.listener.specs.NewestSent.{HasUnitOrder, NewestSentValue};

    ghost Value = { NewestSentValue };

    ghost view = { λ l. record { keep = l.keep; order = l.order.items; units = l.units.entries } };

    ghost invariant = { λ l. HasUnitOrder l.order.items l.units.entries };
}

impl NewestSent {
    /// No entries of any unit. Of each list this many will be kept, or none where it is 0.
    #[tactic(auto, using(crate::proofs::NewestUnits::none_overheard))]
    pub fn new(alloc: Global, keep: u32) -> NewestSent
        ensures value { result ≡ record { keep = keep; order = []; units = [] } }
        ensures heard { KeepsOverheard result [] }
    {
        NewestSent {
            keep,
            order: Vec::new(alloc),
            units: BTreeMap::new(alloc),
        }
    }

    /// How many entries of each list are kept.
    pub fn keep(&self) -> u32
        ensures { result ≡ self.now.keep }
    {
        self.keep
    }

    /// How many units have had entries.
    #[tactic(auto, using(crate::proofs::NewestUnits::units_as_overheard))]
    pub fn units(&self) -> usize
        ensures value { result ≡ length self.now.order }
        ensures heard { (h : List AnyReading) → KeepsOverheard self.now h → result ≡ length (units_overheard h) }
    {
        self.order.len()
    }

    /// The unit at this place, from 0, in the order of the units' first entries.
    #[tactic(auto, using(crate::proofs::NewestUnits::unit_as_overheard))]
    pub fn unit_at(&self, place: usize) -> Option<Who>
        ensures value { result ≡ slice_get (units_listed self.now) place }
        ensures heard { (h : List AnyReading) → KeepsOverheard self.now h → result ≡ slice_get (units_overheard h) place }
    {
        match self.keys().get(place) {
            Some(key) => Some(key.who()),
            None => None,
        }
    }

    /// The keys, in the order of the units' first entries.
    fn keys(&self) -> &[UnitKey]
        ensures { result.now ≡ self.now.order }
    {
        self.order.as_slice()
    }

    /// How many entries of a kind a unit has had, up to the greatest 64-bit number.
    pub fn count(&self, who: Who, kind: Kind) -> u64
        ensures { result ≡ (newest_sent_of self.now who kind).count }
    {
        match self.units.get(&UnitKey::of(who)) {
            Some(kinds) => kinds.list(kind).count(),
            None => 0,
        }
    }

    /// The entry at this place of those that are kept, from 0, the oldest first.
    pub fn entry(&self, who: Who, kind: Kind, place: usize) -> Option<&KeptEntry>
        ensures { option_copied result ≡ slice_get (newest_sent_of self.now who kind).entries place }
    {
        match self.units.get(&UnitKey::of(who)) {
            Some(kinds) => kinds.list(kind).get(place),
            None => None,
        }
    }

    /// Puts an entry. Where memory is refused, nothing changes.
    #[tactic(auto, using(std::proofs::lemmas::Map::Steps::set_value_same))]
    fn add(
        &mut self,
        alloc: Global,
        who: Who,
        kind: Kind,
        entry: KeptEntry,
    ) -> Result<(), AllocError>
        ensures ok { OnOk result (HasNewestOf who kind entry self.old self.new) }
        ensures err { OnErr result (self.new ≡ self.old) }
    {
        let keep = self.keep;
        let key = UnitKey::of(who);
        match self.units.get_mut(&key) {
            Some(kinds) => kinds.push(keep, kind, entry),
            None => self.begin(alloc, key, kind, entry),
        }
    }

    /// Begins the lists of a unit that has none, with this entry. Where memory is refused, nothing changes.
    fn begin(
        &mut self,
        alloc: Global,
        key: UnitKey,
        kind: Kind,
        entry: KeptEntry,
    ) -> Result<(), AllocError>
        requires { lookup (same_unit_key key) self.old.units ≡ None }
        ensures ok { OnOk result (HasNewestOf (unit_of_key key) kind entry self.old self.new) }
        ensures err { OnErr result (self.new ≡ self.old) }
    {
        let mut kinds = NewestOfKinds::new(alloc);
        kinds.push(self.keep, kind, entry)?;
        self.put(key, kinds)?;
        Ok(())
    }

    /// Puts the lists of a unit that has none behind the others. Where memory is refused, nothing changes.
    fn put(&mut self, key: UnitKey, kinds: NewestOfKinds<KeptEntry>) -> Result<(), AllocError>
        requires { lookup (same_unit_key key) self.old.units ≡ None }
        ensures keep { OnOk result (self.new.keep ≡ self.old.keep) }
        ensures units { OnOk result (units_listed self.new ≡ with_unit (unit_of_key key) (units_listed self.old)) }
        ensures lists { OnOk result ((q : AnyKey)
            → lookup (same_unit_key q) self.new.units ≡ cond (same_unit_key key q) (Some kinds) (lookup (same_unit_key q) self.old.units)) }
        ensures err { OnErr result (self.new ≡ self.old) }
    {
        self.order.reserve(1)?;
        self.units.insert(key, kinds)?;
        self.order.push_reserved(key);
        Ok(())
    }
}

impl SentLists for NewestSent {
    ghost use Rattle.listener.specs.NewestSent.{HasNewestSent};

    ghost Takes = { λ before entry after. HasNewestSent before entry after };

    fn put(&mut self, alloc: Global, entry: SentEntry) -> Result<(), AllocError> {
        let SentEntry {
            who,
            kind,
            to,
            read,
            ..
        } = entry;
        let kept = KeptEntry::of(alloc, to, read)?;
        self.add(alloc, who, kind, kept)
    }
}
