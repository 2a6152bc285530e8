ghost use Rattle.std.specs.Prelude.{◌≡◌, ◌&&◌, ◌∷◌, [], ◌++◌, length, slice_get, None, Some, cond, IfOk, OnOk, OnErr, if◌then◌else◌};
ghost use Rattle.std.specs.Map.{lookup};
ghost use Rattle.bus_model.specs.Heard.{counted};
ghost use Rattle.bus_model.specs.Overheard.{same_who};
ghost use Rattle.bus_model.specs.declared.who.Who.{Who as AnyWho};
ghost use Rattle.bus_watch.specs.Runs.{has_begun, key_of, no_units, runs_in, same_key, units_of, unrolled, who_of, with_came, with_unit};
ghost use Rattle.bus_watch.specs.declared.key.Key.{Key as AnyKey};
ghost use Rattle.dm_messages.specs.View.{same_kind};
ghost use Rattle.dm_messages.specs.declared.kind.Kind.{Kind as AnyKind};

use crate::key::Key;
use crate::run::EntryRun;
use crate::shown_entry::UnitEntry;
use crate::unit_runs::UnitRuns;
use candump_line::Time;
use dm_messages::Kind;
use listener::Who;
use std::alloc::{AllocError, Global};
use std::collections::BTreeMap;
use std::marker::Model;

/// The runs of each unit's entries, and the units in the order of their first entries.
///
/// Who sends messages chooses whose they are. So a unit is found in a tree, whose depth the number of units bounds, and not by a
/// hash.
#[derive(Drop)]
pub(crate) struct RunTable {
    order: Vec<Key>,
    units: BTreeMap<Key, UnitRuns>,
}

impl Model for RunTable {
    ghost use Rattle.bus_watch.specs.Runs.{HasOrder, UnitsValue};

    ghost Value = { UnitsValue };

    ghost view = { λ t. record { order = t.order.items; runs = t.units.entries } };

    ghost invariant = { λ t. HasOrder (record { order = t.order.items; runs = t.units.entries }) };
}

impl RunTable {
    /// No runs of any unit.
    pub(crate) fn new(alloc: Global) -> RunTable
        ensures { result ≡ no_units }
    {
        RunTable {
            order: Vec::new(alloc),
            units: BTreeMap::new(alloc),
        }
    }

    /// How many units have entries.
    pub(crate) fn len(&self) -> usize
        ensures { result ≡ length self.now.order }
    {
        self.order.len()
    }

    /// The unit at this place, from 0.
    pub(crate) fn who_at(&self, place: usize) -> Option<Who>
        ensures { result ≡ slice_get (units_of self.now) place }
    {
        match self.keys().get(place) {
            Some(key) => Some(key.who()),
            None => None,
        }
    }

    /// The keys, in the order of the units' first entries.
    fn keys(&self) -> &[Key]
        ensures { result.now ≡ self.now.order }
    {
        self.order.as_slice()
    }

    /// The runs of a unit and kind, oldest first.
    pub(crate) fn runs(&self, who: Who, kind: Kind) -> &[EntryRun]
        ensures { result.now ≡ runs_in self.now who kind }
    {
        match self.units.get(&Key::of(who)) {
            Some(unit) => unit.runs(kind),
            None => &[],
        }
    }

    /// How many entries the runs of a unit and kind are, up to the greatest 64-bit number.
    pub(crate) fn entries(&self, who: Who, kind: Kind) -> u64
        ensures { result ≡ counted (length (unrolled (runs_in self.now who kind))) }
    {
        match self.units.get(&Key::of(who)) {
            Some(unit) => unit.entries(kind),
            None => 0,
        }
    }

    /// Adds an entry to the list of its unit and kind. Tells whether it begins a run. Where memory is refused, nothing changes.
    #[tactic(auto, using(std::proofs::lemmas::Map::Steps::set_value_same))]
    pub(crate) fn add(
        &mut self,
        alloc: Global,
        entry: UnitEntry,
        time: Option<Time>,
        contested: bool,
    ) -> Result<bool, AllocError>
        ensures entries { OnOk result ((w : AnyWho) (k : AnyKind) → unrolled (runs_in self.new w k)
            ≡ (if same_who entry.who w && same_kind entry.kind k then unrolled (runs_in self.old w k) ++ entry.what ∷ [] else unrolled (runs_in self.old w k))) }
        ensures came { OnOk result ((w : AnyWho) (k : AnyKind) → runs_in self.new w k
            ≡ (if same_who entry.who w && same_kind entry.kind k then with_came (runs_in self.old w k) (record { what = entry.what; time = time; contested = contested }) else runs_in self.old w k)) }
        ensures units { OnOk result (units_of self.new ≡ with_unit entry.who (units_of self.old)) }
        ensures begins { IfOk result
            (λ b. b ≡ has_begun (runs_in self.old entry.who entry.kind) (runs_in self.new entry.who entry.kind)) }
        ensures err { OnErr result (self.new ≡ self.old) }
    {
        match self.units.get_mut(&Key::of(entry.who)) {
            Some(unit) => unit.add(entry, time, contested),
            None => self.begin(alloc, entry, time, contested),
        }
    }

    /// Begins the lists of a unit that has none. Where memory is refused, nothing changes.
    fn begin(
        &mut self,
        alloc: Global,
        entry: UnitEntry,
        time: Option<Time>,
        contested: bool,
    ) -> Result<bool, AllocError>
        requires { lookup (same_key (key_of entry.who)) self.old.runs ≡ None }
        ensures entries { OnOk result ((w : AnyWho) (k : AnyKind) → unrolled (runs_in self.new w k)
            ≡ (if same_who entry.who w && same_kind entry.kind k then unrolled (runs_in self.old w k) ++ entry.what ∷ [] else unrolled (runs_in self.old w k))) }
        ensures came { OnOk result ((w : AnyWho) (k : AnyKind) → runs_in self.new w k
            ≡ (if same_who entry.who w && same_kind entry.kind k then with_came (runs_in self.old w k) (record { what = entry.what; time = time; contested = contested }) else runs_in self.old w k)) }
        ensures units { OnOk result (units_of self.new ≡ with_unit entry.who (units_of self.old)) }
        ensures begins { IfOk result
            (λ b. b ≡ has_begun (runs_in self.old entry.who entry.kind) (runs_in self.new entry.who entry.kind)) }
        ensures err { OnErr result (self.new ≡ self.old) }
    {
        let key = Key::of(entry.who);
        let mut unit = UnitRuns::new(alloc);
        let begins = unit.add(entry, time, contested)?;
        self.put(key, unit)?;
        Ok(begins)
    }

    /// Puts the runs of a unit that has none behind the others. Where memory is refused, nothing changes.
    fn put(&mut self, key: Key, unit: UnitRuns) -> Result<(), AllocError>
        requires { lookup (same_key key) self.old.runs ≡ None }
        ensures units { OnOk result (units_of self.new ≡ with_unit (who_of key) (units_of self.old)) }
        ensures runs { OnOk result ((q : AnyKey)
            → lookup (same_key q) self.new.runs ≡ cond (same_key key q) (Some unit) (lookup (same_key q) self.old.runs)) }
        ensures err { OnErr result (self.new ≡ self.old) }
    {
        self.order.reserve(1)?;
        self.units.insert(key, unit)?;
        self.order.push_reserved(key);
        Ok(())
    }
}
