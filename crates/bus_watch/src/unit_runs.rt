ghost use Rattle.std.specs.Prelude.{◌≡◌, ◌∷◌, [], ◌++◌, length, if◌then◌else◌, IfOk, OnOk, OnErr};
ghost use Rattle.bus_model.specs.Heard.{counted};
ghost use Rattle.bus_watch.specs.Runs.{has_begun, no_runs, runs_of, unrolled, with_came};
ghost use Rattle.dm_messages.specs.View.{same_kind};
ghost use Rattle.dm_messages.specs.declared.kind.Kind.{Kind as AnyKind};

use crate::run::EntryRun;
use crate::run_list::RunList;
use crate::shown_entry::UnitEntry;
use candump_line::Time;
use dm_messages::Kind;
use std::alloc::{AllocError, Global};
use std::marker::Model;

/// The runs of a unit's entries, of each kind.
#[derive(Drop)]
pub(crate) struct UnitRuns {
    dm1: RunList,
    dm2: RunList,
    dm6: RunList,
}

impl Model for UnitRuns {
    ghost use Rattle.bus_watch.specs.Runs.{UnitValue};

    ghost Value = { UnitValue };

    ghost view = { λ u. record { dm1 = u.dm1; dm2 = u.dm2; dm6 = u.dm6 } };
}

impl UnitRuns {
    /// No runs of any kind.
    pub(crate) fn new(alloc: Global) -> UnitRuns
        ensures { result ≡ no_runs }
    {
        UnitRuns {
            dm1: RunList::new(alloc),
            dm2: RunList::new(alloc),
            dm6: RunList::new(alloc),
        }
    }

    /// The runs of a kind, oldest first.
    pub(crate) fn runs(&self, kind: Kind) -> &[EntryRun]
        ensures { result.now ≡ runs_of self.now kind }
    {
        match kind {
            Kind::Dm1 => self.dm1.runs(),
            Kind::Dm2 => self.dm2.runs(),
            Kind::Dm6 => self.dm6.runs(),
        }
    }

    /// How many entries of a kind there are, up to the greatest 64-bit number.
    pub(crate) fn entries(&self, kind: Kind) -> u64
        ensures { result ≡ counted (length (unrolled (runs_of self.now kind))) }
    {
        match kind {
            Kind::Dm1 => self.dm1.entries(),
            Kind::Dm2 => self.dm2.entries(),
            Kind::Dm6 => self.dm6.entries(),
        }
    }

    /// Adds an entry to the list of its kind. Tells whether it begins a run. Where memory is refused, nothing changes.
    pub(crate) fn add(
        &mut self,
        entry: UnitEntry,
        time: Option<Time>,
        contested: bool,
    ) -> Result<bool, AllocError>
        ensures entries { OnOk result ((k : AnyKind) → unrolled (runs_of self.new k)
            ≡ (if same_kind entry.kind k then unrolled (runs_of self.old k) ++ entry.what ∷ [] else unrolled (runs_of self.old k))) }
        ensures came { OnOk result ((k : AnyKind) → runs_of self.new k
            ≡ (if same_kind entry.kind k then with_came (runs_of self.old k) (record { what = entry.what; time = time; contested = contested }) else runs_of self.old k)) }
        ensures begins { IfOk result (λ b. b ≡ has_begun (runs_of self.old entry.kind) (runs_of self.new entry.kind)) }
        ensures err { OnErr result (self.new ≡ self.old) }
    {
        let UnitEntry { kind, what, .. } = entry;
        match kind {
            Kind::Dm1 => self.dm1.add(what, time, contested),
            Kind::Dm2 => self.dm2.add(what, time, contested),
            Kind::Dm6 => self.dm6.add(what, time, contested),
        }
    }
}
