ghost use Rattle.std.specs.Prelude.{◌≡◌, ◌∷◌, [], ◌++◌, length, IfOk, OnOk, OnErr};
ghost use Rattle.bus_watch.specs.Runs.{has_begun, unrolled, with_came};
ghost use Rattle.bus_model.specs.Heard.{counted};

use crate::run::{EntryRun, add_to};
use crate::shown_entry::ShownEntry;
use candump_line::Time;
use std::alloc::{AllocError, Global};
use std::marker::Model;

/// The runs of a list of entries, oldest first, and how many entries they are.
#[derive(Drop)]
pub(crate) struct RunList {
    runs: Vec<EntryRun>,
    entries: u64,
}

impl Model for RunList {
    ghost use Rattle.std.specs.Prelude.{◌≡◌, List, length};
    ghost use Rattle.bus_watch.specs.declared.run.EntryRun.{EntryRun};
    ghost use Rattle.bus_watch.specs.Runs.{has_begun, unrolled};
    ghost use Rattle.bus_model.specs.Heard.{counted};

    ghost Value = { List EntryRun };

    ghost view = { λ l. l.runs.items };

    ghost invariant = { λ l. l.entries ≡ counted (length (unrolled l.runs.items)) };
}

impl RunList {
    /// No runs.
    pub(crate) fn new(alloc: Global) -> RunList
        ensures { result ≡ [] }
    {
        RunList {
            runs: Vec::new(alloc),
            entries: 0,
        }
    }

    /// The runs.
    pub(crate) fn runs(&self) -> &[EntryRun]
        ensures { result.now ≡ self.now }
    {
        self.runs.as_slice()
    }

    /// How many entries they are, up to the greatest 64-bit number.
    pub(crate) fn entries(&self) -> u64
        ensures { result ≡ counted (length (unrolled self.now)) }
    {
        self.entries
    }

    /// Adds an entry. Tells whether it begins a run. Where memory is refused, nothing changes.
    #[tactic(auto, using(crate::proofs::Runs::counted_more))]
    pub(crate) fn add(
        &mut self,
        what: ShownEntry,
        time: Option<Time>,
        contested: bool,
    ) -> Result<bool, AllocError>
        ensures ok { OnOk result (unrolled self.new ≡ unrolled self.old ++ what ∷ []) }
        ensures came { OnOk result (self.new ≡ with_came self.old (record { what = what; time = time; contested = contested })) }
        ensures begins { IfOk result (λ b. b ≡ has_begun self.old self.new) }
        ensures err { OnErr result (self.new ≡ self.old) }
    {
        let begins = add_to(&mut self.runs, what, time, contested)?;
        self.entries = self.entries.saturating_add(1);
        Ok(begins)
    }
}
