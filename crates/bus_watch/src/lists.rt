ghost use Rattle.std.specs.Prelude.{◌≡◌, true, length, slice_get, slice_set, OnOk, OnErr};
ghost use Rattle.bus_model.specs.Heard.{counted};
ghost use Rattle.bus_watch.specs.Runs.{HasRuns, entries_in, none_listed, runs_under, time_after, units_in};
ghost use Rattle.bus_watch.specs.Contested.{no_contests};
ghost use Rattle.bus_watch.specs.Runs as runs;
ghost use Rattle.bus_watch.specs.Tellings.{is_told};

use crate::broken::BrokenMessage;
use crate::contests::Contests;
use crate::run::EntryRun;
use crate::run_table::RunTable;
use crate::selection::Selection;
use crate::shown_entry::UnitEntry;
use candump_line::Time;
use dm_messages::Kind;
use listener::{Overheard, SentEntry, SentLists, Who};
use std::alloc::{AllocError, Global};
use std::marker::Model;

/// The list of each unit and kind, kept as runs of equal entries.
///
/// It keeps what is shown. It knows beside an entry the time of the line that is read, and which addresses are contested.
#[derive(Drop)]
pub(crate) struct WatchLists {
    units: RunTable,
    began: bool,
    selection: Selection,
    newest: Option<Time>,
    contests: Contests,
    /// How many runs were begun; one of several codes counts as many.
    kept: u64,
}

/// Seen as the runs by unit, whether the newest entry began a run, what is shown, the time, which addresses are contested, and how many
/// runs there are.
impl Model for WatchLists {
    ghost use Rattle.bus_watch.specs.Runs.{ListsValue};

    ghost Value = { ListsValue };

    ghost view = { λ l. record { units = l.units; began = l.began; selection = l.selection; time = l.newest; contests = l.contests.table; kept = l.kept } };
}

impl WatchLists {
    /// No entries of any unit. Those that are selected will be kept.
    pub(crate) fn new(alloc: Global, selection: Selection) -> WatchLists
        ensures { result ≡ none_listed selection }
    {
        WatchLists {
            units: RunTable::new(alloc),
            began: false,
            selection,
            newest: None,
            contests: Contests::new(),
            kept: 0,
        }
    }

    /// How many units have entries.
    pub(crate) fn units(&self) -> usize
        ensures { result ≡ length self.now.units.order }
    {
        self.units.len()
    }

    /// The unit at this place, from 0, in the order of the units' first entries.
    pub(crate) fn unit_at(&self, place: usize) -> Option<Who>
        ensures { result ≡ slice_get (units_in self.now) place }
    {
        self.units.who_at(place)
    }

    /// The runs of a unit and kind, oldest first.
    pub(crate) fn runs(&self, who: Who, kind: Kind) -> &[EntryRun]
        ensures { result.now ≡ runs_under self.now who kind }
    {
        self.units.runs(who, kind)
    }

    /// How many entries a unit has of a kind, up to the greatest 64-bit number.
    pub(crate) fn entries(&self, who: Who, kind: Kind) -> u64
        ensures { result ≡ counted (length (entries_in self.now who kind)) }
    {
        self.units.entries(who, kind)
    }

    /// How many runs there are in all lists together. One of several codes counts as many.
    pub(crate) fn kept(&self) -> u64
        ensures { result ≡ self.now.kept }
    {
        self.kept
    }

    /// Whether the newest entry began a run.
    pub(crate) fn has_begun(&self) -> bool
        ensures { result ≡ self.now.began }
    {
        self.began
    }

    /// The time of the newest line that has one.
    pub(crate) fn now(&self) -> Option<Time>
        ensures { result ≡ self.now.time }
    {
        self.newest
    }

    /// Keeps the time of the line that is read, where it has one.
    pub(crate) fn pass(&mut self, time: Option<Time>)
        ensures { self.new ≡ record self.old { time = time_after time self.old.time } }
    {
        if time.is_some() {
            self.newest = time;
        }
    }

    /// Goes back to a time, since the line after it was not read.
    pub(crate) fn go_back(&mut self, time: Option<Time>)
        ensures { self.new ≡ record self.old { time = time } }
    {
        self.newest = time;
    }

    /// A claim of the address displaced another NAME.
    pub(crate) fn contest(&mut self, address: u8)
        ensures { self.new ≡ record self.old { contests = slice_set self.old.contests address self.old.time } }
    {
        self.contests.begin(address, self.newest);
    }

    /// Frames were missed.
    pub(crate) fn forget_contests(&mut self)
        ensures { self.new ≡ record self.old { contests = no_contests } }
    {
        self.contests.forget();
    }

    /// Goes on with the contests that other lists know.
    pub(crate) fn keep_contests(&mut self, other: &WatchLists)
        ensures { self.new ≡ record self.old { contests = other.now.contests } }
    {
        self.contests.go_on_with(&other.contests);
    }

    /// What is shown.
    pub(crate) fn selection(&self) -> Selection
        ensures { result ≡ self.now.selection }
    {
        self.selection
    }

    /// Whether it is told of what was heard now.
    pub(crate) fn tells(&self, heard: &Overheard) -> bool
        ensures { result ≡ is_told self.now.selection self.now.time heard.now }
    {
        self.selection.tells(heard, self.newest)
    }

    /// Whether it is told of a message that was broken now.
    pub(crate) fn tells_broken(&self, broken: &BrokenMessage) -> bool {
        self.selection.tells_broken(broken, self.newest)
    }

    /// Keeps an entry that is shown, and whether it begins a run. Where memory is refused, nothing changes.
    #[tactic(auto, using(crate::proofs::Shown::kept_in_runs))]
    fn keep(&mut self, alloc: Global, entry: SentEntry) -> Result<(), AllocError>
        requires { runs.is_shown self.old.selection self.old.time entry ≡ true }
        ensures ok { OnOk result (HasRuns self.old entry self.new) }
        ensures err { OnErr result (self.new ≡ self.old) }
    {
        let contested = self.contests.is_contested(entry.source, self.newest);
        let entry = UnitEntry::of(alloc, entry, &self.selection.methods)?;
        let codes = entry.what.codes();
        self.began = self.units.add(alloc, entry, self.newest, contested)?;
        self.kept = kept_after(self.began, codes, self.kept);
        Ok(())
    }

    /// Puts an entry, where it is shown. Where memory is refused, nothing changes.
    #[tactic(auto, using(crate::proofs::Shown::unshown))]
    fn put_shown(&mut self, alloc: Global, entry: SentEntry) -> Result<(), AllocError>
        ensures ok { OnOk result (HasRuns self.old entry self.new) }
        ensures err { OnErr result (self.new ≡ self.old) }
    {
        if !self.selection.shows(&entry, self.newest) {
            self.began = false;
            return Ok(());
        }
        self.keep(alloc, entry)
    }
}

/// How many runs there are, of so many, once an entry of so many codes has begun one or not.
fn kept_after(begun: bool, codes: usize, kept: u64) -> u64
    ensures { result ≡ runs.kept_after begun codes kept }
{
    if !begun {
        return kept;
    }
    let more = if codes == 0 { 1 } else { codes as u64 };
    kept.saturating_add(more)
}

impl SentLists for WatchLists {
    ghost use Rattle.bus_watch.specs.Runs.{HasRuns};

    ghost Takes = { λ before entry after. HasRuns before entry after };

    fn put(&mut self, alloc: Global, entry: SentEntry) -> Result<(), AllocError> {
        self.put_shown(alloc, entry)
    }
}
