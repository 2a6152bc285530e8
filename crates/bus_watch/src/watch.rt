ghost use Rattle.std.specs.Prelude.{◌≡◌, ◌≤◌, [], List, length, slice_get, IfOk, option_map};
ghost use Rattle.bus_model.specs.Heard.{counted, missed_count, names_heard};
ghost use Rattle.bus_model.specs.Overheard.{row_overheard, unread_overheard};
ghost use Rattle.bus_watch.specs.Contested.{no_contests};
ghost use Rattle.bus_watch.specs.Runs.{entries_came, kept_heard, lists_shown, newest_time, none_listed, runs_by, units_shown, unrolled};
ghost use Rattle.bus_watch.specs.Tellings.{none_told};
ghost use Rattle.bus_watch.specs.WatchValue.{announcements_in};
ghost use Rattle.bus_watch.specs.Told.{Beginning, StandsForAll, Told, all_said, readings_said};
ghost use Rattle.bus_watch.specs.Identified.{none_identified};
ghost use Rattle.entry_lists.specs.KnownRows.{row_heard_as};
ghost use Rattle.listener.specs.ListenerSteps.{new_listener};
ghost use Rattle.listener.specs.ListenerValue.{HasOverheard, gaps_alone};
ghost use Rattle.reassembly.specs.Pairs.{no_pairs};

use self::over::Before;
use crate::broken::{Broken, BrokenMessage};
use crate::counts::WatchCounts;
use crate::identified::Identified;
use crate::lists::WatchLists;
use crate::pairs::Pairs;
use crate::run::EntryRun;
use crate::selection::Selection;
use crate::unowned::Unowned;
use candump_line::Time;
use dm_messages::Kind;
use entry_lists::Row;
use listener::{PacedListener, Silence, Who};
use name_field::Name;
use std::alloc::{AllocError, Global};
use std::marker::Model;

mod changes;
mod identified;
mod over;
mod parts;
mod readings;

/// How a bus is watched.
#[derive(Clone, Copy)]
pub struct WatchSettings {
    /// Which messages are shown.
    pub selection: Selection,
    /// Whether a bad line is passed over; else it is a frame that was missed.
    pub skips_bad: bool,
    /// How long a message under way may be silent.
    pub silence: Silence,
}

/// A listener that reads the lines of a log or of a live bus. What it lists is kept as runs of equal entries.
#[derive(Drop)]
pub struct Watch {
    settings: WatchSettings,
    ear: PacedListener,
    bus: Option<String>,
    unowned: Unowned,
    lists: WatchLists,
    counts: WatchCounts,
    pairs: Pairs,
    broken: Broken,
    before: Before,
    identified: Identified,
}

/// Seen as its listener, the lists that it fills, what it knows of the bus that it follows, what it told once, what it counts, and the identifications.
impl Model for Watch {
    ghost use Rattle.std.specs.Prelude.{option_map, string_bytes};
    ghost use Rattle.bus_watch.specs.WatchValue.{WatchValue};

    ghost Value = { WatchValue };

    ghost view = { λ w. record {
      listener = w.ear.listener;
      lists = w.lists;
      followed = record {
        skips_bad = w.settings.skips_bad;
        silence = w.ear.silence;
        bus = option_map string_bytes w.bus;
        packets = w.ear.paces;
      };
      told = w.unowned;
      before = record { missed = w.before.missed; unread = w.before.unread };
      partly = w.counts.partly;
      broken = w.broken.messages.count;
      pairs = w.pairs.count;
      identified = w.identified;
    } };
}

impl Watch {
    /// A watch that has read nothing, of the bus of this name, or of the first that a line names.
    pub fn new(
        alloc: Global,
        settings: WatchSettings,
        bus: Option<&str>,
    ) -> Result<Watch, AllocError>
        ensures { IfOk result (λ w. StandsForAll (record {
          selection = settings.selection;
          skips_bad = settings.skips_bad;
          silence = settings.silence;
          bus = option_map (λ name. name.now) bus.entry;
          contests = no_contests;
          gaps = 0;
          before = record { missed = 0; unread = 0 };
          partly = 0;
        }) [] w) }
    {
        Watch::open(alloc, settings, bus)
    }

    /// The same, which has read no identification either.
    #[tactic(auto, using(crate::proofs::Steps::opened))]
    pub(crate) fn open(
        alloc: Global,
        settings: WatchSettings,
        bus: Option<&str>,
    ) -> Result<Watch, AllocError>
        ensures stands { IfOk result (λ w. StandsForAll (record {
          selection = settings.selection;
          skips_bad = settings.skips_bad;
          silence = settings.silence;
          bus = option_map (λ name. name.now) bus.entry;
          contests = no_contests;
          gaps = 0;
          before = record { missed = 0; unread = 0 };
          partly = 0;
        }) [] w) }
        ensures identified { IfOk result (λ w. w.identified ≡ none_identified) }
    {
        Watch::after_gaps(alloc, settings, bus, 0)
    }

    /// A watch that has read so many gaps, and nothing else.
    fn after_gaps(
        alloc: Global,
        settings: WatchSettings,
        bus: Option<&str>,
        gaps: u64,
    ) -> Result<Watch, AllocError>
        ensures value { IfOk result (λ w. w ≡ record {
          listener = record new_listener { gaps = gaps };
          lists = none_listed settings.selection;
          followed = record { skips_bad = settings.skips_bad; silence = settings.silence; bus = option_map (λ name. name.now) bus.entry; packets = no_pairs };
          told = none_told;
          before = record { missed = 0; unread = 0 };
          partly = 0;
          broken = 0;
          pairs = 0;
          identified = none_identified;
        }) }
        ensures heard { IfOk result (λ w. HasOverheard w.listener (gaps_alone gaps)) }
    {
        let bus = match bus {
            Some(bus) => Some(String::from_str(alloc, bus)?),
            None => None,
        };
        let pairs = Pairs::new(alloc)?;
        let ear = PacedListener::after_gaps(alloc, settings.silence, gaps)?;
        let identified = Identified::new(alloc)?;
        Ok(Watch {
            settings,
            ear,
            bus,
            unowned: Unowned::new(),
            lists: WatchLists::new(alloc, settings.selection),
            counts: WatchCounts::default(),
            pairs,
            broken: Broken::new(alloc, 0),
            before: Before::default(),
            identified,
        })
    }

    /// How many lines there were of each sort.
    pub fn counts(&self) -> WatchCounts {
        self.counts
    }

    /// What is shown.
    pub fn selection(&self) -> Selection
        ensures { result ≡ self.entry.now.lists.selection }
    {
        self.lists.selection()
    }

    /// The time of the newest line that has one.
    #[tactic(auto, using(crate::proofs::Queries::time_as_heard))]
    pub fn now(&self) -> Option<Time>
        ensures heard { (b : Beginning) (ts : List Told) → StandsForAll b ts self.entry.now
            → result ≡ newest_time (all_said b ts).moments }
    {
        self.lists.now()
    }

    /// How many NAMEs have a row.
    #[tactic(auto, using(crate::proofs::Queries::names_as_heard))]
    pub fn names(&self) -> usize
        ensures value { result ≡ length self.now.listener.rows }
        ensures heard { (b : Beginning) (ts : List Told) → StandsForAll b ts self.entry.now
            → result ≡ length (names_heard (readings_said b ts)) }
    {
        self.ear.listener().names()
    }

    /// The NAME of the row at this place, from 0, in the order of the NAMEs' first claims.
    #[tactic(auto, using(crate::proofs::Queries::name_as_heard))]
    pub fn name_at(&self, place: usize) -> Option<Name>
        ensures heard { (b : Beginning) (ts : List Told) → StandsForAll b ts self.entry.now
            → result ≡ slice_get (names_heard (readings_said b ts)) place }
    {
        self.ear.listener().name_at(place)
    }

    /// What is known of a NAME; none before its first claim.
    #[tactic(auto, using(crate::proofs::Queries::row_as_heard))]
    pub fn row(&self, name: Name) -> Option<Row>
        ensures heard { (b : Beginning) (ts : List Told) → StandsForAll b ts self.entry.now
            → option_map row_heard_as result ≡ row_overheard name (readings_said b ts) }
    {
        self.ear.listener().row(name)
    }

    /// How many units have entries that are shown: NAMEs, and addresses that nobody has claimed.
    #[tactic(auto, using(crate::proofs::Queries::units_as_heard))]
    pub fn units(&self) -> usize
        ensures value { result ≡ length self.now.lists.units.order }
        ensures heard { (b : Beginning) (ts : List Told) → StandsForAll b ts self.entry.now
            → result ≡ length (units_shown b.selection (all_said b ts).moments) }
    {
        self.lists.units()
    }

    /// The unit at this place, from 0, in the order of the first entries that are shown.
    ///
    /// An address that nobody has claimed is a unit of its own between two gaps, and no more of it from a claim of it on.
    #[tactic(auto, using(crate::proofs::Queries::unit_as_heard))]
    pub fn unit_at(&self, place: usize) -> Option<Who>
        ensures heard { (b : Beginning) (ts : List Told) → StandsForAll b ts self.entry.now
            → result ≡ slice_get (units_shown b.selection (all_said b ts).moments) place }
    {
        self.lists.unit_at(place)
    }

    /// The entries of a unit and kind as runs of equal ones, oldest first.
    ///
    /// One after the other, their entries are the list that was heard, of what is shown. An entry goes on with the newest run where it
    /// shows the same, went to the same address, and is contested or not as that is. A run has the times of its first and its last one.
    #[tactic(auto, using(crate::proofs::Queries::runs_as_heard, crate::proofs::Queries::runs_as_came))]
    pub fn runs(&self, who: Who, kind: Kind) -> &[EntryRun]
        ensures heard { (b : Beginning) (ts : List Told) → StandsForAll b ts self.entry.now
            → unrolled result.now ≡ lists_shown b.selection (all_said b ts).moments who kind }
        ensures runs { (b : Beginning) (ts : List Told) → StandsForAll b ts self.entry.now
            → result.now ≡ runs_by (entries_came b.selection b.contests (all_said b ts).moments who kind) }
    {
        self.lists.runs(who, kind)
    }

    /// How many runs there are in all lists together, up to the greatest 64-bit number. One of several codes counts as many.
    #[tactic(auto, using(crate::proofs::Queries::kept_as_heard))]
    pub fn kept(&self) -> u64
        ensures value { result ≡ self.now.lists.kept }
        ensures heard { (b : Beginning) (ts : List Told) → StandsForAll b ts self.entry.now
            → result ≡ kept_heard b.selection b.contests (all_said b ts).moments }
    {
        self.lists.kept()
    }

    /// Between how many pairs of addresses messages of several packets were announced.
    #[tactic(auto, using(crate::proofs::Queries::pairs_as_heard))]
    pub fn pairs(&self) -> usize
        ensures value { result ≡ self.now.pairs }
        ensures most { (b : Beginning) (ts : List Told) → StandsForAll b ts self.entry.now
            → result ≤ announcements_in (readings_said b ts) }
    {
        self.pairs.count()
    }

    /// How many entries a unit has of a kind, up to the greatest 64-bit number.
    #[tactic(auto, using(crate::proofs::Queries::entries_as_heard))]
    pub fn entries(&self, who: Who, kind: Kind) -> u64
        ensures heard { (b : Beginning) (ts : List Told) → StandsForAll b ts self.entry.now
            → result ≡ counted (length (lists_shown b.selection (all_said b ts).moments who kind)) }
    {
        self.lists.entries(who, kind)
    }

    /// How many frames were missed, up to the greatest 64-bit number.
    #[tactic(auto, using(crate::proofs::Queries::missed_as_heard))]
    pub fn missed(&self) -> u64
        ensures value { result ≡ self.now.listener.missed }
        ensures heard { (b : Beginning) (ts : List Told) → StandsForAll b ts self.entry.now
            → result ≡ missed_count (readings_said b ts) }
    {
        self.ear.listener().missed()
    }

    /// How many messages could not be read whole, up to the greatest 64-bit number.
    #[tactic(auto, using(crate::proofs::Queries::unread_as_heard))]
    pub fn unread(&self) -> u64
        ensures value { result ≡ self.now.listener.unread }
        ensures heard { (b : Beginning) (ts : List Told) → StandsForAll b ts self.entry.now
            → result ≡ unread_overheard (readings_said b ts) }
    {
        self.ear.listener().unread()
    }

    /// The messages that the newest line broke and of which it is told: half joined before, and neither half joined nor whole after.
    pub fn broken(&self) -> &[BrokenMessage] {
        self.broken.newest()
    }

    /// How many messages were broken, also before it started over, up to the greatest 64-bit number.
    pub fn broken_in_all(&self) -> u64
        ensures { result ≡ self.entry.now.broken }
    {
        self.broken.count()
    }
}
