ghost use Rattle.std.specs.Prelude.{◌≡◌, ◌<◌, ◌≤◌, ℕ, List, length, reverse};
ghost use Rattle.can_frame.specs.declared.address.TheConstants.{GREATEST_ADDRESS};
ghost use Rattle.dm_messages.specs.declared.kind.Kind.{Kind};
ghost use Rattle.bus_model.specs.Expected.{expected};
ghost use Rattle.bus_model.specs.Heard.{entries_heard};
ghost use Rattle.bus_model.specs.Machine.{Event as Step, Run, Seat, start};
ghost use Rattle.station_table.specs.StandsFor.{StandsFor};
ghost use Rattle.bus_model.specs.Marks.{IsMarkedBy};
ghost use Rattle.journal.specs.Example.{ShowsEachKind, TakesOver};
ghost use Rattle.journal.specs.Fits.{Fits};
ghost use Rattle.journal.specs.Journal.{AllFit, GarageValue, injected_of, readings_at, state_after, state_of};
ghost use Rattle.journal.specs.Promises.{IsLawful, wire_of};
ghost use Rattle.journal.specs.State.{Settings, State, path_at, setting_at, table_at};
ghost use Rattle.journal.specs.Worlds.{station_of_at, stations_of, world_of};
ghost use Rattle.journal.specs.declared.event.Event.{Event};
ghost use Rattle.journal.specs.declared.event.Event.TheVariants.{Ordered};
ghost use Rattle.journal.specs.declared.order.Order.TheVariants.{Command};

/// A journal is a run of the law's machine.
///
/// If every event fits what came before, and no frame came from outside, the state that the journal leads to is a world that the
/// machine reaches.
pub fn journal_is_a_run()
    ensures { (settings : Settings) (journal : List Event) → AllFit settings journal → injected_of journal ≡ 0
        → (seats : List Seat) × (steps : List Step)
        × Run (start (stations_of settings)) steps (world_of settings (state_after settings journal) seats) }
{}

/// The tables of each station say what was heard of its readings in the journal.
///
/// It holds whoever sent the frames.
pub fn station_stands_for_its_readings()
    ensures { (settings : Settings) (journal : List Event) → AllFit settings journal → (y : ℕ) → y < length settings.stations
        → StandsFor (station_of_at settings y) (setting_at settings y).grant (table_at (state_after settings journal) y) (readings_at y journal) }
{}

/// The headline: each station lists exactly the entries that it should.
///
/// Of every journal without frames from outside, at each station, under each NAME and kind: what was heard of the station's
/// readings, which is what it lists, are the views of the fault memories with which units of that NAME began messages. These are
/// the messages to all or to that station, whose frames it read all on a clear path, in the order begun.
pub fn shown_is_expected()
    ensures { (settings : Settings) (journal : List Event) → AllFit settings journal → injected_of journal ≡ 0 → (y : ℕ) → y < length settings.stations → (n : ℕ) (k : Kind)
        → reverse (entries_heard (station_of_at settings y) n k (readings_at y journal)) ≡ reverse (expected (station_of_at settings y) n k (state_after settings journal).begun (path_at (state_after settings journal) y)) }
{}

/// No message that came to its end at a station is unreadable there.
///
/// It holds of messages of units, if no frame came from outside.
pub fn nothing_stays_unread()
    ensures { (settings : Settings) (journal : List Event) → AllFit settings journal → injected_of journal ≡ 0 → (y : ℕ)
        → y < length settings.stations → (table_at (state_after settings journal) y).unread ≡ 0 }
{}

/// The path of each station is the wire, as its readings mark it.
///
/// Of the frames that are not the station's own, in order:
/// - a frame marks the next one as received;
/// - a gap of n marks the next n as missed;
/// - later ones have no mark.
///
/// It holds of every garage into which no frame came from outside.
pub fn path_is_marked()
    ensures { (g : GarageValue) → IsLawful g → injected_of g.journal ≡ 0 → (y : ℕ) → y < length g.settings.stations
        → IsMarkedBy y (readings_at y g.journal) (wire_of (state_of g)) (path_at (state_of g) y) }
{}

/// A command that fits is to an address that can be held, 0 to 253.
pub fn commanded_addresses_can_be_held()
    ensures { (s : State) (y name address : ℕ) → Fits s (Ordered y (Command name address)) → address ≤ GREATEST_ADDRESS }
{}

/// Two concrete journals that fit, so the laws of journals speak of something.
///
/// Each has two stations, and no frame from outside:
/// - `each_kind`: a unit claims an address and begins a DM1. Asked for its DM2, it sends that in a session to the station that asked,
///   which is number 1; asked for its DM6, in a frame to all. Both stations are to show the DM1 and the DM6, and that one alone the DM2.
/// - `takeover`: a unit of NAME 4 takes the address of one of NAME 5, whose DM1 is on its way. The rest is withdrawn, and that unit has
///   no address. Both stations are to show nothing of its DM1, and then the DM1 that the other begins.
pub fn journal_is_not_empty()
    ensures each_kind { (g : GarageValue) × ShowsEachKind 1 g }
    ensures takeover { (g : GarageValue) × TakesOver 4 5 g }
{}
