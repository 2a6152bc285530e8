//! The law of the stations' lists and of a listener's: what they must be, and that they are, over every list of events.
#![tactic(auto)]

ghost use Rattle.std.specs.Prelude.{◌≡◌, ℕ, ◌+◌, List, [], length, slice_get, ◌∷◌, ◌++◌, ◌↔◌, Some, IsSome, true};
ghost use Rattle.dm_messages.specs.declared.kind.Kind.{Kind};
ghost use Rattle.dm_messages.specs.declared.shown.Shown.{Shown};
ghost use Rattle.bus_model.specs.Messages.{Message, IsAmong};
ghost use Rattle.bus_model.specs.Traffic.{Tag, Item, claimed_by};
ghost use Rattle.bus_model.specs.LawfulTraffic.{IsLawfulTraffic};
ghost use Rattle.can_frame.specs.declared.reading.Reading.{Reading};
ghost use Rattle.bus_model.specs.Heard.{StationSettings, Entry, AckHeard, ack_in_row, address_heard, address_known, counted, ended, entries_heard, is_unreadable, missed_count, names_heard, owner_heard, row_heard, unread_count};
ghost use Rattle.bus_model.specs.RowsLookBack.{AreNames, IsKnownAt, IsLastAnswer, WasNamed, gap_of, moments};
ghost use Rattle.std.specs.List.{count_by, sum_by};
ghost use Rattle.bus_model.specs.LookBack.{IsOwner, EndsMessage};
ghost use Rattle.bus_model.specs.Expected.{Reception, Received, expected, is_clear, is_for, readings};
ghost use Rattle.bus_model.specs.ClearPath.{IsOnClearPath, NoneMissed};
ghost use Rattle.bus_model.specs.Whole.{received_whole};
ghost use Rattle.bus_model.specs.Example.{one_station, two_at_one_address, two_stations, ContestsAddress, ShowsEachWay, ShowsAfterTakeover, ShowsAtSecondAlone};
ghost use Rattle.bus_model.specs.Machine.{World, Seat, Station, IsAt, Event, AreFit, IsFit, Step, Run, start};
ghost use Rattle.bus_model.specs.Marks.{IsMarkedBy};
ghost use Rattle.bus_model.specs.Whose.{IsFromItsSeat};
ghost use Rattle.bus_model.specs.Beside.{GoesOnWithNone, IsClaimedAlone, TakesPart, readings_beside};
ghost use Rattle.bus_model.specs.Overheard.{MessageSent, entries_overheard, gaps_heard, message_sent, row_overheard, shown_to, unread_overheard};
ghost use Rattle.bus_model.specs.OverheardChanged.{change_overheard};
ghost use Rattle.bus_model.specs.OverheardFollows.{AreSentWith, gaps_with, missed_with, names_with, row_with, unread_with};
ghost use Rattle.bus_model.specs.declared.who.Who.{Who as AnyWho};
ghost use Rattle.bus_model.specs.declared.who.Who.TheVariants.{Named};
ghost use Rattle.bus_model.specs.OverheardBack.{IsSentWhole};
ghost use Rattle.bus_model.specs.Changed.{AreListed, change_heard, is_listed, missed_changed, names_changed, row_changed, unread_changed};

mod change;
mod listener;
mod overheard;
mod who;

pub use change::{Change, Displaced};
pub use listener::{
    a_listener_is_exact, a_listener_that_missed_nothing_lists_all,
    clear_path_of_a_listener_looks_back, listeners_law_is_not_empty,
    what_a_listener_lists_was_sent,
};
pub use overheard::Overheard;
pub use who::Who;

/// The lists are exact: after every list of events, at each station, under each NAME and kind, the entries heard are the entries
/// expected.
pub fn lists_are_exact()
    ensures { (settings : List StationSettings) → AreFit settings → (events : List Event) (w : World) → Run (start settings) events w → (y : ℕ) (s : Station) → IsAt w y s → (n : ℕ) (k : Kind)
        → entries_heard s.settings n k (readings s.path) ≡ expected s.settings n k w.begun s.path }
{}

/// Who sends holds the address: before each frame of a message the last claim of its source bears the NAME of its seat.
pub fn who_sends_holds_the_address()
    ensures { (settings : List StationSettings) → AreFit settings → (events : List Event) (w : World)
        → Run (start settings) events w → (after before : List Item) (e : Item) (t : Tag) → w.wire ≡ after ++ e ∷ before
        → e.tag ≡ Some t → claimed_by t.message.source before ≡ Some e.name }
{}

/// Lawful traffic: each frame of a message is that part of it and comes from its seat, and parts stand in their order.
pub fn traffic_is_lawful()
    ensures { (settings : List StationSettings) → AreFit settings → (events : List Event) (w : World)
        → Run (start settings) events w → IsLawfulTraffic w.begun w.wire }
{}

/// Seats have numbers: stations from 0 on, units behind them in order of joining, and no number is given twice.
pub fn seats_are_numbered()
    ensures { (settings : List StationSettings) → AreFit settings → (events : List Event) (w : World)
        → Run (start settings) events w → (x : ℕ) (s : Seat) → slice_get w.seats x ≡ Some s → s.number ≡ length w.stations + x }
{}

/// Each frame on the wire comes from a station or from a seat that joined, and bears that seat's number and NAME.
pub fn frames_come_from_their_seats()
    ensures { (settings : List StationSettings) → AreFit settings → (events : List Event) (w : World)
        → Run (start settings) events w → (after before : List Item) (e : Item) → w.wire ≡ after ++ e ∷ before → IsFromItsSeat w e }
{}

/// The path of each station is the wire as its readings mark it: the frames that are not the station's own, in order, where a frame
/// marks the next one as received and a gap of n the next n as missed; later ones have no mark.
pub fn path_is_marked()
    ensures { (settings : List StationSettings) → AreFit settings → (events : List Event) (w : World)
        → Run (start settings) events w → (y : ℕ) (s : Station) → IsAt w y s → IsMarkedBy y (readings s.path) w.wire s.path }
{}

/// Nothing unreadable: each message of a unit that ends at a station can be read.
pub fn nothing_is_unreadable()
    ensures { (settings : List StationSettings) → AreFit settings → (events : List Event) (w : World)
        → Run (start settings) events w → (y : ℕ) (s : Station) → IsAt w y s → unread_count s.settings (readings s.path) ≡ 0 }
{}

/// A list only grows: at every step, at each station, each list of entries, newest first, keeps its entries and gets new ones in
/// front.
pub fn lists_only_grow()
    ensures { (old new : World) (event : Event) → Step old event new → (y : ℕ) (s t : Station) → IsAt old y s → IsAt new y t → (settings : StationSettings) (n : ℕ) (k : Kind)
        → (more : List Shown) × (entries_heard settings n k (readings t.path) ≡ more ++ entries_heard settings n k (readings s.path)) }
{}

/// Quiet addresses: where a station missed nothing, its entries are the views of all messages, to all or to it, whose last part
/// it received, in the order begun. That each address is claimed under one NAME only need not be said: a unit that loses
/// its address sends no further part, so such a message has no last part.
pub fn nothing_missed_shows_all()
    ensures { (settings : List StationSettings) → AreFit settings → (events : List Event) (w : World) → Run (start settings) events w → (y : ℕ) (s : Station) → IsAt w y s → NoneMissed s.path → (n : ℕ) (k : Kind)
        → entries_heard s.settings n k (readings s.path) ≡ received_whole s.settings n k w.begun s.path }
{}

/// Clear path: for the messages begun, the walk back along what a station received is the clear path said by looking back.
pub fn clear_path_looks_back()
    ensures { (settings : List StationSettings) → AreFit settings → (events : List Event) (w : World) → Run (start settings) events w → (y : ℕ) (s : Station) → IsAt w y s → (m : Message) → IsAmong m w.begun
        → (is_clear s.settings m s.path ≡ true) ↔ IsOnClearPath s.settings m s.path }
{}

/// Where there is one station, each message of which it receives the first frame goes to all, or to the address that it then holds.
/// So of such a station a clear path need not ask for that.
pub fn meant_for_the_only_station()
    ensures { (settings : StationSettings) → IsFit settings → (events : List Event) (w : World) → Run (start (settings ∷ [])) events w → (y : ℕ) (s : Station) → IsAt w y s → (after before : List Reception) (e : Item) (t : Tag)
        → s.path ≡ after ++ Received e ∷ before → e.tag ≡ Some t → t.part ≡ 0 → is_for (address_heard s.settings (readings before)) t.message ≡ true }
{}

/// Look-back form of an owner: over any list of readings it is the NAME in the address's last claim, with no gap since.
pub fn owner_looks_back()
    ensures { (a n : ℕ) (readings : List Reading) → (owner_heard a readings ≡ Some n) ↔ IsOwner a n readings }
{}

/// Look-back form of the messages that end, over any list of readings: in one frame, by broadcast and by session.
pub fn messages_look_back()
    ensures { (settings : StationSettings) → IsFit settings → (reading : Reading) (older : List Reading) (entry : Entry)
        → (ended settings reading older ≡ Some entry) ↔ EndsMessage settings reading older entry }
{}

/// Look-back form of the messages that a listener hears end, over any list of readings, between any two addresses: in one frame, by
/// broadcast and by session. One is there exactly where it was announced from its source to its destination, its packets came in
/// order, and nothing since the announcement ended it: no other announcement between the two, no abort by either, no claim of the
/// source under another NAME, no gap.
pub fn messages_overheard_look_back()
    ensures { (reading : Reading) (older : List Reading) (message : MessageSent)
        → (message_sent reading older ≡ Some message) ↔ IsSentWhole reading older message }
{}

/// Look-back form of a row, over any list of readings: there is one once a claim or cannot claim of the NAME was read; its
/// address is the one that the NAME claimed, where nothing took it since; its acknowledgment is the last to the station.
pub fn rows_look_back()
    ensures there { (settings : StationSettings) (n : ℕ) (readings : List Reading)
        → IsSome (row_heard settings n readings) ↔ WasNamed n readings }
    ensures address { (settings : StationSettings) (n a : ℕ) (readings : List Reading)
        → (address_known settings n readings ≡ Some a) ↔ IsKnownAt n a readings }
    ensures ack { (settings : StationSettings) (n : ℕ) (ack : AckHeard) (readings : List Reading)
        → (ack_in_row (row_heard settings n readings) ≡ Some ack) ↔ IsLastAnswer settings n ack readings }
{}

/// Look-back form of the NAMEs, over any list of readings: those of the claims and cannot claims read, in the order of their
/// first.
pub fn names_look_back()
    ensures { (readings : List Reading) → AreNames readings (names_heard readings) }
{}

/// Look-back form of the two counts, over any list of readings: all frames that gaps told of, and all readings at which a
/// message ended that cannot be read, each at most the greatest 64-bit number.
pub fn counts_look_back()
    ensures missed { (readings : List Reading) → missed_count readings ≡ counted (sum_by gap_of readings) }
    ensures unread { (settings : StationSettings) (readings : List Reading)
        → unread_count settings readings ≡ counted
        (count_by (λ (m : Reading × List Reading). is_unreadable (ended settings m.0 m.1)) (moments readings)) }
{}

/// What a reading changes is all that it does to what a station shows, over any list of readings: the rows, the NAMEs, the lists
/// and the counts follow from those before it and this one change. So who follows the changes knows all of them, and need not ask.
pub fn a_change_says_all()
    ensures row { (settings : StationSettings) (reading : Reading) (older : List Reading) (n : ℕ)
        → row_heard settings n (reading ∷ older) ≡ row_changed (change_heard settings reading older) n (row_heard settings n older) }
    ensures names { (settings : StationSettings) (reading : Reading) (older : List Reading)
        → names_heard (reading ∷ older) ≡ names_changed (change_heard settings reading older) (names_heard older) }
    ensures lists { (settings : StationSettings) (reading : Reading) (older : List Reading) (n : ℕ) (k : Kind)
        → AreListed (is_listed (change_heard settings reading older) n k) (entries_heard settings n k older) (entries_heard settings n k (reading ∷ older)) }
    ensures missed { (settings : StationSettings) (reading : Reading) (older : List Reading)
        → missed_count (reading ∷ older) ≡ missed_changed (change_heard settings reading older) (missed_count older) }
    ensures unread { (settings : StationSettings) (reading : Reading) (older : List Reading)
        → unread_count settings (reading ∷ older) ≡ unread_changed (change_heard settings reading older)
        (unread_count settings older) }
{}

/// What a reading changes is all that it does to what a listener shows, over any list of readings: the rows, the NAMEs, the lists
/// and the counts follow from those before it and this one change, and the one entry more of a list went where the change says.
pub fn what_was_overheard_says_all()
    ensures row { (reading : Reading) (older : List Reading) (n : ℕ)
        → row_overheard n (reading ∷ older) ≡ row_with (change_overheard reading older) n (row_overheard n older) }
    ensures names { (reading : Reading) (older : List Reading)
        → names_heard (reading ∷ older) ≡ names_with (change_overheard reading older) (names_heard older) }
    ensures lists { (reading : Reading) (older : List Reading) (who : AnyWho) (k : Kind)
        → AreSentWith (change_overheard reading older) who k (entries_overheard who k older) (entries_overheard who k (reading ∷ older)) }
    ensures missed { (reading : Reading) (older : List Reading)
        → missed_count (reading ∷ older) ≡ missed_with (change_overheard reading older) (missed_count older) }
    ensures gaps { (reading : Reading) (older : List Reading)
        → gaps_heard (reading ∷ older) ≡ gaps_with (change_overheard reading older) (gaps_heard older) }
    ensures unread { (reading : Reading) (older : List Reading)
        → unread_overheard (reading ∷ older) ≡ unread_with (change_overheard reading older) (unread_overheard older) }
{}

/// A listener beside a station: where a station takes part as the rules say, what it lists under each NAME and kind is what a
/// listener that misses what it misses lists there as sent to all or to it. The rules are those of `TakesPart`: the station sends
/// what a station may send, and aborts no session that it goes on with; nobody else claims its address or sends messages from
/// there; who asks it to send another group than a diagnostic one has no session with it open; and an abort to it names the group
/// of the session that is open.
pub fn a_listener_lists_what_a_station_lists()
    ensures { (settings : StationSettings) → IsFit settings → (path : List Reception) → TakesPart settings path → (n : ℕ) (k : Kind)
        → entries_heard settings n k (readings path) ≡ shown_to settings.address (entries_overheard (Named n) k (readings_beside path)) }
{}

/// In a run with one station, whose address nobody else claims, the station takes part as the rules say, where it goes on with no
/// session that it aborts; so there it lists under each NAME and kind what a listener beside it lists as sent to all or to it. That
/// units send from their own addresses, ask it for no session of another group, and abort none to it, follows from what units may
/// do.
pub fn the_only_station_takes_part()
    ensures takes_part { (settings : StationSettings) → IsFit settings → (events : List Event) (w : World) → Run (start (settings ∷ [])) events w → (y : ℕ) (s : Station) → IsAt w y s
        → IsClaimedAlone settings.name settings.address w.wire → GoesOnWithNone settings s.path → TakesPart settings s.path }
    ensures lists { (settings : StationSettings) → IsFit settings → (events : List Event) (w : World) → Run (start (settings ∷ [])) events w → (y : ℕ) (s : Station) → IsAt w y s
        → IsClaimedAlone settings.name settings.address w.wire → GoesOnWithNone settings s.path → (n : ℕ) (k : Kind)
        → entries_heard settings n k (readings s.path) ≡ shown_to settings.address (entries_overheard (Named n) k (readings_beside s.path)) }
{}

/// The machine is not empty: one run shows an entry by a single frame, one by a broadcast of two packets and one by a
/// session; another shows none for a message with a gap inside, and one after a takeover of the address. In a third, with two
/// stations, a session that the second asked for is shown there, and not at the first. In a fourth two stations contest an address,
/// and the one of the lower NAME keeps it.
pub fn machine_is_not_empty()
    ensures each_way { (events : List Event) × (w : World) × Run (start one_station) events w × ShowsEachWay w }
    ensures after_takeover { (events : List Event) × (w : World) × Run (start one_station) events w × ShowsAfterTakeover w }
    ensures at_second_alone { (events : List Event) × (w : World) × Run (start two_stations) events w × ShowsAtSecondAlone w }
    ensures contested { (events : List Event) × (w : World) × Run (start two_at_one_address) events w × ContestsAddress w }
{}
