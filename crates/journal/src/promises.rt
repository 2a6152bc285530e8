ghost use Rattle.std.specs.Prelude.{◌≡◌, ◌<◌, ◌++◌, ◌∷◌, ℕ, List, [], Some, ◌↔◌, true, length, reverse};
ghost use Rattle.dm_messages.specs.declared.kind.Kind.{Kind};
ghost use Rattle.bus_model.specs.ClearPath.{IsOnClearPath, NoneMissed};
ghost use Rattle.bus_model.specs.Expected.{Reception, Received, is_clear, is_for, readings};
ghost use Rattle.bus_model.specs.Heard.{address_heard};
ghost use Rattle.bus_model.specs.Traffic.{Item, Tag};
ghost use Rattle.bus_model.specs.LawfulTraffic.{IsLawfulTraffic};
ghost use Rattle.bus_model.specs.Messages.{Message, IsAmong};
ghost use Rattle.bus_model.specs.Whole.{received_whole};
ghost use Rattle.journal.specs.Journal.{GarageValue, Adds, injected_of, shown_at, state_of};
ghost use Rattle.journal.specs.State.{StationSetting, path_at};
ghost use Rattle.journal.specs.Worlds.{station_of, station_of_at};
ghost use Rattle.journal.specs.declared.event.Event.{Event};
ghost use Rattle.journal.specs.Promises.{IsFromOwner, IsLawful, KeepsLists, wire_of};

/// Lawful traffic: each frame of a message is that part of it, from its seat.
///
/// Parts stand in their order. It holds in every garage into which no frame came from outside.
pub fn traffic_is_lawful()
    ensures { (g : GarageValue) → IsLawful g → injected_of g.journal ≡ 0 → IsLawfulTraffic (state_of g).begun (wire_of (state_of g)) }
{}

/// Who sends holds the address.
///
/// Before each frame of a message the last claim of its source bears the NAME of its seat.
pub fn who_sends_holds_the_address()
    ensures { (g : GarageValue) → IsLawful g → injected_of g.journal ≡ 0 → (i : ℕ) → IsFromOwner (state_of g) i }
{}

/// Quiet addresses: a station that missed nothing is to show all that ended at it.
///
/// The entries that it is to show are the views of all messages, to all or to it, whose last part it read, in the order begun. So
/// it is in particular if each address is claimed under one NAME only.
pub fn nothing_missed_shows_all()
    ensures { (g : GarageValue) → IsLawful g → injected_of g.journal ≡ 0 → (y : ℕ) → y < length g.settings.stations → NoneMissed (path_at (state_of g) y) → (n : ℕ) (k : Kind)
        → shown_at g y n k ≡ reverse (received_whole (station_of_at g.settings y) n k (state_of g).begun (path_at (state_of g) y)) }
{}

/// Clear path: walking back and looking back say the same of messages begun.
///
/// The walk goes back along what a station read.
pub fn clear_path_looks_back()
    ensures { (g : GarageValue) → IsLawful g → injected_of g.journal ≡ 0 → (y : ℕ) → y < length g.settings.stations → (m : Message) → IsAmong m (state_of g).begun
        → (is_clear (station_of_at g.settings y) m (path_at (state_of g) y) ≡ true) ↔ IsOnClearPath (station_of_at g.settings y) m (path_at (state_of g) y) }
{}

/// Where there is one station, each message of which it reads the first frame goes to all, or to the address that it then holds.
///
/// So what is promised of such a garage need not ask for that.
pub fn meant_for_the_only_station()
    ensures { (g : GarageValue) → IsLawful g → injected_of g.journal ≡ 0 → (station : StationSetting) → g.settings.stations ≡ station ∷ [] → (after before : List Reception) (e : Item) (t : Tag)
        → path_at (state_of g) 0 ≡ after ++ Received e ∷ before → e.tag ≡ Some t → t.part ≡ 0 → is_for (address_heard (station_of g.settings) (readings before)) t.message ≡ true }
{}

/// A list only grows: each list of each station keeps its entries.
///
/// New ones come behind them, whatever happens next, frames from outside too.
pub fn lists_only_grow()
    ensures { (old new : GarageValue) (e : Event) → Adds old e new → KeepsLists old new }
{}
