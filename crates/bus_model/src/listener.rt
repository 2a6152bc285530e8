ghost use Rattle.std.specs.Prelude.{◌≡◌, ◌↔◌, ℕ, List, [], true};
ghost use Rattle.dm_messages.specs.declared.kind.Kind.{Kind};
ghost use Rattle.bus_model.specs.ClearPath.{NoneMissed};
ghost use Rattle.bus_model.specs.Example.{one_station};
ghost use Rattle.bus_model.specs.Expected.{Reception, readings};
ghost use Rattle.bus_model.specs.Heard.{StationSettings};
ghost use Rattle.bus_model.specs.Machine.{AreFit, Event, Run, World, start};
ghost use Rattle.bus_model.specs.Messages.{Message, IsAmong};
ghost use Rattle.bus_model.specs.Overheard.{entries_overheard};
ghost use Rattle.bus_model.specs.OverheardClearPath.{IsOnListenersClearPath};
ghost use Rattle.bus_model.specs.OverheardExample.{IsNotOverheard, IsOverheardEachWay};
ghost use Rattle.bus_model.specs.OverheardExpected.{AreSent, IsPathOfListener, expected_overheard, is_overheard};
ghost use Rattle.bus_model.specs.OverheardWhole.{overheard_whole};
ghost use Rattle.bus_model.specs.declared.who.Who.{Who as AnyWho};
ghost use Rattle.bus_model.specs.declared.who.Who.TheVariants.{Named};

/// A listener's lists are exact: after every list of events, one who begins to read at any frame, misses what it misses and sends
/// nothing lists under each NAME and kind the messages that it should. These are the messages of that NAME's units, to all, to a
/// station or to another unit, all of whose frames it read on a path clear to it, in the order begun. Each entry is the view of the
/// memory with which its message began, and where that went.
///
/// On a path clear to it, it read each frame of the message and, before them, the last claim of its source, and missed nothing from that
/// claim to the last frame; and the receiver of a session did not abort it.
#[tactic(auto, using(crate::proofs::OverheardLaw::listener_exact))]
pub fn a_listener_is_exact()
    ensures { (settings : List StationSettings) → AreFit settings → (events : List Event) (w : World) → Run (start settings) events w → (path : List Reception) → IsPathOfListener w.wire path → (n : ℕ) (k : Kind)
        → entries_overheard (Named n) k (readings path) ≡ expected_overheard n k w.begun path }
{}

/// No code that nobody sent: each entry of a listener, be it under a NAME or under an address that nobody had claimed, is that of a
/// message of its kind that a unit began: the view of the memory with which it began, and where it went.
#[tactic(auto, using(crate::proofs::OverheardLaw::listener_sent))]
pub fn what_a_listener_lists_was_sent()
    ensures { (settings : List StationSettings) → AreFit settings → (events : List Event) (w : World) → Run (start settings) events w → (path : List Reception) → IsPathOfListener w.wire path → (who : AnyWho) (k : Kind)
        → AreSent k w.begun (entries_overheard who k (readings path)) }
{}

/// Where a listener read each frame from the first one on, it lists all messages whose last part it read, in the order begun, but for the
/// sessions that their receivers aborted: no claim need be asked for.
pub fn a_listener_that_missed_nothing_lists_all()
    ensures { (settings : List StationSettings) → AreFit settings → (events : List Event) (w : World) → Run (start settings) events w → (path : List Reception) → (listens : IsPathOfListener w.wire path) → listens.before ≡ [] → NoneMissed path → (n : ℕ) (k : Kind)
        → entries_overheard (Named n) k (readings path) ≡ overheard_whole n k w.begun path }
{}

/// A path clear to a listener: for the messages begun, the walk back along what it read is that path said by looking back.
#[tactic(auto, using(crate::proofs::OverheardClear::overheard_to_clear, crate::proofs::OverheardClear::clear_to_overheard))]
pub fn clear_path_of_a_listener_looks_back()
    ensures { (settings : List StationSettings) → AreFit settings → (events : List Event) (w : World) → Run (start settings) events w → (path : List Reception) → IsPathOfListener w.wire path → (m : Message) → IsAmong m w.begun
        → (is_overheard m path ≡ true) ↔ IsOnListenersClearPath m path }
{}

/// The listener's law speaks of something. In one run a listener lists an entry by a single frame, one by a broadcast of two packets and
/// one by a session: under the NAME where it read its claim, and under the address that nobody had claimed where it began after that.
/// In another a station lists a session that it had aborted, since the unit went on, and a listener that missed nothing does not: so
/// a path clear to a listener asks for more than a station's.
pub fn listeners_law_is_not_empty()
    ensures each_way { (events : List Event) × (w : World) × Run (start one_station) events w × IsOverheardEachWay w }
    ensures aborted { (events : List Event) × (w : World) × Run (start one_station) events w × IsNotOverheard w }
{}
