ghost use Rattle.std.specs.Prelude.{◌≡◌, ◌∷◌, ℕ, List, reverse};
ghost use Rattle.bus_model.specs.Expected.{Reception};
ghost use Rattle.bus_model.specs.Heard.{StationSettings};
ghost use Rattle.bus_model.specs.Machine.{AreFit, Event, Run, World, start};
ghost use Rattle.bus_model.specs.Overheard.{entries_overheard};
ghost use Rattle.bus_model.specs.OverheardExpected.{AreSent, IsPathOfListener, expected_overheard};
ghost use Rattle.bus_model.specs.declared.who.Who.{Who};
ghost use Rattle.bus_model.specs.declared.who.Who.TheVariants.{Named};
ghost use Rattle.can_frame.specs.declared.reading.Reading.{Reading};
ghost use Rattle.dm_messages.specs.declared.kind.Kind.{Kind};
ghost use Rattle.listener.specs.PathTold.{TellsPath};
ghost use Rattle.listener.specs.ReadEntries.{lists_read, whole_among};
ghost use Rattle.listener.specs.SentEntries.{entry_sent, lists_overheard, with_entry_sent};

/// The lists that were overheard of a reading and those before it are those that were overheard before, with the entry that the
/// reading lists at the end of its own. So who keeps what the listener puts into its lists has what was overheard.
#[tactic(auto, using(crate::proofs::Entering::sent_lists_after))]
pub fn sent_lists_are_what_was_overheard()
    ensures { (x : Reading) (h : List Reading) (w : Who) (k : Kind)
        → with_entry_sent (entry_sent x h) (lists_overheard h) w k ≡ lists_overheard (x ∷ h) w k }
{}

/// What is kept of messages that were read whole is exactly what was overheard.
#[tactic(auto, using(crate::proofs::Entering::whole_lists_same))]
pub fn whole_entries_are_what_was_overheard()
    ensures { (h : List Reading) (w : Who) (k : Kind) → whole_among (lists_read h w k) ≡ lists_overheard h w k }
{}

/// The lists of a listener are exact. Take any run of units and stations on a bus, and readings that tell frames of it, from any one
/// on, with gaps for those that were missed: the list under each NAME and kind is that of the messages of its units which came on a
/// path clear to the listener, in the order begun, as the law `bus_model::a_listener_is_exact` says.
#[tactic(auto, using(crate::proofs::Exact::lists_exact))]
pub fn sent_lists_are_exact()
    ensures { (settings : List StationSettings) → AreFit settings → (events : List Event) (w : World) → Run (start settings) events w → (path : List Reception) → IsPathOfListener w.wire path → (h : List Reading) → TellsPath h path → (n : ℕ) (k : Kind)
        → lists_overheard h (Named n) k ≡ reverse (expected_overheard n k w.begun path) }
{}

/// And no entry of any list is of a message that nobody sent, be it under a NAME or under an address that nobody had claimed.
pub fn entries_of_sent_lists_were_sent()
    ensures { (settings : List StationSettings) → AreFit settings → (events : List Event) (w : World) → Run (start settings) events w → (path : List Reception) → IsPathOfListener w.wire path → (h : List Reading) → TellsPath h path → (who : Who) (k : Kind)
        → AreSent k w.begun (entries_overheard who k h) }
{}
