ghost use Rattle.std.specs.Prelude.{◌≡◌, ℕ, List, reverse};
ghost use Rattle.bus_model.specs.Expected.{Reception};
ghost use Rattle.bus_model.specs.Heard.{StationSettings};
ghost use Rattle.bus_model.specs.Machine.{AreFit, Event, Run, World, start};
ghost use Rattle.bus_model.specs.OverheardExpected.{IsPathOfListener, expected_overheard};
ghost use Rattle.bus_model.specs.declared.who.Who.{Who};
ghost use Rattle.bus_model.specs.declared.who.Who.TheVariants.{Named};
ghost use Rattle.bus_watch.specs.AsOverheard.{AsksForAll, entries_shown, overheard_shown};
ghost use Rattle.bus_watch.specs.Methods.{read_whole};
ghost use Rattle.bus_watch.specs.Runs.{Moment, lists_shown, readings_in};
ghost use Rattle.bus_watch.specs.declared.selection.Selection.{Selection};
ghost use Rattle.dm_messages.specs.declared.kind.Kind.{Kind};
ghost use Rattle.listener.specs.PathTold.{TellsPath};

/// Where neither a unit nor a time is asked for, each list that is shown is, of what was read whole, what was overheard, of what goes
/// to the address that is shown.
#[tactic(auto, using(crate::proofs::AsOverheard::shown_as_overheard))]
pub fn shown_lists_are_what_was_overheard()
    ensures { (s : Selection) → AsksForAll s → (h : List Moment) (w : Who) (k : Kind)
        → read_whole (lists_shown s h w k) ≡ overheard_shown s h w k }
{}

/// The lists that are shown are exact, where neither a unit nor a time is asked for. Take any run of units and stations on a bus, and
/// readings that tell frames of it, from any one on, with gaps for those that were missed: each list that is shown under a NAME is, of
/// what was read whole, that
/// of the messages of its units which came on a path clear to the watch, as the law `listener::sent_lists_are_exact` says, of what goes
/// to the address that is shown.
#[tactic(auto, using(crate::proofs::AsExpected::shown_exact))]
pub fn shown_lists_are_exact()
    ensures { (settings : List StationSettings) → AreFit settings → (events : List Event) (w : World) → Run (start settings) events w → (path : List Reception) → IsPathOfListener w.wire path → (s : Selection) → AsksForAll s → (h : List Moment) → TellsPath (readings_in h) path → (n : ℕ) (k : Kind)
        → read_whole (lists_shown s h (Named n) k) ≡ reverse (entries_shown s (Named n) (expected_overheard n k w.begun path)) }
{}
