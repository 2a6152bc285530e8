ghost use Rattle.std.specs.Prelude.{◌≡◌, ℕ, ◌∷◌, List};
ghost use Rattle.bus_model.specs.Heard.{StationSettings};
ghost use Rattle.can_frame.specs.declared.reading.Reading.{Reading};
ghost use Rattle.dm_messages.specs.declared.kind.Kind.{Kind};
ghost use Rattle.entry_lists.specs.Entries.{with_listed};
ghost use Rattle.station_table.specs.Listing.{entry_heard, lists_heard};

/// The lists that were heard of a reading and those before it are those that were heard before, with the entry that the reading
/// lists at the end of its own. So who keeps what the station puts into its lists has what was heard.
#[tactic(auto, using(crate::proofs::Listing::lists_after))]
pub fn lists_are_what_was_heard()
    ensures { (r : StationSettings) (x : Reading) (h : List Reading) (n : ℕ) (k : Kind)
        → with_listed (entry_heard r x h) (lists_heard r h) n k ≡ lists_heard r (x ∷ h) n k }
{}
