ghost use Rattle.std.specs.Prelude.{◌≡◌, ◌<◌, ◌≤◌, ◌+◌, ℕ, ◌∷◌, List, Option, None, Some, true, false};
ghost use Rattle.address_claim.specs.Claiming.{is_held};
ghost use Rattle.bus_model.specs.Heard.{Joining, StationSettings};
ghost use Rattle.can_frame.specs.FrameValue.{FrameValue};
ghost use Rattle.can_frame.specs.declared.reading.Reading.{Reading};
ghost use Rattle.can_frame.specs.declared.reading.Reading.TheVariants.{Frame};
ghost use Rattle.dm_messages.specs.View.{pgn_of_kind};
ghost use Rattle.dm_messages.specs.declared.kind.Kind.{Kind};
ghost use Rattle.entry_lists.specs.Entries.{with_listed};
ghost use Rattle.parameter_group.specs.Group.{DataTransfer, Group};
ghost use Rattle.station_table.specs.Listing.{lists_heard};
ghost use Rattle.station_table.specs.Reactions.{group_reaction};
ghost use Rattle.station_table.specs.Steps.{after_group};
ghost use Rattle.station_table.specs.declared.session.Session.{Session};
ghost use Rattle.transport.specs.Assembling.{is_next};
ghost use Rattle.transport.specs.declared.control.Control.TheVariants.{Abort};
ghost use Rattle.live_station.specs.Ear.{entry_of_told, frames_told, is_out_of_turn};
ghost use Rattle.live_station.specs.Losses.{control_again, missing_asked, next_packet, watch_asked, watch_passed};
ghost use Rattle.live_station.specs.Positive.{AcknowledgesClear, IsOutAs, IsPositive, IsSameRequest, IsUndoubted};
ghost use Rattle.live_station.specs.Working.{WorkingValue, progress_by};
ghost use Rattle.live_station.specs.declared.loss.Watch.{Watch};
ghost use Rattle.live_station.specs.declared.open.Asked.{Asked};
ghost use Rattle.live_station.specs.declared.open.OpenOrder.{OpenOrder};
ghost use Rattle.live_station.specs.declared.open.Progress.{Progress};
ghost use Rattle.live_station.specs.declared.open.Stage.TheVariants as stage;
ghost use Rattle.live_station.specs.declared.order.Clearing.{Clearing};
ghost use Rattle.live_station.specs.declared.order.Order.TheVariants.{Clear};

/// The lists that were heard of what the station was told are those before, with the entry that a frame lists at the end of its own: so
/// who keeps what the station puts into its lists has what it was told.
#[tactic(auto, using(crate::proofs::Found::lists_after_told))]
pub fn lists_are_what_was_told()
    ensures { (r : StationSettings) (f : FrameValue) (h : List Reading) (n : ℕ) (k : Kind)
        → with_listed (entry_of_told r f h) (lists_heard r (frames_told r h)) n k ≡ lists_heard r (frames_told r (Frame f ∷ h)) n k }
{}

/// A frame by which an open order is found positive is an acknowledgment of the group by which its NAME was asked to clear, from the
/// address that was asked, which is the NAME's, to the address from which it was asked, which is the station's.
pub fn positive_is_acknowledged()
    ensures { (g : Group) (now : ℕ) (s : WorkingValue) (o : OpenOrder) → s.order ≡ Some o → o.found ≡ None → IsPositive (progress_by g now s)
        → (name : ℕ) × (what : Clearing) × (a : Asked) × (o.order ≡ Clear name what) × (o.stage ≡ stage.Asked a)
        × AcknowledgesClear g name what a (after_group s.station g) }
{}

/// A clear that is out stays out only while nothing puts it in doubt: after each frame that the station is told of, the NAME and the
/// station hold the addresses between which it was written, and the frame claims the station's for nobody else.
pub fn a_clear_stays_out_undoubted()
    ensures { (g : Group) (now : ℕ) (s : WorkingValue) (o : OpenOrder) (name : ℕ) (what : Clearing) (a : Asked) (b : Asked) (p : Progress)
        → s.order ≡ Some o → o.order ≡ Clear name what → o.found ≡ None → o.stage ≡ stage.Asked a
        → progress_by g now s ≡ Some p → IsOutAs b p
        → IsUndoubted name a (group_reaction s.station g).withdraw (after_group s.station g) × IsSameRequest a b }
{}

/// A packet that the station is told of is the next one of the session from its source, where one is half joined: so none breaks it.
#[tactic(auto, using(crate::proofs::Ears::told_in_order))]
pub fn packets_are_told_in_order()
    ensures { (held : Option ℕ) (j : Joining) (source destination : ℕ) (bytes : List ℕ) → is_held held destination ≡ true
        → is_out_of_turn held (Some j) (DataTransfer source destination bytes) ≡ false → is_next j.size j.pieces bytes ≡ true }
{}

/// What is asked for again begins with the first packet that is missing, and is no more than is missing.
pub fn what_is_missing_is_asked_for()
    ensures { (j : Session) → 0 < j.at_once → j.taken < j.packets → j.packets < 256
        → (next_packet j ≡ j.taken + 1) × (0 < missing_asked j) × (j.taken + missing_asked j ≤ j.packets) }
{}

/// A packet is asked for again twice at most: where it is missing still, the session is given up, whatever was passed over meanwhile.
pub fn a_packet_is_asked_for_again_twice()
    ensures { (j : Session) (w : Watch) (first second between behind number other : ℕ)
        → (reason : ℕ) × (control_again j (watch_passed other behind (watch_asked j second (watch_passed number between (watch_asked j first w)))) ≡ Abort reason (pgn_of_kind j.kind)) }
{}
