ghost use Rattle.std.specs.Prelude.{◌≡◌, ◌⊎◌, ◌<◌, ◌≤◌, ◌+◌, ℕ, true};
ghost use Rattle.shared_groups.specs.Outgoing.{OutgoingValue, goes_by_session, is_under_way, outgoing_after, outgoing_due, packets_to_send, with_clear_to_send, with_part_gone};
ghost use Rattle.shared_groups.specs.declared.outgoing.Due.TheVariants as due;

/// A part of a message goes only where it may, and lets no other go.
pub fn a_part_goes_where_it_may()
    ensures { (gap now : ℕ) (o : OutgoingValue)
        → (outgoing_due gap now o ≡ due.Part → o.next ≤ o.last) × ((outgoing_after now o (outgoing_due gap now o)).last ≡ o.last) }
{}

/// By a clear to send those packets may go that it grants, of those that the message has, and no others; or nothing changes.
pub fn what_is_granted_may_go()
    ensures { (granted next : ℕ) (o : OutgoingValue) → 0 < granted
        → (with_clear_to_send granted next o ≡ o) ⊎ (((with_clear_to_send granted next o).next ≡ next)
        × ((with_clear_to_send granted next o).last < next + granted) × ((with_clear_to_send granted next o).last ≤ packets_to_send o.payload)) }
{}

/// A packet that went, and is asked for again a third time, ends the session: so it goes three times at most, where none behind it is asked
/// for meanwhile.
pub fn a_packet_goes_again_twice()
    ensures { (gap now number first second third between : ℕ) (o : OutgoingValue) → is_under_way o ≡ true → goes_by_session o ≡ true
        → 0 < number → number ≤ o.gone → 0 < first → 0 < second → 0 < third
        → outgoing_due gap now (with_clear_to_send third number (with_part_gone between (with_clear_to_send second number
        (with_part_gone between (with_clear_to_send first number o))))) ≡ due.TooOften }
{}
