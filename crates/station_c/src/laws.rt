ghost use Rattle.std.specs.Prelude.{◌≤◌, ◌+◌, ◌∷◌, List, length};
ghost use Rattle.bus_model.specs.Heard.{names_heard};
ghost use Rattle.can_frame.specs.declared.reading.Reading.{Reading};
ghost use Rattle.listener.specs.NewestSent.{units_overheard};

/// One reading adds one NAME at most, and to a listener one unit that has lists. So a station, a live station or a listener for which room
/// is made before each frame never has more than were asked for.
#[tactic(auto, using(crate::proofs::Begun::one_name_more, crate::proofs::BegunListening::one_unit_more))]
pub fn one_at_a_time()
    ensures names { (x : Reading) (h : List Reading) → length (names_heard (x ∷ h)) ≤ length (names_heard h) + 1 }
    ensures units { (x : Reading) (h : List Reading) → length (units_overheard (x ∷ h)) ≤ length (units_overheard h) + 1 }
{}
