ghost use Rattle.std.specs.Prelude.{◌≡◌, ◌↔◌, ℕ, List, true};
ghost use Rattle.dm_messages.specs.declared.kind.Kind.{Kind};
ghost use Rattle.bus_model.specs.Expected.{Reception, readings};
ghost use Rattle.bus_model.specs.Messages.{Message, IsAmong};
ghost use Rattle.bus_model.specs.Overheard.{entries_overheard};
ghost use Rattle.bus_model.specs.OverheardClearPath.{IsOnListenersClearPath};
ghost use Rattle.bus_model.specs.OverheardExpected.{AreSent, IsPathOfListener, expected_overheard, is_overheard};
ghost use Rattle.bus_model.specs.declared.who.Who.{Who as AnyWho};
ghost use Rattle.bus_model.specs.declared.who.Who.TheVariants.{Named};
ghost use Rattle.journal.specs.Journal.{GarageValue, injected_of, state_of};
ghost use Rattle.journal.specs.Promises.{IsLawful, wire_of};

/// Beside a garage a listener's lists are exact.
///
/// It begins to read the garage's wire at any frame, misses what it misses, and sends nothing. Under each NAME and kind it lists the
/// messages of that NAME's units, to all, to a station or to another unit, all of whose frames it read on a path clear to it, in the
/// order begun: the view of the memory with which each began, and where it went. It holds of every garage into which no frame came
/// from outside.
#[tactic(auto, using(crate::proofs::Overhearing::exact))]
pub fn a_listener_beside_it_is_exact()
    ensures { (g : GarageValue) → IsLawful g → injected_of g.journal ≡ 0 → (path : List Reception) → IsPathOfListener (wire_of (state_of g)) path → (n : ℕ) (k : Kind)
        → entries_overheard (Named n) k (readings path) ≡ expected_overheard n k (state_of g).begun path }
{}

/// Beside a garage no code is listed that nobody sent.
///
/// Each entry of a listener, under a NAME or under an address that nobody had claimed, is that of a message of its kind that a unit of
/// the garage began.
#[tactic(auto, using(crate::proofs::Overhearing::sent))]
pub fn what_is_listed_beside_it_was_sent()
    ensures { (g : GarageValue) → IsLawful g → injected_of g.journal ≡ 0 → (path : List Reception) → IsPathOfListener (wire_of (state_of g)) path → (who : AnyWho) (k : Kind)
        → AreSent k (state_of g).begun (entries_overheard who k (readings path)) }
{}

/// A path clear to a listener beside a garage: walking back and looking back say the same of messages begun.
#[tactic(auto, using(crate::proofs::Overhearing::to_clear, crate::proofs::Overhearing::from_clear))]
pub fn clear_path_beside_it_looks_back()
    ensures { (g : GarageValue) → IsLawful g → injected_of g.journal ≡ 0 → (path : List Reception) → IsPathOfListener (wire_of (state_of g)) path → (m : Message) → IsAmong m (state_of g).begun
        → (is_overheard m path ≡ true) ↔ IsOnListenersClearPath m path }
{}
