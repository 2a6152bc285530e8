ghost use Rattle.std.specs.Prelude.{◌≡◌, ◌++◌, ℕ, List, Option, Some, None};
ghost use Rattle.dm_messages.specs.Tolerant.{codes_in, shown_by_method, strict_of, tolerant};
ghost use Rattle.dm_messages.specs.View.{decoding};
ghost use Rattle.dm_messages.specs.declared.method.ConversionMethod.{ConversionMethod};
ghost use Rattle.dm_messages.specs.declared.shown.Shown.{Shown};
ghost use Rattle.dm_messages.specs.declared.tolerant.GroupRead.{GroupRead};
ghost use Rattle.dm_messages.specs.declared.tolerant.Tolerant.{Tolerant};

/// The strict reading is the tolerant one where nothing is amiss, and refuses where something is.
#[tactic(auto, using(crate::proofs::Tolerance::strict))]
pub fn strict_is_tolerant_without_trouble()
    ensures { (bytes : List ℕ) → decoding bytes ≡ strict_of (tolerant bytes) }
{}

/// Where the strict reading succeeds, the tolerant one shows the same.
#[tactic(auto, using(crate::proofs::Tolerance::read_strictly))]
pub fn what_is_read_strictly_is_read()
    ensures { (bytes : List ℕ) (v : Shown) → decoding bytes ≡ Some v → (t : Tolerant) × (tolerant bytes ≡ Some t) × (shown_by_method None t ≡ v) }
{}

/// A group that cannot be read hides none of the others: the codes of groups are those of the first ones, and those of the others.
#[tactic(auto, using(crate::proofs::Tolerance::apart))]
pub fn no_group_hides_another()
    ensures { (method : Option ConversionMethod) (first others : List GroupRead)
        → codes_in method (first ++ others) ≡ codes_in method first ++ codes_in method others }
{}
