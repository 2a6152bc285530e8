ghost use Rattle.std.specs.Prelude.{◌≡◌};
ghost use Rattle.listener.specs.NewestSent.{unit_key_of, unit_of_key};

use bus_model::Who;
use name_field::Name;

/// Whose entries are: what `Who` says, as a key of a map. NAMEs stand before addresses that nobody has claimed.
#[derive(Clone, Copy, PartialEq, Eq, PartialOrd, Ord)]
pub enum UnitKey {
    /// A NAME by its number.
    Named(u64),
    Unclaimed { address: u8, gaps: u64 },
}

impl UnitKey {
    /// The key of a unit.
    pub(crate) fn of(who: Who) -> UnitKey
        ensures { result ≡ unit_key_of who }
    {
        match who {
            Who::Named(name) => UnitKey::Named(name.number()),
            Who::Unclaimed { address, gaps } => UnitKey::Unclaimed { address, gaps },
        }
    }

    /// The unit of a key.
    pub(crate) fn who(self) -> Who
        ensures { result ≡ unit_of_key self }
    {
        match self {
            UnitKey::Named(number) => Who::Named(Name::from_number(number)),
            UnitKey::Unclaimed { address, gaps } => Who::Unclaimed { address, gaps },
        }
    }
}
