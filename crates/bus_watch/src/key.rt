ghost use Rattle.std.specs.Prelude.{◌≡◌};
ghost use Rattle.bus_watch.specs.Runs.{key_of, who_of};

use listener::Who;
use name_field::Name;

/// Whose entries are: what `Who` says, as a key of a map. NAMEs stand before addresses that nobody has claimed.
#[derive(Clone, Copy, PartialEq, Eq, PartialOrd, Ord)]
pub(crate) enum Key {
    /// A NAME by its number.
    Named(u64),
    Unclaimed { address: u8, gaps: u64 },
}

impl Key {
    /// The key of a unit.
    pub(crate) fn of(who: Who) -> Key
        ensures { result ≡ key_of who }
    {
        match who {
            Who::Named(name) => Key::Named(name.number()),
            Who::Unclaimed { address, gaps } => Key::Unclaimed { address, gaps },
        }
    }

    /// The unit of a key.
    pub(crate) fn who(self) -> Who
        ensures { result ≡ who_of self }
    {
        match self {
            Key::Named(number) => Who::Named(Name::from_number(number)),
            Key::Unclaimed { address, gaps } => Who::Unclaimed { address, gaps },
        }
    }
}
