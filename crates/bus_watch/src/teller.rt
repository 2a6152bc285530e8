ghost use Rattle.std.specs.Prelude.{◌≡◌};
ghost use Rattle.bus_model.specs.Overheard.{same_who};
ghost use Rattle.bus_model.specs.declared.who.Who.TheVariants as AnyWho;
ghost use Rattle.bus_watch.specs.Identified.{same_teller, same_what};

use crate::selection::is_named;
use dm_words::Identification;
use listener::Who;

/// Whose an identification is, and which one.
#[derive(Clone, Copy)]
pub struct Teller {
    /// The unit.
    pub who: Who,
    /// What it tells.
    pub what: Identification,
}

impl Teller {
    /// Whether the same unit tells the same.
    pub(crate) fn is(&self, other: &Teller) -> bool
        ensures { result ≡ same_teller self.now other.now }
    {
        is_same_who(&self.who, &other.who) && is_same(self.what, other.what)
    }
}

/// Whether two units are the same.
pub(crate) fn is_same_who(one: &Who, other: &Who) -> bool
    ensures { result ≡ same_who one.now other.now }
{
    match one {
        Who::Named(name) => is_named(name, other),
        Who::Unclaimed { address, gaps } => is_unclaimed(*address, *gaps, other),
    }
}

/// Whether a unit is this address, after so many gaps.
fn is_unclaimed(address: u8, gaps: u64, who: &Who) -> bool
    ensures { result ≡ same_who (AnyWho.Unclaimed address gaps) who.now }
{
    match who {
        Who::Named(_) => false,
        Who::Unclaimed {
            address: own,
            gaps: since,
        } => address == *own && gaps == *since,
    }
}

/// Whether two identifications are the same.
fn is_same(one: Identification, other: Identification) -> bool
    ensures { result ≡ same_what one other }
{
    match (one, other) {
        (Identification::Vehicle, Identification::Vehicle)
        | (Identification::Component, Identification::Component)
        | (Identification::Software, Identification::Software)
        | (Identification::Unit, Identification::Unit) => true,
        _ => false,
    }
}
