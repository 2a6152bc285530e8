ghost use Rattle.std.specs.Prelude.{◌≤◌};
ghost use Rattle.can_frame.specs.declared.address.TheConstants.{GREATEST_ADDRESS};

use bus_watch::Who;
use name_field::Name;

/// A NAME that is taken to hold an address before the first line.
#[derive(Clone, Copy)]
pub struct Assumed {
    /// 0 to 253.
    pub address: u8,
    pub name: Name,
    ghost address_fits: { address ≤ GREATEST_ADDRESS },
}

/// Whether a unit was taken to hold an address before the first line.
pub(crate) fn is_assumed_unit(assumed: &[Assumed], who: &Who) -> bool {
    match *who {
        Who::Named(name) => is_assumed(assumed, name),
        Who::Unclaimed { .. } => false,
    }
}

/// Whether a NAME was.
fn is_assumed(assumed: &[Assumed], name: Name) -> bool {
    for one in assumed {
        if one.name == name {
            return true;
        }
    }
    false
}
