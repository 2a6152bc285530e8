use bus_watch::Who;
use name_field::Name;
use picture::{DrawnUnit, Sender};

/// The number of the bus at a place.
pub(crate) fn bus_at(place: usize) -> u16 {
    place.min(usize::from(u16::MAX)) as u16
}

/// The unit of a bus that sends so.
pub(crate) fn unit_of(bus: u16, who: Who) -> DrawnUnit {
    let sender = match who {
        Who::Named(name) => Sender::Named(name.number()),
        Who::Unclaimed { address, gaps } => Sender::Unclaimed { address, gaps },
    };
    DrawnUnit { bus, sender }
}

/// The unit of a bus that lost its address, where one did.
pub(crate) fn lost_unit(bus: u16, lost: &Option<Name>) -> Option<DrawnUnit> {
    match lost {
        Some(name) => Some(DrawnUnit::named(bus, *name)),
        None => None,
    }
}

/// Whom a watch has there.
pub(crate) fn who_of(sender: &Sender) -> Who {
    match *sender {
        Sender::Named(name) => Who::Named(Name::from_number(name)),
        Sender::Unclaimed { address, gaps } => Who::Unclaimed { address, gaps },
    }
}
