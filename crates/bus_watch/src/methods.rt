ghost use Rattle.std.specs.Prelude.{◌≡◌};
ghost use Rattle.bus_watch.specs.Methods.{method_if, method_in, method_of};

use dm_messages::ConversionMethod;
use listener::Who;
use name_field::Name;

/// The most units of which a conversion method is known.
pub const MOST_METHODS: usize = 16;

/// The conversion method of a unit's older codes, which the shop knows (SAE J1939-73).
#[derive(Clone, Copy)]
pub struct UnitMethod {
    pub name: Name,
    pub method: ConversionMethod,
}

/// The methods that are known, each at a place of its own.
pub type UnitMethods = [Option<UnitMethod>; MOST_METHODS];

/// The method of a unit, where it is known; the first where there are several.
pub(crate) fn method_of(methods: &UnitMethods, who: &Who) -> Option<ConversionMethod>
    ensures { result ≡ method_of methods.now who.now }
{
    match *who {
        Who::Named(name) => method_in(methods, name),
        Who::Unclaimed { .. } => None,
    }
}

/// The method of the unit of a NAME.
fn method_in(table: &[Option<UnitMethod>], name: Name) -> Option<ConversionMethod>
    ensures { result ≡ method_in table.now name }
{
    let mut rest = table;
    while let [first, after @ ..] = rest {
        if let Some(method) = method_if(first, name) {
            return Some(method);
        }
        rest = after;
    }
    None
}

/// The method, where it is of this unit.
fn method_if(unit: &Option<UnitMethod>, name: Name) -> Option<ConversionMethod>
    ensures { result ≡ method_if unit.now name }
{
    match unit {
        Some(unit) if unit.name == name => Some(unit.method),
        _ => None,
    }
}
