ghost use Rattle.std.specs.Prelude.{◌≡◌, ◌<◌};
ghost use Rattle.shop_texts.specs.Index.{IsKeyOf, exactness_of, key_of_row};

use crate::unit_row::UnitRow;
use name_field::Name;

/// What a row gives of the units that it is for.
#[derive(Clone, Copy, PartialEq, Eq, Hash)]
pub(crate) struct UnitKey {
    name: Option<Name>,
    function: Option<u8>,
    industry_group: Option<u8>,
    vehicle_system: Option<u8>,
    manufacturer: Option<u16>,
}

impl UnitKey {
    /// What this row gives.
    pub(crate) fn of(row: &UnitRow) -> UnitKey
        ensures { result ≡ key_of_row row.now }
    {
        UnitKey {
            name: row.name,
            function: row.function,
            industry_group: row.industry_group,
            vehicle_system: row.vehicle_system,
            manufacturer: row.manufacturer,
        }
    }

    /// What the rows give that are for the unit of this NAME and are so exact.
    pub(crate) fn of_unit(name: Name, exactness: u8) -> UnitKey
        requires { exactness < 32 }
        ensures { IsKeyOf name exactness result }
    {
        Given::of(exactness).key(name)
    }
}

/// Which of these a row gives.
#[derive(Clone, Copy)]
struct Given {
    name: bool,
    function: bool,
    industry_group: bool,
    vehicle_system: bool,
    manufacturer: bool,
}

impl Given {
    /// What rows give that are so exact.
    fn of(exactness: u8) -> Given
        requires { exactness < 32 }
        ensures { exactness_of result.name result.function result.industry_group result.vehicle_system result.manufacturer ≡ exactness }
    {
        Given {
            name: exactness / 16 == 1,
            function: exactness / 8 % 2 == 1,
            industry_group: exactness / 4 % 2 == 1,
            vehicle_system: exactness / 2 % 2 == 1,
            manufacturer: exactness % 2 == 1,
        }
    }

    /// The same of this unit.
    fn key(self, name: Name) -> UnitKey
        ensures { IsKeyOf name (exactness_of self.name self.function self.industry_group self.vehicle_system self.manufacturer) result }
    {
        let fields = name.fields();
        UnitKey {
            name: self.name.then_some(name),
            function: self.function.then_some(fields.function),
            industry_group: self.industry_group.then_some(fields.industry_group),
            vehicle_system: self.vehicle_system.then_some(fields.vehicle_system),
            manufacturer: self.manufacturer.then_some(fields.manufacturer),
        }
    }
}
