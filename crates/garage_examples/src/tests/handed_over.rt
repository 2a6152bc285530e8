use crate::{came_clear, lost, read_new};
use can_frame::Frame;
use dm_messages::Kind;
use garage::Garage;
use name_field::Name;
use std::test::Fail;

#[test]
fn of_a_station_alone(rt: HostRuntime) -> Result<(), Fail> {
    let alloc = rt.alloc();
    let name = Name::from_number(1);
    let mut garage = Garage::new(alloc, name, 249, 64, 16, 10)?;
    assert_eq!(rt; lost(&garage, 0), Some(0));
    assert_eq!(rt; lost(&garage, 1), None);
    assert_eq!(rt; read_new(alloc, &mut garage, name, Kind::Dm1), Ok(0));
    assert_eq!(rt; came_clear(&garage, name, Kind::Dm1), Some(0));
    assert_eq!(rt; garage.inject(Frame::new(0x18FE_CA00, &[])?), Ok(()));
    assert_eq!(rt; garage.injected(), 1);
    assert_eq!(rt; came_clear(&garage, name, Kind::Dm1), None);
    Ok(())
}
