//! A unit in its seat: it takes it for some steps, and leaves the bus where the scope is left.

use garage::{Garage, GarageError, Parked, Plug};
use std::alloc::Global;
use unit_trait::Unit;

/// A DM1 and the end of a turn. A refusal leaves it early.
fn dm1_and_turn(alloc: Global, plug: &mut Plug<'_>) -> Result<(), GarageError>
    requires { Unit {0} }
{
    plug.begin_dm1(alloc)?;
    plug.turn()?;
    Ok(())
}

/// Has a unit take its seat for a DM1 and a turn, and leave the bus at the end of the scope. What was refused of these stands
/// inside; a garage that does not know the unit gives it back.
pub fn last_turn(
    alloc: Global,
    garage: &mut Garage,
    parked: Parked,
) -> Result<Result<(), GarageError>, (Parked, GarageError)> {
    let mut plug = garage.attach(parked)?;
    Ok(dm1_and_turn(alloc, &mut plug))
}
