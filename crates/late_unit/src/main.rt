//! A unit of one's own on a bus with a diagnostic station: its fault comes with its third turn.
//!
//! Copy this folder, name it in `crates.txt` as this one is, and write your unit in the place of `unit.rt`.
#![tactic(auto)]

mod unit;

use bus_ledger::Carried;
use dm_messages::Kind;
use garage::{Garage, GarageError, Parked};
use name_field::Name;
use std::alloc::Global;
use std::{io, slice};
use unit::LateUnit;
use unit_trait::Unit;

/// The NAME of the unit.
const UNIT: u64 = 0xA0;

fn main(rt: HostRuntime) -> io::Result<()> {
    match counts_of_codes(rt.alloc()) {
        Ok(counts) => {
            for count in counts.as_slice() {
                println!(rt; "a DM1 of {count} codes")?;
            }
            Ok(())
        }
        Err(refusal) => println!(rt; "refused: {refusal}"),
    }
}

/// How many codes each DM1 has that the station lists under the unit's NAME.
fn counts_of_codes(alloc: Global) -> Result<Vec<usize>, GarageError> {
    // (a station of NAME 1 at address 249, which reads 64 frames behind at most; clears of 16 packets; 1,000 events)
    let mut garage = Garage::new(alloc, Name::from_number(1), 249, 64, 16, 1000)?;
    let unit: Box<dyn Unit> = Box::new(alloc, LateUnit::new(alloc, UNIT, 3))?;
    let mut parked = match garage.mount(alloc, unit, 0) {
        Ok(parked) => parked,
        Err((unit, error)) => {
            drop(unit);
            return Err(error);
        }
    };
    let played = play(alloc, &mut garage, &mut parked);
    // (a unit that was mounted is dismissed, whatever came)
    let left = garage.dismiss(parked);
    played?;
    left?;
    let mut counts = Vec::new(alloc);
    for entry in garage.shown(Name::from_number(UNIT), Kind::Dm1) {
        counts.push(entry.codes.as_slice().len())?;
    }
    Ok(counts)
}

/// The claims are carried, and three rounds are played.
fn play(alloc: Global, garage: &mut Garage, parked: &mut Parked) -> Result<(), GarageError>
    requires { Unit {0} }
{
    settle(alloc, garage, parked)?;
    for _ in 0..3 {
        parked.think();
        garage.let_turn(parked)?;
        garage.let_begin(alloc, parked)?;
        settle(alloc, garage, parked)?;
    }
    Ok(())
}

/// Frames are carried, heard and read, nine at most. Whether none waits any more.
fn settle(alloc: Global, garage: &mut Garage, parked: &mut Parked) -> Result<bool, GarageError>
    requires { Unit {0} }
{
    let rounds = garage.round(alloc, slice::from_mut(parked), 9)?;
    Ok(matches!(rounds.end, Some(Carried::Idle)))
}
