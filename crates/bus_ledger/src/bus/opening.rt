ghost use Rattle.std.specs.Prelude.{◌≡◌, ◌<◌, ◌≤◌, ◌∷◌, [], ℕ, length, IfErr, IfOk};
ghost use Rattle.std.specs.List.{All};
ghost use Rattle.bus_ledger.specs.BusValue.{spare_at};
ghost use Rattle.bus_ledger.specs.Changes.{HasWindow, new_traffic};
ghost use Rattle.bus_ledger.specs.Inside.{AreNumbers, AreSeatsOf, AreTapsOf};

use crate::bus::{Bus, MOST_STATIONS};
use crate::error::BusError;
use crate::receive_window::ReceiveWindow;
use crate::seat::Seat;
use crate::traffic::StationSeat;
use crate::wire::Wire;
use name_field::Name;
use std::alloc::Global;

impl Bus {
    /// A bus with one station alone, on seat 0, whose window has room for `window` unread frames, 1 to 4,096; their memory
    /// is taken here. The station's queue has room for one frame.
    ///
    /// Refused where there is no memory.
    pub fn new(alloc: Global, station: Name, window: u32) -> Result<Bus, BusError>
        requires { HasWindow window }
        ensures ok { IfOk result (λ b. b.traffic ≡ new_traffic (record { name = station; window = window } ∷ [])) }
        ensures err { IfErr result (λ e. e ≡ BusError.OutOfMemory) }
        ensures room { IfOk result (λ b. 1 ≤ spare_at b 0) }
    {
        let station = StationSeat {
            name: station,
            window,
        };
        Bus::with_stations(alloc, &[station])
    }

    /// A bus with these stations alone, 1 to 8, on the seats 0, 1, 2, .. in their order. Each has a window of its own with
    /// room for as many unread frames as it says, 1 to 4,096; their memory is taken here. Each station's queue has room for
    /// one frame.
    ///
    /// Refused where there is no memory.
    pub fn with_stations(alloc: Global, stations: &[StationSeat]) -> Result<Bus, BusError>
        requires some { 0 < length stations.now }
        requires few { length stations.now ≤ MOST_STATIONS }
        requires windows { All (λ s. HasWindow s.window) stations.now }
        ensures ok { IfOk result (λ b. b.traffic ≡ new_traffic stations.now) }
        ensures err { IfErr result (λ e. e ≡ BusError.OutOfMemory) }
        ensures room { IfOk result (λ b. (y : ℕ) → y < length stations.now → 1 ≤ spare_at b y) }
    {
        Ok(Bus {
            wire: Wire::new(alloc),
            seats: seats_of(alloc, stations)?,
            live: numbers_below(alloc, stations.len() as u32)?,
            receive_windows: receive_windows_of(alloc, stations)?,
        })
    }
}

/// The seats of these stations, each with room for one frame in its queue.
fn seats_of(alloc: Global, stations: &[StationSeat]) -> Result<Vec<Seat>, BusError>
    ensures ok { IfOk result (λ v. AreSeatsOf v.items stations.now (length stations.now)) }
    ensures err { IfErr result (λ e. e ≡ BusError.OutOfMemory) }
{
    let mut seats = Vec::with_capacity(alloc, stations.len())?;
    for station in stations {
        seats.push(Seat::new(alloc, station.name, 0)?)?;
    }
    Ok(seats)
}

/// The numbers from 0 on below this one.
fn numbers_below(alloc: Global, end: u32) -> Result<Vec<u32>, BusError>
    ensures ok { IfOk result (λ v. AreNumbers v.items end) }
    ensures err { IfErr result (λ e. e ≡ BusError.OutOfMemory) }
{
    let mut numbers = Vec::with_capacity(alloc, end as usize)?;
    for number in 0..end {
        numbers.push(number)?;
    }
    Ok(numbers)
}

/// The windows of these stations, into which no frame has come yet.
fn receive_windows_of(
    alloc: Global,
    stations: &[StationSeat],
) -> Result<Vec<ReceiveWindow>, BusError>
    requires { All (λ s. HasWindow s.window) stations.now }
    ensures ok { IfOk result (λ v. AreTapsOf v.items stations.now (length stations.now)) }
    ensures err { IfErr result (λ e. e ≡ BusError.OutOfMemory) }
{
    let mut receive_windows = Vec::with_capacity(alloc, stations.len())?;
    for station in stations {
        receive_windows.push(ReceiveWindow::new(alloc, station.window)?)?;
    }
    Ok(receive_windows)
}
