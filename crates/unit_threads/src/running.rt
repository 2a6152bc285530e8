ghost use Rattle.std.specs.Prelude.{◌≡◌, ◌+◌, ◌≤◌, min, Some, None, IfErr, IfOk, IfSome, vec_capacity, vec_len};
ghost use Rattle.std.specs.List.{All};
ghost use Rattle.garage.specs.Calls.{IsNoMemoryOrFull};
ghost use Rattle.unit_threads.specs.Ends.{Agrees, AreSeatlessFrom, HaveOwnSeats, IsSeatless};
ghost use Rattle.unit_threads.specs.Going.{GoesOnFrom};

use crate::compare::compared_ends;
use crate::ended::{EndReason, Ended};
use crate::shared::{SharedGarage, Start};
use garage::{Garage, GarageError};
use std::alloc::{AllocError, Global};
use std::marker::Brand;
use std::sync::{Mutex, Wait};
use std::thread;
use std::thread::{JoinHandle, Scope, Threads};
use unit_trait::Unit;

/// How many units find a seat in a garage without live ones (`TooManySeats`).
const MOST_UNITS: usize = 64;

/// The thread of a unit, where it was started.
type Started = Option<JoinHandle<Ended>>;

/// What a unit waits for before each turn.
pub trait Gate: Sync {
    /// Called in the thread of a unit before each of its turns, without the lock; both numbers count from 0.
    fn before_turn<R: Wait>(&self, rt: &R, unit: u32, turn: u32);
}

/// How a run ended.
#[derive(Drop)]
pub struct Ran {
    /// How each unit's thread ended, in the order of the units.
    pub ended: Vec<Ended>,
    /// Why the stations' readings ended early: `BookFull` or `OutOfMemory`; none where they did not.
    pub station: Option<GarageError>,
}

/// Runs each unit, given with the address that it wants, in a thread of its own: it joins, has so many turns (`one_turn`) and
/// leaves. Meanwhile the caller's thread has the stations read so often (`one_read`).
///
/// The first 64 units have a thread. For each further one no seat may be left: it is let go without a thread (`TooManySeats`).
///
/// The garage comes back as the threads left it, gone on from the one that was handed in. Each seat's counts agree with what is
/// told of it, and no seat is told of twice. A unit whose thread cannot be started is let go (`NoThread`); a lock of this toolchain is never poisoned, since a
/// panic ends the process. It returns only if each unit's `think` and the gate do.
///
/// # Errors
/// - memory for the ends of the threads was refused: no unit was mounted, the units are let go, the garage is as it was.
pub fn run<R: Threads + Wait + Sync, G: Gate>(
    rt: &R,
    alloc: Global,
    garage: Garage,
    units: Vec<(Box<dyn Unit>, u8)>,
    turns: u32,
    reads: u32,
    gate: &G,
) -> (Garage, Result<Ran, AllocError>)
    ensures none { IfErr result.1 (λ _. result.0 ≡ garage) }
    ensures goes_on { GoesOnFrom garage result.0 }
    ensures all { IfOk result.1 (λ r. vec_len r.ended ≡ vec_len units) }
    ensures agree { IfOk result.1 (λ r. All (Agrees turns result.0) r.ended.items) }
    ensures apart { IfOk result.1 (λ r. HaveOwnSeats r.ended.items) }
    ensures seatless { IfOk result.1 (λ r. AreSeatlessFrom MOST_UNITS r.ended.items) }
    ensures station { IfOk result.1 (λ r. IfSome r.station IsNoMemoryOrFull) }
{
    run_from::<Brand, R, G>(rt, alloc, garage, units, turns, reads, gate)
}

/// The run, from the garage for which `S` stands.
fn run_from<S: Start, R: Threads + Wait + Sync, G: Gate>(
    rt: &R,
    alloc: Global,
    garage: Garage,
    units: Vec<(Box<dyn Unit>, u8)>,
    turns: u32,
    reads: u32,
    gate: &G,
) -> (Garage, Result<Ran, AllocError>)
    requires { garage ≡ S.start }
    ensures none { IfErr result.1 (λ _. result.0 ≡ garage) }
    ensures goes_on { GoesOnFrom S.start result.0 }
    ensures all { IfOk result.1 (λ r. vec_len r.ended ≡ vec_len units) }
    ensures agree { IfOk result.1 (λ r. All (Agrees turns result.0) r.ended.items) }
    ensures apart { IfOk result.1 (λ r. HaveOwnSeats r.ended.items) }
    ensures seatless { IfOk result.1 (λ r. AreSeatlessFrom MOST_UNITS r.ended.items) }
    ensures station { IfOk result.1 (λ r. IfSome r.station IsNoMemoryOrFull) }
{
    let ended: Vec<Ended> = match Vec::with_capacity(alloc, units.len()) {
        Ok(ended) => ended,
        Err(error) => return (garage, Err(error)),
    };
    let threads: Vec<Started> = match Vec::with_capacity(alloc, units.len().min(MOST_UNITS)) {
        Ok(threads) => threads,
        Err(error) => return (garage, Err(error)),
    };
    let shared: Mutex<SharedGarage<S>> = Mutex::new(SharedGarage::new(garage));
    let (ended, station) = run_shared(
        rt, alloc, &shared, gate, units, turns, reads, threads, ended,
    );
    let garage = shared.into_inner().into_garage();
    let ended = compared_ends(&garage, turns, ended);
    (garage, Ok(Ran { ended, station }))
}

/// The run, in a garage that is shared. It returns when each thread has ended.
fn run_shared<'e, S: Start, R: Threads + Wait + Sync, G: Gate>(
    rt: &'e R,
    alloc: Global,
    shared: &'e Mutex<SharedGarage<S>>,
    gate: &'e G,
    units: Vec<(Box<dyn Unit>, u8)>,
    turns: u32,
    reads: u32,
    threads: Vec<Started>,
    ended: Vec<Ended>,
) -> (Vec<Ended>, Option<GarageError>)
    requires none { (vec_len ended ≡ 0) × (vec_len threads ≡ 0) }
    requires room { vec_len units ≤ vec_capacity ended }
    requires seats { min (vec_len units) MOST_UNITS ≤ vec_capacity threads }
    ensures len { vec_len result.0 ≡ vec_len units }
    ensures station { IfSome result.1 IsNoMemoryOrFull }
    ensures seatless { AreSeatlessFrom MOST_UNITS result.0.items }
{
    thread::scope(
        thread::scope_env(),
        rt,
        move |scope| -> (Vec<Ended>, Option<GarageError>)
            requires none { (vec_len ended ≡ 0) × (vec_len threads ≡ 0) }
            requires room { vec_len units ≤ vec_capacity ended }
            requires seats { min (vec_len units) MOST_UNITS ≤ vec_capacity threads }
            ensures { (vec_len result.0 ≡ vec_len units) × IfSome result.1 IsNoMemoryOrFull × AreSeatlessFrom MOST_UNITS result.0.items }
        {
            run_all(
                scope, rt, alloc, shared, gate, units, turns, reads, threads, ended,
            )
        },
    )
}

/// Has each unit that can find a seat run in a thread of its own, and does the caller's part meanwhile. The ends come in the
/// order of the units.
fn run_all<'s, 'e, S: Start, R: Threads + Wait + Sync, G: Gate>(
    scope: &'s Scope<'s, &'e ()>,
    rt: &'e R,
    alloc: Global,
    shared: &'e Mutex<SharedGarage<S>>,
    gate: &'e G,
    mut units: Vec<(Box<dyn Unit>, u8)>,
    turns: u32,
    reads: u32,
    threads: Vec<Started>,
    ended: Vec<Ended>,
) -> (Vec<Ended>, Option<GarageError>)
    requires none { (vec_len ended ≡ 0) × (vec_len threads ≡ 0) }
    requires room { vec_len units ≤ vec_capacity ended }
    requires seats { min (vec_len units) MOST_UNITS ≤ vec_capacity threads }
    ensures len { vec_len result.0 ≡ vec_len units }
    ensures station { IfSome result.1 IsNoMemoryOrFull }
    ensures seatless { AreSeatlessFrom MOST_UNITS result.0.items }
{
    let seatless = units.len().saturating_sub(MOST_UNITS);
    units.truncate(MOST_UNITS);
    let threads = start_each(scope, rt, alloc, shared, gate, units, turns, threads);
    let station = read_often(rt, alloc, shared, reads);
    let ended = join_each(rt, threads, ended);
    (with_seatless(seatless, ended), station)
}

/// Starts the thread of each unit, the last one first.
fn start_each<'s, 'e, S: Start, R: Threads + Wait + Sync, G: Gate>(
    scope: &'s Scope<'s, &'e ()>,
    rt: &'e R,
    alloc: Global,
    shared: &'e Mutex<SharedGarage<S>>,
    gate: &'e G,
    mut units: Vec<(Box<dyn Unit>, u8)>,
    turns: u32,
    mut threads: Vec<Started>,
) -> Vec<Started>
    requires few { vec_len units ≤ MOST_UNITS }
    requires room { vec_len threads + vec_len units ≤ vec_capacity threads }
    ensures { vec_len result ≡ vec_len threads + vec_len units }
{
    while let Some((unit, want)) = units.pop() {
        let number = units.len() as u32;
        let thread = scope.spawn(move || drive(rt, alloc, shared, gate, unit, want, number, turns));
        threads.push_reserved(thread.ok());
    }
    threads
}

/// Waits for each of these threads, the one that was started last first, and puts their ends behind the others.
fn join_each<R: Threads>(rt: &R, mut threads: Vec<Started>, mut ended: Vec<Ended>) -> Vec<Ended>
    requires room { vec_len ended + vec_len threads ≤ vec_capacity ended }
    ensures len { vec_len result ≡ vec_len ended + vec_len threads }
    ensures capacity { vec_capacity result ≡ vec_capacity ended }
{
    while let Some(started) = threads.pop() {
        let end = match started {
            Some(thread) => thread.join(rt),
            None => never_joined(EndReason::NoThread),
        };
        ended.push_reserved(end);
    }
    ended
}

/// The ends of so many units more, for which no seat was left.
fn with_seatless(seatless: usize, mut ended: Vec<Ended>) -> Vec<Ended>
    requires room { vec_len ended + seatless ≤ vec_capacity ended }
    ensures len { vec_len result ≡ vec_len ended + seatless }
    ensures seatless { AreSeatlessFrom (vec_len ended) result.items }
{
    for _ in 0..seatless {
        ended.push_reserved(no_seat_left());
    }
    ended
}

/// All that a unit does: it joins, has its turns and leaves.
fn drive<S: Start, R: Wait, G: Gate>(
    rt: &R,
    alloc: Global,
    shared: &Mutex<SharedGarage<S>>,
    gate: &G,
    unit: Box<dyn Unit>,
    want: u8,
    number: u32,
    turns: u32,
) -> Ended {
    let mounted = shared.lock(rt).mount(alloc, unit, want);
    let mut parked = match mounted {
        Ok(parked) => parked,
        Err((unit, error)) => {
            drop(unit);
            return never_joined(EndReason::Garage(error));
        }
    };
    let seat = parked.seat();
    for turn in 0..turns {
        gate.before_turn(rt, number, turn);
        parked.think();
        let turned = shared.lock(rt).turn(alloc, parked);
        parked = match turned {
            Ok(parked) => parked,
            Err(error) => return refused_at(seat, error),
        };
    }
    let events = parked.events().saturating_add(1);
    let left = shared.lock(rt).dismiss(parked);
    match left {
        Ok(()) => Ended {
            seat: Some(seat),
            events,
            refusal: None,
        },
        Err(error) => refused_at(seat, error),
    }
}

/// The end of a unit for which no seat was left.
fn no_seat_left() -> Ended
    ensures { IsSeatless result }
{
    never_joined(EndReason::Garage(GarageError::TooManySeats))
}

/// The end of a unit that never joined.
fn never_joined(refusal: EndReason) -> Ended
    ensures { result ≡ record { seat = None; events = 0; refusal = Some refusal } }
{
    Ended {
        seat: None,
        events: 0,
        refusal: Some(refusal),
    }
}

/// The end of a unit on this seat that a call of the garage refused; its events are counted later.
fn refused_at(seat: u32, error: GarageError) -> Ended {
    Ended {
        seat: Some(seat),
        events: 0,
        refusal: Some(EndReason::Garage(error)),
    }
}

/// The stations' readings. The first refusal ends them.
fn read_often<S: Start, R: Wait>(
    rt: &R,
    alloc: Global,
    shared: &Mutex<SharedGarage<S>>,
    reads: u32,
) -> Option<GarageError>
    ensures { IfSome result IsNoMemoryOrFull }
{
    for _ in 0..reads {
        let read = shared.lock(rt).read(alloc);
        if let Err(error) = read {
            return Some(error);
        }
    }
    None
}
