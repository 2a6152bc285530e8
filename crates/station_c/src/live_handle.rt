//! What a C program holds of its live station.
ghost use Rattle.std.specs.Prelude.{◌≡◌, ◌↔◌, true, false, not, IfSome, IsNone};
ghost use Rattle.station_c.specs.ListedLives.{ListedLiveValue};
ghost use Rattle.station_c.specs.Held.{is_there};
ghost use Rattle.station_c.specs.HeldLives.{held_live};

use crate::listed_live::ListedLive;
use crate::raw_box::RawBox;
use std::alloc::Global;
use std::marker::{Model, Send};

/// A live station in memory of its own, or none: 16 bytes that a C program holds, never copies, and never reads or writes itself.
///
/// All of its bytes are 0 at first. It has a station where its pointer is not null, whatever its flag says.
#[repr(C)]
#[derive(Drop)]
pub struct LiveHandle {
    at: *mut u8,
    /// Whether the library put a station in. It is never looked at.
    full: bool,
    /// The station with its lists, where there is one.
    pub ghost value: { ListedLiveValue },
}

const _: () = prove!(size_of::<LiveHandle>() == 16);

const _: () = prove!(align_of::<LiveHandle>() == 8);

impl Model for LiveHandle {
    ghost also_owns = { λ h. held_live h.at h.value };
}

/// Between two calls a handle may go from one thread to another.
unsafe impl Send for LiveHandle {}

impl LiveHandle {
    /// The handle of this station.
    fn of(station: RawBox<ListedLive, Global>) -> LiveHandle
        ensures open { is_there result.at ≡ true }
        ensures value { result.value ≡ station.value }
    {
        let RawBox { at, alloc: _ } = station;
        LiveHandle {
            at: at as *mut u8,
            full: true,
        }
    }

    /// A handle of no station.
    fn empty() -> LiveHandle
        ensures { is_there result.at ≡ false }
    {
        LiveHandle {
            at: std::ptr::null_mut(),
            full: false,
        }
    }

    /// The station of a handle that has one.
    fn into_raw_box(self, alloc: Global) -> RawBox<ListedLive, Global>
        requires { is_there self.at ≡ true }
        ensures { result.value ≡ self.value }
    {
        let LiveHandle { at, full: _ } = self;
        RawBox {
            at: at as *mut ListedLive,
            alloc,
        }
    }

    /// The same handle, and whether it has no station.
    fn told(self) -> (LiveHandle, bool)
        ensures same { result.0 ≡ self }
        ensures empty { result.1 ≡ not (is_there self.at) }
    {
        let LiveHandle { at, full } = self;
        let is_empty = at.is_null();
        (LiveHandle { at, full }, is_empty)
    }

    /// Takes the station out, where there is one; the handle is empty until `put`.
    pub fn lift(&mut self, alloc: Global) -> Option<Box<ListedLive>>
        ensures value { IfSome result (λ b. b.value ≡ self.old.value) }
        ensures open { IfSome result (λ _. is_there self.old.at ≡ true) }
        ensures none { IsNone result ↔ (is_there self.old.at ≡ false) }
        ensures empty { is_there self.new.at ≡ false }
    {
        let (taken, is_empty) = std::mem::replace(self, LiveHandle::empty()).told();
        if is_empty {
            return None;
        }
        Some(taken.into_raw_box(alloc).into_box())
    }

    /// Puts a station in.
    pub fn put(&mut self, station: Box<ListedLive>)
        ensures open { is_there self.new.at ≡ true }
        ensures value { self.new.value ≡ station.value }
    {
        *self = LiveHandle::of(RawBox::of(station));
    }
}
