//! What a C program holds of its listener.
ghost use Rattle.std.specs.Prelude.{◌≡◌, ◌↔◌, true, false, not, IfSome, IsNone};
ghost use Rattle.station_c.specs.ListedListeners.{ListedListenerValue};
ghost use Rattle.station_c.specs.Held.{is_there};
ghost use Rattle.station_c.specs.HeldListeners.{held_listener};

use crate::listed_listener::ListedListener;
use crate::raw_box::RawBox;
use std::alloc::Global;
use std::marker::{Model, Send};

/// A listener in memory of its own, or none: 16 bytes that a C program holds, never copies, and never reads or writes itself.
///
/// All of its bytes are 0 at first. It has a listener where its pointer is not null, whatever its flag says.
#[repr(C)]
#[derive(Drop)]
pub struct ListenerHandle {
    at: *mut u8,
    /// Whether the library put a listener in. It is never looked at.
    full: bool,
    /// The listener with its lists, where there is one.
    pub ghost value: { ListedListenerValue },
}

const _: () = prove!(size_of::<ListenerHandle>() == 16);

const _: () = prove!(align_of::<ListenerHandle>() == 8);

impl Model for ListenerHandle {
    ghost also_owns = { λ h. held_listener h.at h.value };
}

/// Between two calls a handle may go from one thread to another.
unsafe impl Send for ListenerHandle {}

impl ListenerHandle {
    /// The handle of this listener.
    fn of(listener: RawBox<ListedListener, Global>) -> ListenerHandle
        ensures open { is_there result.at ≡ true }
        ensures value { result.value ≡ listener.value }
    {
        let RawBox { at, alloc: _ } = listener;
        ListenerHandle {
            at: at as *mut u8,
            full: true,
        }
    }

    /// A handle of no listener.
    fn empty() -> ListenerHandle
        ensures { is_there result.at ≡ false }
    {
        ListenerHandle {
            at: std::ptr::null_mut(),
            full: false,
        }
    }

    /// The listener of a handle that has one.
    fn into_raw_box(self, alloc: Global) -> RawBox<ListedListener, Global>
        requires { is_there self.at ≡ true }
        ensures { result.value ≡ self.value }
    {
        let ListenerHandle { at, full: _ } = self;
        RawBox {
            at: at as *mut ListedListener,
            alloc,
        }
    }

    /// The same handle, and whether it has no listener.
    fn told(self) -> (ListenerHandle, bool)
        ensures same { result.0 ≡ self }
        ensures empty { result.1 ≡ not (is_there self.at) }
    {
        let ListenerHandle { at, full } = self;
        let is_empty = at.is_null();
        (ListenerHandle { at, full }, is_empty)
    }

    /// Takes the listener out, where there is one; the handle is empty until `put`.
    pub fn lift(&mut self, alloc: Global) -> Option<Box<ListedListener>>
        ensures value { IfSome result (λ b. b.value ≡ self.old.value) }
        ensures open { IfSome result (λ _. is_there self.old.at ≡ true) }
        ensures none { IsNone result ↔ (is_there self.old.at ≡ false) }
        ensures empty { is_there self.new.at ≡ false }
    {
        let (taken, is_empty) = std::mem::replace(self, ListenerHandle::empty()).told();
        if is_empty {
            return None;
        }
        Some(taken.into_raw_box(alloc).into_box())
    }

    /// Puts a listener in.
    pub fn put(&mut self, listener: Box<ListedListener>)
        ensures open { is_there self.new.at ≡ true }
        ensures value { self.new.value ≡ listener.value }
    {
        *self = ListenerHandle::of(RawBox::of(listener));
    }
}
