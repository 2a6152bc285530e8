ghost use Rattle.std.specs.Prelude.{◌≡◌, ◌<◌, ◌∷◌, ◌++◌, [], length, slice_get, OnOk};
ghost use Rattle.std.specs.Option.{option_map};

use crate::traffic::CarriedFrame;
use can_frame::Frame;
use http_server::Log;
use std::alloc::{AllocError, Global};
use std::marker::Model;

/// What was carried, the oldest first. Kept are the frames alone: from which seat each came, and of which message it is part, is known
/// to proofs alone.
#[derive(Drop)]
pub(crate) struct Wire {
    frames: Vec<Frame>,
    // the same frames, each with its seat and its tag: a list of which there is nothing at run time
    history: Log<CarriedFrame, ()>,
}

impl Model for Wire {
    ghost use Rattle.std.specs.Prelude.{◌≡◌, ◌-◌, map};
    ghost use Rattle.std.specs.Vec.{vec_capacity, vec_len};
    ghost use Rattle.bus_ledger.specs.BusValue.{WireBook};

    ghost Value = { WireBook };

    ghost view = { λ w. record { carried = map (λ c. c.0) w.history.items; spare = vec_capacity w.frames - vec_len w.frames } };

    ghost invariant = { λ w. w.frames.items ≡ map (λ c. c.frame) (map (λ c. c.0) w.history.items) };
}

impl Wire {
    /// No frame was carried yet.
    pub(crate) fn new(alloc: Global) -> Wire
        ensures { result.carried ≡ [] }
    {
        Wire {
            frames: Vec::new(alloc),
            history: Log::new(),
        }
    }

    /// How many frames were carried.
    #[inline]
    pub(crate) fn len(&self) -> usize
        ensures { result ≡ length self.now.carried }
    {
        self.frames.len()
    }

    /// The i-th frame carried, counted from 0.
    #[inline]
    pub(crate) fn get(&self, i: usize) -> Option<Frame>
        ensures { result ≡ option_map (λ c. c.frame) (slice_get self.now.carried i) }
    {
        let frame = self.frames.get(i)?;
        Some(*frame)
    }

    /// Makes room for one frame more.
    #[inline]
    pub(crate) fn reserve(&mut self) -> Result<(), AllocError>
        ensures carried { self.new.carried ≡ self.old.carried }
        ensures room { OnOk result (0 < self.new.spare) }
    {
        self.frames.reserve(1)
    }

    /// Puts a frame at the end, for which there is room.
    #[inline]
    pub(crate) fn push_reserved(&mut self, carried: &CarriedFrame)
        requires { 0 < self.old.spare }
        ensures { self.new.carried ≡ self.old.carried ++ carried.now ∷ [] }
    {
        self.frames.push_reserved(carried.frame);
        self.history = self.history.and(carried, &());
    }
}

// no memory is taken for a frame's seat and tag
const _: () = prove!(size_of::<Frame>() == 16);

const _: () = prove!(size_of::<Wire>() == size_of::<Vec<Frame>>());
