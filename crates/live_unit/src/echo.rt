ghost use Rattle.std.specs.Prelude.{◌≡◌, ◌≢◌, ◌+◌, ◌<◌, ℕ, [], drop, slice_get, IfNone, IfOk, IfSome, Some, false, true};
ghost use Rattle.std.specs.VecDeque.{deque_capacity, deque_len};
ghost use Rattle.live_unit.specs.Echoes.{HearsOwn, nothing_written, with_written};

use can_frame::Frame;
use std::alloc::{AllocError, Global};
use std::collections::VecDeque;
use std::marker::Model;

/// How many frames are kept that were written and have not come back.
pub const MOST_WRITTEN: usize = 64;

/// The frames that one who takes part in a bus wrote, a unit or a station, and that have not come back to it: the newest 64.
#[derive(Drop)]
pub struct Echo {
    written: VecDeque<Frame>,
    comes_back: bool,
}

impl Model for Echo {
    ghost use Rattle.std.specs.Prelude.{◌≤◌};
    ghost use Rattle.std.specs.VecDeque.{deque_capacity, deque_len};
    ghost use Rattle.live_unit.specs.Echoes.{EchoValue};
    ghost use Rattle.live_unit.specs.declared.echo.TheConstants.{MOST_WRITTEN};

    ghost Value = { EchoValue };

    ghost view = { λ e. record { written = e.written.items; comes_back = e.comes_back } };

    ghost invariant = { λ e. (MOST_WRITTEN ≤ deque_capacity e.written) × (deque_len e.written ≤ MOST_WRITTEN) };
}

impl Echo {
    /// Nothing was written.
    pub fn new(alloc: Global) -> Result<Echo, AllocError>
        ensures { IfOk result (λ e. e ≡ nothing_written) }
    {
        Ok(Echo {
            written: VecDeque::with_capacity(alloc, MOST_WRITTEN)?,
            comes_back: false,
        })
    }

    /// A frame was written. Where so many have not come back that the oldest is forgotten, nobody is judged until one does.
    pub fn write(&mut self, frame: Frame)
        ensures { self.new ≡ with_written frame self.old }
    {
        if self.written.len() >= MOST_WRITTEN {
            let _ = self.written.pop_front();
            self.comes_back = false;
        }
        self.written.push_back_reserved(frame);
    }

    /// A frame from its own address was heard; whether it is somebody else's. That is said only once one came back.
    pub fn hear(&mut self, frame: &Frame) -> bool
        ensures { HearsOwn frame.now result self.old self.new }
    {
        match find(&self.written, frame) {
            Some(place) => {
                drop_first(&mut self.written, place + 1);
                self.comes_back = true;
                false
            }
            None => self.comes_back,
        }
    }
}

/// Where a frame stands, if it does.
fn find(written: &VecDeque<Frame>, frame: &Frame) -> Option<usize>
    ensures found { IfSome result (λ k. (k < deque_len written.now) × (slice_get written.now.items k ≡ Some frame.now)) }
    ensures none { IfNone result ((k : ℕ) → k < deque_len written.now → slice_get written.now.items k ≢ Some frame.now) }
{
    for place in 0..written.len() {
        if is_same(&written[place], frame) {
            return Some(place);
        }
    }
    None
}

/// Whether two frames are the same.
fn is_same(one: &Frame, other: &Frame) -> bool
    ensures same { result ≡ true → one.now ≡ other.now }
    ensures other { result ≡ false → one.now ≢ other.now }
{
    one == other
}

/// Drops so many of the first frames.
fn drop_first(written: &mut VecDeque<Frame>, count: usize)
    ensures rest { written.new.items ≡ drop count written.old.items }
    ensures capacity { deque_capacity written.new ≡ deque_capacity written.old }
{
    for _ in 0..count {
        let _ = written.pop_front();
    }
}
