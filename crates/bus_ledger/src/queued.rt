ghost use Rattle.std.specs.Prelude.{◌≡◌, ◌<◌, ◌≤◌, ◌^◌, ◌++◌, List, drop, length, slice_get};
ghost use Rattle.std.specs.List.{All};
ghost use Rattle.std.specs.VecDeque.{deque_capacity, deque_len};
ghost use Rattle.bus_ledger.specs.Changes.{kept, run_frames};
ghost use Rattle.bus_ledger.specs.Places.{IsFilled, IsFront, frames_at, frames_in, is_session_place};
ghost use Rattle.bus_ledger.specs.declared.traffic.Which.TheVariants.{Session};

use crate::traffic::{QueuedFrame, Tag, Which};
use std::collections::VecDeque;
use transport::Run;

/// The front of a queue in which no frame waits: no identifier's number.
pub(crate) const NO_FRONT: u32 = u32::MAX;

/// What one place of a queue holds.
#[derive(Drop)]
pub(crate) enum Queued {
    /// One frame.
    One(QueuedFrame),
    /// Some parts of a message, one after another; a frame of them is made when it is looked at.
    Many {
        run: Run,
        message: u32,
        session: bool,
    },
}

impl Queued {
    /// The first of its frames.
    pub(crate) fn first(&self) -> Option<QueuedFrame>
        ensures { result ≡ slice_get (frames_at self.now) 0 }
    {
        match self {
            Queued::One(queued) => Some(*queued),
            Queued::Many {
                run,
                message,
                session,
            } => first_of(run, *message, *session),
        }
    }

    /// The number of the identifier of the first of its frames, which is not made for it.
    #[tactic(auto, using(crate::proofs::Queues::run_front, crate::proofs::Queues::no_run_front))]
    fn front(&self) -> u32
        ensures { IsFront result (frames_at self.now) }
    {
        match self {
            Queued::One(queued) => queued.frame.id().number(),
            Queued::Many { run, .. } => match run.id() {
                Some(id) => id.number(),
                None => NO_FRONT,
            },
        }
    }

    /// How many frames it holds.
    pub(crate) fn left(&self) -> u32
        ensures { result ≡ length (frames_at self.now) }
    {
        match self {
            Queued::One(_) => 1,
            Queued::Many { run, .. } => u32::from(run.left()),
        }
    }

    /// Whether its frames are parts of a session.
    pub(crate) fn is_in_session(&self) -> bool
        ensures { result ≡ is_session_place self.now }
    {
        match self {
            Queued::One(queued) => queued.is_in_session(),
            Queued::Many { session, .. } => *session,
        }
    }

    /// Takes the first of its frames; where it was the only one, the place is to be given up.
    fn take(&mut self) -> Option<QueuedFrame>
        ensures first { result ≡ slice_get (frames_at self.old) 0 }
        ensures rest { 1 < length (frames_at self.old) → frames_at self.new ≡ drop 1 (frames_at self.old) }
    {
        match self {
            Queued::One(queued) => Some(*queued),
            Queued::Many {
                run,
                message,
                session,
            } => take_first_of(run, *message, *session),
        }
    }
}

/// The first frame of a run, with its tag.
fn first_of(run: &Run, message: u32, session: bool) -> Option<QueuedFrame>
    ensures { result ≡ slice_get (run_frames message session run.now) 0 }
{
    let frame = run.peek()?;
    let part = run.part()?;
    Some(QueuedFrame {
        frame,
        tag: Some(Tag {
            message,
            part,
            session,
        }),
    })
}

/// Takes the first frame of a run, with its tag.
fn take_first_of(run: &mut Run, message: u32, session: bool) -> Option<QueuedFrame>
    ensures first { result ≡ slice_get (run_frames message session run.old) 0 }
    ensures rest { run_frames message session run.new ≡ drop 1 (run_frames message session run.old) }
{
    let part = run.part()?;
    let frame = run.next_frame()?;
    Some(QueuedFrame {
        frame,
        tag: Some(Tag {
            message,
            part,
            session,
        }),
    })
}

/// The number of the identifier of a queue's first frame, or that there is none.
pub(crate) fn front_of(queue: &VecDeque<Queued>) -> u32
    requires { All IsFilled queue.now.items }
    ensures { IsFront result (frames_in queue.now.items) }
{
    match queue.front() {
        Some(place) => place.front(),
        None => NO_FRONT,
    }
}

/// The front of a queue once this place stands at its end.
pub(crate) fn front_before(front: u32, place: &Queued) -> u32
    ensures { (frames : List QueuedFrame) → IsFront front frames → IsFront result (frames ++ frames_at place.now) }
{
    if front == NO_FRONT {
        place.front()
    } else {
        front
    }
}

/// How many frames a queue holds.
pub(crate) fn count_frames(queue: &VecDeque<Queued>) -> u32
    requires { length (frames_in queue.now.items) < 2 ^ 32 }
    ensures { result ≡ length (frames_in queue.now.items) }
{
    let mut count = 0;
    for queued in queue.iter() {
        count += queued.left();
    }
    count
}

/// Takes the first frame of a queue, if there is one.
pub(crate) fn take_first(queue: &mut VecDeque<Queued>) -> Option<QueuedFrame>
    requires { All IsFilled queue.old.items }
    ensures first { result ≡ slice_get (frames_in queue.old.items) 0 }
    ensures frames { frames_in queue.new.items ≡ drop 1 (frames_in queue.old.items) }
    ensures filled { All IsFilled queue.new.items }
    ensures places { deque_len queue.new ≤ deque_len queue.old }
    ensures capacity { deque_capacity queue.new ≡ deque_capacity queue.old }
{
    if queue.is_empty() {
        return None;
    }
    let first = &mut queue[0];
    let is_last = first.left() == 1;
    let taken = first.take();
    if is_last {
        give_up_first(queue);
    }
    taken
}

/// Gives up the first place of a queue.
///
/// Where it is the only one it is taken from the back: then the queue's start stays where it is, and the next place filled is the
/// same memory again, and not each time the next of a ring that is as large as the queue ever was.
fn give_up_first(queue: &mut VecDeque<Queued>)
    ensures rest { queue.new.items ≡ drop 1 queue.old.items }
    ensures places { deque_len queue.new ≤ deque_len queue.old }
    ensures capacity { deque_capacity queue.new ≡ deque_capacity queue.old }
{
    if queue.len() == 1 {
        let _ = queue.pop_back();
    } else {
        let _ = queue.pop_front();
    }
}

/// Keeps the frames of a queue that are not withdrawn.
pub(crate) fn keep(queue: &mut VecDeque<Queued>, which: Which)
    requires { All IsFilled queue.old.items }
    ensures frames { frames_in queue.new.items ≡ kept which (frames_in queue.old.items) }
    ensures filled { All IsFilled queue.new.items }
    ensures places { deque_len queue.new ≤ deque_len queue.old }
    ensures capacity { deque_capacity queue.new ≡ deque_capacity queue.old }
{
    match which {
        Which::Session => keep_single(queue),
        Which::All => queue.clear(),
    }
}

/// Takes the frames that are part of a session out of a queue.
fn keep_single(queue: &mut VecDeque<Queued>)
    requires { All IsFilled queue.old.items }
    ensures frames { frames_in queue.new.items ≡ kept Session (frames_in queue.old.items) }
    ensures filled { All IsFilled queue.new.items }
    ensures places { deque_len queue.new ≤ deque_len queue.old }
    ensures capacity { deque_capacity queue.new ≡ deque_capacity queue.old }
{
    queue.retain(|queued| !queued.is_in_session());
}
