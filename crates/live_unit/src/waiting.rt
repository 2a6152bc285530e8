ghost use Rattle.std.specs.Prelude.{◌≡◌, ◌+◌, ◌<◌, ◌≤◌, ◌^◌, ◌==◌, ◌++◌, ◌↔◌, IfOk, IsTrue, Some, drop, length, map, slice_get};
ghost use Rattle.std.specs.List.{All};
ghost use Rattle.std.specs.VecDeque.{deque_capacity, deque_len};
ghost use Rattle.transport.specs.Runs.{NumberedFrame};
ghost use Rattle.node_core.specs.Pieces.{outs_of, part_at, run_out};
ghost use Rattle.live_unit.specs.Queue.{HoldsSome, empty_lane, lengthened, outs_waiting};

use node_core::{Out, Part, Piece};
use std::alloc::{AllocError, Global};
use std::collections::VecDeque;
use std::marker::Model;
use transport::Run;

/// How many pieces may wait in one lane.
pub(crate) const ROOM: usize = 64;

/// What waits in one lane.
#[derive(Drop)]
pub(crate) struct Waiting {
    pieces: VecDeque<Piece>,
    frames: u64,
}

impl Model for Waiting {
    ghost use Rattle.std.specs.Prelude.{◌≡◌, ◌≤◌, length};
    ghost use Rattle.std.specs.List.{All};
    ghost use Rattle.std.specs.VecDeque.{deque_capacity, deque_len};
    ghost use Rattle.live_unit.specs.Queue.{HoldsSome, LaneValue, outs_waiting};
    ghost use Rattle.live_unit.specs.declared.waiting.TheConstants.{ROOM};

    ghost Value = { LaneValue };

    ghost view = { λ w. record { outs = outs_waiting w.pieces.items; pieces = deque_len w.pieces } };

    ghost invariant = { λ w. All HoldsSome w.pieces.items × (ROOM ≤ deque_capacity w.pieces) × (deque_len w.pieces ≤ ROOM) × (w.frames ≡ length (outs_waiting w.pieces.items)) };
}

impl Waiting {
    /// An empty lane, with room for as many pieces as may wait.
    pub(crate) fn new(alloc: Global) -> Result<Waiting, AllocError>
        ensures { IfOk result (λ w. w ≡ empty_lane) }
    {
        let pieces = VecDeque::with_capacity(alloc, ROOM)?;
        Ok(Waiting { pieces, frames: 0 })
    }

    /// Whether no piece more may wait.
    pub(crate) fn is_full(&self) -> bool
        ensures full { IsTrue result ↔ (ROOM ≤ self.now.pieces) }
        ensures bounded { self.now.pieces ≤ ROOM }
    {
        self.pieces.len() >= ROOM
    }

    /// How many frames wait.
    pub(crate) fn frames(&self) -> u64
        ensures { result ≡ length self.now.outs }
    {
        self.frames
    }

    /// Puts a piece at the end.
    #[tactic(auto, using(crate::proofs::Lanes::outs_push, crate::proofs::Lanes::length_push))]
    pub(crate) fn put(&mut self, piece: Piece)
        requires some { HoldsSome piece }
        requires room { self.old.pieces < ROOM }
        requires few { length self.old.outs + length (outs_of piece) < 2 ^ 64 }
        ensures { self.new ≡ lengthened (outs_of piece) self.old }
    {
        self.frames += count(&piece);
        self.pieces.push_back_reserved(piece);
    }

    /// Gives up all that waits, and says how many frames.
    pub(crate) fn clear(&mut self) -> u64
        ensures lane { self.new ≡ empty_lane }
        ensures count { result ≡ length self.old.outs }
    {
        let count = self.frames;
        self.pieces.clear();
        self.frames = 0;
        count
    }

    /// The first frame.
    pub(crate) fn first(&self) -> Option<Out>
        ensures { result ≡ slice_get self.now.outs 0 }
    {
        first_of(self.pieces.front()?)
    }

    /// Takes the first frame.
    pub(crate) fn take(&mut self) -> Out
        requires { 0 < length self.old.outs }
        ensures first { slice_get self.old.outs 0 ≡ Some result }
        ensures rest { self.new.outs ≡ drop 1 self.old.outs }
        ensures fewer { self.new.pieces ≤ self.old.pieces }
    {
        let Some(taken) = take_first(&mut self.pieces) else {
            unreachable!()
        };
        self.frames -= 1;
        taken
    }
}

/// How many frames a piece has.
pub(crate) fn count(piece: &Piece) -> u64
    ensures { result ≡ length (outs_of piece.now) }
{
    match piece {
        Piece::One(_) => 1,
        Piece::Many { run, .. } => u64::from(run.left()),
    }
}

/// The first frame of a piece.
fn first_of(piece: &Piece) -> Option<Out>
    ensures { result ≡ slice_get (outs_of piece.now) 0 }
{
    match piece {
        Piece::One(out) => Some(*out),
        Piece::Many { run, part } => first_of_run(run, *part),
    }
}

/// Takes the first frame of a piece; where it was the only one, the piece is to be given up.
fn take_from(piece: &mut Piece) -> Option<Out>
    ensures first { result ≡ slice_get (outs_of piece.old) 0 }
    ensures rest { 1 < length (outs_of piece.old) → outs_of piece.new ≡ drop 1 (outs_of piece.old) }
{
    match piece {
        Piece::One(out) => Some(*out),
        Piece::Many { run, part } => take_from_run(run, *part),
    }
}

/// The first frame of a run, marked.
fn first_of_run(run: &Run, mark: Part) -> Option<Out>
    ensures { result ≡ slice_get (map (run_out mark) run.now) 0 }
{
    let number = run.part()?;
    let frame = run.peek()?;
    Some(Out {
        frame,
        part: Some(part_of(mark, number)),
    })
}

/// Takes the first frame of a run, marked.
fn take_from_run(run: &mut Run, mark: Part) -> Option<Out>
    ensures first { result ≡ slice_get (map (run_out mark) run.old) 0 }
    ensures rest { map (run_out mark) run.new ≡ drop 1 (map (run_out mark) run.old) }
{
    let number = run.part()?;
    let frame = run.next_frame()?;
    Some(Out {
        frame,
        part: Some(part_of(mark, number)),
    })
}

/// The part of this number of the message that a mark is of.
fn part_of(mark: Part, number: u16) -> Part
    ensures { result ≡ part_at mark number }
{
    match mark {
        Part::Begun(_) => Part::Begun(number),
        Part::Session(_) => Part::Session(number),
    }
}

/// Takes the first frame of some pieces, if there is one.
fn take_first(pieces: &mut VecDeque<Piece>) -> Option<Out>
    requires { All HoldsSome pieces.old.items }
    ensures first { result ≡ slice_get (outs_waiting pieces.old.items) 0 }
    ensures outs { outs_waiting pieces.new.items ≡ drop 1 (outs_waiting pieces.old.items) }
    ensures some { All HoldsSome pieces.new.items }
    ensures fewer { deque_len pieces.new ≤ deque_len pieces.old }
    ensures capacity { deque_capacity pieces.new ≡ deque_capacity pieces.old }
{
    if pieces.is_empty() {
        return None;
    }
    let first = &mut pieces[0];
    let is_last = count(first) == 1;
    let taken = take_from(first);
    if is_last {
        give_up_first(pieces);
    }
    taken
}

/// Gives up the first of some pieces.
fn give_up_first(pieces: &mut VecDeque<Piece>)
    ensures rest { pieces.new.items ≡ drop 1 pieces.old.items }
    ensures fewer { deque_len pieces.new ≤ deque_len pieces.old }
    ensures capacity { deque_capacity pieces.new ≡ deque_capacity pieces.old }
{
    let _ = pieces.pop_front();
}
