ghost use Rattle.std.specs.Prelude.{◌≡◌, ◌≢◌, ◌⊎◌, ◌+◌, ◌<◌, ◌≤◌, ◌^◌, ◌↔◌, [], IfOk, IfSome, IsTrue, None, Some, false, length, slice_get, nat_lt};
ghost use Rattle.std.specs.List.{All};
ghost use Rattle.can_frame.specs.Fields.{source_of};
ghost use Rattle.node_core.specs.Pieces.{outs_of};
ghost use Rattle.node_core.specs.declared.heard.Withdraw.TheVariants as withdraw;
ghost use Rattle.live_unit.specs.Queue.{HasFreeLanes, HoldsSome, IsSentFrom, TakesFirst, claiming_anew, empty_queue, frames_waiting, lane_by, is_claim_frame, lane_of, put_into, putting, after_heard, waits, after_withdrawing};
ghost use Rattle.live_unit.specs.Queue as spec;

use crate::waiting::{Waiting, count};
use can_frame::{Frame, GLOBAL_ADDRESS, Pgn};
use node_core::{Begun, Heard, Out, Outs, Part, Piece, Withdraw};
use std::alloc::{AllocError, Global};
use std::marker::Model;

/// The most frames that are ever put.
pub const MOST_PUT: u64 = 1 << 63;

/// Where a frame waits.
#[derive(Clone, Copy, PartialEq, Eq)]
pub enum Lane {
    /// Claims of an address, and that none can be claimed.
    Claims,
    /// Acknowledgments, aborts, and what else has a single frame.
    Singles,
    /// The frames of a session.
    Session,
    /// Messages to all.
    Messages,
}

/// What became of the frames that a unit put: `put` is always the sum of the other three.
#[derive(Clone, Copy, PartialEq, Eq)]
pub struct QueueCounts {
    pub put: u64,
    pub written: u64,
    pub withdrawn: u64,
    pub waiting: u64,
}

/// What waits to be written, all of it from one address, and counts of what was.
#[derive(Drop)]
pub struct Queue {
    source: u8,
    claims: Waiting,
    singles: Waiting,
    session: Waiting,
    messages: Waiting,
    put: u64,
    written: u64,
    withdrawn: u64,
}

impl Model for Queue {
    ghost use Rattle.live_unit.specs.Queue.{AllSentFrom, BalancesOut, QueueValue};

    ghost Value = { QueueValue };

    ghost view = { λ q. record { source = q.source; claims = q.claims; singles = q.singles; session = q.session; messages = q.messages; put = q.put; written = q.written; withdrawn = q.withdrawn } };

    ghost invariant = { λ q. BalancesOut (record { source = q.source; claims = q.claims; singles = q.singles; session = q.session; messages = q.messages; put = q.put; written = q.written; withdrawn = q.withdrawn })
        × AllSentFrom q.source (record { source = q.source; claims = q.claims; singles = q.singles; session = q.session; messages = q.messages; put = q.put; written = q.written; withdrawn = q.withdrawn }) };
}

impl Queue {
    ghost use Rattle.live_unit.specs.Queue.{BalancesOut};

    /// A queue in which nothing waits, with room for what may; what will wait is from this address.
    pub fn new(alloc: Global, source: u8) -> Result<Queue, AllocError>
        ensures { IfOk result (λ q. q ≡ empty_queue source) }
    {
        Ok(Queue {
            source,
            claims: Waiting::new(alloc)?,
            singles: Waiting::new(alloc)?,
            session: Waiting::new(alloc)?,
            messages: Waiting::new(alloc)?,
            put: 0,
            written: 0,
            withdrawn: 0,
        })
    }

    /// What became of the frames that were put.
    pub fn counts(&self) -> QueueCounts
        ensures put { result.put ≡ self.now.put }
        ensures written { result.written ≡ self.now.written }
        ensures withdrawn { result.withdrawn ≡ self.now.withdrawn }
        ensures waiting { result.waiting ≡ frames_waiting self.now }
        ensures balanced { result.put ≡ result.written + result.withdrawn + result.waiting }
    {
        QueueCounts {
            put: self.put,
            written: self.written,
            withdrawn: self.withdrawn,
            waiting: self.put - self.written - self.withdrawn,
        }
    }

    /// Whether fewer frames were put than are ever put.
    pub fn may_put(&self) -> bool
        ensures { IsTrue result ↔ (self.now.put < MOST_PUT) }
    {
        self.put < MOST_PUT
    }

    /// Whether a piece more may wait in each lane.
    pub fn has_room(&self) -> bool
        ensures { IsTrue result ↔ HasFreeLanes self.now }
    {
        !self.claims.is_full()
            && !self.singles.is_full()
            && !self.session.is_full()
            && !self.messages.is_full()
    }

    /// Whether a frame waits in the lane.
    pub fn waits(&self, lane: Lane) -> bool
        ensures { result ≡ waits (lane_of lane self.now) }
    {
        self.frames(lane) > 0
    }

    /// The first frame of the lane.
    pub(crate) fn first(&self, lane: Lane) -> Option<Out>
        ensures { result ≡ slice_get (lane_of lane self.now).outs 0 }
    {
        self.lane(lane).first()
    }

    /// How many frames wait in the lane.
    pub(crate) fn frames(&self, lane: Lane) -> u64
        ensures { result ≡ length (lane_of lane self.now).outs }
    {
        self.lane(lane).frames()
    }

    fn lane(&self, lane: Lane) -> &Waiting
        ensures { result.now ≡ lane_of lane self.now }
    {
        match lane {
            Lane::Claims => &self.claims,
            Lane::Singles => &self.singles,
            Lane::Session => &self.session,
            Lane::Messages => &self.messages,
        }
    }

    /// Takes the first frame of the lane, in which one waits; it counts as written.
    pub fn take(&mut self, lane: Lane) -> Out
        requires { 0 < length (lane_of lane self.old).outs }
        ensures first { slice_get (lane_of lane self.old).outs 0 ≡ Some result }
        ensures takes { TakesFirst lane self.old self.new }
        ensures from { IsSentFrom self.old.source result }
    {
        match lane {
            Lane::Claims => self.take_claim(),
            Lane::Singles => self.take_single(),
            Lane::Session => self.take_of_session(),
            Lane::Messages => self.take_of_messages(),
        }
    }

    /// Takes the first claim.
    #[tactic(auto, using(crate::proofs::Lanes::sent_from_rest, crate::proofs::Lanes::sent_from_first, crate::proofs::Lanes::one_fewer))]
    fn take_claim(&mut self) -> Out
        requires { 0 < length self.old.claims.outs }
        ensures first { slice_get self.old.claims.outs 0 ≡ Some result }
        ensures takes { TakesFirst Lane.Claims self.old self.new }
        ensures from { IsSentFrom self.old.source result }
    {
        let taken = self.claims.take();
        self.written += 1;
        taken
    }

    /// Takes the first single frame.
    #[tactic(auto, using(crate::proofs::Lanes::sent_from_rest, crate::proofs::Lanes::sent_from_first, crate::proofs::Lanes::one_fewer))]
    fn take_single(&mut self) -> Out
        requires { 0 < length self.old.singles.outs }
        ensures first { slice_get self.old.singles.outs 0 ≡ Some result }
        ensures takes { TakesFirst Lane.Singles self.old self.new }
        ensures from { IsSentFrom self.old.source result }
    {
        let taken = self.singles.take();
        self.written += 1;
        taken
    }

    /// Takes the first frame of the session.
    #[tactic(auto, using(crate::proofs::Lanes::sent_from_rest, crate::proofs::Lanes::sent_from_first, crate::proofs::Lanes::one_fewer))]
    fn take_of_session(&mut self) -> Out
        requires { 0 < length self.old.session.outs }
        ensures first { slice_get self.old.session.outs 0 ≡ Some result }
        ensures takes { TakesFirst Lane.Session self.old self.new }
        ensures from { IsSentFrom self.old.source result }
    {
        let taken = self.session.take();
        self.written += 1;
        taken
    }

    /// Takes the first frame of the messages to all.
    #[tactic(auto, using(crate::proofs::Lanes::sent_from_rest, crate::proofs::Lanes::sent_from_first, crate::proofs::Lanes::one_fewer))]
    fn take_of_messages(&mut self) -> Out
        requires { 0 < length self.old.messages.outs }
        ensures first { slice_get self.old.messages.outs 0 ≡ Some result }
        ensures takes { TakesFirst Lane.Messages self.old self.new }
        ensures from { IsSentFrom self.old.source result }
    {
        let taken = self.messages.take();
        self.written += 1;
        taken
    }

    /// Withdraws and puts what a node withdraws and puts; what waits then is from `source`.
    pub(crate) fn take_in(&mut self, heard: Heard, source: u8)
        requires source { (heard.withdraw ≡ withdraw.All) ⊎ (source ≡ self.old.source) }
        requires room { (heard.withdraw ≡ withdraw.All) ⊎ (HasFreeLanes self.old ⊎ (heard.put ≡ [])) }
        requires few { self.old.put + length heard.put < 2 ^ 64 }
        requires from { All (IsSentFrom source) heard.put }
        ensures { self.new ≡ after_heard heard source self.old }
    {
        let Heard {
            withdraw,
            put,
            begun,
            answer: _,
        } = heard;
        let to_all = goes_to_all(begun);
        self.withdraw(withdraw, source);
        self.put(put, to_all);
    }

    /// Puts a claim in the place of those that wait; `claim` is from the address from which all that waits is.
    pub(crate) fn claim_anew(&mut self, claim: Frame)
        requires few { self.old.put < MOST_PUT }
        requires from { source_of claim.id ≡ self.old.source }
        ensures { self.new ≡ claiming_anew claim self.old }
    {
        self.withdrawn += self.claims.clear();
        self.claims.put(Piece::One(Out {
            frame: claim,
            part: None,
        }));
        self.put += 1;
    }

    /// Withdraws what waits of a session, or all, or nothing; where it is all, what will wait is from `source`.
    pub fn withdraw(&mut self, which: Withdraw, source: u8)
        ensures { self.new ≡ after_withdrawing which source self.old }
    {
        match which {
            Withdraw::Keep => {}
            Withdraw::Session => self.withdrawn += self.session.clear(),
            Withdraw::All => {
                let claims = self.claims.clear();
                let singles = self.singles.clear();
                let session = self.session.clear();
                let messages = self.messages.clear();
                self.withdrawn += claims + singles + session + messages;
                self.source = source;
            }
        }
    }

    /// Puts frames at the end of their lane; `to_all` is whether a message that begins with them goes to all.
    #[tactic(auto, using(crate::proofs::Lanes::putting_piece))]
    pub fn put(&mut self, mut put: Outs, to_all: bool)
        requires room { HasFreeLanes self.old ⊎ (put ≡ []) }
        requires few { self.old.put + length put < 2 ^ 64 }
        requires from { All (IsSentFrom self.old.source) put }
        ensures { self.new ≡ putting to_all put self.old }
    {
        if let Some(piece) = put.take_piece() {
            self.put_piece(piece, to_all);
        }
    }

    /// Puts a piece at the end of its lane.
    fn put_piece(&mut self, piece: Piece, to_all: bool)
        requires some { HoldsSome piece }
        requires room { HasFreeLanes self.old }
        requires few { self.old.put + length (outs_of piece) < 2 ^ 64 }
        requires from { All (IsSentFrom self.old.source) (outs_of piece) }
        ensures { self.new ≡ put_into (spec.lane_for_piece to_all piece) (outs_of piece) self.old }
    {
        let count = count(&piece);
        match lane_for_piece(to_all, &piece) {
            Lane::Claims => self.claims.put(piece),
            Lane::Singles => self.singles.put(piece),
            Lane::Session => self.session.put(piece),
            Lane::Messages => self.messages.put(piece),
        }
        self.put += count;
    }
}

/// Whether a message that begins goes to all.
fn goes_to_all(begun: Option<Begun>) -> bool
    ensures { result ≡ spec.goes_to_all begun }
{
    match begun {
        Some(begun) => begun.dest == GLOBAL_ADDRESS,
        None => false,
    }
}

/// The lane of a piece; `to_all` is whether a message that begins with it goes to all.
fn lane_for_piece(to_all: bool, piece: &Piece) -> Lane
    ensures { result ≡ spec.lane_for_piece to_all piece.now }
{
    let part = match piece {
        Piece::One(Out { frame, part: None }) => return lane_of_plain(frame),
        Piece::One(
            Out {
                part: Some(part),
                ..
            },
        ) => *part,
        Piece::Many { part, .. } => *part,
    };
    match part {
        Part::Begun(_) if to_all => Lane::Messages,
        Part::Begun(_) | Part::Session(_) => Lane::Session,
    }
}

/// The lane of a frame that is no part of a message.
fn lane_of_plain(frame: &Frame) -> Lane
    ensures { result ≡ lane_by false (is_claim_frame frame.now) None }
{
    if frame.id().pgn() == Pgn::ADDRESS_CLAIMED {
        Lane::Claims
    } else {
        Lane::Singles
    }
}
