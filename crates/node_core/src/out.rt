ghost use Rattle.std.specs.Prelude.{◌≡◌, ◌<◌, [], ◌∷◌, ◌++◌, length, map, IfNone, IfSome, MatchOption, Some, slice_get, option_map};
ghost use Rattle.transport.specs.Runs.{part_in};
ghost use Rattle.node_core.specs.Pieces.{number_in, outs_of, run_out};

use can_frame::Frame;
use std::marker::Model;
use transport::Run;

/// Which part of a message a frame is. Part 0 is the first frame, part j the packet with number j.
#[derive(Clone, Copy, Debug, PartialEq, Eq)]
pub enum Part {
    /// A part of the message that begins with this call.
    Begun(u16),
    /// A further part of the open session's message.
    Session(u16),
}

/// A frame that a unit wants carried.
///
/// It may be a part of a message.
#[derive(Clone, Copy)]
pub struct Out {
    /// The frame.
    pub frame: Frame,
    /// The part of a message.
    pub part: Option<Part>,
}

/// One frame that a unit wants carried, or parts of one message in a row.
#[derive(Drop)]
pub enum Piece {
    /// One frame.
    One(Out),
    /// The parts of a run. `part` is that of its first frame.
    Many { run: Run, part: Part },
}

/// Frames that a unit wants carried, in order: none, or one piece.
///
/// A frame of a run is made when it is looked at.
#[derive(Drop)]
pub struct Outs {
    piece: Option<Piece>,
}

impl Model for Outs {
    ghost use Rattle.std.specs.Prelude.{List, IfSome};
    ghost use Rattle.node_core.specs.declared.out.Out.{Out};
    ghost use Rattle.node_core.specs.Pieces.{IsMarked, outs_in};

    ghost Value = { List Out };

    ghost view = { λ o. outs_in o.piece };

    ghost invariant = { λ o. IfSome o.piece IsMarked };
}

impl Outs {
    ghost use Rattle.node_core.specs.Deed.{plain};

    /// No frames.
    pub fn new() -> Outs
        ensures { result ≡ [] }
    {
        Outs { piece: None }
    }

    /// One frame that is no part of a message. Takes no memory.
    pub fn plain(frame: Frame) -> Outs
        ensures { result ≡ plain frame ∷ [] }
    {
        Outs::one(Out { frame, part: None })
    }

    /// One frame. Takes no memory.
    pub fn one(out: Out) -> Outs
        ensures { result ≡ out ∷ [] }
    {
        Outs {
            piece: Some(Piece::One(out)),
        }
    }

    /// The frames that are left of a run. Takes no memory.
    ///
    /// `part` is that of the first of them.
    pub fn run(run: Run, part: Part) -> Outs
        requires { option_map part_in (slice_get run 0) ≡ Some (number_in part) }
        ensures { result ≡ map (run_out part) run }
    {
        Outs {
            piece: Some(Piece::Many { run, part }),
        }
    }

    /// Takes the piece out, which has at least one frame. None is left.
    pub fn take_piece(&mut self) -> Option<Piece>
        ensures pieces { MatchOption result (self.old ≡ []) (λ p. self.old ≡ outs_of p ++ self.new) }
        ensures whole { IfSome result (λ p. (self.old ≡ outs_of p) × (self.new ≡ [])) }
        ensures some { IfSome result (λ p. 0 < length (outs_of p)) }
        ensures none { IfNone result (self.new ≡ []) }
    {
        self.piece.take()
    }
}
