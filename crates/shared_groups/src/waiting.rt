ghost use Rattle.std.specs.Prelude.{◌≡◌};
ghost use Rattle.can_frame.specs.Fields.{source_of};
ghost use Rattle.shared_groups.specs.Sharing.{frame_waiting};

use can_frame::{Frame, Pgn};
use requests::Request;
use transport::{Control, control_frame};

/// How many frames may wait to be written.
pub const MOST_WAITING: usize = 64;

/// What waits to be written, to an address.
#[derive(Clone, Copy)]
pub enum Waiting {
    /// So many packets of a session are granted, from this one on.
    Grant {
        granted: u8,
        next: u8,
        pgn: Pgn,
        to: u8,
    },
    /// The message of a session is whole.
    End {
        size: u16,
        packets: u8,
        pgn: Pgn,
        to: u8,
    },
    /// A session is aborted.
    Abort {
        reason: u8,
        pgn: Pgn,
        to: u8,
    },
    /// A request for a group, to an address or to all (255).
    Request {
        pgn: Pgn,
        to: u8,
    },
}

impl Waiting {
    /// Its frame from an address.
    #[tactic(auto, using(crate::proofs::Sources::frame_from))]
    pub(crate) fn frame(self, own: u8) -> Frame
        ensures frame { result ≡ frame_waiting own self }
        ensures source { source_of result.id ≡ own }
    {
        match self {
            Waiting::Grant {
                granted,
                next,
                pgn,
                to,
            } => control_frame(Control::Cts { granted, next, pgn }, own, to),
            Waiting::End {
                size,
                packets,
                pgn,
                to,
            } => control_frame(Control::EndAck { size, packets, pgn }, own, to),
            Waiting::Abort { reason, pgn, to } => {
                control_frame(Control::Abort { reason, pgn }, own, to)
            }
            Waiting::Request { pgn, to } => {
                let request = Request {
                    pgn,
                    dest: to,
                    source: own,
                };
                request.frame()
            }
        }
    }
}
