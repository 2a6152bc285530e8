ghost use Rattle.std.specs.Prelude.{◌≡◌, ◌≤◌, length};
ghost use Rattle.node_core.specs.Deed.{EndsSession};
ghost use Rattle.parameter_group.specs.Group.{group_of};

use crate::heard::{Answer, Heard, Withdraw};
use crate::node::Node;
use crate::out::Outs;
use can_frame::Frame;
use parameter_group::ParameterGroup;
use transport::{Control, control_frame};

/// The reason of an abort for want of an answer (SAE J1939-21, connection abort).
const TIMED_OUT: u8 = 3;

impl Node {
    ghost use Rattle.node_core.specs.Deed.{after_deed};
    ghost use Rattle.node_core.specs.GivingUp.{given_up, is_held_open, put_at_parting, withdrawn_at_parting};

    /// Gives up the open session, as one that was left alone for too long.
    ///
    /// - An abort with reason 3 goes to its destination, and its frames are withdrawn (SAE J1939-21, connection abort).
    /// - If no session is open, nothing is done.
    ///
    /// Takes no memory. When a session was left alone is for the caller to say: a node has no clock.
    pub fn give_up(&mut self) -> Heard
        ensures heard { result ≡ given_up self.old }
        ensures node { self.new ≡ after_deed self.old EndsSession }
        ensures few { length result.put ≤ 1 }
    {
        let heard = Heard {
            withdraw: self.withdrawn_at_parting(),
            put: self.put_at_parting(),
            begun: None,
            answer: Answer::NotAsked,
        };
        self.session = None;
        heard
    }

    /// Whether a frame holds the open session open. Nothing changes by it.
    ///
    /// Such a frame is a clear to send of the session that lets no packet go (SAE J1939-21, TP.CM_CTS). `hear` is what hears it.
    pub fn is_held_open(&self, frame: &Frame) -> bool
        ensures { result ≡ is_held_open self.now (group_of frame.now) }
    {
        let ParameterGroup::ConnectionManagement {
            source,
            dest,
            control,
        } = ParameterGroup::read(frame)
        else {
            return false;
        };
        match control {
            Control::Cts { granted, pgn, .. } => {
                granted == 0 && self.is_held(dest) && self.is_open_with(source, pgn)
            }
            _ => false,
        }
    }

    /// What is put if the open session is given up.
    fn put_at_parting(&self) -> Outs
        ensures value { result ≡ put_at_parting self.now.session self.now.claimer.held }
        ensures few { length result ≤ 1 }
    {
        match (&self.session, self.claimer.held()) {
            (Some(session), Some(source)) => {
                let abort = Control::Abort {
                    reason: TIMED_OUT,
                    pgn: session.sending.pgn(),
                };
                Outs::plain(control_frame(abort, source, session.sending.dest()))
            }
            _ => Outs::new(),
        }
    }

    /// What is withdrawn if the open session is given up.
    fn withdrawn_at_parting(&self) -> Withdraw
        ensures { result ≡ withdrawn_at_parting self.now.session }
    {
        match &self.session {
            Some(_) => Withdraw::Session,
            None => Withdraw::Keep,
        }
    }
}
