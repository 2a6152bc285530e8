ghost use Rattle.std.specs.Prelude.{◌≡◌, [], ◌∷◌, IfOk, true, false};

use can_frame::{Frame, Frames, Pgn};
use std::alloc::{AllocError, Global};

/// What the station does in answer to a reading or an order.
#[derive(Drop)]
pub struct Reaction {
    /// Whether the frames that wait in its queue are withdrawn first.
    pub withdraw: bool,
    /// The frames that it then queues, in order.
    pub put: Frames,
}

/// What the station can ask of a unit or of all.
#[derive(Clone, Copy, PartialEq, Eq)]
pub enum Ask {
    /// The active codes (group 65226).
    Dm1,
    /// The previously active codes (group 65227).
    Dm2,
    /// To clear the previously active codes (group 65228).
    Dm3,
    /// The pending codes (group 65231).
    Dm6,
    /// To clear the active codes (group 65235).
    Dm11,
    /// The address that is claimed (group 60928).
    Claim,
    /// Another parameter group.
    Other(Pgn),
}

impl Ask {
    ghost use Rattle.station_table.specs.Reactions.{group_asked};

    /// The parameter group that is asked for.
    pub fn pgn(self) -> Pgn
        ensures { result ≡ group_asked self }
    {
        match self {
            Ask::Dm1 => Pgn::DM1,
            Ask::Dm2 => Pgn::DM2,
            Ask::Dm3 => Pgn::DM3,
            Ask::Dm6 => Pgn::DM6,
            Ask::Dm11 => Pgn::DM11,
            Ask::Claim => Pgn::ADDRESS_CLAIMED,
            Ask::Other(pgn) => pgn,
        }
    }
}

impl Reaction {
    ghost use Rattle.station_table.specs.Reactions.{silent, answering, claiming_again};

    /// Nothing is withdrawn and nothing is queued.
    pub fn silent(alloc: Global) -> Reaction
        ensures { result ≡ silent }
    {
        Reaction {
            withdraw: false,
            put: Frames::new(alloc),
        }
    }

    /// One frame is queued.
    pub fn answering(alloc: Global, frame: Frame) -> Result<Reaction, AllocError>
        ensures { IfOk result (λ r. r ≡ answering frame) }
    {
        let mut put = Frames::new(alloc);
        put.push(frame)?;
        Ok(Reaction {
            withdraw: false,
            put,
        })
    }

    /// All that waits is withdrawn, and one frame is queued.
    pub fn claiming_again(alloc: Global, claim: Frame) -> Result<Reaction, AllocError>
        ensures { IfOk result (λ r. r ≡ claiming_again claim) }
    {
        let mut put = Frames::new(alloc);
        put.push(claim)?;
        Ok(Reaction {
            withdraw: true,
            put,
        })
    }
}
