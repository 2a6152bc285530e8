ghost use Rattle.std.specs.Prelude.{◌≡◌, ◌≢◌, Some};
ghost use Rattle.node_core.specs.Asking.{memory_answered, IsAsked};
ghost use Rattle.node_core.specs.Requested.{wanted_by, may_answer, acknowledgment};

use crate::heard::Answer;
use can_frame::{Frame, GLOBAL_ADDRESS, GREATEST_ADDRESS, Pgn};
use dm_messages::Kind;
use requests::Ack;
use unit_trait::{Clear, Question, Unit};

/// What a request asks a unit for, besides its claim.
#[derive(Clone, Copy)]
pub enum Wanted {
    /// A diagnostic message: DM1, DM2 or DM6.
    Message(Kind),
    /// To clear codes.
    Clear(Clear),
    /// Something that no unit here has.
    Unsupported,
}

impl Wanted {
    /// What a request for this group asks for.
    pub fn by(pgn: Pgn) -> Wanted
        ensures { result ≡ wanted_by pgn }
    {
        match pgn {
            Pgn::DM1 => Wanted::Message(Kind::Dm1),
            Pgn::DM2 => Wanted::Message(Kind::Dm2),
            Pgn::DM6 => Wanted::Message(Kind::Dm6),
            Pgn::DM11 => Wanted::Clear(Clear::Active),
            Pgn::DM3 => Wanted::Clear(Clear::Previous),
            _ => Wanted::Unsupported,
        }
    }
}

/// Whether a request from this source may ask for more than the claim.
///
/// It may if the source can be held, 0 to 253, and is not the unit's own address.
pub fn may_answer(address: u8, source: u8) -> bool
    ensures { result ≡ may_answer address source }
{
    source <= GREATEST_ADDRESS && source != address
}

/// Puts a question to the unit, by the one call that is for it.
pub fn put(question: Question, unit: &mut dyn Unit) -> Answer
    ensures name { name_of unit.new ≡ name_of unit.old }
    ensures memory { memory_of unit.new ≡ memory_answered (Some question) result (memory_of unit.old) }
    ensures answered { result ≢ Answer.NotAsked }
    ensures asked { (u : _) × (unit.new ≡ (unit.old.0, u)) × IsAsked (Answers unit.old) (Some question) result unit.old.1 u }
{
    let agrees = match question {
        Question::Clear(Clear::Active) => unit.clear_active().is_ok(),
        Question::Clear(Clear::Previous) => unit.clear_previous().is_ok(),
        Question::Hold(address) => unit.commanded(address),
    };
    if agrees {
        Answer::Agreed
    } else {
        Answer::Declined
    }
}

/// The acknowledgment to all of a request for a group, by the holder of `address`.
pub fn acknowledgment(control: u8, requester: u8, pgn: Pgn, address: u8) -> Frame
    ensures { result ≡ acknowledgment control requester pgn address }
{
    Ack {
        control,
        requester,
        pgn,
        dest: GLOBAL_ADDRESS,
        source: address,
    }
    .frame()
}
