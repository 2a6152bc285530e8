ghost use Rattle.std.specs.Prelude.{◌≡◌, IfOk, Some, None};
ghost use Rattle.reassembly.specs.Partials.{answer_to, with_packet};
ghost use Rattle.reassembly.specs.Tables.{at};
ghost use Rattle.shared_groups.specs.Sharing.{message_ended};

use crate::joining::Tag;
use can_frame::Pgn;
use name_field::Name;
use reassembly::Partials;
use std::alloc::{AllocError, Global};
use std::marker::Model;
use transport::Took;

/// A message of a group that is shared, whole.
#[derive(Drop)]
pub struct SharedMessage {
    /// Who sent it.
    pub source: u8,
    /// The NAME that held that address from its first to its last frame; none where nobody claimed it.
    pub owner: Option<Name>,
    pub pgn: Pgn,
    bytes: Vec<u8>,
}

impl Model for SharedMessage {
    ghost use Rattle.shared_groups.specs.Sharing.{MessageValue};

    ghost Value = { MessageValue };

    ghost view = { λ m. record { source = m.source; owner = m.owner; pgn = m.pgn; bytes = m.bytes.items } };
}

impl SharedMessage {
    /// A message of these bytes.
    ///
    /// Refused: where memory is.
    pub(crate) fn new(
        alloc: Global,
        source: u8,
        owner: Option<Name>,
        pgn: Pgn,
        bytes: &[u8],
    ) -> Result<SharedMessage, AllocError>
        ensures { IfOk result (λ m. m ≡ record { source = source; owner = owner; pgn = pgn; bytes = bytes.now }) }
    {
        let bytes = copied(alloc, bytes)?;
        Ok(SharedMessage {
            source,
            owner,
            pgn,
            bytes,
        })
    }

    /// Its bytes, up to 1,785.
    pub fn bytes(&self) -> &[u8]
        ensures { result.now ≡ self.now.bytes }
    {
        self.bytes.as_slice()
    }
}

/// A copy of these bytes.
fn copied(alloc: Global, bytes: &[u8]) -> Result<Vec<u8>, AllocError>
    ensures { IfOk result (λ v. v.items ≡ bytes.now) }
{
    let mut copy = Vec::new(alloc);
    copy.extend_from_slice(bytes)?;
    Ok(copy)
}

/// The message that ends with this packet, its last. What is half joined stays as it was.
pub(crate) fn ended_with(
    alloc: Global,
    messages: &mut Partials<Tag>,
    source: u8,
    packet: &[u8],
) -> Result<Option<SharedMessage>, AllocError>
    requires { answer_to packet.now (at messages.old source) ≡ Some Took.Whole }
    ensures same { messages.new ≡ messages.old }
    ensures ok { IfOk result (λ m. m ≡ message_ended source (with_packet packet.now (at messages.old source))) }
{
    let Some(partial) = messages.get(source) else {
        return Ok(None);
    };
    let Tag { owner, pgn, .. } = partial.tag();
    let bytes = messages.read_with(source, packet, |payload: &[u8]| copied(alloc, payload))?;
    Ok(Some(SharedMessage {
        source,
        owner,
        pgn,
        bytes,
    }))
}
