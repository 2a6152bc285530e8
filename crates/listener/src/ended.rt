ghost use Rattle.std.specs.Prelude.{◌≡◌, Some, IfOk};
ghost use Rattle.bus_model.specs.Overheard.{sent_whole};
ghost use Rattle.bus_model.specs.OverheardChanged.{why_unread};
ghost use Rattle.dm_messages.specs.Tolerant.{message_read};
ghost use Rattle.listener.specs.ListenerSteps.{showing};
ghost use Rattle.reassembly.specs.Pairs.{pair_at};
ghost use Rattle.reassembly.specs.Partials.{answer_to, with_packet};

use crate::sending::Sending;
use dm_messages::{MessageRead, ReadError, read, read_part};
use reassembly::PairedPartials;
use std::alloc::{AllocError, Global};
use transport::Took;

/// A message that ended: whose it is and of which kind, and what is read of it; or why nothing is, which says nothing where it can
/// be read.
#[derive(Drop)]
pub struct ReadSending {
    pub sending: Sending,
    pub read: Option<MessageRead>,
    pub why: ReadError,
}

/// What is read of a payload; or none, and why, which says nothing where it can be read.
#[tactic(auto, using(crate::proofs::Reasons::none_refused))]
pub fn read_of(
    alloc: Global,
    payload: &[u8],
) -> Result<(Option<MessageRead>, ReadError), AllocError>
    ensures read { IfOk result (λ o. o.0 ≡ message_read payload.now) }
    ensures why { IfOk result (λ o. o.1 ≡ why_unread payload.now) }
{
    match read(alloc, payload) {
        Ok(shown) => Ok((Some(MessageRead::Whole(shown)), ReadError::BadLength)),
        Err(ReadError::OutOfMemory) => Err(AllocError),
        Err(why) => Ok((read_part(alloc, payload)?, why)),
    }
}

/// The message that ends with this packet, its last. What is half sent stays as it was.
pub fn ended_with(
    alloc: Global,
    messages: &mut PairedPartials<Sending>,
    source: u8,
    dest: u8,
    packet: &[u8],
) -> Result<Option<ReadSending>, AllocError>
    requires { answer_to packet.now (pair_at messages.old source dest) ≡ Some Took.Whole }
    ensures same { messages.new ≡ messages.old }
    ensures ok { IfOk result (λ o. o ≡ showing (sent_whole dest (with_packet packet.now (pair_at messages.old source dest)))) }
{
    let Some(partial) = messages.get(source, dest) else {
        return Ok(None);
    };
    let sending = partial.tag();
    let (read, why) = messages.read_with(source, dest, packet, |payload: &[u8]| {
        read_of(alloc, payload)
    })?;
    Ok(Some(ReadSending { sending, read, why }))
}
