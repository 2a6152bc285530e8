ghost use Rattle.std.specs.Prelude.{◌≡◌, Some, IfOk, IsOkUnless};
ghost use Rattle.bus_model.specs.Heard.{finished};
ghost use Rattle.dm_messages.specs.View as view;
ghost use Rattle.reassembly.specs.Partials.{answer_to, with_packet};
ghost use Rattle.reassembly.specs.Tables.{at};
ghost use Rattle.station_table.specs.Steps.{ended_shown};

use crate::error::StationError;
use crate::origin::Origin;
use dm_messages::{ReadError, Shown, read};
use reassembly::Partials;
use std::alloc::Global;
use transport::Took;

/// A message that ended: whose it is and of which kind, and what it shows; nothing where it cannot be read.
#[derive(Drop)]
pub struct ReadMessage {
    pub origin: Origin,
    pub shown: Option<Shown>,
}

/// What a payload shows; none where it cannot be read.
pub fn shown_by(alloc: Global, payload: &[u8]) -> Result<Option<Shown>, StationError>
    ensures ok { IfOk result (λ o. o ≡ view.decoding payload.now) }
    ensures only_memory { IsOkUnless result StationError.OutOfMemory }
{
    match read(alloc, payload) {
        Ok(shown) => Ok(Some(shown)),
        Err(ReadError::OutOfMemory) => Err(StationError::OutOfMemory),
        Err(_) => Ok(None),
    }
}

/// The message that ends with this packet, its last. What is half joined stays as it was.
pub fn ended_with(
    alloc: Global,
    messages: &mut Partials<Origin>,
    source: u8,
    packet: &[u8],
) -> Result<Option<ReadMessage>, StationError>
    requires { answer_to packet.now (at messages.old source) ≡ Some Took.Whole }
    ensures same { messages.new ≡ messages.old }
    ensures ok { IfOk result (λ o. o ≡ ended_shown (finished (with_packet packet.now (at messages.old source)))) }
    ensures only_memory { IsOkUnless result StationError.OutOfMemory }
{
    let Some(partial) = messages.get(source) else {
        return Ok(None);
    };
    let origin = partial.tag();
    let shown = messages.read_with(source, packet, |payload: &[u8]| shown_by(alloc, payload))?;
    Ok(Some(ReadMessage { origin, shown }))
}
