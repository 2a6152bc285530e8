ghost use Rattle.std.specs.Prelude.{◌≡◌, ◌≤◌, [], ◌∷◌, IfOk, length};
ghost use Rattle.transport.specs.Sending.{packets_left};
ghost use Rattle.dm_messages.specs.View.{pgn_of_kind};
ghost use Rattle.node_core.specs.Deed.{parts_begun, parts_of_session};

use crate::heard::Begun;
use crate::out::{Out, Outs, Part};
use crate::session::OpenSession;
use can_frame::GLOBAL_ADDRESS;
use std::alloc::{AllocError, Global};
use transport::{Payload, Run, message_part, packet_frame, packets, part};

/// The frames by which a message of 8 to 1,785 bytes to all begins.
///
/// They are one frame, or the run of a broadcast, into which the payload moves.
#[tactic(auto, using(crate::proofs::PartLists::run_of_broadcast, crate::proofs::PartLists::run_begins))]
pub fn parts_to_all(payload: Payload, begun: Begun) -> Outs
    requires least { 8 ≤ length payload }
    requires most { length payload ≤ 1785 }
    requires to_all { begun.dest ≡ GLOBAL_ADDRESS }
    ensures parts { result ≡ parts_begun payload (pgn_of_kind begun.kind) begun.source begun.dest }
    ensures few { length result ≤ 256 }
{
    if payload.len() == 8 {
        return first_part(payload.as_slice(), begun);
    }
    let end = packets(payload.len() as u16);
    let pgn = begun.kind.pgn();
    let run = Run::new(payload, pgn, begun.source, GLOBAL_ADDRESS, 0, end);
    Outs::run(run, Part::Begun(0))
}

/// The first frame of a message of 8 to 1,785 bytes.
///
/// It is the only one that is queued when a session begins.
#[tactic(auto, using(crate::proofs::PartLists::one_part))]
pub fn first_part(payload: &[u8], begun: Begun) -> Outs
    requires least { 8 ≤ length payload.now }
    requires most { length payload.now ≤ 1785 }
    requires alone { begun.dest ≡ GLOBAL_ADDRESS → length payload.now ≡ 8 }
    ensures parts { result ≡ parts_begun payload.now (pgn_of_kind begun.kind) begun.source begun.dest }
    ensures few { length result ≤ 256 }
{
    let pgn = begun.kind.pgn();
    let frame = message_part(payload, pgn, begun.source, begun.dest, 0);
    let part = Some(Part::Begun(0));
    Outs::one(Out { frame, part })
}

/// The next `count` packets of an open session.
///
/// They begin with the first one not yet queued.
/// - A single one is made at once.
/// - A run of more has a copy of the payload, since the session keeps it.
#[tactic(auto, using(crate::proofs::PartLists::run_of_session, crate::proofs::PartLists::run_begins))]
pub fn parts_of_session(
    alloc: Global,
    session: &OpenSession,
    source: u8,
    count: u8,
) -> Result<Outs, AllocError>
    requires { count ≤ packets_left session.now.sending }
    ensures parts { IfOk result (λ o. o ≡ parts_of_session session.now source count) }
    ensures few { IfOk result (λ o. length o ≤ 256) }
{
    if count == 0 {
        return Ok(Outs::new());
    }
    if count == 1 {
        return Ok(Outs::one(next_packet(session, source)));
    }
    let sending = &session.sending;
    let bytes = sending.payload();
    let first = sending.next_unsent() as u8;
    let payload = Payload::from_slice(alloc, bytes)?;
    let run = Run::new(
        payload,
        sending.pgn(),
        source,
        sending.dest(),
        first,
        first - 1 + count,
    );
    Ok(Outs::run(run, Part::Session(u16::from(first))))
}

/// The first packet of an open session that is not yet queued. Takes no memory.
#[tactic(auto, using(crate::proofs::PartLists::one_packet))]
fn next_packet(session: &OpenSession, source: u8) -> Out
    requires { 1 ≤ packets_left session.now.sending }
    ensures { result ∷ [] ≡ parts_of_session session.now source 1 }
{
    let sending = &session.sending;
    let bytes = sending.payload();
    let number = sending.next_unsent() as u8;
    Out {
        frame: packet_frame(part(bytes, number), source, sending.dest()),
        part: Some(Part::Session(u16::from(number))),
    }
}
