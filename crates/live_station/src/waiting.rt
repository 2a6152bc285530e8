//! What waits to be written.
ghost use Rattle.std.specs.Prelude.{◌≡◌, ◌⊎◌, ◌<◌, ◌∷◌, [], IfOk, false, true};
ghost use Rattle.address_claim.specs.Frames.{claim_source};
ghost use Rattle.live_unit.specs.Queue.{empty_queue, putting};
ghost use Rattle.node_core.specs.Deed.{plain};
ghost use Rattle.live_unit.specs.declared.queue.TheConstants.{MOST_PUT as MOST};
ghost use Rattle.live_station.specs.Working.{IsFirstFrom, IsOwedFrom, OwesAll, after_reaction, with_first};
ghost use Rattle.live_unit.specs.Queue.{HasFreeLanes};

use crate::going::source_of;
use can_frame::{Frame, Frames};
use live_unit::Queue;
use node_core::{Outs, Withdraw};
use station_table::Reaction;
use std::alloc::{AllocError, Global};

/// A queue in which a claim of this address waits.
pub fn queue_of(alloc: Global, source: u8, claim: Frame) -> Result<Queue, AllocError>
    requires { IsOwedFrom source claim }
    ensures is { IfOk result (λ q. q ≡ putting false (plain claim ∷ []) (empty_queue source)) }
    ensures source { IfOk result (λ q. q.source ≡ source) }
    ensures owes { IfOk result OwesAll }
{
    let mut queue = Queue::new(alloc, source)?;
    put_one(&mut queue, claim);
    Ok(queue)
}

/// Puts a frame.
#[tactic(auto, using(crate::proofs::Owing::source_after_putting))]
pub fn put_one(queue: &mut Queue, frame: Frame)
    requires room { HasFreeLanes queue.old }
    requires few { queue.old.put < MOST }
    requires from { IsOwedFrom queue.old.source frame }
    requires owes { OwesAll queue.old }
    ensures is { queue.new ≡ putting false (plain frame ∷ []) queue.old }
    ensures source { queue.new.source ≡ queue.old.source }
    ensures owes { OwesAll queue.new }
{
    queue.put(Outs::plain(frame), false);
}

/// Withdraws and puts what a station withdraws and puts, but for a request for claims behind its claim, which waits for its time.
#[tactic(auto, using(crate::proofs::Owing::owes_after_withdrawing))]
pub fn take_in(queue: &mut Queue, reaction: Reaction, held: Option<u8>)
    requires source { (reaction.withdraw ≡ true) ⊎ (claim_source held ≡ queue.old.source) }
    requires room { (reaction.withdraw ≡ true) ⊎ (HasFreeLanes queue.old ⊎ (reaction.put ≡ [])) }
    requires few { queue.old.put < MOST }
    requires from { IsFirstFrom (claim_source held) reaction.put }
    requires owes { OwesAll queue.old }
    ensures is { queue.new ≡ after_reaction reaction (claim_source held) queue.old }
    ensures source { queue.new.source ≡ claim_source held }
    ensures owes { OwesAll queue.new }
{
    if reaction.withdraw {
        queue.withdraw(Withdraw::All, source_of(held));
    }
    put_first(queue, &reaction.put);
}

/// Puts the first frame, if there is one.
#[tactic(auto, using(crate::proofs::Owing::owes_after_first, crate::proofs::Owing::source_after_first, crate::proofs::Owing::first_put, crate::proofs::Owing::none_put, crate::proofs::Owing::first_is))]
pub fn put_first(queue: &mut Queue, put: &Frames)
    requires room { HasFreeLanes queue.old ⊎ (put.now ≡ []) }
    requires few { queue.old.put < MOST }
    requires from { IsFirstFrom queue.old.source put.now }
    requires owes { OwesAll queue.old }
    ensures is { queue.new ≡ with_first put.now queue.old }
    ensures source { queue.new.source ≡ queue.old.source }
    ensures owes { OwesAll queue.new }
{
    if let Some(first) = put.as_slice().first() {
        put_one(queue, *first);
    }
}
