ghost use Rattle.std.specs.Prelude.{◌≡◌, ◌<◌, slice_set};
ghost use Rattle.reassembly.specs.Tables.{at};
ghost use Rattle.shared_groups.specs.Sharing as sharing;
ghost use Rattle.shared_groups.specs.Sharing.{joining_kept, grant_next, granted_at_most, without_group};

use crate::waiting::Waiting;
use can_frame::Pgn;
use name_field::Name;
use reassembly::{Partial, Partials};
use transport::packets;

/// Whose a message is that is half joined, of which group, and how many packets its sender takes at once.
#[derive(Clone, Copy)]
pub struct Tag {
    pub owner: Option<Name>,
    pub pgn: Pgn,
    pub most: u8,
}

/// How many packets a grant gives at most: the least of the own grant and of what the sender takes at once, where 0 is no limit.
pub(crate) fn at_once(grant: u8, most: u8) -> u8
    requires { 0 < grant }
    ensures value { result ≡ granted_at_most grant most }
    ensures positive { 0 < result }
{
    grant.min(if most == 0 { u8::MAX } else { most })
}

/// What is granted behind a packet of a session that is not whole.
pub(crate) fn grant_behind(session: &Partial<Tag>, at_once: u8, to: u8) -> Option<Waiting>
    requires { 0 < at_once }
    ensures { result ≡ grant_next at_once to session.now }
{
    let all = packets(session.size());
    let taken = session.taken();
    let Tag { pgn, .. } = session.tag();
    if taken < all && taken % at_once == 0 {
        Some(Waiting::Grant {
            granted: at_once.min(all - taken),
            next: taken + 1,
            pgn,
            to,
        })
    } else {
        None
    }
}

/// A claim of an address keeps what is half joined from there under its owner alone.
#[tactic(auto, using(crate::proofs::Joinings::kept_as_it_was))]
pub(crate) fn keep_under(messages: &mut Partials<Tag>, source: u8, name: Name)
    ensures { messages.new ≡ slice_set messages.old source (joining_kept name (at messages.old source)) }
{
    let is_other = match messages.get(source) {
        Some(partial) => is_not_under(partial.tag(), name),
        None => false,
    };
    if is_other {
        messages.forget(source);
    }
}

/// Whether a message is not this NAME's.
fn is_not_under(tag: Tag, name: Name) -> bool
    ensures { result ≡ sharing.is_not_under tag name }
{
    match tag.owner {
        Some(owner) => owner != name,
        None => true,
    }
}

/// An abort drops what is half joined from an address, where it is of this group.
#[tactic(auto, using(crate::proofs::Joinings::left_as_it_was))]
pub(crate) fn drop_group(messages: &mut Partials<Tag>, source: u8, pgn: Pgn)
    ensures { messages.new ≡ slice_set messages.old source (without_group pgn (at messages.old source)) }
{
    let is_it = match messages.get(source) {
        Some(partial) => partial.tag().pgn == pgn,
        None => false,
    };
    if is_it {
        messages.forget(source);
    }
}
