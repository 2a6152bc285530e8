ghost use Rattle.std.specs.Prelude.{◌≡◌, ◌≤◌, IsTrue, IsFalse, IfOk, None, OnOk, OnErr, replicate, slice_set};
ghost use Rattle.can_frame.specs.declared.address.TheConstants.{GREATEST_ADDRESS};
ghost use Rattle.node_core.specs.Commanding.{completed, continued, for_name, partial_from};
ghost use Rattle.node_core.specs.PartialCommands.{partials_of};
ghost use Rattle.node_core.specs.Passing.{begun_partial};
ghost use Rattle.node_core.specs.declared.partial_commands.Partials.TheVariants.{One, Many};

use crate::commanding::PartialCommand;
use can_frame::{HOLDABLE_ADDRESSES, NULL_ADDRESS};
use name_field::Name;
use std::alloc::{AllocError, Global};
use std::collections::BTreeMap;
use std::marker::Model;

/// What a unit has of the commanded address that each source, 0 to 253, broadcasts.
///
/// - As a rule one source commands at a time: what is half joined from it stands in place.
/// - If two sources have begun one at the same time, it takes memory: a few bytes for each source, at most 254 of them.
///
/// A place once taken stays. What such a source sends from then on costs one look-up, and takes and gives back no memory.
#[derive(Drop)]
pub struct PartialCommands {
    partials: Partials,
}

/// Where what is half joined stands.
#[derive(Drop)]
enum Partials {
    /// In place: from no other source is anything half joined.
    One { source: u8, partial: PartialCommand },
    /// By source: two of them had something half joined at the same time.
    Many(BTreeMap<u8, PartialCommand>),
}

impl Model for PartialCommands {
    ghost use Rattle.std.specs.Prelude.{List};
    ghost use Rattle.node_core.specs.PartialCommands.{partials_of};
    ghost use Rattle.node_core.specs.declared.commanding.PartialCommand.{PartialCommand};

    ghost Value = { List PartialCommand };

    ghost view = { λ h. partials_of h.partials };
}

impl PartialCommands {
    /// Nothing is half joined.
    #[tactic(auto, using(crate::proofs::PartialCommandLists::none_half))]
    pub fn none() -> PartialCommands
        ensures { result ≡ replicate HOLDABLE_ADDRESSES PartialCommand.Nothing }
    {
        PartialCommands {
            partials: Partials::One {
                source: NULL_ADDRESS,
                partial: PartialCommand::Nothing,
            },
        }
    }

    /// What is half joined from a source.
    #[tactic(auto, using(crate::proofs::PartialCommandLists::half_there))]
    pub fn from(&self, source: u8) -> PartialCommand
        requires { source ≤ GREATEST_ADDRESS }
        ensures { result ≡ partial_from self.now source }
    {
        match &self.partials {
            Partials::One {
                source: only,
                partial,
            } => {
                if *only == source {
                    *partial
                } else {
                    PartialCommand::Nothing
                }
            }
            Partials::Many(partials) => match partials.get(&source) {
                Some(partial) => *partial,
                None => PartialCommand::Nothing,
            },
        }
    }

    /// A fast test that nothing is half joined from this source. False says nothing.
    #[tactic(auto, using(crate::proofs::PartialCommandLists::nothing_elsewhere))]
    pub fn is_none_from(&self, source: u8) -> bool
        ensures { IsTrue result → partial_from self.now source ≡ PartialCommand.Nothing }
    {
        match &self.partials {
            Partials::One { source: only, .. } => *only != source,
            Partials::Many(_) => false,
        }
    }

    /// Keeps this as what is half joined from a source.
    ///
    /// Memory can be refused only if this source has no place yet and another one has something half joined. Then nothing changed.
    pub fn keep(
        &mut self,
        alloc: Global,
        source: u8,
        partial: PartialCommand,
    ) -> Result<(), AllocError>
        requires { source ≤ GREATEST_ADDRESS }
        ensures ok { OnOk result (self.new ≡ slice_set self.old source partial) }
        ensures err { OnErr result (self.new ≡ self.old) }
    {
        if partial.is_partial() {
            self.insert(alloc, source, partial)
        } else {
            self.forget(source);
            Ok(())
        }
    }

    /// Takes a packet of this source, unless it makes a command for this NAME whole.
    ///
    /// Returns whether it took it; if not, nothing changed.
    #[tactic(auto, using(crate::proofs::PartialCommandLists::half_there, crate::proofs::PartialCommandLists::half_rewritten, crate::proofs::PartialCommandLists::other_dropped))]
    pub fn absorb_packet(&mut self, name: Name, source: u8, bytes: &[u8]) -> bool
        requires { source ≤ GREATEST_ADDRESS }
        ensures unless { IsTrue result → for_name name (completed (partial_from self.old source) bytes.now) ≡ None }
        ensures joined { IsTrue result → self.new ≡ slice_set self.old source (continued (partial_from self.old source) bytes.now) }
        ensures whole { IsFalse result → self.new ≡ self.old }
    {
        match &mut self.partials {
            Partials::One {
                source: only,
                partial,
            } => {
                if *only != source {
                    return true;
                }
                partial.absorb_packet(name, bytes)
            }
            Partials::Many(partials) => absorb_packet_among(partials, name, source, bytes),
        }
    }

    /// Takes an announcement of a source, without memory. Returns whether it took it.
    ///
    /// It leaves nothing half joined, or the start of a commanded address. False, with nothing changed, if it starts one, its
    /// source has no place yet, and another one has something half joined.
    #[tactic(auto, using(crate::proofs::PartialCommandLists::half_rewritten, crate::proofs::PartialCommandLists::other_dropped, crate::proofs::PartialCommandLists::half_moved, crate::proofs::PartialCommandLists::no_half_dropped))]
    pub fn announce(&mut self, source: u8, starts: bool) -> bool
        requires { source ≤ GREATEST_ADDRESS }
        ensures begun { IsTrue result → self.new ≡ slice_set self.old source (begun_partial starts) }
        ensures left { IsFalse result → self.new ≡ self.old }
    {
        match &mut self.partials {
            Partials::One {
                source: only,
                partial,
            } => {
                if *only != source && (!starts || partial.is_partial()) {
                    return !starts;
                }
                *only = source;
                *partial = begun(starts);
                true
            }
            Partials::Many(partials) => overwrite(partials, source, begun(starts)) || !starts,
        }
    }

    /// Keeps something half joined.
    #[tactic(auto, using(crate::proofs::PartialCommandLists::half_rewritten, crate::proofs::PartialCommandLists::half_moved, crate::proofs::PartialCommandLists::half_unchanged, crate::proofs::PartialCommandLists::half_kept))]
    fn insert(
        &mut self,
        alloc: Global,
        source: u8,
        partial: PartialCommand,
    ) -> Result<(), AllocError>
        requires { source ≤ GREATEST_ADDRESS }
        ensures ok { OnOk result (self.new ≡ slice_set self.old source partial) }
        ensures err { OnErr result (self.new ≡ self.old) }
    {
        match &mut self.partials {
            Partials::One {
                source: only,
                partial: kept,
            } => {
                if *only == source || !kept.is_partial() {
                    *only = source;
                    *kept = partial;
                } else {
                    let both = both(alloc, *only, *kept, source, partial)?;
                    self.partials = Partials::Many(both);
                }
            }
            Partials::Many(partials) => {
                partials.insert(source, partial)?;
            }
        }
        Ok(())
    }

    /// Drops what is half joined from a source. Its place stays.
    #[tactic(auto, using(crate::proofs::PartialCommandLists::half_rewritten, crate::proofs::PartialCommandLists::other_dropped, crate::proofs::PartialCommandLists::no_half_dropped))]
    pub fn forget(&mut self, source: u8)
        requires { source ≤ GREATEST_ADDRESS }
        ensures { self.new ≡ slice_set self.old source PartialCommand.Nothing }
    {
        match &mut self.partials {
            Partials::One {
                source: only,
                partial,
            } => {
                if *only == source {
                    *partial = PartialCommand::Nothing;
                }
            }
            Partials::Many(partials) => {
                let _ = overwrite(partials, source, PartialCommand::Nothing);
            }
        }
    }
}

/// What an announcement leaves half joined.
fn begun(starts: bool) -> PartialCommand
    ensures { result ≡ begun_partial starts }
{
    if starts {
        PartialCommand::Started
    } else {
        PartialCommand::Nothing
    }
}

/// What is half joined from two sources, each in a place of its own.
#[tactic(auto, using(crate::proofs::PartialCommandLists::second_kept))]
fn both(
    alloc: Global,
    only: u8,
    kept: PartialCommand,
    source: u8,
    partial: PartialCommand,
) -> Result<BTreeMap<u8, PartialCommand>, AllocError>
    requires { source ≤ GREATEST_ADDRESS }
    ensures { IfOk result (λ m. partials_of (Many m) ≡ slice_set (partials_of (One only kept)) source partial) }
{
    let mut partials = BTreeMap::new(alloc);
    partials.insert(only, kept)?;
    partials.insert(source, partial)?;
    Ok(partials)
}

/// As `PartialCommands::absorb_packet`, if each source has a place of its own.
#[inline(never)]
#[tactic(auto, using(crate::proofs::PartialCommandLists::half_there, crate::proofs::PartialCommandLists::half_missing, crate::proofs::PartialCommandLists::half_overwritten, crate::proofs::PartialCommandLists::half_read))]
fn absorb_packet_among(
    partials: &mut BTreeMap<u8, PartialCommand>,
    name: Name,
    source: u8,
    bytes: &[u8],
) -> bool
    requires { source ≤ GREATEST_ADDRESS }
    ensures unless { IsTrue result
        → for_name name (completed (partial_from (partials_of (Many partials.old)) source) bytes.now) ≡ None }
    ensures joined { IsTrue result
        → partials_of (Many partials.new) ≡ slice_set (partials_of (Many partials.old)) source
        (continued (partial_from (partials_of (Many partials.old)) source) bytes.now) }
    ensures whole { IsFalse result → partials_of (Many partials.new) ≡ partials_of (Many partials.old) }
{
    let Some(partial) = partials.get_mut(&source) else {
        return true;
    };
    partial.absorb_packet(name, bytes)
}

/// Keeps this of a source that has a place of its own.
///
/// Returns whether it has one; if not, nothing changed.
#[inline(never)]
#[tactic(auto, using(crate::proofs::PartialCommandLists::half_there, crate::proofs::PartialCommandLists::half_overwritten))]
fn overwrite(
    partials: &mut BTreeMap<u8, PartialCommand>,
    source: u8,
    partial: PartialCommand,
) -> bool
    requires { source ≤ GREATEST_ADDRESS }
    ensures kept { IsTrue result → partials_of (Many partials.new) ≡ slice_set (partials_of (Many partials.old)) source partial }
    ensures nothing { IsFalse result → partial_from (partials_of (Many partials.old)) source ≡ PartialCommand.Nothing }
    ensures left { IsFalse result → partials_of (Many partials.new) ≡ partials_of (Many partials.old) }
{
    let Some(kept) = partials.get_mut(&source) else {
        return false;
    };
    *kept = partial;
    true
}
