ghost use Rattle.std.specs.Prelude.{◌≡◌, ◌≤◌, IsNone, IsSome, OnOk, OnErr, Some, None, length, replicate, slice_set, slice_index_or};
ghost use Rattle.can_frame.specs.declared.address.TheConstants.{GREATEST_ADDRESS};

use can_frame::HOLDABLE_ADDRESSES;
use name_field::Name;
use std::alloc::{AllocError, Global};
use std::collections::BTreeMap;
use std::marker::Model;

/// The NAMEs of the last claims heard of each address, 0 to 253.
///
/// It takes memory only for addresses of which a claim was heard.
#[derive(Drop)]
pub struct Noted {
    by_address: Option<BTreeMap<u8, Name>>,
}

impl Model for Noted {
    ghost use Rattle.std.specs.Prelude.{ℕ, List, Option};
    ghost use Rattle.address_claim.specs.Noted.{noted_of};

    ghost Value = { List (Option ℕ) };

    ghost view = { λ n. noted_of n.by_address };
}

impl Noted {
    /// No claim was heard.
    #[tactic(auto, using(crate::proofs::NotedLists::none_noted))]
    pub fn nothing() -> Noted
        ensures { result ≡ replicate HOLDABLE_ADDRESSES None }
    {
        Noted { by_address: None }
    }

    /// The NAME in the last claim of an address.
    #[tactic(auto, using(crate::proofs::NotedLists::noted_there, crate::proofs::NotedLists::noted_long))]
    pub fn last(&self, address: u8) -> Option<Name>
        requires { address ≤ GREATEST_ADDRESS }
        ensures value { result ≡ slice_index_or self.now address None }
        ensures long { length self.now ≡ HOLDABLE_ADDRESSES }
    {
        let Some(names) = &self.by_address else {
            return None;
        };
        names.get(&address).copied()
    }

    /// The NAME in the last claim of an address once this claim, of `source` under `name`, is noted.
    #[tactic(auto, using(crate::proofs::NotedLists::noted_here, crate::proofs::NotedLists::noted_elsewhere))]
    pub fn last_after(&self, source: u8, name: Name, address: u8) -> Option<Name>
        requires source_fits { source ≤ GREATEST_ADDRESS }
        requires address_fits { address ≤ GREATEST_ADDRESS }
        ensures value { result ≡ slice_index_or (slice_set self.now source (Some name)) address None }
        ensures long { length self.now ≡ HOLDABLE_ADDRESSES }
    {
        let last = self.last(address);
        if address == source { Some(name) } else { last }
    }

    /// Notes a claim of an address. Only where none was noted of it can memory be refused, and then nothing changes.
    #[tactic(auto, using(crate::proofs::NotedLists::noted_unchanged, crate::proofs::NotedLists::noted_more, crate::proofs::NotedLists::noted_first))]
    pub fn note(&mut self, alloc: Global, address: u8, name: Name) -> Result<(), AllocError>
        requires { address ≤ GREATEST_ADDRESS }
        ensures ok { OnOk result (self.new ≡ slice_set self.old address (Some name)) }
        ensures err { OnErr result (self.new ≡ self.old) }
    {
        match &mut self.by_address {
            Some(names) => {
                names.insert(address, name)?;
            }
            None => {
                let mut names = BTreeMap::new(alloc);
                names.insert(address, name)?;
                self.by_address = Some(names);
            }
        }
        Ok(())
    }

    /// Notes a claim of an address of which one was noted before, and answers the NAME in that one; else nothing changes. Takes no
    /// memory.
    #[tactic(auto, using(crate::proofs::NotedLists::noted_there, crate::proofs::NotedLists::noted_over))]
    pub fn renote(&mut self, address: u8, name: Name) -> Option<Name>
        requires { address ≤ GREATEST_ADDRESS }
        ensures last { result ≡ slice_index_or self.old address None }
        ensures noted { IsSome result → self.new ≡ slice_set self.old address (Some name) }
        ensures kept { IsNone result → self.new ≡ self.old }
    {
        let Some(names) = &mut self.by_address else {
            return None;
        };
        let Some(last) = names.get_mut(&address) else {
            return None;
        };
        let before = *last;
        *last = name;
        Some(before)
    }
}
