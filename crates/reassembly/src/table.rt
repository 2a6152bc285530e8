ghost use Rattle.std.specs.Prelude.{◌≡◌, true, false, [], Some, None, IsTrue, OnOk, OnErr, OnSome, replicate, slice_set};
ghost use Rattle.std.specs.Option.{option_copied};
ghost use Rattle.reassembly.specs.Partials.{answer_to, with_packet};
ghost use Rattle.reassembly.specs.Tables.{TableValue, at, empty_table};

use crate::partial::Partial;
use std::alloc::{AllocError, Global};
use std::marker::Model;
use transport::Took;

/// What is kept of each of the 256 addresses.
///
/// A new table has no memory. It takes that of all its addresses at once, when `make` is called, and keeps it.
#[derive(Drop)]
pub struct AddressTable<X> {
    slots: Vec<Option<X>>,
}

impl<X> Model for AddressTable<X> {
    ghost use Rattle.reassembly.specs.Tables.{TableValue, slots_of, has_slots, IsTable};

    ghost Value = { TableValue X };

    ghost view = { λ t. record { slots = slots_of t.slots.items; is_made = has_slots t.slots.items } };

    ghost invariant = { λ t. IsTable t.slots.items };
}

impl<X: Drop> AddressTable<X> {
    /// A table in which nothing is kept of any address. It takes no memory.
    pub fn new(alloc: Global) -> AddressTable<X>
        ensures { result ≡ record { slots = empty_table; is_made = false } }
    {
        AddressTable {
            slots: Vec::new(alloc),
        }
    }

    /// Takes the memory of the table, where it has none; what is kept stays the same.
    pub fn make(&mut self) -> Result<(), AllocError>
        ensures slots { self.new.slots ≡ self.old.slots }
        ensures ok { OnOk result (IsTrue self.new.is_made) }
        ensures err { OnErr result (self.new ≡ self.old) }
    {
        if self.slots.is_empty() {
            fill(&mut self.slots)?;
        }
        Ok(())
    }

    /// What is kept of an address.
    pub fn get(&self, address: u8) -> Option<&X>
        ensures { option_copied result ≡ at self.now.slots address }
    {
        if self.slots.is_empty() {
            return None;
        }
        self.slots[usize::from(address)].as_ref()
    }

    /// Keeps this of an address, in place of what was kept.
    #[tactic(auto, using(crate::proofs::TableLemmas::put_there))]
    pub fn put(&mut self, address: u8, value: X)
        requires { IsTrue self.old.is_made }
        ensures kept { self.new ≡ record self.old { slots = slice_set self.old.slots address (Some value) } }
        ensures there { at self.new.slots address ≡ Some value }
    {
        self.slots[usize::from(address)] = Some(value);
    }

    /// Takes out what is kept of an address.
    pub fn take(&mut self, address: u8) -> Option<X>
        ensures taken { result ≡ at self.old.slots address }
        ensures left { self.new ≡ record self.old { slots = slice_set self.old.slots address None } }
        ensures made { OnSome result (IsTrue self.new.is_made) }
    {
        if self.slots.is_empty() {
            return None;
        }
        self.slots[usize::from(address)].take()
    }

    /// Keeps nothing of an address.
    pub fn forget(&mut self, address: u8)
        ensures { self.new ≡ record self.old { slots = slice_set self.old.slots address None } }
    {
        if !self.slots.is_empty() {
            self.slots[usize::from(address)] = None;
        }
    }

    /// Keeps nothing of any address. The memory stays with the table.
    pub fn clear(&mut self)
        ensures { self.new.slots ≡ empty_table }
    {
        self.slots.clear();
    }
}

impl<T: Copy> AddressTable<Partial<T>> {
    /// The message half read from an address grows by a packet that is its next one, in its place. It takes no memory.
    pub(crate) fn grow(&mut self, address: u8, packet: &[u8])
        requires { answer_to packet.now (at self.old.slots address) ≡ Some Took.More }
        ensures { self.new ≡ record self.old
            { slots = slice_set self.old.slots address (with_packet packet.now (at self.old.slots address)) } }
    {
        if self.slots.is_empty() {
            return;
        }
        if let Some(partial) = &mut self.slots[usize::from(address)] {
            partial.add(packet);
        }
    }
}

/// Fills an empty vector with 256 places in which nothing is kept.
fn fill<X: Drop>(slots: &mut Vec<Option<X>>) -> Result<(), AllocError>
    requires { slots.old.items ≡ [] }
    ensures ok { OnOk result (slots.new.items ≡ replicate 256 None) }
    ensures err { OnErr result (slots.new.items ≡ []) }
{
    slots.reserve(256)?;
    for _ in 0..256u16 {
        slots.push_reserved(None);
    }
    Ok(())
}
