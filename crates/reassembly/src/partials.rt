ghost use Rattle.std.specs.Prelude.{◌≡◌, ◌≤◌, Some, None, IfSome, OnOk, OnErr, slice_set};
ghost use Rattle.std.specs.Option.{option_copied};
ghost use Rattle.std.specs.Fn.{FnOnceReturnsAt};
ghost use Rattle.transport.specs.Pieces.{joined};
ghost use Rattle.reassembly.specs.Partials.{begun, with_packet, after_packet, answer_to};
ghost use Rattle.reassembly.specs.Tables.{at, empty_table};

use crate::partial::Partial;
use crate::table::AddressTable;
use can_frame::Pgn;
use std::alloc::{AllocError, Global};
use std::marker::Model;
use transport::Took;

/// The messages half read, by the address that they come from: at most one from each.
///
/// It takes no memory before the first message is announced.
#[derive(Drop)]
pub struct Partials<T> {
    table: AddressTable<Partial<T>>,
}

impl<T> Model for Partials<T> {
    ghost use Rattle.std.specs.Prelude.{List, Option};
    ghost use Rattle.reassembly.specs.Partials.{PartialValue};

    ghost Value = { List (Option (PartialValue T)) };

    ghost view = { λ p. p.table.slots };
}

impl<T: Copy> Partials<T> {
    /// Nothing is half read from any address. It takes no memory.
    pub fn new(alloc: Global) -> Partials<T>
        ensures { result ≡ empty_table }
    {
        Partials {
            table: AddressTable::new(alloc),
        }
    }

    /// A message of this size, 9 to 1,785 bytes, and group is announced from this address: it takes the place of what was
    /// half read from there. Where memory is refused, nothing changes.
    pub fn start(
        &mut self,
        alloc: Global,
        source: u8,
        tag: T,
        size: u16,
        pgn: Pgn,
    ) -> Result<(), AllocError>
        requires least { 9 ≤ size }
        requires most { size ≤ 1785 }
        ensures ok { OnOk result (self.new ≡ slice_set self.old source (Some (begun tag size))) }
        ensures err { OnErr result (self.new ≡ self.old) }
    {
        let partial = Partial::start(alloc, tag, size, pgn)?;
        self.table.make()?;
        self.table.put(source, partial);
        Ok(())
    }

    /// The message half read from this address.
    pub fn get(&self, source: u8) -> Option<&Partial<T>>
        ensures { option_copied result ≡ at self.now source }
    {
        self.table.get(source)
    }

    /// What a packet from this address is to the message half read from there; none where there is none. Nothing changes.
    pub fn answer(&self, source: u8, packet: &[u8]) -> Option<Took>
        ensures { result ≡ answer_to packet.now (at self.now source) }
    {
        match self.table.get(source) {
            Some(partial) => Some(partial.answer(packet)),
            None => None,
        }
    }

    /// Reads a packet that was answered so: the message grows by it, or is no longer half read where that was its last
    /// packet or not the next one. It takes no memory.
    #[inline]
    pub fn take(&mut self, source: u8, packet: &[u8], took: Took)
        requires { answer_to packet.now (at self.old source) ≡ Some took }
        ensures { self.new ≡ slice_set self.old source (after_packet packet.now (at self.old source)) }
    {
        match took {
            Took::More => self.table.grow(source, packet),
            Took::Whole | Took::Broken => self.table.forget(source),
        }
    }

    /// What `read` makes of the payload that the message half read from this address has with this packet, its last. Nothing
    /// changes.
    pub fn read_with<R, F: FnOnce(&[u8]) -> R>(&mut self, source: u8, packet: &[u8], read: F) -> R
        requires callable { F.IsAlwaysCallable read }
        requires whole { answer_to packet.now (at self.old source) ≡ Some Took.Whole }
        ensures same { self.new ≡ self.old }
        ensures made { IfSome (with_packet packet.now (at self.old source))
            (λ p. FnOnceReturnsAt F.FnOnce read (joined p.size p.pieces) result) }
    {
        let Some(mut partial) = self.table.take(source) else {
            unreachable!()
        };
        let made = partial.read_with(packet, read);
        self.table.put(source, partial);
        made
    }

    /// What was half read from this address is dropped.
    pub fn forget(&mut self, source: u8)
        ensures { self.new ≡ slice_set self.old source None }
    {
        self.table.forget(source);
    }

    /// All that is half read is dropped.
    pub fn clear(&mut self)
        ensures { self.new ≡ empty_table }
    {
        self.table.clear();
    }
}
