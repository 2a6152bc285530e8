//! The claims that a station or a listener is told of when it is begun anew.
ghost use Rattle.std.specs.Prelude.{◌≡◌, IfSome};
ghost use Rattle.entry_lists.specs.KnownRows.{address_in};
ghost use Rattle.station_c.specs.Anew.{IsClaimBeside, IsClaimOf, IsOwners, but, claim_told, holds};

use address_claim::claim_frame;
use can_frame::{Frame, GREATEST_ADDRESS};
use entry_lists::Row;
use listener::Listener;
use name_field::Name;
use station_table::Station;

/// The claim of a NAME that a station knows, if it holds an address, and another one than this.
#[tactic(auto, using(crate::proofs::Claims::beside_own, crate::proofs::Claims::owned_beside))]
pub fn claim_beside(station: &Station, name: Name, own: u8) -> Option<Frame>
    ensures told { result ≡ claim_told name (but own (holds station.now.owners station.now.rows name)) }
    ensures beside { IfSome result (λ f. IsClaimBeside own f) }
    ensures owned { IfSome result (λ f. IsOwners station.now.owners f) }
{
    let held = address_in(station.row(name));
    claim_of(name, other_than(own, held))
}

/// The claim of a NAME that a listener knows, if it holds an address.
#[tactic(auto, using(crate::proofs::Claims::owned))]
pub fn claim_held(listener: &Listener, name: Name) -> Option<Frame>
    ensures told { result ≡ claim_told name (holds listener.now.owners listener.now.rows name) }
    ensures owned { IfSome result (λ f. IsOwners listener.now.owners f) }
{
    claim_of(name, address_in(listener.row(name)))
}

/// The claim of an address that a NAME holds, 0 to 253.
#[tactic(auto, using(crate::proofs::Claims::claim_is, crate::proofs::Claims::far_told, crate::proofs::Claims::none_told))]
fn claim_of(name: Name, held: Option<u8>) -> Option<Frame>
    ensures told { result ≡ claim_told name held }
    ensures says { IfSome result (λ f. IsClaimOf name held f) }
{
    match held {
        Some(address) if address <= GREATEST_ADDRESS => Some(claim_frame(name, Some(address))),
        _ => None,
    }
}

/// The address in a row, if there is one.
fn address_in(row: Option<Row>) -> Option<u8>
    ensures { result ≡ address_in row }
{
    match row {
        Some(row) => row.address,
        None => None,
    }
}

/// An address, if it is another one than this.
#[tactic(auto, using(crate::proofs::Claims::but_own, crate::proofs::Claims::but_other))]
fn other_than(own: u8, address: Option<u8>) -> Option<u8>
    ensures { result ≡ but own address }
{
    match address {
        Some(address) if own == address => None,
        _ => address,
    }
}
