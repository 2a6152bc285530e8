ghost use Rattle.std.specs.Prelude.{◌≡◌, ◌<◌, length, slice_get, IfSome};

use garage::Parked;

/// Where the unit of a seat stands among units in the order of their seats. That is right before the seat's number where no unit
/// has left, so there it is looked for first.
pub(crate) fn place_of(units: &[Parked], seat: u32) -> Option<usize>
    ensures within { IfSome result (λ i. i < length units.now) }
    ensures its { IfSome result (λ i. IfSome (slice_get units.now i) (λ parked. parked.seat ≡ seat)) }
{
    let likely = seat.saturating_sub(1) as usize;
    if let Some(parked) = units.get(likely) {
        if parked.seat() == seat {
            return Some(likely);
        }
    }
    let seat_of = |parked: &Parked|
        ensures { result ≡ parked.now.seat }
    { parked.seat() };
    match units.binary_search_by_key(&seat, seat_of) {
        Ok(place) => Some(place),
        Err(_) => None,
    }
}
