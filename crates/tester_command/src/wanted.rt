//! What the station is to do for an order.
ghost use Rattle.std.specs.Prelude.{◌≡◌, IfSome};
ghost use Rattle.tester_command.specs.Orders.{IsWanted};

use crate::order::{Question, TestOrder};
use live_station::Order;
use name_field::Name;

/// What the station is to do to the unit of a NAME for an order that is for it; none where that is nothing of a station's.
pub(crate) fn wanted_of(order: &TestOrder, name: Name) -> Option<Order>
    ensures { IfSome result (IsWanted order.now name) }
{
    match order {
        TestOrder::Ask {
            what: Question::Message(kind),
            ..
        } => Some(Order::Ask { name, kind: *kind }),
        TestOrder::Ask {
            what: Question::Claim,
            ..
        } => Some(Order::AskClaim { name }),
        TestOrder::Clear { what, .. } => Some(Order::Clear { name, what: *what }),
        TestOrder::Command {
            name: commanded,
            address,
        } => command_to(*commanded, name, *address),
        _ => None,
    }
}

/// The command of a unit, where it is that of this NAME.
fn command_to(commanded: Name, name: Name, address: u8) -> Option<Order>
    ensures { IfSome result (λ o. (commanded ≡ name) × (o ≡ Order.Command name address)) }
{
    if commanded == name {
        Some(Order::Command { name, address })
    } else {
        None
    }
}
