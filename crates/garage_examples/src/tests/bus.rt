//! The queues of the seats, and what is carried of them.

use bus_ledger::{Bus, Carried};
use can_frame::{Frame, Reading};
use name_field::Name;
use std::process::Abort;

const STATION: u64 = 1;

const UNIT: u64 = 0xA0;

fn frame(rt: &impl Abort, id: u32) -> Frame {
    Frame::new(id, &[]).expect(rt, "an identifier")
}

#[test]
fn lowest_identifier_is_carried(rt: HostRuntime) {
    let mut bus = Bus::new(rt.alloc(), Name::from_number(STATION), 1).expect(&rt, "a bus");
    let seat = bus.join(Name::from_number(UNIT)).expect(&rt, "a seat");
    assert_eq!(rt; seat, 1);
    let claim = frame(&rt, 0x18EE_FF00);
    let request = frame(&rt, 0x18EA_FFF9);
    bus.queue(1, claim, None).expect(&rt, "room");
    bus.reserve(0, 1).expect(&rt, "room");
    bus.queue(0, request, None).expect(&rt, "room");
    assert_eq!(rt;
        bus.carry().expect(&rt, "room"),
        Carried::Frame {
            seat: 0,
            frame: request
        }
    );
    assert_eq!(rt; bus.carry_peek(), Carried::Waiting);
    assert_eq!(rt; bus.next_for(1), Some(request));
    assert_eq!(rt; bus.tap_peek(), Reading::Empty);
}
