//! What a port's step leaves to be read, and what the port is in after it.

use super::{event, phone, port, reply, run};
use pd_header::Side;
use pd_packet::{Damage, Fate};
use pd_port::{Due, Event, EventKind, Fault, Meter, Port, Start, What};
use pd_timers::{LAST_TIME, Timer};

/// What becomes of the packet that starts at a time.
fn fate_at(port: &mut Port, events: &[Event], time: u64) -> Option<Fate> {
    let mut meter = Meter::new();
    let mut next: usize = 0;
    for _ in 0..40 {
        let due = port.due(events.get(next))?;
        if due.time > time || due.time > LAST_TIME {
            return None;
        }
        let answer = match port.ask(&due) {
            Some(query) => Some(reply(query, 5_000)),
            None => None,
        };
        let entry = port.step(&due, answer, &mut meter);
        if let What::Event(_) = due.what {
            next = next.saturating_add(1);
        }
        if let (Some(Start::Packet { fate, .. }), true) = (&entry.start, entry.at == time) {
            return Some(*fate);
        }
    }
    None
}

/// Whether there is a packet of this fate.
fn has_fate(fate: &Option<Fate>, expected: Fate) -> bool {
    match fate {
        Some(fate) => fate.same(&expected),
        None => false,
    }
}

/// The events of a phone whose first offer is damaged.
fn damaged_offer() -> [Event; 2] {
    let damaged = EventKind::Damage(Damage::new(0, 1));
    [phone(1, 0), event(2, 49_999, damaged)]
}

/// The packet's note has the place and the mask of the event.
#[test]
fn a_damaged_packet_keeps_its_damage(rt: HostRuntime) {
    let first = fate_at(&mut port(0), &damaged_offer(), 50_000);
    assert!(rt; has_fate(&first, Fate::Damaged(Damage::new(0, 1))));
    assert!(rt; !has_fate(&first, Fate::Damaged(Damage::new(1, 1))));
    assert!(rt; !has_fate(&first, Fate::Damaged(Damage::new(0, 3))));
    let again = fate_at(&mut port(0), &damaged_offer(), 51_630);
    assert!(rt; has_fate(&again, Fate::Undisturbed));
}

/// When the source polls its offer, where this is due next.
fn next_poll(port: &Port) -> Option<u64> {
    match port.due(None)? {
        Due {
            time,
            what: What::Timer {
                side: Side::Source,
                timer: Timer::OfferPoll,
            },
        } => Some(time),
        _ => None,
    }
}

/// The source polls its offer 500,000 after it is ready; before that it can't ask the sink again.
#[test]
fn the_source_is_ready_after_the_capabilities_of_the_sink(rt: HostRuntime) {
    let mut port = port(0);
    let events = [
        phone(1, 0),
        event(2, 500_000, EventKind::GetSink),
        event(3, 504_321, EventKind::GetSink),
    ];
    let seen = run(&mut port, &events, 504_321);
    assert!(rt; seen.starts.as_slice().get(4..) == Some([500_000, 503_094].as_slice()));
    assert!(rt; seen.faults.as_slice() == [Fault::Ignored { id: 3 }].as_slice());
    assert!(rt; next_poll(&port) == Some(1_004_321));
    let seen = run(&mut port, &[event(4, 504_322, EventKind::GetSink)], 504_322);
    assert!(rt; seen.faults.is_empty());
    assert!(rt; seen.starts.as_slice() == [504_322].as_slice());
}

/// An event comes before a timer of its instant.
#[test]
fn a_detach_at_its_time_keeps_a_request_back(rt: HostRuntime) {
    let events = [phone(1, 0), event(2, 58_117, EventKind::Detach)];
    let mut port = port(1);
    let seen = run(&mut port, &events, 1_000_000);
    let starts = [50_000, 51_630, 53_260, 54_890];
    assert!(rt; seen.starts.as_slice() == starts.as_slice());
    assert!(rt; seen.contract.is_none() && port.due(None).is_none());
}
