//! Whole paths of one port under a budget of 60 W, with times that were reckoned apart from this program.

ghost use Rattle.std.specs.Prelude.{◌≡◌, ℕ, ◌≤◌};

use arrayvec::ArrayVec;
use pd_header::{Kind, Side, header_kind};
use pd_identity::{Cable, CablePlug, Rating};
use pd_objects::{Answer, Contract, Query, Supply};
use pd_port::{
    ContractChange, Entry, Event, EventKind, Fault, Happening, Meter, Port, PortEventKind,
    Settings, Start, What,
};
use pd_setup::{SinkMode, SinkRevision, SinkSettings};
use pd_timers::LAST_TIME;

/// What was seen of a run: the times at which messages started, GoodCRCs apart, and how many did; the times of Hard
/// Resets; the first contract's time; the last change of the contract that was told, and when; the faults; and the
/// number of steps.
#[derive(Drop)]
struct Seen {
    starts: ArrayVec<u64, 32>,
    started: u64,
    resets: ArrayVec<u64, 8>,
    contract: Option<u64>,
    change: Option<(u64, ContractChange)>,
    faults: ArrayVec<Fault, 4>,
    last_fault: Option<Fault>,
    steps: u64,
}

/// What the budget has for the one port, which offers so many milliamperes at most. Where it has changed, it is 10 W.
fn reply(query: Query, most_ma: u32) -> Answer {
    match query {
        Query::Offer { supplies, limit_ma } => {
            let mut currents = ArrayVec::<u32, 7>::new();
            for supply in supplies.as_slice() {
                if !currents.is_full() {
                    currents.push(supply.ma().min(limit_ma).min(most_ma));
                }
            }
            Answer::Offer(currents)
        }
        Query::Fits { power } => Answer::Fits(power <= 60_000_000),
        Query::Keep { power } => Answer::Fits(power <= 10_000_000),
    }
}

impl Seen {
    fn new() -> Seen {
        Seen {
            starts: ArrayVec::new(),
            started: 0,
            resets: ArrayVec::new(),
            contract: None,
            change: None,
            faults: ArrayVec::new(),
            last_fault: None,
            steps: 0,
        }
    }

    /// Sees what starts.
    fn see_start(&mut self, at: u64, start: &Start) {
        match start {
            Start::Packet { packet, .. } => {
                if header_kind(packet.header()) != Kind::GoodCrc {
                    self.started = self.started.saturating_add(1);
                    if !self.starts.is_full() {
                        self.starts.push(at);
                    }
                }
            }
            Start::HardReset { .. } => {
                if !self.resets.is_full() {
                    self.resets.push(at);
                }
            }
        }
    }

    /// Sees an entry.
    fn see(&mut self, entry: &Entry) {
        for fault in entry.faults.as_slice() {
            self.last_fault = Some(*fault);
            if !self.faults.is_full() {
                self.faults.push(*fault);
            }
        }
        if let Some(change) = entry.contract {
            self.change = Some((entry.at, change));
        }
        if let Some(start) = &entry.start {
            self.see_start(entry.at, start);
        }
    }
}

/// What a port does under these events up to an end.
fn run(port: &mut Port, events: &[Event], end: u64) -> Seen {
    run_offered(port, events, end, 5_000)
}

/// The same where so many milliamperes are offered at most.
fn run_offered(port: &mut Port, events: &[Event], end: u64, most_ma: u32) -> Seen {
    let mut seen = Seen::new();
    let mut meter = Meter::new();
    let mut next: usize = 0;
    for _ in 0..400 {
        let Some(due) = port.due(events.get(next)) else {
            break;
        };
        if due.time > end || due.time > LAST_TIME {
            break;
        }
        let answer = match port.ask(&due) {
            Some(query) => Some(reply(query, most_ma)),
            None => None,
        };
        let entry = port.step(&due, answer, &mut meter);
        if let What::Event(_) = due.what {
            next = next.saturating_add(1);
        }
        seen.see(&entry);
        if seen.contract.is_none() && port.contract().is_some() {
            seen.contract = Some(due.time);
        }
    }
    seen.steps = meter.count();
    seen
}

/// A port of 5 V and 3 A whose cable is asked so often who it is.
fn port(tries: u8) -> Port
    requires { tries ≤ 20 }
{
    let mut supplies = ArrayVec::<Supply, 7>::new();
    supplies.push(Supply::new(5_000, 3_000));
    Port::new(&Settings::new(2_500, supplies, tries, false))
}

/// A port that has 20 V and 5 A too.
fn larger_port() -> Port {
    let mut supplies = ArrayVec::<Supply, 7>::new();
    supplies.push(Supply::new(5_000, 3_000));
    supplies.push(Supply::new(20_000, 5_000));
    Port::new(&Settings::new(2_500, supplies, 1, false))
}

fn event(id: u32, at: u64, kind: PortEventKind) -> Event
    requires least_id { 1 ≤ id }
    requires most_id { id ≤ 1000000 }
    requires in_time { at ≤ LAST_TIME }
{
    Event::new(at, Happening::Port { id, kind })
}

/// A sink of 5 V through a cable without a plug.
fn attach(id: u32, at: u64, demand_mw: u32, mode: SinkMode, revision: SinkRevision) -> Event
    requires least_id { 1 ≤ id }
    requires most_id { id ≤ 1000000 }
    requires in_time { at ≤ LAST_TIME }
    requires least { 50 ≤ demand_mw }
    requires most { demand_mw ≤ 100000 }
{
    let cable = Cable {
        plug: CablePlug::Absent,
        rating: Rating::ThreeAmperes,
    };
    let sink = SinkSettings::new(5_000, demand_mw, mode, revision);
    event(id, at, EventKind::Attach { cable, sink })
}

/// The phone: 15 W.
fn phone(id: u32, at: u64) -> Event
    requires least_id { 1 ≤ id }
    requires most_id { id ≤ 1000000 }
    requires in_time { at ≤ LAST_TIME }
{
    attach(
        id,
        at,
        15_000,
        SinkMode::PowerDelivery,
        SinkRevision::Revision3,
    )
}

#[test]
fn a_contract_after_a_cable_that_does_not_answer(rt: HostRuntime) {
    let seen = run(&mut port(1), &[phone(1, 0)], 1_000_000);
    let starts = [50_000, 51_630, 53_260, 54_890, 58_117, 61_344, 192_438];
    assert!(rt; seen.starts.as_slice() == starts.as_slice());
    assert!(rt; seen.contract == Some(193_532));
    let contract = Contract {
        position: 1,
        mv: 5_000,
        offered_ma: 3_000,
        ma: 3_000,
    };
    assert!(rt; seen.change == Some((193_532, ContractChange::Made(contract))));
    let faults = [
        Fault::NoGoodCrc {
            side: Side::Source,
            kind: Kind::VendorDefined,
        },
        Fault::CableUnread,
    ];
    assert!(rt; seen.faults.as_slice() == faults.as_slice());
}

#[test]
fn a_lost_good_crc_is_tried_again(rt: HostRuntime) {
    let events = [phone(1, 0), event(2, 58_800, EventKind::Lose)];
    let seen = run(&mut port(1), &events, 1_000_000);
    let starts = [
        50_000, 51_630, 53_260, 54_890, 58_117, 59_747, 61_344, 192_438,
    ];
    assert!(rt; seen.starts.as_slice() == starts.as_slice());
    assert!(rt; seen.contract == Some(193_532));
}

#[test]
fn three_lost_requests_are_a_soft_reset(rt: HostRuntime) {
    let events = [
        phone(1, 0),
        event(2, 57_000, EventKind::Lose),
        event(3, 57_000, EventKind::Lose),
        event(4, 57_000, EventKind::Lose),
    ];
    let seen = run(&mut port(1), &events, 1_000_000);
    let starts = [58_117, 59_747, 61_377, 63_007, 66_101, 67_195];
    assert!(rt; seen.starts.as_slice().get(4..10) == Some(starts.as_slice()));
    assert!(rt; seen.contract == Some(205_837));
    assert!(rt; seen.last_fault == Some(Fault::SoftReset { side: Side::Sink }));
}

#[test]
fn six_lost_packets_are_a_hard_reset(rt: HostRuntime) {
    let events = [
        phone(1, 0),
        event(2, 57_000, EventKind::Lose),
        event(3, 57_000, EventKind::Lose),
        event(4, 57_000, EventKind::Lose),
        event(5, 57_000, EventKind::Lose),
        event(6, 57_000, EventKind::Lose),
        event(7, 57_000, EventKind::Lose),
    ];
    let seen = run(&mut port(1), &events, 2_000_000);
    assert!(rt; seen.resets.as_slice() == [67_498].as_slice());
    assert!(rt; seen.starts.as_slice().get(10) == Some(&947_778));
    assert!(rt; seen.contract == Some(1_086_420));
    assert!(rt; seen.last_fault == Some(Fault::HardReset { side: Side::Sink }));
}

#[test]
fn a_greedy_sink_is_disabled(rt: HostRuntime) {
    let greedy = attach(1, 0, 30_000, SinkMode::Greedy, SinkRevision::Revision3);
    let seen = run(&mut port(0), &[greedy], 10_000_000);
    let resets = [522_548, 1_875_376, 3_228_204];
    assert!(rt; seen.starts.as_slice().get(1..3) == Some([53_227, 56_454].as_slice()));
    assert!(rt; seen.resets.as_slice() == resets.as_slice());
    assert!(rt; seen.contract.is_none());
    assert!(rt; seen.last_fault == Some(Fault::SinkDisabled));
}

#[test]
fn fifty_one_offers_to_a_plain_sink(rt: HostRuntime) {
    let plain = attach(1, 0, 15_000, SinkMode::Plain, SinkRevision::Revision3);
    let seen = run(&mut port(1), &[plain], 7_799_390 + 154_890);
    // Three tries each, of Discover Identity too.
    assert!(rt; seen.started == 3 * 52);
    assert!(rt; seen.last_fault == Some(Fault::SourceDisabled));
}

#[test]
fn so_many_steps_in_two_minutes(rt: HostRuntime) {
    let seen = run(&mut port(1), &[phone(1, 0)], LAST_TIME);
    assert!(rt; seen.steps == 263);
    let events = [phone(1, 0), event(2, 58_800, EventKind::Lose)];
    let seen = run(&mut port(1), &events, LAST_TIME);
    assert!(rt; seen.steps == 268);
}

#[test]
fn an_attach_after_a_detach_begins_anew(rt: HostRuntime) {
    let events = [
        phone(1, 0),
        event(2, 55_000, EventKind::Detach),
        phone(3, 55_000),
    ];
    let seen = run(&mut port(1), &events, 1_000_000);
    assert!(rt; seen.starts.as_slice().get(4) == Some(&105_000));
    assert!(rt; seen.starts.as_slice().get(7) == Some(&109_890));
    assert!(rt; seen.contract == Some(248_532));
}

#[test]
fn a_budget_that_falls_ends_a_contract(rt: HostRuntime) {
    let events = [phone(1, 0), Event::new(500_000, Happening::Budget)];
    let mut port = port(1);
    let seen = run(&mut port, &events, 1_000_000);
    assert!(rt; seen.resets.as_slice() == [500_000].as_slice());
    assert!(rt; seen.change == Some((500_000, ContractChange::Lost)));
    assert!(rt; port.contract().is_none() && port.hold() == 2_500_000);
    let seen = run(&mut port, &[], 1_400_000);
    assert!(rt; seen.starts.as_slice().first() == Some(&1_380_280));
}

#[test]
fn a_ninth_disturbance_is_ignored(rt: HostRuntime) {
    let events = [
        phone(1, 0),
        event(2, 10_000, EventKind::Lose),
        event(3, 10_000, EventKind::Lose),
        event(4, 10_000, EventKind::Lose),
        event(5, 10_000, EventKind::Lose),
        event(6, 10_000, EventKind::Lose),
        event(7, 10_000, EventKind::Lose),
        event(8, 10_000, EventKind::Lose),
        event(9, 10_000, EventKind::Lose),
        event(10, 10_000, EventKind::Lose),
    ];
    let seen = run(&mut port(0), &events, 20_000);
    assert!(rt; seen.faults.as_slice() == [Fault::Ignored { id: 10 }].as_slice());
}

/// What is offered falls to 1.5 A, so the source offers anew. The sink draws 1 A of 5 V as before: no change is told.
#[test]
fn another_offered_current_is_no_change(rt: HostRuntime) {
    let light = attach(
        1,
        0,
        5_000,
        SinkMode::PowerDelivery,
        SinkRevision::Revision3,
    );
    let mut port = port(0);
    let seen = run(&mut port, &[light], 400_000);
    let contract = Contract {
        position: 1,
        mv: 5_000,
        offered_ma: 3_000,
        ma: 1_000,
    };
    assert!(rt; seen.change.is_some() && port.contract() == Some(contract));
    let seen = run_offered(&mut port, &[], 1_000_000, 1_500);
    let offered_less = Contract {
        offered_ma: 1_500,
        ..contract
    };
    assert!(rt; seen.change.is_none() && port.contract() == Some(offered_less));
}

/// When the source makes its first offer through a cable with this plug.
fn first_offer(plug: CablePlug) -> Option<u64> {
    let cable = Cable {
        plug,
        rating: Rating::FiveAmperes,
    };
    let sink = SinkSettings::new(
        5_000,
        15_000,
        SinkMode::PowerDelivery,
        SinkRevision::Revision3,
    );
    let attached = event(1, 0, EventKind::Attach { cable, sink });
    let seen = run(&mut larger_port(), &[attached], 90_000);
    let place = match plug {
        CablePlug::Silent => 1,
        _ => 2,
    };
    seen.starts.as_slice().get(place).copied()
}

#[test]
fn an_offer_after_each_answer_of_a_plug(rt: HostRuntime) {
    assert!(rt; first_offer(CablePlug::Ack) == Some(54_988));
    assert!(rt; first_offer(CablePlug::Nak) == Some(54_454));
    assert!(rt; first_offer(CablePlug::Busy) == Some(54_454));
    assert!(rt; first_offer(CablePlug::Silent) == Some(78_227));
}

/// The first contract with a sink of Revision 2.0, some of whose packets are lost.
fn contract_of_revision_2(lost: usize) -> Option<u64> {
    let sink = attach(
        1,
        0,
        15_000,
        SinkMode::PowerDelivery,
        SinkRevision::Revision2,
    );
    let lose = event(2, 57_000, EventKind::Lose);
    let events = [sink, lose, lose, lose, lose];
    let some = match lost {
        3 => &events[..4],
        _ => &events[..],
    };
    run(&mut port(1), some, 1_000_000).contract
}

#[test]
fn a_sink_of_revision_2_has_four_tries(rt: HostRuntime) {
    assert!(rt; contract_of_revision_2(3) == Some(198_422));
    assert!(rt; contract_of_revision_2(4) == Some(207_467));
}

mod steps;
