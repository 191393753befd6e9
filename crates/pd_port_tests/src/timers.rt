//! How long each timer runs, from the written table of the timers, with the standard's parameters.

use pd_timers::{COUNT, Deadlines, DelayAlone, SinkDeadlines, SinkTimer, Timer, place_of, value};

/// Each timer and its microseconds, in the order of ties.
const TABLE: [(Timer, u32); 14] = [
    (Timer::Delay, 2_000),
    (Timer::SenderResponse, 27_000), // tSenderResponse
    (Timer::VdmResponse, 27_000), // tVDMSenderResponse
    (Timer::SourceCapability, 150_000), // tTypeCSendSourceCap
    (Timer::SinkWaitCap, 465_000), // tTypeCSinkWaitCap
    (Timer::DiscoverIdentity, 45_000), // tDiscoverIdentity
    (Timer::SrcTransition, 30_000), // tSrcTransition
    (Timer::Settling, 100_000),
    (Timer::PsTransition, 500_000), // tPSTransition
    (Timer::PsHardReset, 30_000), // tPSHardReset
    (Timer::SrcRecover, 800_000), // tSrcRecover
    (Timer::TurnOn, 50_000),
    (Timer::SinkRequest, 100_000), // tSinkRequest
    (Timer::OfferPoll, 500_000),
];

#[test]
fn each_timer_runs_so_long(rt: HostRuntime) {
    assert_eq!(rt; TABLE.len(), COUNT);
    for (place, (timer, microseconds)) in TABLE.iter().enumerate() {
        assert_eq!(rt; value(*timer), *microseconds, "at {place}");
        assert_eq!(rt; place_of(*timer), place, "at {place}");
    }
}

/// Each timer alone is due after its own time, and all together in the order of their times and of ties.
#[test]
fn each_deadline_falls_due_in_turn(rt: HostRuntime) {
    let mut all = Deadlines::new();
    for (timer, microseconds) in TABLE.iter() {
        let mut alone = Deadlines::new();
        alone.start(7, *timer);
        assert!(rt; alone.first() == Some((7 + u64::from(*microseconds), *timer)));
        all.start(7, *timer);
    }
    let order = [
        (2_007, Timer::Delay),
        (27_007, Timer::SenderResponse),
        (27_007, Timer::VdmResponse),
        (30_007, Timer::SrcTransition),
        (30_007, Timer::PsHardReset),
        (45_007, Timer::DiscoverIdentity),
        (50_007, Timer::TurnOn),
        (100_007, Timer::Settling),
        (100_007, Timer::SinkRequest),
        (150_007, Timer::SourceCapability),
        (465_007, Timer::SinkWaitCap),
        (500_007, Timer::PsTransition),
        (500_007, Timer::OfferPoll),
        (800_007, Timer::SrcRecover),
    ];
    for due in order {
        assert!(rt; all.first() == Some(due));
        all.stop(due.1);
    }
    assert!(rt; all.first().is_none());
}

/// Delay, kept alone, is due after its own time, and the stop of another timer leaves it.
#[test]
fn delay_alone_falls_due(rt: HostRuntime) {
    let mut alone = DelayAlone::new();
    assert!(rt; alone.first().is_none());
    alone.start(7);
    alone.stop(Timer::VdmResponse);
    assert!(rt; alone.first() == Some((2_007, Timer::Delay)));
    alone.stop(Timer::Delay);
    assert!(rt; alone.first().is_none() && alone.same(&DelayAlone::new()));
}

/// The sink's five timers fall due in the order of their times, and at equal times in the order of ties; the stop of a timer
/// that the sink hasn't leaves them.
#[test]
fn sink_deadlines_fall_due_in_turn(rt: HostRuntime) {
    let mut five = SinkDeadlines::new();
    assert!(rt; five.first().is_none());
    let timers = [
        SinkTimer::SinkRequest,
        SinkTimer::PsTransition,
        SinkTimer::SinkWaitCap,
        SinkTimer::SenderResponse,
        SinkTimer::Delay,
    ];
    for timer in timers {
        five.start(7, timer);
    }
    five.start(25_007, SinkTimer::Delay);
    five.stop(Timer::OfferPoll);
    let order = [
        (27_007, Timer::Delay),
        (27_007, Timer::SenderResponse),
        (100_007, Timer::SinkRequest),
        (465_007, Timer::SinkWaitCap),
        (500_007, Timer::PsTransition),
    ];
    for due in order {
        assert!(rt; five.first() == Some(due));
        assert!(rt; !five.same(&SinkDeadlines::new()));
        five.stop(due.1);
    }
    assert!(rt; five.first().is_none() && five.same(&SinkDeadlines::new()));
}
