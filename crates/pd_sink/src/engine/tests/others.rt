//! Rows K18 to K24 and K32: capabilities that are asked for, and demands.

ghost use Rattle.std.specs.Prelude.{◌≤◌};

use super::*;

/// K18, PE_SNK_Ready.
#[test]
fn k18_capabilities_are_asked_for(rt: HostRuntime) {
    let mut sink = asking_again();
    let mut want = asking_again();
    let acts = sink.step(350_000, &Stimulus::GetSinkCap);
    enter(&mut want, State::GiveSinkCap);
    want.deadlines.start(350_000, SinkTimer::Delay);
    assert!(rt; sink.same(&want));
    assert!(rt; acts.as_slice() == [Act::DropWaiting].as_slice());
}

/// K19, PE_SNK_Ready.
#[test]
fn k19_it_asks_for_capabilities(rt: HostRuntime) {
    let mut sink = asking_again();
    let mut want = asking_again();
    let acts = sink.step(350_000, &Stimulus::GetSource);
    enter(&mut want, State::GetSourceCap);
    assert!(rt; sink.same(&want));
    let sent = Act::Send(Sending::GetSourceCap);
    assert!(rt; acts.as_slice() == [Act::DropWaiting, sent].as_slice());
}

/// K20, PE_SNK_Give_Sink_Cap.
/// 5 V at 3 A, which is 15 W, with the bit of higher capability, and 9 V at 1.67 A.
#[test]
fn k20_capabilities_are_sent(rt: HostRuntime) {
    let mut sink = at(State::GiveSinkCap);
    let mut want = at(State::GiveSinkCap);
    let acts = sink.step(302_000, &Stimulus::Ended(Timer::Delay));
    want.deadlines.stop(Timer::Delay);
    assert!(rt; sink.same(&want));
    let objects = copied(&[0x1001_912C, 0x0002_D0A7]);
    let sent = Act::Send(Sending::SinkCapabilities(objects));
    assert!(rt; acts.as_slice() == [sent].as_slice());
}

/// Whether a step leads back to Ready; what is to be asked again, or is fresh, is timed anew.
fn is_back(mut sink: Sink, now: u64, stimulus: &Stimulus) -> bool
    requires { now ≤ LAST_TIME }
{
    let mut want = sink.copy();
    let acts = sink.step(now, stimulus);
    enter(&mut want, State::Ready);
    if want.again {
        want.deadlines.start(now, SinkTimer::SinkRequest);
    }
    if want.fresh {
        want.deadlines.start(now, SinkTimer::Delay);
    }
    sink.same(&want) && sink.ready() && acts.as_slice() == [Act::DropWaiting].as_slice()
}

/// K21, PE_SNK_Give_Sink_Cap.
#[test]
fn k21_capabilities_are_given(rt: HostRuntime) {
    assert!(rt; is_back(at(State::GiveSinkCap), 304_000, &Stimulus::Sent));
    let mut sink = asking_again();
    let _ = sink.step(350_000, &Stimulus::GetSinkCap);
    assert!(rt; is_back(sink, 354_000, &Stimulus::Sent));
    let mut sink = at(State::GiveSinkCap);
    let _ = sink.step(301_000, &Stimulus::Demand(Demand::new(13_000)));
    assert!(rt; is_back(sink, 304_000, &Stimulus::Sent));
}

/// K22, PE_SNK_Get_Source_Cap.
#[test]
fn k22_capabilities_are_waited_on(rt: HostRuntime) {
    let mut sink = at(State::GetSourceCap);
    let mut want = at(State::GetSourceCap);
    let acts = sink.step(301_000, &Stimulus::Sent);
    want.sent = true;
    want.deadlines.start(301_000, SinkTimer::SenderResponse);
    assert!(rt; sink.same(&want) && acts.is_empty());
}

/// K23, PE_SNK_Get_Source_Cap.
#[test]
fn k23_no_capabilities_come(rt: HostRuntime) {
    let late = Stimulus::Ended(Timer::SenderResponse);
    let mut sink = at(State::GetSourceCap);
    let _ = sink.step(301_000, &Stimulus::Sent);
    assert!(rt; is_back(sink, 328_000, &late));
    let mut sink = asking_again();
    let _ = sink.step(350_000, &Stimulus::GetSource);
    assert!(rt; is_back(sink, 378_000, &late));
    let mut sink = at(State::GetSourceCap);
    let _ = sink.step(301_000, &Stimulus::Demand(Demand::new(13_000)));
    assert!(rt; is_back(sink, 328_000, &late));
}

/// K24, PE_SNK_Give_Sink_Cap and PE_SNK_Get_Source_Cap.
#[test]
fn k24_what_is_lost_resets_softly(rt: HostRuntime) {
    for state in [State::GiveSinkCap, State::GetSourceCap] {
        let mut sink = at(state);
        let mut want = at(state);
        let acts = sink.step(310_000, &Stimulus::Failed);
        enter(&mut want, State::SendSoftReset);
        assert!(rt; sink.same(&want));
        assert!(rt; acts.as_slice() == soft_reset_acts().as_slice());
    }
}

/// K32, all states but PE_SNK_Ready.
/// In every state but Ready.
#[test]
fn k32_a_demand_is_fresh(rt: HostRuntime) {
    for state in ALL_STATES {
        if state != State::Ready {
            let mut sink = at(state);
            let mut want = at(state);
            let acts = sink.step(310_000, &Stimulus::Demand(Demand::new(20_000)));
            want.fresh = true;
            if let Some(attached) = want.sink {
                let revision = SinkRevision::Revision3;
                want.sink = Some(SinkSettings::new(9_000, 20_000, attached.mode(), revision));
            }
            assert!(rt; sink.same(&want) && acts.is_empty());
        }
    }
}
