//! Rows K1 to K17: from the attach to a contract, and to the next one.

use super::*;

/// K1, Off.
#[test]
fn k1_a_plain_sink_is_disabled(rt: HostRuntime) {
    let mut sink = Sink::new();
    let mut want = Sink::new();
    let acts = sink.step(7, &Stimulus::Attach(settings(SinkMode::Plain)));
    want.state = State::Disabled;
    want.sink = Some(settings(SinkMode::Plain));
    assert!(rt; sink.same(&want) && !sink.hears());
    assert!(rt; acts.as_slice() == [Act::DropWaiting].as_slice());
}

/// K2, Off.
#[test]
fn k2_attach_discovers(rt: HostRuntime) {
    for mode in [SinkMode::PowerDelivery, SinkMode::Greedy] {
        let mut sink = Sink::new();
        let mut want = Sink::new();
        let acts = sink.step(7, &Stimulus::Attach(settings(mode)));
        want.state = State::Discovery;
        want.sink = Some(settings(mode));
        assert!(rt; sink.same(&want) && sink.hears());
        assert!(rt; acts.as_slice() == [Act::DropWaiting].as_slice());
    }
}

/// K3, PE_SNK_Discovery and PE_SNK_Transition_to_default.
#[test]
fn k3_power_is_waited_on(rt: HostRuntime) {
    for state in [State::Discovery, State::TransitionToDefault] {
        let mut sink = at(state);
        let mut want = at(state);
        let acts = sink.step(400_000, &Stimulus::Vbus);
        enter(&mut want, State::WaitForCapabilities);
        want.deadlines.start(400_000, SinkTimer::SinkWaitCap);
        assert!(rt; sink.same(&want));
        assert!(rt; acts.as_slice() == [Act::DropWaiting].as_slice());
    }
}

/// K4, PE_SNK_Wait_for_Capabilities, PE_SNK_Evaluate_Capability, PE_SNK_Select_Capability, PE_SNK_Ready,
/// PE_SNK_Give_Sink_Cap and PE_SNK_Get_Source_Cap.
#[test]
fn k4_an_offer_is_kept(rt: HostRuntime) {
    for state in [
        State::WaitForCapabilities,
        State::EvaluateCapability,
        State::SelectCapability,
        State::Ready,
        State::GiveSinkCap,
        State::GetSourceCap,
    ] {
        let mut sink = at(state);
        let mut want = at(state);
        let other = Stimulus::SourceCapabilities(copied(&[0x0001_90C8]));
        let acts = sink.step(400_000, &other);
        enter(&mut want, State::EvaluateCapability);
        want.kept_offer = ShortList::of(&[0x0001_90C8]);
        want.deadlines.start(400_000, SinkTimer::Delay);
        assert!(rt; sink.same(&want));
        assert!(rt; acts.as_slice() == [Act::DropWaiting].as_slice());
    }
}

/// K5, PE_SNK_Wait_for_Capabilities.
/// Once without a contract, and once with one from before a Soft_Reset.
#[test]
fn k5_without_an_offer_it_resets_hard(rt: HostRuntime) {
    let mut sink = at_wait();
    let mut want = at_wait();
    let acts = sink.step(515_000, &Stimulus::Ended(Timer::SinkWaitCap));
    enter_hard_reset(&mut want);
    assert!(rt; sink.same(&want));
    assert!(rt; acts.as_slice() == hard_reset_acts().as_slice());

    let mut sink = at(State::SoftReset);
    let _ = sink.step(303_000, &Stimulus::Sent);
    let mut want = sink.copy();
    assert!(rt; want.has_contract && want.state == State::WaitForCapabilities);
    let acts = sink.step(768_000, &Stimulus::Ended(Timer::SinkWaitCap));
    enter_hard_reset(&mut want);
    assert!(rt; sink.same(&want));
    assert!(rt; acts.as_slice() == hard_reset_acts().as_slice());
}

/// K6, PE_SNK_Evaluate_Capability.
/// What was fresh is asked now.
#[test]
fn k6_the_offer_is_answered(rt: HostRuntime) {
    let mut sink = at_evaluate();
    let mut want = at_evaluate();
    let _ = sink.step(61_000, &Stimulus::Demand(Demand::new(15_000)));
    assert!(rt; sink.fresh);
    let acts = sink.step(62_000, &Stimulus::Ended(Timer::Delay));
    enter(&mut want, State::SelectCapability);
    assert!(rt; sink.same(&want));
    let request = Act::Send(Sending::Request(REQUEST));
    assert!(rt; acts.as_slice() == [Act::DropWaiting, request].as_slice());
}

/// K6, PE_SNK_Evaluate_Capability.
#[test]
fn k6_an_offer_that_falls_short(rt: HostRuntime) {
    let mut sink = at_evaluate();
    let _ = sink.step(61_000, &Stimulus::Demand(Demand::new(100_000)));
    let mut want = sink.copy();
    let acts = sink.step(62_000, &Stimulus::Ended(Timer::Delay));
    enter(&mut want, State::SelectCapability);
    want.fresh = false;
    assert!(rt; sink.same(&want));
    let note = Act::Note(Note::Mismatch);
    let request = Act::Send(Sending::Request(0x2404_B12C));
    assert!(rt; acts.as_slice() == [Act::DropWaiting, note, request].as_slice());
}

/// K7, PE_SNK_Select_Capability.
#[test]
fn k7_a_request_is_waited_on(rt: HostRuntime) {
    let mut sink = at_select();
    let mut want = at_select();
    let acts = sink.step(63_000, &Stimulus::Sent);
    want.sent = true;
    want.deadlines.start(63_000, SinkTimer::SenderResponse);
    assert!(rt; sink.same(&want) && acts.is_empty());
}

/// K8, PE_SNK_Select_Capability.
#[test]
fn k8_accept_is_a_transition(rt: HostRuntime) {
    let mut sink = at_select();
    let _ = sink.step(63_000, &Stimulus::Sent);
    let mut want = sink.copy();
    let acts = sink.step(66_000, &Stimulus::Accept);
    enter(&mut want, State::TransitionSink);
    want.deadlines.start(66_000, SinkTimer::PsTransition);
    assert!(rt; sink.same(&want));
    assert!(rt; acts.as_slice() == [Act::DropWaiting].as_slice());
}

/// K9, PE_SNK_Select_Capability.
#[test]
fn k9_without_a_contract_an_offer_is_waited_on(rt: HostRuntime) {
    for refusal in [Stimulus::Wait, Stimulus::Reject] {
        let mut sink = at_select();
        let mut want = at_select();
        let _ = sink.step(63_000, &Stimulus::Sent);
        let acts = sink.step(66_000, &refusal);
        enter(&mut want, State::WaitForCapabilities);
        want.deadlines.start(66_000, SinkTimer::SinkWaitCap);
        assert!(rt; sink.same(&want));
        assert!(rt; acts.as_slice() == [Act::DropWaiting].as_slice());
    }
}

/// K10, PE_SNK_Select_Capability.
/// With a demand that came meanwhile, and without.
#[test]
fn k10_wait_is_asked_again(rt: HostRuntime) {
    for fresh in [false, true] {
        let mut sink = asking_anew();
        if fresh {
            let _ = sink.step(303_000, &Stimulus::Demand(Demand::new(13_000)));
        }
        let mut want = sink.copy();
        let acts = sink.step(306_000, &Stimulus::Wait);
        enter(&mut want, State::Ready);
        want.again = true;
        want.deadlines.start(306_000, SinkTimer::SinkRequest);
        if fresh {
            want.deadlines.start(306_000, SinkTimer::Delay);
        }
        assert!(rt; sink.same(&want) && sink.ready());
        assert!(rt; acts.as_slice() == [Act::DropWaiting].as_slice());
    }
}

/// K11, PE_SNK_Select_Capability.
/// With a demand that came meanwhile, and without.
#[test]
fn k11_reject_stays_with_the_contract(rt: HostRuntime) {
    for fresh in [false, true] {
        let mut sink = asking_anew();
        if fresh {
            let _ = sink.step(303_000, &Stimulus::Demand(Demand::new(13_000)));
        }
        let mut want = sink.copy();
        let acts = sink.step(306_000, &Stimulus::Reject);
        enter(&mut want, State::Ready);
        if fresh {
            want.deadlines.start(306_000, SinkTimer::Delay);
        }
        assert!(rt; sink.same(&want) && sink.ready());
        assert!(rt; acts.as_slice() == [Act::DropWaiting].as_slice());
    }
}

/// K12, PE_SNK_Select_Capability.
#[test]
fn k12_no_answer_resets_hard(rt: HostRuntime) {
    let mut sink = asking_anew();
    let mut want = asking_anew();
    let _ = sink.step(303_000, &Stimulus::Sent);
    let acts = sink.step(330_000, &Stimulus::Ended(Timer::SenderResponse));
    enter_hard_reset(&mut want);
    assert!(rt; sink.same(&want));
    assert!(rt; acts.as_slice() == hard_reset_acts().as_slice());
}

/// K13, PE_SNK_Select_Capability.
#[test]
fn k13_a_lost_request_resets_softly(rt: HostRuntime) {
    let mut sink = at_select();
    let mut want = at_select();
    let acts = sink.step(65_000, &Stimulus::Failed);
    enter(&mut want, State::SendSoftReset);
    assert!(rt; sink.same(&want));
    assert!(rt; acts.as_slice() == soft_reset_acts().as_slice());
}

/// K14, PE_SNK_Transition_Sink.
/// With a demand that came meanwhile, and without; after a Hard Reset.
#[test]
fn k14_ps_rdy_is_a_contract(rt: HostRuntime) {
    for fresh in [false, true] {
        let mut sink = at_hard_reset();
        let _ = sink.step(516_000, &Stimulus::Sent);
        let _ = sink.step(520_000, &Stimulus::Vbus);
        let _ = sink.step(530_000, &offer());
        let _ = sink.step(532_000, &Stimulus::Ended(Timer::Delay));
        let _ = sink.step(536_000, &Stimulus::Accept);
        if fresh {
            let _ = sink.step(537_000, &Stimulus::Demand(Demand::new(13_000)));
        }
        let mut want = sink.copy();
        assert!(rt; want.hard_reset_counter == 1 && !want.has_contract);
        let acts = sink.step(660_000, &Stimulus::PsRdy);
        enter(&mut want, State::Ready);
        want.has_contract = true;
        want.hard_reset_counter = 0;
        if fresh {
            want.deadlines.start(660_000, SinkTimer::Delay);
        }
        assert!(rt; sink.same(&want) && sink.ready());
        assert!(rt; acts.as_slice() == [Act::DropWaiting].as_slice());
    }
}

/// K15, PE_SNK_Transition_Sink.
#[test]
fn k15_a_transition_that_never_ends_resets_hard(rt: HostRuntime) {
    let mut sink = at_transition();
    let mut want = at_transition();
    let acts = sink.step(566_000, &Stimulus::Ended(Timer::PsTransition));
    enter_hard_reset(&mut want);
    assert!(rt; sink.same(&want));
    assert!(rt; acts.as_slice() == hard_reset_acts().as_slice());
}

/// K16, PE_SNK_Ready.
/// By the Delay after a demand, and by SinkRequest after a Wait.
#[test]
fn k16_it_asks_anew(rt: HostRuntime) {
    for timer in [Timer::Delay, Timer::SinkRequest] {
        let mut sink = asking_again();
        let _ = sink.step(307_000, &Stimulus::Demand(Demand::new(15_000)));
        let mut want = sink.copy();
        assert!(rt; want.again && want.fresh);
        let acts = sink.step(406_000, &Stimulus::Ended(timer));
        enter(&mut want, State::SelectCapability);
        want.fresh = false;
        want.again = false;
        assert!(rt; sink.same(&want));
        let request = Act::Send(Sending::Request(REQUEST));
        assert!(rt; acts.as_slice() == [Act::DropWaiting, request].as_slice());
    }
}

/// K17, PE_SNK_Ready.
#[test]
fn k17_demand_starts_a_delay(rt: HostRuntime) {
    let mut sink = at_ready();
    let mut want = at_ready();
    let acts = sink.step(300_000, &Stimulus::Demand(Demand::new(20_000)));
    let more = SinkSettings::new(
        9_000,
        20_000,
        SinkMode::PowerDelivery,
        SinkRevision::Revision3,
    );
    want.sink = Some(more);
    want.fresh = true;
    want.deadlines.start(300_000, SinkTimer::Delay);
    assert!(rt; sink.same(&want) && acts.is_empty());
}
