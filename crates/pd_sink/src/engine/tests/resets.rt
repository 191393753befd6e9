//! Rows K25 to K31, K33 and K34: soft and hard resets.

use super::*;

/// K25, PE_SNK_Send_Soft_Reset.
#[test]
fn k25_a_soft_reset_is_waited_on(rt: HostRuntime) {
    let mut sink = at(State::SendSoftReset);
    let mut want = at(State::SendSoftReset);
    let acts = sink.step(66_000, &Stimulus::Sent);
    want.sent = true;
    want.deadlines.start(66_000, SinkTimer::SenderResponse);
    assert!(rt; sink.same(&want) && acts.is_empty());
}

/// K26, PE_SNK_Send_Soft_Reset.
/// An Accept before the Soft_Reset was acknowledged is of something else.
#[test]
fn k26_an_offer_is_waited_on(rt: HostRuntime) {
    let mut sink = at(State::SendSoftReset);
    let mut want = at(State::SendSoftReset);
    let acts = sink.step(65_500, &Stimulus::Accept);
    assert!(rt; sink.same(&want) && acts.is_empty());
    let _ = sink.step(66_000, &Stimulus::Sent);
    let acts = sink.step(69_000, &Stimulus::Accept);
    enter(&mut want, State::WaitForCapabilities);
    want.deadlines.start(69_000, SinkTimer::SinkWaitCap);
    assert!(rt; sink.same(&want));
    assert!(rt; acts.as_slice() == [Act::DropWaiting].as_slice());
}

/// K27, PE_SNK_Send_Soft_Reset.
#[test]
fn k27_no_answer_resets_hard(rt: HostRuntime) {
    for stimulus in [Stimulus::Ended(Timer::SenderResponse), Stimulus::Failed] {
        let mut sink = at(State::SendSoftReset);
        let mut want = at(State::SendSoftReset);
        let _ = sink.step(66_000, &Stimulus::Sent);
        let acts = sink.step(93_000, &stimulus);
        enter_hard_reset(&mut want);
        assert!(rt; sink.same(&want));
        assert!(rt; acts.as_slice() == hard_reset_acts().as_slice());
    }
}

/// K28, PE_SNK_Soft_Reset.
#[test]
fn k28_a_soft_reset_is_accepted(rt: HostRuntime) {
    let mut sink = at(State::SoftReset);
    let mut want = at(State::SoftReset);
    let acts = sink.step(302_000, &Stimulus::Ended(Timer::Delay));
    want.deadlines.stop(Timer::Delay);
    assert!(rt; sink.same(&want));
    let accept = Act::Send(Sending::Accept);
    assert!(rt; acts.as_slice() == [accept].as_slice());
}

/// K29, PE_SNK_Soft_Reset.
#[test]
fn k29_an_offer_is_waited_on(rt: HostRuntime) {
    let mut sink = at(State::SoftReset);
    let mut want = at(State::SoftReset);
    let acts = sink.step(303_000, &Stimulus::Sent);
    enter(&mut want, State::WaitForCapabilities);
    want.deadlines.start(303_000, SinkTimer::SinkWaitCap);
    assert!(rt; sink.same(&want));
    assert!(rt; acts.as_slice() == [Act::DropWaiting].as_slice());
}

/// K30, PE_SNK_Soft_Reset.
/// The contract goes with it.
#[test]
fn k30_a_lost_accept_resets_hard(rt: HostRuntime) {
    let mut sink = at(State::SoftReset);
    let mut want = at(State::SoftReset);
    assert!(rt; want.has_contract);
    let acts = sink.step(306_000, &Stimulus::Failed);
    enter_hard_reset(&mut want);
    assert!(rt; sink.same(&want));
    assert!(rt; acts.as_slice() == hard_reset_acts().as_slice());
}

/// K31, PE_SNK_Hard_Reset.
/// No mark is cleared.
#[test]
fn k31_the_hard_reset_has_ended(rt: HostRuntime) {
    let mut sink = at(State::HardReset);
    let _ = sink.step(515_100, &Stimulus::Demand(Demand::new(13_000)));
    let mut want = sink.copy();
    assert!(rt; want.fresh);
    let acts = sink.step(515_280, &Stimulus::Sent);
    enter(&mut want, State::TransitionToDefault);
    assert!(rt; sink.same(&want));
    assert!(rt; acts.as_slice() == [Act::DropWaiting].as_slice());
}

/// K33, the states of rows K4 to K30, PE_SNK_Wait_for_Capabilities to PE_SNK_Soft_Reset.
#[test]
fn k33_a_soft_reset_comes(rt: HostRuntime) {
    for state in [
        State::WaitForCapabilities,
        State::EvaluateCapability,
        State::SelectCapability,
        State::TransitionSink,
        State::Ready,
        State::GiveSinkCap,
        State::GetSourceCap,
        State::SendSoftReset,
        State::SoftReset,
    ] {
        let mut sink = at(state);
        let mut want = at(state);
        let acts = sink.step(310_000, &Stimulus::SoftReset);
        enter(&mut want, State::SoftReset);
        want.deadlines.start(310_000, SinkTimer::Delay);
        assert!(rt; sink.same(&want));
        assert!(rt; acts.as_slice() == [Act::DropWaiting].as_slice());
    }
}

/// K34, all states but Off and Disabled.
/// It clears the contract and both marks, and leaves the counter.
#[test]
fn k34_a_hard_reset_comes(rt: HostRuntime) {
    for state in ALL_STATES {
        let mut sink = at(state);
        let _ = sink.step(309_000, &Stimulus::Demand(Demand::new(13_000)));
        let mut want = sink.copy();
        let acts = sink.step(310_000, &Stimulus::HardReset);
        if state == State::Off || state == State::Disabled {
            assert!(rt; sink.same(&want) && acts.is_empty());
        } else {
            enter(&mut want, State::TransitionToDefault);
            want.has_contract = false;
            want.fresh = false;
            assert!(rt; sink.same(&want));
            assert!(rt; acts.as_slice() == [Act::DropWaiting].as_slice());
        }
    }
    let mut sink = asking_again();
    let mut want = asking_again();
    let _ = sink.step(310_000, &Stimulus::HardReset);
    enter(&mut want, State::TransitionToDefault);
    want.has_contract = false;
    want.again = false;
    assert!(rt; sink.same(&want));
}

/// HardResetCounter: with nHardResetCount at 2 three Hard Resets are sent; then the sink is disabled, and stays so.
#[test]
fn hr_three_hard_resets(rt: HostRuntime) {
    let late = Stimulus::Ended(Timer::SinkWaitCap);
    let mut sink = at_wait();
    for count in [1, 2, 3] {
        let mut want = sink.copy();
        let acts = sink.step(515_000, &late);
        enter_hard_reset(&mut want);
        want.hard_reset_counter = count;
        assert!(rt; sink.same(&want));
        assert!(rt; acts.as_slice() == hard_reset_acts().as_slice());
        let _ = sink.step(516_000, &Stimulus::Sent);
        let _ = sink.step(520_000, &Stimulus::Vbus);
    }
    let mut want = sink.copy();
    let acts = sink.step(985_000, &late);
    enter(&mut want, State::Disabled);
    assert!(rt; sink.same(&want) && !sink.hears());
    let note = Act::Note(Note::Disabled);
    assert!(rt; acts.as_slice() == [Act::DropWaiting, note].as_slice());
    let acts = sink.step(990_000, &Stimulus::Vbus);
    assert!(rt; sink.same(&want) && acts.is_empty());
}

/// A contract is lost too, though by these rows none stands once three Hard Resets were sent.
#[test]
fn hr_disabled_without_a_contract(rt: HostRuntime) {
    let mut sink = asking_anew();
    sink.hard_reset_counter = 3;
    let mut want = sink.copy();
    let acts = sink.step(330_000, &Stimulus::Ended(Timer::SenderResponse));
    enter(&mut want, State::Disabled);
    want.has_contract = false;
    assert!(rt; sink.same(&want));
    let note = Act::Note(Note::Disabled);
    assert!(rt; acts.as_slice() == [Act::DropWaiting, note].as_slice());
}
