//! Rows 23 to 37: the supply's transition, the contract, and what comes under it.

use super::*;

/// S23, PE_SRC_Transition_Supply.
#[test]
fn s23_accepted_starts_the_transition(rt: HostRuntime) {
    let source = at_transition_supply();
    let mut want = source.copy();
    want.sent = true;
    want.deadlines.start(55_000, Timer::SrcTransition);
    assert!(rt; gives(source, 55_000, &Stimulus::Sent(Sent::Accept), &want, &[]));
}

/// S24, PE_SRC_Transition_Supply.
#[test]
fn s24_the_supply_settles(rt: HostRuntime) {
    let source = after(
        at_transition_supply(),
        55_000,
        &Stimulus::Sent(Sent::Accept),
    );
    let mut want = source.copy();
    want.deadlines = Deadlines::new();
    want.deadlines.start(85_000, Timer::Settling);
    assert!(rt; gives(source, 85_000, &ended(Timer::SrcTransition), &want, &[]));
}

/// In Transition_Supply, where the supply has settled, from Send_Capabilities.
fn settling(offering: Source) -> Source {
    let mut source = after(offering, 700_000, &sent());
    source = after(source, 701_000, &request(REQUEST));
    let _ = source.step(703_000, &ended(Timer::Delay), Some(Answer::Fits(true)));
    source = after(source, 704_000, &Stimulus::Sent(Sent::Accept));
    after(source, 734_000, &ended(Timer::SrcTransition))
}

/// S25, PE_SRC_Transition_Supply.
#[test]
fn s25_tells_that_the_supply_is_ready(rt: HostRuntime) {
    let source = settling(at_send_capabilities());
    let mut want = source.copy();
    want.deadlines = Deadlines::new();
    let acts = [Act::Send(Sending::PsRdy)];
    assert!(rt; gives(source, 834_000, &ended(Timer::Settling), &want, &acts));
}

/// S26, PE_SRC_Transition_Supply.
/// After a hard reset, so that its count is seen to fall.
#[test]
fn s26_commits_the_contract(rt: HostRuntime) {
    let settled = settling(counts::reset_once(at_send_capabilities()));
    let source = after(settled, 834_000, &ended(Timer::Settling));
    assert!(rt; source.hard_reset_counter == 1);
    let mut want = entered(&source, State::Ready);
    want.contract = Some(contract());
    want.accepted_request = None;
    want.hard_reset_counter = 0;
    want.deadlines.start(835_000, Timer::OfferPoll);
    assert!(rt; want.hold(500_000) == 56_000_000);
    let stimulus = Stimulus::Sent(Sent::PsRdy);
    assert!(rt; gives(source, 835_000, &stimulus, &want, &[Act::DropWaiting]));
}

/// S23 and S26, PE_SRC_Transition_Supply.
#[test]
fn s23_and_s26_ask_what_was_sent(rt: HostRuntime) {
    let source = at_transition_supply();
    let mut want = source.copy();
    want.sent = true;
    assert!(rt; gives(source, 55_000, &sent(), &want, &[]));
}

/// S27, PE_SRC_Transition_Supply.
#[test]
fn s27_failed_transition_resets_hard(rt: HostRuntime) {
    let source = at_transition_supply();
    let want = hard_resetting(&source);
    assert!(rt;
        gives(
            source,
            57_000,
            &Stimulus::Failed,
            &want,
            &sends_hard_reset()
        )
    );
}

/// The states in which the offer is looked at again.
const POLLING: [State; 2] = [State::Ready, State::WaitNewCapabilities];

/// S28, PE_SRC_Ready and PE_SRC_Wait_New_Capabilities.
#[test]
fn s28_another_offer_is_made(rt: HostRuntime) {
    let stimulus = ended(Timer::OfferPoll);
    for state in POLLING {
        let source = at(state);
        let mut want = offering(&source);
        want.draft_offer = ShortList::of(&[3_000, 1_000]);
        let objects = copied(&[0x0801_912C, 0x0006_4064]);
        let acts = [
            Act::DropWaiting,
            Act::Send(Sending::SourceCapabilities(objects)),
        ];
        let less = Some(Answer::Offer(copied(&[3_000, 1_000])));
        assert!(rt; asked_limit(&source, &stimulus) == 3_000);
        assert!(rt; answered_gives(source, 686_000, &stimulus, less, &want, &acts));
    }
}

/// S29, PE_SRC_Ready and PE_SRC_Wait_New_Capabilities.
#[test]
fn s29_the_same_offer_is_looked_at_again(rt: HostRuntime) {
    let stimulus = ended(Timer::OfferPoll);
    for state in POLLING {
        let source = at(state);
        let mut want = entered(&source, state);
        want.deadlines.start(686_000, Timer::OfferPoll);
        let acts = [Act::DropWaiting];
        assert!(rt; answered_gives(source, 686_000, &stimulus, offer(), &want, &acts));
    }
}

/// S30, PE_SRC_Ready and PE_SRC_Wait_New_Capabilities.
#[test]
fn s30_get_source_cap_starts_a_delay(rt: HostRuntime) {
    for state in POLLING {
        let source = at(state);
        let mut want = source.copy();
        want.deadlines.start(190_000, Timer::Delay);
        assert!(rt; source.ask(&Stimulus::GetSourceCap).is_none());
        assert!(rt; gives(source, 190_000, &Stimulus::GetSourceCap, &want, &[]));
    }
}

/// S31, PE_SRC_Ready and PE_SRC_Wait_New_Capabilities.
#[test]
fn s31_answers_get_source_cap(rt: HostRuntime) {
    let stimulus = ended(Timer::Delay);
    for state in POLLING {
        let source = after(at(state), 190_000, &Stimulus::GetSourceCap);
        let want = offering(&source);
        assert!(rt; asked_limit(&source, &stimulus) == 3_000);
        assert!(rt; answered_gives(source, 192_000, &stimulus, offer(), &want, &sends_offer()));
    }
}

/// S32, PE_SRC_Ready.
#[test]
fn s32_keeps_another_request(rt: HostRuntime) {
    assert!(rt; offers::keeps(State::Ready, 190_000));
}

/// S33, PE_SRC_Ready.
#[test]
fn s33_asks_for_the_sinks_capabilities(rt: HostRuntime) {
    let source = at_ready();
    let want = entered(&source, State::GetSinkCap);
    let acts = [Act::DropWaiting, Act::Send(Sending::GetSinkCap)];
    assert!(rt; gives(source, 190_000, &Stimulus::GetSink, &want, &acts));
}

/// S34, PE_SRC_Get_Sink_Cap.
#[test]
fn s34_waits_for_the_sinks_capabilities(rt: HostRuntime) {
    let source = at(State::GetSinkCap);
    let mut want = source.copy();
    want.sent = true;
    want.deadlines.start(191_000, Timer::SenderResponse);
    assert!(rt; gives(source, 191_000, &sent(), &want, &[]));
}

/// S35, PE_SRC_Get_Sink_Cap.
#[test]
fn s35_is_ready_again(rt: HostRuntime) {
    let stimuli = [Stimulus::SinkCapabilities, ended(Timer::SenderResponse)];
    for stimulus in stimuli.iter() {
        let source = after(at(State::GetSinkCap), 191_000, &sent());
        let mut want = entered(&source, State::Ready);
        want.deadlines.start(218_000, Timer::OfferPoll);
        assert!(rt; gives(source, 218_000, stimulus, &want, &[Act::DropWaiting]));
    }
}

/// S36, PE_SRC_Get_Sink_Cap.
#[test]
fn s36_keeps_a_request_in_place_of_capabilities(rt: HostRuntime) {
    assert!(rt; offers::keeps(State::GetSinkCap, 191_500));
}

/// S37, PE_SRC_Get_Sink_Cap.
#[test]
fn s37_unheard_question_resets_softly(rt: HostRuntime) {
    let source = at(State::GetSinkCap);
    let want = soft_resetting(&source);
    assert!(rt;
        gives(
            source,
            193_000,
            &Stimulus::Failed,
            &want,
            &sends_soft_reset()
        )
    );
}

/// At Accept of a smaller request the old contract counts; from the commit on the new one does.
#[test]
fn the_old_contract_counts_until_the_commit(rt: HostRuntime) {
    let mut source = after(at_ready(), 190_000, &request(SMALL_REQUEST));
    let _ = source.step(192_000, &ended(Timer::Delay), Some(Answer::Fits(true)));
    assert!(rt; source.hold(500_000) == 56_000_000);
    let _ = source.step(193_000, &Stimulus::Sent(Sent::PsRdy), None);
    assert!(rt; source.hold(500_000) == 5_000_000);
    let small = Contract {
        position: 1,
        mv: 5_000,
        offered_ma: 3_000,
        ma: 1_000,
    };
    assert!(rt; source.contract() == Some(small));
    assert!(rt; source.ready());
}
