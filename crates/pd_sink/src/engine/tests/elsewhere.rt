//! Anything else: stay, no act. For each stimulus the states are listed in which a row speaks of it.

use super::*;

/// Whether in all states but these a stimulus does no more than what comes before every row: a timer that fell due has
/// ended, and Sent has set the mark.
fn stays_elsewhere(stimulus: &Stimulus, states: &[State]) -> bool {
    for state in ALL_STATES {
        if !states.contains(&state) {
            let mut sink = at(state);
            let mut want = at(state);
            let acts = sink.step(600_000, stimulus);
            if let Stimulus::Ended(timer) = stimulus {
                want.deadlines.stop(*timer);
            }
            want.sent = want.sent || matches!(stimulus, Stimulus::Sent);
            if !sink.same(&want) || !acts.is_empty() {
                return false;
            }
        }
    }
    true
}

#[test]
fn messages_elsewhere(rt: HostRuntime) {
    let select = [State::SelectCapability];
    assert!(rt; stays_elsewhere(&Stimulus::Accept, &select));
    assert!(rt; stays_elsewhere(&Stimulus::Reject, &select));
    assert!(rt; stays_elsewhere(&Stimulus::Wait, &select));
    assert!(rt; stays_elsewhere(&Stimulus::PsRdy, &[State::TransitionSink]));
    assert!(rt; stays_elsewhere(&Stimulus::GetSinkCap, &[State::Ready]));
    let offered = [
        State::WaitForCapabilities,
        State::EvaluateCapability,
        State::SelectCapability,
        State::Ready,
        State::GiveSinkCap,
        State::GetSourceCap,
    ];
    assert!(rt; stays_elsewhere(&offer(), &offered));
    let reset = [
        State::WaitForCapabilities,
        State::EvaluateCapability,
        State::SelectCapability,
        State::TransitionSink,
        State::Ready,
        State::GiveSinkCap,
        State::GetSourceCap,
        State::SendSoftReset,
        State::SoftReset,
    ];
    assert!(rt; stays_elsewhere(&Stimulus::SoftReset, &reset));
}

#[test]
fn what_is_sent_elsewhere(rt: HostRuntime) {
    let sends = [
        State::SelectCapability,
        State::GiveSinkCap,
        State::GetSourceCap,
        State::SendSoftReset,
        State::SoftReset,
    ];
    assert!(rt; stays_elsewhere(&Stimulus::Failed, &sends));
    let ends = [
        State::SelectCapability,
        State::GiveSinkCap,
        State::GetSourceCap,
        State::SendSoftReset,
        State::SoftReset,
        State::HardReset,
    ];
    assert!(rt; stays_elsewhere(&Stimulus::Sent, &ends));
}

#[test]
fn timers_elsewhere(rt: HostRuntime) {
    let delayed = [
        State::EvaluateCapability,
        State::Ready,
        State::GiveSinkCap,
        State::SoftReset,
    ];
    assert!(rt; stays_elsewhere(&Stimulus::Ended(Timer::Delay), &delayed));
    let answered = [
        State::SelectCapability,
        State::GetSourceCap,
        State::SendSoftReset,
    ];
    assert!(rt; stays_elsewhere(&Stimulus::Ended(Timer::SenderResponse), &answered));
    let waits = [State::WaitForCapabilities];
    assert!(rt; stays_elsewhere(&Stimulus::Ended(Timer::SinkWaitCap), &waits));
    let moves = [State::TransitionSink];
    assert!(rt; stays_elsewhere(&Stimulus::Ended(Timer::PsTransition), &moves));
    assert!(rt; stays_elsewhere(&Stimulus::Ended(Timer::SinkRequest), &[State::Ready]));
    for timer in [
        Timer::VdmResponse,
        Timer::SourceCapability,
        Timer::DiscoverIdentity,
        Timer::SrcTransition,
        Timer::Settling,
        Timer::PsHardReset,
        Timer::SrcRecover,
        Timer::TurnOn,
        Timer::OfferPoll,
    ] {
        assert!(rt; stays_elsewhere(&Stimulus::Ended(timer), &[]));
    }
}

#[test]
fn events_elsewhere(rt: HostRuntime) {
    assert!(rt; stays_elsewhere(&Stimulus::Other, &[]));
    assert!(rt; stays_elsewhere(&Stimulus::GetSource, &[State::Ready]));
    let powered = [State::Discovery, State::TransitionToDefault];
    assert!(rt; stays_elsewhere(&Stimulus::Vbus, &powered));
    let dead = [State::Off, State::Disabled];
    for state in dead {
        let mut sink = at(state);
        let acts = sink.step(600_000, &Stimulus::HardReset);
        assert!(rt; sink.same(&at(state)) && acts.is_empty());
    }
}
