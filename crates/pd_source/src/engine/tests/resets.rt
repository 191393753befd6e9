//! Rows 38 to 49: resets.

use super::*;

/// The states of rows 10 to 43.
const SOFT_RESET_STATES: [State; 10] = [
    State::SendCapabilities,
    State::Discovery,
    State::NegotiateCapability,
    State::CapabilityResponse,
    State::TransitionSupply,
    State::Ready,
    State::WaitNewCapabilities,
    State::GetSinkCap,
    State::SendSoftReset,
    State::SoftReset,
];

/// The states but these, and but Off and Disabled.
const OTHER_STATES: [State; 5] = [
    State::Startup,
    State::VdmIdentityRequest,
    State::HardReset,
    State::HardResetReceived,
    State::TransitionToDefault,
];

/// S38, PE_SRC_Send_Soft_Reset.
#[test]
fn s38_waits_for_accept(rt: HostRuntime) {
    let source = at(State::SendSoftReset);
    let mut want = source.copy();
    want.sent = true;
    want.deadlines.start(192_000, Timer::SenderResponse);
    assert!(rt; gives(source, 192_000, &sent(), &want, &[]));
}

/// S39, PE_SRC_Send_Soft_Reset.
#[test]
fn s39_accept_makes_an_offer(rt: HostRuntime) {
    let source = after(at(State::SendSoftReset), 192_000, &sent());
    let want = offering(&source);
    assert!(rt; asked_limit(&source, &Stimulus::Accept) == 3_000);
    assert!(rt;
        answered_gives(
            source,
            193_000,
            &Stimulus::Accept,
            offer(),
            &want,
            &sends_offer()
        )
    );
}

/// S39, PE_SRC_Send_Soft_Reset.
#[test]
fn s39_needs_the_reset_sent(rt: HostRuntime) {
    let source = at(State::SendSoftReset);
    let want = source.copy();
    assert!(rt; source.ask(&Stimulus::Accept).is_none());
    assert!(rt; gives(source, 193_000, &Stimulus::Accept, &want, &[]));
}

/// S40, PE_SRC_Send_Soft_Reset.
#[test]
fn s40_no_accept_resets_hard(rt: HostRuntime) {
    let stimuli = [ended(Timer::SenderResponse), Stimulus::Failed];
    for stimulus in stimuli.iter() {
        let source = after(at(State::SendSoftReset), 192_000, &sent());
        let want = hard_resetting(&source);
        assert!(rt; gives(source, 219_000, stimulus, &want, &sends_hard_reset()));
    }
}

/// S41, PE_SRC_Soft_Reset.
#[test]
fn s41_accepts_a_soft_reset(rt: HostRuntime) {
    let source = at(State::SoftReset);
    let mut want = source.copy();
    want.deadlines = Deadlines::new();
    let acts = [Act::Send(Sending::Accept)];
    assert!(rt; gives(source, 192_000, &ended(Timer::Delay), &want, &acts));
}

/// S42, PE_SRC_Soft_Reset.
#[test]
fn s42_offers_after_a_soft_reset(rt: HostRuntime) {
    let source = after(at(State::SoftReset), 192_000, &ended(Timer::Delay));
    let want = offering(&source);
    assert!(rt; asked_limit(&source, &sent()) == 3_000);
    assert!(rt; answered_gives(source, 193_000, &sent(), offer(), &want, &sends_offer()));
}

/// S43, PE_SRC_Soft_Reset.
#[test]
fn s43_unheard_accept_resets_hard(rt: HostRuntime) {
    let source = after(at(State::SoftReset), 192_000, &ended(Timer::Delay));
    let want = hard_resetting(&source);
    assert!(rt;
        gives(
            source,
            195_000,
            &Stimulus::Failed,
            &want,
            &sends_hard_reset()
        )
    );
}

/// S44, PE_SRC_Hard_Reset.
#[test]
fn s44_the_hard_reset_has_ended(rt: HostRuntime) {
    let source = at_hard_reset();
    let mut want = source.copy();
    want.sent = true;
    want.deadlines.start(78_280, Timer::PsHardReset);
    assert!(rt; gives(source, 78_280, &sent(), &want, &[]));
}

/// S45, PE_SRC_Hard_Reset and PE_SRC_Hard_Reset_Received.
#[test]
fn s45_switches_off(rt: HostRuntime) {
    let sources = [
        after(at_hard_reset(), 79_000, &sent()),
        at(State::HardResetReceived),
    ];
    for source in sources.iter() {
        let mut want = entered(source, State::TransitionToDefault);
        want.deadlines.start(220_000, Timer::SrcRecover);
        let acts = [Act::DropWaiting, Act::Off];
        assert!(rt;
            gives(
                source.copy(),
                220_000,
                &ended(Timer::PsHardReset),
                &want,
                &acts
            )
        );
    }
}

/// S46, PE_SRC_Transition_to_default.
#[test]
fn s46_starts_up_again(rt: HostRuntime) {
    let source = at(State::TransitionToDefault);
    let mut want = entered(&source, State::Startup);
    want.deadlines.start(909_000, Timer::TurnOn);
    let stimulus = ended(Timer::SrcRecover);
    assert!(rt; gives(source, 909_000, &stimulus, &want, &[Act::DropWaiting]));
}

/// S47, the states of rows S10 to S43, PE_SRC_Send_Capabilities to PE_SRC_Soft_Reset.
#[test]
fn s47_soft_reset_is_received(rt: HostRuntime) {
    for state in SOFT_RESET_STATES {
        let source = at(state);
        let mut want = entered(&source, State::SoftReset);
        close(&mut want);
        want.deadlines.start(200_000, Timer::Delay);
        assert!(rt; source.ask(&Stimulus::SoftReset).is_none());
        assert!(rt;
            gives(
                source,
                200_000,
                &Stimulus::SoftReset,
                &want,
                &[Act::DropWaiting]
            )
        );
    }
}

/// S47, the states of rows S10 to S43, PE_SRC_Send_Capabilities to PE_SRC_Soft_Reset.
#[test]
fn s47_elsewhere_a_soft_reset_is_nothing(rt: HostRuntime) {
    for state in OTHER_STATES {
        let source = at(state);
        let want = source.copy();
        assert!(rt; gives(source, 200_000, &Stimulus::SoftReset, &want, &[]));
    }
}

/// What a Hard Reset that comes leaves.
fn received(state: State) -> bool {
    let source = at(state);
    let mut want = entered(&source, State::HardResetReceived);
    void(&mut want);
    want.deadlines.start(200_000, Timer::PsHardReset);
    source.ask(&Stimulus::HardReset).is_none()
        && gives(
            source,
            200_000,
            &Stimulus::HardReset,
            &want,
            &[Act::DropWaiting],
        )
}

/// S48, all states but Off and PE_SRC_Disabled.
#[test]
fn s48_hard_reset_is_received(rt: HostRuntime) {
    for state in SOFT_RESET_STATES {
        assert!(rt; received(state));
    }
    for state in OTHER_STATES {
        assert!(rt; received(state));
    }
}

/// What a shed leaves: the own Hard Reset, and no hold above the floor.
fn shed(state: State) -> bool {
    let source = at(state);
    let want = hard_resetting(&source);
    source.ask(&Stimulus::Shed).is_none()
        && want.hold(500_000) == 500_000
        && gives(source, 200_000, &Stimulus::Shed, &want, &sends_hard_reset())
}

/// S49, all states but Off and PE_SRC_Disabled.
#[test]
fn s49_shed_resets_hard(rt: HostRuntime) {
    for state in SOFT_RESET_STATES {
        assert!(rt; shed(state));
    }
    for state in OTHER_STATES {
        assert!(rt; shed(state));
    }
}

/// What the detached and the disabled source hear changes nothing.
#[test]
fn off_and_disabled_hear_nothing(rt: HostRuntime) {
    let stimuli = [
        Stimulus::SoftReset,
        Stimulus::HardReset,
        Stimulus::Shed,
        request(REQUEST),
        Stimulus::GetSink,
    ];
    for state in [State::Off, State::Disabled] {
        for stimulus in stimuli.iter() {
            let source = at(state);
            let want = source.copy();
            assert!(rt; !source.hears());
            assert!(rt; gives(source, 20_000_000, stimulus, &want, &[]));
        }
    }
}

/// Revision 2.0 is spoken until a Hard Reset.
#[test]
fn a_hard_reset_forgets_the_revision(rt: HostRuntime) {
    let old = Stimulus::Request {
        object: REQUEST,
        revision: 1,
    };
    let source = after(at_offered(), 52_000, &old);
    assert!(rt; source.revision() == 1);
    let source = after(source, 53_000, &Stimulus::SoftReset);
    assert!(rt; source.revision() == 1);
    let source = after(source, 54_000, &Stimulus::HardReset);
    assert!(rt; source.revision() == 2);
}
