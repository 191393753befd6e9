//! Rows 1 to 9: the attach, and who the cable is.

use super::*;

/// S1, Off.
#[test]
fn s1_attach_starts_up(rt: HostRuntime) {
    let source = detached(0);
    let mut want = entered(&source, State::Startup);
    want.deadlines.start(7, Timer::TurnOn);
    assert!(rt; source.ask(&Stimulus::Attach).is_none());
    assert!(rt; gives(source, 7, &Stimulus::Attach, &want, &[Act::DropWaiting]));
}

/// S2, PE_SRC_Startup.
#[test]
fn s2_turn_on_makes_an_offer(rt: HostRuntime) {
    let source = at_startup(0);
    let turn_on = ended(Timer::TurnOn);
    let want = offering(&source);
    assert!(rt; want.caps_counter == 1);
    assert!(rt; asked_limit(&source, &turn_on) == 3_000);
    let acts = [Act::On, Act::DropWaiting, source_capabilities()];
    assert!(rt; answered_gives(source, 50_000, &turn_on, offer(), &want, &acts));
    assert!(rt; at_send_capabilities().hold(500_000) == 57_400_000);
}

/// S3, PE_SRC_Startup.
#[test]
fn s3_asks_who_the_cable_is(rt: HostRuntime) {
    let source = at_startup(1);
    let turn_on = ended(Timer::TurnOn);
    let mut want = entered(&source, State::VdmIdentityRequest);
    want.discover_identity_counter = 1;
    assert!(rt; source.ask(&turn_on).is_none());
    let acts = [
        Act::DropWaiting,
        Act::On,
        Act::Send(Sending::DiscoverIdentity),
    ];
    assert!(rt; gives(source, 50_000, &turn_on, &want, &acts));
}

/// S4, PE_SRC_VDM_Identity_Request.
#[test]
fn s4_sent_waits_for_the_answer(rt: HostRuntime) {
    let source = at_vdm_identity_request(1);
    let mut want = source.copy();
    want.sent = true;
    want.deadlines.start(51_000, Timer::VdmResponse);
    assert!(rt; gives(source, 51_000, &sent(), &want, &[]));
}

/// S5, PE_SRC_VDM_Identity_Request.
#[test]
fn s5_ack_tells_the_limit(rt: HostRuntime) {
    for (objects, limit) in [(ACK_OF_FIVE_AMPERES, 5_000), (ACK_OF_THREE_AMPERES, 3_000)] {
        let source = at_vdm_identity_request(1);
        let answer = identity(&objects);
        let mut want = offering(&source);
        want.limit = Some(limit);
        assert!(rt; asked_limit(&source, &answer) == limit);
        assert!(rt; answered_gives(source, 52_000, &answer, offer(), &want, &sends_offer()));
    }
}

fn unread(source: &Source) -> Source {
    let mut want = offering(source);
    want.limit = Some(3_000);
    want
}

fn notes_unread() -> [Act; 3] {
    [
        Act::Note(Note::CableUnread),
        Act::DropWaiting,
        source_capabilities(),
    ]
}

/// S6, PE_SRC_VDM_Identity_Request.
/// A NAK, an answer of no known type, and one without an object.
#[test]
fn s6_nak_leaves_the_cable_unread(rt: HostRuntime) {
    let answers = [
        identity(&[0xFF00_A081]),
        identity(&[0xFF00_A001]),
        identity(&[]),
    ];
    for answer in answers.iter() {
        let source = at_vdm_identity_request(2);
        let want = unread(&source);
        assert!(rt; asked_limit(&source, answer) == 3_000);
        assert!(rt; answered_gives(source, 52_000, answer, offer(), &want, &notes_unread()));
    }
}

fn silent() -> [Stimulus; 3] {
    [
        identity(&[0xFF00_A0C1]),
        Stimulus::Failed,
        ended(Timer::VdmResponse),
    ]
}

/// S7, PE_SRC_VDM_Identity_Request.
#[test]
fn s7_asks_again_later(rt: HostRuntime) {
    for stimulus in silent().iter() {
        let source = after(at_vdm_identity_request(2), 51_000, &sent());
        let mut want = entered(&source, State::VdmIdentityRequest);
        want.deadlines.start(78_000, Timer::DiscoverIdentity);
        assert!(rt; source.ask(stimulus).is_none());
        assert!(rt; gives(source, 78_000, stimulus, &want, &[Act::DropWaiting]));
    }
}

/// S8, PE_SRC_VDM_Identity_Request.
#[test]
fn s8_a_silent_plug_leaves_the_cable_unread(rt: HostRuntime) {
    for stimulus in silent().iter() {
        let source = after(at_vdm_identity_request(1), 51_000, &sent());
        let want = unread(&source);
        assert!(rt; asked_limit(&source, stimulus) == 3_000);
        assert!(rt; answered_gives(source, 78_000, stimulus, offer(), &want, &notes_unread()));
    }
}

/// S9, PE_SRC_VDM_Identity_Request.
#[test]
fn s9_asks_again(rt: HostRuntime) {
    let source = after(at_vdm_identity_request(2), 51_000, &Stimulus::Failed);
    let mut want = entered(&source, State::VdmIdentityRequest);
    want.discover_identity_counter = 2;
    let acts = [Act::DropWaiting, Act::Send(Sending::DiscoverIdentity)];
    assert!(rt;
        gives(
            source,
            96_000,
            &ended(Timer::DiscoverIdentity),
            &want,
            &acts
        )
    );
}
