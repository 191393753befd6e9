//! Rows 10 to 22: offers, requests, and answers to them.

ghost use Rattle.std.specs.Prelude.{◌≤◌};

use super::*;

/// S10, PE_SRC_Send_Capabilities.
#[test]
fn s10_sent_settles_the_offer(rt: HostRuntime) {
    let source = at_send_capabilities();
    let mut want = source.copy();
    want.sent = true;
    want.caps_counter = 0;
    want.delivered_offer = ShortList::of(currents().as_slice());
    want.deadlines.start(60_000, Timer::SenderResponse);
    assert!(rt; gives(source, 60_000, &sent(), &want, &[]));
}

/// What keeping a request leaves, with a revision.
fn keeping(source: &Source, now: u64, revision: Revision) -> Source
    requires { now ≤ LAST_TIME }
{
    let mut want = entered(source, State::NegotiateCapability);
    want.kept_request = Some(REQUEST);
    want.revision = revision;
    want.deadlines.start(now, Timer::Delay);
    want
}

/// Whether a state keeps a request, of each revision.
pub(super) fn keeps(state: State, now: u64) -> bool
    requires { now ≤ LAST_TIME }
{
    for (bits, revision) in [(1, Revision::Revision2), (2, Revision::Revision3)] {
        let source = at(state);
        let want = keeping(&source, now, revision);
        let stimulus = Stimulus::Request {
            object: REQUEST,
            revision: bits,
        };
        if want.revision() != bits || source.ask(&stimulus).is_some() {
            return false;
        }
        if !gives(source, now, &stimulus, &want, &[Act::DropWaiting]) {
            return false;
        }
    }
    true
}

/// S11, PE_SRC_Send_Capabilities.
#[test]
fn s11_keeps_a_request(rt: HostRuntime) {
    assert!(rt; keeps(State::SendCapabilities, 52_000));
}

/// S11, PE_SRC_Send_Capabilities.
#[test]
fn s11_needs_the_offer_sent(rt: HostRuntime) {
    let source = at_send_capabilities();
    let want = source.copy();
    assert!(rt; gives(source, 52_000, &request(REQUEST), &want, &[]));
}

/// In Send_Capabilities once more, with a contract.
fn offering_again() -> Source {
    let mut source = after(at_ready(), 190_000, &Stimulus::GetSourceCap);
    let _ = source.step(192_000, &ended(Timer::Delay), offer());
    source
}

/// S12, PE_SRC_Send_Capabilities.
#[test]
fn s12_failed_resets_softly_under_a_contract(rt: HostRuntime) {
    let source = offering_again();
    let want = soft_resetting(&source);
    assert!(rt; want.contract == Some(contract()));
    assert!(rt;
        gives(
            source,
            195_000,
            &Stimulus::Failed,
            &want,
            &sends_soft_reset()
        )
    );
}

/// S13, PE_SRC_Send_Capabilities.
#[test]
fn s13_failed_waits_for_a_sink(rt: HostRuntime) {
    let source = at_send_capabilities();
    let mut want = entered(&source, State::Discovery);
    close(&mut want);
    want.deadlines.start(51_000, Timer::SourceCapability);
    assert!(rt;
        gives(
            source,
            51_000,
            &Stimulus::Failed,
            &want,
            &[Act::DropWaiting]
        )
    );
}

/// S14, PE_SRC_Send_Capabilities.
#[test]
fn s14_no_request_resets_hard(rt: HostRuntime) {
    let source = at_offered();
    let want = hard_resetting(&source);
    let stimulus = ended(Timer::SenderResponse);
    assert!(rt; gives(source, 78_000, &stimulus, &want, &sends_hard_reset()));
}

/// S15, PE_SRC_Discovery.
#[test]
fn s15_offers_again(rt: HostRuntime) {
    let source = at(State::Discovery);
    let want = offering(&source);
    let stimulus = ended(Timer::SourceCapability);
    assert!(rt; want.caps_counter == 2);
    assert!(rt; asked_limit(&source, &stimulus) == 3_000);
    assert!(rt; answered_gives(source, 201_000, &stimulus, offer(), &want, &sends_offer()));
}

/// S16, PE_SRC_Discovery.
#[test]
fn s16_gives_up(rt: HostRuntime) {
    let source = counts::at_last_discovery();
    let want = entered(&source, State::Disabled);
    let stimulus = ended(Timer::SourceCapability);
    assert!(rt; want.caps_counter == 51);
    assert!(rt; source.ask(&stimulus).is_none());
    let acts = [Act::DropWaiting, Act::Note(Note::Disabled)];
    assert!(rt; gives(source, 9_000_000, &stimulus, &want, &acts));
}

/// S17, PE_SRC_Negotiate_Capability.
/// Requests of position 0 and 3, of an operating and of a maximum current above the offered one, and a greedy one.
#[test]
fn s17_reject_an_invalid_request(rt: HostRuntime) {
    for object in [
        0x0000_0401,
        0x3000_0401,
        0x1004_B52C,
        0x1004_B12D,
        0x1009_6258,
    ] {
        let source = at_negotiate_capability(object);
        let mut want = entered(&source, State::CapabilityResponse);
        close(&mut want);
        let stimulus = ended(Timer::Delay);
        assert!(rt; source.ask(&stimulus).is_none());
        let acts = [
            Act::DropWaiting,
            Act::Note(Note::Reject),
            Act::Send(Sending::Reject),
        ];
        assert!(rt; gives(source, 54_000, &stimulus, &want, &acts));
    }
}

/// S18, PE_SRC_Negotiate_Capability.
#[test]
fn s18_accepts_a_request_that_fits(rt: HostRuntime) {
    let source = at_negotiate_capability(REQUEST);
    let mut want = entered(&source, State::TransitionSupply);
    close(&mut want);
    want.accepted_request = Some(REQUEST);
    let stimulus = ended(Timer::Delay);
    assert!(rt;
        matches!(
            source.ask(&stimulus),
            Some(Query::Fits { power: 56_000_000 })
        )
    );
    assert!(rt; want.hold(500_000) == 56_000_000);
    let acts = [Act::DropWaiting, Act::Send(Sending::Accept)];
    let fits = Some(Answer::Fits(true));
    assert!(rt; answered_gives(source, 54_000, &stimulus, fits, &want, &acts));
}

/// S19, PE_SRC_Negotiate_Capability.
#[test]
fn s19_puts_off_a_request_that_does_not_fit(rt: HostRuntime) {
    let source = at_negotiate_capability(REQUEST);
    let mut want = entered(&source, State::CapabilityResponse);
    close(&mut want);
    let acts = [
        Act::DropWaiting,
        Act::Note(Note::Wait),
        Act::Send(Sending::Wait),
    ];
    let misfits = Some(Answer::Fits(false));
    assert!(rt; answered_gives(source, 54_000, &ended(Timer::Delay), misfits, &want, &acts));
}

/// In Capability_Response under a contract.
fn responding_under_contract() -> Source {
    let mut source = after(at_ready(), 190_000, &request(SMALL_REQUEST));
    let _ = source.step(192_000, &ended(Timer::Delay), Some(Answer::Fits(false)));
    source
}

/// S20, PE_SRC_Capability_Response.
#[test]
fn s20_answered_under_a_contract(rt: HostRuntime) {
    let source = responding_under_contract();
    let mut want = entered(&source, State::Ready);
    want.deadlines.start(193_000, Timer::OfferPoll);
    assert!(rt; want.contract == Some(contract()));
    assert!(rt; gives(source, 193_000, &sent(), &want, &[Act::DropWaiting]));
}

/// S21, PE_SRC_Capability_Response.
#[test]
fn s21_answered_without_a_contract(rt: HostRuntime) {
    let source = at_capability_response();
    let mut want = entered(&source, State::WaitNewCapabilities);
    want.deadlines.start(55_000, Timer::OfferPoll);
    assert!(rt; gives(source, 55_000, &sent(), &want, &[Act::DropWaiting]));
}

/// S22, PE_SRC_Capability_Response.
#[test]
fn s22_unheard_answer_resets_softly(rt: HostRuntime) {
    for source in [at_capability_response(), responding_under_contract()].iter() {
        let want = soft_resetting(source);
        let stimulus = Stimulus::Failed;
        assert!(rt;
            gives(
                source.copy(),
                195_000,
                &stimulus,
                &want,
                &sends_soft_reset()
            )
        );
    }
}
