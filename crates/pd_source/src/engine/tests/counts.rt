//! Counts: offers, hard resets, and where counters stay.

ghost use Rattle.std.specs.Prelude.{◌<◌};

use super::*;

/// Where no sink answers: the source after so many offers, each of them failed.
fn after_offers(offers: u64) -> Source
    requires { offers < 100 }
{
    let mut source = at_startup(0);
    for index in 0..offers {
        let stimulus = if index == 0 {
            ended(Timer::TurnOn)
        } else {
            ended(Timer::SourceCapability)
        };
        let now = 50_000 + 150_000 * index;
        let _ = source.step(now, &stimulus, offer());
        let _ = source.step(now, &Stimulus::Failed, None);
    }
    source
}

/// In Discovery after the last offer.
pub(super) fn at_last_discovery() -> Source {
    after_offers(51)
}

pub(super) fn at_disabled() -> Source {
    after(
        at_last_discovery(),
        8_000_000,
        &ended(Timer::SourceCapability),
    )
}

/// CapsCounter: with nCapsCount at 50 an offer is made 51 times, and then the source is in PE_SRC_Disabled.
#[test]
fn fifty_one_offers_before_disabled(rt: HostRuntime) {
    let source = after_offers(50);
    assert!(rt; source.state == State::Discovery);
    assert!(rt; asked_limit(&source, &ended(Timer::SourceCapability)) == 3_000);
    let source = after_offers(51);
    assert!(rt; source.state == State::Discovery);
    assert!(rt; source.caps_counter == 51);
    assert!(rt; source.ask(&ended(Timer::SourceCapability)).is_none());
    assert!(rt; at_disabled().state == State::Disabled);
}

/// From an offer to the next over a hard reset to which no sink answers.
pub(super) fn reset_once(source: Source) -> Source {
    let mut next = after(source, 100_000, &sent());
    next = after(next, 200_000, &ended(Timer::SenderResponse));
    next = after(next, 300_000, &sent());
    next = after(next, 400_000, &ended(Timer::PsHardReset));
    next = after(next, 500_000, &ended(Timer::SrcRecover));
    let _ = next.step(600_000, &ended(Timer::TurnOn), offer());
    next
}

/// HardResetCounter: with nHardResetCount at 2 three Hard Resets are sent, and then the source is in PE_SRC_Disabled.
#[test]
fn three_hard_resets_before_disabled(rt: HostRuntime) {
    let mut source = at_send_capabilities();
    for resets in 1..4 {
        source = reset_once(source);
        assert!(rt; source.state == State::SendCapabilities);
        assert!(rt; source.hard_reset_counter == resets);
    }
    let source = after(source, 700_000, &sent());
    let mut want = entered(&source, State::Disabled);
    void(&mut want);
    let acts = [Act::DropWaiting, Act::Note(Note::Disabled)];
    assert!(rt; gives(source, 727_000, &ended(Timer::SenderResponse), &want, &acts));
}

/// DiscoverIdentityCounter (nDiscoverIdentityCount): a Hard Reset does not set it to 0.
#[test]
fn a_hard_reset_keeps_the_count_of_identity_tries(rt: HostRuntime) {
    let mut source = after(at_vdm_identity_request(1), 51_000, &Stimulus::HardReset);
    source = after(source, 81_000, &ended(Timer::PsHardReset));
    source = after(source, 881_000, &ended(Timer::SrcRecover));
    source = after(source, 931_000, &ended(Timer::TurnOn));
    assert!(rt; source.state == State::VdmIdentityRequest);
    assert!(rt; source.discover_identity_counter == 2);
    assert!(rt; source.hard_reset_counter == 0);
}

/// Offers that Get_Source_Cap asks for, and that aren't delivered.
#[test]
fn counters_stay_at_255(rt: HostRuntime) {
    let mut source = at_send_capabilities();
    for _ in 0..300 {
        source = after(source, 100_000, &Stimulus::SoftReset);
        source = after(source, 102_000, &ended(Timer::Delay));
        let _ = source.step(103_000, &sent(), offer());
    }
    assert!(rt; source.state == State::SendCapabilities);
    assert!(rt; source.caps_counter == 255);
    let mut source = at_startup(20);
    for _ in 0..300 {
        source = after(source, 110_000, &ended(Timer::TurnOn));
        source = after(source, 120_000, &Stimulus::HardReset);
        source = after(source, 150_000, &ended(Timer::PsHardReset));
        source = after(source, 950_000, &ended(Timer::SrcRecover));
    }
    assert!(rt; source.state == State::Startup);
    assert!(rt; source.discover_identity_counter == 255);
}
