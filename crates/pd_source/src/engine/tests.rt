//! A test for each row of the state table, written from the table: each state of the row is reached by steps from `new`,
//! and what is kept and what is wanted after the row is told by hand.

ghost use Rattle.std.specs.Prelude.{◌≤◌};

use super::*;
use crate::{Note, Sent};
use pd_objects::Query;
use pd_symbols::copied;

mod cables;
mod counts;
mod offers;
mod power;
mod resets;

/// 2.5 A of 20 V, at most 2.8 A: position 2, in 10 mA.
const REQUEST: u32 = 0x2003_E918;

/// 1 A of 5 V twice.
const SMALL_REQUEST: u32 = 0x1001_9064;

const ACK_OF_FIVE_AMPERES: [u32; 5] = [0xFF00_A041, 0x1800_FFFF, 0, 0, 0x0008_2040];

const ACK_OF_THREE_AMPERES: [u32; 5] = [0xFF00_A041, 0x1800_FFFF, 0, 0, 0x0008_2020];

/// A source of 5 V and 20 V that asks its cable so often who it is.
fn detached(identity_tries: u8) -> Source {
    let supplies = [Supply::new(5_000, 3_000), Supply::new(20_000, 5_000)];
    Source::new(&supplies, identity_tries, true)
}

/// 3 A of 5 V and 2.87 A of 20 V.
fn currents() -> ArrayVec<u32, 7> {
    copied(&[3_000, 2_870])
}

fn offer() -> Option<Answer> {
    Some(Answer::Offer(currents()))
}

/// Source_Capabilities with these currents: 5 V 3 A of unconstrained power, and 20 V 2.87 A.
fn source_capabilities() -> Act {
    Act::Send(Sending::SourceCapabilities(copied(&[0x0801_912C, 0x0006_411F])))
}

fn ended(timer: Timer) -> Stimulus {
    Stimulus::Ended(timer)
}

fn sent() -> Stimulus {
    Stimulus::Sent(Sent::Other)
}

fn request(object: u32) -> Stimulus {
    Stimulus::Request {
        object,
        revision: 2,
    }
}

fn identity(objects: &[u32]) -> Stimulus {
    let mut list = ArrayVec::new();
    let _fits = list.try_extend_from_slice(objects);
    Stimulus::Identity(list)
}

fn contract() -> Contract {
    Contract {
        position: 2,
        mv: 20_000,
        offered_ma: 2_870,
        ma: 2_800,
    }
}

fn at_startup(identity_tries: u8) -> Source {
    let mut source = detached(identity_tries);
    let _ = source.step(0, &Stimulus::Attach, None);
    source
}

fn at_vdm_identity_request(identity_tries: u8) -> Source {
    let mut source = at_startup(identity_tries);
    let _ = source.step(50_000, &ended(Timer::TurnOn), None);
    source
}

fn at_send_capabilities() -> Source {
    let mut source = at_startup(0);
    let _ = source.step(50_000, &ended(Timer::TurnOn), offer());
    source
}

/// In Send_Capabilities, where the offer was delivered.
fn at_offered() -> Source {
    let mut source = at_send_capabilities();
    let _ = source.step(51_000, &sent(), None);
    source
}

fn at_negotiate_capability(object: u32) -> Source {
    let mut source = at_offered();
    let _ = source.step(52_000, &request(object), None);
    source
}

fn at_transition_supply() -> Source {
    let mut source = at_negotiate_capability(REQUEST);
    let _ = source.step(54_000, &ended(Timer::Delay), Some(Answer::Fits(true)));
    source
}

/// In Capability_Response after a Wait, without a contract.
fn at_capability_response() -> Source {
    let mut source = at_negotiate_capability(REQUEST);
    let _ = source.step(54_000, &ended(Timer::Delay), Some(Answer::Fits(false)));
    source
}

fn at_ready() -> Source {
    let mut source = at_transition_supply();
    let _ = source.step(55_000, &Stimulus::Sent(Sent::Accept), None);
    let _ = source.step(85_000, &ended(Timer::SrcTransition), None);
    let _ = source.step(185_000, &ended(Timer::Settling), None);
    let _ = source.step(186_000, &Stimulus::Sent(Sent::PsRdy), None);
    source
}

fn at_get_sink_cap() -> Source {
    after(at_ready(), 190_000, &Stimulus::GetSink)
}

fn at_hard_reset() -> Source {
    let mut source = at_offered();
    let _ = source.step(78_000, &ended(Timer::SenderResponse), None);
    source
}

/// A source after one more stimulus, without an answer.
fn after(source: Source, now: u64, stimulus: &Stimulus) -> Source
    requires { now ≤ LAST_TIME }
{
    let mut next = source;
    let _ = next.step(now, stimulus, None);
    next
}

/// A source in each state, all reached by steps from `new`.
fn at(state: State) -> Source {
    match state {
        State::Off => detached(1),
        State::Startup => at_startup(1),
        State::VdmIdentityRequest => at_vdm_identity_request(1),
        State::SendCapabilities => at_offered(),
        State::Discovery => after(at_send_capabilities(), 51_000, &Stimulus::Failed),
        State::NegotiateCapability => at_negotiate_capability(REQUEST),
        State::CapabilityResponse => at_capability_response(),
        State::TransitionSupply => at_transition_supply(),
        State::Ready => at_ready(),
        State::WaitNewCapabilities => after(at_capability_response(), 55_000, &sent()),
        State::GetSinkCap => at_get_sink_cap(),
        State::SendSoftReset => after(at_get_sink_cap(), 191_000, &Stimulus::Failed),
        State::SoftReset => after(at_ready(), 190_000, &Stimulus::SoftReset),
        State::HardReset => at_hard_reset(),
        State::HardResetReceived => after(at_ready(), 190_000, &Stimulus::HardReset),
        State::TransitionToDefault => after(
            after(at_hard_reset(), 79_000, &sent()),
            109_000,
            &ended(Timer::PsHardReset),
        ),
        State::Disabled => counts::at_disabled(),
    }
}

/// Entering a state: no timer runs, and nothing was sent.
fn enter(want: &mut Source, state: State) {
    want.state = state;
    want.deadlines.stop_all();
    want.sent = false;
}

/// A copy that has entered this state.
fn entered(source: &Source, state: State) -> Source {
    let mut want = source.copy();
    enter(&mut want, state);
    want
}

/// SC: enter Send_Capabilities; caps + 1; draft.
fn offering(source: &Source) -> Source {
    let mut want = entered(source, State::SendCapabilities);
    want.caps_counter = source.caps_counter.saturating_add(1);
    want.draft_offer = ShortList::of(currents().as_slice());
    want
}

/// `close`: no draft, no accepted request.
fn close(want: &mut Source) {
    want.draft_offer = ShortList::new();
    want.accepted_request = None;
}

/// `void`: no contract, no accepted request, no offers; Revision 3.0.
fn void(want: &mut Source) {
    close(want);
    want.contract = None;
    want.delivered_offer = ShortList::new();
    want.revision = Revision::Revision3;
}

/// SR: enter Send_Soft_Reset; close.
fn soft_resetting(source: &Source) -> Source {
    let mut want = entered(source, State::SendSoftReset);
    close(&mut want);
    want
}

/// HR where the count allows it: enter Hard_Reset; hard + 1; void.
fn hard_resetting(source: &Source) -> Source {
    let mut want = entered(source, State::HardReset);
    want.hard_reset_counter = source.hard_reset_counter.saturating_add(1);
    void(&mut want);
    want
}

fn sends_offer() -> [Act; 2] {
    [Act::DropWaiting, source_capabilities()]
}

fn sends_soft_reset() -> [Act; 4] {
    [
        Act::DropWaiting,
        Act::ResetLayer,
        Act::Note(Note::SoftReset),
        Act::Send(Sending::SoftReset),
    ]
}

fn sends_hard_reset() -> [Act; 3] {
    [
        Act::DropWaiting,
        Act::Note(Note::HardReset),
        Act::SendHardReset,
    ]
}

/// Whether a step with no answer leaves what is wanted, and wants these acts.
fn gives(source: Source, now: u64, stimulus: &Stimulus, want: &Source, acts: &[Act]) -> bool
    requires { now ≤ LAST_TIME }
{
    let mut next = source;
    let wanted = next.step(now, stimulus, None);
    next.same(want) && wanted.as_slice() == acts
}

/// Whether a step with this answer leaves what is wanted, and wants these acts.
fn answered_gives(
    source: Source,
    now: u64,
    stimulus: &Stimulus,
    answer: Option<Answer>,
    want: &Source,
    acts: &[Act],
) -> bool
    requires { now ≤ LAST_TIME }
{
    let mut next = source;
    let wanted = next.step(now, stimulus, answer);
    next.same(want) && wanted.as_slice() == acts
}

/// The limit of the offer that is asked for, 0 where no offer is asked for.
fn asked_limit(source: &Source, stimulus: &Stimulus) -> u32 {
    match &source.ask(stimulus) {
        Some(Query::Offer { limit_ma, .. }) => *limit_ma,
        _ => 0,
    }
}

/// Each state is reached.
#[test]
fn states_are_reached(rt: HostRuntime) {
    for state in ALL_STATES {
        assert!(rt; at(state).state == state);
    }
    assert!(rt; at_ready().contract == Some(contract()));
}

const ALL_STATES: [State; 17] = [
    State::Off,
    State::Startup,
    State::VdmIdentityRequest,
    State::SendCapabilities,
    State::Discovery,
    State::NegotiateCapability,
    State::CapabilityResponse,
    State::TransitionSupply,
    State::Ready,
    State::WaitNewCapabilities,
    State::GetSinkCap,
    State::SendSoftReset,
    State::SoftReset,
    State::HardReset,
    State::HardResetReceived,
    State::TransitionToDefault,
    State::Disabled,
];
