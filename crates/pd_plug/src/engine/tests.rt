//! A test for each row of the state table, written from the table and apart from the macro.

ghost use Rattle.std.specs.Prelude.{◌≤◌, length};

use super::*;
use pd_identity::Rating;

const ALL_STATES: [State; 4] = [
    State::Off,
    State::Ready,
    State::GetIdentity,
    State::SendIdentity,
];

fn cable(plug: CablePlug) -> Cable {
    Cable {
        plug,
        rating: Rating::FiveAmperes,
    }
}

fn attached(answer: CablePlug) -> Plug {
    let mut plug = Plug::new();
    let _ = plug.step(0, &Stimulus::Attach(cable(answer)));
    plug
}

fn at_get_identity(answer: CablePlug) -> Plug {
    let mut plug = attached(answer);
    let _ = plug.step(60_000, &Stimulus::DiscoverIdentity);
    plug
}

fn at_send_identity(answer: CablePlug) -> Plug {
    let mut plug = at_get_identity(answer);
    let _ = plug.step(62_000, &Stimulus::Ended(Timer::Delay));
    plug
}

/// An engine in a state, by steps from the first, of a plug that answers ACK.
fn at(state: State) -> Plug {
    match state {
        State::Off => Plug::new(),
        State::Ready => attached(CablePlug::Ack),
        State::GetIdentity => at_get_identity(CablePlug::Ack),
        State::SendIdentity => at_send_identity(CablePlug::Ack),
    }
}

/// Enters a state: no timer runs, and nothing was sent.
fn enter(plug: &mut Plug, state: State) {
    plug.state = state;
    plug.deadlines.stop_all();
    plug.sent = false;
}

/// A list of objects that are sent.
fn objects(items: &[u32]) -> Act
    requires { length items.now ≤ 7 }
{
    let mut list = ArrayVec::new();
    list.try_extend_from_slice(items).unwrap();
    Act::SendIdentity(list)
}

#[test]
fn states_are_reached(rt: HostRuntime) {
    for state in ALL_STATES {
        assert!(rt; at(state).state == state);
    }
}

/// C1, Off.
#[test]
fn c1_without_a_plug_it_stays_off(rt: HostRuntime) {
    let mut plug = Plug::new();
    let mut want = Plug::new();
    let acts = plug.step(7, &Stimulus::Attach(cable(CablePlug::Absent)));
    want.cable = Some(cable(CablePlug::Absent));
    assert!(rt; plug.same(&want) && !plug.hears());
    assert!(rt; acts.is_empty());
}

/// C2, Off.
#[test]
fn c2_a_plug_is_ready(rt: HostRuntime) {
    for answer in [
        CablePlug::Ack,
        CablePlug::Nak,
        CablePlug::Busy,
        CablePlug::Silent,
    ] {
        let mut plug = Plug::new();
        let mut want = Plug::new();
        let acts = plug.step(7, &Stimulus::Attach(cable(answer)));
        want.state = State::Ready;
        want.cable = Some(cable(answer));
        assert!(rt; plug.same(&want) && plug.hears());
        assert!(rt; acts.as_slice() == [Act::DropWaiting].as_slice());
    }
}

/// C3, all states but Off.
/// In Ready alone, which a silent plug never leaves.
#[test]
fn c3_a_silent_plug_stays(rt: HostRuntime) {
    let mut plug = attached(CablePlug::Silent);
    let acts = plug.step(60_000, &Stimulus::DiscoverIdentity);
    assert!(rt; plug.same(&attached(CablePlug::Silent)));
    assert!(rt; plug.state == State::Ready && acts.is_empty());
}

/// C4, all states but Off.
#[test]
fn c4_a_question_is_thought_over(rt: HostRuntime) {
    for state in [State::Ready, State::GetIdentity, State::SendIdentity] {
        let mut plug = at(state);
        let mut want = at(state);
        let acts = plug.step(70_000, &Stimulus::DiscoverIdentity);
        enter(&mut want, State::GetIdentity);
        want.deadlines.start(70_000);
        assert!(rt; plug.same(&want));
        assert!(rt; acts.as_slice() == [Act::DropWaiting].as_slice());
    }
    for answer in [CablePlug::Nak, CablePlug::Busy] {
        let mut plug = attached(answer);
        let mut want = attached(answer);
        let acts = plug.step(70_000, &Stimulus::DiscoverIdentity);
        enter(&mut want, State::GetIdentity);
        want.deadlines.start(70_000);
        assert!(rt; plug.same(&want));
        assert!(rt; acts.as_slice() == [Act::DropWaiting].as_slice());
    }
}

/// C5, PE_CBL_Get_Identity.
#[test]
fn c5_the_answer_is_sent(rt: HostRuntime) {
    for answer in [CablePlug::Ack, CablePlug::Nak, CablePlug::Busy] {
        let mut plug = at_get_identity(answer);
        let mut want = at_get_identity(answer);
        let acts = plug.step(62_000, &Stimulus::Ended(Timer::Delay));
        enter(&mut want, State::SendIdentity);
        assert!(rt; plug.same(&want));
        let sent = match answer {
            CablePlug::Ack => objects(&[0xFF00_A041, 0x1800_FFFF, 0, 0, 0x0008_2040]),
            CablePlug::Nak => objects(&[0xFF00_A081]),
            _ => objects(&[0xFF00_A0C1]),
        };
        assert!(rt; acts.as_slice() == [Act::DropWaiting, sent].as_slice());
    }
}

/// C6, PE_CBL_Send_Identity.
#[test]
fn c6_the_answer_has_gone_out(rt: HostRuntime) {
    for stimulus in [Stimulus::Sent, Stimulus::Failed] {
        let mut plug = at(State::SendIdentity);
        let mut want = at(State::SendIdentity);
        let acts = plug.step(63_000, &stimulus);
        enter(&mut want, State::Ready);
        assert!(rt; plug.same(&want));
        assert!(rt; acts.as_slice() == [Act::DropWaiting].as_slice());
    }
}

/// C7, all states but Off.
#[test]
fn c7_a_hard_reset_comes(rt: HostRuntime) {
    for state in [State::Ready, State::GetIdentity, State::SendIdentity] {
        let mut plug = at(state);
        let mut want = at(state);
        let acts = plug.step(70_000, &Stimulus::HardReset);
        enter(&mut want, State::Ready);
        assert!(rt; plug.same(&want));
        assert!(rt; acts.as_slice() == [Act::DropWaiting].as_slice());
    }
}

/// Anything else: stay, no act. A timer that fell due has ended, and Sent has set the mark.
fn stays_elsewhere(stimulus: &Stimulus, states: &[State]) -> bool {
    for state in ALL_STATES {
        if !states.contains(&state) {
            let mut plug = at(state);
            let mut want = at(state);
            let acts = plug.step(600_000, stimulus);
            if let Stimulus::Ended(timer) = stimulus {
                want.deadlines.stop(*timer);
            }
            want.sent = want.sent || matches!(stimulus, Stimulus::Sent);
            if !plug.same(&want) || !acts.is_empty() {
                return false;
            }
        }
    }
    true
}

#[test]
fn anything_else_stays(rt: HostRuntime) {
    let on = [State::Ready, State::GetIdentity, State::SendIdentity];
    assert!(rt; stays_elsewhere(&Stimulus::DiscoverIdentity, &on));
    assert!(rt; stays_elsewhere(&Stimulus::HardReset, &on));
    assert!(rt; stays_elsewhere(&Stimulus::Sent, &[State::SendIdentity]));
    assert!(rt; stays_elsewhere(&Stimulus::Failed, &[State::SendIdentity]));
    let delay = Stimulus::Ended(Timer::Delay);
    assert!(rt; stays_elsewhere(&delay, &[State::GetIdentity]));
    assert!(rt; stays_elsewhere(&Stimulus::Ended(Timer::VdmResponse), &[]));
    assert!(rt; stays_elsewhere(&Stimulus::Other, &[]));
}
