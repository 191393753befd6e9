//! A test for each row of the state table, written from the table and apart from the macro.

use super::*;
use pd_setup::SinkRevision;
use pd_symbols::copied;

mod contract;
mod elsewhere;
mod others;
mod requests;
mod resets;

/// A sink of 15 W at up to 9 V.
fn settings(mode: SinkMode) -> SinkSettings {
    SinkSettings::new(9_000, 15_000, mode, SinkRevision::Revision3)
}

/// 5 V and 9 V at 3 A.
fn offer() -> Stimulus {
    Stimulus::SourceCapabilities(copied(&[0x0001_912C, 0x0002_D12C]))
}

/// 1.67 A of 9 V, which is 15 W.
const REQUEST: u32 = 0x2002_9CA7;

fn attached(mode: SinkMode) -> Sink {
    let mut sink = Sink::new();
    let _ = sink.step(0, &Stimulus::Attach(settings(mode)));
    sink
}

fn at_wait() -> Sink {
    let mut sink = attached(SinkMode::PowerDelivery);
    let _ = sink.step(50_000, &Stimulus::Vbus);
    sink
}

fn at_evaluate() -> Sink {
    let mut sink = at_wait();
    let _ = sink.step(60_000, &offer());
    sink
}

fn at_select() -> Sink {
    let mut sink = at_evaluate();
    let _ = sink.step(62_000, &Stimulus::Ended(Timer::Delay));
    sink
}

fn at_transition() -> Sink {
    let mut sink = at_select();
    let _ = sink.step(63_000, &Stimulus::Sent);
    let _ = sink.step(66_000, &Stimulus::Accept);
    sink
}

fn at_ready() -> Sink {
    let mut sink = at_transition();
    let _ = sink.step(190_000, &Stimulus::PsRdy);
    sink
}

/// In Ready, and then stepped once more.
fn after_ready(stimulus: Stimulus) -> Sink {
    let mut sink = at_ready();
    let _ = sink.step(300_000, &stimulus);
    sink
}

fn at_send_soft_reset() -> Sink {
    let mut sink = at_select();
    let _ = sink.step(65_000, &Stimulus::Failed);
    sink
}

fn at_hard_reset() -> Sink {
    let mut sink = at_wait();
    let _ = sink.step(515_000, &Stimulus::Ended(Timer::SinkWaitCap));
    sink
}

/// An engine in a state, by steps from the first.
fn at(state: State) -> Sink {
    match state {
        State::Off => Sink::new(),
        State::Disabled => attached(SinkMode::Plain),
        State::Discovery => attached(SinkMode::PowerDelivery),
        State::WaitForCapabilities => at_wait(),
        State::EvaluateCapability => at_evaluate(),
        State::SelectCapability => at_select(),
        State::TransitionSink => at_transition(),
        State::Ready => at_ready(),
        State::GiveSinkCap => after_ready(Stimulus::GetSinkCap),
        State::GetSourceCap => after_ready(Stimulus::GetSource),
        State::SendSoftReset => at_send_soft_reset(),
        State::SoftReset => after_ready(Stimulus::SoftReset),
        State::HardReset => at_hard_reset(),
        State::TransitionToDefault => after_ready(Stimulus::HardReset),
    }
}

/// In Select_Capability once more, with a contract, after a demand of 12 W.
fn asking_anew() -> Sink {
    let mut sink = after_ready(Stimulus::Demand(Demand::new(12_000)));
    let _ = sink.step(302_000, &Stimulus::Ended(Timer::Delay));
    sink
}

/// In Ready, with a contract, and to ask again.
fn asking_again() -> Sink {
    let mut sink = asking_anew();
    let _ = sink.step(306_000, &Stimulus::Wait);
    sink
}

/// Enters a state: no timer runs, and nothing was sent.
fn enter(sink: &mut Sink, state: State) {
    sink.state = state;
    sink.deadlines.stop_all();
    sink.sent = false;
}

/// The first of the Hard Resets.
fn enter_hard_reset(sink: &mut Sink) {
    enter(sink, State::HardReset);
    sink.hard_reset_counter = 1;
    sink.has_contract = false;
}

fn hard_reset_acts() -> [Act; 3] {
    [
        Act::DropWaiting,
        Act::Note(Note::HardReset),
        Act::SendHardReset,
    ]
}

fn soft_reset_acts() -> [Act; 4] {
    [
        Act::DropWaiting,
        Act::ResetLayer,
        Act::Note(Note::SoftReset),
        Act::Send(Sending::SoftReset),
    ]
}

/// Each state is reached.
#[test]
fn states_are_reached(rt: HostRuntime) {
    for state in ALL_STATES {
        assert!(rt; at(state).state == state);
    }
    let again = asking_again();
    assert!(rt; again.ready() && again.again && again.has_contract);
}

const ALL_STATES: [State; 14] = [
    State::Off,
    State::Disabled,
    State::Discovery,
    State::WaitForCapabilities,
    State::EvaluateCapability,
    State::SelectCapability,
    State::TransitionSink,
    State::Ready,
    State::GiveSinkCap,
    State::GetSourceCap,
    State::SendSoftReset,
    State::SoftReset,
    State::HardReset,
    State::TransitionToDefault,
];
