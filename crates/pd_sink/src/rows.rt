//! The rows of the sink's state table.

ghost use Rattle.std.specs.Prelude.{◌≡◌, ◌≤◌, length};
ghost use Rattle.pd_sink.specs.Table.{row_of, deeds_of_row};
ghost use Rattle.pd_sink.specs.Facts.{told};
ghost use Rattle.pd_sink.specs.ByState.{deeds_in};

use crate::kinds::{Deed, Facts, Message};
use crate::{Note, State, Stimulus};
use pd_timers::{SinkTimer, Timer};

/// The column of states: some, or all but some.
macro_rules! states {
    (all_but(Ready)) => {
        State::Off
            | State::Disabled
            | State::Discovery
            | State::WaitForCapabilities
            | State::EvaluateCapability
            | State::SelectCapability
            | State::TransitionSink
            | State::GiveSinkCap
            | State::GetSourceCap
            | State::SendSoftReset
            | State::SoftReset
            | State::HardReset
            | State::TransitionToDefault
    };
    (all_but(Off | Disabled)) => {
        State::Discovery
            | State::HardReset
            | State::TransitionToDefault
            | states!(soft_reset_states)
    };
    (soft_reset_states) => {
        State::WaitForCapabilities
            | State::EvaluateCapability
            | State::SelectCapability
            | State::TransitionSink
            | State::Ready
            | State::GiveSinkCap
            | State::GetSourceCap
            | State::SendSoftReset
            | State::SoftReset
    };
    ($($state:ident)|+) => { $(State::$state)|+ };
}

/// What a row does, by its columns of the next state and of acts.
macro_rules! deeds {
    ($facts:ident, stay [$($deed:expr),*]) => { &[$($deed),*] };
    ($facts:ident, to ($to:ident) [$($deed:expr),*]) => { &[Deed::Enter(State::$to), $($deed),*] };
    ($facts:ident, rq [$($deed:expr),*]) => {
        &[$($deed,)* Deed::Enter(State::SelectCapability), Deed::Fresh(false), Deed::Again(false), Deed::NoteMismatch,
            Deed::Send(Message::Request)]
    };
    ($facts:ident, rd [$($deed:expr),*]) => {
        &[$($deed,)* Deed::Enter(State::Ready), Deed::StartWhereAgain(SinkTimer::SinkRequest), Deed::StartWhereFresh(SinkTimer::Delay)]
    };
    ($facts:ident, sr [$($deed:expr),*]) => {
        &[$($deed,)* Deed::Enter(State::SendSoftReset), Deed::ResetLayer, Deed::Note(Note::SoftReset), Deed::Send(Message::SoftReset)]
    };
    ($facts:ident, hr [$($deed:expr),*]) => {
        if $facts.hard_resets_left {
            &[$($deed,)* Deed::Enter(State::HardReset), Deed::HardResetCounterUp, Deed::Contract(false),
                Deed::Note(Note::HardReset), Deed::SendHardReset]
        } else {
            &[$($deed,)* Deed::Enter(State::Disabled), Deed::Contract(false), Deed::Note(Note::Disabled)]
        }
    };
}

/// The first row that fits, tried in order: what it does, and nothing where none fits.
macro_rules! rows {
    ($state:ident, $stimulus:ident, $facts:ident; each $($any:ident)|+;
    $($number:ident: $($s:ident $(($($but:ident)|+))?)|+, $c:pat $(if $guard:ident)?
        => $next:ident $(($to:ident))? [$($deed:expr),*];)*) => {
        match ($state, $stimulus) {
            $((states!($($s $(($($but)|+))?)|+), $c) $(if $facts.$guard)? => deeds!($facts, $next $(($to))? [$($deed),*]),)*
            $((State::$any, _) => &[],)+
        }
    };
}

/// The names of the rows, in order.
#[cfg(test)]
macro_rules! names {
    (each $($any:ident)|+;
    $($number:ident: $($s:ident $(($($but:ident)|+))?)|+, $c:pat $(if $guard:ident)?
        => $next:ident $(($to:ident))? [$($deed:expr),*];)*) => {
        [$(stringify!($number)),*]
    };
}

/// The table, handed to a macro that reads it.
macro_rules! table {
    ($read:ident $($before:tt)*) => {
        $read! {
            $($before)*
            each Off | Disabled | Discovery | WaitForCapabilities | EvaluateCapability | SelectCapability |
                TransitionSink | Ready | GiveSinkCap | GetSourceCap | SendSoftReset | SoftReset | HardReset |
                TransitionToDefault;
            // Off
            K1: Off, Stimulus::Attach(_) if plain => to(Disabled) [];
            K2: Off, Stimulus::Attach(_) => to(Discovery) [];
            // PE_SNK_Discovery and PE_SNK_Transition_to_default
            K3: Discovery | TransitionToDefault, Stimulus::Vbus => to(WaitForCapabilities) [Deed::Start(SinkTimer::SinkWaitCap)];
            // the states in which an offer is evaluated
            K4: WaitForCapabilities | EvaluateCapability | SelectCapability | Ready | GiveSinkCap | GetSourceCap, Stimulus::SourceCapabilities(_) => to(EvaluateCapability) [Deed::KeepOffer, Deed::Start(SinkTimer::Delay)];
            // PE_SNK_Wait_for_Capabilities
            K5: WaitForCapabilities, Stimulus::Ended(Timer::SinkWaitCap) => hr [];
            // PE_SNK_Evaluate_Capability
            K6: EvaluateCapability, Stimulus::Ended(Timer::Delay) => rq [];
            // PE_SNK_Select_Capability
            K7: SelectCapability, Stimulus::Sent => stay [Deed::Start(SinkTimer::SenderResponse)];
            K8: SelectCapability, Stimulus::Accept => to(TransitionSink) [Deed::Start(SinkTimer::PsTransition)];
            K9: SelectCapability, Stimulus::Wait | Stimulus::Reject if no_contract => to(WaitForCapabilities) [Deed::Start(SinkTimer::SinkWaitCap)];
            K10: SelectCapability, Stimulus::Wait => rd [Deed::Again(true)];
            K11: SelectCapability, Stimulus::Reject => rd [];
            K12: SelectCapability, Stimulus::Ended(Timer::SenderResponse) => hr [];
            K13: SelectCapability, Stimulus::Failed => sr [];
            // PE_SNK_Transition_Sink
            K14: TransitionSink, Stimulus::PsRdy => rd [Deed::Contract(true), Deed::HardResetCounterZero];
            K15: TransitionSink, Stimulus::Ended(Timer::PsTransition) => hr [];
            // PE_SNK_Ready
            K16: Ready, Stimulus::Ended(Timer::Delay) | Stimulus::Ended(Timer::SinkRequest) => rq [];
            K17: Ready, Stimulus::Demand(_) => stay [Deed::Fresh(true), Deed::Start(SinkTimer::Delay)];
            K18: Ready, Stimulus::GetSinkCap => to(GiveSinkCap) [Deed::Start(SinkTimer::Delay)];
            K19: Ready, Stimulus::GetSource => to(GetSourceCap) [Deed::Send(Message::GetSourceCap)];
            // PE_SNK_Give_Sink_Cap
            K20: GiveSinkCap, Stimulus::Ended(Timer::Delay) => stay [Deed::Send(Message::SinkCapabilities)];
            K21: GiveSinkCap, Stimulus::Sent => rd [];
            // PE_SNK_Get_Source_Cap
            K22: GetSourceCap, Stimulus::Sent => stay [Deed::Start(SinkTimer::SenderResponse)];
            K23: GetSourceCap, Stimulus::Ended(Timer::SenderResponse) => rd [];
            // PE_SNK_Give_Sink_Cap and PE_SNK_Get_Source_Cap
            K24: GiveSinkCap | GetSourceCap, Stimulus::Failed => sr [];
            // PE_SNK_Send_Soft_Reset
            K25: SendSoftReset, Stimulus::Sent => stay [Deed::Start(SinkTimer::SenderResponse)];
            K26: SendSoftReset, Stimulus::Accept if was_sent => to(WaitForCapabilities) [Deed::Start(SinkTimer::SinkWaitCap)];
            K27: SendSoftReset, Stimulus::Ended(Timer::SenderResponse) | Stimulus::Failed => hr [];
            // PE_SNK_Soft_Reset
            K28: SoftReset, Stimulus::Ended(Timer::Delay) => stay [Deed::Send(Message::Accept)];
            K29: SoftReset, Stimulus::Sent => to(WaitForCapabilities) [Deed::Start(SinkTimer::SinkWaitCap)];
            K30: SoftReset, Stimulus::Failed => hr [];
            // PE_SNK_Hard_Reset
            K31: HardReset, Stimulus::Sent => to(TransitionToDefault) [];
            // all states but PE_SNK_Ready
            K32: all_but(Ready), Stimulus::Demand(_) => stay [Deed::Fresh(true)];
            // the states of rows K4 to K30
            K33: soft_reset_states, Stimulus::SoftReset => to(SoftReset) [Deed::Start(SinkTimer::Delay)];
            // all states but Off and Disabled
            K34: all_but(Off | Disabled), Stimulus::HardReset => to(TransitionToDefault) [Deed::Contract(false), Deed::Fresh(false), Deed::Again(false)];
        }
    };
}

/// What the first row that fits does.
#[tactic(auto, using(crate::proofs::ByState::deeds_by_state))]
pub(crate) fn choose(state: State, stimulus: &Stimulus, facts: Facts) -> &'static [Deed]
    ensures deeds { result.now ≡ deeds_of_row (told facts) (row_of (told facts) state stimulus.now) }
    ensures few { length result.now ≤ 6 }
{
    choose_in(state, stimulus, facts)
}

/// What the first row of a state does that fits.
fn choose_in(state: State, stimulus: &Stimulus, facts: Facts) -> &'static [Deed]
    ensures deeds { result.now ≡ deeds_in (told facts) state stimulus.now }
    ensures few { length result.now ≤ 6 }
{
    table!(rows state, stimulus, facts;)
}

/// Each row's number is its place.
#[cfg(test)]
#[test]
fn rows_are_numbered(rt: HostRuntime) {
    for (place, name) in table!(names).iter().enumerate() {
        let number = place.wrapping_add(1);
        assert_eq!(rt;
            *name,
            format!(in rt.alloc(); "K{number}")
                .expect(&rt, "memory for a name")
                .as_str()
        );
    }
}
