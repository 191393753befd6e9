//! The rows of the source's state table.

ghost use Rattle.std.specs.Prelude.{◌≡◌, ◌≤◌, length};
ghost use Rattle.pd_source.specs.Table as table;
ghost use Rattle.pd_source.specs.Facts.{told};
ghost use Rattle.pd_source.specs.ByState.{deeds_in};

use crate::kinds::{Deed, Facts, Heard, Message};
use crate::{Note, Sent, State, Stimulus};
use pd_identity::{Reply, reply_of};
use pd_timers::Timer;

/// The column of states: some, or all but some.
macro_rules! states {
    (all_but(Off | Disabled)) => {
        State::Startup
            | State::VdmIdentityRequest
            | State::HardReset
            | State::HardResetReceived
            | State::TransitionToDefault
            | states!(soft_reset_states)
    };
    (soft_reset_states) => {
        State::SendCapabilities
            | State::Discovery
            | State::NegotiateCapability
            | State::CapabilityResponse
            | State::TransitionSupply
            | State::Ready
            | State::WaitNewCapabilities
            | State::GetSinkCap
            | State::SendSoftReset
            | State::SoftReset
    };
    ($($state:ident)|+) => { $(State::$state)|+ };
}

/// What a row does, by its columns of the next state and of acts.
macro_rules! deeds {
    ($facts:ident, stay [$($deed:expr),*]) => { &[$($deed),*] };
    ($facts:ident, same [$($deed:expr),*]) => { &[Deed::EnterAgain, $($deed),*] };
    ($facts:ident, to ($to:ident) [$($deed:expr),*]) => { &[Deed::Enter(State::$to), $($deed),*] };
    ($facts:ident, sc [$($deed:expr),*]) => {
        &[$($deed,)* Deed::Enter(State::SendCapabilities), Deed::CapsCounterUp, Deed::Draft, Deed::Send(Message::SourceCapabilities)]
    };
    ($facts:ident, nc [$($deed:expr),*]) => {
        &[$($deed,)* Deed::CableLimit, Deed::Note(Note::CableUnread),
            Deed::Enter(State::SendCapabilities), Deed::CapsCounterUp, Deed::Draft, Deed::Send(Message::SourceCapabilities)]
    };
    ($facts:ident, sr [$($deed:expr),*]) => {
        &[$($deed,)* Deed::Enter(State::SendSoftReset), Deed::Close, Deed::ResetLayer,
            Deed::Note(Note::SoftReset), Deed::Send(Message::SoftReset)]
    };
    ($facts:ident, hr [$($deed:expr),*]) => {
        if $facts.hard_resets_left {
            &[$($deed,)* Deed::Enter(State::HardReset), Deed::HardResetCounterUp, Deed::Void,
                Deed::Note(Note::HardReset), Deed::SendHardReset]
        } else {
            &[$($deed,)* Deed::Enter(State::Disabled), Deed::Void, Deed::Note(Note::Disabled)]
        }
    };
}

/// The first row that fits, tried in order: what it does, and nothing where none fits.
macro_rules! rows {
    ($state:ident, $heard:ident, $facts:ident; each $($any:ident)|+;
    $($number:ident: $($s:ident $(($($but:ident)|+))?)|+, $c:pat $(if $guard:ident)?
        => $next:ident $(($to:ident))? [$($deed:expr),*];)*) => {
        match ($state, $heard) {
            $((states!($($s $(($($but)|+))?)|+), $c) $(if $facts.$guard)? => deeds!($facts, $next $(($to))? [$($deed),*]),)*
            $((State::$any, _) => &[],)+
        }
    };
}

/// The names of the rows, in order.
#[cfg(test)]
macro_rules! names {
    (each $($any:ident)|+;
    $($number:ident: $($s:ident $(($($but:ident)|+))?)|+, $c:pat $(if $guard:ident)?
        => $next:ident $(($to:ident))? [$($deed:expr),*];)*) => {
        [$(stringify!($number)),*]
    };
}

/// The table, handed to a macro that reads it.
macro_rules! table {
    ($read:ident $($before:tt)*) => {
        $read! {
            $($before)*
            each Off | Startup | VdmIdentityRequest | SendCapabilities | Discovery | NegotiateCapability |
                CapabilityResponse | TransitionSupply | Ready | WaitNewCapabilities | GetSinkCap |
                SendSoftReset | SoftReset | HardReset | HardResetReceived | TransitionToDefault | Disabled;
            // Off
            S1: Off, Heard::Attach => to(Startup) [Deed::Start(Timer::TurnOn)];
            // PE_SRC_Startup
            S2: Startup, Heard::Ended(Timer::TurnOn) if limit_known => sc [Deed::On];
            S3: Startup, Heard::Ended(Timer::TurnOn) => to(VdmIdentityRequest) [Deed::On, Deed::DiscoverIdentityCounterUp, Deed::Send(Message::DiscoverIdentity)];
            // PE_SRC_VDM_Identity_Request
            S4: VdmIdentityRequest, Heard::Sent(_) => stay [Deed::Start(Timer::VdmResponse)];
            S5: VdmIdentityRequest, Heard::Ack => sc [Deed::LimitFromAnswer];
            S6: VdmIdentityRequest, Heard::Nak => nc [];
            S7: VdmIdentityRequest, Heard::Busy | Heard::Failed | Heard::Ended(Timer::VdmResponse) if tries_left => to(VdmIdentityRequest) [Deed::Start(Timer::DiscoverIdentity)];
            S8: VdmIdentityRequest, Heard::Busy | Heard::Failed | Heard::Ended(Timer::VdmResponse) => nc [];
            S9: VdmIdentityRequest, Heard::Ended(Timer::DiscoverIdentity) => to(VdmIdentityRequest) [Deed::DiscoverIdentityCounterUp, Deed::Send(Message::DiscoverIdentity)];
            // PE_SRC_Send_Capabilities
            S10: SendCapabilities, Heard::Sent(_) => stay [Deed::CapsCounterZero, Deed::Settle, Deed::Start(Timer::SenderResponse)];
            S11: SendCapabilities, Heard::Request if was_sent => to(NegotiateCapability) [Deed::KeepRequest, Deed::Start(Timer::Delay)];
            S12: SendCapabilities, Heard::Failed if has_contract => sr [];
            S13: SendCapabilities, Heard::Failed => to(Discovery) [Deed::Close, Deed::Start(Timer::SourceCapability)];
            S14: SendCapabilities, Heard::Ended(Timer::SenderResponse) => hr [];
            // PE_SRC_Discovery
            S15: Discovery, Heard::Ended(Timer::SourceCapability) if caps_left => sc [];
            S16: Discovery, Heard::Ended(Timer::SourceCapability) => to(Disabled) [Deed::Note(Note::Disabled)];
            // PE_SRC_Negotiate_Capability
            S17: NegotiateCapability, Heard::Ended(Timer::Delay) if request_invalid => to(CapabilityResponse) [Deed::Close, Deed::Note(Note::Reject), Deed::Send(Message::Reject)];
            S18: NegotiateCapability, Heard::Ended(Timer::Delay) if fits => to(TransitionSupply) [Deed::Close, Deed::Take, Deed::Send(Message::Accept)];
            S19: NegotiateCapability, Heard::Ended(Timer::Delay) => to(CapabilityResponse) [Deed::Close, Deed::Note(Note::Wait), Deed::Send(Message::Wait)];
            // PE_SRC_Capability_Response
            S20: CapabilityResponse, Heard::Sent(_) if has_contract => to(Ready) [Deed::Start(Timer::OfferPoll)];
            S21: CapabilityResponse, Heard::Sent(_) => to(WaitNewCapabilities) [Deed::Start(Timer::OfferPoll)];
            S22: CapabilityResponse, Heard::Failed => sr [];
            // PE_SRC_Transition_Supply
            S23: TransitionSupply, Heard::Sent(Sent::Accept) => stay [Deed::Start(Timer::SrcTransition)];
            S24: TransitionSupply, Heard::Ended(Timer::SrcTransition) => stay [Deed::Start(Timer::Settling)];
            S25: TransitionSupply, Heard::Ended(Timer::Settling) => stay [Deed::Send(Message::PsRdy)];
            S26: TransitionSupply, Heard::Sent(Sent::PsRdy) => to(Ready) [Deed::Commit, Deed::HardResetCounterZero, Deed::Start(Timer::OfferPoll)];
            S27: TransitionSupply, Heard::Failed => hr [];
            // PE_SRC_Ready and PE_SRC_Wait_New_Capabilities
            S28: Ready | WaitNewCapabilities, Heard::Ended(Timer::OfferPoll) if offer_differs => sc [];
            S29: Ready | WaitNewCapabilities, Heard::Ended(Timer::OfferPoll) => same [Deed::Start(Timer::OfferPoll)];
            S30: Ready | WaitNewCapabilities, Heard::GetSourceCap => stay [Deed::Start(Timer::Delay)];
            S31: Ready | WaitNewCapabilities, Heard::Ended(Timer::Delay) => sc [];
            // PE_SRC_Ready
            S32: Ready, Heard::Request => to(NegotiateCapability) [Deed::KeepRequest, Deed::Start(Timer::Delay)];
            S33: Ready, Heard::GetSink => to(GetSinkCap) [Deed::Send(Message::GetSinkCap)];
            // PE_SRC_Get_Sink_Cap
            S34: GetSinkCap, Heard::Sent(_) => stay [Deed::Start(Timer::SenderResponse)];
            S35: GetSinkCap, Heard::SinkCapabilities | Heard::Ended(Timer::SenderResponse) => to(Ready) [Deed::Start(Timer::OfferPoll)];
            S36: GetSinkCap, Heard::Request => to(NegotiateCapability) [Deed::KeepRequest, Deed::Start(Timer::Delay)];
            S37: GetSinkCap, Heard::Failed => sr [];
            // PE_SRC_Send_Soft_Reset
            S38: SendSoftReset, Heard::Sent(_) => stay [Deed::Start(Timer::SenderResponse)];
            S39: SendSoftReset, Heard::Accept if was_sent => sc [];
            S40: SendSoftReset, Heard::Ended(Timer::SenderResponse) | Heard::Failed => hr [];
            // PE_SRC_Soft_Reset
            S41: SoftReset, Heard::Ended(Timer::Delay) => stay [Deed::Send(Message::Accept)];
            S42: SoftReset, Heard::Sent(_) => sc [];
            S43: SoftReset, Heard::Failed => hr [];
            // PE_SRC_Hard_Reset
            S44: HardReset, Heard::Sent(_) => stay [Deed::Start(Timer::PsHardReset)];
            // PE_SRC_Hard_Reset and PE_SRC_Hard_Reset_Received
            S45: HardReset | HardResetReceived, Heard::Ended(Timer::PsHardReset) => to(TransitionToDefault) [Deed::Off, Deed::Start(Timer::SrcRecover)];
            // PE_SRC_Transition_to_default
            S46: TransitionToDefault, Heard::Ended(Timer::SrcRecover) => to(Startup) [Deed::Start(Timer::TurnOn)];
            // the states of rows S10 to S43
            S47: soft_reset_states, Heard::SoftReset => to(SoftReset) [Deed::Close, Deed::Start(Timer::Delay)];
            // all states but Off and PE_SRC_Disabled
            S48: all_but(Off | Disabled), Heard::HardReset => to(HardResetReceived) [Deed::Void, Deed::Start(Timer::PsHardReset)];
            S49: all_but(Off | Disabled), Heard::Shed => hr [];
        }
    };
}

/// What a stimulus counts as: a plug's answer is ACK, NAK or BUSY by its objects.
pub(crate) fn heard_of(stimulus: &Stimulus) -> Heard
    ensures { result ≡ table.heard_of stimulus.now }
{
    match stimulus {
        Stimulus::Attach => Heard::Attach,
        Stimulus::Ended(timer) => Heard::Ended(*timer),
        Stimulus::Sent(sent) => Heard::Sent(*sent),
        Stimulus::Failed => Heard::Failed,
        Stimulus::Identity(objects) => match reply_of(objects.as_slice()) {
            Reply::Ack => Heard::Ack,
            Reply::Nak => Heard::Nak,
            Reply::Busy => Heard::Busy,
        },
        Stimulus::Request { .. } => Heard::Request,
        Stimulus::GetSourceCap => Heard::GetSourceCap,
        Stimulus::SinkCapabilities => Heard::SinkCapabilities,
        Stimulus::Accept => Heard::Accept,
        Stimulus::SoftReset => Heard::SoftReset,
        Stimulus::HardReset => Heard::HardReset,
        Stimulus::GetSink => Heard::GetSink,
        Stimulus::Shed => Heard::Shed,
        Stimulus::Other => Heard::Other,
    }
}

/// What the first row that fits does.
#[tactic(auto, using(crate::proofs::ByState::deeds_by_state))]
pub(crate) fn choose(state: State, heard: Heard, facts: Facts) -> &'static [Deed]
    ensures deeds { result.now ≡ table.deeds_of_row (told facts) (table.row_of (told facts) state heard) }
    ensures few { length result.now ≤ 6 }
{
    choose_in(state, heard, facts)
}

/// What the first row of a state does that fits.
fn choose_in(state: State, heard: Heard, facts: Facts) -> &'static [Deed]
    ensures deeds { result.now ≡ deeds_in (told facts) state heard }
    ensures few { length result.now ≤ 6 }
{
    table!(rows state, heard, facts;)
}

/// Each row's number is its place.
#[cfg(test)]
#[test]
fn rows_are_numbered(rt: HostRuntime) {
    for (place, name) in table!(names).iter().enumerate() {
        let number = place.wrapping_add(1);
        assert_eq!(rt;
            *name,
            format!(in rt.alloc(); "S{number}")
                .expect(&rt, "memory for a name")
                .as_str()
        );
    }
}
