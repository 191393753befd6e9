//! The states of the engines, by the standard's names.

ghost use Rattle.std.specs.Prelude.{◌≡◌, ◌++◌, OnOk};
ghost use Rattle.pd_tell.specs.Words.{sink_name as sink_words, source_name as source_words, state_words};

use pd_sink::State as SinkState;
use pd_source::State as SourceState;
use std::alloc::AllocError;

/// The name of a source's state.
pub fn source_name(state: SourceState) -> &'static str
    ensures { result.now ≡ source_words state }
{
    match state {
        SourceState::Off => "SRC_Off",
        SourceState::Startup => "PE_SRC_Startup",
        SourceState::VdmIdentityRequest => "PE_SRC_VDM_Identity_Request",
        SourceState::SendCapabilities => "PE_SRC_Send_Capabilities",
        SourceState::Discovery => "PE_SRC_Discovery",
        SourceState::NegotiateCapability => "PE_SRC_Negotiate_Capability",
        SourceState::CapabilityResponse => "PE_SRC_Capability_Response",
        SourceState::TransitionSupply => "PE_SRC_Transition_Supply",
        SourceState::Ready => "PE_SRC_Ready",
        SourceState::WaitNewCapabilities => "PE_SRC_Wait_New_Capabilities",
        SourceState::GetSinkCap => "PE_SRC_Get_Sink_Cap",
        SourceState::SendSoftReset => "PE_SRC_Send_Soft_Reset",
        SourceState::SoftReset => "PE_SRC_Soft_Reset",
        SourceState::HardReset => "PE_SRC_Hard_Reset",
        SourceState::HardResetReceived => "PE_SRC_Hard_Reset_Received",
        SourceState::TransitionToDefault => "PE_SRC_Transition_to_default",
        SourceState::Disabled => "PE_SRC_Disabled",
    }
}

/// The name of a sink's state.
pub fn sink_name(state: SinkState) -> &'static str
    ensures { result.now ≡ sink_words state }
{
    match state {
        SinkState::Off => "SNK_Off",
        SinkState::Disabled => "SNK_Disabled",
        SinkState::Discovery => "PE_SNK_Discovery",
        SinkState::WaitForCapabilities => "PE_SNK_Wait_for_Capabilities",
        SinkState::EvaluateCapability => "PE_SNK_Evaluate_Capability",
        SinkState::SelectCapability => "PE_SNK_Select_Capability",
        SinkState::TransitionSink => "PE_SNK_Transition_Sink",
        SinkState::Ready => "PE_SNK_Ready",
        SinkState::GiveSinkCap => "PE_SNK_Give_Sink_Cap",
        SinkState::GetSourceCap => "PE_SNK_Get_Source_Cap",
        SinkState::SendSoftReset => "PE_SNK_Send_Soft_Reset",
        SinkState::SoftReset => "PE_SNK_Soft_Reset",
        SinkState::HardReset => "PE_SNK_Hard_Reset",
        SinkState::TransitionToDefault => "PE_SNK_Transition_to_default",
    }
}

/// Writes the states that the source and the sink are in.
///
/// # Errors
/// There is no memory for it; some of it may stand in the text.
pub fn push_states(
    text: &mut Vec<u8>,
    source: SourceState,
    sink: SinkState,
) -> Result<(), AllocError>
    ensures { OnOk result (text.new.items ≡ text.old.items ++ state_words source sink) }
{
    text.extend_from_slice(b"state ")?;
    text.extend_from_slice(source_name(source).as_bytes())?;
    text.push(b' ')?;
    text.extend_from_slice(sink_name(sink).as_bytes())
}
