//! States, stimuli and acts.

use arrayvec::ArrayVec;
use pd_setup::{Demand, SinkSettings};
use pd_timers::{SinkTimer, Timer};

/// The states of the sink's policy engine (USB Power Delivery 3.0, section 8.3.3.3), and two of this product's profile.
#[derive(Clone, Copy, Debug, PartialEq, Eq)]
pub enum State {
    /// Of this product's profile: nothing is attached.
    Off,
    /// Of this product's profile: the sink does not speak USB Power Delivery, or no longer.
    Disabled,
    /// PE_SNK_Discovery.
    Discovery,
    /// PE_SNK_Wait_for_Capabilities.
    WaitForCapabilities,
    /// PE_SNK_Evaluate_Capability.
    EvaluateCapability,
    /// PE_SNK_Select_Capability.
    SelectCapability,
    /// PE_SNK_Transition_Sink.
    TransitionSink,
    /// PE_SNK_Ready.
    Ready,
    /// PE_SNK_Give_Sink_Cap.
    GiveSinkCap,
    /// PE_SNK_Get_Source_Cap.
    GetSourceCap,
    /// PE_SNK_Send_Soft_Reset.
    SendSoftReset,
    /// PE_SNK_Soft_Reset.
    SoftReset,
    /// PE_SNK_Hard_Reset.
    HardReset,
    /// PE_SNK_Transition_to_default.
    TransitionToDefault,
}

/// What the engine is stepped with: what its port tells it of.
#[derive(Drop)]
pub enum Stimulus {
    /// This sink is attached.
    Attach(SinkSettings),
    /// The power is switched on.
    Vbus,
    /// A timer fell due.
    Ended(Timer),
    /// An offer came, with these objects.
    SourceCapabilities(ArrayVec<u32, 7>),
    /// An Accept came.
    Accept,
    /// A Reject came.
    Reject,
    /// A Wait came.
    Wait,
    /// A PS_RDY came.
    PsRdy,
    /// The source asks for the sink's capabilities.
    GetSinkCap,
    /// A Soft_Reset came.
    SoftReset,
    /// A Hard Reset came.
    HardReset,
    /// The message that was sent last was acknowledged, or the Hard Reset has ended.
    Sent,
    /// The message that was sent last was not acknowledged, however often it was tried.
    Failed,
    /// The sink wants another power from now on.
    Demand(Demand),
    /// The source is to be asked for its capabilities.
    GetSource,
    /// What no row speaks of.
    Other,
}

/// A message that the sink sends, with its objects.
#[derive(Debug, Drop, PartialEq)]
pub enum Sending {
    /// Request, with its object.
    Request(u32),
    /// Get_Source_Cap.
    GetSourceCap,
    /// Sink_Capabilities, with its objects.
    SinkCapabilities(ArrayVec<u32, 7>),
    Accept,
    SoftReset,
}

/// A fault that the engine notes.
#[derive(Clone, Copy, Debug, PartialEq, Eq)]
pub enum Note {
    /// A Soft_Reset is sent.
    SoftReset,
    /// A Hard Reset is sent.
    HardReset,
    /// The sink gives up.
    Disabled,
    /// The offer falls short of the need.
    Mismatch,
}

/// What the engine wants of its port, as the answer to a step.
#[derive(Debug, Default, Drop, PartialEq)]
pub enum Act {
    /// What waits to be sent on this side is dropped.
    #[default]
    DropWaiting,
    /// The sink's layer is reset.
    ResetLayer,
    /// A fault is noted.
    Note(Note),
    /// A message is sent.
    Send(Sending),
    /// A Hard Reset is sent.
    SendHardReset,
}

/// Which message a row sends: its objects are made where it is sent.
#[derive(Clone, Copy)]
pub(crate) enum Message {
    Request,
    GetSourceCap,
    SinkCapabilities,
    Accept,
    SoftReset,
}

/// One thing that a row of the state table does: a change of what the engine keeps, or an act.
#[derive(Clone, Copy)]
pub(crate) enum Deed {
    /// Enters a state: no timer runs, nothing waits on this side, and nothing was sent.
    Enter(State),
    /// Starts a timer, anew where it is running.
    Start(SinkTimer),
    /// Starts a timer where the sink is to ask again.
    StartWhereAgain(SinkTimer),
    /// Starts a timer where the demand is fresh.
    StartWhereFresh(SinkTimer),
    /// The objects that came are the offer now.
    KeepOffer,
    /// The sink is to ask again, or not.
    Again(bool),
    /// The demand is fresh, or not.
    Fresh(bool),
    /// There is a contract, or none.
    Contract(bool),
    /// The HardResetCounter rises by one.
    HardResetCounterUp,
    /// The HardResetCounter is 0.
    HardResetCounterZero,
    /// Resets the sink's layer.
    ResetLayer,
    /// Notes a fault.
    Note(Note),
    /// Notes where the offer falls short of the need.
    NoteMismatch,
    /// Sends a message.
    Send(Message),
    /// Sends a Hard Reset.
    SendHardReset,
}

/// What the guards of the rows ask: one answer for each guard.
#[derive(Clone, Copy)]
pub(crate) struct Facts {
    /// A sink is attached that does not speak USB Power Delivery.
    pub plain: bool,
    /// There is no contract.
    pub no_contract: bool,
    /// The message of this state was sent.
    pub was_sent: bool,
    /// One more Hard Reset may be sent.
    pub hard_resets_left: bool,
}
