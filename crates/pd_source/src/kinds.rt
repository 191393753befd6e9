//! States, stimuli and acts.

use arrayvec::ArrayVec;
use pd_timers::Timer;

/// The states of the source's policy engine (USB Power Delivery 3.0, section 8.3.3.2), and Off.
#[derive(Clone, Copy, Debug, PartialEq, Eq)]
pub enum State {
    /// Of this product's profile: nothing is attached.
    Off,
    /// PE_SRC_Startup.
    Startup,
    /// PE_SRC_VDM_Identity_Request.
    VdmIdentityRequest,
    /// PE_SRC_Send_Capabilities.
    SendCapabilities,
    /// PE_SRC_Discovery.
    Discovery,
    /// PE_SRC_Negotiate_Capability.
    NegotiateCapability,
    /// PE_SRC_Capability_Response.
    CapabilityResponse,
    /// PE_SRC_Transition_Supply.
    TransitionSupply,
    /// PE_SRC_Ready.
    Ready,
    /// PE_SRC_Wait_New_Capabilities.
    WaitNewCapabilities,
    /// PE_SRC_Get_Sink_Cap.
    GetSinkCap,
    /// PE_SRC_Send_Soft_Reset.
    SendSoftReset,
    /// PE_SRC_Soft_Reset.
    SoftReset,
    /// PE_SRC_Hard_Reset.
    HardReset,
    /// PE_SRC_Hard_Reset_Received.
    HardResetReceived,
    /// PE_SRC_Transition_to_default.
    TransitionToDefault,
    /// PE_SRC_Disabled.
    Disabled,
}

/// Which message was acknowledged, as far as a row asks.
#[derive(Clone, Copy, Debug, PartialEq, Eq)]
pub enum Sent {
    /// An Accept.
    Accept,
    /// A PS_RDY.
    PsRdy,
    /// Another message, or a Hard Reset.
    Other,
}

/// What the engine is stepped with: what its port tells it of.
#[derive(Drop)]
pub enum Stimulus {
    /// A sink is attached.
    Attach,
    /// A timer fell due.
    Ended(Timer),
    /// What was sent last was acknowledged, or the Hard Reset has ended.
    Sent(Sent),
    /// The message that was sent last was not acknowledged, however often it was tried.
    Failed,
    /// The plug answered Discover Identity with these objects.
    Identity(ArrayVec<u32, 7>),
    /// A Request came: its object, and the revision bits of its header.
    Request { object: u32, revision: u8 },
    /// The sink asks for the source's capabilities.
    GetSourceCap,
    /// The sink told its capabilities.
    SinkCapabilities,
    /// An Accept came.
    Accept,
    /// A Soft_Reset came.
    SoftReset,
    /// A Hard Reset came.
    HardReset,
    /// The sink is to be asked for its capabilities.
    GetSink,
    /// The port's hold no longer fits the budget.
    Shed,
    /// What no row speaks of.
    Other,
}

/// A message that the source sends, with its objects where it has some of its own.
#[derive(Debug, Drop, PartialEq)]
pub enum Sending {
    /// Discover Identity, to the cable's plug.
    DiscoverIdentity,
    /// Source_Capabilities, with its objects.
    SourceCapabilities(ArrayVec<u32, 7>),
    Accept,
    Reject,
    Wait,
    /// PS_RDY.
    PsRdy,
    /// Get_Sink_Cap.
    GetSinkCap,
    /// Soft_Reset.
    SoftReset,
}

/// A fault that the engine notes.
#[derive(Clone, Copy, Debug, PartialEq, Eq)]
pub enum Note {
    /// A Soft_Reset is sent.
    SoftReset,
    /// A Hard Reset is sent.
    HardReset,
    /// The source gives up.
    Disabled,
    /// The cable didn't tell who it is.
    CableUnread,
    /// A request is rejected.
    Reject,
    /// A request is put off.
    Wait,
}

/// What the engine wants of its port, as the answer to a step.
#[derive(Debug, Default, Drop, PartialEq)]
pub enum Act {
    /// What waits to be sent on this side is dropped.
    #[default]
    DropWaiting,
    /// The power is switched on.
    On,
    /// The power is switched off.
    Off,
    /// The source's layer on SOP is reset.
    ResetLayer,
    /// A fault is noted.
    Note(Note),
    /// A message is sent.
    Send(Sending),
    /// A Hard Reset is sent.
    SendHardReset,
}

/// The revision of USB Power Delivery that the source speaks with its sink.
#[derive(Clone, Copy, Debug, PartialEq, Eq)]
pub enum Revision {
    /// Revision 2.0.
    Revision2,
    /// Revision 3.0.
    Revision3,
}

/// What a stimulus counts as in the state table: a plug's answer is told by its kind alone, a Request without its object.
#[derive(Clone, Copy)]
pub(crate) enum Heard {
    Attach,
    Ended(Timer),
    Sent(Sent),
    Failed,
    Ack,
    Nak,
    Busy,
    Request,
    GetSourceCap,
    SinkCapabilities,
    Accept,
    SoftReset,
    HardReset,
    GetSink,
    Shed,
    Other,
}

/// Which message a row sends: its objects are made where it is sent.
#[derive(Clone, Copy)]
pub(crate) enum Message {
    DiscoverIdentity,
    SourceCapabilities,
    Accept,
    Reject,
    Wait,
    PsRdy,
    GetSinkCap,
    SoftReset,
}

/// One thing that a row of the state table does: a change of what the engine keeps, or an act.
#[derive(Clone, Copy)]
pub(crate) enum Deed {
    /// Enters a state: no timer runs, nothing waits on this side, and nothing was sent.
    Enter(State),
    /// Enters the same state once more.
    EnterAgain,
    /// Starts a timer, anew where it is running.
    Start(Timer),
    /// Sends a message.
    Send(Message),
    /// Sends a Hard Reset.
    SendHardReset,
    /// Notes a fault.
    Note(Note),
    /// Switches the power on.
    On,
    /// Switches the power off.
    Off,
    /// Resets the source's layer on SOP.
    ResetLayer,
    /// The CapsCounter rises by one.
    CapsCounterUp,
    /// The CapsCounter is 0.
    CapsCounterZero,
    /// The DiscoverIdentityCounter rises by one.
    DiscoverIdentityCounterUp,
    /// The HardResetCounter rises by one.
    HardResetCounterUp,
    /// The HardResetCounter is 0.
    HardResetCounterZero,
    /// The plug's answer tells the limit.
    LimitFromAnswer,
    /// The limit is that of each cable.
    CableLimit,
    /// The request that came is kept, and its revision is spoken from now on.
    KeepRequest,
    /// The answer becomes the offer that is being made.
    Draft,
    /// The offer that is being made has been delivered.
    Settle,
    /// The offer that is being made and the accepted request are dropped.
    Close,
    /// The kept request is accepted.
    Take,
    /// The accepted request becomes the contract.
    Commit,
    /// Contract, accepted request and both offers are dropped, and Revision 3.0 is spoken.
    Void,
}

/// What the guards of the rows ask: one answer for each guard.
#[derive(Clone, Copy)]
pub(crate) struct Facts {
    /// The cable's limit is known.
    pub limit_known: bool,
    /// The cable may be asked once more who it is (DiscoverIdentityCounter below the port's number of tries).
    pub tries_left: bool,
    /// The message of this state was sent.
    pub was_sent: bool,
    /// There is a contract.
    pub has_contract: bool,
    /// Source_Capabilities may be sent once more (CapsCounter up to nCapsCount).
    pub caps_left: bool,
    /// The kept request is not valid in the delivered offer.
    pub request_invalid: bool,
    /// The power of the kept request fits the budget.
    pub fits: bool,
    /// The offer that may be made is not the delivered one.
    pub offer_differs: bool,
    /// One more Hard Reset may be sent (HardResetCounter up to nHardResetCount).
    pub hard_resets_left: bool,
}
