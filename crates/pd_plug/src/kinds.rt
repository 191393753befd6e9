//! States, stimuli and acts.

use arrayvec::ArrayVec;
use pd_identity::Cable;
use pd_timers::Timer;

/// The states of the plug's policy engine (USB Power Delivery 3.0, section 8.3.3), and Off.
#[derive(Clone, Copy, Debug, PartialEq, Eq)]
pub enum State {
    /// Of this product's profile: nothing is attached, or the cable has no plug.
    Off,
    /// PE_CBL_Ready.
    Ready,
    /// PE_CBL_Get_Identity.
    GetIdentity,
    /// PE_CBL_Send_Identity.
    SendIdentity,
}

/// What the engine is stepped with: what its port tells it of.
#[derive(Clone, Copy, Debug)]
pub enum Stimulus {
    /// This cable is attached.
    Attach(Cable),
    /// A timer fell due.
    Ended(Timer),
    /// The source asks who the cable is.
    DiscoverIdentity,
    /// The message that was sent last was acknowledged.
    Sent,
    /// The message that was sent last was not acknowledged, however often it was tried.
    Failed,
    /// A Hard Reset came.
    HardReset,
    /// What no row speaks of.
    Other,
}

/// What the engine wants of its port, as the answer to a step.
#[derive(Debug, Default, Drop, PartialEq)]
pub enum Act {
    /// What waits to be sent on this side is dropped.
    #[default]
    DropWaiting,
    /// The answer to Discover Identity is sent, with these objects.
    SendIdentity(ArrayVec<u32, 7>),
}

/// One thing that a row of the state table does: a change of what the engine keeps, or an act.
#[derive(Clone, Copy)]
pub(crate) enum Deed {
    /// Enters a state: no timer runs, nothing waits on this side, and nothing was sent.
    Enter(State),
    /// Starts the one timer, Delay, anew where it is running.
    StartDelay,
    /// Sends the answer to Discover Identity.
    SendIdentity,
}

/// What the guards of the rows ask: one answer for each guard.
#[derive(Clone, Copy)]
pub(crate) struct Facts {
    /// A cable is attached that has no plug.
    pub without_plug: bool,
    /// A cable is attached whose plug answers nothing.
    pub silent: bool,
}
