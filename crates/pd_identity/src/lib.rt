//! Cables, and what their plugs answer when they are asked who they are.
#![tactic(auto)]

mod identity;
pub mod laws;

pub use identity::{Reply, answer, limit_ma, reply_of, request};

/// What a cable's plug does when it is asked who it is.
#[derive(Clone, Copy, Debug, PartialEq, Eq)]
pub enum CablePlug {
    /// There is no plug.
    Absent,
    /// The plug acknowledges: it says what the cable is.
    Ack,
    /// The plug refuses to say.
    Nak,
    /// The plug is to be asked again.
    Busy,
    /// There is a plug, and it answers nothing.
    Silent,
}

/// The current that a cable is built for.
#[derive(Clone, Copy, Debug, PartialEq, Eq)]
pub enum Rating {
    /// 3,000 mA.
    ThreeAmperes,
    /// 5,000 mA.
    FiveAmperes,
}

/// A cable: its plug and its rating.
#[derive(Clone, Copy, Debug, PartialEq, Eq)]
pub struct Cable {
    pub plug: CablePlug,
    pub rating: Rating,
}
