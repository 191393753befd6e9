//! What a source and a sink have agreed on.

/// A contract: the offered supply that the sink asked for, and the currents.
#[derive(Clone, Copy, Debug, PartialEq, Eq)]
pub struct Contract {
    /// The place of the supply in the offer, from 1.
    pub position: u8,
    /// The supply's voltage in mV.
    pub mv: u32,
    /// The current in mA that the supply was offered at.
    pub offered_ma: u32,
    /// The maximum operating current in mA that the sink asked for.
    pub ma: u32,
}
