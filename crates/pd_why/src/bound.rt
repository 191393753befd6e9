//! What bounds the current that a supply is offered at.

ghost use Rattle.std.specs.Prelude.{◌≡◌};
ghost use Rattle.pd_why.specs.Bounds.{bounds_of, sets};

use pd_objects::Supply;

/// What bounds the current of a supply.
#[derive(Clone, Copy, Debug, PartialEq, Eq)]
pub enum Bound {
    /// The supply's own current, as it is configured.
    Configured,
    /// What the cable carries.
    Cable,
    /// What is free of the shared budget, at the supply's voltage.
    Free,
}

/// The bounds of a supply, in mA and in steps of 10 mA, its voltage in mV, and the current that it is offered at.
#[derive(Clone, Copy, Debug)]
pub struct Bounds {
    pub mv: u32,
    pub configured_ma: u32,
    pub cable_ma: u32,
    pub free_ma: u64,
    pub offered_ma: u32,
}

impl Bounds {
    /// The bounds of a supply that is offered at a current in mA, with so many microwatts free and so many mA of the cable.
    pub(crate) fn new(free: u64, limit_ma: u32, supply: &Supply, ma: u32) -> Bounds
        ensures { result ≡ bounds_of free limit_ma supply.now ma }
    {
        Bounds {
            mv: supply.mv(),
            configured_ma: supply.ma() / 10 * 10,
            cable_ma: limit_ma / 10 * 10,
            free_ma: free / u64::from(supply.mv()) / 10 * 10,
            offered_ma: ma,
        }
    }

    /// Whether a bound sets the offered current: it allows no more.
    pub fn sets(&self, bound: Bound) -> bool
        ensures { result ≡ sets self.now bound }
    {
        let offered = u64::from(self.offered_ma);
        match bound {
            Bound::Configured => u64::from(self.configured_ma) == offered,
            Bound::Cable => u64::from(self.cable_ma) == offered,
            Bound::Free => self.free_ma == offered,
        }
    }
}
