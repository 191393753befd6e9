//! A supply as a port is configured with it.

ghost use Rattle.std.specs.Prelude.{◌≡◌, ℕ, ◌↔◌, IsTrue};
ghost use Rattle.pd_objects.specs.Supply.{SupplyData, IsSupply};

use std::marker::Model;

/// A fixed supply of a port: its voltage in mV, 5,000 to 20,000 in steps of 50, and its greatest current in mA,
/// 10 to 5,000 in steps of 10.
#[derive(Clone, Copy, Debug)]
pub struct Supply {
    mv: u16,
    ma: u16,
}

impl Model for Supply {
    ghost Value = { SupplyData };

    ghost view = { λ s. record { mv = s.mv; ma = s.ma } };

    ghost invariant = { λ s. IsSupply (record { mv = s.mv; ma = s.ma }) };

    ghost inverse = { λ v. record { mv = v.mv; ma = v.ma } };
}

impl Supply {
    /// A supply of so many mV and mA.
    pub fn new(mv: u32, ma: u32) -> Supply
        requires { IsSupply (record { mv = mv; ma = ma }) }
        ensures { result ≡ record { mv = mv; ma = ma } }
    {
        Supply {
            mv: mv as u16,
            ma: ma as u16,
        }
    }

    /// The voltage in mV.
    pub fn mv(&self) -> u32
        ensures value { result ≡ self.now.mv }
        ensures is_supply { IsSupply self.now }
    {
        // Read for the proof alone, which then knows its range.
        let _ma = self.ma;
        u32::from(self.mv)
    }

    /// The greatest current in mA.
    pub fn ma(&self) -> u32
        ensures value { result ≡ self.now.ma }
        ensures is_supply { IsSupply self.now }
    {
        // Read for the proof alone, which then knows its range.
        let _mv = self.mv;
        u32::from(self.ma)
    }

    /// Whether both are of the same voltage and current.
    pub fn same(&self, other: &Supply) -> bool
        ensures { IsTrue result ↔ (self.now ≡ other.now) }
    {
        self.mv == other.mv && self.ma == other.ma
    }
}

/// Whether both lists have the same supplies in the same order.
pub fn same_supplies(supplies: &[Supply], others: &[Supply]) -> bool
    ensures { IsTrue result ↔ (supplies.now ≡ others.now) }
{
    match (supplies, others) {
        ([], []) => true,
        ([supply, supplies @ ..], [other, others @ ..]) => {
            supply.same(other) && same_supplies(supplies, others)
        }
        _ => false,
    }
}

// What a list of a fixed capacity fills its free places with.
impl Default for Supply {
    ghost use Rattle.pd_objects.specs.Supply.{least};

    ghost is_default = { λ s. s ≡ least };

    fn default() -> Supply {
        Supply::new(5_000, 10)
    }
}
