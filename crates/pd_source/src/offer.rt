//! The currents and objects of an offer.

ghost use Rattle.std.specs.Prelude.{◌≡◌, ◌≤◌, length, fold, max};
ghost use Rattle.pd_source.specs.Acts as acts;
ghost use Rattle.pd_source.specs.Step.{powers};

use arrayvec::ArrayVec;
use bitflags::Flags;
use pd_objects::{FixedSupply, Supply, SupplyFlags};

/// The greatest current that an object states, in 10 mA.
const GREATEST_CURRENT: u32 = 1_023;

/// The objects of Source_Capabilities for these supplies at these currents in mA.
pub(crate) fn capabilities(
    unconstrained: bool,
    supplies: &[Supply],
    currents: &[u32],
) -> ArrayVec<u32, 7>
    requires { length supplies.now ≤ 7 }
    ensures { result.items ≡ acts.capabilities unconstrained supplies.now currents.now }
{
    let mut objects = ArrayVec::new();
    let mut flagged = unconstrained;
    for (supply, ma) in supplies.iter().zip(currents) {
        objects.push(object(flagged, supply, *ma));
        flagged = false;
    }
    objects
}

/// An object of Source_Capabilities: a supply with a current in mA.
fn object(unconstrained: bool, supply: &Supply, ma: u32) -> u32
    ensures { result ≡ acts.object_of unconstrained supply.now ma }
{
    let flags = if unconstrained {
        SupplyFlags::UNCONSTRAINED_POWER
    } else {
        SupplyFlags::empty()
    };
    FixedSupply::new(
        flags,
        0,
        (supply.mv() / 50) as u16,
        (ma / 10).min(GREATEST_CURRENT) as u16,
    )
    .pack()
}

/// The greatest of a power and those of an offer's currents, in microwatts.
pub(crate) fn greatest_power(least: u64, supplies: &[Supply], currents: &[u32]) -> u64
    ensures { result ≡ fold max least (powers supplies.now currents.now) }
{
    let mut greatest = least;
    for (supply, ma) in supplies.iter().zip(currents) {
        greatest = greatest.max(u64::from(supply.mv()) * u64::from(*ma));
    }
    greatest
}
