//! The currents of an offer.

ghost use Rattle.std.specs.Prelude.{◌≡◌, ◌↔◌, ◌≤◌, IsTrue, map};
ghost use Rattle.pd_ledger.specs.Offer.{offered};

use arrayvec::ArrayVec;
use pd_objects::Supply;

/// The current in mA that a supply is offered at.
#[tactic(auto, unfolding(crate::specs::Offer::offered))]
fn offered(free: u64, limit_ma: u32, supply: &Supply) -> u32
    ensures { result ≡ offered free limit_ma supply.now }
{
    let most = supply.ma().min(limit_ma);
    // Mostly so much power is free, and then nothing is divided.
    let ma = if u64::from(supply.mv()) * u64::from(most) <= free {
        most
    } else {
        (free / u64::from(supply.mv())) as u32
    };
    ma / 10 * 10
}

/// The current in mA that each supply is offered at.
pub fn offer(free: u64, limit_ma: u32, supplies: &ArrayVec<Supply, 7>) -> ArrayVec<u32, 7>
    ensures { result.items ≡ map (offered free limit_ma) supplies.now.items }
{
    let mut currents = ArrayVec::<u32, 7>::new();
    for supply in supplies.as_slice() {
        currents.push(offered(free, limit_ma, supply));
    }
    currents
}

/// Whether these are the currents in mA that the supplies are offered at.
pub fn offers(
    free: u64,
    limit_ma: u32,
    supplies: &ArrayVec<Supply, 7>,
    currents: &ArrayVec<u32, 7>,
) -> bool
    ensures { IsTrue result ↔ (currents.now.items ≡ map (offered free limit_ma) supplies.now.items) }
{
    let (supplies, currents) = (supplies.as_slice(), currents.as_slice());
    if supplies.len() != currents.len() {
        return false;
    }
    for i in 0..supplies.len() {
        if currents[i] != offered(free, limit_ma, &supplies[i]) {
            return false;
        }
    }
    true
}
