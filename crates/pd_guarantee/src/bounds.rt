//! What is sure for a port, by what its charger's ports are set to and by the least and the greatest budget that they share.

ghost use Rattle.std.specs.Prelude.{◌≡◌, ◌+◌, ◌-◌, ◌*◌, ◌<◌, ◌≤◌, length, max, sum_by};
ghost use Rattle.pd_ledger.specs.Offer.{offered};
ghost use Rattle.pd_setup.specs.Settings.{floor_of};
ghost use Rattle.pd_guarantee.specs.Bounds.{greatest_hold, port_bounds, power_of, supply_bounds};

use pd_objects::Supply;
use pd_setup::Settings;

/// What is sure for a port: its number, from 1, and powers in microwatts.
#[derive(Clone, Copy, Debug)]
pub struct PortBounds {
    pub port: usize,
    /// Its floor.
    pub floor: u64,
    /// What is free to it at the least, whatever the other ports do.
    pub free_at_least: u64,
    /// What is free to it at the most.
    pub free_at_most: u64,
    /// The greatest hold that no change of the budget takes from it.
    pub kept_up_to: u64,
    /// Whether it never holds more.
    pub is_always_kept: bool,
}

/// What a supply of a port is offered at: its number, from 1, its voltage in mV, and currents in mA.
#[derive(Clone, Copy, Debug)]
pub struct SupplyBounds {
    pub position: usize,
    pub mv: u32,
    /// At the least through a cable that the source knows to carry 5 A.
    pub at_least: u32,
    /// At the least through another.
    pub at_least_by_three: u32,
}

/// The power of a supply, in microwatts.
fn power_of(supply: &Supply) -> u64
    ensures value { result ≡ power_of supply.now }
    ensures bound { result ≤ 100000000 }
{
    u64::from(supply.mv()) * u64::from(supply.ma())
}

/// The floor of a port, in microwatts.
fn floor_of(port: &Settings) -> u64
    ensures value { result ≡ floor_of port.now }
    ensures bound { result ≤ 100000000 }
{
    u64::from(port.floor_mw()) * 1_000
}

/// The most that a port ever holds of the budget, in microwatts.
#[tactic(auto, unfolding(crate::specs::Bounds::greatest_hold))]
fn greatest_hold(port: &Settings) -> u64
    ensures value { result ≡ greatest_hold port.now }
    ensures bound { result ≤ 100000000 }
{
    let supplies = port.supplies();
    let mut most = floor_of(port);
    for supply in supplies {
        most = most.max(power_of(supply));
    }
    most
}

/// What the most that each of at most eight ports ever holds adds to.
fn greatest_holds(ports: &[Settings]) -> u64
    requires { length ports.now ≤ 8 }
    ensures value { result ≡ sum_by greatest_hold ports.now }
    ensures bound { result ≤ 800000000 }
{
    let mut sum = 0;
    for port in ports {
        sum += greatest_hold(port);
    }
    sum
}

/// What the floors of at most eight ports add to.
fn floors(ports: &[Settings]) -> u64
    requires { length ports.now ≤ 8 }
    ensures value { result ≡ sum_by floor_of ports.now }
    ensures bound { result ≤ 800000000 }
{
    let mut sum = 0;
    for port in ports {
        sum += floor_of(port);
    }
    sum
}

/// What others leave of a budget, and at least the floor.
fn left(floor: u64, budget: u64, others: u64) -> u64
    ensures { result ≡ max floor (budget - others) }
{
    floor.max(budget.saturating_sub(others))
}

/// What is sure for a port of a charger of at most eight, numbered from 0, by the least and the greatest budget in microwatts.
#[tactic(auto, unfolding(crate::specs::Bounds::free_at_least, crate::specs::Bounds::free_at_most, crate::specs::Bounds::kept_up_to))]
pub(crate) fn port_bounds(ports: &[Settings], least: u64, greatest: u64, p: usize) -> PortBounds
    requires few { length ports.now ≤ 8 }
    requires there { p < length ports.now }
    ensures { result ≡ port_bounds (record { settings = ports.now; least = least; greatest = greatest }) p }
{
    let (lower, higher) = (&ports[..p], &ports[p + 1..]);
    let floor = floor_of(&ports[p]);
    let lower_most = greatest_holds(lower);
    let kept_up_to = left(floor, least, lower_most + floors(higher));
    PortBounds {
        port: p + 1,
        floor,
        free_at_least: left(floor, least, lower_most + greatest_holds(higher)),
        free_at_most: left(floor, greatest, floors(lower) + floors(higher)),
        kept_up_to,
        is_always_kept: greatest_hold(&ports[p]) <= kept_up_to,
    }
}

/// The current in mA that a supply is offered at where so much power, in microwatts, is free.
#[tactic(auto, unfolding(pd_ledger::specs::Offer::offered))]
fn offered(free: u64, limit_ma: u32, supply: &Supply) -> u32
    ensures { result ≡ offered free limit_ma supply.now }
{
    let most = u64::from(supply.ma().min(limit_ma));
    let by_power = free / u64::from(supply.mv());
    most.min(by_power) as u32 / 10 * 10
}

/// What a supply is offered at, at the least, where so much power, in microwatts, is free; supplies are numbered from 1.
pub(crate) fn supply_bounds(free: u64, position: usize, supply: &Supply) -> SupplyBounds
    ensures { result ≡ supply_bounds free position supply.now }
{
    SupplyBounds {
        position,
        mv: supply.mv(),
        at_least: offered(free, 5_000, supply),
        at_least_by_three: offered(free, 3_000, supply),
    }
}
