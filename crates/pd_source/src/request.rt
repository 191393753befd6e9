//! The requests of a sink, read from their objects.

ghost use Rattle.std.specs.Prelude.{◌≡◌, ◌≤◌, ◌<◌};
ghost use Rattle.pd_source.specs.Request as specs;

use crate::Revision;
use pd_objects::{Contract, RequestObject, Supply, field};

/// The position of the supply in the offer, from 1. Where it is 0, `unpack` gives no request; power and contract are told of
/// each object.
#[tactic(auto, unfolding(crate::specs::Request::position_of))]
fn position_of(object: u32) -> u8
    ensures value { result ≡ specs.position_of object }
    ensures few { result < 8 }
{
    field(object, 30, 28) as u8
}

/// The maximum operating current in mA.
#[tactic(auto, unfolding(crate::specs::Request::maximum_ma))]
fn maximum_ma(object: u32) -> u32
    ensures value { result ≡ specs.maximum_ma object }
    ensures bounded { result ≤ 10230 }
{
    10 * field(object, 9, 0)
}

/// Whether a request's position is in the offer, and neither of its currents is above the offered one there.
#[tactic(auto, unfolding(crate::specs::Request::is_valid, crate::specs::Request::position_of, crate::specs::Request::maximum_ma))]
pub(crate) fn is_valid(offer: &[u32], object: u32) -> bool
    ensures { result ≡ specs.is_valid offer.now object }
{
    let Some(request) = RequestObject::unpack(object) else {
        return false;
    };
    let operating_ma = 10 * u32::from(request.operating_current());
    let maximum_ma = 10 * u32::from(request.maximum_current());
    match offer.get(usize::from(request.position()) - 1) {
        None => false,
        Some(ma) => operating_ma <= *ma && maximum_ma <= *ma,
    }
}

/// The voltage in mV of the supply at a position, from 1.
#[tactic(auto, unfolding(crate::specs::Request::voltage_at))]
fn voltage_at(supplies: &[Supply], position: u8) -> u32
    ensures { result ≡ specs.voltage_at supplies.now position }
{
    let index = usize::from(position).saturating_sub(1);
    match supplies.get(index) {
        None => 0,
        Some(supply) => supply.mv(),
    }
}

/// The power in microwatts that a request asks for.
#[tactic(auto, unfolding(crate::specs::Request::power_of))]
pub(crate) fn power_of(supplies: &[Supply], object: u32) -> u64
    ensures { result ≡ specs.power_of supplies.now object }
{
    u64::from(voltage_at(supplies, position_of(object))) * u64::from(maximum_ma(object))
}

/// The contract that a request of an offer leads to.
#[tactic(auto, unfolding(crate::specs::Request::contract_of))]
pub(crate) fn contract_of(supplies: &[Supply], offer: &[u32], object: u32) -> Contract
    ensures { result ≡ specs.contract_of supplies.now offer.now object }
{
    let position = position_of(object);
    let index = usize::from(position).saturating_sub(1);
    Contract {
        position,
        mv: voltage_at(supplies, position),
        offered_ma: offer.get(index).copied().unwrap_or(0),
        ma: maximum_ma(object),
    }
}

/// The revision that a header's bits tell.
pub(crate) fn revision_of(bits: u8) -> Revision
    ensures { result ≡ specs.revision_of bits }
{
    if bits == 1 {
        Revision::Revision2
    } else {
        Revision::Revision3
    }
}
