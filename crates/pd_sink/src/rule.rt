//! What a sink asks of an offer.

ghost use Rattle.std.specs.Prelude.{◌≡◌, ◌≤◌, ◌<◌, ◌++◌, length, All, IfSome, if◌then◌else◌};
ghost use Rattle.pd_sink.specs.Rule.{need_of, is_accepted, supply_at, accepted, mismatch_ma, IsOffered, IsAsked, Fits};
ghost use Rattle.pd_sink.specs.Choice.{fitting_from, higher_of, greatest_from, greater_of, asked_of};

use arrayvec::ArrayVec;
use pd_objects::FixedSupply;
use pd_setup::{SinkMode, SinkSettings};

/// A supply of an offer that a sink accepts: its position in the offer, from 1, its voltage in mV and its current in mA.
#[derive(Clone, Copy, Default)]
pub(crate) struct Offered {
    pub position: u8,
    pub mv: u16,
    pub ma: u16,
}

/// What a sink asks for: the position of a supply, a current in mA, and whether the offer falls short of the need.
#[derive(Clone, Copy)]
pub(crate) struct Asked {
    pub position: u8,
    pub ma: u16,
    pub mismatch: bool,
}

/// The greatest current that an object states, in mA.
const GREATEST_MA: u16 = 10_230;

/// The least multiple of 10 mA whose power at a voltage is at least a demand.
pub(crate) fn need(mv: u16, demand_mw: u32) -> u64
    requires { 0 < mv }
    ensures { result ≡ need_of mv demand_mw }
{
    (u64::from(demand_mw) * 1_000).div_ceil(u64::from(mv) * 10) * 10
}

/// What a sink asks of an offer: the fitting supply, or else the greatest one, with a mismatch.
#[tactic(auto, unfolding(crate::specs::Choice::asked_of))]
pub(crate) fn request(sink: &SinkSettings, offer: &[u32]) -> Option<Asked>
    requires { length offer.now ≤ 7 }
    ensures value { result ≡ asked_of sink.now offer.now }
    ensures sound { IfSome result IsAsked }
{
    let supplies = accepted_supplies(sink, offer);
    let demand_mw = sink.demand_mw();
    if let Some(supply) = fitting(supplies.as_slice(), demand_mw) {
        return Some(Asked {
            position: supply.position,
            ma: need(supply.mv, demand_mw) as u16,
            mismatch: false,
        });
    }
    let supply = greatest(supplies.as_slice())?;
    Some(Asked {
        position: supply.position,
        ma: mismatch_current(sink, supply),
        mismatch: true,
    })
}

/// The supplies of an offer that a sink accepts.
fn accepted_supplies(sink: &SinkSettings, offer: &[u32]) -> ArrayVec<Offered, 7>
    requires { length offer.now ≤ 7 }
    ensures value { result.items ≡ accepted sink.now offer.now }
    ensures sound { All IsOffered result.items }
{
    let mut supplies = ArrayVec::new();
    let mut position = 1;
    for object in offer {
        if let Some(supply) = accepted_supply(sink, position, *object) {
            supplies.push(supply);
        }
        position += 1;
    }
    supplies
}

/// The supply of an object at a position, where a sink accepts it.
fn accepted_supply(sink: &SinkSettings, position: u8, object: u32) -> Option<Offered>
    requires from_one { 1 ≤ position }
    requires few { position ≤ 7 }
    ensures value { result ≡ (if is_accepted sink.now object then Some (supply_at position object) else None) }
    ensures sound { IfSome result IsOffered }
{
    let supply = FixedSupply::unpack(object)?;
    let mv = supply.voltage() * 50;
    if mv == 0 || u32::from(mv) > sink.max_mv() {
        return None;
    }
    Some(Offered {
        position,
        mv,
        ma: supply.current() * 10,
    })
}

/// The supply of highest voltage of those whose offered current is at least what is needed.
fn fitting(supplies: &[Offered], demand_mw: u32) -> Option<Offered>
    requires { All IsOffered supplies.now }
    ensures value { result ≡ fitting_from demand_mw None supplies.now }
    ensures sound { IfSome result (Fits demand_mw) }
{
    let mut best = None;
    for supply in supplies {
        if need(supply.mv, demand_mw) <= u64::from(supply.ma) {
            best = higher(best, *supply);
        }
    }
    best
}

/// The best so far, or one more supply of higher voltage.
fn higher(best: Option<Offered>, supply: Offered) -> Option<Offered>
    ensures { result ≡ higher_of best supply }
{
    match best {
        Some(other) if other.mv >= supply.mv => Some(other),
        _ => Some(supply),
    }
}

/// The supply of greatest power, and of several the one of lowest voltage.
fn greatest(supplies: &[Offered]) -> Option<Offered>
    requires { All IsOffered supplies.now }
    ensures value { result ≡ greatest_from None supplies.now }
    ensures sound { IfSome result IsOffered }
{
    let mut best = None;
    for supply in supplies {
        best = greater(best, *supply);
    }
    best
}

/// The best so far, or one more supply that has more power, or the same at a lower voltage.
fn greater(best: Option<Offered>, supply: Offered) -> Option<Offered>
    ensures { result ≡ greater_of best supply }
{
    let Some(other) = best else {
        return Some(supply);
    };
    let power = u32::from(supply.mv) * u32::from(supply.ma);
    let best_power = u32::from(other.mv) * u32::from(other.ma);
    if best_power < power || (best_power == power && supply.mv < other.mv) {
        Some(supply)
    } else {
        Some(other)
    }
}

/// The current in mA that a sink asks of a supply that falls short of its need.
fn mismatch_current(sink: &SinkSettings, supply: Offered) -> u16
    requires { IsOffered supply }
    ensures value { result ≡ mismatch_ma sink.now supply }
    ensures sound { result ≤ 10230 }
{
    match sink.mode() {
        SinkMode::Greedy => { need(supply.mv, sink.demand_mw()).min(u64::from(GREATEST_MA)) as u16 }
        SinkMode::PowerDelivery | SinkMode::Plain => supply.ma,
    }
}
