//! Why a sink asks for what it asks for.

ghost use Rattle.std.specs.Prelude.{◌≡◌, ◌+◌, ◌<◌, ◌≤◌, ◌∷◌, ◌++◌, [], OnOk, length};
ghost use Rattle.pd_sink.specs.Rule.{need_of};
ghost use Rattle.pd_why.specs.Requests.{has_mismatch, is_request, need_fact, need_facts, need_of_object, reason_facts, request_facts};
ghost use Rattle.pd_why.specs.Requests.{started_facts};

use crate::fact::Fact;
use crate::wish::Wish;
use pd_header::{Kind, Side, header_kind};
use pd_line::Start;
use pd_objects::field;
use pd_setup::SinkSettings;
use std::alloc::AllocError;

/// What a sink needs of a voltage in mV for a demand in mW, in mA.
fn need(mv: u32, demand_mw: u32) -> u64
    requires { 0 < mv }
    ensures { result ≡ need_of mv demand_mw }
{
    (u64::from(demand_mw) * 1_000).div_ceil(u64::from(mv) * 10) * 10
}

/// What a sink needs of the supply of an object, where it accepts that.
fn need_of_object(sink: &SinkSettings, object: u32) -> Option<u64>
    ensures { result ≡ need_of_object sink.now object }
{
    let mv = field(object, 19, 10) * 50;
    if field(object, 31, 30) == 0 && mv > 0 && mv <= sink.max_mv() {
        Some(need(mv, sink.demand_mw()))
    } else {
        None
    }
}

/// What a sink needs of the supply at a position.
fn need_fact(sink: &SinkSettings, position: usize, object: u32) -> Fact
    ensures { result ≡ need_fact sink.now position object }
{
    Fact::Need {
        position,
        mv: field(object, 19, 10) * 50,
        ma: field(object, 9, 0) * 10,
        need: need_of_object(sink, object),
    }
}

/// What a sink needs of each supply of an offer, from a position on.
fn push_needs(
    facts: &mut Vec<Fact>,
    sink: &SinkSettings,
    position: usize,
    offer: &[u32],
) -> Result<(), AllocError>
    requires { position + length offer.now < 256 }
    ensures { OnOk result (facts.new.items ≡ facts.old.items ++ need_facts sink.now position offer.now) }
{
    let [object, objects @ ..] = offer else {
        return Ok(());
    };
    facts.push(need_fact(sink, position, *object))?;
    push_needs(facts, sink, position + 1, objects)
}

/// What the sink wants, and what it needs of each supply of the offer.
fn push_reasons(facts: &mut Vec<Fact>, wish: &Option<Wish>) -> Result<(), AllocError>
    ensures { OnOk result (facts.new.items ≡ facts.old.items ++ reason_facts wish.now) }
{
    let Some(wish) = wish else {
        return Ok(());
    };
    facts.push(Fact::Demand {
        demand_mw: wish.sink.demand_mw(),
        max_mv: wish.sink.max_mv(),
        mode: wish.sink.mode(),
    })?;
    push_needs(facts, &wish.sink, 1, wish.offer.as_slice())
}

/// Whether a request has the bit of a capability mismatch.
fn has_mismatch(object: u32) -> bool
    ensures { result ≡ has_mismatch object }
{
    field(object, 26, 26) == 1
}

/// A request, and why.
fn push_request(
    facts: &mut Vec<Fact>,
    at: u64,
    wish: &Option<Wish>,
    objects: &[u32],
) -> Result<(), AllocError>
    ensures { OnOk result (facts.new.items ≡ facts.old.items ++ request_facts at wish.now objects.now) }
{
    let [object, ..] = objects else {
        return Ok(());
    };
    facts.push(Fact::Request {
        at,
        position: field(*object, 30, 28),
        ma: field(*object, 9, 0) * 10,
        mismatch: has_mismatch(*object),
    })?;
    push_reasons(facts, wish)?;
    facts.push(Fact::Choice {
        mismatch: has_mismatch(*object),
    })?;
    Ok(())
}

fn is_request(kind: Kind) -> bool
    ensures { result ≡ is_request kind }
{
    matches!(kind, Kind::Request)
}

/// The request that starts on the line, if one does that isn't sent once more.
pub(crate) fn push_started(
    facts: &mut Vec<Fact>,
    at: u64,
    again: bool,
    wish: &Option<Wish>,
    start: &Option<Start>,
) -> Result<(), AllocError>
    ensures { OnOk result (facts.new.items ≡ facts.old.items ++ started_facts at again wish.now start.now) }
{
    if again {
        return Ok(());
    }
    match start {
        Some(
            Start::Packet {
                side: Side::Sink,
                packet,
                fate: _,
            },
        ) if is_request(header_kind(packet.header())) => {
            push_request(facts, at, wish, packet.objects())
        }
        _ => Ok(()),
    }
}
