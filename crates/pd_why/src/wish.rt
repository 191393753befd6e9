//! By what a sink chooses what it asks for.

ghost use Rattle.std.specs.Prelude.{◌≡◌};
ghost use Rattle.pd_header.specs.declared.side.Side.TheVariants.{Sink};
ghost use Rattle.pd_why.specs.Wishes.{asks_in, awaits, is_again, is_select, wish_of};

use pd_header::Side;
use pd_port::{Line, Port, What};
use pd_setup::SinkSettings;
use pd_sink::State;
use pd_symbols::ShortList;

/// A sink, and the objects of the offer from which it chose.
#[derive(Clone, Copy, Debug)]
pub struct Wish {
    pub sink: SinkSettings,
    pub offer: ShortList,
}

fn is_select(state: State) -> bool
    ensures { result ≡ is_select state }
{
    matches!(state, State::SelectCapability)
}

/// Whether the sink's engine sends a Request in a step between these states of it.
pub(crate) fn asks_in(before: State, after: State) -> bool
    ensures { result ≡ asks_in before after }
{
    !is_select(before) && is_select(after)
}

/// The sink that a port's engine knows, and the offer that it keeps.
pub(crate) fn wish_of(port: &Port) -> Option<Wish>
    ensures { result ≡ wish_of port.now.port_record.sink }
{
    match port.sink_settings() {
        None => None,
        Some(sink) => Some(Wish {
            sink,
            offer: ShortList::of(port.kept_offer()),
        }),
    }
}

/// Whether the line waits for the GoodCRC of the sink's message.
fn awaits(line: &Line) -> bool
    ensures { result ≡ awaits Sink line.now }
{
    matches!(
        line,
        Line::NoAnswer {
            side: Side::Sink,
            packet: _,
            end: _,
        }
    )
}

/// Whether a packet of the sink that starts for what falls due, while this is on the line, is the one before once more.
pub(crate) fn is_again(due: &What, line: &Line) -> bool
    ensures { result ≡ is_again Sink due.now line.now }
{
    matches!(due, What::Line) && awaits(line)
}
