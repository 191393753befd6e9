//! What each port holds of the shared budget, and what makes it hold so much.

ghost use Rattle.std.specs.Prelude.{◌≡◌, ◌+◌};
ghost use Rattle.pd_why.specs.Holds.{by_contract, holder_of, maker_of, negotiated};

use pd_objects::Contract;
use pd_port::Port;
use pd_source::State;

/// What makes a port hold so much.
#[derive(Clone, Copy, Debug, PartialEq, Eq)]
pub enum Maker {
    /// Its floor.
    Floor,
    /// Its contract.
    Contract(Contract),
    /// The request that it has accepted.
    Request,
    /// The offer that it is making.
    Offer,
}

/// A port, numbered from 1, what it holds in microwatts, and what makes it hold so much.
#[derive(Clone, Copy, Debug)]
pub struct Holder {
    pub port: usize,
    pub hold: u64,
    pub maker: Maker,
}

// What a list of a fixed capacity fills its free places with.
impl Default for Holder {
    ghost use Rattle.std.specs.Prelude.{◌≡◌};
    ghost use Rattle.pd_why.specs.declared.holder.Maker.TheVariants.{Floor};

    ghost is_default = { λ h. h ≡ record { port = 0; hold = 0; maker = Floor } };

    fn default() -> Holder {
        Holder {
            port: 0,
            hold: 0,
            maker: Maker::Floor,
        }
    }
}

/// What a negotiation makes a port hold.
fn negotiated(state: State) -> Maker
    ensures { result ≡ negotiated state }
{
    match state {
        State::TransitionSupply => Maker::Request,
        _ => Maker::Offer,
    }
}

fn by_contract(power: u64, state: State, contract: Option<Contract>) -> Maker
    ensures { result ≡ by_contract power state contract }
{
    match contract {
        Some(contract) if u64::from(contract.mv) * u64::from(contract.ma) == power => {
            Maker::Contract(contract)
        }
        _ => negotiated(state),
    }
}

/// What makes a port hold so much.
fn made_by(port: &Port) -> Maker
    ensures { result ≡ maker_of port.now.settings port.now.port_record }
{
    let power = port.hold();
    if power == u64::from(port.settings().floor_mw()) * 1_000 {
        return Maker::Floor;
    }
    by_contract(power, port.source_state(), port.contract())
}

/// What a port of this number holds, and why.
pub(crate) fn holds_of(number: usize, port: &Port) -> Holder
    ensures { result ≡ holder_of number port.now }
{
    Holder {
        port: number,
        hold: port.hold(),
        maker: made_by(port),
    }
}
