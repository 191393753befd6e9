//! What may be asked of a run.

ghost use Rattle.std.specs.Prelude.{◌≡◌, fold};
ghost use Rattle.pd_vary.specs.Asks.{greatest_port, later_port};

/// What may be measured of a run. The first eight are of a port, the others of the charger.
#[derive(Clone, Copy, Debug, PartialEq, Eq)]
pub enum What {
    /// The voltage of the contract at the end, in millivolts.
    Voltage,
    /// Its current, in milliamperes.
    Current,
    /// Its power, in microwatts.
    Power,
    /// The least power of all the port's contracts, in microwatts.
    LeastPower,
    /// The greatest.
    GreatestPower,
    /// For how many microseconds the power is less than in the run without the edits.
    LessPower,
    /// For how many it is more.
    MorePower,
    /// Until when the contract is another than in that run, in microseconds.
    DiffersUntil,
    /// The least that the contracts of all ports leave of the budget, in microwatts.
    Margin,
    /// The first instant at which it is so little, in microseconds.
    LowestAt,
    /// How many faults there are.
    Faults,
    /// How many Hard Resets a side begins.
    HardResets,
}

/// What is asked of a run: one of these, of a port, which is numbered from 1, or of the charger, which is 0.
#[derive(Clone, Copy, Debug, PartialEq, Eq)]
pub struct Ask {
    pub what: What,
    pub port: usize,
}

/// The greater port of one that was asked of and one that is.
fn later_port(port: Option<usize>, ask: &Ask) -> Option<usize>
    ensures { result ≡ later_port port ask.now }
{
    match port {
        None if ask.port == 0 => None,
        None => Some(ask.port),
        Some(port) => Some(port.max(ask.port)),
    }
}

/// The greatest port that is asked of, if any is.
pub(crate) fn greatest_port(asks: &[Ask]) -> Option<usize>
    ensures { result ≡ greatest_port asks.now }
{
    let mut port = None;
    for ask in asks {
        port = later_port(port, ask);
    }
    port
}
