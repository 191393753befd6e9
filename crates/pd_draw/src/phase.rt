//! The phases of a port.

ghost use Rattle.std.specs.Prelude.{◌≡◌, ◌≤◌};
ghost use Rattle.pd_draw.specs.Bands.{phase_height, phase_name, phase_number, phase_of, phase_without, words_down};

use pd_show::Glance;
use pd_source::State;

/// Whether a port has a contract, and without one what an engineer calls a group of states of its source.
#[derive(Clone, Copy, Debug)]
pub enum Phase {
    /// Nothing is attached.
    Detached,
    /// No contract stands: one is being made, or none can be.
    Negotiating,
    /// A contract stands.
    Contract,
    /// The port is being reset, down to no voltage.
    HardReset,
    /// The source has given up.
    Disabled,
}

/// The phase of a state without a contract.
fn phase_without(state: State) -> Phase
    ensures { result ≡ phase_without state }
{
    match state {
        State::Off => Phase::Detached,
        State::HardReset | State::HardResetReceived | State::TransitionToDefault => {
            Phase::HardReset
        }
        State::Disabled => Phase::Disabled,
        State::Startup
        | State::VdmIdentityRequest
        | State::SendCapabilities
        | State::Discovery
        | State::NegotiateCapability
        | State::CapabilityResponse
        | State::TransitionSupply
        | State::Ready
        | State::WaitNewCapabilities
        | State::GetSinkCap
        | State::SendSoftReset
        | State::SoftReset => Phase::Negotiating,
    }
}

/// The phase of a port.
pub(crate) fn phase_of(port: &Glance) -> Phase
    ensures { result ≡ phase_of port.now }
{
    if port.contract {
        Phase::Contract
    } else {
        phase_without(port.source)
    }
}

impl Phase {
    pub(crate) fn number(self) -> u8
        ensures { result ≡ phase_number self }
    {
        match self {
            Phase::Detached => 1,
            Phase::Negotiating => 2,
            Phase::Contract => 3,
            Phase::HardReset => 4,
            Phase::Disabled => 5,
        }
    }

    pub(crate) fn name(self) -> &'static [u8]
        ensures { result.now ≡ phase_name self }
    {
        match self {
            Phase::Detached => b"detached",
            Phase::Negotiating => b"negotiating",
            Phase::Contract => b"contract",
            Phase::HardReset => b"hard reset",
            Phase::Disabled => b"disabled",
        }
    }

    /// How far below the lane's top its name stands, in tenths of a pixel.
    pub(crate) fn words_down(self) -> u64
        ensures value { result ≡ words_down self }
        ensures within { result ≤ 115 }
    {
        if self.height() < 60 {
            120u64.saturating_sub(self.height())
        } else {
            115
        }
    }

    /// How high its band is, in tenths of a pixel.
    pub(crate) fn height(self) -> u64
        ensures value { result ≡ phase_height self }
        ensures within { result ≤ 130 }
    {
        match self {
            Phase::Detached => 20,
            Phase::Negotiating => 70,
            Phase::Contract => 100,
            Phase::HardReset => 130,
            Phase::Disabled => 40,
        }
    }
}
