//! The contract, and what the port holds of the shared budget.

ghost use Rattle.std.specs.Prelude.{◌≡◌};
ghost use Rattle.pd_source.specs.Step.{hold_of, contracted, requested};

use super::Source;
use crate::offer::greatest_power;
use crate::request::power_of;
use pd_objects::Contract;

impl Source {
    /// The contract, if there is one.
    pub fn contract(&self) -> Option<Contract>
        ensures { result ≡ self.now.record.contract }
    {
        self.contract
    }

    /// What the port holds of the shared budget in microwatts, with a floor of so many.
    #[tactic(auto, unfolding(crate::specs::Step::hold_of))]
    pub fn hold(&self, floor: u64) -> u64
        ensures { result ≡ hold_of self.now.settings floor self.now.record }
    {
        let least = floor
            .max(self.contracted())
            .max(self.requested(self.accepted_request));
        greatest_power(least, self.supplies.as_slice(), self.draft_offer.as_slice())
    }

    /// The power of the contract in microwatts, 0 where there is none.
    fn contracted(&self) -> u64
        ensures { result ≡ contracted self.now.record.contract }
    {
        match &self.contract {
            None => 0,
            Some(contract) => u64::from(contract.mv) * u64::from(contract.ma),
        }
    }

    /// The power of a request in microwatts, 0 where there is none.
    pub(super) fn requested(&self, request: Option<u32>) -> u64
        ensures { result ≡ requested self.now.settings request }
    {
        match request {
            None => 0,
            Some(object) => power_of(self.supplies.as_slice(), object),
        }
    }
}
