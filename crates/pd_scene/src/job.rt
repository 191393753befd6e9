//! What is done with a scene.

ghost use Rattle.std.specs.Prelude.{◌≡◌, ℕ, Option, Result};
ghost use Rattle.pd_device.specs.declared.fault.BenchFault.{BenchFault as BenchFaultData};
ghost use Rattle.pd_scenario.specs.Scenarios.{ScenarioData};

use pd_device::BenchFault;
use pd_scenario::Scenario;
use std::alloc::Global;

/// What is done with a scenario, of however many ports, to a `W`: a text, or what text is written to.
pub trait Job<W> {
    /// What it answers.
    type Answer;

    /// The port that has to be there, if any.
    ghost needs: { Self → Option ℕ };

    /// What it comes to for a scenario of so many ports: by this answer, from what `W` was to what it is then.
    ghost does: { Self → ℕ → ScenarioData → Result Self.Answer BenchFaultData → W → W → Type 0 };

    /// The port that has to be there, if any.
    fn port(&self) -> Option<usize>
        ensures { result ≡ needs self.now };
}

/// The same for N ports. It is a trait of its own, since a method may have no const parameter.
pub trait JobOn<const N: usize, W>: Job<W> {
    /// Does it.
    ///
    /// # Errors
    /// As `does` says.
    fn on(
        &self,
        alloc: Global,
        scenario: Scenario<N>,
        to: &mut W,
    ) -> Result<Self::Answer, BenchFault>
        ensures { Self.does self.now N scenario.entry result to.old to.new };
}
