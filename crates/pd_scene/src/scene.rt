//! Texts whose scenarios are handed to a job.

ghost use Rattle.std.specs.Prelude.{◌≡◌, ◌≤◌, Ok};
ghost use Rattle.pd_scenario.specs.Limits.{is_port};
ghost use Rattle.pd_scenario_tables.specs.Ports.{counted};
ghost use Rattle.pd_scenario_text.specs.File.{members_of};
ghost use Rattle.pd_scenario_text.specs.Texts.{ForTexts};
ghost use Rattle.pd_scene.specs.Scene.{Scene, has_port};

use crate::job::JobOn;
use pd_device::BenchFault;
use pd_scenario_text::{ScenarioFault, ScenarioFile};
use std::alloc::Global;

/// Why a job wasn't done.
#[derive(Clone, Copy, Debug, PartialEq, Eq)]
pub enum SceneFault {
    /// The text has no scenario.
    Scenario(ScenarioFault),
    /// The scenario doesn't have the port that has to be there.
    NoSuchPort,
    /// A line of the script is refused that ends it.
    Lines,
    /// The job failed.
    Job(BenchFault),
}

/// Hands the scenario of a text, which has 1 to 8 ports, to a job.
///
/// # Errors
/// `Scenario` where the text is refused and `NoSuchPort` where it hasn't the port that the job needs, and `to` is as it was; `Job`
/// where the job fails.
pub fn on_text<W, J>(
    alloc: Global,
    text: &[u8],
    job: &J,
    to: &mut W,
) -> Result<J::Answer, SceneFault>
where
    J: JobOn<1, W>
        + JobOn<2, W>
        + JobOn<3, W>
        + JobOn<4, W>
        + JobOn<5, W>
        + JobOn<6, W>
        + JobOn<7, W>
        + JobOn<8, W>,
    ensures { Scene (J.needs job.now) (J.does job.now) result text.now to.old to.new }
{
    let file = ScenarioFile::parse(alloc, text).map_err(SceneFault::Scenario)?;
    match file.port_count() {
        Ok(1) => on_file::<1, W, J>(alloc, file, job, to),
        Ok(2) => on_file::<2, W, J>(alloc, file, job, to),
        Ok(3) => on_file::<3, W, J>(alloc, file, job, to),
        Ok(4) => on_file::<4, W, J>(alloc, file, job, to),
        Ok(5) => on_file::<5, W, J>(alloc, file, job, to),
        Ok(6) => on_file::<6, W, J>(alloc, file, job, to),
        Ok(7) => on_file::<7, W, J>(alloc, file, job, to),
        Ok(8) => on_file::<8, W, J>(alloc, file, job, to),
        Ok(_) => Err(SceneFault::Scenario(ScenarioFault::Limit)),
        Err(fault) => Err(SceneFault::Scenario(fault)),
    }
}

// Whether the port that has to be there, if any, is among so many.
fn has_port(ports: usize, port: Option<usize>) -> bool
    ensures { result ≡ has_port ports port }
{
    match port {
        None => true,
        Some(port) => 1 <= port && port <= ports,
    }
}

// Hands the scenario of a file of N ports to a job.
fn on_file<const N: usize, W, J: JobOn<N, W>>(
    alloc: Global,
    file: ScenarioFile,
    job: &J,
    to: &mut W,
) -> Result<J::Answer, SceneFault>
    requires from_one { 1 ≤ N }
    requires to_eight { N ≤ 8 }
    requires counts { counted (members_of file) ≡ Ok N }
    ensures { ForTexts file (λ text. Scene (J.needs job.now) (J.does job.now) result text to.old to.new) }
{
    let scenario = match file.scenario::<N>(alloc) {
        Ok(scenario) => scenario,
        Err(fault) => return Err(SceneFault::Scenario(fault)),
    };
    if !has_port(N, job.port()) {
        return Err(SceneFault::NoSuchPort);
    }
    job.on(alloc, scenario, to).map_err(SceneFault::Job)
}
