//! How many packets a sweep loses.

ghost use Rattle.std.specs.Prelude.{◌≡◌, IfSome, MatchResult};
ghost use Rattle.pd_device.specs.declared.fault.BenchFault.TheVariants.{Memory as memory};
ghost use Rattle.pd_scene.specs.Scene.{EditedScene};
ghost use Rattle.pd_sweep.specs.Counts.{HasPackets};

use crate::{Choice, chosen};
use pd_device::BenchFault;
use pd_keep::Kept;
use pd_port::Meter;
use pd_run::Runner;
use pd_scenario::Scenario;
use pd_scene::{Job, JobOn, Refused, SceneFault, on_scene};
use std::alloc::Global;

// Which packets are counted.
#[derive(Drop)]
struct Counting<'a> {
    choice: &'a Choice,
}

impl Job<Meter> for Counting<'_> {
    type Answer = usize;

    ghost needs = { λ j. j.choice.now.port };

    ghost does = { λ j n s r old new. MatchResult r (λ count. HasPackets s j.choice.now count) (λ fault. fault ≡ memory) };

    fn port(&self) -> Option<usize> {
        self.choice.port
    }
}

impl<const N: usize> JobOn<N, Meter> for Counting<'_> {
    fn on(&self, alloc: Global, scenario: Scenario<N>, to: &mut Meter) -> Result<usize, BenchFault>
        ensures { MatchResult result (λ count. HasPackets scenario.entry self.now.choice.now count) (λ fault. fault ≡ memory) }
    {
        match count(alloc, &scenario, self.choice, to) {
            Some(count) => Ok(count),
            None => Err(BenchFault::Memory),
        }
    }
}

/// How many packets are chosen of the run of the scenario of a text, which has 1 to 8 ports, as an edit script leaves it: so many
/// lines of packets a sweep has.
///
/// # Errors
/// As of a sweep: `Scenario` where the text is refused, `NoSuchPort` where it hasn't the port that is chosen, `Lines` where a line is
/// refused that ends it, `Job` where there is no memory.
pub fn packet_count(
    alloc: Global,
    text: &[u8],
    script: &[u8],
    refused: Refused,
    choice: &Choice,
    meter: &mut Meter,
) -> Result<usize, SceneFault>
    ensures { EditedScene refused choice.now.port
        (λ n s r old new. MatchResult r (λ count. HasPackets s choice.now count) (λ fault. fault ≡ memory))
        script.now result text.now meter.old meter.new }
{
    on_scene(alloc, text, script, refused, &Counting { choice }, meter)
}

// Counts the packets of a scenario, where there is memory.
fn count<const N: usize>(
    alloc: Global,
    scenario: &Scenario<N>,
    choice: &Choice,
    meter: &mut Meter,
) -> Option<usize>
    ensures { IfSome result (λ count. HasPackets scenario.now choice.now count) }
{
    let mut run: Kept<N> = Kept::empty(alloc);
    run.replace(alloc, scenario, meter).ok()?;
    let packets = chosen(alloc, &run, choice).ok()?;
    Some(packets.len())
}
