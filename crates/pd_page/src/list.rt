//! Scenarios as the lines of edit scripts.

ghost use Rattle.std.specs.Prelude.{◌≡◌, MatchResult, None};
ghost use Rattle.pd_device.specs.declared.fault.BenchFault.TheVariants.{Memory as memory};
ghost use Rattle.pd_save.specs.EditLines.{Lists};
ghost use Rattle.pd_page.specs.Answers.{Answers};
ghost use Rattle.pd_page.specs.Calls.{ListsEdited};

use crate::Ending;
use crate::answer::Answer;
use crate::ending::scene_ending;
use pd_save::list_scenario;
use pd_scenario::Scenario;
use pd_scene::{BenchFault, Job, JobOn, Refused, on_scene};
use std::alloc::Global;

// A scenario is listed.
#[derive(Drop)]
struct Listing;

impl Job<()> for Listing {
    type Answer = Vec<u8>;

    ghost needs = { λ j. None };

    ghost does = { λ j n s r old new. MatchResult r (λ text. Lists s text.items) (λ fault. fault ≡ memory) };

    fn port(&self) -> Option<usize> {
        None
    }
}

impl<const N: usize> JobOn<N, ()> for Listing {
    fn on(&self, alloc: Global, scenario: Scenario<N>, to: &mut ()) -> Result<Vec<u8>, BenchFault>
        ensures { MatchResult result (λ text. Lists scenario.entry text.items) (λ fault. fault ≡ memory) }
    {
        match list_scenario(alloc, &scenario) {
            Ok(text) => Ok(text),
            Err(_) => Err(BenchFault::Memory),
        }
    }
}

/// The scenario of a text, as an edit script leaves it, as the lines of an edit script.
fn listed(alloc: Global, scenario: &[u8], script: &[u8]) -> Answer
    ensures { ListsEdited script.now scenario.now result.ending result.text.items }
{
    match on_scene(alloc, scenario, script, Refused::Skipped, &Listing, &mut ()) {
        Ok(text) => Answer {
            ending: Ending::Done,
            text,
        },
        Err(fault) => Answer::none(alloc, scene_ending(fault)),
    }
}

/// Lists the scenario of a text, as an edit script leaves it, as the lines of an edit script that would make it so.
#[unsafe(no_mangle)]
pub extern "C" fn page_list(
    alloc: Global,
    scenario: &[u8],
    script: &[u8],
    room: &mut [u8],
    len: &mut u64,
) -> u32
    ensures { Answers (ListsEdited script.now scenario.now) result len.new room.old room.new }
{
    listed(alloc, scenario, script).hand_over(room, len)
}
