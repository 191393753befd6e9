//! The losses of a run as lines of an edit script.

ghost use Rattle.std.specs.Prelude.{◌≡◌, ◌++◌, IfOk, OnOk};
ghost use Rattle.pd_noise.specs.EditScripts.{comment_words, edit_lines, insertion_words, is_new, left_of, line_of, new_id, script_words};
ghost use Rattle.pd_noise.specs.EditScripts.{time_words};
ghost use Rattle.pd_sweep.specs.Variants.{variant};
ghost use Rattle.pd_sweep.specs.declared.choice.Loss.TheVariants.{Lost as lost_whole};

use crate::Noise;
use crate::cell::{push_between, push_lost, push_noise};
use pd_scenario::{Scenario, ScenarioEvent};
use pd_sweep::{Loss, Obstacle, Target, push_obstacle, push_wide, variant_of};
use std::alloc::{AllocError, Global};

/// Whether a scenario hasn't an event.
fn is_new<const N: usize>(scenario: &Scenario<N>, event: &ScenarioEvent) -> bool
    ensures { result ≡ is_new scenario.now.events event.now }
{
    !scenario.has_id(u64::from(event.id))
}

/// The id of the event that a variant of a scenario has more.
fn new_id<const N: usize>(scenario: &Scenario<N>, variant: &Scenario<N>) -> Option<u32>
    ensures { result ≡ new_id scenario.now variant.now }
{
    for event in variant.events() {
        if is_new(scenario, event) {
            return Some(event.id);
        }
    }
    None
}

/// Writes the time of a packet and its port.
fn push_time(text: &mut Vec<u8>, target: &Target) -> Result<(), AllocError>
    ensures { OnOk result (text.new.items ≡ text.old.items ++ time_words target.now) }
{
    push_wide(text, u128::from(target.at))?;
    text.push(b' ')?;
    push_wide(text, target.port as u128)
}

/// Writes the line that puts an event in, where there is one of an id.
fn push_insertion(text: &mut Vec<u8>, target: &Target, id: Option<u32>) -> Result<(), AllocError>
    ensures { OnOk result (text.new.items ≡ text.old.items ++ insertion_words target.now id) }
{
    let Some(id) = id else {
        return Ok(());
    };
    text.extend_from_slice(b"insert ")?;
    push_wide(text, u128::from(id))?;
    text.push(b' ')?;
    push_time(text, target)?;
    text.extend_from_slice(b" lose\n")
}

/// Writes a comment that says why there is no line.
fn push_comment(text: &mut Vec<u8>, target: &Target, obstacle: &Obstacle) -> Result<(), AllocError>
    ensures { OnOk result (text.new.items ≡ text.old.items ++ comment_words target.now obstacle.now) }
{
    text.extend_from_slice(b"# insert ? ")?;
    push_time(text, target)?;
    text.extend_from_slice(b" lose: ")?;
    push_obstacle(text, obstacle)?;
    text.extend_from_slice(b"\n")
}

/// Writes the line that loses a packet, and does as it says.
fn push_line<const N: usize>(
    alloc: Global,
    text: &mut Vec<u8>,
    scenario: &mut Scenario<N>,
    target: &Target,
) -> Result<(), AllocError>
    ensures text { OnOk result (text.new.items
        ≡ text.old.items ++ line_of scenario.old target.now (variant N scenario.old lost_whole target.now)) }
    ensures left { OnOk result (scenario.new ≡ left_of scenario.old (variant N scenario.old lost_whole target.now)) }
{
    match variant_of(alloc, scenario, Loss::Lost, target) {
        Ok(Ok(variant)) => {
            push_insertion(text, target, new_id(scenario, &variant))?;
            *scenario = variant;
            Ok(())
        }
        Ok(Err(obstacle)) => push_comment(text, target, &obstacle),
        Err(_) => Err(AllocError),
    }
}

/// Writes the lines that lose some packets, and does as they say.
fn push_lines<const N: usize>(
    alloc: Global,
    text: &mut Vec<u8>,
    scenario: &mut Scenario<N>,
    targets: &[Target],
) -> Result<(), AllocError>
    ensures { OnOk result (text.new.items ≡ text.old.items ++ edit_lines N scenario.old targets.now) }
{
    for target in targets {
        push_line(alloc, text, scenario, target)?;
    }
    Ok(())
}

/// The losses of the run of a number as an edit script.
pub(crate) fn script<const N: usize>(
    alloc: Global,
    scenario: Scenario<N>,
    noise: &Noise,
    run: u64,
    losses: &[Target],
) -> Result<Vec<u8>, AllocError>
    ensures { IfOk result (λ said. said.items ≡ script_words N scenario.entry noise.now run losses.now) }
{
    let mut scenario = scenario;
    let mut text = Vec::new(alloc);
    push_between(&mut text, b"# run ", u128::from(run), b", ")?;
    push_noise(&mut text, noise)?;
    push_lost(&mut text, losses.len() as u128)?;
    text.extend_from_slice(b"\n")?;
    push_lines(alloc, &mut text, &mut scenario, losses)?;
    Ok(text)
}
