//! Packets that are lost, each in turn.

ghost use Rattle.std.specs.Prelude.{◌≡◌};
ghost use Rattle.pd_page.specs.Answers.{Answers, Counted};
ghost use Rattle.pd_page.specs.Calls.{Counts, Sweeps};
ghost use Rattle.pd_page.specs.Choices.{campaign_of, loss_of, packets_of, part_of};

use crate::Ending;
use crate::answer::{Answer, no_output};
use crate::choices::port_of;
use crate::ending::scene_ending;
use pd_port::Meter;
use pd_sweep::{Campaign, Choice, Form, Look, Loss, Part, Refused, packet_count, sweep_part_text};
use std::alloc::Global;

/// The packets of a port, or of all, from one time to another.
fn packets_of(port: u32, from: u64, to: u64) -> Choice
    ensures { result ≡ packets_of port from to }
{
    Choice {
        port: port_of(port),
        from,
        to,
        kind: None,
    }
}

/// How a packet is harmed.
fn loss_of(damaged: bool) -> Loss
    ensures { result ≡ loss_of damaged }
{
    if damaged { Loss::Damaged } else { Loss::Lost }
}

/// A part of the sweep of the scenario of a text, as an edit script leaves it.
fn swept(
    alloc: Global,
    scenario: &[u8],
    script: &[u8],
    campaign: &Campaign,
    part: Part,
    meter: &mut Meter,
) -> Answer
    ensures { Sweeps campaign.now part script.now scenario.now result.ending result.text.items }
{
    let mut output = no_output(alloc);
    let look = Look {
        form: Form::Json,
        changed: false,
        by_message: false,
    };
    match sweep_part_text(
        alloc,
        scenario,
        script,
        Refused::Skipped,
        campaign,
        part,
        look,
        &mut output,
        meter,
    ) {
        Ok(_) => Answer {
            ending: Ending::Done,
            text: output.writer,
        },
        Err(fault) => Answer::none(alloc, scene_ending(fault)),
    }
}

/// How many packets a sweep of the scenario of a text loses, as an edit script leaves it: of a port, numbered from 1, or for 0 of each
/// port, from one time to another, in microseconds.
#[unsafe(no_mangle)]
pub extern "C" fn page_packet_count(
    alloc: Global,
    scenario: &[u8],
    script: &[u8],
    port: u32,
    from: u64,
    to: u64,
    meter: &mut Meter,
    count: &mut u64,
) -> u32
    ensures { Counted (Counts (packets_of port from to) script.now scenario.now) result count.new }
{
    let choice = packets_of(port, from, to);
    match packet_count(alloc, scenario, script, Refused::Skipped, &choice, meter) {
        Ok(packets) => {
            *count = packets as u64;
            Ending::Done.number()
        }
        Err(fault) => {
            *count = 0;
            scene_ending(fault).number()
        }
    }
}

/// Loses or damages each of these packets in turn, with so many of those that start behind it on its port, and tells as JSON objects
/// what that leads to. Only a part of the packets is tried, so many at most and from one on, the first being 0; and then the summary
/// of this part is told. The objects of the packets of all parts are those of the whole sweep.
#[unsafe(no_mangle)]
pub extern "C" fn page_sweep(
    alloc: Global,
    scenario: &[u8],
    script: &[u8],
    port: u32,
    from: u64,
    to: u64,
    damaged: bool,
    behind: u8,
    first: u64,
    count: u64,
    meter: &mut Meter,
    room: &mut [u8],
    len: &mut u64,
) -> u32
    ensures { Answers (Sweeps (campaign_of (packets_of port from to) damaged behind) (part_of first count) script.now scenario.now)
        result len.new room.old room.new }
{
    let campaign = Campaign {
        choice: packets_of(port, from, to),
        loss: loss_of(damaged),
        behind,
        any: 1,
        most: u64::MAX,
        reserve: None,
    };
    let part = Part {
        first: first as usize,
        count: count as usize,
    };
    swept(alloc, scenario, script, &campaign, part, meter).hand_over(room, len)
}
