//! The packets of a run.

ghost use Rattle.std.specs.Prelude.{◌≡◌, ◌++◌, ◌<◌, IfOk, List, MatchOption, OnOk, length, option_map, slice_get};
ghost use Rattle.std.specs.List.{AllByRecursion};
ghost use Rattle.pd_sweep.specs.Lost.{IsOfRun};
ghost use Rattle.pd_sweep.specs.Choices.{chosen, chosen_of, is_disturbed, packet_at};

use crate::Choice;
use pd_header::Side;
use pd_line::Start;
use pd_packet::Fate;
use pd_port::Entry;
use pd_run::Runner;
use pd_symbols::Channel;
use std::alloc::{AllocError, Global};

/// A packet that starts: when, in microseconds, on which port, numbered from 1, who sends it, to whom, its header, and whether it
/// doesn't arrive as it was sent.
#[derive(Clone, Copy, Debug)]
pub struct Target {
    pub at: u64,
    pub port: usize,
    pub side: Side,
    pub channel: Channel,
    pub header: u16,
    pub disturbed: bool,
}

/// Whether a packet doesn't arrive as it was sent.
pub(crate) fn is_disturbed(fate: &Fate) -> bool
    ensures { result ≡ is_disturbed fate.now }
{
    !matches!(fate, Fate::Undisturbed)
}

/// The packet that starts on a port in an entry, if one does.
fn packet_at(port: usize, entry: &Entry) -> Option<Target>
    ensures { result ≡ packet_at port entry.now.at entry.now.start }
{
    match &entry.start {
        Some(Start::Packet { side, packet, fate }) => Some(Target {
            at: entry.at,
            port,
            side: *side,
            channel: packet.channel(),
            header: packet.header(),
            disturbed: is_disturbed(fate),
        }),
        _ => None,
    }
}

/// Adds the packet of an entry to those that are tried, where it is one.
#[tactic(auto, unfolding(crate::specs::Choices::chosen_of))]
fn push_chosen(
    targets: &mut Vec<Target>,
    choice: &Choice,
    port: usize,
    entry: &Entry,
) -> Result<(), AllocError>
    ensures { OnOk result (targets.new.items ≡ targets.old.items ++ chosen_of choice.now (port, entry.now)) }
{
    if let Some(target) = packet_at(port, entry)
        && choice.has(&target)
    {
        targets.push(target)?;
    }
    Ok(())
}

/// Adds the packet of the entry at an index.
fn push_chosen_at<const N: usize, T: Runner<N>>(
    targets: &mut Vec<Target>,
    choice: &Choice,
    run: &T,
    index: usize,
) -> Result<(), AllocError>
    requires { index < length (T.entries run.now) }
    ensures { OnOk result (MatchOption (slice_get (T.entries run.now) index) ⊥
        (λ move. targets.new.items ≡ targets.old.items ++ chosen_of choice.now move)) }
{
    match run.entry(index) {
        Some((port, entry)) => push_chosen(targets, choice, port, entry),
        None => Ok(()),
    }
}

/// The packets of a run that are tried, in the run's order.
///
/// # Errors
/// There is no memory.
pub fn chosen<const N: usize, T: Runner<N>>(
    alloc: Global,
    run: &T,
    choice: &Choice,
) -> Result<Vec<Target>, AllocError>
    ensures value { IfOk result (λ v. v.items ≡ chosen choice.now (T.entries run.now)) }
    ensures known { IfOk result (λ v. AllByRecursion (IsOfRun N) v.items) }
{
    let mut targets = Vec::new(alloc);
    for index in 0..run.len() {
        push_chosen_at(&mut targets, choice, run, index)?;
    }
    Ok(targets)
}
