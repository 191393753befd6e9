//! What all trials come to.

ghost use Rattle.std.specs.Prelude.{◌≡◌, ◌+◌, ◌-◌, ◌<◌, ◌≤◌, ◌^◌, ◌++◌, OnOk, if◌then◌else◌, length};
ghost use Rattle.pd_sweep.specs.Tallies.{alone_words, and_sets, column_words, columns_words, counts_words, is_short};
ghost use Rattle.pd_sweep.specs.Tallies.{least_so_far, less_words, low_words};
ghost use Rattle.pd_sweep.specs.Tallies.{lower, lowest_line, lowest_words, measure_column, no_trial, noted_trial, on_port_words};
ghost use Rattle.pd_sweep.specs.Tallies.{packets_noun, sets_noun, sets_words, short_words, tally_words, tried_words};
ghost use Rattle.pd_sweep.specs.Tallies.{worse, worse_on, worst_of, worst_on_words};
ghost use Rattle.pd_sweep.specs.Tallies.{worst_words};

use crate::findings::Findings;
use crate::makers::Makers;
use crate::packet_texts::push_packets;
use crate::trial::{Outcome, Trial};
use crate::words::{are_same, push_instant, push_wide};
use crate::{Extent, Measure, Packets};
use pd_report::Margin;
use pd_tell::push_number;
use std::alloc::AllocError;

/// Packets, and how much more of something their loss makes.
#[derive(Clone, Copy, Debug)]
pub struct Worst {
    pub packets: Packets,
    pub by: u128,
}

/// Packets, and how much their loss makes of a measure of a port, numbered from 1.
#[derive(Clone, Copy, Debug)]
pub struct WorstOn {
    pub packets: Packets,
    pub port: u64,
    pub by: u64,
}

/// Packets, the least that is left of the budget where they are lost, and the ports whose contracts are made then.
#[derive(Clone, Copy, Debug)]
pub struct Lowest {
    pub packets: Packets,
    pub margin: Margin,
    pub makers: Makers,
}

/// How many packets or sets of them were tried, and how many sets of more than one; how many of the runs differ, and how many of them
/// end with other contracts. Of each column the worst and its packets: for how long a port's power is less, until when a port's contract
/// is another, how many faults and how many Hard Resets there are more, and the least that is left of the budget, where it is less than
/// without a loss; and in how many runs less is left than was to be.
#[derive(Clone, Copy, Debug)]
pub struct Tally {
    pub tried: u64,
    pub sets: u64,
    pub different: u64,
    pub changed: u64,
    pub less: Option<WorstOn>,
    pub until: Option<WorstOn>,
    pub faults: Option<Worst>,
    pub hard_resets: Option<Worst>,
    pub margin: Option<Lowest>,
    pub short: u64,
}

/// The worse of two.
fn worse(best: Option<Worst>, packets: Packets, by: u128) -> Option<Worst>
    ensures { result ≡ worse best packets by }
{
    let so_far = match best {
        None => 0,
        Some(worst) => worst.by,
    };
    if so_far < by {
        Some(Worst { packets, by })
    } else {
        best
    }
}

/// The worse of two of a port.
fn worse_on(best: Option<WorstOn>, packets: Packets, port: u64, by: u64) -> Option<WorstOn>
    ensures { result ≡ worse_on best packets port by }
{
    let so_far = match best {
        None => 0,
        Some(worst) => worst.by,
    };
    if so_far < by {
        Some(WorstOn { packets, port, by })
    } else {
        best
    }
}

/// The worst of one of the measures after those of a packet's run, of the ports from one on.
fn worst_of(
    extent: Extent,
    best: Option<WorstOn>,
    packets: Packets,
    port: u64,
    measures: &[Measure],
) -> Option<WorstOn>
    requires { port + length measures.now < 2 ^ 64 }
    ensures { result ≡ worst_of extent best packets port measures.now }
{
    let [measure, measures @ ..] = measures else {
        return best;
    };
    let best = worse_on(best, packets, port, measure.extent(extent));
    worst_of(extent, best, packets, port + 1, measures)
}

/// The least that is left so far, without a loss or with one.
fn least_so_far(without: Margin, lowest: Option<Lowest>) -> u64
    ensures { result ≡ least_so_far without lowest }
{
    match lowest {
        None => without.left,
        Some(lowest) => lowest.margin.left,
    }
}

/// The lower of two.
fn lower(
    without: Margin,
    lowest: Option<Lowest>,
    packets: Packets,
    new: &Findings,
) -> Option<Lowest>
    ensures { result ≡ lower without lowest packets new.now }
{
    if new.margin.left < least_so_far(without, lowest) {
        Some(Lowest {
            packets,
            margin: new.margin,
            makers: new.makers,
        })
    } else {
        lowest
    }
}

/// Whether less is left than so many milliwatts, where that is asked.
fn is_short(reserve: Option<u64>, margin: &Margin) -> bool
    ensures { result ≡ is_short reserve margin.now }
{
    match reserve {
        None => false,
        Some(mw) => u128::from(margin.left) < u128::from(mw) * 1000,
    }
}

/// One more where something is so.
fn more_if(is_so: bool, count: u64) -> u64
    requires { count < 2 ^ 64 - 1 }
    ensures value { result ≡ if is_so then count + 1 else count }
    ensures one { result ≤ count + 1 }
{
    if is_so { count + 1 } else { count }
}

impl Tally {
    /// Nothing was tried.
    pub fn none() -> Tally
        ensures { result ≡ no_trial }
    {
        Tally {
            tried: 0,
            sets: 0,
            different: 0,
            changed: 0,
            less: None,
            until: None,
            faults: None,
            hard_resets: None,
            margin: None,
            short: 0,
        }
    }

    /// After one more trial.
    pub fn after(&self, reserve: Option<u64>, old: &Findings, trial: &Trial) -> Tally
        requires room { self.now.tried < 2 ^ 64 - 1 }
        requires few { self.now.changed ≤ self.now.tried }
        requires few_different { self.now.different ≤ self.now.tried }
        requires few_short { self.now.short ≤ self.now.tried }
        requires few_sets { self.now.sets ≤ self.now.tried }
        ensures value { result ≡ noted_trial reserve old.now self.now trial.now }
        ensures one { result.tried ≤ self.now.tried + 1 }
        ensures few { result.changed ≤ result.tried }
        ensures few_different { result.different ≤ result.tried }
        ensures few_short { result.short ≤ result.tried }
        ensures few_sets { result.sets ≤ result.tried }
    {
        let Outcome::Ran(effect) = trial.outcome else {
            return *self;
        };
        let packets = trial.packets;
        let new = &effect.findings;
        let (few, many) = (&old.summary.mishaps, &new.summary.mishaps);
        let faults = many.faults.saturating_sub(few.faults);
        let resets = many.hard_resets.saturating_sub(few.hard_resets);
        let same = are_same(
            &old.summary.standing.contracts,
            &new.summary.standing.contracts,
        );
        Tally {
            tried: self.tried + 1,
            sets: more_if(packets.count() > 1, self.sets),
            different: more_if(effect.makes_difference(old), self.different),
            changed: if same { self.changed } else { self.changed + 1 },
            less: worst_of(Extent::Less, self.less, packets, 1, &effect.measures),
            until: worst_of(Extent::Until, self.until, packets, 1, &effect.measures),
            faults: worse(self.faults, packets, faults),
            hard_resets: worse(self.hard_resets, packets, resets),
            margin: lower(old.margin, self.margin, packets, new),
            short: more_if(is_short(reserve, &new.margin), self.short),
        }
    }
}

/// Writes the worst of a column.
fn push_worst(text: &mut Vec<u8>, worst: &Option<Worst>) -> Result<(), AllocError>
    ensures { OnOk result (text.new.items ≡ text.old.items ++ worst_words worst.now) }
{
    let Some(worst) = worst else {
        return text.extend_from_slice(b"none\n");
    };
    text.push(b'+')?;
    push_wide(text, worst.by)?;
    text.extend_from_slice(b", ")?;
    push_packets(text, &worst.packets)?;
    text.extend_from_slice(b"\n")
}

/// Writes a column's name and its worst.
fn push_column(text: &mut Vec<u8>, name: &[u8], worst: &Option<Worst>) -> Result<(), AllocError>
    ensures { OnOk result (text.new.items ≡ text.old.items ++ column_words name.now worst.now) }
{
    text.extend_from_slice(name)?;
    push_worst(text, worst)
}

/// Writes how much a measure of a port is, the port, and the packet.
fn push_on_port(
    text: &mut Vec<u8>,
    lead: &[u8],
    unit: &[u8],
    worst: &WorstOn,
) -> Result<(), AllocError>
    ensures { OnOk result (text.new.items ≡ text.old.items ++ on_port_words lead.now unit.now worst.now) }
{
    text.extend_from_slice(lead)?;
    push_number(text, worst.by)?;
    text.extend_from_slice(unit)?;
    text.extend_from_slice(b" on port ")?;
    push_number(text, worst.port)?;
    text.extend_from_slice(b", ")?;
    push_packets(text, &worst.packets)?;
    text.extend_from_slice(b"\n")?;
    Ok(())
}

/// Writes the same, or that there is none.
fn push_worst_on(
    text: &mut Vec<u8>,
    lead: &[u8],
    unit: &[u8],
    worst: &Option<WorstOn>,
) -> Result<(), AllocError>
    ensures { OnOk result (text.new.items ≡ text.old.items ++ worst_on_words lead.now unit.now worst.now) }
{
    match worst {
        None => text.extend_from_slice(b"none\n"),
        Some(worst) => push_on_port(text, lead, unit, worst),
    }
}

/// Writes the name of a measure, and its worst.
fn push_measure_column(
    text: &mut Vec<u8>,
    name: &[u8],
    lead: &[u8],
    unit: &[u8],
    worst: &Option<WorstOn>,
) -> Result<(), AllocError>
    ensures { OnOk result (text.new.items ≡ text.old.items ++ measure_column name.now lead.now unit.now worst.now) }
{
    text.extend_from_slice(name)?;
    push_worst_on(text, lead, unit, worst)
}

/// What a count of packets is of.
fn packets_noun(count: u64) -> &'static [u8]
    ensures { result.now ≡ packets_noun count }
{
    if count == 1 { b" packet" } else { b" packets" }
}

/// What a count of sets is of.
#[tactic(auto, unfolding(crate::specs::Tallies::sets_noun))]
fn sets_noun(sets: u64) -> &'static [u8]
    ensures { result.now ≡ sets_noun sets }
{
    if sets == 1 {
        b" set of packets"
    } else {
        b" sets of packets"
    }
}

/// Writes how many packets were tried alone.
fn push_alone(text: &mut Vec<u8>, count: u64) -> Result<(), AllocError>
    ensures { OnOk result (text.new.items ≡ text.old.items ++ alone_words count) }
{
    push_number(text, count)?;
    text.extend_from_slice(packets_noun(count))
}

/// Writes how many sets of more than one packet were tried.
fn push_and_sets(text: &mut Vec<u8>, sets: u64) -> Result<(), AllocError>
    ensures { OnOk result (text.new.items ≡ text.old.items ++ and_sets sets) }
{
    text.extend_from_slice(b" and ")?;
    push_number(text, sets)?;
    text.extend_from_slice(sets_noun(sets))
}

/// Writes the same, where any was.
fn push_sets(text: &mut Vec<u8>, sets: u64) -> Result<(), AllocError>
    ensures { OnOk result (text.new.items ≡ text.old.items ++ sets_words sets) }
{
    if sets == 0 {
        return Ok(());
    }
    push_and_sets(text, sets)
}

/// Writes how many packets were tried, lost or damaged alone, and how many sets.
fn push_tried(text: &mut Vec<u8>, tally: &Tally) -> Result<(), AllocError>
    ensures { OnOk result (text.new.items ≡ text.old.items ++ tried_words tally.now) }
{
    let alone = tally.tried.saturating_sub(tally.sets);
    push_alone(text, alone)?;
    push_sets(text, tally.sets)?;
    text.extend_from_slice(b" tried, ")
}

/// Writes how many packets were tried, how many of the runs differ, and how many end with other contracts.
fn push_counts(text: &mut Vec<u8>, tally: &Tally) -> Result<(), AllocError>
    ensures { OnOk result (text.new.items ≡ text.old.items ++ counts_words tally.now) }
{
    push_tried(text, tally)?;
    push_number(text, tally.different)?;
    text.extend_from_slice(b" with a difference, ")?;
    push_number(text, tally.changed)?;
    text.extend_from_slice(b" with other contracts at the end\n")?;
    Ok(())
}

/// Writes the least that a loss leaves, when, and by which ports.
fn push_low(text: &mut Vec<u8>, lowest: &Lowest) -> Result<(), AllocError>
    ensures { OnOk result (text.new.items ≡ text.old.items ++ low_words lowest.now) }
{
    push_number(text, lowest.margin.left)?;
    push_instant(text, lowest.margin.at, &lowest.makers)?;
    text.extend_from_slice(b", ")?;
    push_packets(text, &lowest.packets)?;
    text.extend_from_slice(b"\n")?;
    Ok(())
}

/// Writes the same, or that none leaves less.
fn push_lowest(text: &mut Vec<u8>, lowest: &Option<Lowest>) -> Result<(), AllocError>
    ensures { OnOk result (text.new.items ≡ text.old.items ++ lowest_words lowest.now) }
{
    match lowest {
        None => text.extend_from_slice(b"none\n"),
        Some(lowest) => push_low(text, lowest),
    }
}

/// Writes the line of the least that a loss leaves.
fn push_lowest_line(text: &mut Vec<u8>, lowest: &Option<Lowest>) -> Result<(), AllocError>
    ensures { OnOk result (text.new.items ≡ text.old.items ++ lowest_line lowest.now) }
{
    text.extend_from_slice(b"least margin: ")?;
    push_lowest(text, lowest)
}

/// Writes the columns of which there may be more than without a loss.
#[tactic(auto, unfolding(crate::specs::Tallies::columns_words))]
fn push_columns(text: &mut Vec<u8>, tally: &Tally) -> Result<(), AllocError>
    ensures { OnOk result (text.new.items ≡ text.old.items ++ columns_words tally.now) }
{
    push_measure_column(text, b"longest less power: ", b"", b" us", &tally.less)?;
    push_measure_column(text, b"latest difference: ", b"until ", b"", &tally.until)?;
    push_column(text, b"most faults: ", &tally.faults)?;
    push_column(text, b"most hard resets: ", &tally.hard_resets)
}

/// Writes in how many runs less is left than so many milliwatts.
fn push_less(text: &mut Vec<u8>, mw: u64, short: u64) -> Result<(), AllocError>
    ensures { OnOk result (text.new.items ≡ text.old.items ++ less_words mw short) }
{
    push_number(text, short)?;
    text.extend_from_slice(b" left less than ")?;
    push_number(text, mw)?;
    text.extend_from_slice(b" mW\n")?;
    Ok(())
}

/// Writes the same, where it is asked.
fn push_short(text: &mut Vec<u8>, reserve: Option<u64>, short: u64) -> Result<(), AllocError>
    ensures { OnOk result (text.new.items ≡ text.old.items ++ short_words reserve short) }
{
    match reserve {
        None => Ok(()),
        Some(mw) => push_less(text, mw, short),
    }
}

/// Writes the summary of a sweep.
///
/// # Errors
/// There is no memory for it; some of it may stand in the text.
#[tactic(auto, unfolding(crate::specs::Tallies::tally_words))]
pub fn push_tally(text: &mut Vec<u8>, reserve: Option<u64>, tally: &Tally) -> Result<(), AllocError>
    ensures { OnOk result (text.new.items ≡ text.old.items ++ tally_words reserve tally.now) }
{
    push_counts(text, tally)?;
    push_columns(text, tally)?;
    push_lowest_line(text, &tally.margin)?;
    push_short(text, reserve, tally.short)
}
