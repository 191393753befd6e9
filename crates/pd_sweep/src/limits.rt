//! Which limits the runs of a sweep pass.

ghost use Rattle.std.specs.Prelude.{◌≡◌, ◌++◌, OnOk};
ghost use Rattle.pd_sweep.specs.Limits.{harm_words, is_none_passed, limit_lead, longer_than};
ghost use Rattle.pd_sweep.specs.Limits.{passed_lines, passed_of};
ghost use Rattle.pd_sweep.specs.Limits.{power_line, power_over, power_words, resets_line, resets_over, resets_words, runs_line};
ghost use Rattle.pd_sweep.specs.Limits.{runs_over, runs_words, verb_words, where_words};

use crate::packet_texts::push_names;
use crate::{Loss, Packets, Tally, Worst, WorstOn, push_wide};
use pd_tell::push_number;
use std::alloc::AllocError;

/// What no run of a sweep is to do: end with other contracts than without a loss, have more Hard Resets, or leave a port less power for
/// longer than so many microseconds; each where that is asked.
#[derive(Clone, Copy, Debug)]
pub struct Limits {
    pub other_contracts: bool,
    pub hard_resets: bool,
    pub less_power: Option<u64>,
}

/// The limits that the runs of a sweep pass: how many of them end with other contracts, the packet whose loss makes the most Hard
/// Resets, and that whose loss leaves a port less power for longest.
#[derive(Clone, Copy, Debug)]
pub struct Passed {
    pub other_contracts: Option<u64>,
    pub hard_resets: Option<Worst>,
    pub less_power: Option<WorstOn>,
}

/// How many runs end with other contracts, where none is to.
fn runs_over(limit: bool, runs: u64) -> Option<u64>
    ensures { result ≡ runs_over limit runs }
{
    if limit && runs > 0 { Some(runs) } else { None }
}

/// The most Hard Resets, where there are to be none.
fn resets_over(limit: bool, worst: Option<Worst>) -> Option<Worst>
    ensures { result ≡ resets_over limit worst }
{
    if limit { worst } else { None }
}

/// A time of less power that is longer than so many microseconds.
fn longer_than(us: u64, worst: Option<WorstOn>) -> Option<WorstOn>
    ensures { result ≡ longer_than us worst }
{
    match worst {
        Some(worst) if us < worst.by => Some(worst),
        _ => None,
    }
}

/// The same, where that is a limit.
fn power_over(limit: Option<u64>, worst: Option<WorstOn>) -> Option<WorstOn>
    ensures { result ≡ power_over limit worst }
{
    match limit {
        None => None,
        Some(us) => longer_than(us, worst),
    }
}

impl Limits {
    /// Which of them the runs of a sweep pass, by their summary.
    pub fn passed(&self, tally: &Tally) -> Passed
        ensures { result ≡ passed_of self.now tally.now }
    {
        Passed {
            other_contracts: runs_over(self.other_contracts, tally.changed),
            hard_resets: resets_over(self.hard_resets, tally.hard_resets),
            less_power: power_over(self.less_power, tally.less),
        }
    }
}

/// The verb for packets.
fn verb_text(packets: &Packets) -> &'static [u8]
    ensures { result.now ≡ verb_words packets.now }
{
    match packets {
        Packets::One(_) => b" is",
        Packets::Two(..) | Packets::Three(..) => b" are",
    }
}

/// What is done to packets, and the end of a line.
fn harm_text(loss: Loss) -> &'static [u8]
    ensures { result.now ≡ harm_words loss }
{
    match loss {
        Loss::Lost => b" lost\n",
        Loss::Damaged => b" damaged\n",
    }
}

/// Writes in which run something is so.
#[tactic(auto, unfolding(crate::specs::Limits::where_words))]
fn push_where(text: &mut Vec<u8>, loss: Loss, packets: &Packets) -> Result<(), AllocError>
    ensures { OnOk result (text.new.items ≡ text.old.items ++ where_words loss packets.now) }
{
    text.extend_from_slice(b" where ")?;
    push_names(text, packets)?;
    text.extend_from_slice(verb_text(packets))?;
    text.extend_from_slice(harm_text(loss))
}

/// Writes what begins a line.
fn push_lead(text: &mut Vec<u8>, name: &[u8], limit: &[u8]) -> Result<(), AllocError>
    ensures { OnOk result (text.new.items ≡ text.old.items ++ limit_lead name.now limit.now) }
{
    text.extend_from_slice(name)?;
    text.extend_from_slice(b": --fail-on ")?;
    text.extend_from_slice(limit)?;
    text.extend_from_slice(b": ")?;
    Ok(())
}

/// Writes how many runs end with other contracts.
fn push_runs(text: &mut Vec<u8>, runs: u64) -> Result<(), AllocError>
    ensures { OnOk result (text.new.items ≡ text.old.items ++ runs_words runs) }
{
    if runs == 1 {
        return text.extend_from_slice(b"1 run ends with other contracts\n");
    }
    push_number(text, runs)?;
    text.extend_from_slice(b" runs end with other contracts\n")
}

/// Writes the line of this limit, where it is passed.
fn push_runs_line(text: &mut Vec<u8>, name: &[u8], runs: Option<u64>) -> Result<(), AllocError>
    ensures { OnOk result (text.new.items ≡ text.old.items ++ runs_line name.now runs) }
{
    let Some(runs) = runs else {
        return Ok(());
    };
    push_lead(text, name, b"other-contracts")?;
    push_runs(text, runs)
}

/// Writes how many Hard Resets a loss makes.
fn push_resets(text: &mut Vec<u8>, loss: Loss, worst: &Worst) -> Result<(), AllocError>
    ensures { OnOk result (text.new.items ≡ text.old.items ++ resets_words loss worst.now) }
{
    push_wide(text, worst.by)?;
    text.extend_from_slice(b" more")?;
    push_where(text, loss, &worst.packets)
}

/// Writes the line of this limit, where it is passed.
fn push_resets_line(
    text: &mut Vec<u8>,
    name: &[u8],
    loss: Loss,
    worst: &Option<Worst>,
) -> Result<(), AllocError>
    ensures { OnOk result (text.new.items ≡ text.old.items ++ resets_line name.now loss worst.now) }
{
    let Some(worst) = worst else {
        return Ok(());
    };
    push_lead(text, name, b"hard-resets")?;
    push_resets(text, loss, worst)
}

/// Writes for how long a loss leaves a port less power.
fn push_power(text: &mut Vec<u8>, loss: Loss, worst: &WorstOn) -> Result<(), AllocError>
    ensures { OnOk result (text.new.items ≡ text.old.items ++ power_words loss worst.now) }
{
    text.extend_from_slice(b"port ")?;
    push_number(text, worst.port)?;
    text.extend_from_slice(b" has less power for ")?;
    push_number(text, worst.by)?;
    text.extend_from_slice(b" us")?;
    push_where(text, loss, &worst.packets)
}

/// Writes the line of this limit, where it is passed.
fn push_power_line(
    text: &mut Vec<u8>,
    name: &[u8],
    loss: Loss,
    worst: &Option<WorstOn>,
) -> Result<(), AllocError>
    ensures { OnOk result (text.new.items ≡ text.old.items ++ power_line name.now loss worst.now) }
{
    let Some(worst) = worst else {
        return Ok(());
    };
    push_lead(text, name, b"less-power")?;
    push_power(text, loss, worst)
}

impl Passed {
    /// Whether no limit is passed.
    pub fn is_none(&self) -> bool
        ensures { result ≡ is_none_passed self.now }
    {
        self.other_contracts.is_none() && self.hard_resets.is_none() && self.less_power.is_none()
    }
}

/// Writes a line for each limit that is passed, each behind a name: the option's word for it, the number that passes it, and the packet
/// whose loss makes that number.
///
/// # Errors
/// There is no memory for it; some of it may stand in the text.
pub fn push_passed(
    text: &mut Vec<u8>,
    name: &[u8],
    loss: Loss,
    passed: &Passed,
) -> Result<(), AllocError>
    ensures { OnOk result (text.new.items ≡ text.old.items ++ passed_lines name.now loss passed.now) }
{
    push_runs_line(text, name, passed.other_contracts)?;
    push_resets_line(text, name, loss, &passed.hard_resets)?;
    push_power_line(text, name, loss, &passed.less_power)
}
