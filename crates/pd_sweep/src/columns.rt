//! The summary of a sweep as a JSON object.

ghost use Rattle.std.specs.Prelude.{◌≡◌, ◌++◌, OnOk};
ghost use Rattle.pd_sweep.specs.Columns.{columns_members, counts_members, less_members, lowest_json, lowest_member};
ghost use Rattle.pd_sweep.specs.Columns.{lowest_object, sets_member, short_members, tally_members, tally_object, worst_json, worst_member};
ghost use Rattle.pd_sweep.specs.Columns.{worst_object, worst_on_json, worst_on_member, worst_on_object};

use crate::objects::push_instant_members;
use crate::packet_texts::push_packets_members;
use crate::{Lowest, Tally, Worst, WorstOn, push_wide};
use pd_tell::{push_number, push_number_member};
use std::alloc::AllocError;

/// Writes how many sets of more than one packet were lost, where any was.
fn push_sets(text: &mut Vec<u8>, sets: u64) -> Result<(), AllocError>
    ensures { OnOk result (text.new.items ≡ text.old.items ++ sets_member sets) }
{
    if sets == 0 {
        return Ok(());
    }
    push_number_member(text, b"sets", sets)
}

/// Writes how many packets were lost alone, how many sets, how many of the runs differ, and how many end with other contracts.
fn push_counts(text: &mut Vec<u8>, tally: &Tally) -> Result<(), AllocError>
    ensures { OnOk result (text.new.items ≡ text.old.items ++ counts_members tally.now) }
{
    push_number_member(text, b"packets", tally.tried.saturating_sub(tally.sets))?;
    push_sets(text, tally.sets)?;
    push_number_member(text, b"different", tally.different)?;
    push_number_member(text, b"other_contracts", tally.changed)
}

/// Writes a column's worst: how much more there is, and the packet.
fn push_worst_object(text: &mut Vec<u8>, worst: &Worst) -> Result<(), AllocError>
    ensures { OnOk result (text.new.items ≡ text.old.items ++ worst_object worst.now) }
{
    text.extend_from_slice(b"{\"more\":")?;
    push_wide(text, worst.by)?;
    push_packets_members(text, &worst.packets)?;
    text.extend_from_slice(b"}")
}

/// Writes the same, or that there is none.
fn push_worst(text: &mut Vec<u8>, worst: &Option<Worst>) -> Result<(), AllocError>
    ensures { OnOk result (text.new.items ≡ text.old.items ++ worst_json worst.now) }
{
    match worst {
        None => text.extend_from_slice(b"null"),
        Some(worst) => push_worst_object(text, worst),
    }
}

/// Writes a column behind its key.
#[tactic(auto, unfolding(crate::specs::Columns::worst_member))]
fn push_column(text: &mut Vec<u8>, key: &[u8], worst: &Option<Worst>) -> Result<(), AllocError>
    ensures { OnOk result (text.new.items ≡ text.old.items ++ worst_member key.now worst.now) }
{
    text.extend_from_slice(b",\"")?;
    text.extend_from_slice(key)?;
    text.extend_from_slice(b"\":")?;
    push_worst(text, worst)
}

/// Writes how much a measure of a port is, behind its key, the port, and the packet.
fn push_worst_on_object(text: &mut Vec<u8>, by: &[u8], worst: &WorstOn) -> Result<(), AllocError>
    ensures { OnOk result (text.new.items ≡ text.old.items ++ worst_on_object by.now worst.now) }
{
    text.extend_from_slice(b"{\"")?;
    text.extend_from_slice(by)?;
    text.extend_from_slice(b"\":")?;
    push_number(text, worst.by)?;
    push_number_member(text, b"of_port", worst.port)?;
    push_packets_members(text, &worst.packets)?;
    text.extend_from_slice(b"}")
}

/// Writes the same, or that there is none.
fn push_worst_on(text: &mut Vec<u8>, by: &[u8], worst: &Option<WorstOn>) -> Result<(), AllocError>
    ensures { OnOk result (text.new.items ≡ text.old.items ++ worst_on_json by.now worst.now) }
{
    match worst {
        None => text.extend_from_slice(b"null"),
        Some(worst) => push_worst_on_object(text, by, worst),
    }
}

/// Writes that of a measure behind its key.
#[tactic(auto, unfolding(crate::specs::Columns::worst_on_member))]
fn push_measure_column(
    text: &mut Vec<u8>,
    key: &[u8],
    by: &[u8],
    worst: &Option<WorstOn>,
) -> Result<(), AllocError>
    ensures { OnOk result (text.new.items ≡ text.old.items ++ worst_on_member key.now by.now worst.now) }
{
    text.extend_from_slice(b",\"")?;
    text.extend_from_slice(key)?;
    text.extend_from_slice(b"\":")?;
    push_worst_on(text, by, worst)
}

/// Writes the columns: the worst of what is measured of a port, and that of which there may be more than without a loss.
fn push_columns(text: &mut Vec<u8>, tally: &Tally) -> Result<(), AllocError>
    ensures { OnOk result (text.new.items ≡ text.old.items ++ columns_members tally.now) }
{
    push_measure_column(text, b"longest_less_power", b"less_power_us", &tally.less)?;
    push_measure_column(
        text,
        b"latest_difference",
        b"differs_until_us",
        &tally.until,
    )?;
    push_column(text, b"most_faults", &tally.faults)?;
    push_column(text, b"most_hard_resets", &tally.hard_resets)
}

/// Writes the least that a loss leaves, when, and by which ports.
fn push_lowest_object(text: &mut Vec<u8>, lowest: &Lowest) -> Result<(), AllocError>
    ensures { OnOk result (text.new.items ≡ text.old.items ++ lowest_object lowest.now) }
{
    text.extend_from_slice(b"{\"least_margin_uw\":")?;
    push_number(text, lowest.margin.left)?;
    push_instant_members(text, lowest.margin.at, &lowest.makers)?;
    push_packets_members(text, &lowest.packets)?;
    text.extend_from_slice(b"}")?;
    Ok(())
}

/// Writes the same, or that none leaves less.
fn push_lowest(text: &mut Vec<u8>, lowest: &Option<Lowest>) -> Result<(), AllocError>
    ensures { OnOk result (text.new.items ≡ text.old.items ++ lowest_json lowest.now) }
{
    match lowest {
        None => text.extend_from_slice(b"null"),
        Some(lowest) => push_lowest_object(text, lowest),
    }
}

/// Writes it behind its key.
#[tactic(auto, unfolding(crate::specs::Columns::lowest_member))]
fn push_lowest_member(
    text: &mut Vec<u8>,
    key: &[u8],
    lowest: &Option<Lowest>,
) -> Result<(), AllocError>
    ensures { OnOk result (text.new.items ≡ text.old.items ++ lowest_member key.now lowest.now) }
{
    text.extend_from_slice(b",\"")?;
    text.extend_from_slice(key)?;
    text.extend_from_slice(b"\":")?;
    push_lowest(text, lowest)
}

/// Writes in how many runs less is left than so many milliwatts.
fn push_less(text: &mut Vec<u8>, mw: u64, short: u64) -> Result<(), AllocError>
    ensures { OnOk result (text.new.items ≡ text.old.items ++ less_members mw short) }
{
    push_number_member(text, b"reserve_mw", mw)?;
    push_number_member(text, b"left_less", short)
}

/// Writes the same, where it is asked.
fn push_short(text: &mut Vec<u8>, reserve: Option<u64>, short: u64) -> Result<(), AllocError>
    ensures { OnOk result (text.new.items ≡ text.old.items ++ short_members reserve short) }
{
    match reserve {
        None => Ok(()),
        Some(mw) => push_less(text, mw, short),
    }
}

/// Writes the members of the summary.
pub(crate) fn push_members(
    text: &mut Vec<u8>,
    reserve: Option<u64>,
    tally: &Tally,
) -> Result<(), AllocError>
    ensures { OnOk result (text.new.items ≡ text.old.items ++ tally_members reserve tally.now) }
{
    push_counts(text, tally)?;
    push_columns(text, tally)?;
    push_lowest_member(text, b"least_margin", &tally.margin)?;
    push_short(text, reserve, tally.short)
}

/// Writes the object of the summary.
pub(crate) fn push_tally_object(
    text: &mut Vec<u8>,
    reserve: Option<u64>,
    tally: &Tally,
) -> Result<(), AllocError>
    ensures { OnOk result (text.new.items ≡ text.old.items ++ tally_object reserve tally.now) }
{
    text.extend_from_slice(b"{\"kind\":\"summary\"")?;
    push_members(text, reserve, tally)?;
    text.extend_from_slice(b"}\n")?;
    Ok(())
}
