//! What many runs with losses by lot come to, as text.

ghost use Rattle.std.specs.Prelude.{◌≡◌, ◌++◌, ◌+◌, IfOk, OnOk, count_by, decimal};
ghost use Rattle.std.specs.List.{flat_map, range_with_len, sum_by};
ghost use Rattle.pd_noise.specs.declared.noisy.Noisy.{Noisy as NoisyData};
ghost use Rattle.pd_noise.specs.Reports.{ends_otherwise, first_line, less_words, longest_words, name_of, port_rows, report_words};
ghost use Rattle.pd_noise.specs.Reports.{row_of, row_words, shown_row, table, unit_of, worst_run_words, worst_words};
ghost use Rattle.pd_noise.specs.Worsts.{worst_from};

use crate::cell::{push_between, push_cell, push_counted, push_lost, push_noise};
use crate::worst::worst_of;
use crate::{Column, Longest, Noise, Noisy, Spread, Worst};
use pd_sweep::{Findings, are_same, push_wide};
use std::alloc::{AllocError, Global};

/// How many packets are lost in all of some runs.
fn lost_in_all(noisies: &[Noisy]) -> u128
    ensures { result ≡ sum_by (λ (x : NoisyData). x.lost) noisies.now }
{
    let mut lost = 0;
    for noisy in noisies {
        lost += noisy.lost as u128;
    }
    lost
}

/// How many of them end with other contracts than the run without a loss.
fn others_in_all(without: &Findings, noisies: &[Noisy]) -> usize
    ensures { result ≡ count_by (ends_otherwise without.now) noisies.now }
{
    let contracts = &without.summary.standing.contracts;
    noisies
        .iter()
        .filter(|noisy| { !are_same(contracts, &noisy.effect.findings.summary.standing.contracts) })
        .count()
}

/// Writes the first line.
#[tactic(auto, unfolding(crate::specs::Reports::first_line))]
fn push_first_line(
    text: &mut Vec<u8>,
    noise: &Noise,
    without: &Findings,
    noisies: &[Noisy],
) -> Result<(), AllocError>
    ensures { OnOk result (text.new.items ≡ text.old.items ++ first_line noise.now without.now noisies.now) }
{
    push_counted(text, noisies.len() as u128, b" run, ", b" runs, ")?;
    push_noise(text, noise)?;
    push_lost(text, lost_in_all(noisies))?;
    text.extend_from_slice(b", ")?;
    push_counted(
        text,
        others_in_all(without, noisies) as u128,
        b" run ends with other contracts\n",
        b" runs end with other contracts\n",
    )
}

/// Writes a name in front of a port, which is numbered from 0 here, and spaces behind it.
fn push_port_name(
    text: &mut Vec<u8>,
    name: &[u8],
    port: usize,
    spaces: &[u8],
) -> Result<(), AllocError>
    ensures { OnOk result (text.new.items ≡ text.old.items ++ (name.now ++ (decimal (port + 1) ++ spaces.now))) }
{
    text.extend_from_slice(name)?;
    push_wide(text, port as u128 + 1)?;
    text.extend_from_slice(spaces)
}

/// Writes the name of a measure.
fn push_name(text: &mut Vec<u8>, column: Column) -> Result<(), AllocError>
    ensures { OnOk result (text.new.items ≡ text.old.items ++ name_of column) }
{
    match column {
        Column::Less(port) => push_port_name(text, b"less power port ", port, b"    "),
        Column::More(port) => push_port_name(text, b"more power port ", port, b"    "),
        Column::Until(port) => push_port_name(text, b"differs until port ", port, b" "),
        Column::Faults => text.extend_from_slice(b"faults               "),
        Column::HardResets => text.extend_from_slice(b"hard resets          "),
        Column::Margin => text.extend_from_slice(b"least margin         "),
    }
}

/// The unit of a measure, and the end of its row.
fn unit_of(column: Column) -> &'static [u8]
    ensures { result.now ≡ unit_of column }
{
    match column {
        Column::Faults | Column::HardResets => b"\n",
        Column::Margin => b" uW\n",
        _ => b" us\n",
    }
}

/// Writes the row of a measure.
fn push_cells(text: &mut Vec<u8>, column: Column, spread: &Spread) -> Result<(), AllocError>
    ensures { OnOk result (text.new.items ≡ text.old.items ++ row_words column spread.now) }
{
    push_name(text, column)?;
    push_cell(text, spread.least)?;
    push_cell(text, spread.median)?;
    push_cell(text, spread.high)?;
    push_cell(text, spread.greatest)?;
    text.extend_from_slice(unit_of(column))
}

/// Writes it, except for one of a port that is 0 in all runs.
fn push_shown(text: &mut Vec<u8>, column: Column, spread: &Spread) -> Result<(), AllocError>
    ensures { OnOk result (text.new.items ≡ text.old.items ++ shown_row column spread.now) }
{
    if column.is_of_port() && spread.greatest == 0 {
        Ok(())
    } else {
        push_cells(text, column, spread)
    }
}

/// Writes what a measure comes to in some runs.
#[tactic(auto, unfolding(crate::specs::Reports::row_of))]
fn push_row(
    alloc: Global,
    text: &mut Vec<u8>,
    noisies: &[Noisy],
    column: Column,
) -> Result<(), AllocError>
    ensures { OnOk result (text.new.items ≡ text.old.items ++ row_of noisies.now column) }
{
    let spread = Spread::of(column.values_of(alloc, noisies)?)?;
    push_shown(text, column, &spread)
}

/// Writes the rows of a port.
fn push_port_rows(
    alloc: Global,
    text: &mut Vec<u8>,
    noisies: &[Noisy],
    port: usize,
) -> Result<(), AllocError>
    ensures { OnOk result (text.new.items ≡ text.old.items ++ port_rows noisies.now port) }
{
    push_row(alloc, text, noisies, Column::Less(port))?;
    push_row(alloc, text, noisies, Column::More(port))?;
    push_row(alloc, text, noisies, Column::Until(port))
}

/// Writes the rows of all ports.
fn push_all_ports(alloc: Global, text: &mut Vec<u8>, noisies: &[Noisy]) -> Result<(), AllocError>
    ensures { OnOk result (text.new.items ≡ text.old.items ++ flat_map (port_rows noisies.now) (range_with_len 0 8)) }
{
    for port in 0..8 {
        push_port_rows(alloc, text, noisies, port)?;
    }
    Ok(())
}

/// Writes the table.
#[tactic(auto, unfolding(crate::specs::Reports::table))]
fn push_table(alloc: Global, text: &mut Vec<u8>, noisies: &[Noisy]) -> Result<(), AllocError>
    ensures { OnOk result (text.new.items ≡ text.old.items ++ table noisies.now) }
{
    text.extend_from_slice(b"measure                    least     median       95 %   greatest\n")?;
    push_all_ports(alloc, text, noisies)?;
    push_row(alloc, text, noisies, Column::Faults)?;
    push_row(alloc, text, noisies, Column::HardResets)?;
    push_row(alloc, text, noisies, Column::Margin)
}

/// Writes for how long at most power is less on a port.
fn push_less(text: &mut Vec<u8>, longest: Longest) -> Result<(), AllocError>
    ensures { OnOk result (text.new.items ≡ text.old.items ++ less_words longest) }
{
    push_between(text, b", port ", longest.port as u128, b" less power for ")?;
    push_wide(text, u128::from(longest.us))?;
    text.extend_from_slice(b" us")
}

/// Writes it, where it is.
#[tactic(auto, unfolding(crate::specs::Reports::longest_words))]
fn push_longest(text: &mut Vec<u8>, longest: Longest) -> Result<(), AllocError>
    ensures { OnOk result (text.new.items ≡ text.old.items ++ longest_words longest) }
{
    if longest.us == 0 {
        Ok(())
    } else {
        push_less(text, longest)
    }
}

/// Writes which run is the worst.
fn push_worst_run(text: &mut Vec<u8>, worst: &Worst) -> Result<(), AllocError>
    ensures { OnOk result (text.new.items ≡ text.old.items ++ worst_run_words worst.now) }
{
    push_between(text, b"worst: run ", u128::from(worst.run), b", ")?;
    push_lost(text, worst.noisy.lost as u128)?;
    push_longest(text, worst.noisy.longest())?;
    push_between(
        text,
        b", hard resets ",
        worst.noisy.hard_resets(),
        b", least margin ",
    )?;
    push_wide(text, u128::from(worst.noisy.least_left()))?;
    text.extend_from_slice(b" uW\n")
}

/// Writes it, where there is a run.
fn push_worst(text: &mut Vec<u8>, worst: &Option<Worst>) -> Result<(), AllocError>
    ensures { OnOk result (text.new.items ≡ text.old.items ++ worst_words worst.now) }
{
    match worst {
        None => Ok(()),
        Some(worst) => push_worst_run(text, worst),
    }
}

/// What is told of some runs, which are those from a number on, beside the run without a loss.
pub(crate) fn report(
    alloc: Global,
    noise: &Noise,
    first: u32,
    without: &Findings,
    noisies: &[Noisy],
) -> Result<Vec<u8>, AllocError>
    ensures { IfOk result (λ said. said.items ≡ report_words noise.now first without.now noisies.now) }
{
    let mut text = Vec::new(alloc);
    push_first_line(&mut text, noise, without, noisies)?;
    push_table(alloc, &mut text, noisies)?;
    push_worst(&mut text, &worst_of(first, noisies))?;
    Ok(text)
}
