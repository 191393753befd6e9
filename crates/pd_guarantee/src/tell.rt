//! What is told of a charger.

ghost use Rattle.std.specs.Prelude.{◌≡◌, ◌+◌, ◌++◌, ◌<◌, ◌≤◌, OnOk, length, map};
ghost use Rattle.pd_text.specs.Pieces.{piece_of};
ghost use Rattle.pd_text.specs.Texts.{line_of};
ghost use Rattle.pd_guarantee.specs.Tellings.{charger_text, port_line, port_text, supply_lines, supply_pieces};

use crate::bounds::{port_bounds, supply_bounds};
use crate::{Form, PortBounds, SupplyBounds};
use pd_objects::Supply;
use pd_setup::Settings;
use pd_text::Piece::{Flag, Kind, LineWords, MemberNumber, Number};
use pd_text::Unit::{Microwatts, Milliamperes, Millivolts, Plain};
use pd_text::{Piece, begin_line, end_line, push_pieces};
use std::alloc::AllocError;

/// Writes a line of these pieces.
#[tactic(auto, unfolding(pd_text::specs::Texts::line_of))]
fn push_line(text: &mut Vec<u8>, form: Form, pieces: &[Piece<'_>]) -> Result<(), AllocError>
    ensures { OnOk result (text.new.items ≡ text.old.items ++ line_of form (map piece_of pieces.now)) }
{
    begin_line(text, form)?;
    push_pieces(text, form, pieces)?;
    end_line(text, form)
}

/// Writes the line of a port.
fn push_port(text: &mut Vec<u8>, form: Form, bounds: PortBounds) -> Result<(), AllocError>
    ensures { OnOk result (text.new.items ≡ text.old.items ++ port_line form bounds) }
{
    push_line(
        text,
        form,
        &[
            Kind(b"port"),
            Number(b"port ", b"port", Plain, bounds.port as u64),
            MemberNumber(b"floor_uw", bounds.floor),
            Number(
                b": free at least ",
                b"free_at_least_uw",
                Microwatts,
                bounds.free_at_least,
            ),
            Number(
                b" whatever the other ports do, at most ",
                b"free_at_most_uw",
                Microwatts,
                bounds.free_at_most,
            ),
            Number(
                b"; no change of the budget resets it while it holds at most ",
                b"kept_up_to_uw",
                Microwatts,
                bounds.kept_up_to,
            ),
            Flag(
                b", as it always does",
                b"",
                b"always_kept",
                bounds.is_always_kept,
            ),
        ],
    )
}

/// Writes the line of a supply.
fn push_supply(
    text: &mut Vec<u8>,
    form: Form,
    port: usize,
    bounds: SupplyBounds,
) -> Result<(), AllocError>
    ensures { OnOk result (text.new.items ≡ text.old.items ++ line_of form (supply_pieces port bounds)) }
{
    push_line(
        text,
        form,
        &[
            Kind(b"supply"),
            MemberNumber(b"port", port as u64),
            Number(b"  supply ", b"position", Plain, bounds.position as u64),
            Number(b" ", b"voltage_mv", Millivolts, bounds.mv as u64),
            Number(
                b": offered at least ",
                b"at_least_ma",
                Milliamperes,
                bounds.at_least as u64,
            ),
            Number(
                b" with a cable of 5 A, ",
                b"at_least_3a_ma",
                Milliamperes,
                bounds.at_least_by_three as u64,
            ),
            LineWords(b" with another"),
        ],
    )
}

/// Writes the lines of a port's supplies, to which so much power is free.
#[tactic(auto, unfolding(crate::specs::Tellings::supply_lines))]
fn push_supplies(
    text: &mut Vec<u8>,
    form: Form,
    port: usize,
    free: u64,
    supplies: &[Supply],
) -> Result<(), AllocError>
    requires { length supplies.now ≤ 7 }
    ensures { OnOk result (text.new.items ≡ text.old.items ++ supply_lines form port free supplies.now) }
{
    for i in 0..supplies.len() {
        let bounds = supply_bounds(free, i + 1, &supplies[i]);
        push_supply(text, form, port, bounds)?;
    }
    Ok(())
}

/// Writes the lines of a port, numbered from 0.
#[tactic(auto, unfolding(crate::specs::Tellings::port_text))]
fn push_port_text(
    text: &mut Vec<u8>,
    form: Form,
    ports: &[Settings],
    least: u64,
    greatest: u64,
    p: usize,
) -> Result<(), AllocError>
    requires few { length ports.now ≤ 8 }
    requires there { p < length ports.now }
    ensures { OnOk result (text.new.items ≡ text.old.items
        ++ port_text form (record { settings = ports.now; least = least; greatest = greatest }) p) }
{
    let bounds = port_bounds(ports, least, greatest, p);
    push_port(text, form, bounds)?;
    push_supplies(text, form, p + 1, bounds.free_at_least, ports[p].supplies())
}

/// Writes what is sure for each port of a charger of at most eight, by the least and the greatest budget that they share, in
/// microwatts: a line for the port, and one for each of its supplies.
///
/// # Errors
/// There is no memory; some of it may stand in the text.
#[tactic(auto, unfolding(crate::specs::Tellings::charger_text))]
pub fn push_charger(
    text: &mut Vec<u8>,
    form: Form,
    ports: &[Settings],
    least: u64,
    greatest: u64,
) -> Result<(), AllocError>
    requires { length ports.now ≤ 8 }
    ensures { OnOk result (text.new.items ≡ text.old.items
        ++ charger_text form (record { settings = ports.now; least = least; greatest = greatest })) }
{
    for p in 0..ports.len() {
        push_port_text(text, form, ports, least, greatest, p)?;
    }
    Ok(())
}
