//! The line of each fact.

ghost use Rattle.std.specs.Prelude.{◌≡◌, ◌++◌, OnOk};
ghost use Rattle.pd_text.specs.Texts.{text_of_all};
ghost use Rattle.pd_why.specs.Tellings.{fact_line, fact_lines, fact_pieces};

use crate::Fact;
use crate::idle::push_no_offer;
use crate::offer::{push_cable, push_free, push_hold, push_offer, push_supply};
use crate::outcome::{push_change, push_detached, push_fits, push_wrong};
use crate::wants::{push_choice, push_demand, push_need, push_request};
use pd_text::{Form, begin_line, end_line};
use std::alloc::AllocError;

/// Writes what a fact says.
fn push_fact(text: &mut Vec<u8>, form: Form, fact: &Fact) -> Result<(), AllocError>
    ensures { OnOk result (text.new.items ≡ text.old.items ++ text_of_all form (fact_pieces fact.now)) }
{
    match fact {
        Fact::Offer { at, port, budget } => push_offer(text, form, *at, *port, *budget),
        Fact::Hold { port, hold, maker } => push_hold(text, form, *port, *hold, maker),
        Fact::Free { port, free, floor } => push_free(text, form, *port, *free, *floor),
        Fact::Cable { ma, known, tries } => push_cable(text, form, *ma, *known, *tries),
        Fact::Supply { position, bounds } => push_supply(text, form, *position, bounds),
        Fact::Request {
            at,
            position,
            ma,
            mismatch,
        } => push_request(text, form, *at, *position, *ma, *mismatch),
        Fact::Demand {
            demand_mw,
            max_mv,
            mode,
        } => push_demand(text, form, *demand_mw, *max_mv, *mode),
        Fact::Need {
            position,
            mv,
            ma,
            need,
        } => push_need(text, form, *position, *mv, *ma, *need),
        Fact::Choice { mismatch } => push_choice(text, form, *mismatch),
        Fact::Fits {
            at,
            power,
            fits,
            free,
        } => push_fits(text, form, *at, *power, *fits, *free),
        Fact::Wrong { at, fault } => push_wrong(text, form, *at, *fault),
        Fact::Contract { at, change } => push_change(text, form, *at, change),
        Fact::Detached { at } => push_detached(text, form, *at),
        Fact::NoOffer { port, to, state } => push_no_offer(text, form, *port, *to, *state),
    }
}

/// Writes the line of a fact.
#[tactic(auto, unfolding(pd_text::specs::Texts::line_of))]
fn push_fact_line(text: &mut Vec<u8>, form: Form, fact: &Fact) -> Result<(), AllocError>
    ensures { OnOk result (text.new.items ≡ text.old.items ++ fact_line form fact.now) }
{
    begin_line(text, form)?;
    push_fact(text, form, fact)?;
    end_line(text, form)
}

/// Writes a line for each fact.
///
/// # Errors
/// There is no memory; some of it may stand in the text.
#[tactic(auto, unfolding(crate::specs::Tellings::fact_lines))]
pub fn push_fact_lines(text: &mut Vec<u8>, form: Form, facts: &[Fact]) -> Result<(), AllocError>
    ensures { OnOk result (text.new.items ≡ text.old.items ++ fact_lines form facts.now) }
{
    for fact in facts {
        push_fact_line(text, form, fact)?;
    }
    Ok(())
}
