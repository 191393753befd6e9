//! The three forms of a sweep, and which of its packets have lines.

ghost use Rattle.std.specs.Prelude.{◌≡◌, ◌++◌, OnOk};
ghost use Rattle.pd_sweep.specs.Forms.{closing, has_difference, head, is_shown, kinds_text, left_text, line_of, tally_text, trial_text};
ghost use Rattle.pd_sweep.specs.Forms.{value_names};

use crate::columns::push_tally_object;
use crate::kind_lines::push_kind_lines;
use crate::objects::push_trial_object;
use crate::rows::push_trial_row;
use crate::sums::{KINDS, Sums};
use crate::{Findings, Outcome, Tally, Trial, push_tally, push_trial};
use std::alloc::{AllocError, Global};

/// The form in which a sweep is told.
#[derive(Clone, Copy, Debug, PartialEq, Eq)]
pub enum Form {
    /// A line of words for each packet, and the summary in lines of words.
    Words,
    /// A JSON object for each packet, and one for the summary.
    Json,
    /// A head, and comma-separated values for each packet.
    Csv,
}

/// How a sweep is told: in which form; whether only what makes a difference has a line; and whether each kind of message has one in
/// place of each packet.
#[derive(Clone, Copy, Debug, PartialEq, Eq)]
pub struct Look {
    pub form: Form,
    pub changed: bool,
    pub by_message: bool,
}

/// The names of a row's values: of a packet's, or of a kind's.
fn value_names(by_message: bool) -> &'static [u8]
    ensures { result.now ≡ value_names by_message }
{
    if by_message {
        return b"message,packets,different,other_contracts,less_power_us,differs_until_us,\
                 faults,hard_resets,least_margin_uw,left_less\n";
    }
    b"at_us,port,side,set,message,id,outcome,difference,same_contracts,contracts,\
      ports,less_power_us,more_power_us,differs_until_us,faults,hard_resets,\
      least_margin_uw,lower_at_us,lower_ports,then\n"
}

/// What stands before the first line.
pub(crate) fn head(look: Look) -> &'static [u8]
    ensures { result.now ≡ head look }
{
    match look.form {
        Form::Words | Form::Json => b"",
        Form::Csv => value_names(look.by_message),
    }
}

/// Whether losing the packet makes a difference.
fn has_difference(old: &Findings, outcome: &Outcome) -> bool
    ensures { result ≡ has_difference old.now outcome.now }
{
    match outcome {
        Outcome::Ran(effect) => effect.makes_difference(old),
        _ => false,
    }
}

impl Look {
    /// Whether a trial has a line.
    fn shows(&self, old: &Findings, trial: &Trial) -> bool
        ensures { result ≡ is_shown self.now old.now trial.now }
    {
        !self.by_message && (!self.changed || has_difference(old, &trial.outcome))
    }

    /// Writes the line of a trial, where it has one.
    pub(crate) fn push_line(
        &self,
        text: &mut Vec<u8>,
        old: &Findings,
        trial: &Trial,
    ) -> Result<(), AllocError>
        ensures { OnOk result (text.new.items ≡ text.old.items ++ line_of self.now old.now trial.now) }
    {
        if !self.shows(old, trial) {
            return Ok(());
        }
        push_trial_text(text, self.form, old, trial)
    }
}

/// Writes a trial.
fn push_trial_text(
    text: &mut Vec<u8>,
    form: Form,
    old: &Findings,
    trial: &Trial,
) -> Result<(), AllocError>
    ensures { OnOk result (text.new.items ≡ text.old.items ++ trial_text form old.now trial.now) }
{
    match form {
        Form::Words => push_trial(text, old, trial),
        Form::Json => push_trial_object(text, old, trial),
        Form::Csv => push_trial_row(text, old, trial),
    }
}

/// Writes the summary, which values don't have.
fn push_tally_text(
    text: &mut Vec<u8>,
    form: Form,
    reserve: Option<u64>,
    tally: &Tally,
) -> Result<(), AllocError>
    ensures { OnOk result (text.new.items ≡ text.old.items ++ tally_text form reserve tally.now) }
{
    match form {
        Form::Words => push_tally(text, reserve, tally),
        Form::Json => push_tally_object(text, reserve, tally),
        Form::Csv => Ok(()),
    }
}

/// Writes what is told of the kinds of messages, where they are told of.
fn push_kinds_text(
    alloc: Global,
    text: &mut Vec<u8>,
    look: Look,
    reserve: Option<u64>,
    tallies: &[Tally; 13],
) -> Result<(), AllocError>
    ensures { OnOk result (text.new.items ≡ text.old.items ++ kinds_text look reserve tallies.now) }
{
    if !look.by_message {
        return Ok(());
    }
    push_kind_lines(alloc, text, look, reserve, &KINDS, tallies)
}

/// Whether sets of packets are left that weren't tried.
fn left_text(form: Form, are_left: bool) -> &'static [u8]
    ensures { result.now ≡ left_text form are_left }
{
    match (form, are_left) {
        (Form::Words, true) => b"ended at --most; other sets of packets are left\n",
        (Form::Json, true) => b"{\"kind\":\"left\"}\n",
        _ => b"",
    }
}

/// Writes what stands behind the packets.
pub(crate) fn push_closing(
    alloc: Global,
    text: &mut Vec<u8>,
    look: Look,
    reserve: Option<u64>,
    sums: &Sums,
    are_left: bool,
) -> Result<(), AllocError>
    ensures { OnOk result (text.new.items ≡ text.old.items ++ closing look reserve sums.now are_left) }
{
    push_kinds_text(alloc, text, look, reserve, &sums.kinds)?;
    push_tally_text(text, look.form, reserve, &sums.all)?;
    text.extend_from_slice(left_text(look.form, are_left))
}
