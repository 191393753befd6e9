//! Words and numbers of a report.

ghost use Rattle.std.specs.Prelude.{◌≡◌, ◌+◌, ◌++◌, ◌<◌, OnOk, replicate};
ghost use Rattle.pd_noise.specs.Reports.{between, cell, counted, fraction_words, lost_words, noise_words, percent_words};
ghost use Rattle.pd_noise.specs.Reports.{second_digit, third_digit};

use crate::Noise;
use pd_device::Text;
use pd_sweep::push_wide;
use std::alloc::AllocError;

/// Adds spaces.
fn push_spaces(text: &mut Vec<u8>, count: usize) -> Result<(), AllocError>
    ensures { OnOk result (text.new.items ≡ text.old.items ++ replicate count 32) }
{
    for _ in 0..count {
        text.push(b' ')?;
    }
    Ok(())
}

/// Writes a number right in eleven places.
#[tactic(auto, unfolding(crate::specs::Reports::cell))]
pub(crate) fn push_cell(text: &mut Vec<u8>, number: u128) -> Result<(), AllocError>
    ensures { OnOk result (text.new.items ≡ text.old.items ++ cell number) }
{
    let mut digits = Text::<64>::new();
    digits.push_wide(number);
    let digits = digits.as_slice();
    push_spaces(text, 11_usize.saturating_sub(digits.len()))?;
    text.extend_from_slice(digits)
}

/// Writes a number behind some words and before others.
#[tactic(auto, unfolding(crate::specs::Reports::between))]
pub(crate) fn push_between(
    text: &mut Vec<u8>,
    lead: &[u8],
    number: u128,
    tail: &[u8],
) -> Result<(), AllocError>
    ensures { OnOk result (text.new.items ≡ text.old.items ++ between lead.now number tail.now) }
{
    text.extend_from_slice(lead)?;
    push_wide(text, number)?;
    text.extend_from_slice(tail)
}

/// Writes a number of things.
#[tactic(auto, unfolding(crate::specs::Reports::counted))]
pub(crate) fn push_counted(
    text: &mut Vec<u8>,
    number: u128,
    one: &[u8],
    several: &[u8],
) -> Result<(), AllocError>
    ensures { OnOk result (text.new.items ≡ text.old.items ++ counted number one.now several.now) }
{
    push_wide(text, number)?;
    text.extend_from_slice(if number == 1 { one } else { several })
}

/// Writes how many packets are lost.
pub(crate) fn push_lost(text: &mut Vec<u8>, number: u128) -> Result<(), AllocError>
    ensures { OnOk result (text.new.items ≡ text.old.items ++ lost_words number) }
{
    push_counted(text, number, b" packet lost", b" packets lost")
}

/// One digit.
fn digit(number: u32) -> u8
    requires { number < 10 }
    ensures { result ≡ 48 + number }
{
    b'0' + number as u8
}

/// Writes the last of three digits, where it isn't 0.
fn push_third(text: &mut Vec<u8>, part: u32) -> Result<(), AllocError>
    ensures { OnOk result (text.new.items ≡ text.old.items ++ third_digit part) }
{
    if part % 10 == 0 {
        return Ok(());
    }
    text.push(digit(part % 10))?;
    Ok(())
}

/// Writes the last two, up to the last that isn't 0.
fn push_second(text: &mut Vec<u8>, part: u32) -> Result<(), AllocError>
    ensures { OnOk result (text.new.items ≡ text.old.items ++ second_digit part) }
{
    if part % 100 == 0 {
        return Ok(());
    }
    text.push(digit(part / 10 % 10))?;
    push_third(text, part)
}

/// Writes three digits behind a point, up to the last that isn't 0.
#[tactic(auto, unfolding(crate::specs::Reports::fraction_words))]
fn push_fraction(text: &mut Vec<u8>, part: u32) -> Result<(), AllocError>
    requires { part < 1000 }
    ensures { OnOk result (text.new.items ≡ text.old.items ++ fraction_words part) }
{
    if part == 0 {
        return Ok(());
    }
    text.push(b'.')?;
    text.push(digit(part / 100))?;
    push_second(text, part)
}

/// Writes a number of 100,000ths as per cent.
#[tactic(auto, unfolding(crate::specs::Reports::percent_words))]
fn push_percent(text: &mut Vec<u8>, share: u32) -> Result<(), AllocError>
    ensures { OnOk result (text.new.items ≡ text.old.items ++ percent_words share) }
{
    push_wide(text, u128::from(share / 1_000))?;
    push_fraction(text, share % 1_000)
}

/// Writes with which probability packets are lost, and of which seed.
#[tactic(auto, unfolding(crate::specs::Reports::noise_words))]
pub(crate) fn push_noise(text: &mut Vec<u8>, noise: &Noise) -> Result<(), AllocError>
    ensures { OnOk result (text.new.items ≡ text.old.items ++ noise_words noise.now) }
{
    text.extend_from_slice(b"each packet lost with ")?;
    push_percent(text, noise.share)?;
    push_between(text, b" %, seed ", noise.seed as u128, b": ")
}
