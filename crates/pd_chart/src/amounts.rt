//! Times and powers as text.

ghost use Rattle.std.specs.Prelude.{◌≡◌, ◌++◌, ◌≤◌, OnOk, All};
ghost use Rattle.pd_chart.specs.Amounts.{digits, fraction, number_in, places_of, seconds_name, size_of};

use pd_tell::push_number;
use std::alloc::AllocError;

/// What a number is told in: seconds or watts, thousandths of them, or millionths.
#[derive(Clone, Copy, Debug)]
pub enum Prefix {
    Whole,
    Milli,
    Micro,
}

impl Prefix {
    /// How many millionths it stands for.
    fn size(self) -> u64
        ensures value { result ≡ size_of self }
        ensures some { 1 ≤ result }
    {
        match self {
            Prefix::Whole => 1_000_000,
            Prefix::Milli => 1_000,
            Prefix::Micro => 1,
        }
    }

    /// The unit of time that it makes.
    pub(crate) fn seconds(self) -> &'static [u8]
        ensures { result.now ≡ seconds_name self }
    {
        match self {
            Prefix::Whole => b"s",
            Prefix::Milli => b"ms",
            Prefix::Micro => b"us",
        }
    }
}

/// Writes the digits of a number at these places, up to the last that isn't 0.
fn push_digits(text: &mut Vec<u8>, number: u64, places: &[u64]) -> Result<(), AllocError>
    requires { All (λ place. (1 ≤ place) × (place ≤ 100000)) places.now }
    ensures { OnOk result (text.new.items ≡ text.old.items ++ digits number places.now) }
{
    for place in places {
        if number % (10 * *place) == 0 {
            break;
        }
        text.push(b'0' + (number / *place % 10) as u8)?;
    }
    Ok(())
}

/// Writes the digits behind a point.
fn push_places(text: &mut Vec<u8>, prefix: Prefix, number: u64) -> Result<(), AllocError>
    ensures { OnOk result (text.new.items ≡ text.old.items ++ digits number (places_of prefix)) }
{
    match prefix {
        Prefix::Whole => push_digits(text, number, &[100_000, 10_000, 1_000, 100, 10, 1]),
        Prefix::Milli => push_digits(text, number, &[100, 10, 1]),
        Prefix::Micro => Ok(()),
    }
}

/// Writes a point and the digits behind it, where there are any.
#[tactic(auto, unfolding(crate::specs::Amounts::fraction))]
fn push_fraction(text: &mut Vec<u8>, prefix: Prefix, number: u64) -> Result<(), AllocError>
    ensures { OnOk result (text.new.items ≡ text.old.items ++ fraction number prefix) }
{
    if number % prefix.size() == 0 {
        return Ok(());
    }
    text.push(b'.')?;
    push_places(text, prefix, number)
}

/// Writes a number of millionths, without zeros at the end.
#[tactic(auto, unfolding(crate::specs::Amounts::number_in))]
pub(crate) fn push_number_in(
    text: &mut Vec<u8>,
    prefix: Prefix,
    number: u64,
) -> Result<(), AllocError>
    ensures { OnOk result (text.new.items ≡ text.old.items ++ number_in prefix number) }
{
    push_number(text, number / prefix.size())?;
    push_fraction(text, prefix, number)
}
