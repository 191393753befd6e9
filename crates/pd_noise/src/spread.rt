//! Order statistics.

ghost use Rattle.std.specs.Prelude.{◌≡◌, IfOk, OnOk, slice_index};
ghost use Rattle.pd_noise.specs.Ranks.{ordered, spread_of};

use std::alloc::AllocError;

/// What some numbers come to: the least, the median, the number up to which 95 % of them are, and the greatest.
#[derive(Clone, Copy, Debug, PartialEq, Eq)]
pub struct Spread {
    pub least: u128,
    pub median: u128,
    pub high: u128,
    pub greatest: u128,
}

/// Puts numbers in order, the least first.
fn order(numbers: &mut Vec<u128>) -> Result<(), AllocError>
    ensures { OnOk result (numbers.new.items ≡ ordered numbers.old.items) }
{
    numbers.sort()
}

/// The number at a place, 0 where there is none.
fn at(numbers: &[u128], place: usize) -> u128
    ensures { result ≡ slice_index numbers.now place }
{
    match numbers.get(place) {
        Some(number) => *number,
        None => 0,
    }
}

impl Spread {
    /// What these numbers come to; all 0 where there are none.
    ///
    /// # Errors
    /// There is no memory.
    #[tactic(auto, unfolding(crate::specs::Ranks::spread_of))]
    pub fn of(numbers: Vec<u128>) -> Result<Spread, AllocError>
        ensures { IfOk result (λ spread. spread ≡ spread_of numbers.items) }
    {
        let mut numbers = numbers;
        order(&mut numbers)?;
        let count = numbers.len();
        let last = count.saturating_sub(1);
        Ok(Spread {
            least: at(numbers.as_slice(), 0),
            median: at(numbers.as_slice(), last / 2),
            // 95 % of the numbers, rounded up, are all but a twentieth, rounded down.
            high: at(numbers.as_slice(), last.saturating_sub(count / 20)),
            greatest: at(numbers.as_slice(), last),
        })
    }
}
