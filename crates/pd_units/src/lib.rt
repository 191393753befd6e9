//! Numbers with their units: `250000`, `250ms` and `0.25s` are the same time.
#![tactic(auto)]

mod quantity;
mod reading;
#[cfg(test)]
mod tests;
mod unit;

pub use quantity::number_in;
pub use reading::{
    push_number_reading, push_one, push_rating_reading, push_unit, push_word_reading, unit_at,
    unit_of,
};
pub use unit::Unit;
