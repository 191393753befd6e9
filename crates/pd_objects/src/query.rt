//! What a port asks of the shared budget, and what it is answered.

ghost use Rattle.std.specs.Prelude.{◌≡◌, ◌↔◌, IsTrue};

use crate::Supply;
use arrayvec::ArrayVec;
use pd_symbols::copied;

/// What a port asks of the shared budget before a step.
#[derive(Drop)]
pub enum Query {
    /// Which currents, in mA, may be offered on these supplies through a cable that carries `limit_ma`, 3,000 or 5,000.
    Offer {
        supplies: ArrayVec<Supply, 7>,
        limit_ma: u32,
    },
    /// Whether so many microwatts may be held.
    Fits {
        power: u64,
    },
    /// Whether the port's hold of so many microwatts may stay, now that the budget has changed: beside the holds of the
    /// lower ports and the floors of the higher ports.
    Keep {
        power: u64,
    },
}

impl Query {
    /// A copy of the query, which allocates nothing.
    pub fn copy(&self) -> Query
        ensures { result ≡ self.now }
    {
        match self {
            Query::Offer { supplies, limit_ma } => {
                Query::Offer {
                    supplies: copied(supplies.as_slice()),
                    limit_ma: *limit_ma,
                }
            }
            Query::Fits { power } => Query::Fits { power: *power },
            Query::Keep { power } => Query::Keep { power: *power },
        }
    }
}

/// The answer to a query.
#[derive(Drop)]
pub enum Answer {
    /// The current of each supply in mA, in their order.
    Offer(ArrayVec<u32, 7>),
    /// Whether the power may be held, or the hold may stay.
    Fits(bool),
}

impl Answer {
    /// A copy of the answer, which allocates nothing.
    pub fn copy(&self) -> Answer
        ensures { result ≡ self.now }
    {
        match self {
            Answer::Offer(currents) => { Answer::Offer(copied(currents.as_slice())) }
            Answer::Fits(fits) => Answer::Fits(*fits),
        }
    }

    /// Whether both give the same currents, or the same yes or no.
    pub fn same(&self, other: &Answer) -> bool
        ensures { IsTrue result ↔ (self.now ≡ other.now) }
    {
        match (self, other) {
            (Answer::Offer(currents), Answer::Offer(others)) => {
                currents.as_slice() == others.as_slice()
            }
            (Answer::Fits(fits), Answer::Fits(other)) => fits == other,
            _ => false,
        }
    }
}
