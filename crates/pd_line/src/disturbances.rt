//! Disturbances that wait for packets.

ghost use Rattle.std.specs.Prelude.{◌≡◌, ◌≤◌, ◌<◌, ◌++◌, ◌∷◌, ◌↔◌, IsTrue, [], drop, length, slice_get};

use arrayvec::ArrayVec;
use pd_packet::Damage;
use pd_symbols::copied;
use std::marker::Model;

/// What is to become of a packet that starts later: of the next one that no earlier disturbance takes.
#[derive(Clone, Copy, Debug, Default)]
pub enum Disturbance {
    #[default]
    Lost,
    Damaged(Damage),
}

/// The disturbances that wait for packets, the first to come first; at most eight. They are copied as a whole: in each place behind
/// the last one a packet is lost.
#[derive(Clone, Copy, Debug)]
pub struct Disturbances {
    items: [Disturbance; 8],
    count: u8,
}

impl Model for Disturbances {
    ghost use Rattle.std.specs.Prelude.{◌≡◌, ◌≤◌, ◌++◌, ◌-◌, List, length, take, replicate};
    ghost use Rattle.pd_symbols.specs.ShortLists.{refilled, counted};
    ghost use Rattle.pd_line.specs.declared.disturbances.Disturbance.{Disturbance};
    ghost use Rattle.pd_line.specs.declared.disturbances.Disturbance.TheVariants.{Lost};

    ghost Value = { List Disturbance };

    ghost view = { λ l. take l.count l.items };

    ghost invariant = { λ l. (l.count ≤ 8) × (length l.items ≡ 8) × (l.items ≡ take l.count l.items ++ replicate (8 - l.count) Lost) };

    ghost inverse = { λ v. record { items = v ++ replicate (8 - length v) Lost; count = length v } };

    ghost inverse_ok = { λ l h i. record {
      items = refilled 8 Lost l.items l.count h.0 h.1 h.2 i;
      count = counted 8 l.items l.count h.0 h.1 i;
    } };
}

impl Disturbances {
    /// Nothing waits.
    pub(crate) fn new() -> Disturbances
        ensures { result ≡ [] }
    {
        Disturbances {
            items: [Disturbance::Lost; 8],
            count: 0,
        }
    }

    /// The disturbances in this order.
    fn of(items: &[Disturbance]) -> Disturbances
        requires { length items.now ≤ 8 }
        ensures { result ≡ items.now }
    {
        let mut places = [Disturbance::Lost; 8];
        places[..items.len()].copy_from_slice(items);
        Disturbances {
            items: places,
            count: items.len() as u8,
        }
    }

    /// The disturbances, at most eight.
    pub(crate) fn as_slice(&self) -> &[Disturbance]
        ensures value { result.now ≡ self.now }
        ensures few { length result.now ≤ 8 }
    {
        &self.items[..usize::from(self.count)]
    }

    /// Whether no other can wait.
    pub fn is_full(&self) -> bool
        ensures { IsTrue result ↔ (8 ≤ length self.now) }
    {
        self.as_slice().len() >= 8
    }

    /// One more waits behind the others.
    pub fn push(&mut self, disturbance: Disturbance)
        requires { length self.old < 8 }
        ensures { self.new ≡ self.old ++ disturbance ∷ [] }
    {
        let mut row: ArrayVec<Disturbance, 8> = copied(self.as_slice());
        row.push(disturbance);
        *self = Disturbances::of(row.as_slice());
    }

    /// The first one no longer waits.
    pub(crate) fn take_first(&mut self) -> Option<Disturbance>
        ensures first { result ≡ slice_get self.old 0 }
        ensures rest { self.new ≡ drop 1 self.old }
    {
        let Some((first, rest)) = self.as_slice().split_first() else {
            return None;
        };
        let first = *first;
        let rest = Disturbances::of(rest);
        *self = rest;
        Some(first)
    }
}
