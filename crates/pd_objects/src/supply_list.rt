//! Supplies in their order.

ghost use Rattle.std.specs.Prelude.{◌≡◌, ◌≤◌, length};

use crate::Supply;
use std::marker::Model;

/// At most seven supplies, in their order. They are copied as a whole: in each place behind the last one is the least supply.
#[derive(Clone, Copy, Debug)]
pub struct SupplyList {
    items: [Supply; 7],
    count: u8,
}

impl Model for SupplyList {
    ghost use Rattle.std.specs.Prelude.{◌≡◌, ◌≤◌, ◌++◌, ◌-◌, List, length, take, replicate};
    ghost use Rattle.pd_symbols.specs.ShortLists.{refilled, counted};
    ghost use Rattle.pd_objects.specs.Supply.{SupplyData, least};

    ghost Value = { List SupplyData };

    ghost view = { λ l. take l.count l.items };

    ghost invariant = { λ l. (l.count ≤ 7) × (length l.items ≡ 7) × (l.items ≡ take l.count l.items ++ replicate (7 - l.count) least) };

    ghost inverse = { λ v. record { items = v ++ replicate (7 - length v) least; count = length v } };

    ghost inverse_ok = { λ l h i. record {
      items = refilled 7 least l.items l.count h.0 h.1 h.2 i;
      count = counted 7 l.items l.count h.0 h.1 i;
    } };
}

impl SupplyList {
    /// The list of these supplies.
    pub fn of(supplies: &[Supply]) -> SupplyList
        requires { length supplies.now ≤ 7 }
        ensures { result ≡ supplies.now }
    {
        let mut items = [Supply::default(); 7];
        items[..supplies.len()].copy_from_slice(supplies);
        SupplyList {
            items,
            count: supplies.len() as u8,
        }
    }

    /// The supplies, at most seven.
    pub fn as_slice(&self) -> &[Supply]
        ensures value { result.now ≡ self.now }
        ensures few { length result.now ≤ 7 }
    {
        &self.items[..usize::from(self.count)]
    }
}
