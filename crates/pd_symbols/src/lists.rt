//! Short lists, which allocate nothing.

ghost use Rattle.std.specs.Prelude.{◌≡◌, ◌≤◌, ◌++◌, ◌-◌, length, replicate, [], nat_eq};
ghost use Rattle.std.specs.Cmp.{on_equiv, on_per, partial_equiv_from_equiv};
ghost use Rattle.std.specs.Cmp.Lexicographic.{pointwise, nat_list_eq_equiv};

use arrayvec::ArrayVec;
use std::marker::Model;

/// A copy of a list of at most `MOST` items, as the objects of a message, a port's supplies or a step's faults.
pub fn copied<T: Copy + Default, const MOST: usize>(items: &[T]) -> ArrayVec<T, MOST>
    requires { length items.now ≤ MOST }
    ensures { result.items ≡ items.now }
{
    let mut copy = ArrayVec::new();
    copy.try_extend_from_slice(items).unwrap();
    copy
}

/// At most seven numbers of 32 bits, as the objects of a message that is kept. It is copied as a whole: what is behind the last
/// number is 0.
#[derive(Clone, Copy, Debug)]
pub struct ShortList {
    items: [u32; 7],
    count: u8,
}

impl Model for ShortList {
    ghost use Rattle.std.specs.Prelude.{◌≡◌, ◌≤◌, ◌++◌, ◌-◌, List, ℕ, length, take, replicate};
    ghost use Rattle.pd_symbols.specs.ShortLists.{refilled, counted};

    ghost Value = { List ℕ };

    ghost view = { λ l. take l.count l.items };

    ghost invariant = { λ l. (l.count ≤ 7) × (length l.items ≡ 7) × (l.items ≡ take l.count l.items ++ replicate (7 - l.count) 0) };

    ghost inverse = { λ v. record { items = v ++ replicate (7 - length v) 0; count = length v } };

    ghost inverse_ok = { λ l h i. record {
      items = refilled 7 0 l.items l.count h.0 h.1 h.2 i;
      count = counted 7 l.items l.count h.0 h.1 i;
    } };
}

impl ShortList {
    /// No number.
    pub fn new() -> ShortList
        ensures { result ≡ [] }
    {
        ShortList {
            items: [0; 7],
            count: 0,
        }
    }

    /// The list of these numbers.
    pub fn of(items: &[u32]) -> ShortList
        requires { length items.now ≤ 7 }
        ensures { result ≡ items.now }
    {
        let mut places = [0; 7];
        places[..items.len()].copy_from_slice(items);
        ShortList {
            items: places,
            count: items.len() as u8,
        }
    }

    /// The numbers, at most seven.
    pub fn as_slice(&self) -> &[u32]
        ensures value { result.now ≡ self.now }
        ensures few { length result.now ≤ 7 }
    {
        &self.items[..usize::from(self.count)]
    }

    /// The numbers in seven places, with 0 in each place behind them.
    pub fn places(&self) -> [u32; 7]
        ensures { result ≡ self.now ++ replicate (7 - length self.now) 0 }
    {
        self.items
    }
}

impl PartialEq for ShortList {
    ghost eq = { λ l m. pointwise nat_eq l m };

    ghost laws = { on_per (λ l. l) (partial_equiv_from_equiv nat_list_eq_equiv) };

    fn eq(&self, other: &ShortList) -> bool {
        self.as_slice() == other.as_slice()
    }
}

impl Eq for ShortList {
    ghost laws = { on_equiv (λ l. l) nat_list_eq_equiv };
}
