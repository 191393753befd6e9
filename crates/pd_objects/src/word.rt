//! Fields of an object's 32 bits.

ghost use Rattle.std.specs.Prelude.{◌≡◌, ◌+◌, ◌<◌, ◌≤◌};
ghost use Rattle.pd_symbols.specs.Words as words;

/// Bits `high` to `low` of an object, which are at most 16.
pub fn field(word: u32, high: u32, low: u32) -> u32
    requires order { low ≤ high }
    requires width { high < low + 16 }
    requires place { high < 32 }
    ensures { result ≡ words.field word high low }
{
    (word >> low) % (1 << (high - low + 1))
}
