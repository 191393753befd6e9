//! Lots.

ghost use Rattle.std.specs.Prelude.{◌≡◌};
ghost use Rattle.pd_noise.specs.Draws.{behind_next, generator_of, says_lost};

use rand_core::SeedableRng;
use rand_core::utils::NextWord;
use rand_xoshiro::Xoshiro256PlusPlus;

/// What a run of a seed draws from. The same two give the same generator, so one run can be made again alone.
#[tactic(auto, unfolding(crate::specs::Draws::generator_of))]
pub(crate) fn generator_of(seed: u32, run: u64) -> Xoshiro256PlusPlus
    ensures { result ≡ generator_of seed run }
{
    let number = (u64::from(seed) * 4_294_967_296).wrapping_add(run);
    Xoshiro256PlusPlus::seed_from_u64(number)
}

/// Draws once, where so many 100,000ths of all draws say that a packet is lost.
#[tactic(auto, unfolding(crate::specs::Draws::number_next, crate::specs::Draws::behind_next))]
pub(crate) fn says_lost(share: u32, generator: &mut Xoshiro256PlusPlus) -> bool
    ensures says { result ≡ says_lost share generator.old }
    ensures behind { generator.new ≡ behind_next generator.old }
{
    let number = generator.next_word();
    u128::from(number) * 100_000 < u128::from(share) * 18_446_744_073_709_551_616
}
