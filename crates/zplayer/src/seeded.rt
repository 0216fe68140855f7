//! Random words that a seed decides.

ghost use Rattle.std.specs.Prelude.{◌≡◌};
ghost use Rattle.rand_xoshiro.specs.SplitMix64.{splitmix_seed};
ghost use Rattle.rand_xoshiro.specs.Xoshiro128.{of_seed};

use crate::outside::Words;
use rand_core::SeedableRng;
use rand_core::utils::NextWord;
use rand_xoshiro::Xoshiro128PlusPlus;
use std::marker::Model;

/// The low 16 bits of each number of a generator, xoshiro128++, which a seed starts.
#[derive(Drop)]
pub struct Seeded {
    generator: Xoshiro128PlusPlus,
}

impl Model for Seeded {
    ghost use Rattle.std.specs.Prelude.{List, ℕ};

    ghost Value = { List ℕ };

    ghost view = { λ s. s.generator };
}

impl Seeded {
    /// The words of a seed, from the first on. A contract sees the state of the generator.
    pub fn new(seed: u64) -> Seeded
        ensures { result ≡ of_seed (splitmix_seed 16 seed) }
    {
        Seeded {
            generator: Xoshiro128PlusPlus::seed_from_u64(seed),
        }
    }
}

impl Words for Seeded {
    ghost use Rattle.std.specs.Prelude.{Some};
    ghost use Rattle.zplayer.specs.Outside.{words_from};

    ghost coming = { λ s. Some (words_from s) };

    fn next(&mut self) -> u16 {
        (self.generator.next_word() & 0xffff) as u16
    }
}
