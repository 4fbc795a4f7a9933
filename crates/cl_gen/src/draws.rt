//! The numbered words of a seed, and draws with them.
ghost use Rattle.std.specs.Prelude.{◌≡◌, ◌+◌, ◌-◌, ◌<◌, ◌≤◌, ◌^◌};
ghost use Rattle.cl_gen.specs.Words.{word_of, draw};

use rand_core::SeedableRng;
use rand_core::utils::NextWord;
use rand_pcg::Pcg64;
use std::marker::Model;

/// The words of a seed that aren't taken yet. Each draw takes the next one.
#[derive(Drop)]
pub(crate) struct Draws {
    generator: Pcg64,
    seed: u64,
    taken: u64,
}

impl Model for Draws {
    ghost use Rattle.cl_gen.specs.Words.{Taken, generator_after};
    ghost use Rattle.std.specs.Prelude.{◌≡◌};

    ghost Value = { Taken };

    ghost view = { λ draws. record { seed = draws.seed; words = draws.taken } };

    ghost invariant = { λ draws. draws.generator ≡ generator_after draws.seed draws.taken };
}

impl Draws {
    /// Creates the words of a seed, none of them taken.
    pub(crate) fn of_seed(seed: u64) -> Draws
        ensures { result ≡ record { seed = seed; words = 0 } }
    {
        Draws {
            generator: Pcg64::seed_from_u64(seed),
            seed,
            taken: 0,
        }
    }

    /// Draws a number from `least` to `greatest` with the next word.
    pub(crate) fn draw(&mut self, least: u64, greatest: u64) -> u64
        requires ordered { least ≤ greatest }
        requires narrow { greatest - least < 2 ^ 63 }
        requires few { self.old.words < 2 ^ 63 }
        ensures drawn { result ≡ draw least greatest (word_of self.old.seed self.old.words) }
        ensures least { least ≤ result }
        ensures greatest { result ≤ greatest }
        ensures taken { self.new ≡ record self.old { words = self.old.words + 1 } }
    {
        let word = self.generator.next_word();
        self.taken += 1;
        least + word % (greatest - least + 1)
    }
}
