//! Where the numbers of backoffs come from.
ghost use Rattle.std.specs.Prelude.{◌≡◌, ℕ, ◌%◌, ◌<◌, ◌≤◌, List};
ghost use Rattle.rand_pcg.specs.Lcg.{started, increment_of};
ghost use Rattle.rand_pcg.specs.Pcg.{multiplier_64};
ghost use Rattle.t1s_mac.specs.Draws.{draw_bound, seed_answer, seed_after, list_answer, list_after};

use rand_core::utils::NextWord;
use rand_pcg::Lcg64Xsh32;
use std::marker::Model;

/// The numbers that backoffs wait, in slots (IEEE 802.3 clause 4.2.3.2.5).
///
/// A `Draws` has two meanings, each a function of what it holds: the number that it would answer for
/// each attempt, and the `Draws` that stands after one draw.
pub trait Draws {
    // The number that a draw for this attempt would answer.
    ghost answer: { Self → ℕ → ℕ };

    // What stands after one draw.
    ghost after: { Self → Self };

    ghost use Rattle.std.specs.Prelude.{◌≡◌, ◌<◌, ◌≤◌};
    ghost use Rattle.t1s_mac.specs.Draws.{draw_bound};

    /// The number for an attempt, of 1 to 15: less than 2 to the power of the attempt, and of 10 at most.
    fn draw(&mut self, attempt: u8) -> u16
        requires least { 1 ≤ attempt }
        requires most { attempt ≤ 15 }
        ensures value { result ≡ answer self.old attempt }
        ensures rest { self.new ≡ after self.old }
        ensures bound { result < draw_bound attempt };
}

/// How many numbers an attempt draws from.
fn bound_of(attempt: u8) -> u16
    ensures { result ≡ draw_bound attempt }
{
    1 << attempt.min(10)
}

/// Draws from a generator: the low bits of its words, one word a draw. Contracts see it as the generator.
#[derive(Drop)]
pub struct SeedDraws {
    generator: Lcg64Xsh32,
}

impl Model for SeedDraws {
    ghost use Rattle.rand_pcg.specs.Lcg.{Lcg};

    ghost Value = { Lcg };

    ghost view = { λ draws. draws.generator };
}

impl SeedDraws {
    /// The draws of a node: its number picks the stream of the generator that the seed starts.
    pub fn new(seed: u64, node: u8) -> SeedDraws
        ensures { result ≡ started 64 multiplier_64 seed (increment_of 64 node) }
    {
        SeedDraws {
            generator: Lcg64Xsh32::new(seed, u64::from(node)),
        }
    }
}

impl Draws for SeedDraws {
    ghost answer = { seed_answer };

    ghost after = { seed_after };

    fn draw(&mut self, attempt: u8) -> u16 {
        let word = self.generator.next_word();
        (word % u32::from(bound_of(attempt))) as u16
    }
}

/// Draws from a list, each number cut to the bits of its attempt, and 0 after the list's end. Contracts
/// see it as the numbers that are left.
#[derive(Drop)]
pub struct ListDraws {
    list: Vec<u16>,
    next: usize,
}

impl Model for ListDraws {
    ghost use Rattle.std.specs.Prelude.{ℕ, List, drop};

    ghost Value = { List ℕ };

    ghost view = { λ draws. drop draws.next draws.list.items };
}

impl ListDraws {
    /// The draws of a list, from its first number on.
    pub fn new(list: Vec<u16>) -> ListDraws
        ensures { result ≡ list.items }
    {
        ListDraws { list, next: 0 }
    }
}

impl Draws for ListDraws {
    ghost answer = { list_answer };

    ghost after = { list_after };

    fn draw(&mut self, attempt: u8) -> u16 {
        match self.list.get(self.next) {
            Some(number) => {
                let drawn = *number % bound_of(attempt);
                self.next += 1;
                drawn
            }
            None => 0,
        }
    }
}
