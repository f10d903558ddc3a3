//! Draws of either kind.
ghost use Rattle.t1s_mac.specs.PickedDraws.{picked_answer, picked_after};

use crate::{Draws, ListDraws, SeedDraws};

/// Draws from a generator, or from a list.
#[derive(Drop)]
pub enum PickedDraws {
    Seed(SeedDraws),
    List(ListDraws),
}

impl Draws for PickedDraws {
    ghost answer = { picked_answer };

    ghost after = { picked_after };

    fn draw(&mut self, attempt: u8) -> u16 {
        match self {
            PickedDraws::Seed(draws) => draws.draw(attempt),
            PickedDraws::List(draws) => draws.draw(attempt),
        }
    }
}
