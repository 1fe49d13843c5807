// The straight supply: every slot is its own index.
ghost use Rattle.std.specs.Prelude.{◌≡◌, ◌≤◌, true, false, MatchResult};
ghost use Rattle.shape.specs.Numbers.{levels_fit};
ghost use Rattle.supply.specs.Choice.{slot_answer};
ghost use Rattle.supply.specs.Straight.{straight};
ghost use Rattle.std.proofs.Common.{rules};

use crate::supply::{MOST_BUILDS, Supply};
use crate::within;
use shape::level::Level;
use shape::refusal::Refusal;

#[derive(Drop)]
pub struct Straight {
    levels: Level,
    ghost low: { 1 ≤ levels.number },
}

impl Straight {
    pub fn new(levels: u32) -> Result<Straight, Refusal>
        ensures { MatchResult result (λ s. (levels_fit levels ≡ true) × (s.levels.number ≡ levels)) (λ e. (levels_fit levels ≡ false) × (e ≡ Refusal.OutOfRange)) }
    {
        Ok(Straight {
            levels: Level::highest(levels)?,
        })
    }

    // A number that lies within a build is its own partner.
    fn partner(&self, build: u32, number: u32) -> Result<u32, Refusal>
        ensures { result ≡ slot_answer (straight self.now.levels.number) build number }
    {
        within::level_of(self.levels, MOST_BUILDS, build, number)?;
        Ok(number)
    }
}

impl Supply for Straight {
    ghost choice = { λ s. straight s.levels.number };

    ghost lawful = { Prim.search rules };

    fn levels(&self) -> u32 {
        self.levels.number
    }

    fn builds(&self) -> u32 {
        MOST_BUILDS
    }

    fn slot_of(&mut self, build: u32, index: u32) -> Result<u32, Refusal> {
        self.partner(build, index)
    }

    fn index_of(&mut self, build: u32, slot: u32) -> Result<u32, Refusal> {
        self.partner(build, slot)
    }
}
