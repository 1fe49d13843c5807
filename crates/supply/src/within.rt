// Inner: which questions lie within a supply, for the kinds of supply.
ghost use Rattle.std.specs.Prelude.{◌≡◌, ◌<◌, true, false, MatchResult};
ghost use Rattle.shape.specs.Numbers.{level_slots, level_of_build};
ghost use Rattle.supply.specs.Choice.{asked_within};

use shape::level::Level;
use shape::refusal::Refusal;

// The level of a build, where there is such a build and its level has a slot of this number.
pub fn level_of(levels: Level, builds: u32, build: u32, number: u32) -> Result<Level, Refusal>
    ensures { MatchResult result (λ l. (asked_within levels.number builds build number ≡ true) × (l.number ≡ level_of_build levels.number build) × (number < level_slots l.number)) (λ e. (asked_within levels.number builds build number ≡ false) × (e ≡ Refusal.BeyondSupply)) }
{
    if build >= builds {
        return Err(Refusal::BeyondSupply);
    }
    let level = levels.of_build(build);
    if number >= level.slots() {
        return Err(Refusal::BeyondSupply);
    }
    Ok(level)
}
