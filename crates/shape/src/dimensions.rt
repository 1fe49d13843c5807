// The dimensions of a client: L, its highest level, and W, the bytes of a block.
ghost use Rattle.std.specs.Prelude.{◌≤◌};

use crate::level::Level;
use crate::refusal::Refusal;

#[derive(Clone, Copy, PartialEq, Eq, Debug)]
pub struct Dimensions {
    pub levels: Level,
    pub width: usize,
    ghost low: { 1 ≤ levels.number },
    ghost some: { 1 ≤ width },
    ghost narrow: { width ≤ 512 },
}

impl Dimensions {
    ghost use Rattle.std.specs.Prelude.{◌≡◌, ◌&&◌, true, false, MatchResult};
    ghost use Rattle.shape.specs.Numbers.{levels_fit, width_fits};

    pub fn new(levels: u32, width: usize) -> Result<Dimensions, Refusal>
        ensures { MatchResult result (λ d. ((levels_fit levels && width_fits width) ≡ true) × (d.levels.number ≡ levels) × (d.width ≡ width)) (λ e. ((levels_fit levels && width_fits width) ≡ false) × (e ≡ Refusal.OutOfRange)) }
    {
        let levels = Level::highest(levels)?;
        if !(1..=512).contains(&width) {
            return Err(Refusal::OutOfRange);
        }
        Ok(Dimensions { levels, width })
    }
}
