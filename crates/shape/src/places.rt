// How large a store has to be.
ghost use Rattle.std.specs.Prelude.{◌≡◌};
ghost use Rattle.shape.specs.Numbers.{places_answer};

use crate::level::Level;
use crate::refusal::Refusal;

// The places that a store needs for a client of this highest level; refused where there is no such client.
pub fn places_for(levels: u32) -> Result<u32, Refusal>
    ensures { result ≡ places_answer levels }
{
    Ok(Level::highest(levels)?.places_needed())
}
