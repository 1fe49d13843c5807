// The worked examples of RFC 8439: as theorems about the definitions, and run.
ghost use Rattle.chacha20.specs.Vectors.{QuarterRoundExample, StateExample, BlockExample};

// Carries the examples alone: it does nothing.
#[tactic(auto, unfolding(crate::specs::ChaCha20::line, crate::specs::ChaCha20::inner_blocks, crate::specs::ChaCha20::block))]
pub fn definitions_give_the_worked_examples()
    ensures quarter { QuarterRoundExample }
    ensures state { StateExample }
    ensures block { BlockExample }
{}
