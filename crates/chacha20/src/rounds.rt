// The rounds, on sixteen working words.
ghost use Rattle.std.specs.Prelude.{◌≡◌, ◌<◌};
ghost use Rattle.chacha20.specs.ChaCha20.{line, quarter_round, inner_block, inner_blocks};

// a += b; d ^= a; d <<<= by
#[tactic(auto, unfolding(crate::specs::ChaCha20::line))]
fn step(words: &mut [u32; 16], a: usize, b: usize, d: usize, by: u32)
    requires { (a < 16) × (b < 16) × (d < 16) × (0 < by) × (by < 32) }
    ensures { words.new ≡ line words.old a b d by }
{
    words[a] = words[a].wrapping_add(words[b]);
    words[d] = (words[d] ^ words[a]).rotate_left(by);
}

fn quarter(words: &mut [u32; 16], a: usize, b: usize, c: usize, d: usize)
    requires { (a < 16) × (b < 16) × (c < 16) × (d < 16) }
    ensures { words.new ≡ quarter_round words.old a b c d }
{
    step(words, a, b, d, 16);
    step(words, c, d, b, 12);
    step(words, a, b, d, 8);
    step(words, c, d, b, 7);
}

// Four quarter rounds on the columns, and four on the diagonals.
fn double_round(words: &mut [u32; 16])
    ensures { words.new ≡ inner_block words.old }
{
    quarter(words, 0, 4, 8, 12);
    quarter(words, 1, 5, 9, 13);
    quarter(words, 2, 6, 10, 14);
    quarter(words, 3, 7, 11, 15);
    quarter(words, 0, 5, 10, 15);
    quarter(words, 1, 6, 11, 12);
    quarter(words, 2, 7, 8, 13);
    quarter(words, 3, 4, 9, 14);
}

#[tactic(auto, unfolding(crate::specs::ChaCha20::inner_blocks))]
pub fn twenty_rounds(words: &mut [u32; 16])
    ensures { words.new ≡ inner_blocks 10 words.old }
{
    for _ in 0..10usize {
        double_round(words);
    }
}
