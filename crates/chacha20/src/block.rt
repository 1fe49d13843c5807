// The block function: sixteen words from a key, a counter and a nonce.
ghost use Rattle.std.specs.Prelude.{◌≡◌, length, map, slice_index};
ghost use Rattle.std.specs.List.{range_with_len};
ghost use Rattle.chacha20.specs.ChaCha20.{sum, initial, sums, block};

use crate::key::Key;
use crate::rounds;

const CONSTANTS: [u32; 4] = [0x61707865, 0x3320646e, 0x79622d32, 0x6b206574];

// Fills the words with the initial state.
fn start(words: &mut [u32; 16], key: &Key, counter: u32, nonce: [u32; 3])
    ensures { words.new ≡ initial key.now.words counter nonce }
{
    words[..4].copy_from_slice(&CONSTANTS);
    words[4..12].copy_from_slice(&key.words);
    words[12] = counter;
    words[13..].copy_from_slice(&nonce);
}

// Adds others to the words, place by place; by index, since a proof loses the words that a `zip` lends.
fn add(words: &mut [u32], others: &[u32])
    requires { length words.old ≡ length others.now }
    ensures { words.new ≡ map (λ i. sum (slice_index words.old i) (slice_index others.now i)) (range_with_len 0 (length others.now)) }
{
    for (i, word) in words.iter_mut().enumerate() {
        *word = word.wrapping_add(others[i]);
    }
}

// Adds the initial state to the words. It is read off its parts again, so that no copy of it is left behind.
fn finish(words: &mut [u32; 16], key: &Key, counter: u32, nonce: [u32; 3])
    ensures { words.new ≡ sums words.old (initial key.now.words counter nonce) }
{
    add(&mut words[..4], &CONSTANTS);
    add(&mut words[4..12], &key.words);
    words[12] = words[12].wrapping_add(counter);
    add(&mut words[13..], &nonce);
}

// Fills the words with a block.
#[tactic(auto, unfolding(crate::specs::ChaCha20::block))]
pub fn fill(words: &mut [u32; 16], key: &Key, counter: u32, nonce: [u32; 3])
    ensures { words.new ≡ block key.now.words counter nonce }
{
    start(words, key, counter, nonce);
    rounds::twenty_rounds(words);
    finish(words, key, counter, nonce);
}
