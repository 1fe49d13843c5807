// A key of 32 bytes. It has no `Debug`, so that it is never printed.
ghost use Rattle.std.specs.Prelude.{◌≡◌, ◌<◌};
ghost use Rattle.chacha20.specs.ChaCha20.{word_of, key_words};

use std::array;

#[derive(Drop)]
pub struct Key {
    pub(crate) words: [u32; 8],
}

// Word i of the bytes, little endian.
fn word_at(bytes: &[u8; 32], i: usize) -> u32
    requires { i < 8 }
    ensures { result ≡ word_of bytes.now i }
{
    u32::from_le_bytes(array::from_fn(|j| bytes[4 * i + j]))
}

impl Key {
    pub fn new(bytes: &[u8; 32]) -> Key
        ensures { result.words ≡ key_words bytes.now }
    {
        Key {
            words: array::from_fn(|i| word_at(bytes, i)),
        }
    }
}
