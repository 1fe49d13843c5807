// Inner: bits in a row of 64-bit words.
ghost use Rattle.std.specs.Prelude.{◌≡◌, ◌*◌, ◌/◌, ◌<◌, ◌≤◌, length, slice_index, sum_by};
ghost use Rattle.std.specs.Int.Count.{ones};
ghost use Rattle.bitmap_index.specs.Bitmap.{bit_of, with_bit, members, places_of};

#[tactic(auto, using(std::proofs::lemmas::Nat::and_mask), unfolding(crate::specs::Bitmap::word_bit, crate::specs::Bitmap::bit_of))]
pub(crate) fn has_bit(row: &[u64], address: u32) -> bool
    requires { address < 64 * length row.now }
    ensures { result ≡ bit_of row.now address }
{
    let word = row[(address / 64) as usize];
    (word >> (address % 64)) & 1 == 1
}

#[tactic(auto, using(std::proofs::lemmas::Nat::one_shl), unfolding(crate::specs::Bitmap::with_bit))]
pub(crate) fn set_bit(row: &mut [u64], address: u32)
    requires { address < 64 * length row.old }
    ensures { row.new ≡ with_bit row.old address }
{
    row[(address / 64) as usize] |= 1 << (address % 64);
}

fn count_bits(words: &[u64]) -> u32
    requires { length words.now ≤ 64 }
    ensures { result ≡ sum_by ones words.now }
{
    words.iter().map(|word| word.count_ones()).sum()
}

// The number of set bits below an address.
#[tactic(auto, using(crate::proofs::Counts::word_facts))]
pub(crate) fn count_below(row: &[u64], address: u32) -> u32
    requires inside { address < 64 * length row.now }
    requires small { address ≤ 4096 }
    ensures { result ≡ length (members address row.now) }
{
    let last = (address / 64) as usize;
    count_bits(&row[..last]) + (row[last] & ((1 << (address % 64)) - 1)).count_ones()
}

// The place of a set bit of a word, counted from the lowest.
#[tactic(auto, using(crate::proofs::Bits::place_facts))]
fn bit_at(word: u64, position: u32) -> u32
    requires { position < length (places_of word) }
    ensures { result ≡ slice_index (places_of word) position }
{
    let mut rest = word;
    for _ in 0..position {
        rest &= rest - 1;
    }
    rest.trailing_zeros()
}

// The address of a set bit of a row, counted from the lowest.
#[tactic(auto, using(crate::proofs::Counts::word_facts))]
pub(crate) fn address_at(row: &[u64], position: u32) -> u32
    requires inside { position < length (members (64 * length row.now) row.now) }
    requires narrow { length row.now ≤ 64 }
    ensures { result ≡ slice_index (members (64 * length row.now) row.now) position }
{
    let mut i = 0;
    let mut left = position;
    // A `for` asks at each word whether the row is over: member took a sixth more instructions at L = 12.
    while left >= row[i].count_ones() {
        left -= row[i].count_ones();
        i += 1;
    }
    64 * i as u32 + bit_at(row[i], left)
}
