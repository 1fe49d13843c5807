// The members of one level, as bits of words.
ghost use Rattle.std.specs.Prelude.{◌≡◌, ◌*◌, ◌^◌, ◌≤◌, length, vec_len};
ghost use Rattle.bitmap_index.specs.Bitmap.{members, past_last};

use crate::words;
use index::rows::Row;
use shape::level::Level;
use shape::refusal::Refusal;
use std::alloc::{AllocError, Global};

#[derive(Drop)]
pub struct BitmapRow {
    words: Vec<u64>,
    // L: an address is below 2^L
    levels: Level,
    // l: there are at most 2^l members
    level: Level,
    // size and last member stand beside the words, so that no question counts the bits for them
    size: u32,
    // one more than the last member, 0 where there is none
    next: u32,
    // a bit for every address
    ghost wide: { 2 ^ levels.number ≤ 64 * vec_len words },
    ghost narrow: { vec_len words ≤ 64 },
    ghost counted: { size ≡ length (members (2 ^ levels.number) words.items) },
    ghost ended: { next ≡ past_last (members (2 ^ levels.number) words.items) },
    ghost few: { size ≤ 2 ^ level.number },
}

#[tactic(auto, using(crate::proofs::OneRow::row_facts))]
impl BitmapRow {
    ghost use Rattle.bitmap_index.specs.Members.{takes};

    fn takes(&self, address: u32) -> bool
        ensures { result ≡ takes self.now address }
    {
        address < self.levels.blocks() && self.next <= address && self.size < self.level.blocks()
    }
}

#[tactic(auto, using(crate::proofs::OneRow::row_facts))]
impl Row for BitmapRow {
    ghost use Rattle.bitmap_index.specs.Members.{list_of, list_rises, list_below, list_fits};

    ghost list = { list_of };

    ghost bound = { λ r. 2 ^ r.levels.number };

    ghost room = { λ r. 2 ^ r.level.number };

    ghost rises = { list_rises };

    ghost addresses = { list_below };

    ghost fits = { list_fits };

    fn new(heap: Global, levels: Level, level: Level) -> Result<BitmapRow, AllocError> {
        Ok(BitmapRow {
            words: vec![in heap; 0; (levels.blocks() as usize).div_ceil(64)]?,
            levels,
            level,
            size: 0,
            next: 0,
        })
    }

    fn size(&self) -> u32 {
        self.size
    }

    fn member(&self, position: u32) -> Option<u32> {
        if position >= self.size {
            return None;
        }
        Some(words::address_at(&self.words, position))
    }

    fn rank(&self, address: u32) -> Option<u32> {
        if address >= self.levels.blocks() || !words::has_bit(&self.words, address) {
            return None;
        }
        Some(words::count_below(&self.words, address))
    }

    fn append(&mut self, address: u32) -> Result<(), Refusal> {
        if !self.takes(address) {
            return Err(Refusal::WrongListChange);
        }
        words::set_bit(&mut self.words, address);
        self.size += 1;
        self.next = address + 1;
        Ok(())
    }

    fn clear(&mut self) {
        self.size = 0;
        self.next = 0;
        self.words.fill(0);
    }
}
