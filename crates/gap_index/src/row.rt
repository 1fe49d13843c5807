// The gaps of one level's list, in memory that is reserved once.
ghost use Rattle.std.specs.Prelude.{◌≡◌, ◌^◌, ◌≤◌, sum};
ghost use Rattle.gap_index.specs.Gaps.{Positive};

use index::rows::Row;
use shape::level::Level;
use shape::refusal::Refusal;
use std::alloc::{AllocError, Global};

#[derive(Drop)]
pub struct GapRow {
    // its capacity is the row's room
    gaps: Vec<u16>,
    // L: an address is below 2^L
    levels: Level,
    // one more than the last member, 0 where there is none
    next: u32,
    ghost positive: { Positive gaps.items },
    ghost ended: { next ≡ sum gaps.items },
    ghost inside: { next ≤ 2 ^ levels.number },
}

fn total(gaps: &[u16]) -> u32
    requires { sum gaps.now ≤ 4096 }
    ensures { result ≡ sum gaps.now }
{
    gaps.iter().sum::<u16>() as u32
}

impl GapRow {
    pub(crate) fn gaps(&self) -> &[u16]
        ensures { result.now ≡ self.now.gaps.items }
    {
        &self.gaps
    }
}

#[tactic(auto, using(crate::specs::Listed::row_steps))]
impl Row for GapRow {
    ghost use Rattle.std.specs.Prelude.{vec_capacity};
    ghost use Rattle.gap_index.specs.Gaps.{listed};
    ghost use Rattle.gap_index.specs.Listed.{listed_rises};
    ghost use Rattle.gap_index.specs.Members.{list_below, list_fits};

    ghost list = { λ r. listed r.gaps.items };

    ghost bound = { λ r. 2 ^ r.levels.number };

    ghost room = { λ r. vec_capacity r.gaps };

    ghost rises = { λ r. listed_rises r.gaps.items r.positive };

    ghost addresses = { list_below };

    ghost fits = { list_fits };

    fn new(heap: Global, levels: Level, level: Level) -> Result<GapRow, AllocError> {
        Ok(GapRow {
            levels,
            gaps: Vec::with_capacity(heap, level.blocks() as usize)?,
            next: 0,
        })
    }

    fn size(&self) -> u32 {
        self.gaps.len() as u32
    }

    // The sum of the gaps up to the position, minus 1.
    fn member(&self, position: u32) -> Option<u32> {
        let gaps = self.gaps.get(..position as usize + 1)?;
        Some(total(gaps) - 1)
    }

    fn rank(&self, address: u32) -> Option<u32> {
        // one more than the last member passed
        let mut next = 0;
        for (rank, gap) in self.gaps.iter().enumerate() {
            next += *gap as u32;
            if address < next {
                return (address + 1 == next).then_some(rank as u32);
            }
        }
        None
    }

    fn append(&mut self, address: u32) -> Result<(), Refusal> {
        let full = self.gaps.len() == self.gaps.capacity();
        if address >= self.levels.blocks() || address < self.next || full {
            return Err(Refusal::WrongListChange);
        }
        self.gaps.push_reserved((address + 1 - self.next) as u16);
        self.next = address + 1;
        Ok(())
    }

    fn clear(&mut self) {
        self.gaps.clear();
        self.next = 0;
    }
}
