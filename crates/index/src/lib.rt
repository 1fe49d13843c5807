// Which blocks lie in which level, and at which rank: the interface of every index.
#![tactic(auto)]

ghost use Rattle.std.specs.Prelude.{◌≡◌, ℕ, List, length, is_ok, if◌then◌else◌};
ghost use Rattle.index.specs.Lists.{Lawful, size_answer, member_answer, rank_answer, append_answer, appended, clear_answer, cleared};

pub mod rows;

use shape::refusal::Refusal;

pub trait Index {
    ghost lists: { Self → List (List ℕ) };

    // L: there is a list for each level below it.
    fn levels(&self) -> u32
        ensures { result ≡ length (lists self.now) };

    fn size(&self, level: u32) -> Option<u32>
        ensures { result ≡ size_answer (lists self.now) level };

    // The member at a position, counted from 0.
    fn member(&self, level: u32, position: u32) -> Option<u32>
        ensures { result ≡ member_answer (lists self.now) level position };

    // How many members are smaller than this one; absent where the address is no member.
    fn rank(&self, level: u32, address: u32) -> Option<u32>
        ensures { result ≡ rank_answer (lists self.now) level address };

    // Adds an address at the end of a list.
    fn append(&mut self, level: u32, address: u32) -> Result<(), Refusal>
        ensures answer { result ≡ append_answer (lists self.old) level address }
        ensures lists { lists self.new ≡ (if is_ok result then appended (lists self.old) level address else lists self.old) };

    // Empties a list.
    fn clear(&mut self, level: u32) -> Result<(), Refusal>
        ensures answer { result ≡ clear_answer (lists self.old) level }
        ensures lists { lists self.new ≡ (if is_ok result then cleared (lists self.old) level else lists self.old) };

    ghost lawful: { (s : Self) → Lawful (lists s) };
}
