// The interface of every store.
ghost use Rattle.std.specs.Prelude.{◌≡◌, length, is_ok, if◌then◌else◌};
ghost use Rattle.store.specs.State.{State, Wide};
ghost use Rattle.store.specs.Requests.{ran};
ghost use Rattle.store.specs.Rounds.{answer, fetch_round, put_round, keys_at, bytes_at};

use shape::refusal::Refusal;

pub trait Store {
    ghost state: { Self → State };

    // Bytes in a slot's payload.
    fn width(&self) -> usize
        ensures { result ≡ (state self.now).width };

    fn places(&self) -> u32
        ensures { result ≡ length (state self.now).slots };

    // One round: fills keys and bytes with the slots at these places, in their order.
    fn fetch(&mut self, places: &[u32], keys: &mut [u32], bytes: &mut [u8]) -> Result<(), Refusal>
        ensures answer { result ≡ answer (state self.old) places.now (length keys.old) (length bytes.old) }
        ensures state { state self.new ≡ (if is_ok result then ran (state self.old) (fetch_round (state self.old) places.now) else state self.old) }
        ensures keys { keys.new ≡ (if is_ok result then keys_at (state self.old).slots places.now else keys.old) }
        ensures bytes { bytes.new ≡ (if is_ok result then bytes_at (state self.old).slots places.now else bytes.old) };

    // One round: writes keys and bytes to these places, in their order, the later winning.
    fn put(&mut self, places: &[u32], keys: &[u32], bytes: &[u8]) -> Result<(), Refusal>
        ensures answer { result ≡ answer (state self.old) places.now (length keys.now) (length bytes.now) }
        ensures state { state self.new ≡ (if is_ok result then ran (state self.old) (put_round (state self.old) places.now keys.now bytes.now) else state self.old) };

    ghost wide: { (s : Self) → Wide (state s) };
}
