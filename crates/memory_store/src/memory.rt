// The memory store: as many whole slots as fit into its bytes, at most 1,000,000.
ghost use Rattle.std.specs.Prelude.{◌≡◌, ◌+◌, ◌*◌, ◌≤◌, length, is_ok, if◌then◌else◌, vec_len};
ghost use Rattle.store.specs.Requests.{ran};
ghost use Rattle.store.specs.Rounds.{answer, fetch_round, put_round, keys_at, bytes_at};
ghost use Rattle.store.specs.Rule.{multiplied};
ghost use Rattle.memory_store.specs.Memory.{whole_slots, decoded};
ghost use Rattle.memory_store.specs.Slots.{decoded_wide};
ghost use Rattle.std.proofs.Common.{arith};

use crate::layout::{read_slot, write_slot};
use shape::refusal::Refusal;
use store::admit::admit;
use store::meter::Meter;
use store::store::Store;

const MOST: usize = 1_000_000;

#[derive(Drop)]
pub struct MemoryStore {
    pub(crate) bytes: Vec<u8>,
    pub(crate) width: usize,
    pub(crate) places: u32,
    pub(crate) meter: Meter,
    ghost fits: { places * (4 + width) ≤ vec_len bytes },
}

impl MemoryStore {
    ghost use Rattle.memory_store.specs.Meaning.{meaning};

    // The slots are the decoding of the bytes.
    pub fn new(bytes: Vec<u8>, width: usize) -> MemoryStore
        ensures result_value { meaning result ≡ record { width = width; slots = decoded width (whole_slots width (vec_len bytes)) bytes.items; served = 0; trail = 0; rule = multiplied } }
        ensures bytes_value { result.bytes ≡ bytes }
    {
        // A slot whose length saturates is longer than any bytes.
        let places = (bytes.len() / width.saturating_add(4)).min(MOST) as u32;
        MemoryStore {
            bytes,
            width,
            places,
            meter: Meter::new(),
        }
    }

    pub fn served(&self) -> u64
        ensures { result ≡ (meaning self.now).served }
    {
        self.meter.served()
    }

    pub fn trail(&self) -> u64
        ensures { result ≡ (meaning self.now).trail }
    {
        self.meter.trail()
    }

    // The bytes decode to the slots, and the tail beyond the last slot is as it was.
    pub fn into_bytes(self) -> Vec<u8>
        ensures { result ≡ self.bytes }
    {
        let MemoryStore { bytes, .. } = self;
        bytes
    }
}

#[tactic(auto, using(crate::specs::Slots::decoded_length))]
impl Store for MemoryStore {
    ghost use Rattle.memory_store.specs.Meaning.{meaning, tail};

    ghost state = { meaning };

    ghost wide = { λ s p h. decoded_wide s.width s.places s.bytes.items p (omega (arith, s.bytes.ok.0)) h };

    fn width(&self) -> usize {
        self.width
    }

    fn places(&self) -> u32 {
        self.places
    }

    fn fetch(&mut self, places: &[u32], keys: &mut [u32], bytes: &mut [u8]) -> Result<(), Refusal>
        ensures answer { result ≡ answer (meaning self.old) places.now (length keys.old) (length bytes.old) }
        ensures state { meaning self.new ≡ (if is_ok result then ran (meaning self.old) (fetch_round (meaning self.old) places.now) else meaning self.old) }
        ensures keys { keys.new ≡ (if is_ok result then keys_at (meaning self.old).slots places.now else keys.old) }
        ensures bytes { bytes.new ≡ (if is_ok result then bytes_at (meaning self.old).slots places.now else bytes.old) }
        ensures memory { self.new.bytes ≡ self.old.bytes }
    {
        admit(self.width, self.places, places, keys.len(), bytes.len())?;
        // By index: what is written through `zip(keys.iter_mut())` or a rest of `bytes`, no proof knows after the loop.
        for (i, &place) in places.iter().enumerate() {
            let from = i * self.width;
            keys[i] = read_slot(&self.bytes, place, &mut bytes[from..from + self.width]);
        }
        self.meter.run(places, false);
        Ok(())
    }

    fn put(&mut self, places: &[u32], keys: &[u32], bytes: &[u8]) -> Result<(), Refusal>
        ensures answer { result ≡ answer (meaning self.old) places.now (length keys.now) (length bytes.now) }
        ensures state { meaning self.new ≡ (if is_ok result then ran (meaning self.old) (put_round (meaning self.old) places.now keys.now bytes.now) else meaning self.old) }
        ensures tail { tail self.new ≡ tail self.old }
    {
        admit(self.width, self.places, places, keys.len(), bytes.len())?;
        let memory = self.bytes.as_mut_slice();
        let mut rest = bytes;
        for (&place, &key) in places.iter().zip(keys) {
            let (payload, others) = rest.split_at(self.width);
            write_slot(memory, place, key, payload);
            rest = others;
        }
        self.meter.run(places, true);
        Ok(())
    }
}
