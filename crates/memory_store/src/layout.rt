// Inner: one slot in memory, where slots lie one after another.
ghost use Rattle.std.specs.Prelude.{◌≡◌, ◌+◌, ◌*◌, ◌≤◌, ◌++◌, length};
ghost use Rattle.memory_store.specs.Memory.{key_bytes, overwritten, slot_from, span};

// Reads the slot at a place: fills the payload and answers the key.
pub(crate) fn read_slot(memory: &[u8], place: u32, payload: &mut [u8]) -> u32
    requires { (place + 1) * span (length payload.old) ≤ length memory.now }
    ensures { slot_from (length payload.old) memory.now (place * span (length payload.old)) ≡ record { key = result; bytes = payload.new } }
{
    let span = 4 + payload.len();
    let from = place as usize * span;
    let (key, rest) = memory[from..from + span].split_first_chunk().unwrap();
    payload.copy_from_slice(rest);
    u32::from_le_bytes(*key)
}

// Writes the slot at a place.
pub(crate) fn write_slot(memory: &mut [u8], place: u32, key: u32, payload: &[u8])
    requires { (place + 1) * span (length payload.now) ≤ length memory.old }
    ensures { memory.new ≡ overwritten memory.old (place * span (length payload.now)) (key_bytes key ++ payload.now) }
{
    let span = 4 + payload.len();
    let from = place as usize * span;
    let slot = &mut memory[from..from + span];
    slot[..4].copy_from_slice(&key.to_le_bytes());
    slot[4..].copy_from_slice(payload);
}
