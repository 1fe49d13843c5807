// Making the parts of a client, and refusals as their numbers.
use joined_store::JoinedStore;
use memory_store::MemoryStore;
use shape::refusal::Refusal;
use std::alloc::Global;
use std::test::Fail;

pub(crate) fn memory(heap: Global, places: usize, width: usize) -> Result<MemoryStore, Fail> {
    let slot = width.saturating_add(4);
    let size = slot.checked_mul(places).ok_or("too much memory")?;
    Ok(MemoryStore::new(vec![in heap; 0u8; size]?, width))
}

pub(crate) fn joined(
    heap: Global,
    first: MemoryStore,
    second: MemoryStore,
) -> Result<JoinedStore<MemoryStore, MemoryStore>, Fail> {
    JoinedStore::new(heap, first, second).map_err(|_| Fail::new("no memory"))
}

// An answer, a refusal by its number: the tests state the numbers that the rules give.
pub(crate) fn numbered<T>(answer: Result<T, Refusal>) -> Result<T, u32> {
    answer.map_err(Refusal::number)
}
