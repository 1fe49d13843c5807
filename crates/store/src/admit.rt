// Inner: the checks that every kind of store makes before a round.
ghost use Rattle.std.specs.Prelude.{◌≡◌, length, nat_lt};
ghost use Rattle.std.specs.List.{list_all};
ghost use Rattle.store.specs.Rounds.{well_formed, verdict};

use shape::refusal::Refusal;

fn is_well_formed(width: usize, places: usize, keys: usize, bytes: usize) -> bool
    ensures { result ≡ well_formed width places keys bytes }
{
    (1..=13).contains(&places) && keys == places && places.checked_mul(width) == Some(bytes)
}

fn lies_inside(count: u32, places: &[u32]) -> bool
    ensures { result ≡ list_all (λ p. nat_lt p count) places.now }
{
    places.iter().all(|&place| place < count)
}

#[tactic(auto, using(crate::proofs::Rounds::inside_by_all))]
pub fn admit(
    width: usize,
    count: u32,
    places: &[u32],
    keys: usize,
    bytes: usize,
) -> Result<(), Refusal>
    ensures { result ≡ verdict width count places.now keys bytes }
{
    if !is_well_formed(width, places.len(), keys, bytes) {
        return Err(Refusal::WrongRound);
    }
    if !lies_inside(count, places) {
        return Err(Refusal::PlaceBeyondStore);
    }
    Ok(())
}
