// Two stores of any kind, end to end.
#![tactic(auto)]

ghost use Rattle.std.specs.Prelude.{◌≡◌, ◌+◌, ◌*◌, Some, None, IfSome, IfOk, MatchResult, vec_len, length, is_ok, if◌then◌else◌};
ghost use Rattle.store.specs.Requests.{ran};
ghost use Rattle.store.specs.Rounds.{answer, fetch_round, put_round, keys_at, bytes_at};
ghost use Rattle.joined_store.specs.Joined.{joins, common_width, newly_joined, fetch_of, put_of};

use crate::part::{Part, Side};
use shape::refusal::Refusal;
use std::alloc::Global;
use store::admit::admit;
use store::meter::Meter;
use store::store::Store;

mod part;

// The first part's places come first. Payloads of a round of both parts pass through `staging`, which has room for a round, since a round
// must not fail for want of memory.
pub struct JoinedStore<F: Store, S: Store> {
    first: F,
    second: S,
    width: usize,
    meter: Meter,
    staging: Vec<u8>,
    ghost room: { vec_len staging ≡ 13 * width },
}

// Both parts, where there was no memory to join them.
#[derive(Drop)]
pub struct Unjoined<F, S> {
    pub first: F,
    pub second: S,
}

// The places of two stores that fit together at a width. Each part is asked once, since it may be a joined store itself: asked twice, its
// own parts would be asked four times.
fn joined_places<F: Store, S: Store>(width: usize, first: &F, second: &S) -> Option<u32>
    ensures { result ≡ (if joins width (F.Store.state first.now) (S.Store.state second.now) then Some (length (F.Store.state first.now).slots + length (S.Store.state second.now).slots) else None) }
{
    let (m, n) = (first.places(), second.places());
    let fits = first.width() == width
        && second.width() == width
        && u64::from(m) + u64::from(n) <= 1_000_000;
    fits.then(|| m + n)
}

// The width at which the parts are joined; by the rules 0, with no places, where they do not fit.
fn common_width<F: Store, S: Store>(first: &F, second: &S) -> usize
    ensures { result ≡ common_width (F.Store.state first.now) (S.Store.state second.now) }
{
    let width = first.width();
    joined_places(width, first, second).map_or(0, |_| width)
}

// Room for the payloads of one round.
fn staging_for(heap: Global, width: usize) -> Option<Vec<u8>>
    ensures { IfSome result (λ v. vec_len v ≡ 13 * width) }
{
    let size = width.checked_mul(13)?;
    vec![in heap; 0u8; size].ok()
}

impl<F: Store, S: Store> JoinedStore<F, S> {
    ghost use Rattle.joined_store.specs.Whole.{state_of};

    // Where memory for the staging buffer is wanting, both parts come back.
    pub fn new(heap: Global, first: F, second: S) -> Result<JoinedStore<F, S>, Unjoined<F, S>>
        ensures parts { MatchResult result (λ j. (j.first ≡ first) × (j.second ≡ second)) (λ u. (u.first ≡ first) × (u.second ≡ second)) }
        ensures state { IfOk result (λ j. state_of F.Store.state S.Store.state j ≡ newly_joined (F.Store.state first) (S.Store.state second)) }
    {
        let width = common_width(&first, &second);
        let Some(staging) = staging_for(heap, width) else {
            return Err(Unjoined { first, second });
        };
        Ok(JoinedStore {
            first,
            second,
            width,
            meter: Meter::new(),
            staging,
        })
    }

    pub fn served(&self) -> u64
        ensures { result ≡ (state_of F.Store.state S.Store.state self.now).served }
    {
        self.meter.served()
    }

    pub fn trail(&self) -> u64
        ensures { result ≡ (state_of F.Store.state S.Store.state self.now).trail }
    {
        self.meter.trail()
    }

    pub fn first(&self) -> &F
        ensures { result.now ≡ self.now.first }
    {
        &self.first
    }

    pub fn second(&self) -> &S
        ensures { result.now ≡ self.now.second }
    {
        &self.second
    }

    pub fn into_parts(self) -> (F, S)
        ensures { result ≡ (self.first, self.second) }
    {
        let JoinedStore {
            first,
            second,
            width: _,
            meter: _,
            staging: _,
        } = self;
        (first, second)
    }
}

impl<F: Store, S: Store> Store for JoinedStore<F, S> {
    ghost use Rattle.joined_store.specs.Whole.{state_of};
    ghost use Rattle.joined_store.specs.Wide.{wide_joined};

    ghost state = { state_of F.Store.state S.Store.state };

    ghost wide = { λ s. wide_joined s.width (F.Store.state s.first) (S.Store.state s.second) s.meter.served s.meter.trail (F.Store.wide s.first) (S.Store.wide s.second) };

    fn width(&self) -> usize {
        self.width
    }

    fn places(&self) -> u32 {
        joined_places(self.width, &self.first, &self.second).unwrap_or(0)
    }

    // A round is at most one round of each part. The two directions, `fetch` and `put`, differ in every clause.
    fn fetch(&mut self, places: &[u32], keys: &mut [u32], bytes: &mut [u8]) -> Result<(), Refusal>
        ensures answer { result ≡ answer (state_of F.Store.state S.Store.state self.old) places.now (length keys.old) (length bytes.old) }
        ensures state { state_of F.Store.state S.Store.state self.new ≡ (if is_ok result then ran (state_of F.Store.state S.Store.state self.old) (fetch_round (state_of F.Store.state S.Store.state self.old) places.now) else state_of F.Store.state S.Store.state self.old) }
        ensures keys { keys.new ≡ (if is_ok result then keys_at (state_of F.Store.state S.Store.state self.old).slots places.now else keys.old) }
        ensures bytes { bytes.new ≡ (if is_ok result then bytes_at (state_of F.Store.state S.Store.state self.old).slots places.now else bytes.old) }
        ensures first { F.Store.state self.new.first ≡ (if is_ok result then ran (F.Store.state self.old.first) (fetch_of Part.First (length (F.Store.state self.old.first).slots) (F.Store.state self.old.first) places.now) else F.Store.state self.old.first) }
        ensures second { S.Store.state self.new.second ≡ (if is_ok result then ran (S.Store.state self.old.second) (fetch_of Part.Second (length (F.Store.state self.old.first).slots) (S.Store.state self.old.second) places.now) else S.Store.state self.old.second) }
    {
        admit(self.width, self.places(), places, keys.len(), bytes.len())?;
        let (first, second) = Side::both(self.first.places());
        first.fetch(&mut self.first, places, keys, bytes, &mut self.staging);
        second.fetch(&mut self.second, places, keys, bytes, &mut self.staging);
        self.meter.run(places, false);
        Ok(())
    }

    fn put(&mut self, places: &[u32], keys: &[u32], bytes: &[u8]) -> Result<(), Refusal>
        ensures answer { result ≡ answer (state_of F.Store.state S.Store.state self.old) places.now (length keys.now) (length bytes.now) }
        ensures state { state_of F.Store.state S.Store.state self.new ≡ (if is_ok result then ran (state_of F.Store.state S.Store.state self.old) (put_round (state_of F.Store.state S.Store.state self.old) places.now keys.now bytes.now) else state_of F.Store.state S.Store.state self.old) }
        ensures first { F.Store.state self.new.first ≡ (if is_ok result then ran (F.Store.state self.old.first) (put_of Part.First (length (F.Store.state self.old.first).slots) (F.Store.state self.old.first) places.now keys.now bytes.now) else F.Store.state self.old.first) }
        ensures second { S.Store.state self.new.second ≡ (if is_ok result then ran (S.Store.state self.old.second) (put_of Part.Second (length (F.Store.state self.old.first).slots) (S.Store.state self.old.second) places.now keys.now bytes.now) else S.Store.state self.old.second) }
    {
        admit(self.width, self.places(), places, keys.len(), bytes.len())?;
        let (first, second) = Side::both(self.first.places());
        first.put(&mut self.first, places, keys, bytes, &mut self.staging);
        second.put(&mut self.second, places, keys, bytes, &mut self.staging);
        self.meter.run(places, true);
        Ok(())
    }
}
