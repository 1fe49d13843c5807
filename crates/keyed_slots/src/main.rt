// Prints the slots that a key gives to indexes of a build, and the indexes of these slots again.
// Arguments: the path of a file of 32 bytes, L, the build, and one index or more.
#![tactic(auto)]

use fault::{Fault, finish, parsed, read_key, words};
use keyed_supply::keyed::KeyedSupply;
use std::process::ExitCode;
use std::rt::{Env, Files};
use std::{fmt, io};
use supply::supply::Supply;

const USAGE: Fault = Fault::Usage("keyed_slots KEYFILE L BUILD INDEX..");

// An index, its slot, and the index of that slot.
#[derive(Clone, Copy)]
struct Way {
    index: u32,
    slot: u32,
    back: u32,
}

#[derive(Drop)]
struct Ways(Vec<Way>);

impl fmt::Display for Ways {
    fn fmt<W: fmt::Write>(&self, f: &mut fmt::Formatter<W>) -> fmt::Result {
        for way in &self.0 {
            writeln!(f, "{} -> {} -> {}", way.index, way.slot, way.back)?;
        }
        Ok(())
    }
}

// A number that is too large for its type is as far beyond every supply as the largest.
fn number(word: Option<String>) -> Option<u32> {
    Some(u32::try_from(parsed::<u64>(word)?).unwrap_or(u32::MAX))
}

fn follow(supply: &mut KeyedSupply, build: u32, index: u32) -> Result<Way, Fault> {
    let slot = supply.slot_of(build, index)?;
    let back = supply.index_of(build, slot)?;
    Ok(Way { index, slot, back })
}

fn run<R: AllocGlobal + Env + Files>(rt: &R) -> Result<Ways, Fault> {
    let mut words = words(rt)?;
    let (Some(path), Some(levels), Some(build)) = (
        words.next(),
        number(words.next()),
        number(words.next()),
    ) else {
        return Err(USAGE);
    };
    let indexes: Vec<u32> = words
        .map(|word| number(Some(word)).ok_or(USAGE))
        .try_collect(rt.alloc())?;
    if indexes.is_empty() {
        return Err(USAGE);
    }
    let mut supply = KeyedSupply::new(levels, &read_key(rt, path.as_str())?)?;
    let ways = indexes
        .iter()
        .map(|index| follow(&mut supply, build, *index))
        .try_collect(rt.alloc())?;
    Ok(Ways(ways))
}

fn main(rt: HostRuntime) -> io::Result<ExitCode> {
    finish(&rt, "keyed_slots", run(&rt))
}
