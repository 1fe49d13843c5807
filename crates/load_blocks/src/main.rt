// Loads a file of blocks onto storage in two parts, and prints what the host was asked.
// Arguments: L, W, and the path of a file of 2^L * W bytes.
#![tactic(auto)]

use bitmap_index::BitmapIndex;
use fault::{Fault, finish, parsed, words};
use joined_store::JoinedStore;
use memory_store::MemoryStore;
use oram::answer::{Declined, Done};
use oram::client::Client;
use oram::open::Opening;
use shape::places::places_for;
use std::alloc::Global;
use std::process::ExitCode;
use std::rt::{Env, Files};
use std::{fmt, fs, io};
use store::entry::Entry;
use store::store::Store;
use supply::straight::Straight;

// The most entries that a load can have.
const MOST_ENTRIES: usize = 8192;

// What was asked for.
#[derive(Drop)]
struct Job {
    levels: u32,
    width: usize,
    bytes: Vec<u8>,
}

// What was done.
#[derive(Drop)]
struct Report {
    job: Job,
    places: u32,
    trace: Vec<Entry>,
    served: u64,
    trail: u64,
}

impl fmt::Display for Report {
    fn fmt<W: fmt::Write>(&self, f: &mut fmt::Formatter<W>) -> fmt::Result {
        let rounds = self.trace.iter().filter(|entry| entry.begins).count();
        writeln!(f, "L {}, W {}", self.job.levels, self.job.width)?;
        writeln!(f, "{} places in two parts", self.places)?;
        writeln!(f, "{} entries in {rounds} rounds", self.trace.len())?;
        writeln!(f, "count {}, trail {}", self.served, self.trail)?;
        if let (Some(first), Some(last)) = (self.trace.first(), self.trace.last()) {
            writeln!(f, "first entry {first}")?;
            writeln!(f, "last entry {last}")?;
        }
        Ok(())
    }
}

// A memory store of this many places, all bytes zero.
fn make_part(heap: Global, places: u32, width: usize) -> Result<MemoryStore, Fault> {
    let slot = width.saturating_add(4);
    let size = slot.checked_mul(places as usize).ok_or(Fault::NoMemory)?;
    Ok(MemoryStore::new(vec![in heap; 0u8; size]?, width))
}

// Storage in two parts.
fn make_host(
    heap: Global,
    places: u32,
    width: usize,
) -> Result<JoinedStore<MemoryStore, MemoryStore>, Fault> {
    let first = make_part(heap, places / 2, width)?;
    let second = make_part(heap, places - places / 2, width)?;
    JoinedStore::new(heap, first, second).map_err(|_| Fault::NoMemory)
}

// Opens a client over storage in two parts and loads the blocks.
fn load(heap: Global, job: Job) -> Result<Report, Fault> {
    let places = places_for(job.levels)?;
    let index = BitmapIndex::new(heap, job.levels)?;
    let supply = Straight::new(job.levels)?;
    let mut trace = vec![in heap; Entry::default(); MOST_ENTRIES]?;
    let host = make_host(heap, places, job.width)?;
    let Opening {
        mut client,
        turn,
        refusal,
    } = Client::open(job.levels, job.width, host, index, supply);
    // By a match: each arm ends its turn.
    let answer = match client.load(turn, &job.bytes, &mut trace) {
        Ok(Done { turn, entries }) => {
            turn.end();
            Ok(entries)
        }
        Err(
            Declined {
                turn,
                refusal: declined,
            },
        ) => {
            turn.end();
            Err(refusal.unwrap_or(declined))
        }
    };
    let (host, _, _) = client.into_parts();
    let (served, trail) = (host.served(), host.trail());
    let (_, _) = host.into_parts();
    trace.truncate(answer? as usize);
    Ok(Report {
        job,
        places,
        trace,
        served,
        trail,
    })
}

// The arguments and the file that they name.
fn read_job<R: AllocGlobal + Env + Files>(rt: &R) -> Result<Job, Fault> {
    let mut words = words(rt)?;
    let (Some(levels), Some(width), Some(path), None) = (
        parsed(words.next()),
        parsed(words.next()),
        words.next(),
        words.next(),
    ) else {
        return Err(Fault::Usage("load_blocks L W FILE"));
    };
    let bytes = fs::read(rt, path.as_str()).map_err(|_| Fault::NoFile)?;
    Ok(Job {
        levels,
        width,
        bytes,
    })
}

fn run<R: AllocGlobal + Env + Files>(rt: &R) -> Result<Report, Fault> {
    load(rt.alloc(), read_job(rt)?)
}

fn main(rt: HostRuntime) -> io::Result<ExitCode> {
    finish(&rt, "load_blocks", run(&rt))
}
