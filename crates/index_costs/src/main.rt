// Asks an index a round of questions again and again, so that bench/index_costs can count the instructions of a question.
// Arguments: the kind of index, L, what is asked, and the number of rounds. Prints a checksum of the answers.
// The list of level L - 1 is filled with every second address, and a round asks one question for each of its members.
#![tactic(auto)]

ghost use Rattle.std.specs.Prelude.{◌<◌, ◌≤◌};

use bitmap_index::BitmapIndex;
use fault::{Fault, finish, parsed, words};
use gap_index::GapIndex;
use index::Index;
use shape::make_error::MakeError;
use std::alloc::{AllocError, Global};
use std::process::ExitCode;
use std::rt::Env;
use std::str::FromStr;
use std::{fmt, io};

#[derive(Clone, Copy)]
enum Kind {
    Bitmap,
    Gaps,
}

// A word that names no kind or no topic.
#[derive(Clone, Copy)]
struct Unknown;

impl FromStr for Kind {
    type Err = Unknown;

    fn from_str(word: &str) -> Result<Kind, Unknown> {
        match word {
            "bitmap" => Ok(Kind::Bitmap),
            "gaps" => Ok(Kind::Gaps),
            _ => Err(Unknown),
        }
    }
}

#[derive(Clone, Copy)]
enum Topic {
    // no question is asked: what remains is the loop
    Nothing,
    Size,
    Member,
    Rank,
    // a round clears the list first
    Append,
    Clear,
}

impl FromStr for Topic {
    type Err = Unknown;

    fn from_str(word: &str) -> Result<Topic, Unknown> {
        match word {
            "nothing" => Ok(Topic::Nothing),
            "size" => Ok(Topic::Size),
            "member" => Ok(Topic::Member),
            "rank" => Ok(Topic::Rank),
            "append" => Ok(Topic::Append),
            "clear" => Ok(Topic::Clear),
            _ => Err(Unknown),
        }
    }
}

// The questions of a round stand in memory, so that the compiler cannot foresee one and must ask it.
#[derive(Clone, Copy)]
struct Question {
    topic: Topic,
    level: u32,
    // a position or an address
    number: u32,
}

// What was asked for.
#[derive(Clone, Copy)]
struct Job {
    kind: Kind,
    levels: u32,
    topic: Topic,
    rounds: u32,
}

// The question for the member at a position.
fn question_at(topic: Topic, level: u32, position: u32) -> Question {
    let number = match topic {
        Topic::Member => position,
        _ => position.saturating_mul(2),
    };
    Question {
        topic,
        level,
        number,
    }
}

fn make_round(heap: Global, topic: Topic, level: u32) -> Result<Vec<Question>, AllocError>
    requires { level < 12 }
{
    let clear = matches!(topic, Topic::Append).then_some(question_at(Topic::Clear, level, 0));
    let questions = (0..1 << level).map(|position| question_at(topic, level, position));
    clear.into_iter().chain(questions).collect(heap)
}

// An absent answer counts as the largest number in the checksum.
fn ask<I: Index>(index: &mut I, question: Question) -> u32 {
    let level = question.level;
    let number = question.number;
    match question.topic {
        Topic::Nothing => number,
        Topic::Size => index.size(level).unwrap_or(u32::MAX),
        Topic::Member => index.member(level, number).unwrap_or(u32::MAX),
        Topic::Rank => index.rank(level, number).unwrap_or(u32::MAX),
        Topic::Append => u32::from(index.append(level, number).is_ok()),
        Topic::Clear => u32::from(index.clear(level).is_ok()),
    }
}

// Each answer changes the checksum by one step of FNV-1a.
#[derive(Clone, Copy)]
struct Checksum(u64);

impl Checksum {
    const EMPTY: Checksum = Checksum(0xcbf29ce484222325);

    fn with_answer(self, answer: u32) -> Checksum {
        Checksum((self.0 ^ u64::from(answer)).wrapping_mul(0x100000001b3))
    }
}

impl fmt::Display for Checksum {
    fn fmt<W: fmt::Write>(&self, f: &mut fmt::Formatter<W>) -> fmt::Result {
        writeln!(f, "checksum {:016x}", self.0)
    }
}

fn ask_round<I: Index>(index: &mut I, round: &[Question], before: Checksum) -> Checksum {
    round.iter().fold(before, |checksum, question| {
        checksum.with_answer(ask(index, *question))
    })
}

// Fills the largest list, asks all rounds, and gives the checksum of the answers. Asks for what the making of the index has shown.
fn ask_all<I: Index>(heap: Global, index: &mut I, job: Job) -> Result<Checksum, MakeError>
    requires { (1 ≤ job.levels) × (job.levels ≤ 12) }
{
    let level = job.levels - 1;
    let fill = make_round(heap, Topic::Append, level)?;
    let round = make_round(heap, job.topic, level)?;
    let filled = ask_round(index, &fill, Checksum::EMPTY);
    Ok((0..job.rounds).fold(filled, |checksum, _| ask_round(index, &round, checksum)))
}

// The kind is read from a word, so a match chooses the type.
fn ask_kind(heap: Global, job: Job) -> Result<Checksum, MakeError> {
    match job.kind {
        Kind::Bitmap => ask_all(heap, &mut BitmapIndex::new(heap, job.levels)?, job),
        Kind::Gaps => ask_all(heap, &mut GapIndex::new(heap, job.levels)?, job),
    }
}

fn run<R: AllocGlobal + Env>(rt: &R) -> Result<Checksum, Fault> {
    let mut words = words(rt)?;
    let (Some(kind), Some(levels), Some(topic), Some(rounds), None) = (
        parsed(words.next()),
        parsed(words.next()),
        parsed(words.next()),
        parsed(words.next()),
        words.next(),
    ) else {
        return Err(Fault::Usage(
            "index_costs bitmap|gaps L nothing|size|member|rank|append|clear ROUNDS",
        ));
    };
    let job = Job {
        kind,
        levels,
        topic,
        rounds,
    };
    Ok(ask_kind(rt.alloc(), job)?)
}

fn main(rt: HostRuntime) -> io::Result<ExitCode> {
    finish(&rt, "index_costs", run(&rt))
}
