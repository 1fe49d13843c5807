// What a program is asked, what can be wrong with it, and how it ends.
#![tactic(auto)]

ghost use Rattle.std.specs.Prelude.{◌≡◌, ◌≢◌, Some, IfOk, IsOkUnless, MatchResult, length, is_ok, if◌then◌else◌, option_map, string_bytes};
ghost use Rattle.std.specs.Iterator.Adapters.{skip_count};
ghost use Rattle.std.specs.Process.{exit_status};
ghost use Rattle.shape.specs.declared.refusal.Refusal.{Refusal};
ghost use Rattle.fault.specs.declared.Fault.TheVariants.{NoKey, NoMemory, Refused};
ghost use Rattle.fault.specs.Words.{Reads, fault_of, fault_text};

mod lines;

use lines::print_lines;
use shape::make_error::MakeError;
use shape::refusal::Refusal;
use std::alloc::AllocError;
use std::env::Args;
use std::error::Error;
use std::iter::Skip;
use std::process::ExitCode;
use std::rt::{Env, Files};
use std::str::FromStr;
use std::{env, fmt, fs, io};

#[derive(Clone, Copy, Debug)]
pub enum Fault {
    // how the program is called
    Usage(&'static str),
    NoFile,
    NoKey,
    NoMemory,
    Refused(Refusal),
}

impl fmt::Display for Fault {
    ghost output = { λ fault. Some (fault_text fault) };

    fn fmt<W: fmt::Write>(&self, f: &mut fmt::Formatter<W>) -> fmt::Result {
        match self {
            Fault::Usage(line) => write!(f, "usage: {line}"),
            Fault::NoFile => write!(f, "cannot read the file"),
            Fault::NoKey => write!(f, "cannot read a key of 32 bytes"),
            Fault::NoMemory => write!(f, "no memory"),
            Fault::Refused(why) => write!(f, "{why}"),
        }
    }
}

impl Error for Fault {}

// A conversion from each cause.
impl From<AllocError> for Fault {
    ghost from_gives = { λ _ r. r ≡ NoMemory };

    fn from(_: AllocError) -> Fault {
        Fault::NoMemory
    }
}

impl From<Refusal> for Fault {
    ghost from_gives = { λ refusal r. r ≡ Refused refusal };

    fn from(refusal: Refusal) -> Fault {
        Fault::Refused(refusal)
    }
}

impl From<MakeError> for Fault {
    ghost from_gives = { λ error r. r ≡ fault_of error };

    fn from(error: MakeError) -> Fault {
        match error {
            MakeError::Refused(why) => Fault::Refused(why),
            MakeError::NoMemory => Fault::NoMemory,
        }
    }
}

// The words after the program's name.
pub fn words<R: AllocGlobal + Env>(rt: &R) -> Result<Skip<Args>, Fault>
    ensures outcome { IsOkUnless result Fault.NoMemory }
    ensures name_left_out { IfOk result (λ words. skip_count words ≡ 1) }
{
    Ok(env::args(rt).map_err(|_| Fault::NoMemory)?.skip(1))
}

// What a word stands for, if it is there and stands for something.
pub fn parsed<T: FromStr>(word: Option<String>) -> Option<T>
where
    T::Err: Drop,
    ensures { Reads T.from_str_gives (option_map string_bytes word) result }
{
    word?.as_str().parse().ok()
}

// A key is 32 bytes.
pub fn key_of(bytes: &[u8]) -> Result<[u8; 32], Fault>
    ensures { MatchResult result (λ key. key ≡ bytes.now) (λ fault. (length bytes.now ≢ 32) × (fault ≡ NoKey)) }
{
    <[u8; 32]>::try_from(bytes).map_err(|_| Fault::NoKey)
}

// The key in a file.
pub fn read_key<R: AllocGlobal + Files>(rt: &R, path: &str) -> Result<[u8; 32], Fault>
    ensures { IsOkUnless result Fault.NoKey }
{
    key_of(&fs::read(rt, path).map_err(|_| Fault::NoKey)?)
}

// Prints what came out, or one line on what is wrong.
pub fn finish<R: Eprint + Print, T: fmt::Display + Drop>(
    rt: &R,
    name: &str,
    outcome: Result<T, Fault>,
) -> io::Result<ExitCode>
    ensures { IfOk result (λ code. exit_status code ≡ (if is_ok outcome then 0 else 1)) }
{
    match outcome {
        Ok(report) => {
            print_lines(rt, report)?;
            Ok(ExitCode::SUCCESS)
        }
        Err(fault) => {
            eprintln!(rt; "{name}: {fault}")?;
            Ok(ExitCode::FAILURE)
        }
    }
}

#[cfg(test)]
mod tests {
    use super::*;

    #[test]
    fn words_are_given(rt: HostRuntime) {
        assert!(rt; words(&rt).is_ok());
    }

    #[test]
    fn a_key_is_read(rt: HostRuntime) -> io::Result<()> {
        fs::write(&rt, "key_of_a_test", [7u8; 32].as_slice())?;
        let key = read_key(&rt, "key_of_a_test");
        fs::remove_file(&rt, "key_of_a_test")?;
        assert!(rt; key.is_ok());
        Ok(())
    }
}
