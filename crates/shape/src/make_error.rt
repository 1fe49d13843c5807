// Why a part of a client was not made: a refusal, or want of memory.
ghost use Rattle.std.specs.Prelude.{◌≡◌, Some};
ghost use Rattle.shape.specs.declared.make_error.MakeError.TheVariants.{Refused, NoMemory};
ghost use Rattle.shape.specs.MakeErrors.{make_error_text};

use crate::refusal::Refusal;
use std::alloc::AllocError;
use std::error::Error;
use std::fmt;

#[derive(Clone, Copy, PartialEq, Eq, Debug)]
pub enum MakeError {
    Refused(Refusal),
    NoMemory,
}

// A conversion from each cause.
impl From<Refusal> for MakeError {
    ghost from_gives = { λ refusal r. r ≡ Refused refusal };

    fn from(refusal: Refusal) -> MakeError {
        MakeError::Refused(refusal)
    }
}

impl From<AllocError> for MakeError {
    ghost from_gives = { λ _ r. r ≡ NoMemory };

    fn from(_: AllocError) -> MakeError {
        MakeError::NoMemory
    }
}

impl fmt::Display for MakeError {
    ghost output = { λ error. Some (make_error_text error) };

    fn fmt<W: fmt::Write>(&self, f: &mut fmt::Formatter<W>) -> fmt::Result {
        match self {
            MakeError::Refused(why) => write!(f, "{why}"),
            MakeError::NoMemory => write!(f, "no memory"),
        }
    }
}

impl Error for MakeError {}
