//! Why a run ended early, and what is said of it.
ghost use Rattle.runner.specs.Failures.{failure_said, IsIo};

use std::alloc::{AllocError, AllocFailed};
use std::{fmt, io};

/// Why a run ended early. The reason of a bad line is text, since it outlives the script.
#[derive(Drop)]
pub enum Failure {
    BadFile { path: String, error: io::Error },
    BadInput { error: io::Error },
    BadLine { number: usize, reason: String },
    Io { error: io::Error },
}

impl From<io::Error> for Failure {
    ghost from_gives = { λ _ failure. IsIo failure };

    fn from(error: io::Error) -> Failure {
        Self::Io { error }
    }
}

impl From<AllocError> for Failure {
    ghost from_gives = { λ _ failure. IsIo failure };

    fn from(error: AllocError) -> Failure {
        Failure::from(io::Error::from(error))
    }
}

impl<T: Drop> From<AllocFailed<T>> for Failure {
    ghost from_gives = { λ _ failure. IsIo failure };

    fn from(failed: AllocFailed<T>) -> Failure {
        Failure::from(AllocError::from(failed))
    }
}

impl fmt::Display for Failure {
    ghost output = { λ e. failure_said e };

    fn fmt<W: fmt::Write>(&self, f: &mut fmt::Formatter<W>) -> fmt::Result {
        match self {
            Failure::BadFile { path, error } => {
                write!(f, "expected a script of UTF-8 text in {path}: {error}")
            }
            Failure::BadInput { error } => {
                write!(
                    f,
                    "expected a script of UTF-8 text on standard input: {error}"
                )
            }
            Failure::BadLine { number, reason } => write!(f, "line {number}: {reason}"),
            Failure::Io { error } => write!(f, "{error}"),
        }
    }
}
