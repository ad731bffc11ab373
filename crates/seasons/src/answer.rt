//! What a message set answers, and how that is printed.

ghost use Rattle.std.specs.Prelude.{◌≡◌, Some};
ghost use Rattle.seasons.specs.Calls.{told};
ghost use Rattle.seasons.specs.Texts.{state_said, told_said};
ghost use Rattle.set.specs.Histories.{granted_told, verdict_told};

use parts::refusal::Refusal;
use rules::verdict::Verdict;
use set::state::State;
use std::fmt;

/// The answer to a call.
#[derive(Clone, Copy)]
pub enum Answer {
    /// To declare, withdraw, issue and recall.
    Granted,
    /// Compare: no rule is broken.
    Included,
    /// Judge: no rule is broken.
    Fits,
    /// Compare or judge: the first rule that is broken.
    Breaks(Verdict),
    /// The first question that got a no.
    Refused(Refusal),
    /// The set is in a state that does not take the call, and is left as it is.
    NotTaken(State),
}

impl From<Result<(), Refusal>> for Answer {
    ghost from_gives = { λ granted answer. told answer ≡ granted_told granted };

    fn from(granted: Result<(), Refusal>) -> Answer {
        match granted {
            Ok(()) => Answer::Granted,
            Err(refusal) => Answer::Refused(refusal),
        }
    }
}

impl Answer {
    /// What compare answers, or judge, with `none` where no rule is broken.
    pub(crate) fn of_verdict(verdict: Result<Option<Verdict>, Refusal>, none: Answer) -> Answer
        ensures { told result ≡ verdict_told (told none) verdict }
    {
        match verdict {
            Ok(None) => none,
            Ok(Some(broken)) => Answer::Breaks(broken),
            Err(refusal) => Answer::Refused(refusal),
        }
    }
}

/// The state of a set, to be printed.
#[derive(Clone, Copy)]
struct Stated(State);

impl fmt::Display for Stated {
    ghost output = { λ x. Some (state_said x.0) };

    fn fmt<W: fmt::Write>(&self, f: &mut fmt::Formatter<W>) -> fmt::Result {
        f.write_str(match self.0 {
            State::DrawnUp => "drawn up",
            State::Issued => "issued",
        })
    }
}

impl fmt::Display for Answer {
    ghost output = { λ answer. Some (told_said (told answer)) };

    fn fmt<W: fmt::Write>(&self, f: &mut fmt::Formatter<W>) -> fmt::Result {
        match self {
            Answer::Granted => f.write_str("granted"),
            Answer::Included => f.write_str("included"),
            Answer::Fits => f.write_str("fits"),
            Answer::Breaks(verdict) => write!(f, "{verdict}"),
            Answer::Refused(refusal) => write!(f, "{refusal}"),
            Answer::NotTaken(state) => {
                let state = Stated(*state);
                write!(f, "not taken, the set is {state}")
            }
        }
    }
}
