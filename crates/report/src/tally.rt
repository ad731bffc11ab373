//! How many elements were found how.

ghost use Rattle.std.specs.Prelude.{◌≡◌, Some};
ghost use Rattle.report.specs.Tallies.{tally_with, all_included, AllIncludedExactly, sums_fit, compared_said, summary_said};

use crate::finding::Finding;
use std::fmt;

/// How many elements of the sent text were found how, and how many the expected text alone
/// declares.
#[derive(Clone, Copy, PartialEq, Eq)]
pub struct Tally {
    /// of which every message fits
    pub included: usize,
    /// of which some message breaks a rule
    pub broken: usize,
    /// whose expected model has a conflict
    pub conflicts: usize,
    /// that the expected text does not declare
    pub alone: usize,
    /// that the expected text alone declares
    pub missing: usize,
}

impl Tally {
    /// Nothing yet.
    pub const NONE: Tally = Tally {
        included: 0,
        broken: 0,
        conflicts: 0,
        alone: 0,
        missing: 0,
    };

    /// With one finding more.
    pub(crate) fn with(self, finding: Finding) -> Tally
        requires { sums_fit self }
        ensures { result ≡ tally_with self finding }
    {
        let mut tally = self;
        match finding {
            Finding::Included => tally.included += 1,
            Finding::Breaks(_) => tally.broken += 1,
            Finding::Conflict { .. } => tally.conflicts += 1,
            Finding::Alone => tally.alone += 1,
        }
        tally
    }

    /// Whether every element of the sent text was found included.
    pub fn is_all_included(&self) -> bool
        ensures value { result ≡ all_included self.now }
        ensures exact { AllIncludedExactly }
    {
        self.broken == 0 && self.conflicts == 0 && self.alone == 0
    }
}

/// The last line of a report: the tally, of so many elements of the sent text.
#[derive(Clone, Copy)]
pub(crate) struct Summary<'a> {
    pub tally: Tally,
    pub total: usize,
    pub sent: &'a str,
    pub expected: &'a str,
}

// How many are included, and how many are not.
#[derive(Clone, Copy)]
struct Compared {
    tally: Tally,
    total: usize,
}

impl fmt::Display for Compared {
    ghost output = { λ x. Some (compared_said x.total x.tally) };

    fn fmt<W: fmt::Write>(&self, f: &mut fmt::Formatter<W>) -> fmt::Result {
        let Tally {
            included,
            broken,
            conflicts,
            ..
        } = self.tally;
        let total = self.total;
        write!(
            f,
            "{included} of {total} elements included, {broken} not, {conflicts} not compared"
        )
    }
}

impl fmt::Display for Summary<'_> {
    ghost output = { λ x. Some (summary_said x.sent.now x.expected.now x.total x.tally) };

    fn fmt<W: fmt::Write>(&self, f: &mut fmt::Formatter<W>) -> fmt::Result {
        let compared = Compared {
            tally: self.tally,
            total: self.total,
        };
        let alone = self.tally.alone;
        let missing = self.tally.missing;
        let sent = self.sent;
        let expected = self.expected;
        write!(
            f,
            "{compared}, {alone} in {sent} alone, {missing} in {expected} alone"
        )
    }
}
