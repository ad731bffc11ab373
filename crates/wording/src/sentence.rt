//! What some message does against the rule of a verdict, in words: of what the verdict
//! alone tells.

ghost use Rattle.std.specs.Prelude.{◌≡◌, Some};
ghost use Rattle.std.specs.Fmt.{WritesOnOk};
ghost use Rattle.wording.specs.Sentences.{after_said, none_said, number_said, other_said, sentence_of, without_said};

use crate::named_set::NamedSet;
use crate::phrase::{Has, Lacks, Misses};
use names::names::Names;
use rules::verdict::Verdict;
use std::fmt;

/// A verdict to be told in words, with the names of the symbols.
#[derive(Clone, Copy)]
pub struct Sentence<'a> {
    pub verdict: Verdict,
    pub names: &'a Names,
}

impl Sentence<'_> {
    fn first(&self) -> NamedSet<'_>
        ensures set { result.set ≡ self.now.verdict.first }
        ensures names { result.names.now ≡ self.now.names.now }
    {
        NamedSet {
            set: self.verdict.first,
            names: self.names,
        }
    }

    fn second(&self) -> NamedSet<'_>
        ensures set { result.set ≡ self.now.verdict.second }
        ensures names { result.names.now ≡ self.now.names.now }
    {
        NamedSet {
            set: self.verdict.second,
            names: self.names,
        }
    }

    // Family 1: a symbol that is not of the set.
    fn write_other<W: fmt::Write>(&self, f: &mut fmt::Formatter<W>) -> fmt::Result
        ensures { WritesOnOk W.write_str_gives f.old result (other_said self.now.names.now self.now.verdict) f.new }
    {
        let elements = self.first().row(", ");
        match self.verdict.first.len() {
            0 => f.write_str("some message has an element where none is expected"),
            _ => write!(f, "some message has an element other than {elements}"),
        }
    }

    // Family 2: no symbol of the set. No message keeps the rule where that is empty.
    fn write_none<W: fmt::Write>(&self, f: &mut fmt::Formatter<W>) -> fmt::Result
        ensures { WritesOnOk W.write_str_gives f.old result (none_said self.now.names.now self.now.verdict) f.new }
    {
        let lacks = Lacks(self.first());
        match self.verdict.first.len() {
            0 => f.write_str("some message is sent where none is expected"),
            _ => write!(f, "some message has {lacks}"),
        }
    }

    // Family 3: a symbol of the set, but too few or too many of it.
    fn write_number<W: fmt::Write>(&self, f: &mut fmt::Formatter<W>) -> fmt::Result
        ensures { WritesOnOk W.write_str_gives f.old result (number_said self.now.names.now self.now.verdict) f.new }
    {
        let has = Has(self.first());
        let misses = Misses {
            low: self.verdict.low,
            high: self.verdict.high,
        };
        write!(f, "some message has {has}, but {misses} of it")
    }

    // Family 4: a symbol of the first set, and none of the second.
    fn write_without<W: fmt::Write>(&self, f: &mut fmt::Formatter<W>) -> fmt::Result
        ensures { WritesOnOk W.write_str_gives f.old result (without_said self.now.names.now self.now.verdict) f.new }
    {
        let has = Has(self.first());
        let lacks = Lacks(self.second());
        write!(f, "some message has {has}, but {lacks}")
    }

    // Family 5: a symbol of the first set after one of the second.
    fn write_after<W: fmt::Write>(&self, f: &mut fmt::Formatter<W>) -> fmt::Result
        ensures { WritesOnOk W.write_str_gives f.old result (after_said self.now.names.now self.now.verdict) f.new }
    {
        let late = Has(self.first());
        let early = Has(self.second());
        write!(f, "some message has {late} after {early}")
    }
}

/// What some message does against the rule.
impl fmt::Display for Sentence<'_> {
    ghost output = { λ x. Some (sentence_of x.names.now x.verdict) };

    fn fmt<W: fmt::Write>(&self, f: &mut fmt::Formatter<W>) -> fmt::Result {
        match self.verdict.family {
            1 => self.write_other(f),
            2 => self.write_none(f),
            3 => self.write_number(f),
            4 => self.write_without(f),
            5 => self.write_after(f),
            family => write!(f, "some message breaks a rule of family {family}"),
        }
    }
}
