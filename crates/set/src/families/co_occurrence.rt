//! Family 4: a symbol of one side of a sequence or interleave brings one of the other side.
//! The rules are asked on the way through the sheet, as a summary is worked up.

ghost use Rattle.models.specs.Checked.{tree_of};
ghost use Rattle.rules.specs.Rules.{FirstIs};
ghost use Rattle.set.specs.Five.{co_occurrence_rules};
ghost use Rattle.set.specs.Bringing.{AskedIs, SidesAsked, across_rules, brings_rule};

use crate::expected::Expected;
use crate::subject::Subject;
use crate::subject::messages_of::MessagesOf;
use crate::subject::one_message::OneMessage;
use crate::verdicts;
use models::model::Model;
use models::summary::Summary;
use models::summary::work::work_up;
use parts::part::{MOST_PARTS, Repeats};
use parts::symbols::SymbolSet;
use rules::family::RuleFamily;
use rules::verdict::Verdict;
use summaries::empty::EmptyFits;
use summaries::symbols::Symbols;

#[derive(Clone, Copy)]
pub(crate) struct CoOccurrence<'a> {
    pub(crate) expected: Expected<'a>,
}

/// Which is the first of a part's rules that the subject breaks.
#[derive(Drop)]
struct FirstBroken<'s, S> {
    subject: &'s S,
}

/// What is told of a part.
#[derive(Clone, Copy)]
struct Asked {
    symbols: SymbolSet,
    /// Whether the empty message fits.
    empty: bool,
    /// The verdict of the first of its rules that is broken.
    broken: Option<Verdict>,
}

impl<S: Subject> FirstBroken<'_, S> {
    // A symbol of the one brings one of the other, unless that may be empty.
    fn brings(&self, one: Asked, other: Asked) -> Option<Verdict>
        ensures { FirstIs (S.breaks self.now.subject.now) (brings_rule one other) result }
    {
        if !other.empty
            && self
                .subject
                .breaks_co_occurrence(one.symbols, other.symbols)
        {
            Some(verdicts::co_occurrence(one.symbols, other.symbols))
        } else {
            None
        }
    }

    // What the two ask of each other.
    #[tactic(auto, using(rules::proofs::Firsts::first_there, rules::proofs::Firsts::first_after))]
    fn across(&self, left: Asked, right: Asked) -> Option<Verdict>
        ensures { FirstIs (S.breaks self.now.subject.now) (across_rules left right) result }
    {
        match self.brings(left, right) {
            None => self.brings(right, left),
            broken => broken,
        }
    }

    // The rules of the left, those of the right, and then those of the two together.
    fn sides(&self, left: Asked, right: Asked) -> Option<Verdict>
        ensures { SidesAsked (S.breaks self.now.subject.now) left right result }
    {
        match left.broken.or(right.broken) {
            None => self.across(left, right),
            broken => broken,
        }
    }
}

impl<S: Subject> Summary for FirstBroken<'_, S> {
    type Value = Asked;

    ghost means = { λ self t v. AskedIs (S.breaks self.subject.now) t v };

    fn empty(&self) -> Asked {
        Asked {
            symbols: Symbols.empty(),
            empty: EmptyFits.empty(),
            broken: None,
        }
    }

    fn symbol(&self, symbol: u32) -> Asked {
        Asked {
            symbols: Symbols.symbol(symbol),
            empty: EmptyFits.symbol(symbol),
            broken: None,
        }
    }

    fn choice(&self, left: Asked, right: Asked) -> Asked {
        Asked {
            symbols: Symbols.choice(left.symbols, right.symbols),
            empty: EmptyFits.choice(left.empty, right.empty),
            broken: left.broken.or(right.broken),
        }
    }

    fn sequence(&self, left: Asked, right: Asked) -> Asked {
        Asked {
            symbols: Symbols.sequence(left.symbols, right.symbols),
            empty: EmptyFits.sequence(left.empty, right.empty),
            broken: self.sides(left, right),
        }
    }

    // as `sequence`, by other methods; its law is another
    fn interleave(&self, left: Asked, right: Asked) -> Asked {
        Asked {
            symbols: Symbols.interleave(left.symbols, right.symbols),
            empty: EmptyFits.interleave(left.empty, right.empty),
            broken: self.sides(left, right),
        }
    }

    fn count(&self, of: Asked, repeats: Repeats) -> Asked {
        Asked {
            symbols: Symbols.count(of.symbols, repeats),
            empty: EmptyFits.count(of.empty, repeats),
            broken: of.broken,
        }
    }

    fn nonempty(&self, of: Asked) -> Asked {
        Asked {
            symbols: Symbols.nonempty(of.symbols),
            empty: EmptyFits.nonempty(of.empty),
            broken: of.broken,
        }
    }
}

impl CoOccurrence<'_> {
    fn first_broken<S: Subject>(&self, subject: &S) -> Option<Verdict>
        ensures { FirstIs (S.breaks subject.now) (co_occurrence_rules (tree_of self.now.expected.model)) result }
    {
        let summary = FirstBroken { subject };
        // one array for each summary (docs/DECISIONS.md, "Lent slices")
        let mut work = [summary.empty(); MOST_PARTS];
        work_up(&summary, &self.expected.model, &mut work).broken
    }
}

impl RuleFamily for CoOccurrence<'_> {
    ghost rules = { λ self. co_occurrence_rules (tree_of self.expected.model) };

    fn broken_by_message(&self, message: &[u32]) -> Option<Verdict> {
        self.first_broken(&OneMessage::of(message))
    }

    fn broken_by_model(&self, model: &Model<'_>) -> Option<Verdict> {
        self.first_broken(&MessagesOf::of(model))
    }
}
