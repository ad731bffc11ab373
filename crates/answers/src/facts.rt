//! What is said of a model, and how it is printed.
ghost use Rattle.std.specs.Prelude.{Some};
ghost use Rattle.models.specs.Checked.{parts_of, tree_of};
ghost use Rattle.answers.specs.Answers.{FactsOf};
ghost use Rattle.answers.specs.Texts.{facts_said};

use crate::text::yes_or_no;
use models::model::Model;
use models::model::conflict::first_conflict;
use parts::symbols::SymbolSet;
use std::fmt;
use summaries::empty::empty_fits;
use summaries::symbols::symbols_of;

/// What is said of a model.
#[derive(Clone, Copy)]
pub struct Facts {
    parts: usize,
    symbols: SymbolSet,
    empty: bool,
    conflict: Option<usize>,
}

impl Facts {
    /// What is said of the model. No `From`: much is asked of the model.
    pub(crate) fn of(model: &Model<'_>) -> Facts
        ensures { FactsOf (parts_of model.now) (tree_of model.now) result }
    {
        Facts {
            parts: model.parts().len(),
            symbols: symbols_of(model),
            empty: empty_fits(model),
            conflict: first_conflict(model),
        }
    }
}

impl fmt::Display for Facts {
    ghost output = { λ x. Some (facts_said x) };

    fn fmt<W: fmt::Write>(&self, f: &mut fmt::Formatter<W>) -> fmt::Result {
        let parts = self.parts;
        let symbols = self.symbols;
        let empty = yes_or_no(self.empty);
        write!(f, "{parts} parts, symbols {symbols}, empty {empty}, ")?;
        match self.conflict {
            Some(place) => write!(f, "conflict at {place}"),
            None => write!(f, "conflict-free"),
        }
    }
}
