//! What a model replies to a question, and how a reply is printed.
ghost use Rattle.models.specs.Checked.{tree_of};
ghost use Rattle.std.specs.Prelude.{Some};
ghost use Rattle.answers.specs.Answers.{Replied};
ghost use Rattle.answers.specs.Texts.{fewest_said, reply_said};

use crate::facts::Facts;
use crate::text::yes_or_no;
use models::model::Model;
use occurrences::figure::{Figure, Most};
use occurrences::occurs::occurrences_of;
use script::question::Question;
use std::fmt;
use summaries::after::order_of;
use summaries::brings::brings_of;
use summaries::every::every_of;

/// What a model replies.
#[derive(Clone, Copy)]
pub enum Reply {
    /// What is said of the model itself.
    Model(Facts),
    /// Whether every message, and every nonempty one, has a symbol of the set.
    Every { every: bool, nonempty: bool },
    /// The fewest and the most occurrences of the symbol.
    Occurs { fewest: Option<Figure>, most: Most },
    /// Whether every message with a symbol of the first set has one of the second.
    Brings(bool),
    /// Whether some message has the first symbol after the second.
    After(bool),
}

impl Reply {
    /// The reply of the model to the question. No `From`: it takes a question too.
    pub fn of(model: &Model<'_>, question: Question) -> Reply
        ensures { Replied question (tree_of model.now) result }
    {
        // no table: each question asks another summary
        match question {
            Question::Every { set } => {
                let (every, nonempty) = every_of(model, set);
                Reply::Every { every, nonempty }
            }
            Question::Occurs { symbol } => {
                let occurring = occurrences_of(model, symbol);
                Reply::Occurs {
                    fewest: occurring.fewest,
                    most: occurring.most,
                }
            }
            Question::Brings { first, second } => {
                Reply::Brings(brings_of(model, first, second).brings)
            }
            Question::After { first, second } => Reply::After(order_of(model, first, second).after),
        }
    }
}

impl fmt::Display for Reply {
    ghost output = { λ r. Some (reply_said r) };

    fn fmt<W: fmt::Write>(&self, f: &mut fmt::Formatter<W>) -> fmt::Result {
        match self {
            Reply::Model(facts) => write!(f, "{facts}"),
            Reply::Every { every, nonempty } => {
                let every = yes_or_no(*every);
                let nonempty = yes_or_no(*nonempty);
                write!(f, "every {every}, nonempty {nonempty}")
            }
            Reply::Occurs { fewest, most } => {
                let fewest = Fewest(*fewest);
                write!(f, "fewest {fewest}, most {most}")
            }
            Reply::Brings(answer) | Reply::After(answer) => f.write_str(yes_or_no(*answer)),
        }
    }
}

/// The fewest occurrences, to be printed: an `Option` has no text of its own.
#[derive(Clone, Copy)]
struct Fewest(Option<Figure>);

impl fmt::Display for Fewest {
    ghost output = { λ x. Some (fewest_said x.0) };

    fn fmt<W: fmt::Write>(&self, f: &mut fmt::Formatter<W>) -> fmt::Result {
        match self.0 {
            Some(figure) => write!(f, "{figure}"),
            None => f.write_str("none"),
        }
    }
}
