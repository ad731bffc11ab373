//! What a call about a table is answered.
ghost use Rattle.answers.specs.Answers.{Answered, CallAnswered, Described, Replied};

use crate::facts::Facts;
use crate::reply::Reply;
use models::model::check::check;
use parts::part::Part;
use parts::refusal::Refusal;
use script::call::Call;
use script::question::Question;

// What is said of the model of the parts, or why they are none.
fn describe(parts: &[Part]) -> Result<Reply, Refusal>
    ensures { Answered parts.now (Described parts.now) result }
{
    let model = check(parts)?;
    Ok(Reply::Model(Facts::of(&model)))
}

// What the model of the parts replies to the question, or why they are none.
fn reply(parts: &[Part], question: Question) -> Result<Reply, Refusal>
    ensures { Answered parts.now (Replied question) result }
{
    let model = check(parts)?;
    Ok(Reply::of(&model, question))
}

/// The answer to a call about a table; none to a call of a message set, which the set answers.
pub fn answer_call(call: &Call) -> Option<Result<Reply, Refusal>>
    ensures { CallAnswered call.now result }
{
    // no table: each call holds other things
    match call {
        Call::Table { parts } => Some(describe(parts.as_slice())),
        Call::Ask { question, parts } => Some(reply(parts.as_slice(), *question)),
        Call::Declare { .. }
        | Call::Withdraw { .. }
        | Call::Issue
        | Call::Recall
        | Call::Compare { .. }
        | Call::Judge { .. } => None,
    }
}
