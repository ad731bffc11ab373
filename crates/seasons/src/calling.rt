//! One call of a set in either state.

ghost use Rattle.std.specs.Prelude.{◌≡◌};
ghost use Rattle.set.specs.Histories.Asked.{compare};
ghost use Rattle.set.specs.Leading.{Steps};
ghost use Rattle.set.specs.declared.state.State.TheVariants.{Issued as issued};
ghost use Rattle.seasons.specs.Calls.{hung, told};
ghost use Rattle.seasons.specs.Runs.{DrawnCalled, IssuedCalled};

use crate::answer::Answer;
use crate::call::Call;
use rules::family::RuleFamily;
use rules::none::NoRules;
use set::message_set::{DrawnUp, Issued};
use set::state::State;

/// The answer of a set that is drawn up, unless the call issues it.
pub(crate) fn drawn_up_call<F: RuleFamily>(
    set: &mut DrawnUp<'_>,
    call: &Call<'_, F>,
) -> Option<Answer>
    ensures called { DrawnCalled F.rules call.now result set.old.sheet.now set.old.slots.at set.new.sheet.now set.new.slots.at }
    ensures lender { set.new.sheet.ghost_name ≡ set.old.sheet.ghost_name }
{
    match call {
        Call::Declare { number, parts } => Some(Answer::from(set.declare(*number, parts))),
        Call::Withdraw { number } => Some(Answer::from(set.withdraw(*number))),
        Call::Issue => None,
        Call::Recall => Some(Answer::NotTaken(State::DrawnUp)),
        Call::Compare { .. } => Some(Answer::NotTaken(State::DrawnUp)),
        Call::Judge { .. } => Some(Answer::NotTaken(State::DrawnUp)),
    }
}

// The answer to a compare, with one family hung behind or none.
fn compared<F: RuleFamily>(set: &Issued<'_>, sent: u32, expected: u32, behind: Option<&F>) -> Answer
    ensures { Steps (hung F.rules behind.entry) (compare sent expected) (told result) issued set.now.sheet.now set.now.slots.at issued set.now.sheet.now set.now.slots.at }
{
    let verdict = match behind {
        Some(family) => set.compare(sent, expected, family),
        None => set.compare(sent, expected, &NoRules),
    };
    Answer::of_verdict(verdict, Answer::Included)
}

/// The answer of an issued set, unless the call recalls it.
pub(crate) fn issued_call<F: RuleFamily>(set: &Issued<'_>, call: &Call<'_, F>) -> Option<Answer>
    ensures { IssuedCalled F.rules call.now result set.now.sheet.now set.now.slots.at }
{
    match call {
        Call::Compare {
            sent,
            expected,
            behind,
        } => Some(compared(set, *sent, *expected, *behind)),
        Call::Judge { number, message } => {
            Some(Answer::of_verdict(set.judge(*number, message), Answer::Fits))
        }
        Call::Recall => None,
        Call::Issue => Some(Answer::NotTaken(State::Issued)),
        Call::Declare { .. } => Some(Answer::NotTaken(State::Issued)),
        Call::Withdraw { .. } => Some(Answer::NotTaken(State::Issued)),
    }
}
