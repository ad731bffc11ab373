//! Working up a sheet with any summary.

ghost use Rattle.std.specs.Prelude.{◌≡◌, ◌+◌, ◌<◌, ◌≤◌, List, Some};
ghost use Rattle.models.specs.Checked.{tree_of};
ghost use Rattle.models.specs.Sheets.{shape, join};
ghost use Rattle.models.specs.Told.{Told, AllFormed};
ghost use Rattle.models.specs.Trees.{Tree};
ghost use Rattle.parts.specs.Stacks.{depth, room};

use crate::model::Model;
use crate::summary::Summary;
use parts::part::{Form, MOST_PARTS};
use parts::stack::Stack;

// Takes the values that the form takes, and lets its own wait. Where too few
// wait there is nothing to tell of.
pub(crate) fn apply<S: Summary>(summary: &S, form: Form, stack: &mut Stack<'_, S::Value>)
    requires { depth stack.old < room stack.old }
    ensures grows { depth stack.new ≤ depth stack.old + 1 }
    ensures kept { room stack.new ≡ room stack.old }
    ensures told { (ts us : List Tree) → Told (S.means summary.now) ts stack.old.waiting → join (shape form) ts ≡ Some us → AllFormed us → Told (S.means summary.now) us stack.new.waiting }
{
    let made = match form {
        Form::Empty => Some(summary.empty()),
        Form::Symbol(symbol) => Some(summary.symbol(symbol)),
        Form::Choice => stack
            .pop_two()
            .map(|(left, right)| summary.choice(left, right)),
        Form::Sequence => stack
            .pop_two()
            .map(|(left, right)| summary.sequence(left, right)),
        Form::Interleave => stack
            .pop_two()
            .map(|(left, right)| summary.interleave(left, right)),
        Form::Count(repeats) => stack.pop().map(|of| summary.count(of, repeats)),
        Form::Nonempty => stack.pop().map(|of| summary.nonempty(of)),
    };
    if let Some(value) = made {
        // there is room, so nothing comes back
        let _ = stack.push(value);
    }
}

/// What a summary tells of a model. The working array is scratch: it comes
/// back with whatever was left in it. It is made by repetition where each
/// summary is asked, and not here (docs/DECISIONS.md, "Lent slices").
pub fn work_up<S: Summary>(
    summary: &S,
    model: &Model<'_>,
    work: &mut [S::Value; MOST_PARTS],
) -> S::Value
    ensures { S.means summary.now (tree_of model.now) result }
{
    let mut stack = Stack::new(work);
    for part in model.parts() {
        let Ok(form) = Form::try_from(*part) else {
            unreachable()
        };
        apply(summary, form, &mut stack);
    }
    let Some(value) = stack.pop() else {
        unreachable()
    };
    value
}
