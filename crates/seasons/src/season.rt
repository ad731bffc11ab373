//! A list of calls run on one set from blank.

ghost use Rattle.std.specs.Prelude.{◌≡◌, ◌<◌, ◌≤◌, List, IfOk, OnErr, length, min};
ghost use Rattle.parts.specs.declared.part.Part.{Part as PartOf};
ghost use Rattle.set.specs.Histories.{StandsExactly};
ghost use Rattle.set.specs.Leading.{Shows};
ghost use Rattle.set.specs.declared.state.State.TheVariants.{DrawnUp as drawn_up, Issued as issued};
ghost use Rattle.seasons.specs.Runs.{past, call_at, Lawful, OnlyLawful, AnswersFixed, Runs, Beyond};
ghost use Rattle.seasons.specs.declared.call.Call.TheVariants.{Issue, Recall};

use crate::answer::Answer;
use crate::call::Call;
use crate::calling::{drawn_up_call, issued_call};
use parts::part::Part;
use rules::family::RuleFamily;
use set::message_set::{DrawnUp, Issued};
use std::alloc::{AllocError, Global};

// Answers the calls from place `from` on, up to one that issues the set, or to `end`; gives
// the place where it stopped.
fn run_drawn_up<F: RuleFamily>(
    set: &mut DrawnUp<'_>,
    calls: &[Call<'_, F>],
    answers: &mut [Answer],
    from: usize,
    end: usize,
) -> usize
    requires { (from ≤ end) × (end ≤ length calls.now) × (end ≤ length answers.old) }
    ensures within { (from ≤ result) × (result ≤ end) }
    ensures stopped { result < end → call_at result calls.now ≡ Issue }
    ensures beyond { Beyond result answers.old answers.new }
    ensures lender { set.new.sheet.ghost_name ≡ set.old.sheet.ghost_name }
    ensures runs { (first : List PartOf) → Runs F.rules first calls.now answers.old from drawn_up set.old.sheet.now set.old.slots.at → Runs F.rules first calls.now answers.new result drawn_up set.new.sheet.now set.new.slots.at }
{
    for place in from..end {
        match drawn_up_call(set, &calls[place]) {
            Some(answer) => answers[place] = answer,
            None => return place,
        }
    }
    end
}

// The same for an issued set, up to a call that recalls it.
fn run_issued<F: RuleFamily>(
    set: &Issued<'_>,
    calls: &[Call<'_, F>],
    answers: &mut [Answer],
    from: usize,
    end: usize,
) -> usize
    requires { (from ≤ end) × (end ≤ length calls.now) × (end ≤ length answers.old) }
    ensures within { (from ≤ result) × (result ≤ end) }
    ensures stopped { result < end → call_at result calls.now ≡ Recall }
    ensures beyond { Beyond result answers.old answers.new }
    ensures runs { (first : List PartOf) → Runs F.rules first calls.now answers.old from issued set.now.sheet.now set.now.slots.at → Runs F.rules first calls.now answers.new result issued set.now.sheet.now set.now.slots.at }
{
    for place in from..end {
        match issued_call(set, &calls[place]) {
            Some(answer) => answers[place] = answer,
            None => return place,
        }
    }
    end
}

// Runs the first `end` calls from blank, and gives the set back drawn up, so that its sheet
// is known.
fn run<'a, F: RuleFamily>(
    sheet: &'a mut [Part],
    calls: &[Call<'_, F>],
    answers: &mut [Answer],
    end: usize,
) -> DrawnUp<'a>
    requires { (end ≤ length calls.now) × (end ≤ length answers.old) }
    ensures law { Lawful F.rules (length sheet.old) end calls.now answers.new }
    ensures shows { Shows sheet.old (past end calls.now answers.new) result.sheet.now }
    ensures beyond { Beyond end answers.old answers.new }
    ensures lender { result.sheet.ghost_name ≡ sheet.entry.ghost_name }
{
    let mut set = DrawnUp::blank(sheet);
    let mut place = 0usize;
    loop {
        place = run_drawn_up(&mut set, calls, answers, place, end);
        if place == end {
            return set;
        }
        answers[place] = Answer::Granted;
        let in_use = set.issue();
        place = run_issued(&in_use, calls, answers, place + 1, end);
        if place == end {
            return in_use.recall();
        }
        answers[place] = Answer::Granted;
        place += 1;
        set = in_use.recall();
    }
}

/// Runs as many of the calls as there are places for answers, in turn on one set, from blank
/// over the sheet. The law of a whole season is its contract: each call is answered as is due
/// after all that came before it, and the sheet holds exactly the models that stand at the end.
/// Gives how many calls were run; the answers beyond stay. `whole_season` has places for all.
pub fn season<F: RuleFamily>(
    sheet: &mut [Part],
    calls: &[Call<'_, F>],
    answers: &mut [Answer],
) -> usize
    ensures count { result ≡ min (length calls.now) (length answers.old) }
    ensures law { Lawful F.rules (length sheet.old) result calls.now answers.new }
    ensures only { OnlyLawful F.rules (length sheet.old) result calls.now answers.new }
    ensures shows { Shows sheet.old (past result calls.now answers.new) sheet.new }
    ensures beyond { Beyond result answers.old answers.new }
    ensures fixed { AnswersFixed F.rules (length sheet.old) calls.now }
    ensures stands { StandsExactly }
{
    let end = calls.len().min(answers.len());
    let _last = run(sheet, calls, answers, end);
    end
}

/// Runs all of the calls, in turn on one set, from blank over the sheet, by the same law, and
/// gives an answer to each. Where there is no memory for the answers nothing is run, and the
/// sheet stays as it is.
pub fn whole_season<F: RuleFamily>(
    heap: Global,
    sheet: &mut [Part],
    calls: &[Call<'_, F>],
) -> Result<Vec<Answer>, AllocError>
    ensures count { IfOk result (λ answers. length answers.items ≡ length calls.now) }
    ensures law { IfOk result (λ answers. Lawful F.rules (length sheet.old) (length calls.now) calls.now answers.items) }
    ensures only { IfOk result (λ answers. OnlyLawful F.rules (length sheet.old) (length calls.now) calls.now answers.items) }
    ensures shows { IfOk result (λ answers. Shows sheet.old (past (length calls.now) calls.now answers.items) sheet.new) }
    ensures unrun { OnErr result (sheet.new ≡ sheet.old) }
    ensures fixed { AnswersFixed F.rules (length sheet.old) calls.now }
    ensures stands { StandsExactly }
{
    let mut answers = vec![in heap; Answer::Granted; calls.len()]?;
    season(sheet, calls, &mut answers);
    Ok(answers)
}
