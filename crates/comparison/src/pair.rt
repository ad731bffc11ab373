//! One pair of models compared, over a message set that is made for it.

ghost use Rattle.std.specs.Prelude.{length};
ghost use Rattle.comparison.specs.Pairs.{PairEnds};
ghost use Rattle.set.specs.Histories.{verdict_told};
ghost use Rattle.set.specs.Histories.Told.{included};
ghost use Rattle.set.specs.Law.{Only};

use parts::part::Part;
use parts::refusal::Refusal;
use rules::none::NoRules;
use rules::verdict::Verdict;
use set::message_set::DrawnUp;

// The numbers at which the two are declared.
const SENT: u32 = 1;

const EXPECTED: u32 = 2;

/// Of the rules of the expected model the first that some message of the sent model breaks;
/// none where it is included. The set is made over the caller's sheet of 8,192 parts, and what
/// the sheet held is lost. Another sheet is refused 2 at the number 1; then a table that is no
/// model, the sent one first; then an expected model that has a conflict.
pub fn compare_models(
    sheet: &mut [Part],
    sent: &[Part],
    expected: &[Part],
) -> Result<Option<Verdict>, Refusal>
    ensures { Only (PairEnds (length sheet.old) sent.now expected.now) (verdict_told included result) }
{
    let mut drawn_up = DrawnUp::blank(sheet);
    drawn_up.declare(SENT, sent)?;
    drawn_up.declare(EXPECTED, expected)?;
    let issued = drawn_up.issue();
    issued.compare(SENT, EXPECTED, &NoRules)
}
