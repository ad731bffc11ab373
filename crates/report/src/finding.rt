//! What is found of an element.

ghost use Rattle.std.specs.Prelude.{◌≡◌, length};
ghost use Rattle.std.specs.Option.{option_copied};
ghost use Rattle.report.specs.Findings.{declared_as, FindingIs, found_of};

use comparison::pair::compare_models;
use listing::listed::Listed;
use parts::part::Part;
use rules::verdict::Verdict;

/// What is found of an element of the sent text.
#[derive(Clone, Copy)]
pub enum Finding {
    /// every message of it fits the expected model
    Included,
    /// the first rule of the expected model that some message of it breaks
    Breaks(Verdict),
    /// the expected model, whose name stands at `name`, has its first conflict at `part`
    Conflict { name: usize, part: usize },
    /// the other text does not declare it
    Alone,
}

// What is found where a rule is broken, or none.
fn of_broken(broken: Option<Verdict>) -> Finding
    ensures { result ≡ found_of broken }
{
    match broken {
        None => Finding::Included,
        Some(verdict) => Finding::Breaks(verdict),
    }
}

/// The declaration of a symbol's name.
pub fn declaration_of<'a, 't>(elements: &'a [Listed<'t>], symbol: u32) -> Option<&'a Listed<'t>>
    ensures { option_copied result ≡ declared_as symbol elements.now }
{
    elements.iter().find(|element| element.symbol == symbol)
}

/// Compares the model of an element of the sent text with that of the expected text, over a
/// sheet of 8,192 parts, which is scratch.
pub fn compare_element(sheet: &mut [Part], sent: &Listed<'_>, expected: &[Listed<'_>]) -> Finding
    ensures { length sheet.old ≡ 8192 → FindingIs sent.now expected.now result }
{
    let Some(declared) = declaration_of(expected, sent.symbol) else {
        return Finding::Alone;
    };
    match compare_models(sheet, sent.parts.as_slice(), declared.parts.as_slice()) {
        Ok(broken) => of_broken(broken),
        Err(refusal) => Finding::Conflict {
            name: declared.place,
            part: refusal.place(),
        },
    }
}
