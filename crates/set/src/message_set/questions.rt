//! The questions that more than one call asks, and those about a message.

ghost use Rattle.std.specs.Prelude.{◌≡◌, MatchResult, Some, None, length};
ghost use Rattle.models.specs.Checked.{parts_of};
ghost use Rattle.parts.specs.Refusals.{notice, at_set};
ghost use Rattle.set.specs.Asking.{MessageAsked};

use crate::message::first_outside;
use models::model::Model;
use parts::refusal::Refusal;
use parts::symbols::SymbolSet;

/// How many symbols a message has at most.
pub(super) const MOST_SYMBOLS: usize = 4096;

/// 10: the model that was found at the number.
pub(super) fn declared<'m>(found: Option<Model<'m>>, number: u32) -> Result<Model<'m>, Refusal>
    ensures { MatchResult result (λ model. found.entry ≡ Some model) (λ refusal. (found.entry ≡ None) × (notice refusal ≡ at_set 10 number)) }
{
    found.ok_or(Refusal::NotDeclared { number })
}

/// 12 and 13: whether the message is of a length that is judged, and of symbols only.
pub(super) fn check_message(message: &[u32]) -> Result<(), Refusal>
    ensures { MessageAsked message.now result }
{
    if message.len() > MOST_SYMBOLS {
        return Err(Refusal::MessageLength {
            length: message.len(),
        });
    }
    match first_outside(message, SymbolSet::ALL) {
        Some(place) => Err(Refusal::SymbolTooLarge { place }),
        None => Ok(()),
    }
}
