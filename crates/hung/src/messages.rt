//! What the families answer about one message.

use crate::families::{Family, name_of};
use crate::words::Symbols;
use makers::board::Board;
use parts::symbols::SymbolSet;
use rules::chain::Chain;
use rules::family::RuleFamily;
use rules::none::NoRules;
use rules::verdict::Verdict;
use std::io;

/// The board cannot show symbol 3, and the machine cannot take an empty message. Symbol 64
/// stands in no rule of either.
const MESSAGES: [&[u32]; 4] = [&[], &[0], &[0, 3], &[64]];

/// Of each family and each message, the first rule that it breaks. The family is lent, behind
/// one without rules, which makes no difference.
pub(crate) fn write_messages<W: io::Write>(families: &[Family; 4], out: &mut W) -> io::Result<()> {
    for family in families {
        let name = name_of(family);
        let chain = Chain::of(NoRules, family);
        for message in MESSAGES {
            write_answer(name, message, chain.broken_by_message(message), out)?;
        }
    }
    Ok(())
}

/// Of two boards in either order, and a message of which neither can show all: the rule of the
/// first board is named.
pub(crate) fn write_two_boards<W: io::Write>(out: &mut W) -> io::Result<()> {
    let message = [0, 3];
    let without_0 = Board {
        shown: SymbolSet { bits: 0b1110 },
    };
    let without_3 = Board {
        shown: SymbolSet { bits: 0b0111 },
    };
    let one = Chain::of(without_0, without_3).broken_by_message(&message);
    write_answer("boards without 0 and without 3", &message, one, out)?;
    let other = Chain::of(without_3, without_0).broken_by_message(&message);
    write_answer("boards without 3 and without 0", &message, other, out)
}

fn write_answer<W: io::Write>(
    name: &str,
    message: &[u32],
    broken: Option<Verdict>,
    out: &mut W,
) -> io::Result<()> {
    let symbols = Symbols { message };
    match broken {
        Some(verdict) => writeln!(out, "{name} asked about{symbols}: {verdict}"),
        None => writeln!(out, "{name} asked about{symbols}: none is broken"),
    }
}
