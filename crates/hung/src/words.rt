//! How a call is written: its words as in a script, and what is hung behind it.

use crate::families::{Family, name_of};
use parts::part::Part;
use seasons::call::Call;
use std::fmt;

/// A call to be printed.
#[derive(Clone, Copy)]
pub(crate) struct Words<'a, 'c> {
    pub(crate) call: &'a Call<'c, Family>,
}

impl fmt::Display for Words<'_, '_> {
    fn fmt<W: fmt::Write>(&self, f: &mut fmt::Formatter<W>) -> fmt::Result {
        match self.call {
            Call::Issue => f.write_str("issue"),
            Call::Recall => f.write_str("recall"),
            Call::Withdraw { number } => write!(f, "withdraw {number}"),
            Call::Declare { number, parts } => {
                write!(f, "declare {number}")?;
                write_parts(parts, f)
            }
            Call::Judge { number, message } => {
                let symbols = Symbols { message };
                write!(f, "judge {number}{symbols}")
            }
            Call::Compare {
                sent,
                expected,
                behind,
            } => {
                write!(f, "compare {sent} {expected}")?;
                match behind {
                    Some(family) => {
                        let name = name_of(family);
                        write!(f, ", {name} behind")
                    }
                    None => Ok(()),
                }
            }
        }
    }
}

fn write_parts<W: fmt::Write>(parts: &[Part], f: &mut fmt::Formatter<W>) -> fmt::Result {
    for part in parts {
        let kind = part.kind;
        let symbol = part.symbol;
        let low = part.low;
        let high = part.high;
        write!(f, " {kind}:{symbol}:{low}:{high}")?;
    }
    Ok(())
}

/// The symbols of a message, to be printed with a space before each.
#[derive(Clone, Copy)]
pub(crate) struct Symbols<'a> {
    pub(crate) message: &'a [u32],
}

impl fmt::Display for Symbols<'_> {
    fn fmt<W: fmt::Write>(&self, f: &mut fmt::Formatter<W>) -> fmt::Result {
        for symbol in self.message {
            write!(f, " {symbol}")?;
        }
        Ok(())
    }
}
