//! Why the next declaration is not given: number, layer and place, and how that is printed.

ghost use Rattle.std.specs.Prelude.{◌≡◌, Some};
ghost use Rattle.text.specs.Refused.{read_notice, read_refusal_said};
ghost use Rattle.text.specs.declared.refusal.ReadRefusal.TheVariants.{Table};

use crate::fault::TextFault;
use parts::refusal::{Layer, Refusal};
use std::fmt;

/// Why a call for the next declaration is refused.
#[derive(Clone, Copy)]
pub enum ReadRefusal {
    /// 1: a sheet of `length` parts, where 256 are wanted
    SheetLength { length: usize },
    /// 14 to 16: the first fault of the text
    Text(TextFault),
    /// 4 to 9: the parts of a declaration are no model, which never comes
    Table(Refusal),
}

impl From<Refusal> for ReadRefusal {
    ghost from_gives = { λ refusal read. read ≡ Table refusal };

    fn from(refusal: Refusal) -> ReadRefusal {
        ReadRefusal::Table(refusal)
    }
}

impl ReadRefusal {
    /// The number of the question that got a no.
    pub fn number(&self) -> u32
        ensures { result ≡ (read_notice self.now).number }
    {
        match self {
            ReadRefusal::SheetLength { .. } => 1,
            ReadRefusal::Text(fault) => fault.cause.number(),
            ReadRefusal::Table(refusal) => refusal.number(),
        }
    }

    pub fn layer(&self) -> Layer
        ensures { result ≡ (read_notice self.now).layer }
    {
        match self {
            ReadRefusal::SheetLength { .. } => Layer::Set,
            ReadRefusal::Text(_) => Layer::Text,
            ReadRefusal::Table(refusal) => refusal.layer(),
        }
    }

    /// The length given for 1, the place of the text's fault in bytes from 0 for 14 to 16.
    pub fn place(&self) -> usize
        ensures { result ≡ (read_notice self.now).place }
    {
        match self {
            ReadRefusal::SheetLength { length } => *length,
            ReadRefusal::Text(fault) => fault.place,
            ReadRefusal::Table(refusal) => refusal.place(),
        }
    }
}

impl fmt::Display for ReadRefusal {
    ghost output = { λ r. Some (read_refusal_said r) };

    fn fmt<W: fmt::Write>(&self, f: &mut fmt::Formatter<W>) -> fmt::Result {
        match self {
            ReadRefusal::SheetLength { length } => {
                let refusal = Refusal::SheetLength { length: *length };
                write!(f, "{refusal}")
            }
            ReadRefusal::Text(fault) => write!(f, "{fault}"),
            ReadRefusal::Table(refusal) => write!(f, "{refusal}"),
        }
    }
}
