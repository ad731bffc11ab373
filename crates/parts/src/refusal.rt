//! Why a call is refused: its number, its layer and a place, and how that is printed.

ghost use Rattle.std.specs.Prelude.{◌≡◌, Some};
ghost use Rattle.parts.specs.Refusals.{notice, part_notice, layer_name_of, refusal_said};

use std::fmt;

/// Where a refusal comes from.
#[derive(Clone, Copy)]
pub enum Layer {
    /// a question about the set, a whole sheet or a message
    Set,
    /// a question about one part of a table
    Part,
    /// a fault of a text that models are read from
    Text,
}

/// The first question that a table's parts fail.
#[derive(Clone, Copy)]
pub enum PartFault {
    /// 5: the kind of the part at `place` is not 0 to 6
    UnknownKind { place: usize },
    /// 6: a field of the part at `place` is out of range, or used where the kind has no use for it
    BadFields { place: usize },
    /// 7: fewer parts wait than the part at `place` takes
    TooFewWaiting { place: usize },
    /// 8: the part at `place` drops the empty message of a part without symbols
    NoSymbolTaken { place: usize },
    /// 9: after all parts, `length` of them, not exactly one waits
    NotOneWaiting { length: usize },
}

/// Why a call is refused.
#[derive(Clone, Copy)]
pub enum Refusal {
    /// 1: a sheet of `length` parts, where 8,192 are wanted
    SheetLength { length: usize },
    /// 2: the set has no model numbered `number`; the numbers are 1 to 32
    NoSuchNumber { number: u32 },
    /// 3: a model is declared at `number` already
    AlreadyDeclared { number: u32 },
    /// 4: a table of `length` parts, where 1 to 256 are wanted
    TableLength { length: usize },
    /// 5 to 9
    Part(PartFault),
    /// 10: no model is declared at `number`
    NotDeclared { number: u32 },
    /// 11: the model that is expected, or judged by, has its first conflict at `place`
    Conflict { place: usize },
    /// 12: a message of `length` symbols, where 4,096 at most are wanted
    MessageLength { length: usize },
    /// 13: the symbol at `place` of the message is the first above 63
    SymbolTooLarge { place: usize },
}

impl From<PartFault> for Refusal {
    ghost from_gives = { λ fault refusal. notice refusal ≡ part_notice fault };

    fn from(fault: PartFault) -> Refusal {
        Refusal::Part(fault)
    }
}

impl Refusal {
    /// The number of the question that got a no. A number and no enum, since those who
    /// read refusals know the questions by their numbers (docs/CALLS.md).
    pub fn number(&self) -> u32
        ensures { result ≡ (notice self.now).number }
    {
        match self {
            Refusal::SheetLength { .. } => 1,
            Refusal::NoSuchNumber { .. } => 2,
            Refusal::AlreadyDeclared { .. } => 3,
            Refusal::TableLength { .. } => 4,
            Refusal::Part(PartFault::UnknownKind { .. }) => 5,
            Refusal::Part(PartFault::BadFields { .. }) => 6,
            Refusal::Part(PartFault::TooFewWaiting { .. }) => 7,
            Refusal::Part(PartFault::NoSymbolTaken { .. }) => 8,
            Refusal::Part(PartFault::NotOneWaiting { .. }) => 9,
            Refusal::NotDeclared { .. } => 10,
            Refusal::Conflict { .. } => 11,
            Refusal::MessageLength { .. } => 12,
            Refusal::SymbolTooLarge { .. } => 13,
        }
    }

    pub fn layer(&self) -> Layer
        ensures { result ≡ (notice self.now).layer }
    {
        match self {
            Refusal::Part(_) => Layer::Part,
            _ => Layer::Set,
        }
    }

    /// The part's place for 5 to 8, that of the first conflict for 11 and of the symbol for
    /// 13, the length given for 1, 4, 9 and 12, the model's number for 2, 3 and 10.
    pub fn place(&self) -> usize
        ensures { result ≡ (notice self.now).place }
    {
        match self {
            Refusal::SheetLength { length }
            | Refusal::TableLength { length }
            | Refusal::MessageLength { length }
            | Refusal::Part(PartFault::NotOneWaiting { length }) => *length,
            Refusal::NoSuchNumber { number }
            | Refusal::AlreadyDeclared { number }
            | Refusal::NotDeclared { number } => *number as usize,
            Refusal::Conflict { place }
            | Refusal::SymbolTooLarge { place }
            | Refusal::Part(
                PartFault::UnknownKind { place }
                | PartFault::BadFields { place }
                | PartFault::TooFewWaiting { place }
                | PartFault::NoSymbolTaken { place },
            ) => *place,
        }
    }
}

impl fmt::Display for Layer {
    ghost output = { λ l. Some (layer_name_of l) };

    fn fmt<W: fmt::Write>(&self, f: &mut fmt::Formatter<W>) -> fmt::Result {
        f.write_str(match self {
            Layer::Set => "set",
            Layer::Part => "part",
            Layer::Text => "text",
        })
    }
}

impl fmt::Display for Refusal {
    ghost output = { λ r. Some (refusal_said (notice r)) };

    fn fmt<W: fmt::Write>(&self, f: &mut fmt::Formatter<W>) -> fmt::Result {
        let number = self.number();
        let layer = self.layer();
        let place = self.place();
        write!(f, "refused {number}, {layer}, place {place}")
    }
}
