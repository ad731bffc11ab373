//! A part of a sheet as it comes from outside, and the form that its kind names.

ghost use Rattle.std.specs.Prelude.{◌≡◌};
ghost use Rattle.parts.specs.Parts.{FormNamed, bounded, are_fields_fit, takes as taken};

/// The largest symbol.
pub const LAST_SYMBOL: u32 = 63;

/// The largest low and high of a count.
pub const MOST_REPEATS: u32 = 10_000;

/// How many parts a model has at most.
pub const MOST_PARTS: usize = 256;

/// One row of a sheet. Each field takes any number, so that a bad table can be
/// written down and refused; so the kind is a number and no enum (docs/DECISIONS.md,
/// "Fields of a part are `u32`"). docs/MODELS.md says what each kind means.
#[derive(Clone, Copy, PartialEq, Eq)]
pub struct Part {
    /// 0 empty, 1 symbol, 2 choice, 3 sequence, 4 interleave, 5 count, 6 nonempty
    pub kind: u32,
    /// the symbol of a symbol part, else 0
    pub symbol: u32,
    /// the fewest repetitions of a count, else 0
    pub low: u32,
    /// the most repetitions of a count, or 0 for no upper end; else 0
    pub high: u32,
}

/// How often the part that a count takes is repeated.
#[derive(Clone, Copy)]
pub struct Repeats {
    /// the fewest repetitions
    pub low: u32,
    /// the most repetitions, or 0 for no upper end: no `Option`, since tables and the
    /// definitions of messages write it so (docs/MODELS.md)
    pub high: u32,
}

/// What a part of a known kind does.
#[derive(Clone, Copy)]
pub enum Form {
    Empty,
    Symbol(u32),
    Choice,
    Sequence,
    Interleave,
    Count(Repeats),
    Nonempty,
}

/// A kind that is not 0 to 6.
#[derive(Clone, Copy)]
pub struct UnknownKind {
    pub kind: u32,
}

/// The form that the kind of a part names.
impl TryFrom<Part> for Form {
    type Error = UnknownKind;

    ghost try_from_gives = { FormNamed };

    fn try_from(part: Part) -> Result<Form, UnknownKind> {
        match part.kind {
            0 => Ok(Form::Empty),
            1 => Ok(Form::Symbol(part.symbol)),
            2 => Ok(Form::Choice),
            3 => Ok(Form::Sequence),
            4 => Ok(Form::Interleave),
            5 => Ok(Form::Count(Repeats {
                low: part.low,
                high: part.high,
            })),
            6 => Ok(Form::Nonempty),
            kind => Err(UnknownKind { kind }),
        }
    }
}

impl Part {
    /// The part whose fields are all 0.
    pub const BLANK: Part = Part {
        kind: 0,
        symbol: 0,
        low: 0,
        high: 0,
    };

    /// Whether the fields that the kind uses are in range, and the others 0.
    pub fn fields_fit(&self) -> bool
        ensures { result ≡ are_fields_fit self.now }
    {
        let uncounted = self.low == 0 && self.high == 0;
        match Form::try_from(*self) {
            Ok(Form::Symbol(symbol)) => symbol <= LAST_SYMBOL && uncounted,
            Ok(Form::Count(repeats)) => self.symbol == 0 && repeats.in_range(),
            _ => self.symbol == 0 && uncounted,
        }
    }
}

impl Repeats {
    /// Whether low is 1 to 10,000, and high low to 10,000 or 0.
    pub fn in_range(&self) -> bool
        ensures { result ≡ bounded self.now.low self.now.high }
    {
        1 <= self.low
            && self.low <= MOST_REPEATS
            && (self.high == 0 || self.low <= self.high && self.high <= MOST_REPEATS)
    }
}

impl Form {
    /// How many of the waiting parts it takes.
    pub fn takes(&self) -> usize
        ensures { result ≡ taken self.now }
    {
        match self {
            Form::Empty | Form::Symbol(_) => 0,
            Form::Choice | Form::Sequence | Form::Interleave => 2,
            Form::Count(_) | Form::Nonempty => 1,
        }
    }
}
