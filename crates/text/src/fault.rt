//! What is wrong with a text, and where.

ghost use Rattle.std.specs.Prelude.{◌≡◌, Some};
ghost use Rattle.text.specs.Causes.{cause_number, text_notice};
ghost use Rattle.text.specs.Refused.{cause_said, text_fault_said};

use parts::refusal::Layer;
use std::fmt;

/// Why a text cannot be read on. docs/TEXTS.md says when each comes.
#[derive(Clone, Copy, PartialEq, Eq)]
pub enum TextCause {
    /// 14: no text of element declarations begins with what stands up to here and goes on so
    NotDeclarations,
    /// 15: ANY stands as content
    AnyContent,
    /// 15: the name is declared in this text already
    DeclaredAgain,
    /// 16: a name of over 32 bytes
    LongName,
    /// 16: a name that is not yet known, where 64 are
    TooManyNames,
    /// 16: a declaration begins where the text has had 32
    TooManyDeclarations,
    /// 16: a group begins where 16 are open
    TooDeep,
    /// 16: the declaration that ends has over 256 parts
    TooManyParts,
}

/// A cause, and the place at which it stands, in bytes from 0.
#[derive(Clone, Copy)]
pub struct PlacedCause {
    pub cause: TextCause,
    pub place: usize,
}

/// The first fault of a text.
#[derive(Clone, Copy)]
pub struct TextFault {
    pub cause: TextCause,
    /// the place at which it stands, in bytes from 0
    pub place: usize,
    /// how many texts were begun before this one, counted up to 65,535
    pub texts: u16,
    /// how many declarations of this text came before
    pub declarations: u32,
}

impl TextCause {
    /// The cause, at a place.
    pub fn at(self, place: usize) -> PlacedCause
        ensures { result ≡ record { cause = self; place = place } }
    {
        PlacedCause { cause: self, place }
    }

    /// The number of the question that gets a no: 14, 15 or 16.
    pub fn number(&self) -> u32
        ensures { result ≡ cause_number self.now }
    {
        match self {
            TextCause::NotDeclarations => 14,
            TextCause::AnyContent | TextCause::DeclaredAgain => 15,
            TextCause::LongName
            | TextCause::TooManyNames
            | TextCause::TooManyDeclarations
            | TextCause::TooDeep
            | TextCause::TooManyParts => 16,
        }
    }
}

impl fmt::Display for TextCause {
    ghost output = { λ c. Some (cause_said c) };

    fn fmt<W: fmt::Write>(&self, f: &mut fmt::Formatter<W>) -> fmt::Result {
        f.write_str(match self {
            TextCause::NotDeclarations => "no declarations from here on",
            TextCause::AnyContent => "ANY is not taken",
            TextCause::DeclaredAgain => "declared already",
            TextCause::LongName => "a name of over 32 bytes",
            TextCause::TooManyNames => "over 64 names",
            TextCause::TooManyDeclarations => "over 32 declarations",
            TextCause::TooDeep => "over 16 groups open at once",
            TextCause::TooManyParts => "over 256 parts",
        })
    }
}

impl fmt::Display for TextFault {
    ghost output = { λ fault. Some (text_fault_said (text_notice fault)) };

    fn fmt<W: fmt::Write>(&self, f: &mut fmt::Formatter<W>) -> fmt::Result {
        let number = self.cause.number();
        let layer = Layer::Text;
        let place = self.place;
        let texts = self.texts;
        let declarations = self.declarations;
        write!(
            f,
            "refused {number}, {layer}, place {place}, after {texts} texts and {declarations} declarations"
        )
    }
}
