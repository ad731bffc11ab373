//! The parts of one declaration, as its content is read.

ghost use Rattle.std.specs.Prelude.{◌≡◌, List, [], ◌∷◌};
ghost use Rattle.parts.specs.declared.part.Part.{Part};
ghost use Rattle.text.specs.declared.join.Join.TheVariants as join;
ghost use Rattle.parts.specs.Parts.{blank};
ghost use Rattle.text.specs.Contents.{Made, made_of, MakesMore, AllOf, symbol_part, repeat_part, join_part, mark_parts};

use crate::join::Join;
use crate::mark::Mark;
use parts::part::{MOST_PARTS, Part};
use std::marker::Model;

/// The first 256 parts, and how many there are, where over 256 are counted as 257.
#[derive(Drop)]
pub struct Content {
    parts: [Part; MOST_PARTS],
    count: usize,
}

impl Model for Content {
    ghost use Rattle.std.specs.Prelude.{◌≤◌, min, nat_lt, take};
    ghost use Rattle.text.specs.Contents.{Made};

    ghost Value = { Made };

    ghost view = { λ c. record { first = take (min c.count 256) c.parts; more = nat_lt 256 c.count } };

    ghost invariant = { λ c. c.count ≤ 257 };
}

impl Content {
    /// No parts yet.
    pub fn new() -> Content
        ensures { result ≡ made_of [] }
    {
        Content {
            parts: [Part::BLANK; MOST_PARTS],
            count: 0,
        }
    }

    // A part more.
    fn push(&mut self, part: Part)
        ensures { MakesMore self.old (part ∷ []) self.new }
    {
        if self.count < MOST_PARTS {
            self.parts[self.count] = part;
        }
        if self.count <= MOST_PARTS {
            self.count += 1;
        }
    }

    /// The empty part.
    pub fn nothing(&mut self)
        ensures { MakesMore self.old (blank ∷ []) self.new }
    {
        self.push(Part::BLANK);
    }

    /// A symbol part.
    pub fn symbol(&mut self, symbol: u32)
        ensures { MakesMore self.old (symbol_part symbol ∷ []) self.new }
    {
        self.push(Part {
            kind: 1,
            symbol,
            low: 0,
            high: 0,
        });
    }

    /// What joins the last two.
    pub fn join(&mut self, join: Join)
        ensures { MakesMore self.old (join_part join ∷ []) self.new }
    {
        let kind = match join {
            Join::Choice => 2,
            Join::Sequence => 3,
            Join::Interleave => 4,
        };
        self.push(Part {
            kind,
            symbol: 0,
            low: 0,
            high: 0,
        });
    }

    // The last one, from once without end.
    fn repeat(&mut self)
        ensures { MakesMore self.old (repeat_part ∷ []) self.new }
    {
        self.push(Part {
            kind: 5,
            symbol: 0,
            low: 1,
            high: 0,
        });
    }

    // The last one, or nothing.
    fn option(&mut self)
        ensures { MakesMore self.old (blank ∷ join_part join.Choice ∷ []) self.new }
    {
        self.nothing();
        self.join(Join::Choice);
    }

    /// What a suffix makes of the last one.
    pub fn mark(&mut self, mark: Mark)
        ensures { MakesMore self.old (mark_parts mark) self.new }
    {
        match mark {
            Mark::Optional => self.option(),
            Mark::Repeated => self.repeat(),
            Mark::Any => {
                self.repeat();
                self.option();
            }
        }
    }

    /// The parts, where there are 256 at most.
    pub fn parts(&self) -> Option<&[Part]>
        ensures { (all : List Part) → self.now ≡ made_of all → AllOf all result }
    {
        self.parts.get(..self.count)
    }
}
