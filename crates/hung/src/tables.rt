//! The tables of the models that the seasons declare. Below, a is symbol 0 and d symbol 3,
//! and e the empty message.

use parts::part::Part;

const EMPTY: Part = Part::BLANK;

const A: Part = Part {
    kind: 1,
    symbol: 0,
    low: 0,
    high: 0,
};

const D: Part = Part {
    kind: 1,
    symbol: 3,
    low: 0,
    high: 0,
};

const CHOICE: Part = Part {
    kind: 2,
    symbol: 0,
    low: 0,
    high: 0,
};

const SEQUENCE: Part = Part {
    kind: 3,
    symbol: 0,
    low: 0,
    high: 0,
};

const INTERLEAVE: Part = Part {
    kind: 4,
    symbol: 0,
    low: 0,
    high: 0,
};

/// a.(d+e): a, and a d.
pub(crate) const A_MAYBE_D: [Part; 5] = [A, D, EMPTY, CHOICE, SEQUENCE];

/// (a+e)&(d+e): a and d in any order, or one of them, or nothing.
pub(crate) const ANY: [Part; 7] = [A, EMPTY, CHOICE, D, EMPTY, CHOICE, INTERLEAVE];

/// a+e: a, or nothing.
pub(crate) const MAYBE_A: [Part; 3] = [A, EMPTY, CHOICE];

/// d+e: d, or nothing.
pub(crate) const MAYBE_D: [Part; 3] = [D, EMPTY, CHOICE];

/// a alone.
pub(crate) const ONLY_A: [Part; 1] = [A];

/// d.a: d a alone.
pub(crate) const D_THEN_A: [Part; 3] = [D, A, SEQUENCE];
