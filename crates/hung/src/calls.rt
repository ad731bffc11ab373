//! The calls of the seasons.

use crate::families::Family;
use crate::tables;
use parts::part::Part;
use seasons::call::Call;
use std::alloc::{AllocError, Global};

/// The models that are declared, from number 1 on.
const MODELS: [&[Part]; 6] = [
    &tables::A_MAYBE_D,
    &tables::ANY,
    &tables::MAYBE_A,
    &tables::MAYBE_D,
    &tables::ONLY_A,
    &tables::D_THEN_A,
];

/// The numbers of the sent and of the expected model. No message of 1, 3, 4 and 5 breaks a rule
/// of model 2 itself; but 1 may send d, which the board cannot show, 3 may send nothing, 4
/// either of these, and 5 neither. 6 and 4 break a rule of model 1 itself, which comes before
/// what is hung behind.
const PAIRS: [(u32, u32); 6] = [(1, 2), (3, 2), (4, 2), (5, 2), (6, 1), (4, 1)];

fn compare(sent: u32, expected: u32, behind: Option<&Family>) -> Call<'_, Family> {
    Call::Compare {
        sent,
        expected,
        behind,
    }
}

/// Each pair is compared with nothing hung behind, and then with each of the families.
pub(crate) fn mixed_season(
    heap: Global,
    families: &[Family; 4],
) -> Result<Vec<Call<'_, Family>>, AllocError> {
    let mut calls = Vec::new(heap);
    for (number, parts) in (1..).zip(MODELS) {
        calls.push(Call::Declare { number, parts })?;
    }
    calls.push(Call::Issue)?;
    for (sent, expected) in PAIRS {
        calls.push(compare(sent, expected, None))?;
        for family in families {
            calls.push(compare(sent, expected, Some(family)))?;
        }
    }
    calls.extend_from_slice(&questions_with(&families[0]))?;
    Ok(calls)
}

// What is hung behind adds no question and takes none away, and nothing is hung behind a judge.
fn questions_with(family: &Family) -> [Call<'_, Family>; 6] {
    [
        Call::Judge {
            number: 2,
            message: &[3],
        },
        Call::Recall,
        compare(5, 2, Some(family)),
        Call::Withdraw { number: 1 },
        Call::Issue,
        compare(1, 2, Some(family)),
    ]
}

/// Each call once.
pub(crate) fn each_call() -> [Call<'static, Family>; 6] {
    [
        Call::Declare {
            number: 1,
            parts: &tables::ONLY_A,
        },
        Call::Issue,
        compare(1, 1, None),
        Call::Judge {
            number: 1,
            message: &[0],
        },
        Call::Recall,
        Call::Withdraw { number: 1 },
    ]
}
