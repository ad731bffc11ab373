//! A call of a message set.

use parts::part::Part;

/// What a set is asked, in whichever state it is. A compare may have one family hung behind.
#[derive_where(Clone, Copy)]
pub enum Call<'c, F> {
    Issue,
    Recall,
    Declare {
        number: u32,
        parts: &'c [Part],
    },
    Withdraw {
        number: u32,
    },
    Compare {
        sent: u32,
        expected: u32,
        behind: Option<&'c F>,
    },
    Judge {
        number: u32,
        message: &'c [u32],
    },
}
