//! What the calls of a script ask of a message set.
ghost use Rattle.std.specs.Prelude.{◌≡◌, IfOk, map};
ghost use Rattle.seasons.specs.Calls.{asked};
ghost use Rattle.runner.specs.Turns.{SetCallIs, asked_in};

use crate::entry::Entry;
use rules::none::NoRules;
use script::call::Call;
use seasons::call::Call as SetCall;
use std::alloc::{AllocError, Global};

// The call of a set, with nothing hung behind; none for a call about a table.
fn set_call<'c>(call: &'c Call) -> Option<SetCall<'c, NoRules>>
    ensures { SetCallIs call.now result }
{
    match call {
        Call::Table { .. } | Call::Ask { .. } => None,
        Call::Declare { number, parts } => Some(SetCall::Declare {
            number: *number,
            parts: parts.as_slice(),
        }),
        Call::Withdraw { number } => Some(SetCall::Withdraw { number: *number }),
        Call::Issue => Some(SetCall::Issue),
        Call::Recall => Some(SetCall::Recall),
        Call::Compare { sent, expected } => Some(SetCall::Compare {
            sent: *sent,
            expected: *expected,
            behind: None,
        }),
        Call::Judge { number, message } => Some(SetCall::Judge {
            number: *number,
            message: message.as_slice(),
        }),
    }
}

/// The calls of the set that the entries make, in turn.
pub(crate) fn set_calls<'e>(
    heap: Global,
    entries: &'e [Entry<'_>],
) -> Result<Vec<SetCall<'e, NoRules>>, AllocError>
    ensures { IfOk result (λ calls. map asked calls.items ≡ asked_in entries.now) }
{
    let mut calls = Vec::new(heap);
    for entry in entries {
        if let Some(call) = set_call(&entry.call) {
            calls.push(call)?;
        }
    }
    Ok(calls)
}
